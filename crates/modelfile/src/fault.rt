ghost use Rattle.std.specs.Prelude.{◌≡◌};
ghost use Rattle.modelfile.specs.Faults.{notice_of};
ghost use Rattle.modelfile.specs.declared.fault.RecordFault.TheVariants.{Bytes};
ghost use Rattle.modelfile.specs.declared.fault.FileFault.TheVariants.{Unread};

// What stops the byte reader. An enum of one kind, as a struct would be no plainer: its variant says what is wrong.
#[derive(Clone, Copy, PartialEq, Eq, Debug)]
pub enum ByteFault {
    // the field that starts at `at` lacks bytes
    Lacking { at: usize },
}

// What stops the reader of one record: a fault of its bytes, held whole, or a bit map.
#[derive(Clone, Copy, PartialEq, Eq, Debug)]
pub enum RecordFault {
    Bytes(ByteFault),
    // the bit map at `at` has a bit that names no field
    UnknownBit { at: usize },
}

// Why a file is refused.
#[derive(Clone, Copy, PartialEq, Eq, Debug)]
pub enum FileFault {
    // one of its records
    Unread(RecordFault),
    // bytes follow the last state, from `at` on
    Trailing { at: usize },
    // it is longer than 65,536 bytes
    TooLong,
    // a list of the caller is too short for it
    ShortList,
}

impl From<ByteFault> for RecordFault {
    ghost from_gives = { λ b r. r ≡ Bytes b };

    fn from(fault: ByteFault) -> RecordFault {
        RecordFault::Bytes(fault)
    }
}

impl From<RecordFault> for FileFault {
    ghost from_gives = { λ b r. r ≡ Unread b };

    fn from(fault: RecordFault) -> FileFault {
        FileFault::Unread(fault)
    }
}

// A refusal as it is reported: its number, and its byte place where it has one.
#[derive(Clone, Copy, PartialEq, Eq, Debug)]
pub struct FileNotice {
    pub number: u32,
    pub place: Option<usize>,
}

impl FileFault {
    // The refusal as it is reported.
    pub fn notice(&self) -> FileNotice
        ensures { result ≡ notice_of self.now }
    {
        let (number, place) = match *self {
            FileFault::Unread(RecordFault::Bytes(ByteFault::Lacking { at })) => (31, Some(at)),
            FileFault::Unread(RecordFault::UnknownBit { at }) => (32, Some(at)),
            FileFault::Trailing { at } => (33, Some(at)),
            FileFault::TooLong => (34, None),
            FileFault::ShortList => (26, None),
        };
        FileNotice { number, place }
    }
}
