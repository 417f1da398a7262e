ghost use Rattle.std.specs.Prelude.{◌≡◌, IfOk, OnErr};
ghost use Rattle.modelfile.specs.Steps.{opened, step, new_cursor, handed, cursor_of};

use crate::cursor::ByteCursor;
use crate::fault::FileFault;
use crate::reader::{Due, Reader};
use crate::record::Record;

const MOST_BYTES: usize = 65_536;

impl<'a> Reader<'a> {
    // A reader at the start of a file of at most 65,536 bytes.
    pub fn new(file: &'a [u8]) -> Result<Reader<'a>, FileFault>
        ensures place { new_cursor result ≡ opened file.now }
        ensures held { IfOk result (λ v. v.cursor.file.now ≡ file.now) }
    {
        if file.len() > MOST_BYTES {
            return Err(FileFault::TooLong);
        }
        Ok(Reader {
            cursor: ByteCursor { file, at: 0 },
            due: Due::Header,
        })
    }

    // The next record, or none at the end of the file. A refusal leaves the reader where it stood.
    // Not `Iterator::next`: after a refusal each call refuses again, so its items would never end, and a `for` wants an end.
    // A second type that ends there would need a flag of its own, for one `while let`.
    // One match over what is due, since that alone says which record stands next: the file has no letter for it.
    pub fn next(&mut self) -> Result<Option<Record<'a>>, FileFault>
        ensures step { handed result self.new ≡ step self.old.cursor.file.now (cursor_of self.old) }
        ensures file { self.new.cursor.file.now ≡ self.old.cursor.file.now }
        ensures refused { OnErr result (self.new ≡ self.old) }
    {
        let mut cursor = self.cursor;
        let (record, choices, states) = match self.due {
            Due::Header => {
                let header = cursor.header()?;
                (Record::Header(header), 0, header.states)
            }
            Due::Rows {
                choices: 0,
                states: 0,
            } => {
                if cursor.at < cursor.file.len() {
                    return Err(FileFault::Trailing { at: cursor.at });
                }
                return Ok(None);
            }
            Due::Rows { choices: 0, states } => {
                let state = cursor.state()?;
                (Record::State(state), state.choices, states - 1)
            }
            Due::Rows { choices, states } => {
                let choice = cursor.choice()?;
                (Record::Choice(choice), choices - 1, states)
            }
        };
        self.cursor = cursor;
        self.due = Due::Rows { choices, states };
        Ok(Some(record))
    }
}
