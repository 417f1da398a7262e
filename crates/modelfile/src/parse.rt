ghost use Rattle.std.specs.Prelude.{◌≡◌, ℕ, ◌+◌, ◌^◌, ◌<◌, IfOk};
ghost use Rattle.modelfile.specs.Reading.{ReadsOn};
ghost use Rattle.modelfile.specs.Records.{LowestBits, bit_map, header, state, choice, header_of, choice_of};

use crate::cursor::ByteCursor;
use crate::fault::RecordFault;
use crate::record::{Choice, Header, State};

// The bits of a header's bit map: which of these two fields it has. Numbers, and not a type of flags: a map is read as a number, and each
// bit is asked once.
const DENOMINATOR: u32 = 1;

const NAME: u32 = 2;

// The bits of a choice's bit map: which of these three fields it has.
const REWARD: u32 = 1;

const BRANCHES: u32 = 2;

const LABEL: u32 = 4;

impl<'a> ByteCursor<'a> {
    // A bit map, which says which fields follow; `every` has the bits of all of them.
    fn bit_map(&mut self, every: u32) -> Result<u32, RecordFault>
        requires { LowestBits every }
        ensures { ReadsOn (λ v. v) (bit_map every) self.old self.new result }
    {
        let at = self.at;
        let map = self.number(1)?;
        if map & !every != 0 {
            return Err(RecordFault::UnknownBit { at });
        }
        Ok(map)
    }

    // The record that a file begins with: its bit map, the fields that this names, and how many states follow.
    pub(crate) fn header(&mut self) -> Result<Header<'a>, RecordFault>
        ensures { ReadsOn header_of header self.old self.new result }
    {
        let map = self.bit_map(DENOMINATOR | NAME)?;
        Ok(Header {
            denominator: self.optional(map & DENOMINATOR != 0, |cursor| cursor.number(4))?,
            name: self.optional(map & NAME != 0, ByteCursor::text)?,
            states: self.number(2)?,
        })
    }

    // The record of a state, which has no bit map: how many choices follow.
    pub(crate) fn state(&mut self) -> Result<State, RecordFault>
        ensures { ReadsOn (λ s. s.choices) state self.old self.new result }
    {
        Ok(State {
            choices: self.number(1)?,
        })
    }

    // The record of a choice: its bit map, and the fields that this names.
    pub(crate) fn choice(&mut self) -> Result<Choice<'a>, RecordFault>
        ensures { ReadsOn choice_of choice self.old self.new result }
    {
        let map = self.bit_map(REWARD | BRANCHES | LABEL)?;
        Ok(Choice {
            reward: self.optional(map & REWARD != 0, ByteCursor::signed)?,
            branches: self.optional(map & BRANCHES != 0, ByteCursor::branches)?,
            label: self.optional(map & LABEL != 0, ByteCursor::text)?,
        })
    }
}
