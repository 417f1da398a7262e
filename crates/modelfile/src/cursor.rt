ghost use Rattle.std.specs.Prelude.{◌≡◌, ℕ, ◌+◌, ◌*◌, ◌^◌, ◌<◌, ◌≤◌, length, IfOk, IsTrue, IsFalse, Ok, None, Some, Result};
ghost use Rattle.std.specs.Fn.{FnOnceReturnsAtMut};
ghost use Rattle.std.specs.Option.{option_transpose};
ghost use Rattle.modelfile.specs.Bytes.{field, number, signed, text, branch, branches, branches_in};
ghost use Rattle.modelfile.specs.Reading.{ReadsOn};

use crate::fault::ByteFault;

// A place in a file. The whole file and a place, and not the rest of it: a refusal names the place.
#[derive(Clone, Copy)]
pub(crate) struct ByteCursor<'a> {
    pub(crate) file: &'a [u8],
    // the next byte
    pub(crate) at: usize,
}

// Each method reads on from the cursor's place, and moves the cursor just past what it read; a refusal leaves it on the way there.
impl<'a> ByteCursor<'a> {
    // A field of `size` bytes.
    fn field(&mut self, size: usize) -> Result<&'a [u8], ByteFault>
        ensures value { ReadsOn (λ v. v.now) (field size) self.old self.new result }
        ensures long { IfOk result (λ v. length v.now ≡ size) }
    {
        let rest = self.file.get(self.at..).and_then(|rest| rest.get(..size));
        let field = rest.ok_or(ByteFault::Lacking { at: self.at })?;
        self.at += size;
        Ok(field)
    }

    // A number of at most 4 bytes, the lowest first.
    pub(crate) fn number(&mut self, size: usize) -> Result<u32, ByteFault>
        requires { size ≤ 4 }
        ensures { ReadsOn (λ v. v) (number size) self.old self.new result }
    {
        let mut bytes = [0; 4];
        bytes[..size].copy_from_slice(self.field(size)?);
        Ok(u32::from_le_bytes(bytes))
    }

    // A signed number of four bytes.
    pub(crate) fn signed(&mut self) -> Result<i32, ByteFault>
        ensures { ReadsOn (λ v. v) signed self.old self.new result }
    {
        Ok(self.number(4)?.cast_signed())
    }

    // A text: its length in one byte, then its bytes.
    pub(crate) fn text(&mut self) -> Result<&'a [u8], ByteFault>
        ensures { ReadsOn (λ v. v.now) text self.old self.new result }
    {
        let size = self.number(1)?;
        self.field(size as usize)
    }

    // A branch: its successor and its weight.
    fn branch(&mut self) -> Result<(u32, u32), ByteFault>
        ensures { ReadsOn (λ v. v) branch self.old self.new result }
    {
        Ok((self.number(2)?, self.number(4)?))
    }

    // The branches of a choice, as the bytes in which they stand: how many in one byte, then each.
    pub(crate) fn branches(&mut self) -> Result<&'a [u8], ByteFault>
        ensures { ReadsOn branches_in branches self.old self.new result }
    {
        let count = self.number(1)?;
        let first = self.at;
        for _ in 0..count {
            self.branch()?;
        }
        Ok(&self.file[first..self.at])
    }

    // What `read` reads, where `present`. Not `present.then(|| read(self)).transpose()`, which was tried: the borrow checker does not cover
    // the cursor that such a closure borrows.
    pub(crate) fn optional<T, F: FnOnce(&mut ByteCursor<'a>) -> Result<T, ByteFault>>(
        &mut self,
        present: bool,
        read: F,
    ) -> Result<Option<T>, ByteFault>
        requires { F.IsAlwaysCallable read }
        ensures set { IsTrue present → (r : Result T ByteFault) × FnOnceReturnsAtMut F.FnOnce read self.old r self.new × (result ≡ option_transpose (Some r)) }
        ensures clear { IsFalse present → (result ≡ Ok None) × (self.new ≡ self.old) }
    {
        if present {
            Ok(Some(read(self)?))
        } else {
            Ok(None)
        }
    }
}
