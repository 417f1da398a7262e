use anyhow::Context;

const TOO_EARLY: &str = "the case file ends too early";

// The bytes of a case file that are still to be read.
#[derive(Drop)]
pub(crate) struct CaseFile<'a>(pub(crate) &'a [u8]);

impl<'a> CaseFile<'a> {
    // As many bytes as are wanted.
    fn bytes<const N: usize>(&mut self) -> anyhow::Result<[u8; N]> {
        let (bytes, rest) = self.0.split_first_chunk().context(TOO_EARLY)?;
        self.0 = rest;
        Ok(*bytes)
    }

    pub(crate) fn byte(&mut self) -> anyhow::Result<u8> {
        Ok(u8::from_le_bytes(self.bytes()?))
    }

    // A number of four bytes, the lowest first.
    pub(crate) fn word(&mut self) -> anyhow::Result<u32> {
        Ok(u32::from_le_bytes(self.bytes()?))
    }

    // A number of eight bytes, the lowest first.
    pub(crate) fn long(&mut self) -> anyhow::Result<u64> {
        Ok(u64::from_le_bytes(self.bytes()?))
    }

    // A text: its length in four bytes, then its bytes.
    pub(crate) fn text(&mut self) -> anyhow::Result<&'a [u8]> {
        let length = self.word()? as usize;
        let (text, rest) = self.0.split_at_checked(length).context(TOO_EARLY)?;
        self.0 = rest;
        Ok(text)
    }
}
