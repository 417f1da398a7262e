ghost use Rattle.std.specs.Prelude.{◌≡◌, length, ◌==◌};
ghost use Rattle.std.specs.List.{position};
ghost use Rattle.std.specs.Iterator.{YieldsFirstRef, at_most};
ghost use Rattle.console.specs.Inputs.{next_line, lines_of, LinesLaw, Within};

// Where the line that begins at `from` ends, and where the next line begins; none at the end of the input.
// Its place is an argument, since a caller may hold an input whole; `Lines` goes by what is left, and asks at 0.
pub fn next_line(input: &[u8], from: usize) -> Option<(usize, usize)>
    ensures finds { result ≡ next_line input.now from }
    ensures within { Within input.now from result }
    ensures law { LinesLaw input.now }
{
    if from >= input.len() {
        return None;
    }
    match line_feed(&input[from..]) {
        Some(length) => Some((from + length, from + length + 1)),
        None => Some((input.len(), input.len())),
    }
}

// Where the first line feed stands.
fn line_feed(bytes: &[u8]) -> Option<usize>
    ensures { result ≡ position (λ b. b == 10) bytes.now }
{
    bytes.iter().position(|byte| *byte == b'\n')
}

// The lines of an input without their line feeds, one after the other. Not std's `split`: after a last line feed that gives
// one more line, an empty one.
#[derive(Clone, Copy, Debug)]
pub struct Lines<'a> {
    rest: &'a [u8],
}

impl<'a> Lines<'a> {
    // All lines of the input.
    pub fn new(input: &'a [u8]) -> Lines<'a>
        ensures { result.rest.now ≡ input.now }
    {
        Lines { rest: input }
    }
}

impl<'a> Iterator for Lines<'a> {
    type Item = &'a [u8];

    ghost next_gives = { YieldsFirstRef (λ s. lines_of s.rest.now) };

    ghost remaining = { λ s. at_most (length s.rest.now) };

    fn next(&mut self) -> Option<&'a [u8]> {
        let (end, next) = next_line(self.rest, 0)?;
        let line = &self.rest[..end];
        self.rest = &self.rest[next..];
        Some(line)
    }
}
