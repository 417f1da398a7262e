// The first record of a file: its denominator and its name, where they stand, and how many states follow.
#[derive(Clone, Copy, PartialEq, Eq, Debug)]
pub struct Header<'a> {
    pub denominator: Option<u32>,
    pub name: Option<&'a [u8]>,
    pub states: u32,
}

// A state: how many choices follow.
#[derive(Clone, Copy, PartialEq, Eq, Debug)]
pub struct State {
    pub choices: u32,
}

// A choice: its reward, its branches, 6 bytes each, and its label, where they stand.
#[derive(Clone, Copy, PartialEq, Eq, Debug)]
pub struct Choice<'a> {
    pub reward: Option<i32>,
    pub branches: Option<&'a [u8]>,
    pub label: Option<&'a [u8]>,
}

// A record of a file; its texts and branches are parts of the file's bytes.
#[derive(Clone, Copy, PartialEq, Eq, Debug)]
pub enum Record<'a> {
    Header(Header<'a>),
    State(State),
    Choice(Choice<'a>),
}
