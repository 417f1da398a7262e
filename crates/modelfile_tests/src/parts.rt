use modelfile::{FileFault, FileNotice, Loaded, load};
use sources::{ChoiceRow, StateRow};

// A file with every field: W 4, name "ab", one state with one choice, reward -2, one branch, label "x".
pub(crate) const FULL: [u8; 25] = [
    3, 4, 0, 0, 0, 2, 97, 98, 1, 0, 1, 7, 254, 255, 255, 255, 1, 0, 0, 4, 0, 0, 0, 1, 120,
];

// The start of the field that holds each of its bytes.
pub(crate) const STARTS: [usize; 25] = [
    0, 1, 1, 1, 1, 5, 6, 6, 8, 8, 10, 11, 12, 12, 12, 12, 16, 17, 17, 19, 19, 19, 19, 23, 24,
];

pub(crate) const ROW: StateRow = StateRow { first: 9, count: 9 };

pub(crate) const CHOICE: ChoiceRow = ChoiceRow {
    reward: 9,
    first: 9,
    count: 9,
};

// The row of a state.
pub(crate) fn state(first: u32, count: u32) -> StateRow {
    StateRow { first, count }
}

// The row of a choice.
pub(crate) fn choice(reward: i32, first: u32, count: u32) -> ChoiceRow {
    ChoiceRow {
        reward,
        first,
        count,
    }
}

pub(crate) fn at(number: u32, place: Option<usize>) -> FileNotice {
    FileNotice { number, place }
}

pub(crate) fn counts(denominator: u32, states: u32, choices: u32, branches: u32) -> Loaded {
    Loaded {
        denominator,
        states,
        choices,
        branches,
    }
}

// What a load reports; 0 where it refuses nothing, and no Option, since the tests keep the values that they had.
pub(crate) fn noticed(read: Result<Loaded, FileFault>) -> FileNotice {
    match read {
        Ok(_) => at(0, None),
        Err(fault) => fault.notice(),
    }
}

// What a load into lists of two places reports.
pub(crate) fn report(file: &[u8]) -> FileNotice {
    let mut states = [ROW; 2];
    let mut choices = [CHOICE; 2];
    let mut branches = [(9, 9); 2];
    noticed(load(file, &mut states, &mut choices, &mut branches))
}
