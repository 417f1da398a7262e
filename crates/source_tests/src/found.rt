use sources::{ChoiceRow, List, StateRow};
use table::{Notice, Source, check};

// What a check reports; all 0 where it reports nothing, and no Option, since the tests keep the values that they had.
pub(crate) fn found<S: Source>(source: &S) -> Notice {
    match check(source) {
        Ok(()) => Notice::default(),
        Err(fault) => fault.notice(),
    }
}

pub(crate) fn at(number: u32, state: u32, choice: u32, branch: u32) -> Notice {
    Notice {
        number,
        state,
        choice,
        branch,
    }
}

// This and the next stand in `modelfile_tests` too: a crate of test helpers would be longer than both.
pub(crate) fn state(first: u32, count: u32) -> StateRow {
    StateRow { first, count }
}

pub(crate) fn choice(reward: i32, first: u32, count: u32) -> ChoiceRow {
    ChoiceRow {
        reward,
        first,
        count,
    }
}

pub(crate) fn in_list<'a>(
    denominator: u32,
    states: &'a [StateRow],
    choices: &'a [ChoiceRow],
    branches: &'a [(u32, u32)],
) -> Notice {
    found(&List::new(denominator, states, choices, branches))
}
