ghost use Rattle.std.specs.Prelude.{◌≡◌, Some};
ghost use Rattle.table.specs.Faults.{noted, notice_text, notice_of};

use std::fmt;

// A broken limit of a table, and where it is broken.
#[derive(Clone, Copy, PartialEq, Eq, Debug)]
pub enum Fault {
    // the number of states
    States,
    // the denominator
    Denominator,
    // the number of choices of a state
    Choices {
        state: u32,
    },
    // the reward of a choice
    Reward {
        state: u32,
        choice: u32,
    },
    // the number of branches of a choice
    Branches {
        state: u32,
        choice: u32,
    },
    // a branch whose successor is no state
    Successor {
        state: u32,
        choice: u32,
        branch: u32,
    },
    // a branch of weight 0
    Weight {
        state: u32,
        choice: u32,
        branch: u32,
    },
    // a branch whose successor an earlier branch of the choice has
    Repeated {
        state: u32,
        choice: u32,
        branch: u32,
    },
    // a choice whose weights do not add up to the denominator
    Sum {
        state: u32,
        choice: u32,
    },
}

// A fault as it is reported: its number and its place, with 0 for what was not reached. Not an Option of a place: a report is
// these four numbers, and by the rules it has a 0 where there is nothing to name.
#[derive(Clone, Copy, PartialEq, Eq, Default, Debug)]
pub struct Notice {
    pub number: u32,
    pub state: u32,
    pub choice: u32,
    pub branch: u32,
}

impl Notice {
    // A notice with no place.
    pub fn of_number(number: u32) -> Notice
        ensures { result ≡ noted number 0 0 0 }
    {
        Notice {
            number,
            ..Notice::default()
        }
    }
}

impl fmt::Display for Notice {
    ghost output = { λ notice. Some (notice_text notice) };

    fn fmt<W: fmt::Write>(&self, f: &mut fmt::Formatter<W>) -> fmt::Result {
        let Notice {
            number,
            state,
            choice,
            branch,
        } = self;
        write!(
            f,
            "{number} at state {state}, choice {choice}, branch {branch}"
        )
    }
}

impl Fault {
    pub fn notice(&self) -> Notice
        ensures { result ≡ notice_of self.now }
    {
        let (number, state, choice, branch) = match *self {
            Fault::States => (11, 0, 0, 0),
            Fault::Denominator => (12, 0, 0, 0),
            Fault::Choices { state } => (13, state, 0, 0),
            Fault::Reward { state, choice } => (14, state, choice, 0),
            Fault::Branches { state, choice } => (15, state, choice, 0),
            Fault::Successor {
                state,
                choice,
                branch,
            } => (16, state, choice, branch),
            Fault::Weight {
                state,
                choice,
                branch,
            } => (17, state, choice, branch),
            Fault::Repeated {
                state,
                choice,
                branch,
            } => (18, state, choice, branch),
            Fault::Sum { state, choice } => (19, state, choice, 0),
        };
        Notice {
            number,
            state,
            choice,
            branch,
        }
    }
}
