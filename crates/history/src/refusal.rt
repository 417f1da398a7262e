ghost use Rattle.std.specs.Prelude.{◌≡◌};
ghost use Rattle.history.specs.Refusals.{refusal_notice};
ghost use Rattle.history.specs.declared.refusal.Refusal.TheVariants as refusal;

use table::{Fault, Notice};

// Why a call is refused.
#[derive(Clone, Copy, PartialEq, Eq, Debug)]
pub enum Refusal {
    // the table breaks a limit
    Table(Fault),
    // the engine is idle
    Idle,
    // there is no such component
    Component,
    // there is no such state
    State,
    // the count is not 1 to 1,000
    Count,
    // the plan's list is shorter than the number of states
    Room,
}

impl Refusal {
    // The refusal's number, and its place in the table where it has one.
    pub fn notice(&self) -> Notice
        ensures { result ≡ refusal_notice self.now }
    {
        match *self {
            Refusal::Table(fault) => fault.notice(),
            Refusal::Idle => Notice::of_number(21),
            Refusal::Component => Notice::of_number(22),
            Refusal::State => Notice::of_number(23),
            Refusal::Count => Notice::of_number(24),
            Refusal::Room => Notice::of_number(25),
        }
    }
}

// A limit that a table breaks is the refusal of its load.
impl From<Fault> for Refusal {
    ghost from_gives = { λ e r. r ≡ refusal.Table e };

    fn from(broken: Fault) -> Refusal {
        Refusal::Table(broken)
    }
}
