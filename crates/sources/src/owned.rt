ghost use Rattle.std.specs.Prelude.{◌≡◌};
ghost use Rattle.sources.specs.Rows.{owned_table};

use crate::list::{ChoiceRow, List, StateRow};
use table::Source;

// A denominator and three lists of its own, read as `List` reads a caller's.
#[derive(Drop)]
pub struct OwnedList {
    pub denominator: u32,
    pub states: Vec<StateRow>,
    pub choices: Vec<ChoiceRow>,
    pub branches: Vec<(u32, u32)>,
}

impl OwnedList {
    // The source over the lists that it owns.
    pub fn list(&self) -> List<'_>
        ensures denominator { result.denominator ≡ self.now.denominator }
        ensures states { result.states.now ≡ self.now.states.items }
        ensures choices { result.choices.now ≡ self.now.choices.items }
        ensures branches { result.branches.now ≡ self.now.branches.items }
    {
        List::new(
            self.denominator,
            &self.states,
            &self.choices,
            &self.branches,
        )
    }
}

// Each question goes to the list that is lent: a trait has no way to pass all of them on at once.
impl Source for OwnedList {
    ghost table = { owned_table };

    fn states(&self) -> u32 {
        self.list().states()
    }

    fn denominator(&self) -> u32 {
        self.list().denominator()
    }

    fn choices(&self, state: u32) -> u32 {
        self.list().choices(state)
    }

    fn reward(&self, state: u32, choice: u32) -> i32 {
        self.list().reward(state, choice)
    }

    fn branches(&self, state: u32, choice: u32) -> u32 {
        self.list().branches(state, choice)
    }

    fn branch(&self, state: u32, choice: u32, branch: u32) -> (u32, u32) {
        self.list().branch(state, choice, branch)
    }
}
