ghost use Rattle.model.specs.Held.{table_of};

use crate::model::Model;
use table::Source;

// Each question goes to its rows: a trait has no way to pass all of them on at once.
impl Source for Model {
    ghost table = { table_of };

    fn states(&self) -> u32 {
        self.rows.states()
    }

    fn denominator(&self) -> u32 {
        self.rows.denominator()
    }

    fn choices(&self, state: u32) -> u32 {
        self.rows.choices(state)
    }

    fn reward(&self, state: u32, choice: u32) -> i32 {
        self.rows.reward(state, choice)
    }

    fn branches(&self, state: u32, choice: u32) -> u32 {
        self.rows.branches(state, choice)
    }

    fn branch(&self, state: u32, choice: u32, branch: u32) -> (u32, u32) {
        self.rows.branch(state, choice, branch)
    }
}
