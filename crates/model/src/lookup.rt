ghost use Rattle.std.specs.Prelude.{◌≡◌, ℕ, length, slice_index_or};
ghost use Rattle.model.specs.Held.{table_of};

use crate::model::Model;

impl Model {
    // The branches of a choice, in one run: none where there is no such choice.
    pub fn branches_of(&self, state: u32, choice: u32) -> &[(u32, u32)]
        ensures count { length result.now ≡ (table_of self.now).branches state choice }
        ensures each { (b : ℕ) → slice_index_or {A = ℕ × ℕ} result.now b (0, 0) ≡ (table_of self.now).branch state choice b }
    {
        self.rows.list().branches_of(state, choice)
    }

    // The least reward of its table.
    pub fn least_reward(&self) -> i32
        ensures { result ≡ self.now.least }
    {
        self.least
    }

    // The largest reward of its table.
    pub fn largest_reward(&self) -> i32
        ensures { result ≡ self.now.largest }
    {
        self.largest
    }
}
