ghost use Rattle.sources.specs.Opposites.{opposite_table};

use table::Source;

// The opposite of a source: each reward is negated.
#[derive(Clone, Copy, Drop)]
pub struct Opposite<S>(pub S);

// Each other question goes to the source as it is: a trait has no way to pass all of them on at once.
impl<S: Source> Source for Opposite<S> {
    ghost table = { λ o. opposite_table (S.Source.table o.0) };

    fn states(&self) -> u32 {
        self.0.states()
    }

    fn denominator(&self) -> u32 {
        self.0.denominator()
    }

    fn choices(&self, state: u32) -> u32 {
        self.0.choices(state)
    }

    fn reward(&self, state: u32, choice: u32) -> i32 {
        self.0.reward(state, choice).saturating_neg()
    }

    fn branches(&self, state: u32, choice: u32) -> u32 {
        self.0.branches(state, choice)
    }

    fn branch(&self, state: u32, choice: u32, branch: u32) -> (u32, u32) {
        self.0.branch(state, choice, branch)
    }
}
