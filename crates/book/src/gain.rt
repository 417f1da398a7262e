ghost use Rattle.std.specs.Prelude.{◌≡◌, ◌^◌, ◌<◌, true, ℤ, pos, ◌-ℤ◌, neg_ℤ, ◌≤ℤ◌};
ghost use Rattle.horizon.specs.Means.{round_down, round_up};
ghost use Rattle.components.specs.Nodes.{in_component};
ghost use Rattle.rules.specs.Refine as refining;
ghost use Rattle.rules.specs.Setting.{setting_of};
ghost use Rattle.book.specs.Vectors.{vector_table, numbers};
ghost use Rattle.book.specs.Inside.{over_inside, choice_or};
ghost use Rattle.book.specs.Bounded.{Bounded};

use crate::best::improved;
use crate::mean::{total, worth};
use crate::vector::Vector;
use horizon::{LowerSide, UpperSide};
use rules::{Candidate, Exit};

// What a step adds to a state's number, and with which choice.
#[derive(Clone, Copy)]
pub(crate) struct Gain {
    pub(crate) up: i64,
    pub(crate) down: i64,
    pub(crate) choice: u32,
}

// The choice of an exit that leaves; 0 for one that stays. No Option: only exits of inside choices come here, and each of them leaves.
fn chosen(exit: Exit) -> u32
    ensures { result ≡ choice_or exit 0 }
{
    match exit {
        Exit::Leave { choice, .. } => choice,
        Exit::Stay => 0,
    }
}

// The gain from the best candidates on either side, at a state's own number.
fn gained(above: Candidate, below: Candidate, here: i64) -> Gain
    requires above { (neg_ℤ (pos (2 ^ 40)) ≤ℤ above.value) × (above.value ≤ℤ pos (2 ^ 47)) }
    requires below { (neg_ℤ (pos (2 ^ 40)) ≤ℤ below.value) × (below.value ≤ℤ pos (2 ^ 47)) }
    requires here { (pos 0 ≤ℤ here) × (here ≤ℤ pos (2 ^ 46)) }
    ensures up { result.up ≡ above.value -ℤ here }
    ensures down { result.down ≡ below.value -ℤ here }
    ensures choice { result.choice ≡ choice_or below.exit 0 }
{
    Gain {
        up: above.value - here,
        down: below.value - here,
        choice: chosen(below.exit),
    }
}

impl Vector<'_> {
    // F times the reward of a choice and the mean of the vector after it, rounded up and down; the sum is computed once for both.
    fn worths(&self, state: u32, choice: u32) -> (i64, i64)
        requires state { state < (vector_table self.now).states }
        requires choice { choice < (vector_table self.now).choices state }
        ensures upper { result.0 ≡ refining.worth (setting_of (vector_table self.now)) round_up (numbers self.now) state choice }
        ensures lower { result.1 ≡ refining.worth (setting_of (vector_table self.now)) round_down (numbers self.now) state choice }
    {
        let reward = self.layout.reward(state, choice);
        let sum = total(self.layout.branches_of(state, choice), self.numbers);
        let denominator = self.layout.model.rows.denominator;
        let upper = worth::<UpperSide>(reward, sum, denominator);
        let lower = worth::<LowerSide>(reward, sum, denominator);
        (upper, lower)
    }

    // The best inside choice of a state on either side, each weighted sum computed once for both.
    // A loop: a `fold` over the inside choices would name the same steps in a closure.
    fn best_inside(&self, state: u32) -> (Option<Candidate>, Option<Candidate>)
        requires { state < (vector_table self.now).states }
        ensures upper { result.0 ≡ over_inside (vector_table self.now) (refining.worth (setting_of (vector_table self.now)) round_up (numbers self.now) state) state ((vector_table self.now).choices state) }
        ensures lower { result.1 ≡ over_inside (vector_table self.now) (refining.worth (setting_of (vector_table self.now)) round_down (numbers self.now) state) state ((vector_table self.now).choices state) }
    {
        let mut upper = None;
        let mut lower = None;
        for choice in 0..self.layout.choices(state) {
            if self.layout.is_inside(state, choice) {
                let (above, below) = self.worths(state, choice);
                let exit = Exit::Leave { state, choice };
                upper = improved(upper, Candidate { value: above, exit });
                lower = improved(lower, Candidate { value: below, exit });
            }
        }
        (upper, lower)
    }

    // up(s), down(s), and the first inside choice that attains down(s), of a state of a component.
    pub(crate) fn gain_at(&self, state: u32) -> Gain
        requires state { state < (vector_table self.now).states }
        requires member { in_component (vector_table self.now) state ≡ true }
        ensures up { result.up ≡ refining.gain (setting_of (vector_table self.now)) round_up (numbers self.now) state }
        ensures down { result.down ≡ refining.gain (setting_of (vector_table self.now)) round_down (numbers self.now) state }
        ensures choice { result.choice ≡ refining.attains (setting_of (vector_table self.now)) (numbers self.now) state }
        ensures range { Bounded (2 ^ 48) result.up × Bounded (2 ^ 48) result.down }
    {
        let (upper, lower) = self.best_inside(state);
        let here = self.numbers[state as usize];
        let Some(above) = upper else { unreachable() };
        let Some(below) = lower else { unreachable() };
        gained(above, below, here)
    }
}
