ghost use Rattle.std.specs.Prelude.{◌≡◌, ◌+◌, ◌<◌, ◌≤◌, true};
ghost use Rattle.table.specs.Sums.{sum_n};
ghost use Rattle.components.specs.Below.{any, first};
ghost use Rattle.model.specs.Held.{table_of};
ghost use Rattle.decomposition.specs.Bits.{bit_at};
ghost use Rattle.decomposition.specs.Flags.{flag_at};
ghost use Rattle.decomposition.specs.Numbered.{Numbered};

use crate::bits::Square;
use crate::kept::Kept;
use crate::parts::Parts;
use crate::taken::TakenApart;
use model::Model;
use table::{MOST_STATES, Source};

// How many choices a table has.
pub(crate) fn count_choices(model: &Model) -> usize
    ensures { result ≡ sum_n (table_of model.now).states (table_of model.now).choices }
{
    (0..model.states())
        .map(|state| model.choices(state) as usize)
        .sum()
}

// The first state that a state reaches, itself at most.
fn lowest_state(square: &Square, states: u32, state: u32) -> u32
    requires few { states ≤ MOST_STATES }
    requires within { state < states }
    requires itself { bit_at square.now.rows.items state state ≡ true }
    ensures { result ≡ first states (bit_at square.now.rows.items state) }
{
    (0..state)
        .find(|other| square.bit(state, *other))
        .unwrap_or(state)
}

// Whether a state has a kept choice.
fn has_choice(model: &Model, kept: &Kept, state: u32) -> bool
    ensures { result ≡ any ((table_of model.now).choices state) (flag_at kept.now.flags.items state) }
{
    (0..model.choices(state)).any(|choice| kept.has(state, choice))
}

impl Parts {
    // Numbers the node of the next state, with its component if it is one.
    fn add_state(&mut self, apart: &TakenApart, state: u32)
        requires within { state < (table_of apart.now.model.now).states }
        requires so_far { Numbered (table_of apart.now.model.now) state self.old.node.items self.old.component.items self.old.components }
        ensures { Numbered (table_of apart.now.model.now) (state + 1) self.new.node.items self.new.component.items self.new.components }
    {
        let low = lowest_state(apart.square, apart.model.states(), state);
        if low < state {
            let known = self.node[low as usize];
            self.node.push(known).unwrap();
            return;
        }
        let number = self.component.len() as u32;
        let inside = has_choice(apart.model, apart.kept, state);
        self.component
            .push(inside.then_some(self.components))
            .unwrap();
        self.node.push(number).unwrap();
        self.components += u32::from(inside);
    }

    // Numbers all nodes and components by rising lowest state, over what was numbered before.
    pub(crate) fn number(&mut self, apart: &TakenApart)
        ensures { Numbered (table_of apart.now.model.now) (table_of apart.now.model.now).states self.new.node.items self.new.component.items self.new.components }
    {
        self.node.clear();
        self.component.clear();
        self.components = 0;
        for state in 0..apart.model.states() {
            self.add_state(apart, state);
        }
    }
}
