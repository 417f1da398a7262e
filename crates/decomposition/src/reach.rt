ghost use Rattle.std.specs.Prelude.{◌≡◌, ◌<◌, ◌≤◌, length};
ghost use Rattle.components.specs.EndComponent.{Choice};
ghost use Rattle.components.specs.Inside.{reach};
ghost use Rattle.model.specs.Held.{table_of};
ghost use Rattle.decomposition.specs.Bits.{bit_at, Marks};
ghost use Rattle.decomposition.specs.Flags.{flag_at};
ghost use Rattle.decomposition.specs.Marking.{branch_to, one_step, Shows, through, closure};

use crate::bits::{Row, Square, add_row, bit_in};
use crate::kept::Kept;
use model::Model;
use table::{MOST_STATES, Source};

// Marks the successors of a choice in the row of its state.
fn mark_choice(model: &Model, state: u32, choice: u32, square: &mut Square)
    requires { Choice (table_of model.now) state choice }
    ensures { Marks square.old.rows.items square.new.rows.items state (branch_to (table_of model.now) state choice) }
{
    for &(successor, _) in model.branches_of(state, choice) {
        square.set(state, successor);
    }
}

// Marks a state and the successors of its kept choices in its row.
fn mark_state(model: &Model, kept: &Kept, state: u32, square: &mut Square)
    requires { state < (table_of model.now).states }
    ensures { Marks square.old.rows.items square.new.rows.items state (one_step (table_of model.now) (flag_at kept.now.flags.items) state) }
{
    square.set(state, state);
    for choice in 0..model.choices(state) {
        if kept.has(state, choice) {
            mark_choice(model, state, choice, square);
        }
    }
}

// Marks each two states of which one is the other, or leads to it by a kept choice.
fn mark_steps(model: &Model, kept: &Kept, square: &mut Square)
    ensures { Shows (table_of model.now).states square.new.rows.items (one_step (table_of model.now) (flag_at kept.now.flags.items)) }
{
    square.clear();
    for state in 0..model.states() {
        mark_state(model, kept, state, square);
    }
}

// Adds the ways through one state: to each row that reaches it, its row. How many states there are at most is asked where a square comes
// without its model, whose type says it. It takes the rows as a slice: in a method, over
// `self.rows[..states]`, which was tried, nothing is known of the rows after the loop.
fn close_through(rows: &mut [Row], states: u32, middle: u32)
    requires few { states ≤ MOST_STATES }
    requires enough { states ≤ length rows.old }
    requires within { middle < states }
    ensures size { length rows.new ≡ length rows.old }
    ensures ways { Shows states rows.new (through (bit_at rows.old) middle) }
{
    let row = rows[middle as usize];
    for other in &mut rows[..states as usize] {
        if bit_in(other, middle) {
            add_row(other, &row);
        }
    }
}

impl Square {
    // Adds all ways between the first states, by Warshall's rule.
    fn close(&mut self, states: u32)
        requires { states ≤ MOST_STATES }
        ensures { Shows states self.new.rows.items (closure (bit_at self.old.rows.items) states) }
    {
        for middle in 0..states {
            close_through(&mut self.rows, states, middle);
        }
    }
}

// Marks each two states of which one reaches the other by kept choices.
pub(crate) fn mark_reach(model: &Model, kept: &Kept, square: &mut Square)
    ensures { Shows (table_of model.now).states square.new.rows.items (reach (table_of model.now) (flag_at kept.now.flags.items)) }
{
    mark_steps(model, kept, square);
    square.close(model.states());
}
