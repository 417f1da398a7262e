ghost use Rattle.std.specs.Prelude.{◌≡◌, ◌<◌, false};
ghost use Rattle.components.specs.EndComponent.{Choice};
ghost use Rattle.components.specs.Inside.{inside, reach};
ghost use Rattle.model.specs.Held.{table_of};
ghost use Rattle.decomposition.specs.Flags.{flag_at, Flagged, AllSet};
ghost use Rattle.decomposition.specs.Marking.{leads_back, Shows};
ghost use Rattle.decomposition.specs.Dropping.{DroppedChoice, DroppedState, DroppedAll, Passed};

use crate::bits::Square;
use crate::kept::Kept;
use crate::number::count_choices;
use crate::reach::mark_reach;
use model::Model;
use table::Source;

// Whether each successor of a choice reaches its state, by marks of what reaches what.
fn leads_back(model: &Model, square: &Square, state: u32, choice: u32) -> bool
    requires { Choice (table_of model.now) state choice }
    ensures { result ≡ leads_back (table_of model.now) square.now.rows.items state choice }
{
    model
        .branches_of(state, choice)
        .iter()
        .all(|&(successor, _)| square.bit(successor, state))
}

// Drops a choice that does not lead back, and says whether it was there.
fn drop_choice(model: &Model, square: &Square, state: u32, choice: u32, kept: &mut Kept) -> bool
    requires { Choice (table_of model.now) state choice }
    ensures { DroppedChoice (table_of model.now) square.now.rows.items state choice kept.old.flags.items kept.new.flags.items result }
{
    if !kept.has(state, choice) {
        return false;
    }
    if leads_back(model, square, state, choice) {
        return false;
    }
    kept.remove(state, choice);
    true
}

// Drops the choices of a state that do not lead back, and says whether there were any.
fn drop_state(model: &Model, square: &Square, state: u32, kept: &mut Kept) -> bool
    requires { state < (table_of model.now).states }
    ensures { DroppedState (table_of model.now) square.now.rows.items state ((table_of model.now).choices state) kept.old.flags.items kept.new.flags.items result }
{
    let mut changed = false;
    for choice in 0..model.choices(state) {
        changed |= drop_choice(model, square, state, choice, kept);
    }
    changed
}

// Drops each choice that does not lead back, and says whether there were any.
fn drop_choices(model: &Model, square: &Square, kept: &mut Kept) -> bool
    ensures { DroppedAll (table_of model.now) square.now.rows.items (table_of model.now).states kept.old.flags.items kept.new.flags.items result }
{
    let mut changed = false;
    for state in 0..model.states() {
        changed |= drop_state(model, square, state, kept);
    }
    changed
}

// Model, marks and kept choices stay three values here, of which one is written while the others are read: of one value,
// each contract would also have to say what it leaves as it was.

// One pass: keeps the choices from whose every successor their state is reached, and says whether any was dropped;
// if none was, the marks are still those of the kept choices.
fn pass(model: &Model, kept: &mut Kept, square: &mut Square) -> bool
    ensures passed { Passed (table_of model.now) kept.old.flags.items kept.new.flags.items result }
    ensures marked { result ≡ false → Shows (table_of model.now).states square.new.rows.items (reach (table_of model.now) (flag_at kept.new.flags.items)) }
{
    mark_reach(model, kept, square);
    drop_choices(model, square, kept)
}

// Passes from all choices until nothing is dropped: the inside choices are left, and marks of what reaches what by them.
pub(crate) fn settle(model: &Model, kept: &mut Kept, square: &mut Square)
    requires { AllSet (table_of model.now) kept.old.flags.items }
    ensures kept { Flagged (table_of model.now) kept.new.flags.items (inside (table_of model.now)) }
    ensures marked { Shows (table_of model.now).states square.new.rows.items (reach (table_of model.now) (flag_at kept.new.flags.items)) }
{
    for _turn in 0..count_choices(model) {
        if !pass(model, kept, square) {
            return;
        }
    }
    mark_reach(model, kept, square);
}
