ghost use Rattle.std.specs.Prelude.{◌≡◌, ◌+◌, ◌*◌, ◌≤◌, ◌<◌, length, vec_capacity};
ghost use Rattle.table.specs.Limits.{Lawful};
ghost use Rattle.model.specs.Copy.{BranchesCopied, ChoicesCopied, TableCopied};
ghost use Rattle.model.specs.Room.{HasRoom};

use crate::sizes::BRANCH_PLACES;
use sources::{ChoiceRow, OwnedList, StateRow};
use table::{MOST_BRANCHES, MOST_CHOICES, Source};

// The lists have room for the rows of every lawful table, so that nothing here asks for memory.

// Adds the branches of a choice. They are read into a run of their own first: nothing is written to the lists between two questions,
// so that a source is not asked for the same row again at each branch.
fn copy_branches<S: Source>(source: &S, state: u32, choice: u32, branches: &mut Vec<(u32, u32)>)
    requires few { (S.table source.now).branches state choice ≤ MOST_BRANCHES }
    requires room { length branches.old.items + (S.table source.now).branches state choice ≤ vec_capacity branches.old }
    ensures copied { BranchesCopied (S.table source.now) state choice branches.old.items branches.new.items }
    ensures room { vec_capacity branches.old ≤ vec_capacity branches.new }
{
    let mut run = [(0, 0); MOST_BRANCHES as usize];
    let count = source.branches(state, choice);
    for branch in 0..count {
        run[branch as usize] = source.branch(state, choice, branch);
    }
    branches.extend_from_slice(&run[..count as usize]).unwrap();
}

// Adds the choices of a state, with their branches.
fn copy_choices<S: Source>(
    source: &S,
    state: u32,
    choices: &mut Vec<ChoiceRow>,
    branches: &mut Vec<(u32, u32)>,
)
    requires lawful { Lawful (S.table source.now) }
    requires within { state < (S.table source.now).states }
    requires choice_room { length choices.old.items + MOST_CHOICES ≤ vec_capacity choices.old }
    requires branch_room { length branches.old.items + MOST_CHOICES * MOST_BRANCHES ≤ vec_capacity branches.old }
    requires few { length branches.old.items ≤ BRANCH_PLACES }
    ensures copied { ChoicesCopied (S.table source.now) state ((S.table source.now).choices state) choices.old.items choices.new.items branches.old.items branches.new.items }
    ensures choice_room { vec_capacity choices.old ≤ vec_capacity choices.new }
    ensures branch_room { vec_capacity branches.old ≤ vec_capacity branches.new }
{
    for choice in 0..source.choices(state) {
        let first = branches.len() as u32;
        let reward = source.reward(state, choice);
        let count = source.branches(state, choice);
        copy_branches(source, state, choice, branches);
        choices
            .push(ChoiceRow {
                reward,
                first,
                count,
            })
            .unwrap();
    }
}

// Writes the denominator, and the rows of all states, choices and branches, over what the lists hold.
pub(crate) fn copy_states<S: Source>(source: &S, rows: &mut OwnedList)
    requires lawful { Lawful (S.table source.now) }
    requires room { HasRoom rows.old }
    ensures denominator { rows.new.denominator ≡ (S.table source.now).denominator }
    ensures copied { TableCopied (S.table source.now) rows.new.states.items rows.new.choices.items rows.new.branches.items }
    ensures room { HasRoom rows.new }
{
    rows.denominator = source.denominator();
    rows.states.clear();
    rows.choices.clear();
    rows.branches.clear();
    for state in 0..source.states() {
        let first = rows.choices.len() as u32;
        let count = source.choices(state);
        copy_choices(source, state, &mut rows.choices, &mut rows.branches);
        rows.states.push(StateRow { first, count }).unwrap();
    }
}
