ghost use Rattle.std.specs.Prelude.{IfOk, MatchResult};
ghost use Rattle.model.specs.Loads.{Loaded, StaysAt};
ghost use Rattle.model.specs.Room.{still_table};

use crate::copy::copy_states;
use crate::model::Model;
use crate::rewards::{largest_reward, least_reward};
use crate::sizes::{BRANCH_PLACES, CHOICE_PLACES, STATE_PLACES};
use sources::{ChoiceRow, OwnedList, StateRow};
use std::alloc::{AllocError, Global};
use table::{Fault, Source, check};

impl Model {
    // A table of one state that stays, in lists with room for every lawful table: a load then asks for no memory.
    pub fn new(heap: Global) -> Result<Model, AllocError>
        ensures { IfOk result (Loaded still_table) }
    {
        let mut states = Vec::with_capacity(heap, STATE_PLACES)?;
        let mut choices = Vec::with_capacity(heap, CHOICE_PLACES)?;
        let mut branches = Vec::with_capacity(heap, BRANCH_PLACES)?;
        states.push(StateRow { first: 0, count: 1 }).unwrap();
        choices
            .push(ChoiceRow {
                reward: 0,
                first: 0,
                count: 1,
            })
            .unwrap();
        branches.push((0, 1)).unwrap();
        Ok(Model {
            rows: OwnedList {
                denominator: 1,
                states,
                choices,
                branches,
            },
            least: 0,
            largest: 0,
        })
    }

    // Takes the source's table in place of the one that it holds, if it is lawful; else it stays as it is, and answers
    // the first broken limit on the walk.
    pub fn load<S: Source>(&mut self, source: &S) -> Result<(), Fault>
        ensures { MatchResult result (λ _. Loaded (S.table source.now) self.new) (StaysAt (S.table source.now) self.old self.new) }
    {
        check(source)?;
        copy_states(source, &mut self.rows);
        // 0 of no choices, which a lawful table does not have: a `let .. else` for each would only say that it never comes
        self.least = least_reward(&self.rows.choices).unwrap_or(0);
        self.largest = largest_reward(&self.rows.choices).unwrap_or(0);
        Ok(())
    }
}
