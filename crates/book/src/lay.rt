ghost use Rattle.std.specs.Prelude.{IfOk, MatchResult};
ghost use Rattle.model.specs.Loads.{StaysAt};
ghost use Rattle.model.specs.Room.{still_table};
ghost use Rattle.book.specs.Facts.{ListsHold};
ghost use Rattle.book.specs.Layouts.{LaidOut};

use crate::groups::group_states;
use crate::layout::Layout;
use crate::listed::{link_branches, list_homes};
use crate::lists::Lists;
use decomposition::{Parts, Scratch};
use model::Model;
use std::alloc::{AllocError, Global};
use table::{Fault, MOST_BRANCHES, MOST_CHOICES, MOST_STATES, Source};

impl Lists {
    // The lists of a model's table, with room for those of every lawful table.
    fn new(heap: Global, model: &Model) -> Result<Lists, AllocError>
        ensures { IfOk result (ListsHold model.now) }
    {
        let states = MOST_STATES as usize;
        let branches = states * MOST_CHOICES as usize * MOST_BRANCHES as usize;
        let mut lists = Lists {
            parts: Parts::new(heap)?,
            links: Vec::with_capacity(heap, branches)?,
            members: Vec::with_capacity(heap, states)?,
            starts: Vec::with_capacity(heap, states + 1)?,
            home: Vec::with_capacity(heap, states)?,
            scratch: Scratch::new(heap)?,
        };
        lists.fill(model);
        Ok(lists)
    }

    // Writes what belongs to a model's table over what the lists hold.
    fn fill(&mut self, model: &Model)
        ensures { ListsHold model.now self.new }
    {
        self.parts.take_apart(&mut self.scratch, model);
        link_branches(&self.parts, &model.rows.branches, &mut self.links);
        group_states(
            &self.parts,
            model.states(),
            &mut self.members,
            &mut self.starts,
        );
        list_homes(&self.parts, &mut self.home);
    }
}

impl Layout {
    // The layout of a table of one state that stays, with room for every lawful table.
    pub fn new(heap: Global) -> Result<Layout, AllocError>
        ensures { IfOk result (LaidOut still_table) }
    {
        let model = Model::new(heap)?;
        let lists = Lists::new(heap, &model)?;
        Ok(Layout { model, lists })
    }

    // Takes the source's table in place of the one that it holds, if it is lawful; else it stays as it is, and answers
    // the first broken limit on the walk.
    pub fn load<S: Source>(&mut self, source: &S) -> Result<(), Fault>
        ensures { MatchResult result (λ _. LaidOut (S.table source.now) self.new) (StaysAt (S.table source.now) self.old self.new) }
    {
        self.model.load(source)?;
        self.lists.fill(&self.model);
        Ok(())
    }
}
