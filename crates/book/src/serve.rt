ghost use Rattle.std.specs.Prelude.{◌≡◌, IfOk, MatchResult};
ghost use Rattle.model.specs.Loads.{StaysAt};
ghost use Rattle.model.specs.Room.{still_table};
ghost use Rattle.components.specs.Nodes.{components as components_of};
ghost use Rattle.rules.specs.Choosing.{at_z};
ghost use Rattle.rules.specs.Setting.{setting_of};
ghost use Rattle.rules.specs.Runs.{changed};
ghost use Rattle.rules.specs.Runs.Change.{refines, sweeping, closing};
ghost use Rattle.rules.specs.Sweep.{sweeps};
ghost use Rattle.book.specs.Desks.{desk_table, desk_book, AtStart, steps_made, bounds_at, plan_in, SmallBound};

use crate::book::Book;
use crate::desk::Desk;
use crate::layout::Layout;
use crate::play::write_nodes;
use crate::start::write_start;
use std::alloc::{AllocError, Global};
use table::{Fault, Source};

// That the table is as it was stands on each call that changes a desk: a type cannot say what a call leaves as it was.
impl Desk {
    // A table of one state that stays, at its start, with room for every lawful table.
    pub fn new(heap: Global) -> Result<Desk, AllocError>
        ensures { IfOk result (AtStart still_table) }
    {
        let layout = Layout::new(heap)?;
        let book = Book::new(heap, &layout)?;
        Ok(Desk { layout, book })
    }

    // Takes the source's table, at its start, in place of the one that it holds, if it is lawful; else it stays as it is, and answers
    // the first broken limit on the walk.
    pub fn load<S: Source>(&mut self, source: &S) -> Result<(), Fault>
        ensures { MatchResult result (λ _. AtStart (S.table source.now) self.new) (StaysAt (S.table source.now) self.old self.new) }
    {
        self.layout.load(source)?;
        self.book.start(&self.layout);
        Ok(())
    }

    // The number of states.
    pub fn states(&self) -> u64
        ensures { result ≡ (desk_table self.now).states }
    {
        u64::from(self.layout.states())
    }

    // The number of components.
    pub fn components(&self) -> u64
        ensures { result ≡ components_of (desk_table self.now) }
    {
        u64::from(self.layout.components())
    }

    // Makes refine steps in a component and answers how many; where there is no such component nothing changes and the answer is 0:
    // the calls of a desk are total, and it is the engine that refuses.
    pub fn refine(&mut self, component: u64, steps: u64, width: u64) -> u64
        ensures made { result ≡ steps_made (desk_table self.old) (desk_book self.old) component steps width }
        ensures table { desk_table self.new ≡ desk_table self.old }
        ensures book { desk_book self.new ≡ changed (setting_of (desk_table self.old)) (refines component steps width) (desk_book self.old) }
    {
        if component >= self.components() {
            return 0;
        }
        self.refine_steps(component as u32, steps, width)
    }

    // lo and hi of a component; 0 where there is no such component: the calls of a desk are total, and it is the engine that refuses.
    pub fn bounds(&self, component: u64) -> (i64, i64)
        ensures lo { result.0 ≡ at_z (desk_book self.now).lo component }
        ensures hi { result.1 ≡ at_z (desk_book self.now).hi component }
    {
        if component >= self.components() {
            return (0, 0);
        }
        let place = component as usize;
        (self.book.lo[place], self.book.hi[place])
    }

    // Makes sweeps and answers how many.
    pub fn sweep(&mut self, count: u64) -> u64
        ensures made { result ≡ (sweeps (setting_of (desk_table self.old)) count (desk_book self.old)).made }
        ensures table { desk_table self.new ≡ desk_table self.old }
        ensures book { desk_book self.new ≡ changed (setting_of (desk_table self.old)) (sweeping count) (desk_book self.old) }
    {
        self.sweep_times(count)
    }

    // Returns the book to its start.
    pub fn close(&mut self)
        ensures table { desk_table self.new ≡ desk_table self.old }
        ensures book { desk_book self.new ≡ changed (setting_of (desk_table self.old)) closing (desk_book self.old) }
    {
        write_start(&self.layout, &mut self.book);
    }

    // The lower and the upper bound of a state; 0 where there is no such state: the calls of a desk are total, and it is the engine that refuses.
    pub fn quote(&self, state: u64) -> (i64, i64)
        ensures bounds { result ≡ bounds_at (desk_table self.now) (desk_book self.now) state }
        ensures small { SmallBound result.0 × SmallBound result.1 }
    {
        if state >= self.states() {
            return (0, 0);
        }
        self.quoted(state as u32)
    }

    // Writes the choice of each state to the front of the list and leaves the rest; a list that is too short stays as it is.
    pub fn plan(&self, list: &mut [u32])
        ensures { list.new ≡ plan_in (desk_table self.now) (desk_book self.now) list.old }
    {
        if (list.len() as u64) < self.states() {
            return;
        }
        write_nodes(&self.layout, &self.book.recorded, &self.book.plan, list);
    }
}
