ghost use Rattle.std.specs.Prelude.{◌≡◌, ◌<◌, length, if◌then◌else◌, int_lt, slice_set};
ghost use Rattle.components.specs.Nodes.{nodes};
ghost use Rattle.rules.specs.Choosing.{eq_z, at_z};
ghost use Rattle.rules.specs.Setting.{setting_of};
ghost use Rattle.rules.specs.Book.{exit_at};
ghost use Rattle.rules.specs.Sweep.{value_or, exit_or, update, sweep, still, sweeps};
ghost use Rattle.book.specs.Desks.{desk_table, desk_book};
ghost use Rattle.book.specs.Sweeps.{same_at};

use crate::desk::Desk;
use crate::side_bounds::SideBounds;
use rules::{Candidate, Exit};

// The exit of the best candidate if it is above what was there, else the one before.
fn exit_or(best: Option<Candidate>, before: i64, exit: Exit) -> Exit
    ensures { result ≡ (if int_lt before (value_or best before) then exit_or best exit else exit) }
{
    match best {
        Some(candidate) if before < candidate.value => candidate.exit,
        _ => exit,
    }
}

// A node's number becomes that of the best candidate; answers whether it is as it was.
fn settle(values: &mut [i64], node: usize, best: Option<Candidate>) -> bool
    requires { node < length values.old }
    ensures values { values.new ≡ slice_set values.old node (value_or best (at_z values.old node)) }
    ensures same { result ≡ eq_z (at_z values.old node) (value_or best (at_z values.old node)) }
{
    let before = values[node];
    let after = best.map_or(before, |candidate| candidate.value);
    values[node] = after;
    before == after
}

// If y rose, the plan becomes the first candidate that attains it.
fn settle_plan(plan: &mut [Exit], node: usize, before: i64, best: Option<Candidate>)
    requires { node < length plan.old }
    ensures { plan.new ≡ slice_set plan.old node (if int_lt before (value_or best before) then exit_or best (exit_at plan.old node) else exit_at plan.old node) }
{
    plan[node] = exit_or(best, before, plan[node]);
}

impl Desk {
    // The update of one node: x, y and the plan; answers whether x and y are as they were.
    fn update_node(&mut self, node: u32) -> bool
        requires { node < nodes (desk_table self.old) }
        ensures table { desk_table self.new ≡ desk_table self.old }
        ensures book { desk_book self.new ≡ update (setting_of (desk_table self.old)) node (desk_book self.old) }
        ensures same { result ≡ same_at (desk_book self.old) (desk_book self.new) node }
    {
        let bounds = SideBounds {
            layout: &self.layout,
            hi: &self.book.hi,
            x: &self.book.x,
            lo: &self.book.lo,
            y: &self.book.y,
        };
        let (upper, lower) = bounds.best_exits(node);
        let place = node as usize;
        let before = self.book.y[place];
        let same_x = settle(&mut self.book.x, place, upper);
        let same_y = settle(&mut self.book.y, place, lower);
        settle_plan(&mut self.book.plan, place, before, lower);
        same_x & same_y
    }

    // All nodes in order, new numbers standing before the next node; answers whether no x and no y differs.
    fn sweep_once(&mut self) -> bool
        ensures table { desk_table self.new ≡ desk_table self.old }
        ensures book { desk_book self.new ≡ sweep (setting_of (desk_table self.old)) (desk_book self.old) }
        ensures still { result ≡ still (setting_of (desk_table self.old)) (desk_book self.old) (sweep (setting_of (desk_table self.old)) (desk_book self.old)) }
    {
        let mut quiet = true;
        for node in 0..self.layout.nodes() {
            quiet &= self.update_node(node);
        }
        quiet
    }

    // At most `count` sweeps: they end after one that altered no x or y. Answers how many were made.
    // A loop: a sweep changes the desk and its answer ends the loop; `find` over such sweeps would hide what it does.
    pub(crate) fn sweep_times(&mut self, count: u64) -> u64
        ensures table { desk_table self.new ≡ desk_table self.old }
        ensures made { result ≡ (sweeps (setting_of (desk_table self.old)) count (desk_book self.old)).made }
        ensures book { desk_book self.new ≡ (sweeps (setting_of (desk_table self.old)) count (desk_book self.old)).book }
    {
        for made in 0..count {
            if self.sweep_once() {
                return made + 1;
            }
        }
        count
    }
}
