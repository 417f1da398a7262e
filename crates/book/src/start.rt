ghost use Rattle.std.specs.Prelude.{◌≡◌, ◌<◌, length, IfOk};
ghost use Rattle.components.specs.Nodes.{nodes};
ghost use Rattle.rules.specs.Choosing.{tabulate};
ghost use Rattle.rules.specs.Promises.{lower_at, upper_at};
ghost use Rattle.rules.specs.Setting.{setting_of, bottom, top};
ghost use Rattle.book.specs.Layouts.{layout_table};
ghost use Rattle.book.specs.Desks.{desk_table, desk_book};
ghost use Rattle.book.specs.Books.{HasRoom};
ghost use Rattle.book.specs.Starts.{first_inside, first_exit, Sized, Started};

use crate::book::Book;
use crate::desk::Desk;
use crate::layout::Layout;
use rules::{Exit, SCALE};
use std::alloc::{AllocError, Global};
use table::MOST_STATES;

// The widest bounds: F times the least and the largest reward. Not by a step's `scaled`: that asks for a reward within its limits, and a proof
// of that for these two would be longer than the product.
fn widest(layout: &Layout) -> (i64, i64)
    ensures bottom { result.0 ≡ bottom (setting_of (layout_table layout.now)) }
    ensures top { result.1 ≡ top (setting_of (layout_table layout.now)) }
{
    let model = &layout.model;
    (
        SCALE * i64::from(model.least_reward()),
        SCALE * i64::from(model.largest_reward()),
    )
}

// The first inside choice of a state of a component, and 0 of a lone state, as the rules have it.
pub(crate) fn first_inside(layout: &Layout, state: u32) -> u32
    requires known { state < (layout_table layout.now).states }
    ensures { result ≡ first_inside (layout_table layout.now) state }
{
    (0..layout.choices(state))
        .find(|choice| layout.is_inside(state, *choice))
        .unwrap_or(0)
}

// The plan of a node at the start: a component stays, a lone state plays its choice 0.
fn first_exit(layout: &Layout, node: u32) -> Exit
    requires known { node < nodes (layout_table layout.now) }
    ensures { result ≡ first_exit (layout_table layout.now) node }
{
    match layout.component_at(node) {
        Some(_) => Exit::Stay,
        None => {
            let members = layout.members_of(node);
            Exit::Leave {
                state: members[0],
                choice: 0,
            }
        }
    }
}

// Records the first inside choice of each state. Beside `plan_first` and not one function with the value in a closure: its contract would
// have to tell the list by what the closure may give, for one line less.
fn record_first(layout: &Layout, recorded: &mut [u32])
    requires size { length recorded.old ≡ (layout_table layout.now).states }
    ensures { recorded.new ≡ tabulate (layout_table layout.now).states (first_inside (layout_table layout.now)) }
{
    for (state, choice) in recorded.iter_mut().enumerate() {
        *choice = first_inside(layout, state as u32);
    }
}

// Plans what each node does at the start.
fn plan_first(layout: &Layout, plan: &mut [Exit])
    requires size { length plan.old ≡ nodes (layout_table layout.now) }
    ensures { plan.new ≡ tabulate (nodes (layout_table layout.now)) (first_exit (layout_table layout.now)) }
{
    for (node, exit) in plan.iter_mut().enumerate() {
        *exit = first_exit(layout, node as u32);
    }
}

// Writes the start over whatever the lists hold.
pub(crate) fn write_start(layout: &Layout, book: &mut Book)
    requires sized { Sized (layout_table layout.now) book.old }
    ensures { Started (layout_table layout.now) book.new }
{
    let (bottom, top) = widest(layout);
    book.vector.fill(0);
    book.lo.fill(bottom);
    book.hi.fill(top);
    book.x.fill(top);
    book.y.fill(bottom);
    record_first(layout, &mut book.recorded);
    plan_first(layout, &mut book.plan);
}

impl Book {
    // The book of a layout's table at its start, with room for that of every lawful table.
    pub(crate) fn new(heap: Global, layout: &Layout) -> Result<Book, AllocError>
        ensures { IfOk result (Started (layout_table layout.now)) }
    {
        let most = MOST_STATES as usize;
        let mut book = Book {
            vector: Vec::with_capacity(heap, most)?,
            recorded: Vec::with_capacity(heap, most)?,
            lo: Vec::with_capacity(heap, most)?,
            hi: Vec::with_capacity(heap, most)?,
            x: Vec::with_capacity(heap, most)?,
            y: Vec::with_capacity(heap, most)?,
            plan: Vec::with_capacity(heap, most)?,
            halfway: Vec::with_capacity(heap, most)?,
            marks: Vec::with_capacity(heap, most)?,
        };
        book.start(layout);
        Ok(book)
    }

    // Gives each list the places that it needs of a table, and writes the start.
    pub(crate) fn start(&mut self, layout: &Layout)
        requires { HasRoom self.old }
        ensures { Started (layout_table layout.now) self.new }
    {
        let states = layout.states() as usize;
        let nodes = layout.nodes() as usize;
        let components = layout.components() as usize;
        self.vector.resize(states, 0).unwrap();
        self.recorded.resize(states, 0).unwrap();
        self.lo.resize(components, 0).unwrap();
        self.hi.resize(components, 0).unwrap();
        self.x.resize(nodes, 0).unwrap();
        self.y.resize(nodes, 0).unwrap();
        self.plan.resize(nodes, Exit::Stay).unwrap();
        self.halfway.resize(states, 0).unwrap();
        self.marks.resize(states, 0).unwrap();
        write_start(layout, self);
    }
}

impl Desk {
    // The lower and the upper bound of a state: those of its node.
    pub(crate) fn quoted(&self, state: u32) -> (i64, i64)
        requires { state < (desk_table self.now).states }
        ensures lower { result.0 ≡ lower_at (setting_of (desk_table self.now)) (desk_book self.now) state }
        ensures upper { result.1 ≡ upper_at (setting_of (desk_table self.now)) (desk_book self.now) state }
    {
        let node = self.layout.node_of(state) as usize;
        (self.book.y[node], self.book.x[node])
    }
}
