ghost use Rattle.std.specs.Prelude.{◌≡◌, ℕ, ◌^◌, ◌<◌, true, ◌⊎◌, length, ℤ, pos, ◌+ℤ◌, ◌-ℤ◌, ◌≤ℤ◌, if◌then◌else◌, int_le, int_lt, slice_index, slice_index_or, slice_set};
ghost use Rattle.horizon.specs.Means.{round_down};
ghost use Rattle.components.specs.Nodes.{components, states_of};
ghost use Rattle.rules.specs.Choosing.{at, at_z, largest, smallest};
ghost use Rattle.rules.specs.Refine as refining;
ghost use Rattle.rules.specs.Setting.{setting_of};
ghost use Rattle.book.specs.Layouts.{layout_table};
ghost use Rattle.book.specs.Books.{book_of, Kept};
ghost use Rattle.book.specs.Desks.{desk_table, desk_book};
ghost use Rattle.book.specs.Bounded.{Bounded};
ghost use Rattle.book.specs.Vectors.{vector_table, numbers};

use crate::book::Book;
use crate::desk::Desk;
use crate::gain::Gain;
use crate::layout::Layout;
use crate::vector::Vector;
use horizon::{LowerSide, Side};
use rules::CAP;

// The extremes over a component: the largest up, the least down, the least and the largest halfway number.
#[derive(Clone, Copy)]
struct Extremes {
    up: i64,
    down: i64,
    least: i64,
    largest: i64,
}

// A number and half of what it gains, rounded down.
fn half_way(here: i64, down: i64) -> i64
    requires here { (pos 0 ≤ℤ here) × (here ≤ℤ pos (2 ^ 46)) }
    requires down { Bounded (2 ^ 48) down }
    ensures { result ≡ here +ℤ round_down down 2 }
{
    here + LowerSide::round(down, 2)
}

// The extremes with those of one more state.
fn widened(found: Extremes, gain: Gain, half: i64) -> Extremes
    ensures up { (found.up ≤ℤ result.up) × (gain.up ≤ℤ result.up) × ((result.up ≡ found.up) ⊎ (result.up ≡ gain.up)) }
    ensures down { (result.down ≤ℤ found.down) × (result.down ≤ℤ gain.down) × ((result.down ≡ found.down) ⊎ (result.down ≡ gain.down)) }
    ensures least { (result.least ≤ℤ found.least) × (result.least ≤ℤ half) × ((result.least ≡ found.least) ⊎ (result.least ≡ half)) }
    ensures largest { (found.largest ≤ℤ result.largest) × (half ≤ℤ result.largest) × ((result.largest ≡ found.largest) ⊎ (result.largest ≡ half)) }
{
    Extremes {
        up: found.up.max(gain.up),
        down: found.down.min(gain.down),
        least: found.least.min(half),
        largest: found.largest.max(half),
    }
}

impl Vector<'_> {
    // Writes the halfway number of each state of a component and the choice that attains its gain; answers the extremes.
    fn survey(&self, component: u32, halfway: &mut [i64], marks: &mut [u32]) -> Extremes
        requires component { component < components (vector_table self.now) }
        requires room { (length halfway.old ≡ (vector_table self.now).states) × (length marks.old ≡ (vector_table self.now).states) }
        ensures up { result.up ≡ refining.largest_up (setting_of (vector_table self.now)) (numbers self.now) component }
        ensures down { result.down ≡ refining.least_down (setting_of (vector_table self.now)) (numbers self.now) component }
        ensures least { result.least ≡ smallest (vector_table self.now).states (states_of (vector_table self.now) component) (refining.halfway (setting_of (vector_table self.now)) (numbers self.now)) }
        ensures largest { result.largest ≡ largest (vector_table self.now).states (states_of (vector_table self.now) component) (refining.halfway (setting_of (vector_table self.now)) (numbers self.now)) }
        ensures halfway { (s : ℕ) → s < (vector_table self.now).states → states_of (vector_table self.now) component s ≡ true → slice_index_or halfway.new s (pos 0) ≡ refining.halfway (setting_of (vector_table self.now)) (numbers self.now) s }
        ensures marks { (s : ℕ) → s < (vector_table self.now).states → states_of (vector_table self.now) component s ≡ true → slice_index marks.new s ≡ refining.attains (setting_of (vector_table self.now)) (numbers self.now) s }
    {
        let node = self.layout.home_of(component);
        // no gain lies past these ends: a start at the first member would write the body of the loop twice
        let mut found = Extremes {
            up: i64::MIN,
            down: i64::MAX,
            least: i64::MAX,
            largest: i64::MIN,
        };
        let members = self.layout.members_of(node);
        for &state in members {
            let gain = self.gain_at(state);
            let half = half_way(self.numbers[state as usize], gain.down);
            halfway[state as usize] = half;
            marks[state as usize] = gain.choice;
            found = widened(found, gain, half);
        }
        found
    }
}

// The numbers of a component become the halfway numbers minus the least of them.
// Here, in `survey` and in `record_marks` the node is asked for before its states, and not the states of the component in one call:
// what a loop has written is told from the rest by the node, so such a call would have to answer the node too.
fn shift(layout: &Layout, component: u32, halfway: &[i64], least: i64, vector: &mut [i64])
    requires component { component < components (layout_table layout.now) }
    requires size { (length vector.old ≡ (layout_table layout.now).states) × (length halfway.now ≡ (layout_table layout.now).states) }
    requires above { (s : ℕ) → s < (layout_table layout.now).states → states_of (layout_table layout.now) component s ≡ true → least ≤ℤ slice_index_or halfway.now s (pos 0) }
    requires near { (s : ℕ) → s < (layout_table layout.now).states → states_of (layout_table layout.now) component s ≡ true → slice_index_or halfway.now s (pos 0) ≤ℤ (least +ℤ pos (2 ^ 46)) }
    ensures { (s : ℕ) → s < (layout_table layout.now).states → slice_index_or vector.new s (pos 0) ≡ (if states_of (layout_table layout.now) component s then slice_index_or halfway.now s (pos 0) -ℤ least else slice_index_or vector.old s (pos 0)) }
{
    let node = layout.home_of(component);
    let members = layout.members_of(node);
    for &state in members {
        vector[state as usize] = halfway[state as usize] - least;
    }
}

// The choices that are marked become the recorded ones of a component.
fn record_marks(layout: &Layout, component: u32, marks: &[u32], recorded: &mut [u32])
    requires component { component < components (layout_table layout.now) }
    requires size { (length recorded.old ≡ (layout_table layout.now).states) × (length marks.now ≡ (layout_table layout.now).states) }
    ensures { (s : ℕ) → s < (layout_table layout.now).states → at recorded.new s ≡ (if states_of (layout_table layout.now) component s then at marks.now s else at recorded.old s) }
{
    let node = layout.home_of(component);
    let members = layout.members_of(node);
    for &state in members {
        recorded[state as usize] = marks[state as usize];
    }
}

// The lower bound of a component rises to a number above it; answers whether it rose.
fn raise(lo: &mut [i64], component: usize, down: i64) -> bool
    requires { component < length lo.old }
    ensures bound { lo.new ≡ slice_set lo.old component (if int_lt (at_z lo.old component) down then down else at_z lo.old component) }
    ensures rises { result ≡ int_lt (at_z lo.old component) down }
{
    let before = lo[component];
    lo[component] = before.max(down);
    before < down
}

// The upper bound of a component falls to a number below it.
fn lower(hi: &mut [i64], component: usize, up: i64)
    requires { component < length hi.old }
    ensures { hi.new ≡ slice_set hi.old component (if int_lt up (at_z hi.old component) then up else at_z hi.old component) }
{
    hi[component] = hi[component].min(up);
}

// Whether the halfway numbers are more than H apart.
fn apart(found: Extremes) -> bool
    requires least { Bounded (2 ^ 50) found.least }
    requires largest { Bounded (2 ^ 50) found.largest }
    ensures { result ≡ int_lt (pos (2 ^ 46)) (found.largest -ℤ found.least) }
{
    CAP < found.largest - found.least
}

// One step at a component; answers whether it was held. It takes the layout and the book of a desk, and is no method of it: it lends six lists of
// the book one after the other, and after each what the desk keeps would have to be shown again, where it is shown here once.
fn refine_step(layout: &Layout, book: &mut Book, component: u32) -> bool
    requires kept { Kept (layout_table layout.now) book.old }
    requires component { component < components (layout_table layout.now) }
    ensures book { book_of book.new ≡ refining.step (setting_of (layout_table layout.now)) component (book_of book.old) }
    ensures held { result ≡ refining.held (setting_of (layout_table layout.now)) (at (book_of book.old).vector) component }
    ensures kept { Kept (layout_table layout.now) book.new }
{
    let vector = Vector {
        layout,
        numbers: &book.vector,
    };
    let found = vector.survey(component, &mut book.halfway, &mut book.marks);
    let held = apart(found);
    let rises = raise(&mut book.lo, component as usize, found.down);
    lower(&mut book.hi, component as usize, found.up);
    if rises {
        record_marks(layout, component, &book.marks, &mut book.recorded);
    }
    if !held {
        shift(
            layout,
            component,
            &book.halfway,
            found.least,
            &mut book.vector,
        );
    }
    held
}

// Whether hi - lo of a component is at most the width.
fn narrow(lo: &[i64], hi: &[i64], component: usize, width: u64) -> bool
    requires lo { component < length lo.now }
    requires hi { component < length hi.now }
    requires low { Bounded (2 ^ 46) (at_z lo.now component) }
    requires high { Bounded (2 ^ 46) (at_z hi.now component) }
    ensures { result ≡ int_le (at_z hi.now component -ℤ at_z lo.now component) (pos width) }
{
    i128::from(hi[component] - lo[component]) <= i128::from(width)
}

impl Desk {
    // At most `steps` steps at a component: they end before a step if hi - lo is at most the width, and after a held step. Answers how many were made.
    // A loop: a step changes the desk and its answer ends the loop; `find` over such steps would hide what it does.
    pub(crate) fn refine_steps(&mut self, component: u32, steps: u64, width: u64) -> u64
        requires { component < components (desk_table self.old) }
        ensures table { desk_table self.new ≡ desk_table self.old }
        ensures made { result ≡ (refining.refine (setting_of (desk_table self.old)) component steps width (desk_book self.old)).made }
        ensures book { desk_book self.new ≡ (refining.refine (setting_of (desk_table self.old)) component steps width (desk_book self.old)).book }
    {
        for made in 0..steps {
            if narrow(&self.book.lo, &self.book.hi, component as usize, width) {
                return made;
            }
            if refine_step(&self.layout, &mut self.book, component) {
                return made + 1;
            }
        }
        steps
    }
}
