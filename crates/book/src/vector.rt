ghost use Rattle.std.specs.Prelude.{◌≡◌, ℕ, ◌^◌, ◌<◌, length, pos, ◌≤ℤ◌, slice_index_or};
ghost use Rattle.book.specs.Layouts.{layout_table};

use crate::layout::Layout;

// A vector of a layout: a number of each state, from 0 to H.
#[derive(Clone, Copy)]
pub(crate) struct Vector<'a> {
    pub(crate) layout: &'a Layout,
    pub(crate) numbers: &'a [i64],
    ghost size: { length numbers.now ≡ (layout_table layout.now).states },
    ghost natural: { (s : ℕ) → s < length numbers.now → pos 0 ≤ℤ slice_index_or numbers.now s (pos 0) },
    ghost capped: { (s : ℕ) → s < length numbers.now → slice_index_or numbers.now s (pos 0) ≤ℤ pos (2 ^ 46) },
}
