ghost use Rattle.std.specs.Prelude.{◌≡◌, length};
ghost use Rattle.components.specs.Nodes.{nodes, components};
ghost use Rattle.book.specs.Layouts.{layout_table};
ghost use Rattle.book.specs.Bounded.{AllBounded};

use crate::layout::Layout;

// The bounds of both sides, which a sweep reads in one pass, with their layout: those of its components and of its nodes, hi and x of the upper
// side, lo and y of the lower. One value and not one for each side: each of two would hold the layout, and would be asked to hold the same.
#[derive(Clone, Copy)]
pub(crate) struct SideBounds<'a> {
    pub(crate) layout: &'a Layout,
    pub(crate) hi: &'a [i64],
    pub(crate) x: &'a [i64],
    pub(crate) lo: &'a [i64],
    pub(crate) y: &'a [i64],
    ghost hi_size: { length hi.now ≡ components (layout_table layout.now) },
    ghost x_size: { length x.now ≡ nodes (layout_table layout.now) },
    ghost x_small: { AllBounded x.now },
    ghost lo_size: { length lo.now ≡ components (layout_table layout.now) },
    ghost y_size: { length y.now ≡ nodes (layout_table layout.now) },
    ghost y_small: { AllBounded y.now },
}
