ghost use Rattle.std.specs.Prelude.{◌≡◌, true};
ghost use Rattle.book.specs.Layouts.{layout_table};
ghost use Rattle.book.specs.Keeps.{keeps};

use crate::book::Book;
use crate::layout::Layout;

// A lawful table with its book.
#[derive(Drop)]
pub struct Desk {
    pub(crate) layout: Layout,
    pub(crate) book: Book,
    ghost kept: { keeps (layout_table layout) book ≡ true },
}
