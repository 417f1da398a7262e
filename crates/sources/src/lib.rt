// The kinds of source: lists of a caller or of its own, a rehedging band, and the opposite of any source.
#![tactic(auto)]

mod band;
mod list;
mod opposite;
mod owned;

pub use band::Band;
pub use list::{ChoiceRow, List, StateRow};
pub use opposite::Opposite;
pub use owned::OwnedList;
