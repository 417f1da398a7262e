// The engine's plain inner numbers and the code that works on them.
#![tactic(auto)]

mod best;
mod book;
mod desk;
mod gain;
mod groups;
mod lay;
mod layout;
mod leaving;
mod listed;
mod lists;
mod mean;
mod places;
mod play;
mod refine;
mod serve;
mod side_bounds;
mod start;
mod sweep;
mod vector;

pub use book::Book;
pub use desk::Desk;
pub use layout::Layout;
