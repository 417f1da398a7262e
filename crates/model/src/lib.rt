// The engine's own copy of a table, made from any source.
#![tactic(auto)]

mod copy;
mod lend;
mod load;
mod lookup;
mod model;
mod rewards;
mod sizes;

pub use model::Model;
pub use sizes::{BRANCH_PLACES, CHOICE_PLACES, STATE_PLACES};
