// The decomposition of a table into components, inside choices and nodes.
#![tactic(auto)]

mod apart;
mod bits;
mod kept;
mod lookup;
mod number;
mod parts;
mod passes;
mod reach;
mod scratch;
mod taken;

pub use parts::Parts;
pub use scratch::Scratch;
