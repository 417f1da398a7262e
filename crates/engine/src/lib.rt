// The engine: a table that is loaded, its bounds and its plan, and the calls on them.
#![tactic(auto)]

mod call;
mod calls;
mod engine;
mod histories;
mod space;

pub use call::{Answer, Asked, Call};
pub use engine::Engine;
pub use histories::replay;
pub use space::Space;
