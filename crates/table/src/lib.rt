// A table, its limits, the sources that answer from one, and the walk that finds the first broken limit.
#![tactic(auto)]

mod fault;
mod limits;
mod source;
mod walk;

pub use fault::{Fault, Notice};
pub use limits::{MOST_BRANCHES, MOST_CHOICES, MOST_DENOMINATOR, MOST_REWARD, MOST_STATES};
pub use source::Source;
pub use walk::check;
