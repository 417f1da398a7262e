// Sample tables that several programs read: a day's export, and three tables as large as a table may be.
#![tactic(auto)]

mod day;
mod tables;

pub use day::export;
pub use tables::{Weights, chain, exits, largest};
