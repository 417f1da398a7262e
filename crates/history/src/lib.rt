// What an engine answers and holds after every call, as definitions, and the law over whole histories.
// The laws stand on the contracts of the engine's own calls (crate `engine`).
#![tactic(auto)]

mod refusal;

pub use refusal::Refusal;
