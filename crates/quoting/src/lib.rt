// What the quote program answers, over values: a model file and an input in, lines out.
#![tactic(auto)]

mod answer;
mod open;
mod read;
mod refused;
mod room;
mod run;
mod session;

pub use room::Room;
pub use run::transcript;
pub use session::Console;
