// Command lines in, answer lines out: what a line of input means, and the bytes of every line that is answered.
#![tactic(auto)]

mod answer;
mod command;
mod input;

pub use answer::{AnswerLine, Places};
pub use command::{Command, read_command};
pub use input::{Lines, next_line};
