// Tests of the console: command lines, input lines and answer lines. The module holds no code of its own.
#![tactic(auto)]

#[cfg(test)]
mod answers;
#[cfg(test)]
mod commands;
#[cfg(test)]
mod inputs;
