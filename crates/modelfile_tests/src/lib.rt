// Tests of the model file. The module holds no code of its own.
#![tactic(auto)]

#[cfg(test)]
mod files;
#[cfg(test)]
mod parts;
