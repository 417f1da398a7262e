// Tests of the sample tables, and of taking a model apart. The module holds no code of its own.
#![tactic(auto)]

#[cfg(test)]
mod samples_tests;
