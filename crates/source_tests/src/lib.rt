// Tests of the sources and of the walk over the limits. The module holds no code of its own.
#![tactic(auto)]

#[cfg(test)]
mod bands;
#[cfg(test)]
mod found;
#[cfg(test)]
mod limits;
#[cfg(test)]
mod runs;
