// What was read: the denominator, and how many places of each list are used.
// Counts beside the lists, which stay the caller's: `load` promises that in public.
#[derive(Clone, Copy, PartialEq, Eq, Debug)]
pub struct Loaded {
    pub denominator: u32,
    pub states: u32,
    pub choices: u32,
    pub branches: u32,
}
