// How a plan goes on from a node: it stays in the component, or it leaves by a choice of a state.
// Not an Option, since its two names are the words of the rules: None would not say that the plan stays.
#[derive(Clone, Copy, PartialEq, Eq, Debug)]
pub enum Exit {
    Stay,
    Leave { state: u32, choice: u32 },
}

// A way to go on from a node, and its number.
#[derive(Clone, Copy, PartialEq, Eq, Debug)]
pub struct Candidate {
    pub value: i64,
    pub exit: Exit,
}
