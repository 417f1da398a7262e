use rules::Exit;

// The numbers kept of a table: of each state, of each component and of each node.
// Each is a list of its own, and not a field of a record for each place: one text serves both sides of a mean and is given
// the lists of its side (hi and x, or lo and y), and a step reads some lists of the states while it writes others.
#[derive(Drop)]
pub struct Book {
    // of each state
    pub(crate) vector: Vec<i64>,
    pub(crate) recorded: Vec<u32>,
    // of each component
    pub(crate) lo: Vec<i64>,
    pub(crate) hi: Vec<i64>,
    // of each node
    pub(crate) x: Vec<i64>,
    pub(crate) y: Vec<i64>,
    pub(crate) plan: Vec<Exit>,
    // working space of a refine step, a place for each state: the halfway numbers, and the choices that attain the gains
    pub(crate) halfway: Vec<i64>,
    pub(crate) marks: Vec<u32>,
}
