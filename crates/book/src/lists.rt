ghost use Rattle.std.specs.Prelude.{◌≤◌, vec_capacity};

use decomposition::{Parts, Scratch};

// The parts of a table, and its branches, states and components listed by them. Not a list for each state or choice: flat data is a rule of the project.
// Each list has room for every lawful table, so that a load asks for no memory.
#[derive(Drop)]
pub(crate) struct Lists {
    pub(crate) parts: Parts,
    // the branches with the node of the successor in the successor's place
    pub(crate) links: Vec<(u32, u32)>,
    // the states by node, rising within a node, and where the states of each node begin, with the end of the last
    pub(crate) members: Vec<u32>,
    pub(crate) starts: Vec<u32>,
    // the node of each component
    pub(crate) home: Vec<u32>,
    // working space of a load
    pub(crate) scratch: Scratch,
    ghost links_room: { 32768 ≤ vec_capacity links },
    ghost members_room: { 256 ≤ vec_capacity members },
    ghost starts_room: { 257 ≤ vec_capacity starts },
    ghost home_room: { 256 ≤ vec_capacity home },
}
