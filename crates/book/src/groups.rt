ghost use Rattle.std.specs.Prelude.{◌≡◌, ◌+◌, ◌≤◌, ◌++◌, length, vec_len, vec_capacity};
ghost use Rattle.decomposition.specs.Decomposed.{node_in};
ghost use Rattle.book.specs.Grouped.{states_at, Grouped};

use decomposition::Parts;

// Adds the states of a node.
fn add_members(parts: &Parts, states: u32, node: u32, members: &mut Vec<u32>)
    requires room { length members.old.items + length (states_at (node_in parts.now) states node) ≤ vec_capacity members.old }
    ensures added { members.new.items ≡ members.old.items ++ states_at (node_in parts.now) states node }
    ensures room { vec_capacity members.old ≤ vec_capacity members.new }
{
    for state in 0..states {
        if parts.node_of(state) == node {
            members.push(state).unwrap();
        }
    }
}

// Writes the states by node, and where the states of each node begin, with the end of the last, over what the lists hold.
// Two flat lists, and no list for each node: flat data is a rule of the project.
// It looks at all states for each node, at most 65,536 tests, once in a load; to count the states of each node and then place them would be linear, but three loops.
pub(crate) fn group_states(
    parts: &Parts,
    states: u32,
    members: &mut Vec<u32>,
    starts: &mut Vec<u32>,
)
    requires few { states ≤ 256 }
    requires member_room { 256 ≤ vec_capacity members.old }
    requires start_room { 257 ≤ vec_capacity starts.old }
    ensures grouped { Grouped (node_in parts.now) states (vec_len parts.now.component) starts.new.items members.new.items }
    ensures member_room { 256 ≤ vec_capacity members.new }
    ensures start_room { 257 ≤ vec_capacity starts.new }
{
    members.clear();
    starts.clear();
    starts.push(0).unwrap();
    for node in 0..parts.nodes() {
        add_members(parts, states, node, members);
        starts.push(members.len() as u32).unwrap();
    }
}
