ghost use Rattle.std.specs.Prelude.{◌≤◌, vec_len, vec_capacity};
ghost use Rattle.model.specs.declared.sizes.TheConstants.{STATE_PLACES, CHOICE_PLACES};

// What a table is taken apart into: whether each choice is inside, 16 to a state; the node of each state;
// the component that each node is, if it is one; and how many components there are. A list for each: there are other numbers of choices,
// of states and of nodes. Each has room for every lawful table.
#[derive(Drop)]
pub struct Parts {
    pub inside: Vec<bool>,
    pub node: Vec<u32>,
    pub component: Vec<Option<u32>>,
    pub components: u32,
    ghost few: { vec_len component ≤ STATE_PLACES },
    ghost inside_room: { CHOICE_PLACES ≤ vec_capacity inside },
    ghost node_room: { STATE_PLACES ≤ vec_capacity node },
    ghost component_room: { STATE_PLACES ≤ vec_capacity component },
}
