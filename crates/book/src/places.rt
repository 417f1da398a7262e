ghost use Rattle.std.specs.Prelude.{◌≡◌, ℕ, ◌<◌, ◌+◌, ◌≤◌, length, take, drop, Some, slice_index_or};
ghost use Rattle.components.specs.Inside.{inside};
ghost use Rattle.components.specs.Nodes.{nodes, node_of, components, component_at};
ghost use Rattle.book.specs.Facts.{node_states};
ghost use Rattle.book.specs.Layouts.{layout_table, choice_of};
ghost use Rattle.book.specs.Listed.{link_of};

use crate::layout::Layout;
use sources::ChoiceRow;
use table::MOST_CHOICES;

// The run of a choice in a list, by the row of the choice.
fn run_in(list: &[(u32, u32)], row: ChoiceRow) -> &[(u32, u32)]
    requires { row.first + row.count ≤ length list.now }
    ensures { result.now ≡ take row.count (drop row.first list.now) }
{
    let first = row.first as usize;
    &list[first..first + row.count as usize]
}

// What a layout holds, place by place.
// That a state, a choice, a node or a component is one of the table is asked at each call, since each asks of another one.
// They stand beside the look-ups of a model and of its parts, which are total and test each place: these are of the inner loops, and test nothing.
impl Layout {
    // How many states there are.
    pub(crate) fn states(&self) -> u32
        ensures count { result ≡ (layout_table self.now).states }
        ensures few { result ≤ 256 }
    {
        self.lists.parts.node.len() as u32
    }

    // How many nodes there are.
    #[tactic(auto, using(crate::proofs::Layouts::nodes_few))]
    pub(crate) fn nodes(&self) -> u32
        ensures count { result ≡ nodes (layout_table self.now) }
        ensures few { result ≤ 256 }
    {
        self.lists.parts.component.len() as u32
    }

    // How many components there are.
    #[tactic(auto, using(crate::proofs::Layouts::components_few))]
    pub(crate) fn components(&self) -> u32
        ensures count { result ≡ components (layout_table self.now) }
        ensures few { result ≤ 256 }
    {
        self.lists.home.len() as u32
    }

    // How many choices a state has.
    pub(crate) fn choices(&self, state: u32) -> u32
        requires { state < (layout_table self.now).states }
        ensures { result ≡ (layout_table self.now).choices state }
    {
        self.model.rows.states[state as usize].count
    }

    // The row of a choice.
    fn choice(&self, state: u32, choice: u32) -> ChoiceRow
        requires state { state < (layout_table self.now).states }
        requires choice { choice < (layout_table self.now).choices state }
        ensures { result ≡ choice_of self.now state choice }
    {
        let first = self.model.rows.states[state as usize].first as usize;
        self.model.rows.choices[first + choice as usize]
    }

    // The reward of a choice.
    pub(crate) fn reward(&self, state: u32, choice: u32) -> i32
        requires state { state < (layout_table self.now).states }
        requires choice { choice < (layout_table self.now).choices state }
        ensures { result ≡ (layout_table self.now).reward state choice }
    {
        self.choice(state, choice).reward
    }

    // The branches of a choice, each a successor and a weight.
    pub(crate) fn branches_of(&self, state: u32, choice: u32) -> &[(u32, u32)]
        requires state { state < (layout_table self.now).states }
        requires choice { choice < (layout_table self.now).choices state }
        ensures size { length result.now ≡ (layout_table self.now).branches state choice }
        ensures at { (b : ℕ) → b < (layout_table self.now).branches state choice → slice_index_or result.now b (0, 0) ≡ (layout_table self.now).branch state choice b }
    {
        run_in(&self.model.rows.branches, self.choice(state, choice))
    }

    // The branches of a choice, each the node of the successor and a weight.
    pub(crate) fn links_of(&self, state: u32, choice: u32) -> &[(u32, u32)]
        requires state { state < (layout_table self.now).states }
        requires choice { choice < (layout_table self.now).choices state }
        ensures size { length result.now ≡ (layout_table self.now).branches state choice }
        ensures at { (b : ℕ) → b < (layout_table self.now).branches state choice → slice_index_or result.now b (0, 0) ≡ link_of (node_of (layout_table self.now)) ((layout_table self.now).branch state choice b) }
    {
        run_in(&self.lists.links, self.choice(state, choice))
    }

    // Whether a choice is inside.
    pub(crate) fn is_inside(&self, state: u32, choice: u32) -> bool
        requires state { state < (layout_table self.now).states }
        requires choice { choice < (layout_table self.now).choices state }
        ensures { result ≡ inside (layout_table self.now) state choice }
    {
        // so many flags to a state, as the parts lay them; their own place is a function of crate decomposition alone
        self.lists.parts.inside[MOST_CHOICES as usize * state as usize + choice as usize]
    }

    // The node of a state.
    pub(crate) fn node_of(&self, state: u32) -> u32
        requires { state < (layout_table self.now).states }
        ensures { result ≡ node_of (layout_table self.now) state }
    {
        self.lists.parts.node[state as usize]
    }

    // The component that a node is, if it is one.
    pub(crate) fn component_at(&self, node: u32) -> Option<u32>
        requires { node < nodes (layout_table self.now) }
        ensures { result ≡ component_at (layout_table self.now) node }
    {
        self.lists.parts.component[node as usize]
    }

    // The node of a component.
    pub(crate) fn home_of(&self, component: u32) -> u32
        requires { component < components (layout_table self.now) }
        ensures node { result < nodes (layout_table self.now) }
        ensures home { component_at (layout_table self.now) result ≡ Some component }
    {
        self.lists.home[component as usize]
    }

    // The states of a node, rising.
    pub(crate) fn members_of(&self, node: u32) -> &[u32]
        requires { node < nodes (layout_table self.now) }
        ensures { result.now ≡ node_states (layout_table self.now) node }
    {
        let first = self.lists.starts[node as usize] as usize;
        let end = self.lists.starts[node as usize + 1] as usize;
        &self.lists.members[first..end]
    }
}
