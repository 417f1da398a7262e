ghost use Rattle.std.specs.Prelude.{◌≡◌, vec_len};
ghost use Rattle.decomposition.specs.Decomposed.{inside_in, node_in, component_in};

use crate::kept::place;
use crate::parts::Parts;
use table::MOST_CHOICES;

impl Parts {
    // How many nodes there are.
    pub fn nodes(&self) -> u32
        ensures { result ≡ vec_len self.now.component }
    {
        self.component.len() as u32
    }

    // How many components there are.
    pub fn components(&self) -> u32
        ensures { result ≡ self.now.components }
    {
        self.components
    }

    // The node of a state; 0 where there is no such state, as outside every table: a look-up is total.
    pub fn node_of(&self, state: u32) -> u32
        ensures { result ≡ node_in self.now state }
    {
        self.node.get(state as usize).copied().unwrap_or(0)
    }

    // The component that a node is, if it is one.
    pub fn component_at(&self, node: u32) -> Option<u32>
        ensures { result ≡ component_in self.now node }
    {
        self.component.get(node as usize).copied().flatten()
    }

    // Whether a choice is inside.
    pub fn is_inside(&self, state: u32, choice: u32) -> bool
        ensures { result ≡ inside_in self.now state choice }
    {
        choice < MOST_CHOICES
            && self
                .inside
                .get(place(state, choice))
                .copied()
                .unwrap_or(false)
    }
}
