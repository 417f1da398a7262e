ghost use Rattle.std.specs.Prelude.{◌≡◌, ◌≤◌, map, length, slice_index, vec_capacity};
ghost use Rattle.decomposition.specs.Decomposed.{node_in};
ghost use Rattle.book.specs.Listed.{link_of, Homes};

use decomposition::Parts;

// Writes each branch, with the node of its successor in the successor's place; 0 for a successor that has no node.
fn write_links(node: &[u32], branches: &[(u32, u32)], links: &mut [(u32, u32)])
    requires { length links.old ≡ length branches.now }
    ensures { links.new ≡ map (link_of (slice_index node.now)) branches.now }
{
    for (place, &(successor, weight)) in branches.iter().enumerate() {
        let home = node.get(successor as usize).copied().unwrap_or(0);
        links[place] = (home, weight);
    }
}

// Writes the links of the branches over what the list holds.
pub(crate) fn link_branches(parts: &Parts, branches: &[(u32, u32)], links: &mut Vec<(u32, u32)>)
    requires { length branches.now ≤ vec_capacity links.old }
    ensures links { links.new.items ≡ map (link_of (node_in parts.now)) branches.now }
    ensures room { vec_capacity links.old ≤ vec_capacity links.new }
{
    links.resize(branches.len(), (0, 0)).unwrap();
    write_links(&parts.node, branches, links);
}

// Writes each node at the place of the component that it is.
// The place is another than the node's own, so no `collect` or `fill` makes the list. With `get_mut` in place of the test the search did not prove the loop.
fn write_homes(component: &[Option<u32>], home: &mut [u32])
    requires { length component.now ≤ 256 }
    ensures { Homes component.now home.new }
{
    for (node, known) in component.iter().enumerate() {
        if let Some(known) = *known {
            let place = known as usize;
            if place < home.len() {
                home[place] = node as u32;
            }
        }
    }
}

// Writes the node of each component over what the list holds.
pub(crate) fn list_homes(parts: &Parts, home: &mut Vec<u32>)
    requires { parts.now.components ≤ vec_capacity home.old }
    ensures size { length home.new.items ≡ parts.now.components }
    ensures homes { Homes parts.now.component.items home.new.items }
    ensures room { vec_capacity home.old ≤ vec_capacity home.new }
{
    home.resize(parts.components() as usize, 0).unwrap();
    write_homes(&parts.component, home);
}
