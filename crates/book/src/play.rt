ghost use Rattle.std.specs.Prelude.{◌≡◌, ℕ, ◌<◌, ◌≤◌, true, false, None, length, drop, ◌≢◌};
ghost use Rattle.components.specs.Below.{any};
ghost use Rattle.components.specs.Nodes.{nodes, node_of};
ghost use Rattle.rules.specs.Book.{exit_at};
ghost use Rattle.rules.specs.Choosing.{at};
ghost use Rattle.book.specs.RunSums.{place_at};
ghost use Rattle.book.specs.Layouts.{layout_table};
ghost use Rattle.book.specs.Plays.{mark_at, has_mark, inside_into, first_into, Fresh, Measured, Ready, play_by};
ghost use Rattle.rules.specs.Fit.{PlanFits};
ghost use Rattle.rules.specs.Setting.{setting_of};

use crate::layout::Layout;
use rules::Exit;
use table::MOST_STATES;

// Whether a branch of a run leads to a state with the mark.
fn enters(run: &[(u32, u32)], distances: &[Option<u32>], mark: u32) -> bool
    requires inside { (b : ℕ) → b < length run.now → place_at run.now b < length distances.now }
    ensures { result ≡ any (length run.now) (λ b. has_mark distances.now mark (place_at run.now b)) }
{
    run.iter()
        .any(|branch| distances[branch.0 as usize] == Some(mark))
}

// A layout and the marks of its states: how far each is from a target, where that is known.
#[derive(Clone, Copy)]
struct Marked<'a> {
    layout: &'a Layout,
    distances: &'a [Option<u32>],
    ghost room: { (layout_table layout.now).states ≤ length distances.now },
}

impl Marked<'_> {
    // Whether a choice is inside and has a branch to a state with the mark.
    fn inside_into(&self, state: u32, choice: u32, mark: u32) -> bool
        requires known { state < (layout_table self.now.layout.now).states }
        requires chosen { choice < (layout_table self.now.layout.now).choices state }
        ensures { result ≡ inside_into (layout_table self.now.layout.now) self.now.distances.now mark state choice }
    {
        self.layout.is_inside(state, choice)
            && enters(self.layout.branches_of(state, choice), self.distances, mark)
    }

    // The first inside choice of a state with a branch to a state with the mark, or how many choices the state has:
    // the rules name that number too where there is none, so an Option would only be read back as it where a choice is played.
    fn first_into(&self, state: u32, mark: u32) -> u32
        requires known { state < (layout_table self.now.layout.now).states }
        ensures { result ≡ first_into (layout_table self.now.layout.now) self.now.distances.now mark state }
    {
        let count = self.layout.choices(state);
        (0..count)
            .find(|choice| self.inside_into(state, *choice, mark))
            .unwrap_or(count)
    }

    // Whether a state has no mark yet, and an inside choice with a branch to a state with the mark `round`.
    fn fresh(&self, round: u32, state: u32) -> bool
        requires known { state < (layout_table self.now.layout.now).states }
        ensures found { result ≡ true → Fresh (layout_table self.now.layout.now) round state self.now.distances.now }
        ensures missed { result ≡ false → Fresh (layout_table self.now.layout.now) round state self.now.distances.now → ⊥ }
    {
        self.distances[state as usize].is_none()
            && self.first_into(state, round) < self.layout.choices(state)
    }

    // The choice that a state plays under the exit of its node.
    fn played(&self, recorded: &[u32], exit: Exit, state: u32) -> u32
        requires known { state < (layout_table self.now.layout.now).states }
        requires recorded { (layout_table self.now.layout.now).states ≤ length recorded.now }
        requires ready { Ready (layout_table self.now.layout.now) (node_of (layout_table self.now.layout.now) state) exit self.now.distances.now }
        ensures { result ≡ play_by (layout_table self.now.layout.now) recorded.now exit state }
    {
        match exit {
            Exit::Stay => recorded[state as usize],
            Exit::Leave {
                state: target,
                choice,
            } => {
                if state == target {
                    choice
                } else {
                    let Some(distance) = self.distances[state as usize] else {
                        unreachable()
                    };
                    self.first_into(state, distance - 1)
                }
            }
        }
    }

    // Writes what each state of a node plays.
    fn write_node(&self, recorded: &[u32], node: u32, exit: Exit, list: &mut [u32])
        requires known { node < nodes (layout_table self.now.layout.now) }
        requires recorded { (layout_table self.now.layout.now).states ≤ length recorded.now }
        requires room { (layout_table self.now.layout.now).states ≤ length list.old }
        requires ready { Ready (layout_table self.now.layout.now) node exit self.now.distances.now }
        ensures written { (s : ℕ) → s < (layout_table self.now.layout.now).states → node_of (layout_table self.now.layout.now) s ≡ node → at list.new s ≡ play_by (layout_table self.now.layout.now) recorded.now exit s }
        ensures others { (s : ℕ) → s < (layout_table self.now.layout.now).states → (node_of (layout_table self.now.layout.now) s ≢ node) → at list.new s ≡ at list.old s }
        ensures rest { drop (layout_table self.now.layout.now).states list.new ≡ drop (layout_table self.now.layout.now).states list.old }
    {
        let members = self.layout.members_of(node);
        for &state in members {
            list[state as usize] = self.played(recorded, exit, state);
        }
    }
}

// Takes away the marks of the states of a node. Here and below the list of marks is written, so it is no `Marked`, which lends it to be read.
fn unmark(layout: &Layout, distances: &mut [Option<u32>], node: u32)
    requires node { node < nodes (layout_table layout.now) }
    requires room { (layout_table layout.now).states ≤ length distances.old }
    ensures { (s : ℕ) → s < (layout_table layout.now).states → node_of (layout_table layout.now) s ≡ node → mark_at distances.new s ≡ None }
{
    let members = layout.members_of(node);
    for &state in members {
        distances[state as usize] = None;
    }
}

// Marks each state of a node with its distance to the target, round by round until none is one step further.
// The rounds are a loop: each writes the marks that the next one reads, which a closure would hide.
fn measure(layout: &Layout, distances: &mut [Option<u32>], node: u32, target: u32)
    requires node { node < nodes (layout_table layout.now) }
    requires known { target < (layout_table layout.now).states }
    requires home { node_of (layout_table layout.now) target ≡ node }
    requires room { (layout_table layout.now).states ≤ length distances.old }
    ensures { Measured (layout_table layout.now) node target distances.new }
{
    unmark(layout, distances, node);
    distances[target as usize] = Some(0);
    let members = layout.members_of(node);
    for round in 0..layout.states() {
        let mut further = false;
        for &state in members {
            let marked = Marked { layout, distances };
            if marked.fresh(round, state) {
                distances[state as usize] = Some(round + 1);
                further = true;
            }
        }
        if !further {
            return;
        }
    }
}

// Writes what each state plays, node by node. The distances within a node stand in an array on the stack, so that a plan only reads what it is made of.
pub(crate) fn write_nodes(layout: &Layout, recorded: &[u32], plan: &[Exit], list: &mut [u32])
    requires recorded { (layout_table layout.now).states ≤ length recorded.now }
    requires plan { length plan.now ≡ nodes (layout_table layout.now) }
    requires fits { PlanFits (setting_of (layout_table layout.now)) (exit_at plan.now) }
    requires room { (layout_table layout.now).states ≤ length list.old }
    ensures written { (s : ℕ) → s < (layout_table layout.now).states → at list.new s ≡ play_by (layout_table layout.now) recorded.now (exit_at plan.now (node_of (layout_table layout.now) s)) s }
    ensures rest { drop (layout_table layout.now).states list.new ≡ drop (layout_table layout.now).states list.old }
{
    let mut distances = [None; MOST_STATES as usize];
    for (v, exit) in plan.iter().enumerate() {
        let node = v as u32;
        if let Exit::Leave { state, .. } = *exit {
            measure(layout, &mut distances, node, state);
        }
        let marked = Marked {
            layout,
            distances: &distances,
        };
        marked.write_node(recorded, node, *exit, list);
    }
}
