ghost use Rattle.std.specs.Prelude.{◌≡◌, ℕ, ◌+◌, ◌*◌, ◌<◌, ◌≤◌, ◌++◌, map, vec_len, OnOk, IfOk};
ghost use Rattle.std.specs.List.{range_with_len};
ghost use Rattle.table.specs.Limits.{Lawful};
ghost use Rattle.sources.specs.Rows.{owned_table};
ghost use Rattle.samples.specs.Counts.{HasCounts};
ghost use Rattle.samples.specs.Tables.{reward_at, share, largest_table, onward, exits_table, chain_table, Gives, ChoicesAdded, StatesAdded};

use sources::{ChoiceRow, OwnedList, StateRow};
use std::alloc::{AllocError, Global};

const STATES: u32 = 256;

// of each state
const CHOICES: u32 = 16;

const DENOMINATOR: u32 = 65_536;

// How the denominator is shared out among eight branches: in equal parts, or not.
#[derive(Clone, Copy, PartialEq, Eq, Debug)]
pub enum Weights {
    Even,
    Uneven,
}

impl Weights {
    // The weight at a place.
    fn share(self, place: u32) -> u32
        requires { place < 8 }
        ensures { result ≡ share self place }
    {
        let shares = match self {
            Weights::Even => [8_192; 8],
            Weights::Uneven => [1, 2_047, 4_096, 6_144, 8_192, 12_288, 16_384, 16_384],
        };
        shares[place as usize]
    }
}

// From -spread to spread, scattered.
fn reward_of(choice: u32, spread: u16) -> i32
    requires { choice < 4096 }
    ensures { result ≡ reward_at spread choice }
{
    let most = u32::from(spread);
    (7_919 * choice % (2 * most + 1)) as i32 - most as i32
}

// A table without states.
fn empty(heap: Global) -> OwnedList
    ensures { HasCounts 0 0 0 result }
{
    OwnedList {
        denominator: DENOMINATOR,
        states: Vec::new(heap),
        choices: Vec::new(heap),
        branches: Vec::new(heap),
    }
}

// What adds branches, choices and states stands beside the copying of a model: that asks a source for each row, these make it from its number.

// Adds the branches of a choice.
fn add_branches<F: Fn(u32, u32) -> (u32, u32)>(
    branches: &mut Vec<(u32, u32)>,
    choice: u32,
    count: u32,
    branch: &F,
) -> Result<(), AllocError>
    requires { (place : ℕ) → place < count → F.pre branch.now choice place }
    ensures items { OnOk result ((f : ℕ → ℕ × ℕ) → Gives count (F.post branch.now choice) f → branches.new.items ≡ branches.old.items ++ map f (range_with_len 0 count)) }
    ensures long { OnOk result (vec_len branches.new ≡ vec_len branches.old + count) }
{
    // a loop: over `extend` by a map, which was tried, the search did not show that the map may be called, nor what the list holds then
    for place in 0..count {
        branches.push(branch(choice, place))?;
    }
    Ok(())
}

// Adds the choices of a state, with their branches.
fn add_choices<F: Fn(u32, u32) -> (u32, u32)>(
    table: &mut OwnedList,
    state: u32,
    spread: u16,
    count: u32,
    branch: &F,
) -> Result<(), AllocError>
    requires state { state < 256 }
    requires count { count ≤ 8 }
    requires branch { (choice place : ℕ) → choice < 4096 → place < count → F.pre branch.now choice place }
    requires room { vec_len table.old.branches ≤ 128 * state }
    ensures denominator { table.new.denominator ≡ table.old.denominator }
    ensures states { table.new.states ≡ table.old.states }
    ensures choices { OnOk result (vec_len table.new.choices ≡ vec_len table.old.choices + 16) }
    ensures branches { OnOk result (vec_len table.new.branches ≡ vec_len table.old.branches + 16 * count) }
    ensures rows { OnOk result (ChoicesAdded spread state 16 count (F.post branch.now) table.old.choices.items table.new.choices.items table.old.branches.items table.new.branches.items) }
{
    for choice in 0..CHOICES {
        let number = CHOICES * state + choice;
        let first = table.branches.len() as u32;
        add_branches(&mut table.branches, number, count, branch)?;
        table.choices.push(ChoiceRow {
            reward: reward_of(number, spread),
            first,
            count,
        })?;
    }
    Ok(())
}

// Adds the states from..to, with 16 choices each and `count` branches to a choice. Choices are numbered through all states;
// `branch` gives a choice's branch at a place.
fn add_states<F: Fn(u32, u32) -> (u32, u32)>(
    table: &mut OwnedList,
    from: u32,
    to: u32,
    spread: u16,
    count: u32,
    branch: F,
) -> Result<(), AllocError>
    requires from { from ≤ to }
    requires to { to ≤ 256 }
    requires count { count ≤ 8 }
    requires branch { (choice place : ℕ) → choice < 4096 → place < count → F.pre branch choice place }
    requires choices { vec_len table.old.choices ≤ 16 * from }
    requires branches { vec_len table.old.branches ≤ 128 * from }
    ensures denominator { table.new.denominator ≡ table.old.denominator }
    ensures states { OnOk result (from + vec_len table.new.states ≡ vec_len table.old.states + to) }
    ensures choices { OnOk result (16 * from + vec_len table.new.choices ≡ vec_len table.old.choices + 16 * to) }
    ensures branches { OnOk result (count * (16 * from) + vec_len table.new.branches ≡ vec_len table.old.branches + count * (16 * to)) }
    ensures rows { OnOk result (StatesAdded spread from to to count (F.post branch) table.old.states.items table.new.states.items table.old.choices.items table.new.choices.items table.old.branches.items table.new.branches.items) }
{
    for state in from..to {
        let first = table.choices.len() as u32;
        add_choices(table, state, spread, count, &branch)?;
        table.states.push(StateRow {
            first,
            count: CHOICES,
        })?;
    }
    Ok(())
}

// One component: each choice has eight branches, scattered over all states. Rewards lie between -spread and spread.
// No contract says that it is one component; `sample_tests` counts it.
#[tactic(auto, using(crate::proofs::Large::largest_lawful))]
pub fn largest(heap: Global, spread: u16, weights: Weights) -> Result<OwnedList, AllocError>
    ensures counts { IfOk result (HasCounts 256 4096 32768) }
    ensures table { IfOk result (λ o. owned_table o ≡ largest_table spread weights) }
    ensures lawful { Lawful (largest_table spread weights) }
{
    let mut table = empty(heap);
    add_states(&mut table, 0, STATES, spread, 8, |choice, place| {
        ((37 * choice + 29 * place) % STATES, weights.share(place))
    })?;
    Ok(table)
}

// 240 lone states and a component of 16 states. Each choice of a lone state leaves: to the next state and to seven others
// further on, around the end. No contract says how many nodes and components there are; `sample_tests` counts them.
pub fn exits(heap: Global, spread: u16, weights: Weights) -> Result<OwnedList, AllocError>
    ensures counts { IfOk result (HasCounts 256 4096 32768) }
    ensures table { IfOk result (λ o. owned_table o ≡ exits_table spread weights) }
    ensures lawful { Lawful (exits_table spread weights) }
{
    let mut table = empty(heap);
    add_states(&mut table, 0, 240, spread, 8, |choice, place| {
        (onward(choice, place) % STATES, weights.share(place))
    })?;
    add_states(&mut table, 240, STATES, spread, 8, |choice, place| {
        (240 + onward(choice, place) % 16, weights.share(place))
    })?;
    Ok(table)
}

// Where the branches of a choice lead if states were counted on past the end: a step on, and then in equal odd steps.
fn onward(choice: u32, place: u32) -> u32
    requires choice { choice < 4096 }
    requires place { place < 8 }
    ensures { result ≡ onward choice place }
{
    choice / CHOICES + 1 + place * (2 * (choice % CHOICES) + 1)
}

// Each choice leads to the first state and to the next one, in the last state to itself alone: a pass of the
// decomposition drops the choices of one state. No contract says so; the output of `bench` shows where the passes end:
// at 256 nodes, one of them a component.
#[tactic(auto, using(crate::proofs::Large::chain_lawful))]
pub fn chain(heap: Global, spread: u16) -> Result<OwnedList, AllocError>
    ensures counts { IfOk result (HasCounts 256 4096 8176) }
    ensures table { IfOk result (λ o. owned_table o ≡ chain_table spread) }
    ensures lawful { Lawful (chain_table spread) }
{
    let last = STATES - 1;
    let mut table = empty(heap);
    add_states(&mut table, 0, last, spread, 2, |choice, place| {
        let successor = if place == 0 { 0 } else { choice / CHOICES + 1 };
        (successor, 32_768)
    })?;
    add_states(&mut table, last, STATES, spread, 1, |_, _| (last, 65_536))?;
    Ok(table)
}
