// Takes some tables apart whose components were worked out by hand, and prints what was found.
#![tactic(auto)]

mod shape;
mod show;
mod space;

use shape::{SHAPES, Shape, lists_of};
use show::Found;
use space::Space;

// The name of a shape, the node of each state, the component of each node, and for each state whether each choice is inside.
fn show_all(rt: &HostRuntime, space: &mut Space) -> anyhow::Result<()> {
    for shape in SHAPES {
        let name = shape.name;
        let lists = lists_of(rt.alloc(), &shape)?;
        match space.take_apart(&lists) {
            Ok(()) => println!(rt;
                "{name} {}",
                Found {
                    parts: &space.parts,
                    counts: shape.states
                }
            )?,
            Err(fault) => {
                let number = fault.notice().number;
                println!(rt; "{name} refused {number}")?;
            }
        }
    }
    Ok(())
}

// 256 states with one choice each, to the state itself or to the next one, and how many nodes and components there are.
fn show_large(rt: &HostRuntime, space: &mut Space, name: &str, step: u32) -> anyhow::Result<()> {
    let ones = [1u32; 256];
    let branches: Vec<(u32, u32)> = (0..256u32)
        .map(|state| (state.wrapping_add(step) % 256, 1))
        .collect(rt.alloc())?;
    let shape = Shape {
        name,
        denominator: 1,
        states: &ones,
        choices: &ones,
        branches: &branches,
    };
    let lists = lists_of(rt.alloc(), &shape)?;
    match space.take_apart(&lists) {
        Ok(()) => {
            let nodes = space.parts.nodes();
            let components = space.parts.components();
            println!(rt; "{name} nodes {nodes} components {components}")?;
        }
        Err(_) => println!(rt; "{name} refused")?,
    }
    Ok(())
}

fn main(rt: HostRuntime) -> anyhow::Result<()> {
    let mut space = Space::new(rt.alloc())?;
    show_all(&rt, &mut space)?;
    show_large(&rt, &mut space, "many", 0)?;
    show_large(&rt, &mut space, "ring", 1)
}
