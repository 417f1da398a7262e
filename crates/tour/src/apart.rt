use decomposition::{Parts, Scratch};
use model::Model;
use std::io;
use table::Source;

// The states and components of a table, and of each state its node and how many of its choices are inside; of a table that
// breaks a limit, the number of the first one.
pub(crate) fn print_parts<S: Source>(rt: &HostRuntime, source: &S) -> io::Result<()> {
    let mut model = Model::new(rt.alloc())?;
    let mut scratch = Scratch::new(rt.alloc())?;
    let mut parts = Parts::new(rt.alloc())?;
    if let Err(fault) = model.load(source) {
        let number = fault.notice().number;
        return println!(rt; "   refused: {number}");
    }
    parts.take_apart(&mut scratch, &model);
    let states = model.states();
    let components = parts.components();
    let nodes = parts.nodes();
    println!(rt; "   states {states}, components {components}, nodes {nodes}")?;
    for state in 0..states {
        let node = parts.node_of(state);
        let inside = (0..model.choices(state))
            .filter(|choice| parts.is_inside(state, *choice))
            .count();
        println!(rt; "   {state} | node {node}, inside choices {inside}")?;
    }
    Ok(())
}
