// Times the copy and the decomposition of two tables: the largest one, and a chain in which each pass drops the choices
// of one state. The counts go to standard output and the times to standard error.
#![tactic(auto)]

use decomposition::{Parts, Scratch};
use model::Model;
use samples::{Weights, chain, largest};
use sources::OwnedList;
use std::time::{Duration, Instant};

// The parts of a table, with the times of its copy and of the decomposition; none where the table is refused, or there is no memory for it.
fn timed(
    rt: &HostRuntime,
    lists: &OwnedList,
) -> anyhow::Result<Option<(Parts, Duration, Duration)>> {
    let Ok(mut model) = Model::new(rt.alloc()) else {
        return Ok(None);
    };
    let Ok(mut parts) = Parts::new(rt.alloc()) else {
        return Ok(None);
    };
    let Ok(mut scratch) = Scratch::new(rt.alloc()) else {
        return Ok(None);
    };
    let start = Instant::now(rt)?;
    if model.load(lists).is_err() {
        return Ok(None);
    }
    let copied = start.elapsed(rt)?;
    let start = Instant::now(rt)?;
    parts.take_apart(&mut scratch, &model);
    let taken = start.elapsed(rt)?;
    Ok(Some((parts, copied, taken)))
}

fn run(rt: &HostRuntime, name: &str, lists: OwnedList) -> anyhow::Result<()> {
    let Some((parts, copied, taken)) = timed(rt, &lists)? else {
        println!(rt; "{name} refused")?;
        return Ok(());
    };
    let nodes = parts.nodes();
    let components = parts.components();
    let copied = copied.as_micros();
    let taken = taken.as_micros();
    println!(rt; "{name} nodes {nodes} components {components}")?;
    eprintln!(rt; "{name} copied in {copied} us, decomposed in {taken} us")?;
    Ok(())
}

fn main(rt: HostRuntime) -> anyhow::Result<()> {
    let heap = rt.alloc();
    run(&rt, "largest", largest(heap, 0, Weights::Even)?)?;
    run(&rt, "chain", chain(heap, 0)?)
}
