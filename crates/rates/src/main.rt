// Times an engine's loads, refine steps, sweeps and quotes over four tables. What the calls answered goes to standard
// output, which is the same at each run, and the rates go to standard error.
#![tactic(auto)]

mod timing;

use samples::{Weights, chain, exits, largest};
use sources::Band;
use timing::{measure, measure_loads};

fn main(rt: HostRuntime) -> anyhow::Result<()> {
    let heap = rt.alloc();
    measure(&rt, "largest", 20, &largest(heap, 10_000, Weights::Uneven)?)?;
    measure(&rt, "exits", 20, &exits(heap, 10_000, Weights::Uneven)?)?;
    measure(&rt, "band", 20, &Band::new(127, 7_000, 1_000_000))?;
    measure_loads(&rt, "chain", 20, &chain(heap, 10_000)?)?;
    Ok(())
}
