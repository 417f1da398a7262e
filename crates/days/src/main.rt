// An engine's days, every step printed: an open that is refused, a band with its bounds and plan, a refused load, and a list of calls.
#![tactic(auto)]

mod again;
mod day;
mod words;

use again::print_days;
use day::{print_done, print_plan, print_quote, print_refine, print_standing, print_sweep};
use engine::{Engine, Space};
use sources::{Band, List};
use std::io;

fn main(rt: HostRuntime) -> io::Result<()> {
    let band = Band::new(2, 5, 40);
    let list = samples::export();
    print_day(&rt, &band, &list)?;
    println!(rt;
        "4. Three days as one list of calls: bounds of the band, a band of no states, a narrower band."
    )?;
    print_days(&rt)
}

// One engine's day: its open is refused, it loads the band, and a refused load leaves its bounds.
fn print_day<'a>(rt: &HostRuntime, band: &Band, list: &List<'a>) -> io::Result<()> {
    println!(rt;
        "1. An engine opened on the export is idle, and says why; what needs a table is refused."
    )?;
    let mut engine = Engine::open(Space::new(rt.alloc())?, list);
    print_standing(rt, &engine)?;
    print_refine(rt, &mut engine, 0, 10)?;
    println!(rt; "2. It loads the band: bounds in multiples of 2^-20, and a plan.")?;
    print_done(rt, engine.load(band))?;
    print_quote(rt, &engine, 0)?;
    print_refine(rt, &mut engine, 0, 100)?;
    print_sweep(rt, &mut engine, 10)?;
    print_quote(rt, &engine, 0)?;
    print_plan(rt, &engine)?;
    println!(rt; "3. The export comes again and is refused: the bounds stay.")?;
    print_done(rt, engine.load(list))?;
    print_quote(rt, &engine, 0)
}
