// One day's table, made, checked and taken apart, every step printed.
#![tactic(auto)]

mod apart;
mod show;

use apart::print_parts;
use show::{Shown, answer};
use sources::Band;
use std::io;
use table::check;

fn main(rt: HostRuntime) -> io::Result<()> {
    println!(rt;
        "1. A rehedging band: 2 steps either side of the centre, 5 a step to hold, 40 to recentre."
    )?;
    let band = Band::new(2, 5, 40);
    print!(rt; "{}", Shown(&band))?;
    answer(&rt, check(&band))?;
    println!(rt; "2. The engine's own copy of it, taken apart into components and nodes.")?;
    print_parts(&rt, &band)?;
    println!(rt; "3. The same band as the day's export, a caller's lists.")?;
    let list = samples::export();
    print!(rt; "{}", Shown(&list))?;
    answer(&rt, check(&list))
}
