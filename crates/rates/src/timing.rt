use engine::{Engine, Space};
use history::Refusal;
use std::time::{Duration, Instant};
use table::Source;

// How much was done and in what time.
#[derive(Clone, Copy, Default)]
struct Work {
    done: u64,
    time: Duration,
}

impl Work {
    // Done in a second.
    fn rate(self) -> u128 {
        u128::from(self.done) * 1_000_000_000 / self.time.as_nanos().max(1)
    }
}

// A checksum with one more number.
fn mixed(sum: i64, number: i64) -> i64 {
    sum.wrapping_mul(31).wrapping_add(number)
}

// A refusal as an error of this program, which prints its number alone.
fn refused(refusal: Refusal) -> anyhow::Error {
    let number = refusal.notice().number;
    anyhow::anyhow!("refused with {number}")
}

// Times so many rounds; each gives how much it did. What `prepare` does before each is not timed.
fn time<P: Fn(&mut Engine) -> anyhow::Result<()>, R: FnMut(&mut Engine) -> anyhow::Result<u64>>(
    rt: &HostRuntime,
    engine: &mut Engine,
    rounds: u32,
    prepare: P,
    mut round: R,
) -> anyhow::Result<Work>
    requires prepare { P.IsAlwaysCallable prepare }
    requires round { R.IsAlwaysCallable round }
{
    let mut work = Work::default();
    for _ in 0..rounds {
        prepare(engine)?;
        let start = Instant::now(rt)?;
        let done = round(engine)?;
        work.time = work.time.saturating_add(start.elapsed(rt)?);
        work.done = work.done.saturating_add(done);
    }
    Ok(work)
}

// The runtime, the engine and how many rounds stay three arguments below: quotes go another number of rounds, and the engine outlives what is timed.

// Loads that were accepted.
fn time_loads<S: Source>(
    rt: &HostRuntime,
    engine: &mut Engine,
    rounds: u32,
    source: &S,
) -> anyhow::Result<Work> {
    time(
        rt,
        engine,
        rounds,
        |_| Ok(()),
        |engine| {
            engine.load(source).map_err(refused)?;
            Ok(1)
        },
    )
}

// Refine steps made in component 0, each time from the start; the checksum has the bounds after each.
fn time_refines(rt: &HostRuntime, engine: &mut Engine, rounds: u32) -> anyhow::Result<(Work, i64)> {
    let mut sum = 0;
    let work = time(
        rt,
        engine,
        rounds,
        |engine| engine.close().map_err(refused),
        |engine| {
            let (made, lo, hi) = engine.refine(0, 1000, 0).map_err(refused)?;
            sum = mixed(mixed(sum, lo), hi);
            Ok(made)
        },
    )?;
    Ok((work, sum))
}

// Sweeps made, each time from the start but for component 0, which was refined.
fn time_sweeps(rt: &HostRuntime, engine: &mut Engine, rounds: u32) -> anyhow::Result<Work> {
    time(
        rt,
        engine,
        rounds,
        |engine| {
            engine.close().map_err(refused)?;
            engine.refine(0, 100, 0).map_err(refused)?;
            Ok(())
        },
        |engine| engine.sweep(1000).map_err(refused),
    )
}

// Quotes of all states; the checksum has their bounds.
fn time_quotes(
    rt: &HostRuntime,
    engine: &mut Engine,
    states: u32,
    rounds: u32,
) -> anyhow::Result<(Work, i64)> {
    let mut sum = 0;
    let work = time(
        rt,
        engine,
        rounds,
        |_| Ok(()),
        |engine| {
            for state in 0..states {
                let (lower, upper, _) = engine.quote(u64::from(state), 0).map_err(refused)?;
                sum = mixed(mixed(sum, lower), upper);
            }
            Ok(u64::from(states))
        },
    )?;
    Ok((work, sum))
}

// A checksum of the plan.
fn plan_sum(engine: &Engine) -> anyhow::Result<i64> {
    // an array: the caller's own list, as long as a table may have states
    let mut list = [0u32; 256];
    engine.plan(&mut list).map_err(refused)?;
    Ok(
        list.iter()
            .fold(0, |sum, choice| mixed(sum, i64::from(*choice))),
    )
}

// How much was done, and the rate.
fn print_work(rt: &HostRuntime, name: &str, what: &str, work: Work) -> anyhow::Result<()> {
    let done = work.done;
    println!(rt; "{name} {what} {done}")?;
    let rate = work.rate();
    eprintln!(rt; "{name} {what} {rate} per second")?;
    Ok(())
}

// Opens the source's table and times its loads; gives the engine.
pub(crate) fn measure_loads<S: Source>(
    rt: &HostRuntime,
    name: &str,
    rounds: u32,
    source: &S,
) -> anyhow::Result<Engine> {
    let mut engine = Engine::open(Space::new(rt.alloc())?, source);
    let standing = engine.standing().map_err(Refusal::Table);
    let (states, components) = standing.map_err(refused)?;
    println!(rt; "{name} states {states} components {components}")?;
    let loads = time_loads(rt, &mut engine, rounds, source)?;
    print_work(rt, name, "loads", loads)?;
    Ok(engine)
}

// Times all calls on the source's table.
pub(crate) fn measure<S: Source>(
    rt: &HostRuntime,
    name: &str,
    rounds: u32,
    source: &S,
) -> anyhow::Result<()> {
    let mut engine = measure_loads(rt, name, rounds, source)?;
    let (steps, bounds) = time_refines(rt, &mut engine, rounds)?;
    print_work(rt, name, "refine steps", steps)?;
    let sweeps = time_sweeps(rt, &mut engine, rounds)?;
    print_work(rt, name, "sweeps", sweeps)?;
    let (quotes, values) = time_quotes(rt, &mut engine, source.states(), 1000)?;
    print_work(rt, name, "quotes", quotes)?;
    let plan = plan_sum(&engine)?;
    println!(rt; "{name} checksums {bounds} {values} {plan}")?;
    Ok(())
}
