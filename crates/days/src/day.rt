use crate::words::{Plan, Words};
use engine::{Answer, Engine};
use history::Refusal;
use std::io;

// What a call answered.
pub(crate) fn print_answer(rt: &HostRuntime, answer: Answer) -> io::Result<()> {
    println!(rt; "   {}", Words(answer))
}

// Whether a load or a close was accepted.
pub(crate) fn print_done(rt: &HostRuntime, done: Result<(), Refusal>) -> io::Result<()> {
    print_answer(rt, done.map_or_else(Answer::Refused, |()| Answer::Done))
}

pub(crate) fn print_standing(rt: &HostRuntime, engine: &Engine) -> io::Result<()> {
    let stands = engine.standing();
    print_answer(
        rt,
        stands.map_or_else(
            Answer::Unopened,
            |(states, components)| Answer::Stands { states, components },
        ),
    )
}

// Steps in a component, until its bounds are 1,024 apart or closer.
pub(crate) fn print_refine(
    rt: &HostRuntime,
    engine: &mut Engine,
    component: u64,
    steps: u64,
) -> io::Result<()> {
    match engine.refine(component, steps, 1024) {
        Ok((made, lo, hi)) => println!(rt;
            "   refine of component {component}: {made} steps, {lo} to {hi}"
        ),
        Err(refusal) => print_answer(rt, Answer::Refused(refusal)),
    }
}

pub(crate) fn print_sweep(rt: &HostRuntime, engine: &mut Engine, count: u64) -> io::Result<()> {
    let swept = engine.sweep(count);
    print_answer(
        rt,
        swept.map_or_else(Answer::Refused, |made| Answer::Swept { made }),
    )
}

// The bounds of a state, in multiples of 2^-20.
pub(crate) fn print_quote(rt: &HostRuntime, engine: &Engine, state: u64) -> io::Result<()> {
    match engine.quote(state, 1024) {
        Ok((lower, upper, mark)) => println!(rt;
            "   quote of state {state}: {lower} to {upper}, mark {}",
            u8::from(mark)
        ),
        Err(refusal) => print_answer(rt, Answer::Refused(refusal)),
    }
}

// The choice of each of five states.
pub(crate) fn print_plan(rt: &HostRuntime, engine: &Engine) -> io::Result<()> {
    // an array: the caller's own list, as long as the band has states
    let mut list = [0u32; 5];
    match engine.plan(&mut list) {
        Ok(()) => println!(rt; "   {}", Plan(&list)),
        Err(refusal) => print_answer(rt, Answer::Refused(refusal)),
    }
}
