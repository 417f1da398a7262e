use std::{fmt, io};
use table::{Fault, Source};

// A source's table as text: a line for each state, with each choice's reward and branches, successor:weight.
#[derive(Drop)]
pub(crate) struct Shown<'a, S>(pub(crate) &'a S);

impl<'a, S: Source> fmt::Display for Shown<'a, S> {
    fn fmt<W: fmt::Write>(&self, f: &mut fmt::Formatter<W>) -> fmt::Result {
        let source = self.0;
        let states = source.states();
        let denominator = source.denominator();
        writeln!(f, "   states {states}, denominator {denominator}")?;
        for state in 0..states {
            write!(f, "   {state}")?;
            for choice in 0..source.choices(state) {
                let reward = source.reward(state, choice);
                write!(f, " | {reward} to")?;
                for branch in 0..source.branches(state, choice) {
                    let (successor, weight) = source.branch(state, choice, branch);
                    write!(f, " {successor}:{weight}")?;
                }
            }
            writeln!(f, "")?;
        }
        Ok(())
    }
}

// What a check answered: accepted, or refused with number and place.
pub(crate) fn answer(rt: &HostRuntime, checked: Result<(), Fault>) -> io::Result<()> {
    let Err(fault) = checked else {
        return println!(rt; "   accepted");
    };
    println!(rt; "   refused: {}", fault.notice())
}
