use engine::{Answer, Asked, Call, Engine};
use sources::OwnedList;
use std::fmt;
use table::Notice;

// What a call answered, as a line: a letter and the answer's numbers, of a plan the whole list of its call; E and the number of a refusal,
// then its place in the table, 0 where it has none; F likewise for the fault of an open.
#[derive(Drop)]
pub(crate) struct Line<'a> {
    pub(crate) answer: Answer,
    pub(crate) list: &'a [u32],
}

impl fmt::Display for Line<'_> {
    fn fmt<W: fmt::Write>(&self, f: &mut fmt::Formatter<W>) -> fmt::Result {
        match self.answer {
            Answer::Done => write!(f, "D"),
            Answer::Stands { states, components } => write!(f, "L {states} {components}"),
            Answer::Unopened(fault) => write!(f, "F {}", Numbers(fault.notice())),
            Answer::Refined { made, lo, hi } => write!(f, "R {made} {lo} {hi}"),
            Answer::Swept { made } => write!(f, "S {made}"),
            Answer::Quoted { lower, upper, mark } => {
                write!(f, "Q {lower} {upper} {}", u8::from(mark))
            }
            Answer::Planned => {
                write!(f, "P")?;
                for choice in self.list {
                    write!(f, " {choice}")?;
                }
                Ok(())
            }
            Answer::Refused(refusal) => write!(f, "E {}", Numbers(refusal.notice())),
        }
    }
}

// The number and the place of a notice.
#[derive(Drop)]
struct Numbers(Notice);

impl fmt::Display for Numbers {
    fn fmt<W: fmt::Write>(&self, f: &mut fmt::Formatter<W>) -> fmt::Result {
        let Notice {
            number,
            state,
            choice,
            branch,
        } = self.0;
        write!(f, "{number} {state} {choice} {branch}")
    }
}

// The list of a call: what a plan is written into.
pub(crate) fn list_of(call: &Call<OwnedList>) -> &[u32] {
    match call {
        Call::Plan { list } => list,
        _ => &[],
    }
}

// How an engine stands.
pub(crate) fn stands(engine: &Engine) -> Answer {
    let stands = engine.standing();
    stands.map_or_else(
        Answer::Unopened,
        |(states, components)| Answer::Stands { states, components },
    )
}

// The line of a call that was made; none where it was not.
pub(crate) fn line_of(asked: &Asked<OwnedList>) -> Option<Line<'_>> {
    let list = list_of(&asked.call);
    asked.answer.map(|answer| Line { answer, list })
}
