use engine::Answer;
use history::Refusal;
use std::fmt;

// What a call answered, in words; of a refusal its number, and its place in the table where it has one.
#[derive(Drop)]
pub(crate) struct Words(pub(crate) Answer);

// The choices of a plan in words.
#[derive(Drop)]
pub(crate) struct Plan<'a>(pub(crate) &'a [u32]);

impl fmt::Display for Words {
    fn fmt<W: fmt::Write>(&self, f: &mut fmt::Formatter<W>) -> fmt::Result {
        match self.0 {
            Answer::Done => write!(f, "accepted"),
            Answer::Stands { states, components } => {
                write!(f, "standing: {states} states, {components} components")
            }
            Answer::Unopened(fault) => write!(f, "standing: idle, by {}", fault.notice()),
            Answer::Refined { made, lo, hi } => write!(f, "{made} steps, {lo} to {hi}"),
            Answer::Swept { made } => write!(f, "{made} sweeps"),
            Answer::Quoted { lower, upper, mark } => {
                write!(f, "{lower} to {upper}, mark {}", u8::from(mark))
            }
            Answer::Planned => write!(f, "planned"),
            Answer::Refused(Refusal::Table(fault)) => write!(f, "refused: {}", fault.notice()),
            Answer::Refused(refusal) => write!(f, "refused: {}", refusal.notice().number),
        }
    }
}

impl fmt::Display for Plan<'_> {
    fn fmt<W: fmt::Write>(&self, f: &mut fmt::Formatter<W>) -> fmt::Result {
        write!(f, "plan:")?;
        for choice in self.0 {
            write!(f, " {choice}")?;
        }
        Ok(())
    }
}
