ghost use Rattle.std.specs.Prelude.{Some};
ghost use Rattle.console.specs.Answers.{line_bytes};

use std::fmt;

// The answer to a line, or the first line of a run. It prints as one line, without the line feed.
#[derive(Clone, Copy, PartialEq, Eq, Debug)]
pub enum AnswerLine<'a> {
    // a model is loaded
    Loaded { states: u64, components: u64 },
    // the steps that a refine made, and the component's bounds then
    Refined { steps: u64, lo: i64, hi: i64 },
    // the sweeps made
    Swept { sweeps: u64 },
    // the bounds of a state, and whether they are as close as was asked for
    Quoted { lower: i64, upper: i64, mark: bool },
    // the choice of each state
    Planned { choices: &'a [u32] },
    // the engine is back at its start
    Closed,
    // a refusal
    Refused { number: u32, places: Places },
}

// The places of a refusal.
#[derive(Clone, Copy, PartialEq, Eq, Debug)]
pub enum Places {
    Nowhere,
    // a line of the input, or a byte of the file
    At(u64),
    // a place of the table, with 0 for what is not named
    InTable {
        state: u32,
        choice: u32,
        branch: u32,
    },
}

impl fmt::Display for AnswerLine<'_> {
    ghost output = { λ answer. Some (line_bytes answer) };

    fn fmt<W: fmt::Write>(&self, f: &mut fmt::Formatter<W>) -> fmt::Result {
        match self {
            AnswerLine::Loaded { states, components } => write!(f, "L {states} {components}"),
            AnswerLine::Refined { steps, lo, hi } => write!(f, "R {steps} {lo} {hi}"),
            AnswerLine::Swept { sweeps } => write!(f, "S {sweeps}"),
            AnswerLine::Quoted { lower, upper, mark } => {
                write!(f, "Q {lower} {upper} {}", u8::from(*mark))
            }
            AnswerLine::Planned { choices } => {
                write!(f, "P")?;
                for choice in *choices {
                    write!(f, " {choice}")?;
                }
                Ok(())
            }
            AnswerLine::Closed => write!(f, "C"),
            AnswerLine::Refused { number, places } => match places {
                Places::Nowhere => write!(f, "E {number}"),
                Places::At(place) => write!(f, "E {number} {place}"),
                Places::InTable {
                    state,
                    choice,
                    branch,
                } => write!(f, "E {number} {state} {choice} {branch}"),
            },
        }
    }
}
