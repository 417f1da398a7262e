ghost use Rattle.std.specs.Prelude.{◌≡◌, ℕ};
ghost use Rattle.history.specs.Calls.{next, run as run_calls};
ghost use Rattle.history.specs.Answers.{answer as answer_to};
ghost use Rattle.console.specs.Answers.{line_bytes, AnswerLaw};
ghost use Rattle.console.specs.Commands.{command_of};
ghost use Rattle.console.specs.Spelling.{letter_of};
ghost use Rattle.engine.specs.States.{state_of};
ghost use Rattle.quoting.specs.Replies.{reply, replied, written, states_of, call_of, call_in};
ghost use Rattle.quoting.specs.Consoles.{held, counted};

use crate::refused::{refused_call, unread};
use crate::session::Console;
use console::{AnswerLine, Command, read_command};
use engine::Engine;
use history::Refusal;
use table::MOST_STATES;

impl Console {
    // The answer to the next line, which is without its line feed. A plan is written into the caller's list, and its answer reads it there;
    // nothing is promised of what the list holds after that.
    #[tactic(auto, using(console::proofs::ReadBack::answer_law, crate::proofs::Answering::passed))]
    pub fn answer<'a>(
        &mut self,
        line: &[u8],
        list: &'a mut [u32; MOST_STATES as usize],
    ) -> AnswerLine<'a>
        ensures bytes { line_bytes result ≡ reply (counted self.old.lines) (held self.old) line.now }
        ensures law { AnswerLaw }
        ensures count { self.new.lines ≡ counted self.old.lines }
        ensures engine { held self.new ≡ run_calls (held self.old) (call_in (command_of line.now)) }
    {
        self.lines = self.lines.saturating_add(1);
        match read_command(line) {
            Some(command) => match perform(&mut self.engine, command, list) {
                Ok(answer) => answer,
                Err(refusal) => refused_call(self.lines, refusal),
            },
            None => unread(self.lines),
        }
    }
}

// Makes the call of a command, and answers it. One match over the kinds of command: each makes another call, whose answer holds other
// numbers.
#[tactic(auto, using(engine::proofs::Replays::quote_stays, engine::proofs::Replays::plan_stays))]
fn perform<'a>(
    engine: &mut Engine,
    command: Command,
    list: &'a mut [u32; MOST_STATES as usize],
) -> Result<AnswerLine<'a>, Refusal>
    ensures bytes { (line : ℕ) → replied line result ≡ written line (letter_of command) (states_of (state_of engine.old)) (answer_to (state_of engine.old) (call_of command)) }
    ensures engine { state_of engine.new ≡ next (state_of engine.old) (call_of command) }
{
    match command {
        Command::Refine {
            component,
            steps,
            width,
        } => {
            let (steps, lo, hi) = engine.refine(component, steps, width)?;
            Ok(AnswerLine::Refined { steps, lo, hi })
        }
        Command::Sweep { count } => {
            let sweeps = engine.sweep(count)?;
            Ok(AnswerLine::Swept { sweeps })
        }
        Command::Quote { state, width } => {
            let (lower, upper, mark) = engine.quote(state, width)?;
            Ok(AnswerLine::Quoted { lower, upper, mark })
        }
        Command::Plan => {
            engine.plan(list)?;
            let choices = &list[..states(engine)];
            Ok(AnswerLine::Planned { choices })
        }
        Command::Close => {
            engine.close()?;
            Ok(AnswerLine::Closed)
        }
    }
}

// How many states there are; 0 where the engine is idle, as its plan has no choices then.
fn states(engine: &Engine) -> usize
    ensures { result ≡ states_of (state_of engine.now) }
{
    engine.standing().map_or(0, |(states, _)| states as usize)
}
