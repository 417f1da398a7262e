ghost use Rattle.std.specs.Prelude.{◌≡◌, IfSome};
ghost use Rattle.std.specs.Option.{option_map};
ghost use Rattle.console.specs.Answers.{line_bytes};
ghost use Rattle.engine.specs.States.{state_of};
ghost use Rattle.quoting.specs.Runs.{begins};
ghost use Rattle.quoting.specs.Consoles.{held, Opened};

use crate::read::read_model;
use crate::refused::{refused_file, refused_table};
use crate::room::Room;
use crate::session::Console;
use console::AnswerLine;
use engine::Engine;

impl Console {
    // The first line of a run with this model file, and the console, unless the file or its model is refused.
    pub fn open(room: Room, file: &[u8]) -> (AnswerLine<'static>, Option<Console>)
        ensures { Opened file.now (line_bytes result.0) result.1 }
    {
        let Room {
            space,
            mut states,
            mut choices,
            mut branches,
        } = room;
        match read_model(file, &mut states, &mut choices, &mut branches) {
            Ok(list) => begin(Engine::open(space, &list)),
            Err(fault) => (refused_file(fault), None),
        }
    }
}

// The first line with an engine that was opened on the model.
fn begin(engine: Engine) -> (AnswerLine<'static>, Option<Console>)
    ensures line { line_bytes result.0 ≡ (begins (state_of engine)).0 }
    ensures engine { option_map held result.1 ≡ (begins (state_of engine)).1 }
    ensures count { IfSome result.1 (λ c. c.lines ≡ 0) }
{
    match engine.standing() {
        Ok((states, components)) => (
            AnswerLine::Loaded { states, components },
            Some(Console { engine, lines: 0 }),
        ),
        Err(fault) => (refused_table(fault), None),
    }
}
