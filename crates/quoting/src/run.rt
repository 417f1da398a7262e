ghost use Rattle.std.specs.Prelude.{◌≡◌, ◌++◌, IfOk, string_bytes, OnOk};
ghost use Rattle.console.specs.Inputs.{lines_of};
ghost use Rattle.quoting.specs.Runs.{transcript as written, bytes_of, replies, RepliesLaw};
ghost use Rattle.quoting.specs.Consoles.{held};

use crate::room::Room;
use crate::session::Console;
use console::Lines;
use std::alloc::{AllocError, Global};
use std::fmt::Write;
use table::MOST_STATES;

// What a whole run writes for a model file and an input.
#[tactic(auto, using(crate::proofs::Replies::replies_law))]
pub fn transcript(heap: Global, file: &[u8], input: &[u8]) -> Result<String, AllocError>
    ensures bytes { IfOk result (λ t. string_bytes t ≡ bytes_of (written file.now input.now)) }
    ensures law { RepliesLaw }
{
    let (first, console) = Console::open(Room::new(heap)?, file);
    let mut text = format!(in heap; "{first}\n")?;
    if let Some(console) = console {
        put_replies(&mut text, console, input)?;
    }
    Ok(text)
}

// Adds the answers to the lines of an input.
fn put_replies(text: &mut String, mut console: Console, input: &[u8]) -> Result<(), AllocError>
    requires { console.lines ≡ 0 }
    ensures { OnOk result (string_bytes text.new ≡ string_bytes text.old ++ bytes_of (replies 1 (held console) (lines_of input.now))) }
{
    let mut list = [0; MOST_STATES as usize];
    for line in Lines::new(input) {
        let answer = console.answer(line, &mut list);
        writeln!(text, "{answer}")?;
    }
    Ok(())
}
