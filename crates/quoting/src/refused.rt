ghost use Rattle.std.specs.Prelude.{◌≡◌};
ghost use Rattle.console.specs.Answers.{line_bytes};
ghost use Rattle.quoting.specs.Refused.{refused_table, refused_line, refused_file, unread_line};

use console::{AnswerLine, Places};
use history::Refusal;
use modelfile::{FileFault, FileNotice};
use table::{Fault, Notice};

// No call and no file has this refusal, so it is not a variant of theirs.
const UNREAD: u32 = 35;

// The line of a table that breaks a limit.
pub(crate) fn refused_table(fault: Fault) -> AnswerLine<'static>
    ensures { line_bytes result ≡ refused_table fault }
{
    let Notice {
        number,
        state,
        choice,
        branch,
    } = fault.notice();
    AnswerLine::Refused {
        number,
        places: Places::InTable {
            state,
            choice,
            branch,
        },
    }
}

// The line of a refused call; `line` is the number of its command's line.
pub(crate) fn refused_call(line: u64, refusal: Refusal) -> AnswerLine<'static>
    ensures { line_bytes result ≡ refused_line line refusal }
{
    match refusal {
        Refusal::Table(fault) => refused_table(fault),
        _ => AnswerLine::Refused {
            number: refusal.notice().number,
            places: Places::At(line),
        },
    }
}

// The line of a refused file.
pub(crate) fn refused_file(fault: FileFault) -> AnswerLine<'static>
    ensures { line_bytes result ≡ refused_file fault }
{
    let FileNotice { number, place } = fault.notice();
    AnswerLine::Refused {
        number,
        places: place.map_or(Places::Nowhere, |at| Places::At(at as u64)),
    }
}

// The line of a line that spells no command.
pub(crate) fn unread(line: u64) -> AnswerLine<'static>
    ensures { line_bytes result ≡ unread_line line }
{
    AnswerLine::Refused {
        number: UNREAD,
        places: Places::At(line),
    }
}
