ghost use Rattle.std.specs.Prelude.{◌≡◌, true};
ghost use Rattle.std.specs.List.{prefix_len};
ghost use Rattle.std.specs.Option.{option_map};
ghost use Rattle.std.specs.Char.{is_ascii_digit};
ghost use Rattle.std.specs.Str.{all_ascii_digits};
ghost use Rattle.console.specs.Commands.{number_of, argument_in, ended_in, refine_in, sweep_in, quote_in, command_by, command_of};
ghost use Rattle.console.specs.Spelling.{CommandLaw};

// What a command line asks of the engine.
#[derive(Clone, Copy, PartialEq, Eq, Debug)]
pub enum Command {
    Refine {
        component: u64,
        steps: u64,
        width: u64,
    },
    Sweep {
        count: u64,
    },
    Quote {
        state: u64,
        width: u64,
    },
    Plan,
    Close,
}

const MOST_DIGITS: usize = 18;

// The command that the line spells, its line feed left out; none where it spells no command.
pub fn read_command(line: &[u8]) -> Option<Command>
    ensures reads { result ≡ command_of line.now }
    ensures law { CommandLaw line.now }
{
    let (letter, text) = line.split_first()?;
    by_letter(char::from(*letter), text)
}

// The command of a line that begins with this letter; the text follows it. A rule of this project: letters are matched as
// char literals in one small function.
fn by_letter(letter: char, text: &[u8]) -> Option<Command>
    ensures { result ≡ command_by letter text.now }
{
    match letter {
        'R' => refine(text),
        'S' => sweep(text),
        'Q' => quote(text),
        'P' => ended(text, Command::Plan),
        'C' => ended(text, Command::Close),
        _ => None,
    }
}

fn refine(text: &[u8]) -> Option<Command>
    ensures { result ≡ refine_in text.now }
{
    let (component, text) = argument(text)?;
    let (steps, text) = argument(text)?;
    let (width, text) = argument(text)?;
    ended(
        text,
        Command::Refine {
            component,
            steps,
            width,
        },
    )
}

fn sweep(text: &[u8]) -> Option<Command>
    ensures { result ≡ sweep_in text.now }
{
    let (count, text) = argument(text)?;
    ended(text, Command::Sweep { count })
}

fn quote(text: &[u8]) -> Option<Command>
    ensures { result ≡ quote_in text.now }
{
    let (state, text) = argument(text)?;
    let (width, text) = argument(text)?;
    ended(text, Command::Quote { state, width })
}

// The command, if nothing follows.
fn ended(text: &[u8], command: Command) -> Option<Command>
    ensures { result ≡ ended_in text.now command }
{
    text.is_empty().then_some(command)
}

// The number after the blank at the front, and what follows its digits.
fn argument(text: &[u8]) -> Option<(u64, &[u8])>
    ensures { option_map (λ a. (a.0, a.1.now)) result ≡ argument_in text.now }
{
    let text = text.strip_prefix(b" ")?;
    let (digits, rest) = text.split_at(digit_count(text));
    Some((number(digits)?, rest))
}

// How many digits stand at the front.
fn digit_count(text: &[u8]) -> usize
    ensures { result ≡ prefix_len is_ascii_digit text.now }
{
    text.iter().take_while(|byte| byte.is_ascii_digit()).count()
}

// The number that the digits write, if they are 1 to 18.
fn number(digits: &[u8]) -> Option<u64>
    requires { all_ascii_digits digits.now ≡ true }
    ensures { result ≡ number_of digits.now }
{
    if digits.len() > MOST_DIGITS {
        return None;
    }
    str::from_utf8(digits).ok()?.parse().ok()
}
