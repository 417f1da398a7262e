// Quotes of the model in model.bin: each line of standard input is answered as it comes.
#![tactic(auto)]

use console::next_line;
use quoting::{Console, Room};
use std::fs::File;
use std::io;
use std::io::{BufRead, BufReader, ErrorKind, Read, Write};
use table::MOST_STATES;

// one more than a model file may have; that limit is the reader's own, which refuses what is longer
const ENOUGH: u64 = 65_537;

fn main(rt: HostRuntime) -> io::Result<()> {
    let room = Room::new(rt.alloc())?;
    let file = model_file(&rt)?;
    let (first, console) = Console::open(room, &file);
    println!(rt; "{first}")?;
    match console {
        Some(console) => answer_lines(&rt, console),
        None => Ok(()),
    }
}

// The bytes of the model file, as many as decide about it; none if there is no such file.
fn model_file(rt: &HostRuntime) -> io::Result<Vec<u8>> {
    let mut bytes = Vec::new(rt.alloc());
    match File::open(rt, "model.bin") {
        Ok(file) => {
            file.take(ENOUGH).read_to_end(&mut bytes)?;
        }
        Err(e) if e.kind() == ErrorKind::NotFound => {}
        Err(e) => return Err(e),
    }
    Ok(bytes)
}

// Lines are cut by `next_line`, whose contract says what a line is, and not by std's `split`; each is read into the same bytes.
fn answer_lines(rt: &HostRuntime, mut console: Console) -> io::Result<()> {
    let mut input = BufReader::new(rt.alloc(), rt.stdin())?;
    let mut list = [0; MOST_STATES as usize];
    let mut line = Vec::new(rt.alloc());
    for _ in 0..u64::MAX {
        line.clear();
        input.read_until(b'\n', &mut line)?;
        let Some((end, _)) = next_line(&line, 0) else {
            break;
        };
        let answer = console.answer(&line[..end], &mut list);
        println!(rt; "{answer}")?;
        rt.stdout().flush()?;
    }
    Ok(())
}
