// Hundreds of cases from a file, one after another: whole runs of the quote program, and histories of one engine. What each
// answers is printed below its number and the name of its group.
#![tactic(auto)]

mod answers;
mod case_file;
mod tables;

use answers::{Line, line_of, stands};
use anyhow::{Context, anyhow};
use case_file::CaseFile;
use engine::{Space, replay};
use quoting::transcript;
use std::fs;
use tables::{read_calls, read_table};

fn main(rt: HostRuntime) -> anyhow::Result<()> {
    run(&rt)
}

fn run(rt: &HostRuntime) -> anyhow::Result<()> {
    let bytes = fs::read(rt, "cases.bin")?;
    let mut file = CaseFile(&bytes);
    for number in 1..=file.word()? {
        let letter = file.byte()?;
        let group = str::from_utf8(file.text()?)?;
        println!(rt; "case {number} {group}")?;
        print_case(rt, char::from(letter), &mut file)?;
    }
    Ok(())
}

// A case of the kind that its letter names. One match over the letters: each kind of case is printed in its own way.
fn print_case<'a>(rt: &HostRuntime, letter: char, file: &mut CaseFile<'a>) -> anyhow::Result<()> {
    match letter {
        'Q' => print_run(rt, file),
        'H' => print_history(rt, file),
        _ => Err(anyhow!("a case of no known kind")),
    }
}

// A run of the quote program: its model file and its input.
fn print_run<'a>(rt: &HostRuntime, file: &mut CaseFile<'a>) -> anyhow::Result<()> {
    let model = file.text()?;
    let input = file.text()?;
    let text = transcript(rt.alloc(), model, input)?;
    print!(rt; "{text}")?;
    Ok(())
}

// A history: the table of an open, and calls.
fn print_history<'a>(rt: &HostRuntime, file: &mut CaseFile<'a>) -> anyhow::Result<()> {
    let heap = rt.alloc();
    let table = read_table(heap, file)?;
    let mut asked = read_calls(heap, file)?;
    let engine = replay(Space::new(heap)?, &table, &mut asked);
    for one in &asked {
        let line = line_of(one).context("a call that was not made")?;
        println!(rt; "{line}")?;
    }
    let answer = stands(&engine);
    println!(rt; "{}", Line { answer, list: &[] })?;
    Ok(())
}
