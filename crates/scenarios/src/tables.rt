use crate::case_file::CaseFile;
use anyhow::anyhow;
use engine::{Asked, Call};
use sources::{ChoiceRow, OwnedList, StateRow};
use std::alloc::Global;

// A list: how many items, then each. Not `.map(|_| read(file)).try_collect(heap)`, which was tried: the borrow checker does not cover the file
// that such a closure borrows.
fn read_list<'a, T: Drop, F: FnMut(&mut CaseFile<'a>) -> anyhow::Result<T>>(
    heap: Global,
    file: &mut CaseFile<'a>,
    mut read: F,
) -> anyhow::Result<Vec<T>>
    requires { F.IsAlwaysCallable read }
{
    let mut items = Vec::new(heap);
    for _ in 0..file.word()? {
        items.push(read(file)?)?;
    }
    Ok(items)
}

// A table: its denominator, then each of the three lists.
pub(crate) fn read_table<'a>(heap: Global, file: &mut CaseFile<'a>) -> anyhow::Result<OwnedList> {
    Ok(OwnedList {
        denominator: file.word()?,
        states: read_list(heap, file, read_state)?,
        choices: read_list(heap, file, read_choice)?,
        branches: read_list(heap, file, read_branch)?,
    })
}

fn read_state<'a>(file: &mut CaseFile<'a>) -> anyhow::Result<StateRow> {
    Ok(StateRow {
        first: file.word()?,
        count: file.word()?,
    })
}

fn read_choice<'a>(file: &mut CaseFile<'a>) -> anyhow::Result<ChoiceRow> {
    Ok(ChoiceRow {
        reward: file.word()?.cast_signed(),
        first: file.word()?,
        count: file.word()?,
    })
}

// A successor and its weight.
fn read_branch<'a>(file: &mut CaseFile<'a>) -> anyhow::Result<(u32, u32)> {
    Ok((file.word()?, file.word()?))
}

// Calls: how many, then each as its letter and its arguments.
pub(crate) fn read_calls<'a>(
    heap: Global,
    file: &mut CaseFile<'a>,
) -> anyhow::Result<Vec<Asked<OwnedList>>> {
    read_list(heap, file, |file| read_asked(heap, file))
}

// A call with the place for its answer.
fn read_asked<'a>(heap: Global, file: &mut CaseFile<'a>) -> anyhow::Result<Asked<OwnedList>> {
    let call = read_call(heap, file)?;
    Ok(Asked { call, answer: None })
}

// The list of a plan: how many places it has, and what each holds before.
fn read_room<'a>(heap: Global, file: &mut CaseFile<'a>) -> anyhow::Result<Vec<u32>> {
    let places = file.long()?;
    let held = file.long()?;
    Ok(vec![in heap; u32::try_from(held)?; usize::try_from(places)?]?)
}

// A call by its letter. One match over the letters: each call has its own arguments.
fn read_call<'a>(heap: Global, file: &mut CaseFile<'a>) -> anyhow::Result<Call<OwnedList>> {
    match char::from(file.byte()?) {
        'L' => Ok(Call::Load(read_table(heap, file)?)),
        'T' => Ok(Call::Standing),
        'R' => Ok(Call::Refine {
            component: file.long()?,
            steps: file.long()?,
            width: file.long()?,
        }),
        'S' => Ok(Call::Sweep {
            count: file.long()?,
        }),
        'C' => Ok(Call::Close),
        'Q' => Ok(Call::Quote {
            state: file.long()?,
            width: file.long()?,
        }),
        'P' => Ok(Call::Plan {
            list: read_room(heap, file)?,
        }),
        _ => Err(anyhow!("a call of no known kind")),
    }
}
