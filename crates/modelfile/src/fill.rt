ghost use Rattle.std.specs.Prelude.{◌≡◌, ◌≤◌, ◌&&◌, nat_le, List, [], ◌∷◌, length, slice_set};
ghost use Rattle.std.specs.Option.{option_map, unwrap_or};
ghost use Rattle.modelfile.specs.Bytes.{branch_of, branches_in};
ghost use Rattle.modelfile.specs.Records.{of_choice, choice_of, fields_of};
ghost use Rattle.modelfile.specs.Filling.{fill, counts, tally, placed, tally_of, SameLists, AtMost};

use crate::loaded::Loaded;
use crate::record::{Choice, Record};
use sources::{ChoiceRow, StateRow};

// Puts a row at a place of a list that has it.
fn put<T: Copy>(list: &mut [T], at: usize, row: T)
    ensures { list.new ≡ slice_set list.old at row }
{
    // not by `get_mut`, which was tried: nothing is known then of what the list ends as
    if at < list.len() {
        list[at] = row;
    }
}

// The branch that stands in six bytes: its successor and its weight.
fn branch_in(bytes: &[u8; 6]) -> (u32, u32)
    ensures { result ≡ branch_of bytes.now }
{
    let [a, b, c, d, e, f] = *bytes;
    (
        u32::from(u16::from_le_bytes([a, b])),
        u32::from_le_bytes([c, d, e, f]),
    )
}

// Puts the branches that stand in `bytes` into a list from `first` on, and answers how many there are.
fn put_branches(list: &mut [(u32, u32)], first: u32, bytes: &[u8]) -> u32
    requires { length (branches_in bytes) ≤ 65536 }
    ensures count { result ≡ length (branches_in bytes.entry) }
    ensures list { list.new ≡ fill (branches_in bytes.entry) first list.old }
{
    let (runs, _) = bytes.as_chunks();
    // not over `list.iter_mut().skip(first).zip(runs)`: tried, and a loop over adapters of `iter_mut` leaves no fact of what the list holds after it
    for (i, run) in runs.iter().enumerate() {
        put(list, first as usize + i, branch_in(run));
    }
    runs.len() as u32
}

// Puts the branches of a choice into a list from `first` on, or the one branch `own`, and answers how many there are.
fn place_branches(list: &mut [(u32, u32)], first: u32, bytes: Option<&[u8]>, own: (u32, u32)) -> u32
    requires { length (unwrap_or (option_map branches_in bytes) ((0, 0) ∷ [])) ≤ 65536 }
    ensures count { result ≡ length (unwrap_or (option_map branches_in bytes.entry) (own ∷ [])) }
    ensures list { list.new ≡ fill (unwrap_or (option_map branches_in bytes.entry) (own ∷ [])) first list.old }
{
    match bytes {
        Some(run) => put_branches(list, first, run),
        None => {
            put(list, first as usize, own);
            1
        }
    }
}

// Lists that are filled as far as they reach, and how much was put so far.
// Slices with counts and not `Vec`s: they are the caller's, as `load` promises in public.
#[derive(Drop)]
pub(crate) struct Lists<'a> {
    pub(crate) used: Loaded,
    pub(crate) states: &'a mut [StateRow],
    pub(crate) choices: &'a mut [ChoiceRow],
    pub(crate) branches: &'a mut [(u32, u32)],
}

impl<'a> Lists<'a> {
    // The lists before the first record.
    pub(crate) fn new(
        states: &'a mut [StateRow],
        choices: &'a mut [ChoiceRow],
        branches: &'a mut [(u32, u32)],
    ) -> Lists<'a>
        ensures lists { tally_of result ≡ tally (counts 1 0 0 0) states.old choices.old branches.old }
        ensures same { (result.states.ghost_name ≡ states.entry.ghost_name) × (result.choices.ghost_name ≡ choices.entry.ghost_name) × (result.branches.ghost_name ≡ branches.entry.ghost_name) }
    {
        let used = Loaded {
            denominator: 1,
            states: 0,
            choices: 0,
            branches: 0,
        };
        Lists {
            used,
            states,
            choices,
            branches,
        }
    }

    // Whether the lists have a place for each row.
    pub(crate) fn fit(&self, need: &Loaded) -> bool
        ensures { result ≡ (nat_le need.now.states (length self.now.states.now) && nat_le need.now.choices (length self.now.choices.now) && nat_le need.now.branches (length self.now.branches.now)) }
    {
        need.states as usize <= self.states.len()
            && need.choices as usize <= self.choices.len()
            && need.branches as usize <= self.branches.len()
    }

    // Puts a choice of the present state and its branches.
    fn place_choice(&mut self, choice: &Choice)
        requires { AtMost 65536 self.old (of_choice (choice_of choice.now)) }
        ensures lists { tally_of self.new ≡ placed (tally_of self.old) (of_choice (choice_of choice.now)) }
        ensures same { SameLists self.old self.new }
    {
        let used = &mut self.used;
        let own = (used.states.saturating_sub(1), used.denominator);
        let count = place_branches(self.branches, used.branches, choice.branches, own);
        let row = ChoiceRow {
            reward: choice.reward.unwrap_or(0),
            first: used.branches,
            count,
        };
        put(self.choices, used.choices as usize, row);
        used.choices += 1;
        used.branches += count;
    }

    // Puts a record. One match over the kinds of record: each goes into another list.
    pub(crate) fn place(&mut self, item: &Record)
        requires { AtMost 65536 self.old (fields_of item.now) }
        ensures lists { tally_of self.new ≡ placed (tally_of self.old) (fields_of item.now) }
        ensures same { SameLists self.old self.new }
    {
        match item {
            Record::Header(header) => {
                self.used.denominator = header.denominator.unwrap_or(1);
            }
            Record::State(state) => {
                let row = StateRow {
                    first: self.used.choices,
                    count: state.choices,
                };
                put(self.states, self.used.states as usize, row);
                self.used.states += 1;
            }
            Record::Choice(choice) => self.place_choice(choice),
        }
    }
}
