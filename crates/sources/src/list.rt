ghost use Rattle.std.specs.Prelude.{◌≡◌, ℕ, ◌+◌, ◌^◌, ◌<◌, ◌≤◌, length, slice_index_or};
ghost use Rattle.sources.specs.Rows.{run, no_state, state_count, state_at, choice_at, branch_count, branch_at, list_table};

use table::Source;

// A run of a list is told by its first place and its count, and not as a slice: a table's rows are flat data, and lie in lists that are
// a caller's or move with their owner.

// A state of a list: where its choices begin in the list of choices, and how many there are.
#[derive(Clone, Copy, PartialEq, Eq, Default, Debug)]
pub struct StateRow {
    pub first: u32,
    pub count: u32,
}

// A choice of a list: its reward, where its branches begin in the list of branches, and how many there are.
#[derive(Clone, Copy, PartialEq, Eq, Default, Debug)]
pub struct ChoiceRow {
    pub reward: i32,
    pub first: u32,
    pub count: u32,
}

// A denominator and three lists of the caller; a branch is its successor and its weight.
#[derive(Clone, Copy)]
pub struct List<'a> {
    denominator: u32,
    states: &'a [StateRow],
    choices: &'a [ChoiceRow],
    branches: &'a [(u32, u32)],
}

const MOST_ROWS: usize = 257;

impl<'a> List<'a> {
    pub fn new(
        denominator: u32,
        states: &'a [StateRow],
        choices: &'a [ChoiceRow],
        branches: &'a [(u32, u32)],
    ) -> List<'a>
        ensures denominator { result.denominator ≡ denominator }
        ensures states { result.states.now ≡ states.now }
        ensures choices { result.choices.now ≡ choices.now }
        ensures branches { result.branches.now ≡ branches.now }
    {
        List {
            denominator,
            states,
            choices,
            branches,
        }
    }

    // The rows of its states: 257 at most, since that there are more than 256 is all that counts of a longer list.
    fn state_rows(&self) -> &'a [StateRow]
        ensures count { let l = self.now in length result.now ≡ state_count l.states.now l.choices.now l.branches.now }
        ensures each { let l = self.now in (s : ℕ) → slice_index_or result.now s no_state ≡ state_at l.states.now l.choices.now l.branches.now s }
        ensures few { length result.now ≤ 257 }
    {
        &self.states[..self.states.len().min(MOST_ROWS)]
    }

    // The row of a state, or an empty one.
    fn state_row(&self, state: u32) -> StateRow
        ensures { let l = self.now in result ≡ state_at l.states.now l.choices.now l.branches.now state }
    {
        let rows = self.state_rows();
        rows.get(state as usize).copied().unwrap_or_default()
    }

    // The row of a choice of a state, or an empty one.
    fn choice_row(&self, state: u32, choice: u32) -> ChoiceRow
        ensures { let l = self.now in result ≡ choice_at l.states.now l.choices.now l.branches.now state choice }
    {
        let StateRow { first, count } = self.state_row(state);
        let rows = part(self.choices, first, count);
        rows.get(choice as usize).copied().unwrap_or_default()
    }

    // The branches of a choice, in one run: none where there is no such choice.
    pub fn branches_of(&self, state: u32, choice: u32) -> &'a [(u32, u32)]
        ensures count { let l = self.now in length result.now ≡ branch_count l.states.now l.choices.now l.branches.now state choice }
        ensures each { let l = self.now in (b : ℕ) → slice_index_or {A = ℕ × ℕ} result.now b (0, 0) ≡ branch_at l.states.now l.choices.now l.branches.now state choice b }
        ensures few { length result.now < 2 ^ 32 }
    {
        let ChoiceRow { first, count, .. } = self.choice_row(state, choice);
        part(self.branches, first, count)
    }
}

// The run of `count` elements from `first` on: none where it passes the end of the list.
fn part<T>(list: &[T], first: u32, count: u32) -> &[T]
    ensures long { length result.now ≡ run first count (length list.now) }
    ensures elements { (i : ℕ) (d : T) → i < length result.now
        → slice_index_or result.now i d ≡ slice_index_or list.now (first + i) d }
{
    let first = first as usize;
    list.get(first..first + count as usize).unwrap_or(&[])
}

impl<'a> Source for List<'a> {
    ghost table = { λ l. list_table l.denominator l.states.now l.choices.now l.branches.now };

    fn states(&self) -> u32 {
        self.state_rows().len() as u32
    }

    fn denominator(&self) -> u32 {
        self.denominator
    }

    fn choices(&self, state: u32) -> u32 {
        let StateRow { first, count } = self.state_row(state);
        part(self.choices, first, count).len() as u32
    }

    fn reward(&self, state: u32, choice: u32) -> i32 {
        self.choice_row(state, choice).reward
    }

    fn branches(&self, state: u32, choice: u32) -> u32 {
        self.branches_of(state, choice).len() as u32
    }

    fn branch(&self, state: u32, choice: u32, branch: u32) -> (u32, u32) {
        let branches = self.branches_of(state, choice);
        branches.get(branch as usize).copied().unwrap_or_default()
    }
}
