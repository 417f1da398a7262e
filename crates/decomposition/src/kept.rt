ghost use Rattle.std.specs.Prelude.{◌≡◌, ◌+◌, ◌*◌, ◌<◌, ◌≤◌, true, false, length, replicate, IfOk, slice_set, vec_capacity};
ghost use Rattle.model.specs.Held.{table_of};
ghost use Rattle.model.specs.declared.sizes.TheConstants.{CHOICE_PLACES};
ghost use Rattle.decomposition.specs.Flags.{flag_at, OwnFlags};

use model::{CHOICE_PLACES, Model};
use std::alloc::{AllocError, Global};
use table::{MOST_CHOICES, MOST_STATES, Source};

// The place of a choice among the flags: each state has room for as many choices as a state may have.
pub(crate) fn place(state: u32, choice: u32) -> usize
    ensures { result ≡ MOST_CHOICES * state + choice }
{
    MOST_CHOICES as usize * state as usize + choice as usize
}

// A set of choices, by a flag at each place. They lie flat, as those in the parts and in an engine's layout do: flat data is a rule
// of this project.
#[derive(Drop)]
pub(crate) struct Kept {
    pub(crate) flags: Vec<bool>,
    ghost size: { length flags.items ≡ CHOICE_PLACES },
}

impl Kept {
    // All choices.
    pub(crate) fn all(heap: Global) -> Result<Kept, AllocError>
        ensures { IfOk result (λ kept. kept.flags.items ≡ replicate CHOICE_PLACES true) }
    {
        Ok(Kept {
            flags: vec![in heap; true; CHOICE_PLACES]?,
        })
    }

    // Puts all choices into the set.
    pub(crate) fn fill(&mut self)
        ensures { self.new.flags.items ≡ replicate CHOICE_PLACES true }
    {
        self.flags.fill(true);
    }

    // Whether a choice is in the set.
    pub(crate) fn has(&self, state: u32, choice: u32) -> bool
        ensures { result ≡ flag_at self.now.flags.items state choice }
    {
        self.flags
            .get(place(state, choice))
            .copied()
            .unwrap_or(false)
    }

    // Takes a choice out of the set.
    pub(crate) fn remove(&mut self, state: u32, choice: u32)
        requires state { state < MOST_STATES }
        requires choice { choice < MOST_CHOICES }
        ensures { self.new.flags.items ≡ slice_set self.old.flags.items (MOST_CHOICES * state + choice) false }
    {
        self.flags[place(state, choice)] = false;
    }

    // Writes the flags of a model's states over what a list with room for them holds. No flag is set there but that of a choice that the
    // model has.
    pub(crate) fn write_choices(&self, model: &Model, flags: &mut Vec<bool>)
        requires room { CHOICE_PLACES ≤ vec_capacity flags.old }
        ensures flags { OwnFlags (table_of model.now) (table_of model.now).states self.now.flags.items flags.new.items }
        ensures room { CHOICE_PLACES ≤ vec_capacity flags.new }
    {
        flags.clear();
        for state in 0..model.states() {
            let first = place(state, 0);
            let end = place(state, model.choices(state));
            let of_state = &self.flags[first..end];
            flags.extend_from_slice(of_state).unwrap();
            flags.resize(place(state + 1, 0), false).unwrap();
        }
    }
}
