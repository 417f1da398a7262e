ghost use Rattle.std.specs.Prelude.{◌≡◌, IfOk, replicate, vec_len};
ghost use Rattle.sources.specs.Rows.{no_state, no_choice};
ghost use Rattle.engine.specs.Spaces.{IsFresh};

use engine::Space;
use sources::{ChoiceRow, StateRow};
use std::alloc::{AllocError, Global};
use table::MOST_STATES;

// How many choices and branches a whole file may have; a table's limits say how many a state and a choice may have. A file that has more,
// or more states than a table may have, is refused with the number 26.
const MOST_CHOICES: usize = 1024;

const MOST_BRANCHES: usize = 4096;

// All the memory that a console ever needs, made before it sees a file: the space of its engine, and the lists that the file is read into, with
// all their places.
#[derive(Drop)]
pub struct Room {
    pub(crate) space: Space,
    pub(crate) states: Vec<StateRow>,
    pub(crate) choices: Vec<ChoiceRow>,
    pub(crate) branches: Vec<(u32, u32)>,
    ghost states_long: { vec_len states ≡ 256 },
    ghost choices_long: { vec_len choices ≡ 1024 },
    ghost branches_long: { vec_len branches ≡ 4096 },
}

impl Room {
    // The room; no memory is asked for after this.
    pub fn new(heap: Global) -> Result<Room, AllocError>
        ensures space { IfOk result (λ r. IsFresh r.space) }
        ensures states { IfOk result (λ r. r.states.items ≡ replicate 256 no_state) }
        ensures choices { IfOk result (λ r. r.choices.items ≡ replicate 1024 no_choice) }
        ensures branches { IfOk result (λ r. r.branches.items ≡ replicate 4096 (0, 0)) }
    {
        Ok(Room {
            space: Space::new(heap)?,
            states: vec![in heap; StateRow::default(); MOST_STATES as usize]?,
            choices: vec![in heap; ChoiceRow::default(); MOST_CHOICES]?,
            branches: vec![in heap; (0, 0); MOST_BRANCHES]?,
        })
    }
}
