ghost use Rattle.std.specs.Prelude.{IfOk};
ghost use Rattle.decomposition.specs.Spaces.{Unused};

use crate::bits::Square;
use crate::kept::Kept;
use std::alloc::{AllocError, Global};

// Working space to take tables apart, one after another: a set of choices, and marks of what reaches what.
#[derive(Drop)]
pub struct Scratch {
    pub(crate) kept: Kept,
    pub(crate) square: Square,
}

impl Scratch {
    // One in which all choices are kept and nothing is marked.
    pub fn new(heap: Global) -> Result<Scratch, AllocError>
        ensures { IfOk result Unused }
    {
        let kept = Kept::all(heap)?;
        let square = Square::new(heap)?;
        Ok(Scratch { kept, square })
    }
}
