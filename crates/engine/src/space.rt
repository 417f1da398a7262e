ghost use Rattle.std.specs.Prelude.{IfOk};
ghost use Rattle.engine.specs.Spaces.{IsFresh};

use book::Desk;
use std::alloc::{AllocError, Global};

// All the memory that an engine ever needs, made before it sees a table: a desk with room for every lawful table.
#[derive(Drop)]
pub struct Space {
    pub(crate) desk: Desk,
}

impl Space {
    // The space; no memory is asked for after this.
    pub fn new(heap: Global) -> Result<Space, AllocError>
        ensures { IfOk result IsFresh }
    {
        Ok(Space {
            desk: Desk::new(heap)?,
        })
    }
}
