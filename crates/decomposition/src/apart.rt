ghost use Rattle.std.specs.Prelude.{IfOk};
ghost use Rattle.model.specs.Held.{table_of};
ghost use Rattle.decomposition.specs.Decomposed.{Decomposed};
ghost use Rattle.decomposition.specs.Spaces.{PartsOfNothing};

use crate::parts::Parts;
use crate::passes::settle;
use crate::scratch::Scratch;
use crate::taken::TakenApart;
use model::{CHOICE_PLACES, Model, STATE_PLACES};
use std::alloc::{AllocError, Global};

impl Parts {
    // The parts of nothing, with room for those of every lawful table.
    pub fn new(heap: Global) -> Result<Parts, AllocError>
        ensures { IfOk result PartsOfNothing }
    {
        let inside = Vec::with_capacity(heap, CHOICE_PLACES)?;
        let node = Vec::with_capacity(heap, STATE_PLACES)?;
        let component = Vec::with_capacity(heap, STATE_PLACES)?;
        Ok(Parts {
            inside,
            node,
            component,
            components: 0,
        })
    }

    // Takes a model's table apart: its components, inside choices and nodes take the place of what was here. Of the working space nothing is
    // promised: the next call writes over it.
    pub fn take_apart(&mut self, scratch: &mut Scratch, model: &Model)
        ensures { Decomposed (table_of model.now) self.new }
    {
        scratch.kept.fill();
        settle(model, &mut scratch.kept, &mut scratch.square);
        self.number(&TakenApart {
            model,
            kept: &scratch.kept,
            square: &scratch.square,
        });
        scratch.kept.write_choices(model, &mut self.inside);
    }
}
