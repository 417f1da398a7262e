use decomposition::{Parts, Scratch};
use model::Model;
use std::alloc::{AllocError, Global};
use table::{Fault, Source};

// Space to take one table after another apart: the model that holds it, and its parts.
#[derive(Drop)]
pub(crate) struct Space {
    model: Model,
    scratch: Scratch,
    pub(crate) parts: Parts,
}

impl Space {
    pub(crate) fn new(heap: Global) -> Result<Space, AllocError> {
        let model = Model::new(heap)?;
        let scratch = Scratch::new(heap)?;
        let parts = Parts::new(heap)?;
        Ok(Space {
            model,
            scratch,
            parts,
        })
    }

    // Takes a source's table apart, if it is lawful; else the first broken limit on its walk.
    pub(crate) fn take_apart<S: Source>(&mut self, source: &S) -> Result<(), Fault> {
        self.model.load(source)?;
        self.parts.take_apart(&mut self.scratch, &self.model);
        Ok(())
    }
}
