use engine::Engine;

// A run of the quote program whose model is loaded.
#[derive(Drop)]
pub struct Console {
    pub(crate) engine: Engine,
    // how many lines were answered
    pub(crate) lines: u64,
}
