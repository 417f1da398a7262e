use book::Desk;
use table::Fault;

// A desk, and of an idle engine the fault of its open: no call reads an idle engine's desk, which is there for the loads to come.
#[derive(Drop)]
pub struct Engine {
    pub(crate) desk: Desk,
    pub(crate) idle: Option<Fault>,
}
