// The model file: from its bytes to the three lists that a list source reads.
#![tactic(auto)]

mod cursor;
mod fault;
mod fill;
mod lists;
mod loaded;
mod next;
mod parse;
mod reader;
mod record;

pub use fault::{ByteFault, FileFault, FileNotice, RecordFault};
pub use lists::load;
pub use loaded::Loaded;
pub use reader::Reader;
pub use record::{Choice, Header, Record, State};
