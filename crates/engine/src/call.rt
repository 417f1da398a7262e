use history::Refusal;
use table::Fault;

// A call with its arguments. A load has its source; a plan has the list that it is written into.
#[derive(Debug, Drop, PartialEq, Eq)]
pub enum Call<S: Drop> {
    Load(S),
    Standing,
    Refine {
        component: u64,
        steps: u64,
        width: u64,
    },
    Sweep {
        count: u64,
    },
    Close,
    Quote {
        state: u64,
        width: u64,
    },
    Plan {
        list: Vec<u32>,
    },
}

// What a call answers.
#[derive(Clone, Copy, PartialEq, Eq, Debug)]
pub enum Answer {
    // a load or a close
    Done,
    Stands { states: u64, components: u64 },
    // standing of an idle engine: the fault of its open
    Unopened(Fault),
    Refined { made: u64, lo: i64, hi: i64 },
    Swept { made: u64 },
    Quoted { lower: i64, upper: i64, mark: bool },
    // the choices stand in the list of the call
    Planned,
    Refused(Refusal),
}

// A call that is asked of an engine, and the place for its answer.
#[derive(Debug, Drop)]
pub struct Asked<S: Drop> {
    pub call: Call<S>,
    pub answer: Option<Answer>,
}
