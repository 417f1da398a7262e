// The rules of refine, sweep and plan as definitions, and what every book that they lead to keeps: the theorems in specs/ stand on no
// function here, but on the contracts of the crates above that cite them.
#![tactic(auto)]

mod exit;

ghost use Rattle.std.specs.Prelude.{◌≡◌};
ghost use Rattle.rules.specs.Setting.{scale_in_use, cap_in_use};

pub use exit::{Candidate, Exit};

// F: a bound is a whole multiple of 1 / F. A constant carries no contract: `scale` says that this is the F of the rules.
pub const SCALE: i64 = 1_048_576;

// H: no number of a vector is above it; `cap` says so.
pub const CAP: i64 = 70_368_744_177_664;

// F, as the rules have it.
pub fn scale() -> u64
    ensures value { result ≡ scale_in_use }
{
    SCALE as u64
}

// H, as the rules have it.
pub fn cap() -> u64
    ensures value { result ≡ cap_in_use }
{
    CAP as u64
}
