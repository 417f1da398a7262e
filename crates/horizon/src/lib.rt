// What certificates, depths and plans say of the scaled reward over every horizon, and the two sides of a mean.
// Each function below stands for one theorem: its contract is the theorem, and it answers the theorem's number.
// Each answers a number since, by a rule of this project, each public function can be turned wrong by an edit that is refused.
#![tactic(auto)]

mod side;

ghost use Rattle.std.specs.Prelude.{◌≡◌, pos};
ghost use Rattle.horizon.specs.Certificates.{UpperCertificateBounds, LowerCertificateBounds};
ghost use Rattle.horizon.specs.Potential.{PotentialLaws};
ghost use Rattle.horizon.specs.Upper.{UpperTheorem};
ghost use Rattle.horizon.specs.Lower.{LowerTheorem};
ghost use Rattle.horizon.specs.Example.{WorkedExample, example_reward};

pub use side::{LowerSide, Side, UpperSide};

// An upper certificate bounds every strategy over every horizon.
pub fn upper_certificate_bounds() -> u8
    ensures number { result ≡ 1 }
    ensures theorem { UpperCertificateBounds }
{
    1u8
}

// A lower certificate of a plan bounds that plan over every horizon.
pub fn lower_certificate_bounds() -> u8
    ensures number { result ≡ 2 }
    ensures theorem { LowerCertificateBounds }
{
    2u8
}

// The potential is monotone and falls by one, in the mean, on a choice that descends; the constant grows with the depth.
pub fn potential_falls() -> u8
    ensures number { result ≡ 3 }
    ensures theorem { PotentialLaws }
{
    3u8
}

// Node values, component vectors and node depths bound every strategy over every horizon.
pub fn upper_theorem() -> u8
    ensures number { result ≡ 4 }
    ensures theorem { UpperTheorem }
{
    4u8
}

// Values, vectors and depths under a plan bound that plan over every horizon.
pub fn lower_theorem() -> u8
    ensures number { result ≡ 5 }
    ensures theorem { LowerTheorem }
{
    5u8
}

// The scaled reward of the worked example over 0, 1 and 2 steps.
pub fn example_rewards() -> (i64, i64, i64)
    ensures over0 { result.0 ≡ example_reward 0 }
    ensures over1 { result.1 ≡ example_reward 1 }
    ensures over2 { result.2 ≡ example_reward 2 }
    ensures theorem { WorkedExample }
{
    (0, 2, 12)
}
