ghost use Rattle.std.specs.Prelude.{◌≡◌, ℕ, ◌≤◌, ℤ, pos, ◌≤ℤ◌, int_div, int_rem};
ghost use Rattle.horizon.specs.Means.{round_down, round_up, OnSide, KeepsEqual, Monotone, Near, Within};
ghost use Rattle.horizon.specs.Sums.{branch_sum_z};
ghost use Rattle.horizon.specs.Rounding.{up_above, up_exact, up_mono, up_within, down_below, down_exact, down_mono, down_within};
ghost use Rattle.horizon.specs.MeansLemmas.{keeps_equal, monotone, up_near, down_near};

// One of the two sides of a mean. Work on means is written once, over a side.
pub trait Side {
    // which numbers lie on this side of an exact one
    ghost beside: { ℤ → ℤ → Type 0 };

    // an integer over a denominator, rounded to this side
    ghost rounds: { ℤ → ℕ → ℤ };

    // The total divided by the denominator, rounded to this side; 0 where the denominator is 0.
    fn round(total: i64, denominator: u32) -> i64
        ensures { result ≡ rounds total denominator };

    // the mean never lies on the wrong side of the exact one
    ghost side: { OnSide beside rounds };

    // equal numbers give that number
    ghost equal: { KeepsEqual rounds };

    // a larger number never gives a smaller mean
    ghost larger: { Monotone rounds };

    // the mean is less than one off
    ghost near: { Near rounds };

    // a number is not rounded away from 0 past what bounds it
    ghost within: { Within rounds };
}

// The upper side rounds up.
#[derive(Clone, Copy, PartialEq, Eq, Debug)]
pub struct UpperSide;

// The lower side rounds toward minus infinity.
#[derive(Clone, Copy, PartialEq, Eq, Debug)]
pub struct LowerSide;

// The quotient toward zero and what remains, both 0 where the denominator is 0: the rules round to 0 there, so that a mean is total. A side moves the quotient by one at most.
fn divided(total: i64, denominator: u32) -> (i64, i64)
    ensures zero { denominator ≡ 0 → (result.0 ≡ pos 0) × (result.1 ≡ pos 0) }
    ensures whole { 1 ≤ denominator → result.0 ≡ int_div total (pos denominator) }
    ensures rest { 1 ≤ denominator → result.1 ≡ int_rem total (pos denominator) }
{
    if denominator == 0 {
        return (0, 0);
    }
    let divisor = i64::from(denominator);
    (total / divisor, total % divisor)
}

impl Side for UpperSide {
    ghost beside = { λ exact mean. exact ≤ℤ mean };

    ghost rounds = { round_up };

    ghost side = { λ T law s c h k f. up_above (branch_sum_z T s c f) T.denominator law.denominator.0 };

    ghost equal = { keeps_equal round_up up_exact };

    ghost larger = { monotone round_up up_mono };

    ghost near = { up_near };

    ghost within = { up_within };

    fn round(total: i64, denominator: u32) -> i64 {
        let (whole, rest) = divided(total, denominator);
        if rest > 0 { whole + 1 } else { whole }
    }
}

impl Side for LowerSide {
    ghost beside = { λ exact mean. mean ≤ℤ exact };

    ghost rounds = { round_down };

    ghost side = { λ T law s c h k f. down_below (branch_sum_z T s c f) T.denominator law.denominator.0 };

    ghost equal = { keeps_equal round_down down_exact };

    ghost larger = { monotone round_down down_mono };

    ghost near = { down_near };

    ghost within = { down_within };

    fn round(total: i64, denominator: u32) -> i64 {
        let (whole, rest) = divided(total, denominator);
        if rest < 0 { whole - 1 } else { whole }
    }
}
