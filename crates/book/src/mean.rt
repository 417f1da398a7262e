ghost use Rattle.std.specs.Prelude.{◌≡◌, ℕ, ◌*◌, ◌^◌, ◌<◌, ◌≤◌, length, pos, ◌+ℤ◌, ◌*ℤ◌};
ghost use Rattle.table.specs.Sums.{sum_n};
ghost use Rattle.book.specs.Bounded.{Bounded, AllBounded};
ghost use Rattle.book.specs.RunSums.{place_at, weight_at, run_sum};

use horizon::Side;
use rules::SCALE;

// A weight times a value.
fn share(weight: u32, value: i64) -> i64
    requires light { weight ≤ 2 ^ 16 }
    requires small { Bounded (2 ^ 46) value }
    ensures value { result ≡ pos weight *ℤ value }
    ensures within { Bounded (weight * 2 ^ 46) result }
{
    i64::from(weight) * value
}

// The sum of weight times value over a run of branches.
pub(crate) fn total(run: &[(u32, u32)], values: &[i64]) -> i64
    requires inside { (b : ℕ) → b < length run.now → place_at run.now b < length values.now }
    requires light { sum_n (length run.now) (weight_at run.now) ≤ 2 ^ 16 }
    requires small { AllBounded values.now }
    ensures value { result ≡ run_sum run.now values.now }
    ensures within { Bounded (2 ^ 62) result }
{
    run.iter()
        .map(|(place, weight)| share(*weight, values[*place as usize]))
        .sum()
}

// F times a reward.
fn scaled(reward: i32) -> i64
    requires { Bounded 1000000 reward }
    ensures value { result ≡ pos 1048576 *ℤ reward }
    ensures within { Bounded (2 ^ 40) result }
{
    SCALE * i64::from(reward)
}

// F times a reward, and a total over the denominator rounded to the side.
pub(crate) fn worth<S: Side>(reward: i32, total: i64, denominator: u32) -> i64
    requires reward { Bounded 1000000 reward }
    requires total { Bounded (2 ^ 62) total }
    ensures { result ≡ (pos 1048576 *ℤ reward) +ℤ S.rounds total denominator }
{
    scaled(reward) + S::round(total, denominator)
}
