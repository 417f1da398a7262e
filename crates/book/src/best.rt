ghost use Rattle.std.specs.Prelude.{◌≡◌};
ghost use Rattle.rules.specs.Sweep.{better};

use rules::Candidate;

// One more candidate: the best so far is the first, or the first that is larger than all before it.
// It goes on from a best that the caller brings, and of two equal ones it keeps the first, where `max_by_key` takes the last.
pub(crate) fn improved(best: Option<Candidate>, next: Candidate) -> Option<Candidate>
    ensures { result ≡ better best next }
{
    match best {
        Some(before) if before.value >= next.value => best,
        _ => Some(next),
    }
}
