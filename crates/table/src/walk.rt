ghost use Rattle.std.specs.Prelude.{◌≡◌, [], ◌∷◌};
ghost use Rattle.table.specs.Sums.{sum_n};
ghost use Rattle.table.specs.Table.{weight};
ghost use Rattle.table.specs.Faults.{leads_to};
ghost use Rattle.table.specs.Walk.{branch_walk, head_walk, state_walk, first_broken, fault_of};
ghost use Rattle.table.specs.Law.{WalkLaw, verdict};

use crate::fault::Fault;
use crate::limits::{MOST_BRANCHES, MOST_CHOICES, MOST_DENOMINATOR, MOST_REWARD, MOST_STATES};
use crate::source::Source;

// The first broken limit of the source's table, or none: then the table is lawful.
#[tactic(auto, using(crate::proofs::WalkLaw::walk_law))]
pub fn check<S: Source>(source: &S) -> Result<(), Fault>
    ensures decides { result ≡ verdict (fault_of (S.table source.now)) }
    ensures law { WalkLaw (S.table source.now) }
{
    let states = source.states();
    if !(1..=MOST_STATES).contains(&states) {
        return Err(Fault::States);
    }
    if !(1..=MOST_DENOMINATOR).contains(&source.denominator()) {
        return Err(Fault::Denominator);
    }
    for state in 0..states {
        check_state(source, state)?;
    }
    Ok(())
}

// The first broken limit of one state. A rule of this project: the loops over its choices and branches are left from
// inside by a label, with the fault found.
fn check_state<S: Source>(source: &S, state: u32) -> Result<(), Fault>
    ensures { result ≡ verdict (first_broken (S.table source.now) (state_walk (S.table source.now) state)) }
{
    let choices = source.choices(state);
    if !(1..=MOST_CHOICES).contains(&choices) {
        return Err(Fault::Choices { state });
    }
    'walk: {
        for choice in 0..choices {
            if let Err(fault) = check_head(source, state, choice) {
                break 'walk Err(fault);
            }
            for branch in 0..source.branches(state, choice) {
                if let Err(fault) = check_branch(source, state, choice, branch) {
                    break 'walk Err(fault);
                }
            }
            if total_weight(source, state, choice) != u64::from(source.denominator()) {
                break 'walk Err(Fault::Sum { state, choice });
            }
        }
        Ok(())
    }
}

// What the weights of a choice add up to.
fn total_weight<S: Source>(source: &S, state: u32, choice: u32) -> u64
    ensures { let T = S.table source.now in result ≡ sum_n (T.branches state choice) (weight T state choice) }
{
    (0..source.branches(state, choice))
        .map(|branch| u64::from(source.branch(state, choice, branch).1))
        .sum()
}

// What a choice breaks before its branches: its reward, or how many branches it has.
fn check_head<S: Source>(source: &S, state: u32, choice: u32) -> Result<(), Fault>
    ensures { result ≡ verdict (first_broken (S.table source.now) (head_walk state choice)) }
{
    if !(-MOST_REWARD..=MOST_REWARD).contains(&source.reward(state, choice)) {
        return Err(Fault::Reward { state, choice });
    }
    if !(1..=MOST_BRANCHES).contains(&source.branches(state, choice)) {
        return Err(Fault::Branches { state, choice });
    }
    Ok(())
}

// What a branch breaks: its successor is no state, its weight is 0, or its successor stands before.
fn check_branch<S: Source>(source: &S, state: u32, choice: u32, branch: u32) -> Result<(), Fault>
    ensures { result ≡ verdict (first_broken (S.table source.now) (branch_walk state choice branch)) }
{
    let (successor, weight) = source.branch(state, choice, branch);
    if successor >= source.states() {
        return Err(Fault::Successor {
            state,
            choice,
            branch,
        });
    }
    if weight == 0 {
        return Err(Fault::Weight {
            state,
            choice,
            branch,
        });
    }
    if leads_to(source, state, choice, branch, successor) {
        return Err(Fault::Repeated {
            state,
            choice,
            branch,
        });
    }
    Ok(())
}

// Whether one of the first `count` branches of a choice leads to the state `target`.
fn leads_to<S: Source>(source: &S, state: u32, choice: u32, count: u32, target: u32) -> bool
    ensures { result ≡ leads_to (S.table source.now) state choice target count }
{
    (0..count).any(|branch| source.branch(state, choice, branch).0 == target)
}
