ghost use Rattle.std.specs.Prelude.{◌≡◌, pos, ◌-ℤ◌, int_le, if◌then◌else◌};
ghost use Rattle.components.specs.Law.{EveryLawfulTable};
ghost use Rattle.rules.specs.Fit.{EveryFit};
ghost use Rattle.rules.specs.Meaning.{EveryMeaning};
ghost use Rattle.rules.specs.Promises.{EveryBook, EverySound};
ghost use Rattle.history.specs.Calls.{opened, next, count_within};
ghost use Rattle.history.specs.Calls.Call.{load as load_call, standing as standing_call, refines, sweeping, close as close_call, quote as quote_call, plan as plan_call};
ghost use Rattle.history.specs.Answers.{answer};
ghost use Rattle.history.specs.Answers.Answer.{refused, done, stands, unopened, refined, swept, quoted, planned};
ghost use Rattle.history.specs.Histories.{HistoryLaw};
ghost use Rattle.history.specs.Refusing.{RefusalLaw};
ghost use Rattle.history.specs.Worked.{Worked};
ghost use Rattle.engine.specs.States.{state_of, answer_by, list_after};

use crate::engine::Engine;
use crate::space::Space;
use history::Refusal;
use table::{Fault, Source};

// 1 to 1,000
fn counts(count: u64) -> bool
    ensures { result ≡ count_within count }
{
    (1..=1000).contains(&count)
}

// The bounds are at most the width apart.
fn mark(lower: i64, upper: i64, width: u64) -> bool
    ensures { result ≡ int_le (upper -ℤ lower) (pos width) }
{
    i128::from(upper) - i128::from(lower) <= i128::from(width)
}

impl Engine {
    // An engine with the source's table at its start; an idle one if the table breaks a limit. What an engine is for stands here, beside what
    // this call does: the laws of bounds, refusals, components and rules, those of books for every scale and cap, and the worked histories.
    pub fn open<S: Source>(space: Space, source: &S) -> Engine
        ensures opens { state_of result ≡ opened (S.table source.now) }
        ensures bounds { HistoryLaw (S.table source.now) }
        ensures refusals { RefusalLaw }
        ensures components { EveryLawfulTable }
        ensures rules { EveryMeaning }
        ensures books { EveryBook }
        ensures sound { EverySound }
        ensures fit { EveryFit }
        ensures worked { Worked }
    {
        let mut desk = space.desk;
        let idle = desk.load(source).err();
        Engine { desk, idle }
    }

    // Puts another table in the place of the one that is loaded. It is checked before anything is written, and no memory is asked for.
    pub fn load<S: Source>(&mut self, source: &S) -> Result<(), Refusal>
        ensures answer { answer_by (λ _. done) refused result ≡ answer (state_of self.old) (load_call (S.table source.now)) }
        ensures holds { state_of self.new ≡ next (state_of self.old) (load_call (S.table source.now)) }
    {
        self.desk.load(source)?;
        self.idle = None;
        Ok(())
    }

    // The number of states and of components; if idle, the fault of the open.
    pub fn standing(&self) -> Result<(u64, u64), Fault>
        ensures { answer_by (λ x. stands x.0 x.1) unopened result ≡ answer (state_of self.now) standing_call }
    {
        match self.idle {
            None => Ok((self.desk.states(), self.desk.components())),
            Some(fault) => Err(fault),
        }
    }

    // A rule of this project: a refine, and each call below, takes the pair of numbers that standing answers by `let .. else`.
    // Where that is a fault, the call is refused as idle, whatever the fault is.
    // Their clauses are alike, what a call answers and what the engine holds then, but each names its own call.

    // Steps made in the component, its lo and its hi then.
    pub fn refine(
        &mut self,
        component: u64,
        steps: u64,
        width: u64,
    ) -> Result<(u64, i64, i64), Refusal>
        ensures answer { answer_by (λ x. refined x.0 x.1 x.2) refused result ≡ answer (state_of self.old) (refines component steps width) }
        ensures holds { state_of self.new ≡ next (state_of self.old) (refines component steps width) }
    {
        let Ok((_, components)) = self.standing() else {
            return Err(Refusal::Idle);
        };
        if component >= components {
            return Err(Refusal::Component);
        }
        if !counts(steps) {
            return Err(Refusal::Count);
        }
        let made = self.desk.refine(component, steps, width);
        let (lo, hi) = self.desk.bounds(component);
        Ok((made, lo, hi))
    }

    // Sweeps made.
    pub fn sweep(&mut self, count: u64) -> Result<u64, Refusal>
        ensures answer { answer_by swept refused result ≡ answer (state_of self.old) (sweeping count) }
        ensures holds { state_of self.new ≡ next (state_of self.old) (sweeping count) }
    {
        let Ok((_, _)) = self.standing() else {
            return Err(Refusal::Idle);
        };
        if !counts(count) {
            return Err(Refusal::Count);
        }
        Ok(self.desk.sweep(count))
    }

    // Back to the start of the table that is loaded.
    pub fn close(&mut self) -> Result<(), Refusal>
        ensures answer { answer_by (λ _. done) refused result ≡ answer (state_of self.old) close_call }
        ensures holds { state_of self.new ≡ next (state_of self.old) close_call }
    {
        let Ok((_, _)) = self.standing() else {
            return Err(Refusal::Idle);
        };
        self.desk.close();
        Ok(())
    }

    // The lower and the upper bound of a state, and whether they are at most the width apart.
    pub fn quote(&self, state: u64, width: u64) -> Result<(i64, i64, bool), Refusal>
        ensures { answer_by (λ x. quoted x.0 x.1 (if x.2 then 1 else 0)) refused result ≡ answer (state_of self.now) (quote_call state width) }
    {
        let Ok((states, _)) = self.standing() else {
            return Err(Refusal::Idle);
        };
        if state >= states {
            return Err(Refusal::State);
        }
        let (lower, upper) = self.desk.quote(state);
        Ok((lower, upper, mark(lower, upper, width)))
    }

    // Writes the choice of each state to the front of the caller's list and leaves the rest.
    pub fn plan(&self, list: &mut [u32]) -> Result<(), Refusal>
        ensures answer { answer_by (λ _. planned list.new) refused result ≡ answer (state_of self.now) (plan_call list.old) }
        ensures list { list.new ≡ list_after (answer (state_of self.now) (plan_call list.old)) list.old }
    {
        let Ok((states, _)) = self.standing() else {
            return Err(Refusal::Idle);
        };
        if (list.len() as u64) < states {
            return Err(Refusal::Room);
        }
        self.desk.plan(list);
        Ok(())
    }
}
