ghost use Rattle.std.specs.Prelude.{◌≡◌, ℕ, ◌^◌, ◌<◌, ◌≤◌, length, IfSome};
ghost use Rattle.table.specs.Sums.{sum_n};
ghost use Rattle.horizon.specs.Means.{round_down, round_up};
ghost use Rattle.components.specs.Nodes.{nodes, components};
ghost use Rattle.rules.specs.Setting.{setting_of};
ghost use Rattle.rules.specs.Sweep.{better, over_choices, staying, best_of};
ghost use Rattle.book.specs.Layouts.{layout_table};
ghost use Rattle.book.specs.Bounded.{AllBounded};
ghost use Rattle.book.specs.RunSums.{place_at, weight_at, run_sum};
ghost use Rattle.book.specs.Sweeps.{stay_in};
ghost use Rattle.book.specs.SideBounds.{bounds_table, bounds_setting, upper_means, lower_means};

use crate::best::improved;
use crate::layout::Layout;
use crate::mean::total;
use crate::side_bounds::SideBounds;
use horizon::{LowerSide, Side, UpperSide};
use rules::{Candidate, Exit};

// The best on a side, after one more choice that leaves: its links, the values of the nodes, and its exit.
fn leave<S: Side>(
    run: &[(u32, u32)],
    values: &[i64],
    denominator: u32,
    exit: Exit,
    best: Option<Candidate>,
) -> Option<Candidate>
    requires inside { (b : ℕ) → b < length run.now → place_at run.now b < length values.now }
    requires light { sum_n (length run.now) (weight_at run.now) ≤ 2 ^ 16 }
    requires small { AllBounded values.now }
    ensures { result ≡ better best (record { value = S.rounds (run_sum run.now values.now) denominator; exit = exit }) }
{
    let value = S::round(total(run, values), denominator);
    improved(best, Candidate { value, exit })
}

// To stay, for the bound of the component, if the node is one.
fn stay_in(component: Option<u32>, bounds: &[i64]) -> Option<Candidate>
    requires { IfSome component (λ i. i < length bounds.now) }
    ensures { result ≡ stay_in component bounds.now }
{
    component.map(|known| Candidate {
        value: bounds[known as usize],
        exit: Exit::Stay,
    })
}

// The first candidate of a node: to stay, if it is a component.
fn stay(layout: &Layout, bounds: &[i64], node: u32) -> Option<Candidate>
    requires node { node < nodes (layout_table layout.now) }
    requires bounds { length bounds.now ≡ components (layout_table layout.now) }
    ensures { result ≡ staying (setting_of (layout_table layout.now)) bounds.now node }
{
    stay_in(layout.component_at(node), bounds)
}

impl SideBounds<'_> {
    // The best so far on either side, after the leaving choices of one state, each looked at once for both.
    // A loop: a `fold` over the choices that leave would name the same steps in a closure.
    fn best_choices(
        &self,
        state: u32,
        mut upper: Option<Candidate>,
        mut lower: Option<Candidate>,
    ) -> (Option<Candidate>, Option<Candidate>)
        requires { state < (bounds_table self.now).states }
        ensures upper { result.0 ≡ over_choices (bounds_setting self.now) (upper_means self.now) state ((bounds_table self.now).choices state) upper }
        ensures lower { result.1 ≡ over_choices (bounds_setting self.now) (lower_means self.now) state ((bounds_table self.now).choices state) lower }
    {
        let denominator = self.layout.model.rows.denominator;
        for choice in 0..self.layout.choices(state) {
            if !self.layout.is_inside(state, choice) {
                let run = self.layout.links_of(state, choice);
                let exit = Exit::Leave { state, choice };
                upper = leave::<UpperSide>(run, self.x, denominator, exit, upper);
                lower = leave::<LowerSide>(run, self.y, denominator, exit, lower);
            }
        }
        (upper, lower)
    }

    // The first of the largest candidates of a node on either side: to stay, then the leaving choices by state and choice.
    pub(crate) fn best_exits(&self, node: u32) -> (Option<Candidate>, Option<Candidate>)
        requires { node < nodes (bounds_table self.now) }
        ensures upper { result.0 ≡ best_of (bounds_setting self.now) round_up self.now.hi.now self.now.x.now node }
        ensures lower { result.1 ≡ best_of (bounds_setting self.now) round_down self.now.lo.now self.now.y.now node }
    {
        let mut upper = stay(self.layout, self.hi, node);
        let mut lower = stay(self.layout, self.lo, node);
        let members = self.layout.members_of(node);
        for &state in members {
            (upper, lower) = self.best_choices(state, upper, lower);
        }
        (upper, lower)
    }
}
