ghost use Rattle.std.specs.Prelude.{◌≡◌, ◌*◌, ◌<◌, true, length, pos, neg_ℤ, slice_index_or};
ghost use Rattle.table.specs.Limits.{Lawful};
ghost use Rattle.sources.specs.Bands.{band_within, distance, holding, band_table};

use table::Source;

const MOST_HALF: u32 = 127;

const MOST_HOLDING: u32 = 7_000;

const MOST_RECENTRING: u32 = 1_000_000;

// A rehedging band, whose states have two choices: 0 holds and 1 recentres, numbers since those of a table are.
// Its half-width, the cost of holding one step off the centre, and the cost of recentring.
#[derive(Clone, Copy, PartialEq, Eq, Debug)]
pub struct Band {
    half: u32,
    holding: u32,
    recentring: u32,
}

impl Band {
    pub fn new(half: u32, holding: u32, recentring: u32) -> Band
        ensures half { result.half ≡ half }
        ensures holding { result.holding ≡ holding }
        ensures recentring { result.recentring ≡ recentring }
    {
        Band {
            half,
            holding,
            recentring,
        }
    }

    // Whether the band's three numbers are within their limits; its table is then lawful.
    #[tactic(auto, using(crate::proofs::LawfulBands::band_lawful))]
    pub fn within_limits(&self) -> bool
        ensures test { result ≡ band_within self.now.half self.now.holding self.now.recentring }
        ensures lawful { result ≡ true → Lawful (band_table self.now.half self.now.holding self.now.recentring) }
    {
        (1..=MOST_HALF).contains(&self.half)
            && self.holding <= MOST_HOLDING
            && self.recentring <= MOST_RECENTRING
    }
}

// How many branches holding at a state has: two at either end, else three. This and the next one both tell the two ends from the
// middle: made once and handed on as a slice, which was tried, a band's branches took twice as long to ask for.
fn holding_count(half: u32, state: u32) -> u32
    requires { half < 128 }
    ensures { result ≡ length (holding half state) }
{
    if state == 0 || state == 2 * half {
        2
    } else {
        3
    }
}

// A branch of holding at a state: a step down, none, or a step up, of those that there are.
fn holding_branch(half: u32, state: u32, branch: u32) -> (u32, u32)
    requires half_bound { half < 128 }
    requires state_bound { state < 256 }
    ensures { result ≡ slice_index_or (holding half state) branch (0, 0) }
{
    if state == 0 {
        match branch {
            0 => (state, 3),
            1 => (state + 1, 1),
            _ => (0, 0),
        }
    } else if state == 2 * half {
        match branch {
            0 => (state - 1, 1),
            1 => (state, 3),
            _ => (0, 0),
        }
    } else {
        match branch {
            0 => (state - 1, 1),
            1 => (state, 2),
            2 => (state + 1, 1),
            _ => (0, 0),
        }
    }
}

// What holding at a state costs, as a reward.
fn holding_reward(half: u32, cost: u32, state: u32) -> i32
    requires half { half < 128 }
    requires cost { cost < 7001 }
    requires state { state < 256 }
    ensures { result ≡ neg_ℤ (pos (cost * distance half state)) }
{
    -((cost * state.abs_diff(half)) as i32)
}

impl Source for Band {
    ghost table = { λ x. band_table x.half x.holding x.recentring };

    fn states(&self) -> u32 {
        if self.within_limits() {
            2 * self.half + 1
        } else {
            0
        }
    }

    fn denominator(&self) -> u32 {
        4
    }

    fn choices(&self, state: u32) -> u32 {
        if state < self.states() { 2 } else { 0 }
    }

    fn reward(&self, state: u32, choice: u32) -> i32 {
        if state >= self.states() {
            return 0;
        }
        match choice {
            0 => holding_reward(self.half, self.holding, state),
            1 => -(self.recentring as i32),
            _ => 0,
        }
    }

    fn branches(&self, state: u32, choice: u32) -> u32 {
        if state >= self.states() {
            return 0;
        }
        match choice {
            0 => holding_count(self.half, state),
            1 => 1,
            _ => 0,
        }
    }

    fn branch(&self, state: u32, choice: u32, branch: u32) -> (u32, u32) {
        if state >= self.states() {
            return (0, 0);
        }
        match choice {
            0 => holding_branch(self.half, state, branch),
            1 if branch == 0 => (self.half, 4),
            _ => (0, 0),
        }
    }
}
