ghost use Rattle.std.specs.Prelude.{◌≡◌, Some};
ghost use Rattle.table.specs.Walk.{fault_of};
ghost use Rattle.table.specs.declared.fault.Fault.TheVariants.{Sum};
ghost use Rattle.sources.specs.Rows.{list_table};
ghost use Rattle.samples.specs.Export.{export_table, SameInside};

use sources::{ChoiceRow, List, StateRow};

const STATES: [StateRow; 5] = [
    StateRow { first: 0, count: 2 },
    StateRow { first: 2, count: 2 },
    StateRow { first: 4, count: 2 },
    StateRow { first: 6, count: 2 },
    StateRow { first: 8, count: 2 },
];

// The choice of every state that recentres; all share its branch.
const RECENTRING: ChoiceRow = ChoiceRow {
    reward: -40,
    first: 13,
    count: 1,
};

// Holding and recentring in turn.
const CHOICES: [ChoiceRow; 10] = [
    ChoiceRow {
        reward: -10,
        first: 0,
        count: 2,
    },
    RECENTRING,
    ChoiceRow {
        reward: -5,
        first: 2,
        count: 3,
    },
    RECENTRING,
    ChoiceRow {
        reward: 0,
        first: 5,
        count: 3,
    },
    RECENTRING,
    ChoiceRow {
        reward: -5,
        first: 8,
        count: 3,
    },
    RECENTRING,
    ChoiceRow {
        reward: -10,
        first: 11,
        count: 2,
    },
    RECENTRING,
];

// Staying at state 3, with the weight 1 where the band has 2.
const STAYING: (u32, u32) = (3, 1);

const BRANCHES: [(u32, u32); 14] = [
    (0, 3),
    (1, 1),
    (0, 1),
    (1, 2),
    (2, 1),
    (1, 1),
    (2, 2),
    (3, 1),
    (2, 1),
    STAYING,
    (4, 1),
    (3, 1),
    (4, 3),
    (2, 4),
];

// The band of the day as a system wrote it out. Its first broken limit: the weights of holding at state 3 do not add up.
pub fn export() -> List<'static>
    ensures fault { fault_of (list_table result.denominator result.states.now result.choices.now result.branches.now) ≡ Some (Sum 3 0) }
    ensures table { SameInside (list_table result.denominator result.states.now result.choices.now result.branches.now) export_table }
{
    List::new(4, &STATES, &CHOICES, &BRANCHES)
}
