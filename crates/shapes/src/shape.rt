use sources::{ChoiceRow, OwnedList, StateRow};
use std::alloc::{AllocError, Global};

// A table without rewards: how many choices each state has, how many branches each choice has, and what the branches are.
// Three lists, as they are written below: no row names a place, and each run begins where the one before ends.
#[derive(Clone, Copy)]
pub(crate) struct Shape<'a> {
    pub(crate) name: &'a str,
    pub(crate) denominator: u32,
    pub(crate) states: &'a [u32],
    pub(crate) choices: &'a [u32],
    pub(crate) branches: &'a [(u32, u32)],
}

// A row for each count. Its run begins where the one before ends: `scan` would carry the same sum in a closure.
fn rows<T: Drop, F: Fn(u32, u32) -> T>(
    heap: Global,
    counts: &[u32],
    row: F,
) -> Result<Vec<T>, AllocError>
    requires { F.IsAlwaysCallable row }
{
    let mut rows = Vec::new(heap);
    let mut first: u32 = 0;
    for count in counts {
        rows.push(row(first, *count))?;
        first = first.wrapping_add(*count);
    }
    Ok(rows)
}

// The lists of a shape's table.
pub(crate) fn lists_of(heap: Global, shape: &Shape<'_>) -> Result<OwnedList, AllocError> {
    let states = rows(heap, shape.states, |first, count| StateRow { first, count })?;
    let choices = rows(
        heap,
        shape.choices,
        |first, count| ChoiceRow {
            reward: 0,
            first,
            count,
        },
    )?;
    let branches = shape.branches.to_vec(heap)?;
    Ok(OwnedList {
        denominator: shape.denominator,
        states,
        choices,
        branches,
    })
}

// One choice for each state, with one branch of weight 1; two branches or two choices somewhere; a branch that leads away;
// and weights that do not add up.
pub(crate) const SHAPES: [Shape<'static>; 13] = [
    Shape {
        name: "loop",
        denominator: 1,
        states: &[1],
        choices: &[1],
        branches: &[(0, 1)],
    },
    Shape {
        name: "cycle",
        denominator: 1,
        states: &[1, 1],
        choices: &[1, 1],
        branches: &[(1, 1), (0, 1)],
    },
    Shape {
        name: "lonely",
        denominator: 2,
        states: &[1, 1],
        choices: &[2, 1],
        branches: &[(0, 1), (1, 1), (1, 2)],
    },
    Shape {
        name: "exit",
        denominator: 2,
        states: &[1, 2, 1],
        choices: &[1, 1, 2, 1],
        branches: &[(1, 2), (0, 2), (0, 1), (2, 1), (2, 2)],
    },
    Shape {
        name: "nested",
        denominator: 1,
        states: &[1, 2, 1],
        choices: &[1, 1, 1, 1],
        branches: &[(1, 1), (0, 1), (2, 1), (0, 1)],
    },
    Shape {
        name: "touching",
        denominator: 1,
        states: &[1, 2, 1, 1],
        choices: &[1, 1, 1, 1, 1],
        branches: &[(1, 1), (0, 1), (2, 1), (3, 1), (2, 1)],
    },
    Shape {
        name: "periodic",
        denominator: 1,
        states: &[1, 1, 1, 1],
        choices: &[1, 1, 1, 1],
        branches: &[(1, 1), (2, 1), (3, 1), (0, 1)],
    },
    Shape {
        name: "last",
        denominator: 1,
        states: &[1, 1, 1, 1],
        choices: &[1, 1, 1, 1],
        branches: &[(1, 1), (2, 1), (3, 1), (3, 1)],
    },
    Shape {
        name: "split",
        denominator: 2,
        states: &[1, 1, 1],
        choices: &[1, 2, 1],
        branches: &[(1, 2), (0, 1), (2, 1), (2, 2)],
    },
    Shape {
        name: "later",
        denominator: 1,
        states: &[1, 1, 1, 1],
        choices: &[1, 1, 1, 1],
        branches: &[(2, 1), (1, 1), (3, 1), (2, 1)],
    },
    Shape {
        name: "woven",
        denominator: 1,
        states: &[1, 1, 1, 1],
        choices: &[1, 1, 1, 1],
        branches: &[(2, 1), (3, 1), (0, 1), (1, 1)],
    },
    Shape {
        name: "both",
        denominator: 2,
        states: &[1, 1],
        choices: &[2, 2],
        branches: &[(0, 1), (1, 1), (0, 1), (1, 1)],
    },
    Shape {
        name: "short",
        denominator: 2,
        states: &[1],
        choices: &[1],
        branches: &[(0, 1)],
    },
];
