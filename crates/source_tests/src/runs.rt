use crate::found::{at, choice, in_list, state};
use sources::{List, Opposite};
use table::Source;

// A run of choices may end with its list; one place more, or so far on that 32 bits wrap, and it is empty.
#[test]
fn of_choices(rt: HostRuntime) {
    let choices = [choice(1, 0, 1), choice(2, 0, 1), choice(3, 0, 1)];
    let branches = [(0, 4)];
    let cases = [
        (state(1, 2), at(0, 0, 0, 0)),
        (state(2, 2), at(13, 0, 0, 0)),
        (state(4_294_967_295, 1), at(13, 0, 0, 0)),
        (state(4_294_967_295, 4), at(13, 0, 0, 0)),
    ];
    for (row, expected) in cases {
        assert_eq!(rt; in_list(4, &[row], &choices, &branches), expected);
    }
    let states = [state(1, 2)];
    let list = List::new(4, &states, &choices, &branches);
    assert_eq!(rt; list.reward(0, 0), 2);
    assert_eq!(rt; list.reward(0, 1), 3);
    assert_eq!(rt; list.reward(0, 2), 0);
    assert_eq!(rt; list.reward(1, 0), 0);
}

#[test]
fn of_branches(rt: HostRuntime) {
    let states = [state(0, 1), state(0, 1)];
    let branches = [(9, 9), (0, 1), (1, 3)];
    let cases = [
        (choice(0, 1, 2), at(0, 0, 0, 0)),
        (choice(0, 2, 2), at(15, 0, 0, 0)),
        (choice(0, 4_294_967_295, 3), at(15, 0, 0, 0)),
    ];
    for (row, expected) in cases {
        assert_eq!(rt; in_list(4, &states, &[row], &branches), expected);
    }
    let choices = [choice(0, 1, 2)];
    let list = List::new(4, &states, &choices, &branches);
    assert_eq!(rt; list.branch(0, 0, 1), (1, 3));
    assert_eq!(rt; list.branch(0, 0, 2), (0, 0));
    assert_eq!(rt; list.branch(0, 1, 0), (0, 0));
    assert_eq!(rt; list.branch(2, 0, 0), (0, 0));
}

// Past 257 rows a list has no more states, and their choices are none.
#[test]
fn of_states(rt: HostRuntime) {
    let rows = [state(0, 1); 300];
    let choices = [choice(7, 0, 1)];
    let branches = [(0, 4)];
    let list = List::new(4, &rows, &choices, &branches);
    assert_eq!(rt; list.states(), 257);
    assert_eq!(rt; list.choices(256), 1);
    assert_eq!(rt; list.choices(257), 0);
    assert_eq!(rt; list.reward(257, 0), 0);
}

// The least reward of 32 bits has no opposite of 32 bits: it becomes the largest, and back that one's opposite.
#[test]
fn opposites(rt: HostRuntime) {
    let states = [state(0, 3)];
    let choices = [
        choice(-2_147_483_648, 0, 1),
        choice(2_147_483_647, 0, 1),
        choice(5, 0, 1),
    ];
    let branches = [(0, 4)];
    let list = List::new(4, &states, &choices, &branches);
    let once = Opposite(list);
    assert_eq!(rt; once.reward(0, 0), 2_147_483_647);
    assert_eq!(rt; once.reward(0, 1), -2_147_483_647);
    assert_eq!(rt; once.reward(0, 2), -5);
    assert_eq!(rt; once.reward(0, 3), 0);
    let twice = Opposite(once);
    assert_eq!(rt; twice.reward(0, 0), -2_147_483_647);
    assert_eq!(rt; twice.reward(0, 1), 2_147_483_647);
    assert_eq!(rt; twice.reward(0, 2), 5);
    assert_eq!(rt; twice.branch(0, 2, 0), (0, 4));
}
