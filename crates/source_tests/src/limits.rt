use crate::found::{at, choice, in_list, state};
use table::Notice;

// Every limit is tried around one lawful table of two states: state 0 has one choice, state 1 has two.

#[test]
fn number_of_states(rt: HostRuntime) {
    let rows = [state(0, 1); 300];
    let choices = [choice(0, 0, 1)];
    for (count, number) in [(0, 11), (256, 0), (257, 11), (300, 11)] {
        assert_eq!(rt;
            in_list(4, &rows[..count], &choices, &[(0, 4)]),
            at(number, 0, 0, 0)
        );
    }
}

#[test]
fn denominator(rt: HostRuntime) {
    let states = [state(0, 1)];
    let choices = [choice(0, 0, 1)];
    for (denominator, number) in [(0, 12), (1, 0), (65_536, 0), (65_537, 12)] {
        assert_eq!(rt;
            in_list(denominator, &states, &choices, &[(0, denominator)]),
            at(number, 0, 0, 0)
        );
    }
}

#[test]
fn number_of_choices(rt: HostRuntime) {
    let choices = [choice(0, 0, 1); 17];
    let cases = [
        (16, at(0, 0, 0, 0)),
        (17, at(13, 1, 0, 0)),
        (0, at(13, 1, 0, 0)),
    ];
    for (count, expected) in cases {
        assert_eq!(rt;
            in_list(4, &[state(0, 1), state(0, count)], &choices, &[(0, 4)]),
            expected
        );
    }
}

#[test]
fn reward(rt: HostRuntime) {
    let states = [state(0, 1), state(1, 2)];
    let cases = [
        ([1_000_000, -1_000_000, 1_000_001], at(14, 1, 1, 0)),
        ([1_000_000, -1_000_001, 0], at(14, 1, 0, 0)),
        ([1_000_000, -1_000_000, 0], at(0, 0, 0, 0)),
    ];
    for (rewards, expected) in cases {
        let choices = rewards.map(|reward| choice(reward, 0, 1));
        assert_eq!(rt; in_list(4, &states, &choices, &[(0, 4)]), expected);
    }
}

#[test]
fn number_of_branches(rt: HostRuntime) {
    let states = [state(0, 1); 9];
    let branches = [
        (0, 1),
        (1, 1),
        (2, 1),
        (3, 1),
        (4, 1),
        (5, 1),
        (6, 1),
        (7, 1),
        (8, 1),
    ];
    for (denominator, count, number) in [(8, 8, 0), (9, 9, 15), (9, 0, 15)] {
        assert_eq!(rt;
            in_list(denominator, &states, &[choice(0, 0, count)], &branches),
            at(number, 0, 0, 0)
        );
    }
}

// The table of the tests on branches, with these branches.
fn with_branches(branches: &[(u32, u32)]) -> Notice {
    let states = [state(0, 1), state(1, 2)];
    let choices = [choice(5, 0, 2), choice(-7, 2, 1), choice(0, 3, 2)];
    in_list(4, &states, &choices, branches)
}

#[test]
fn a_branch(rt: HostRuntime) {
    let cases = [
        ([(0, 1), (1, 3), (1, 4), (0, 2), (1, 2)], at(0, 0, 0, 0)),
        ([(1, 3), (0, 1), (1, 4), (1, 2), (0, 2)], at(0, 0, 0, 0)),
        ([(0, 1), (1, 3), (1, 4), (0, 2), (2, 2)], at(16, 1, 1, 1)),
        ([(0, 1), (1, 3), (1, 4), (0, 0), (1, 4)], at(17, 1, 1, 0)),
        ([(0, 1), (1, 3), (1, 4), (1, 2), (1, 2)], at(18, 1, 1, 1)),
    ];
    for (branches, expected) in cases {
        assert_eq!(rt; with_branches(&branches), expected);
    }
}

#[test]
fn sum_of_weights(rt: HostRuntime) {
    let cases = [
        ([(0, 1), (1, 3), (1, 4), (0, 1), (1, 2)], at(19, 1, 1, 0)),
        ([(0, 1), (1, 3), (1, 4), (0, 3), (1, 2)], at(19, 1, 1, 0)),
        ([(0, 1), (1, 3), (1, 3), (0, 2), (1, 2)], at(19, 1, 0, 0)),
    ];
    for (branches, expected) in cases {
        assert_eq!(rt; with_branches(&branches), expected);
    }
}

// Of two faults the one that comes first on the walk decides, whatever its number.
#[test]
fn the_first_decides(rt: HostRuntime) {
    let states = [state(0, 1), state(1, 2)];
    let choices = [choice(5, 0, 2), choice(-7, 2, 1), choice(2_000_000, 3, 2)];
    let cases = [
        ([(0, 1), (1, 2), (1, 4), (0, 2), (1, 2)], at(19, 0, 0, 0)),
        ([(0, 0), (9, 4), (1, 4), (0, 2), (1, 2)], at(17, 0, 0, 0)),
        ([(9, 0), (0, 4), (1, 4), (0, 2), (1, 2)], at(16, 0, 0, 0)),
        ([(0, 2), (0, 0), (1, 4), (0, 2), (1, 2)], at(17, 0, 0, 1)),
    ];
    for (branches, expected) in cases {
        assert_eq!(rt; in_list(4, &states, &choices, &branches), expected);
    }
    assert_eq!(rt; in_list(0, &[], &choices, &[]), at(11, 0, 0, 0));
    assert_eq!(rt; in_list(0, &[state(0, 0)], &choices, &[]), at(12, 0, 0, 0));
}
