use crate::found::{at, found};
use sources::{Band, Opposite};
use table::Source;

#[test]
fn limits(rt: HostRuntime) {
    let cases = [
        (Band::new(1, 0, 0), at(0, 0, 0, 0)),
        (Band::new(127, 7_000, 1_000_000), at(0, 0, 0, 0)),
        (Band::new(0, 0, 0), at(11, 0, 0, 0)),
        (Band::new(128, 0, 0), at(11, 0, 0, 0)),
        (Band::new(1, 7_001, 0), at(11, 0, 0, 0)),
        (Band::new(1, 0, 1_000_001), at(11, 0, 0, 0)),
    ];
    for (band, expected) in cases {
        assert_eq!(rt; found(&band), expected);
    }
    assert_eq!(rt;
        found(&Opposite(Band::new(127, 7_000, 1_000_000))),
        at(0, 0, 0, 0)
    );
}

#[test]
fn holding(rt: HostRuntime) {
    let band = Band::new(127, 7_000, 1_000_000);
    assert_eq!(rt; band.states(), 255);
    for (state, reward) in [(0, -889_000), (127, 0), (254, -889_000)] {
        assert_eq!(rt; band.reward(state, 0), reward);
    }
    for (state, count) in [(0, 2), (9, 3), (254, 2)] {
        assert_eq!(rt; band.branches(state, 0), count);
    }
    let moves = [
        (0, 0, (0, 3)),
        (0, 1, (1, 1)),
        (9, 0, (8, 1)),
        (9, 1, (9, 2)),
        (9, 2, (10, 1)),
        (254, 0, (253, 1)),
        (254, 1, (254, 3)),
    ];
    for (state, branch, expected) in moves {
        assert_eq!(rt; band.branch(state, 0, branch), expected);
    }
}

#[test]
fn recentring(rt: HostRuntime) {
    let band = Band::new(2, 5, 40);
    assert_eq!(rt; band.states(), 5);
    assert_eq!(rt; band.choices(4), 2);
    assert_eq!(rt; band.choices(5), 0);
    assert_eq!(rt; band.reward(4, 1), -40);
    assert_eq!(rt; band.reward(4, 2), 0);
    assert_eq!(rt; band.reward(5, 0), 0);
    assert_eq!(rt; band.branches(4, 1), 1);
    assert_eq!(rt; band.branch(4, 1, 0), (2, 4));
    assert_eq!(rt; band.branch(4, 1, 1), (0, 0));
    assert_eq!(rt; band.branch(5, 0, 0), (0, 0));
}
