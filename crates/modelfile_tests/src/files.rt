use crate::parts::{CHOICE, FULL, ROW, STARTS, at, choice, counts, noticed, report, state};
use modelfile::load;
use std::test::Fail;

// A file cut short names the start of the field that lacks bytes; one byte more names that byte.
#[test]
fn cut_short(rt: HostRuntime) {
    for (cut, start) in STARTS.iter().enumerate() {
        assert_eq!(rt; report(&FULL[..cut]), at(31, Some(*start)));
    }
    assert_eq!(rt; report(&FULL), at(0, None));
    assert_eq!(rt; report(&[0, 0, 0, 5]), at(33, Some(3)));
}

// A bit that names no field is refused at its bit map.
#[test]
fn unknown_bits(rt: HostRuntime) {
    for map in [4, 8, 16, 32, 64, 128, 255] {
        assert_eq!(rt; report(&[map, 0, 0]), at(32, Some(0)));
    }
    for map in [8, 16, 32, 64, 128, 255] {
        assert_eq!(rt; report(&[0, 1, 0, 1, map]), at(32, Some(4)));
    }
}

// What is missing takes its default, and a text may be empty.
#[test]
fn defaults(rt: HostRuntime) -> Result<(), Fail> {
    let mut states = [ROW; 2];
    let mut choices = [CHOICE; 2];
    let mut branches = [(9, 9); 2];
    let read = load(
        &[2, 0, 2, 0, 0, 1, 4, 0],
        &mut states,
        &mut choices,
        &mut branches,
    )?;
    assert_eq!(rt; read, counts(1, 2, 1, 1));
    assert_eq!(rt; states, [state(0, 0), state(0, 1)]);
    assert_eq!(rt; choices, [choice(0, 0, 1), CHOICE]);
    assert_eq!(rt; branches, [(1, 1), (9, 9)]);
    Ok(())
}

// The full example with each list one place too short in turn: 26, and the lists keep what they held.
#[test]
fn short_lists(rt: HostRuntime) {
    let mut states = [ROW; 1];
    let mut choices = [CHOICE; 1];
    let mut branches = [(9, 9); 1];
    let short = load(&FULL, &mut [], &mut choices, &mut branches);
    assert_eq!(rt; noticed(short), at(26, None));
    assert_eq!(rt; (choices, branches), ([CHOICE], [(9, 9)]));
    let short = load(&FULL, &mut states, &mut [], &mut branches);
    assert_eq!(rt; noticed(short), at(26, None));
    assert_eq!(rt; (states, branches), ([ROW], [(9, 9)]));
    let short = load(&FULL, &mut states, &mut choices, &mut []);
    assert_eq!(rt; noticed(short), at(26, None));
    assert_eq!(rt; (states, choices), ([ROW], [CHOICE]));
    assert_eq!(rt; report(&[0, 3, 0, 0, 0, 0]), at(26, None));
}

// The full example, and then lists one place too short, which keep what they held.
#[test]
fn places(rt: HostRuntime) -> Result<(), Fail> {
    let mut states = [ROW; 1];
    let mut choices = [CHOICE; 1];
    let mut branches = [(9, 9); 1];
    let short = load(&FULL, &mut [], &mut choices, &mut branches);
    assert!(rt; short.is_err());
    let short = load(&FULL, &mut states, &mut [], &mut branches);
    assert!(rt; short.is_err());
    let short = load(&FULL, &mut states, &mut choices, &mut []);
    assert!(rt; short.is_err());
    assert_eq!(rt; (states, choices, branches), ([ROW], [CHOICE], [(9, 9)]));
    assert_eq!(rt; report(&[0, 3, 0, 0, 0, 0]), at(26, None));
    let read = load(&FULL, &mut states, &mut choices, &mut branches)?;
    assert_eq!(rt; read, counts(4, 1, 1, 1));
    assert_eq!(rt;
        (states, choices, branches),
        ([state(0, 1)], [choice(-2, 0, 1)], [(0, 4)])
    );
    Ok(())
}

// A file may have 65,536 bytes and no more. 65,535 states of no choices need two bytes too many.
#[test]
fn longest(rt: HostRuntime) {
    let mut file = [0; 65_538];
    file[1] = 253;
    file[2] = 255;
    assert_eq!(rt; report(&file[0..65_536]), at(26, None));
    file[1] = 255;
    assert_eq!(rt; report(&file[0..65_536]), at(31, Some(65_536)));
    assert_eq!(rt; report(&file[0..65_537]), at(34, None));
    assert_eq!(rt; report(&file), at(34, None));
}
