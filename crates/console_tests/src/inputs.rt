use console::{Lines, next_line, read_command};

#[test]
fn an_input_ends(rt: HostRuntime) {
    assert_eq!(rt; next_line(b"", 0), None);
    assert_eq!(rt; next_line(b"P\n", 2), None);
    assert_eq!(rt; next_line(b"P", 1), None);
    assert_eq!(rt; next_line(b"P", usize::MAX), None);
}

#[test]
fn a_line_ends_with_a_line_feed_or_the_input(rt: HostRuntime) {
    assert_eq!(rt; next_line(b"S 1\nP\n", 0), Some((3, 4)));
    assert_eq!(rt; next_line(b"S 1\nP\n", 4), Some((5, 6)));
    assert_eq!(rt; next_line(b"S 1\nP", 4), Some((5, 5)));
    assert_eq!(rt; next_line(b"S 1\nP", 2), Some((3, 4)));
    assert_eq!(rt; next_line(b"P\r\n", 0), Some((2, 3)));
}

#[test]
fn a_line_feed_alone_ends_an_empty_line(rt: HostRuntime) {
    assert_eq!(rt; next_line(b"\n", 0), Some((0, 1)));
    assert_eq!(rt; next_line(b"P\n\nC", 2), Some((2, 3)));
    assert_eq!(rt; next_line(b"P\n\nC", 3), Some((4, 4)));
}

// How many lines an input has, and how many of them are commands.
fn counted(input: &[u8]) -> (usize, usize) {
    let commands = Lines::new(input).filter(|line| read_command(line).is_some());
    (Lines::new(input).count(), commands.count())
}

#[test]
fn an_input_is_walked(rt: HostRuntime) {
    assert_eq!(rt; counted(b""), (0, 0));
    assert_eq!(rt; counted(b"\n\n"), (2, 0));
    assert_eq!(rt; counted(b"S 1\nP\n\nC"), (4, 3));
    assert_eq!(rt; counted(b"S 1\nP\n\nC\n"), (4, 3));
    assert_eq!(rt; counted(b"S 1\r\nP\r\nC"), (3, 1));
}
