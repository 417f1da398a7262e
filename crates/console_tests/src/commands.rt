use console::{Command, read_command};

const READ: [(&[u8], Command); 10] = [
    (
        b"R 1 20 300",
        Command::Refine {
            component: 1,
            steps: 20,
            width: 300,
        },
    ),
    (b"S 10", Command::Sweep { count: 10 }),
    (b"Q 0 7", Command::Quote { state: 0, width: 7 }),
    (b"P", Command::Plan),
    (b"C", Command::Close),
    (b"S 0", Command::Sweep { count: 0 }),
    (b"S 007", Command::Sweep { count: 7 }),
    (b"S 000000000000000001", Command::Sweep { count: 1 }),
    (
        b"S 999999999999999999",
        Command::Sweep {
            count: 999_999_999_999_999_999,
        },
    ),
    (
        b"Q 123456789012345678 0",
        Command::Quote {
            state: 123_456_789_012_345_678,
            width: 0,
        },
    ),
];

const REFUSED: [&[u8]; 34] = [
    b"",
    b" ",
    b"T",
    b"r 0 1 0",
    b"p",
    b"R",
    b"R ",
    b"R 0 1",
    b"R 0 1 0 0",
    b"R  0 1 0",
    b"R 0  1 0",
    b" R 0 1 0",
    b"R 0 1 0 ",
    b"R0 1 0",
    b"R,0,1,0",
    b"S",
    b"S 1 2",
    b"S 1 ",
    b"S 1000000000000000000",
    b"S 0000000000000000001",
    b"S -1",
    b"S +1",
    b"S 1.5",
    b"S 1x",
    b"S x",
    b"S\t1",
    b"S 1\t",
    b"S 1\r",
    b"S 1\n",
    b"Q 1",
    b"P 0",
    b"P ",
    b"C\0",
    b"CC",
];

#[test]
fn commands_are_read(rt: HostRuntime) {
    for (line, command) in READ.iter() {
        assert_eq!(rt; read_command(line), Some(*command));
    }
}

#[test]
fn other_lines_are_refused(rt: HostRuntime) {
    for line in REFUSED.iter() {
        assert_eq!(rt; read_command(line), None);
    }
}

#[test]
fn high_bytes_are_refused(rt: HostRuntime) {
    for byte in 128..=255u8 {
        assert_eq!(rt; read_command(&[byte]), None);
        assert_eq!(rt; read_command(&[b'S', b' ', byte]), None);
        assert_eq!(rt; read_command(&[b'P', byte]), None);
    }
}
