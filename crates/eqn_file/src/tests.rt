//! Worked files: the toggle as it is read and written, and each kind of fault at the first, a middle and the last line.
use crate::{EqError, EqKind, read_equations, write_equations};
use std::alloc::{AllocError, Global};
use std::test::Fail;

const TOGGLE: &[u8] =
    b"argos-eq 1\ninputs 1\na\noutputs 1\no\nregisters 1\n1\nlines 5\nwithin 0 1 1\nwithin 0 2 2\nall +0 +1\nall +0 +2\nchoose when +3 code 2 when +4 code 1 else word 0\nout 4\nnext 1\nend\n";

// Each kind of line and of choice, and the largest numbers.
const ALL_KINDS: &[u8] =
    b"argos-eq 1\ninputs 0\noutputs 2\nx_1\nY\nregisters 2\n0\n65535\nlines 6\nall\nany -0 +0\nbit 1 15\nwithin 0 0 65535\nchoose else next 1\nchoose when -3 word 2 when +2 code 65535 else code 0\nout 3\nout 0\nnext 3\nnext 2\nend\n";

#[test]
fn texts_are_read_and_written_back(rt: HostRuntime) -> Result<(), Fail> {
    let alloc = rt.alloc();
    for text in [TOGGLE, ALL_KINDS] {
        let (ordered, names) = read_equations(alloc, text)?;
        let written = write_equations(alloc, &ordered, &names)?;
        assert_eq!(rt; written.as_slice(), text);
    }
    Ok(())
}

// The toggle with other bytes in place of a line, from 1.
fn with_line(alloc: Global, place: usize, bytes: &[u8]) -> Result<Vec<u8>, AllocError> {
    let mut text = Vec::new(alloc);
    let mut number = 1usize;
    for byte in TOGGLE {
        if number != place {
            text.push(*byte)?;
        }
        if *byte == b'\n' {
            if number == place {
                text.extend_from_slice(bytes)?;
            }
            number = number.saturating_add(1);
        }
    }
    Ok(text)
}

// A line of the toggle, what stands in place of it and its LF, and the fault that it is.
const FAULTS: [(usize, &[u8], u32, EqKind); 37] = [
    (1, b"argos-eq 2\n", 1, EqKind::Spelling),
    (1, b"argos-eq 1\r\n", 1, EqKind::Spelling),
    (1, b"", 1, EqKind::Spelling),
    (2, b"inputs  1\n", 2, EqKind::Spelling),
    (2, b"inputs 01\n", 2, EqKind::Spelling),
    (2, b"inputs 16385\n", 2, EqKind::Range),
    (2, b"inputs 18446744073709551616\n", 2, EqKind::Range),
    (3, b"when\n", 3, EqKind::Spelling),
    (3, b"a b\n", 3, EqKind::Spelling),
    (3, b"\n", 3, EqKind::Spelling),
    (5, b"a\n", 5, EqKind::Name),
    (6, b"registers 0\n", 6, EqKind::Range),
    (6, b"registers 100001\n", 6, EqKind::Range),
    (7, b"65536\n", 7, EqKind::Range),
    (7, b"01\n", 7, EqKind::Spelling),
    (7, b"18446744073709551616\n", 7, EqKind::Range),
    (8, b"lines 100000001\n", 8, EqKind::Range),
    (8, b"lines 100000000\n", 14, EqKind::Spelling),
    (9, b"within 0 2 1\n", 9, EqKind::Range),
    (9, b"within 1 1 1\n", 9, EqKind::Range),
    (10, b"within 0 02 2\n", 10, EqKind::Spelling),
    (10, b"within 9 65536 2 2\n", 10, EqKind::Spelling),
    (11, b"all +0  +1\n", 11, EqKind::Spelling),
    (11, b"all +9 1\n", 11, EqKind::Spelling),
    (11, b"all +0 +3\n", 11, EqKind::Range),
    (11, b"bit 0 16\n", 11, EqKind::Range),
    (13, b"choose else word 1\n", 13, EqKind::Range),
    (13, b"choose else code 65536\n", 13, EqKind::Range),
    (13, b"choose when +0 code 1\n", 13, EqKind::Spelling),
    (14, b"out 5\n", 14, EqKind::Range),
    (14, b"next 1\n", 14, EqKind::Spelling),
    (15, b"next 0\n", 15, EqKind::Range),
    (15, b"next 2\n", 15, EqKind::Range),
    (16, b"end\r\n", 16, EqKind::Spelling),
    (16, b"end", 16, EqKind::Spelling),
    (16, b"end\nx", 17, EqKind::After),
    (16, b"end\n\n", 17, EqKind::After),
];

#[test]
fn the_first_bad_line_is_told(rt: HostRuntime) -> Result<(), Fail> {
    let alloc = rt.alloc();
    for (place, bytes, at, kind) in FAULTS {
        let text = with_line(alloc, place, bytes)?;
        let fault = read_equations(alloc, &text).err();
        assert_eq!(rt;
            fault,
            Some(EqError::Line { at, kind }),
            "{place} {bytes:?}"
        );
    }
    Ok(())
}
