//! The toggle as it is read, run and printed back, and faults of each form of line.
use crate::{CError, CRun, print_c, read_c};
use argos_base::Signals;
use std::alloc::{AllocError, Global};
use std::test::Fail;

const TOGGLE: &[u8] =
    b"/* argos-c 1 */\n/* input a */\n/* output o */\nstruct argos { unsigned int w[2]; unsigned int b[5]; };\nvoid argos_init(struct argos *m) {\nm->w[0] = 1u;\n}\nvoid argos_step(struct argos *m, const unsigned int *in, unsigned int *out) {\nm->b[0] = in[0] != 0u;\nm->b[1] = 1u <= m->w[0] && m->w[0] <= 1u;\nm->b[2] = 2u <= m->w[0] && m->w[0] <= 2u;\nm->b[3] = m->b[0] && m->b[1];\nm->b[4] = m->b[0] && m->b[2];\nif (m->b[3]) m->w[1] = 2u;\nelse if (m->b[4]) m->w[1] = 1u;\nelse m->w[1] = m->w[0];\nout[0] = m->b[4];\nm->w[0] = m->w[1];\n}\n";

// Each form of value and pick, and the largest numbers.
const ALL_FORMS: &[u8] =
    b"/* argos-c 1 */\n/* output x_1 */\nstruct argos { unsigned int w[200000000]; unsigned int b[200000000]; };\nvoid argos_init(struct argos *m) {\nm->w[0] = 65535u;\nm->w[1] = 0u;\n}\nvoid argos_step(struct argos *m, const unsigned int *in, unsigned int *out) {\nm->b[199999999] = 1u;\nm->b[0] = 0u;\nm->b[0] = !m->b[0];\nm->b[1] = m->b[0] || !m->b[0] || m->b[199999999];\nm->b[2] = m->w[1] / 32768u % 2u;\nm->w[199999999] = m->w[0] <= 65534u ? m->w[0] + 1u : 0u;\nif (!m->b[2]) m->w[0] = m->w[199999999];\nelse m->w[0] = m->w[0] <= 65534u ? m->w[0] + 1u : 0u;\nout[0] = m->b[1];\n}\n";

#[test]
fn texts_are_read_and_printed_back(rt: HostRuntime) -> Result<(), Fail> {
    let alloc = rt.alloc();
    for text in [TOGGLE, ALL_FORMS] {
        let step = read_c(alloc, text)?;
        let printed = print_c(alloc, &step)?;
        assert_eq!(rt; printed.as_slice(), text);
    }
    Ok(())
}

#[test]
fn the_toggle_takes_a_step(rt: HostRuntime) -> Result<(), Fail> {
    let alloc = rt.alloc();
    let step = read_c(alloc, TOGGLE)?;
    assert!(rt; step.names.inputs.len() == 1 && step.names.outputs.len() == 1);
    let mut run = CRun::begin(alloc, step)?;
    assert_eq!(rt; run.memory(), [1u16].as_slice());
    let mut input = Signals::new(alloc, 1)?;
    let mut output = Signals::new(alloc, 1)?;
    input.set(0, true);
    run.step(&input, &mut output);
    assert!(rt; output.len() == 1);
    assert_eq!(rt; output.get(0), false);
    assert_eq!(rt; run.memory(), [2u16].as_slice());
    Ok(())
}

// The toggle with other bytes in place of a line, from 1.
fn with_line(alloc: Global, place: usize, bytes: &[u8]) -> Result<Vec<u8>, AllocError> {
    let mut text = Vec::new(alloc);
    let mut number = 1usize;
    for byte in TOGGLE {
        if number != place {
            text.push(*byte)?;
        }
        if *byte == b'\n' {
            if number == place {
                text.extend_from_slice(bytes)?;
            }
            number = number.saturating_add(1);
        }
    }
    Ok(text)
}

// A line of the toggle, what stands in place of it and its LF, and the line that isn't due then.
const HEAD_FAULTS: [(usize, &[u8], u32); 15] = [
    (1, b"/* argos-c 2 */\n", 1),
    (1, b"/* argos-c 1 */ \n", 1),
    (2, b"/* input when */\n", 2),
    (2, b"/* input o */\n", 3),
    (3, b"/* input b */\n/* output o */\n/* input c */\n", 5),
    (
        4,
        b"struct argos { unsigned int w[0]; unsigned int b[5]; };\n",
        4,
    ),
    (
        4,
        b"struct argos { unsigned int w[2]; unsigned int b[200000001]; };\n",
        4,
    ),
    (
        4,
        b"struct argos { unsigned short w[2]; unsigned int b[5]; };\n",
        4,
    ),
    (6, b"", 6),
    (6, b"m->w[0] = 65536u;\n", 6),
    (6, b"m->w[0] = 01u;\n", 6),
    (6, b"m->w[1] = 1u;\n", 6),
    (6, b"m->w[0] = 1u;\nm->w[1] = 1u;\nm->w[2] = 1u;\n", 8),
    (
        8,
        b"void argos_step(struct argos *m, unsigned int *in, unsigned int *out) {\n",
        8,
    ),
    (9, b"/* a comment */\nm->b[0] = in[0] != 0u;\n", 9),
];

const STATEMENT_FAULTS: [(usize, &[u8], u32); 15] = [
    (17, b"", 18),
    (9, b"m->b[0] = in[1] != 0u;\n", 9),
    (9, b" m->b[0] = in[0] != 0u;\n", 9),
    (10, b"m->b[1] = 2u <= m->w[0] && m->w[0] <= 1u;\n", 10),
    (10, b"m->b[1] = 1u <= m->w[0] && m->w[1] <= 1u;\n", 10),
    (10, b"m->b[1] = m->w[0] / 3u % 2u;\n", 10),
    (10, b"m->b[1] = m->w[0] / 65536u % 2u;\n", 10),
    (12, b"m->b[3] = m->b[0] && m->b[3];\n", 12),
    (12, b"m->b[3] = m->b[0]  && m->b[1];\n", 12),
    (12, b"m->b[3] = m->b[0] && m->b[1] || m->b[2];\n", 12),
    (12, b"m->b[5] = 1u;\n", 12),
    (13, b"m->b[4]++;\n", 13),
    (15, b"else if (m->b[4]) m->w[0] = 1u;\n", 15),
    (16, b"else m->w[1] = m->w[1];\n", 16),
    (19, b"}\n\n", 20),
];

#[test]
fn the_first_line_that_is_not_due_is_told(rt: HostRuntime) -> Result<(), Fail> {
    let alloc = rt.alloc();
    for (place, bytes, at) in HEAD_FAULTS {
        let text = with_line(alloc, place, bytes)?;
        if text.len() <= 4_294_967_294 {
            let fault = read_c(alloc, &text).err();
            assert_eq!(rt; fault, Some(CError::NotSubset { at }), "{place} {bytes:?}");
        }
    }
    Ok(())
}

#[test]
fn the_first_statement_that_is_not_due_is_told(rt: HostRuntime) -> Result<(), Fail> {
    let alloc = rt.alloc();
    for (place, bytes, at) in STATEMENT_FAULTS {
        let text = with_line(alloc, place, bytes)?;
        if text.len() <= 4_294_967_294 {
            let fault = read_c(alloc, &text).err();
            assert_eq!(rt; fault, Some(CError::NotSubset { at }), "{place} {bytes:?}");
        }
    }
    Ok(())
}
