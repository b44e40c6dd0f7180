//! Two programs and a certificate.
use super::{NO, REFUSED, TOGGLE, TOGGLE_DOUBLE, YES, run_on};

// The double's third state is another Off.
const PAIR: &[u8] =
    b"bisim 1; relation lhs 0 in Off and (rhs 0 in Off or rhs 0 in Off2) or lhs 0 in On and rhs 0 in On;";

// Without the third state.
const NARROW: &[u8] =
    b"bisim 1; relation lhs 0 in Off and rhs 0 in Off or lhs 0 in On and rhs 0 in On;";

const ALL: &[u8] = b"bisim 1; relation true;";

const NONE: &[u8] = b"bisim 1; relation false;";

const NO_STATE: &[u8] = b"bisim 1; relation lhs 0 in Of;";

const NO_REGISTER: &[u8] = b"bisim 1; relation rhs 1 inactive;";

// The toggle with another output.
const RENAMED: &[u8] = b"argos 1;
component main (a) -> (p) { automaton { init Off;
  state Off { when a goto On; }
  state On { when a emit p goto Off; } } }
";

#[test]
fn compares(rt: HostRuntime) {
    let alloc = rt.alloc();
    for (right, cert, written, status) in [
        (TOGGLE_DOUBLE, PAIR, b"yes\n".as_slice(), YES),
        (RENAMED, ALL, b"no: interfaces differ on o\n", NO),
        (TOGGLE_DOUBLE, NONE, b"no: initial pair not related\n", NO),
        (
            TOGGLE,
            ALL,
            b"no: outputs differ on o\nleft r0=Off\nright r0=On\ninput a\n",
            NO,
        ),
        (
            TOGGLE_DOUBLE,
            NARROW,
            b"no: related pair left by a step\nleft r0=On\nright r0=On\ninput a\n",
            NO,
        ),
        (
            TOGGLE_DOUBLE,
            NO_STATE,
            b"refused: file 3: unknown: Of at 27\n",
            REFUSED,
        ),
        (
            TOGGLE_DOUBLE,
            NO_REGISTER,
            b"refused: file 3: no number 1 at 22\n",
            REFUSED,
        ),
        (TOGGLE, b"", b"refused: file 3: syntax at 0: end\n", REFUSED),
    ] {
        let texts = [("left", TOGGLE), ("right", right), ("cert", cert)];
        let ran = run_on(&rt, alloc, &["equiv", "left", "right", "cert"], &texts, b"");
        assert!(rt; ran.is(written, status), "{right:?} {cert:?}");
    }
}
