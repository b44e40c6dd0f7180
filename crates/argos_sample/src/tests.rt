use crate::{emitted, sample_text};
use std::test::Fail;

// One automaton stands alone, and is the toggle.
const ONE: &[u8] =
    b"argos 1 ; component main ( a ) -> ( o ) { automaton { init Off ; state Off { when a goto On ; } state On { when a emit o goto Off ; } } }\n";

// Two stand under the signal between them.
const TWO: &[u8] =
    b"argos 1 ; component main ( a ) -> ( o ) { local c1 in { automaton { init Off ; state Off { when a goto On ; } state On { when a emit c1 goto Off ; } } || automaton { init Off ; state Off { when c1 goto On ; } state On { when c1 emit o goto Off ; } } } }\n";

#[test]
fn writes_texts(rt: HostRuntime) {
    let alloc = rt.alloc();
    let one = sample_text(alloc, 1).expect(&rt, "memory");
    assert!(rt; one.as_slice() == ONE);
    let two = sample_text(alloc, 2).expect(&rt, "memory");
    assert!(rt; two.as_slice() == TWO);
}

#[test]
fn counts_what_is_handed_on(rt: HostRuntime) {
    let alloc = rt.alloc();
    assert!(rt; emitted(alloc, 1).expect(&rt, "memory") == 2048);
    assert!(rt; emitted(alloc, 12).expect(&rt, "memory") == 1);
    assert!(rt; emitted(alloc, 13).expect(&rt, "memory") == 0);
}
