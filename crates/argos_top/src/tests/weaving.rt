//! Programs with aspects.
use super::{BUDGET, NO, OUTPUTS_IN_TURN, REFUSED, Ran, YES, run_on, simulate};
use std::alloc::Global;
use std::process::Abort;

// Where the base emits o or p, it starts anew and takes a twice, and q is emitted.
const RESTART: &[u8] = b"larissa 1;
component watch (o, p) -> (j) { automaton { init S; state S { when o or p emit j goto S; } } }
advice emit q toInit [{a}, {a}];
";

// Where the base emits p, it stays where it was, and q is emitted.
const STAY: &[u8] = b"larissa 1;
component watch (p) -> (j) { automaton { init S; state S { when p emit j goto S; } } }
advice emit q toCurrent [];
";

// The same, but it takes a from there.
const GO_ON: &[u8] = b"larissa 1;
component watch (p) -> (j) { automaton { init S; state S { when p emit j goto S; } } }
advice emit q toCurrent [{a}];
";

// As the first, but the observer waits for o.
const WAIT: &[u8] = b"larissa 1;
component watch (o, p) -> (j) { automaton { init S;
  state S { when o goto U; } state U { when p emit j goto U; } } }
advice emit q toInit [{a}, {a}];
";

const TWO_OUTPUTS: &[u8] = b"larissa 1;
component watch (o, p) -> (j, k) { automaton { init S; state S { when o or p emit j goto S; } } }
advice emit q toInit [{a}, {a}];
";

const EMITTED_INPUT: &[u8] = b"larissa 1;
component watch (o, p) -> (j) { automaton { init S; state S { when o or p emit j goto S; } } }
advice emit a toInit [{a}, {a}];
";

// An observer of which one job is a job on diagrams.
const OBSERVED_SUPPORT: &[u8] = b"larissa 1;
component main () -> (x) { local a, b in {
  automaton { init S; state S { when a emit b, x goto S; } }
  || automaton { init S; state S { when b emit a, x goto S; } } } }
advice toInit [];
";

// The same with an aspect over the program whose outputs come in turn.
fn run_with(rt: &impl Abort, alloc: Global, list: &[&str], aspect: &[u8], trace: &[u8]) -> Ran {
    let texts = [("program", OUTPUTS_IN_TURN), ("aspect", aspect)];
    run_on(rt, alloc, list, &texts, trace)
}

// An aspect by which the base takes a so often from where it was.
fn taking(rt: &impl Abort, alloc: Global, count: usize) -> Vec<u8> {
    let mut text = b"larissa 1;
component watch (p) -> (j) { automaton { init S; state S { when p emit j goto S; } } }
advice emit q toCurrent [{a}"
        .to_vec(alloc)
        .expect(rt, "memory");
    for _ in 1..count {
        text.extend_from_slice(b", {a}").expect(rt, "memory");
    }
    text.extend_from_slice(b"];").expect(rt, "memory");
    text
}

#[test]
fn weaves(rt: HostRuntime) {
    let alloc = rt.alloc();
    for (aspect, written) in [
        (RESTART, b"-\nq\nq\nq\nq\n".as_slice()),
        (STAY, b"-\no\nq\nq\nq\n"),
        (GO_ON, b"-\no\nq\n-\no\n"),
        (WAIT, b"-\no\nq\nq\nq\n"),
    ] {
        let list = ["simulate", "program", "aspect"].as_slice();
        let ran = run_with(&rt, alloc, list, aspect, b"a\na\na\na\na\n");
        assert!(rt; ran.is(written, YES), "{aspect:?}");
    }
    // what is woven into a file runs so too
    for to in ["eq", "c"] {
        let list = ["weave", "program", "aspect", "--to", to];
        let file = run_with(&rt, alloc, &list, STAY, b"");
        assert!(rt; file.status == YES);
        let ran = simulate(&rt, alloc, &file.written, b"a\na\na\na\n");
        assert!(rt; ran.is(b"-\no\nq\nq\n", YES), "{to:?}");
    }
}

#[test]
fn refuses_aspects(rt: HostRuntime) {
    let alloc = rt.alloc();
    let list = ["simulate", "program", "aspect"].as_slice();
    for (aspect, written, status) in [
        (
            TWO_OUTPUTS,
            b"refused: file 2: observer has 2 outputs\n".as_slice(),
            REFUSED,
        ),
        (
            EMITTED_INPUT,
            b"refused: file 2: not emittable: a at 118\n",
            REFUSED,
        ),
        (
            OBSERVED_SUPPORT,
            b"no: file 2: several reactions
memory r0=S r1=S
input -
first emit - memory r0=S r1=S
second emit x memory r0=S r1=S
",
            NO,
        ),
    ] {
        let ran = run_with(&rt, alloc, list, aspect, b"a\n");
        assert!(rt; ran.is(written, status), "{aspect:?}");
    }
    let list = ["weave", "program", "aspect", "--to=eq", "--nodes=2"].as_slice();
    let ran = run_with(&rt, alloc, list, OBSERVED_SUPPORT, b"");
    assert!(rt; ran.is(b"budget: 2 nodes\n", BUDGET));
}

#[test]
fn bounds_lines(rt: HostRuntime) {
    let alloc = rt.alloc();
    let aspect = taking(&rt, alloc, 256);
    let list = ["simulate", "program", "aspect"].as_slice();
    let ran = run_with(&rt, alloc, list, &aspect, b"a\na\na\na\n");
    assert!(rt; ran.is(b"-\no\nq\n-\n", YES));
    let list = ["weave", "program", "aspect", "aspect", "--to=eq"].as_slice();
    let ran = run_with(&rt, alloc, list, &aspect, b"");
    assert!(rt; ran.is(b"refused: file 3: limit lines: 12169989\n", REFUSED));
}
