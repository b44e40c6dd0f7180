//! Whole runs on devices in memory: what is written, and the status. A device that fails fails at each of its calls in turn.
ghost use Rattle.std.specs.Prelude.{◌≤◌};

mod equivalence;
mod weaving;

use crate::{Status, argos_run};
use argos_base::{MemShelf, MemSink, MemSource, SureSink, SureSource};
use dd_core::Arena;
use std::alloc::Global;
use std::process::Abort;
use std::test::Fail;

const TOGGLE: &[u8] = b"argos 1;
component main (a) -> (o) { automaton { init Off;
  state Off { when a goto On; }
  state On { when a emit o goto Off; } } }
";

const TOGGLE_DOUBLE: &[u8] = b"argos 1;
component main (a) -> (o) { automaton { init Off;
  state Off { when a goto On; }
  state On { when a emit o goto Off2; }
  state Off2 { when a goto On; } } }
";

const TWO_BIT_COUNTER: &[u8] = b"argos 1;
component main (a) -> (o) { local c in {
  automaton { init Off; state Off { when a goto On; } state On { when a emit c goto Off; } }
  || automaton { init Off; state Off { when c goto On; } state On { when c emit o goto Off; } } } }
";

const LAST_INSTANT: &[u8] = b"argos 1;
component main (a) -> (x, y) { automaton { init P;
  state P body { automaton { init I; state I { when a emit x goto I; } } } { when a emit y goto Q; }
  state Q { } } }
";

const SELF_LOOP: &[u8] = b"argos 1;
component main (a, b) -> (x) { automaton { init P;
  state P body { automaton { init I; state I { when a goto J; } state J { when a emit x goto J; } } }
    { when b goto P; } } }
";

const FREEZING: &[u8] = b"argos 1;
component main (a, f, k) -> (x) { automaton { init P;
  state P body { freeze f in { automaton { init I;
      state I { when a goto J; } state J { when a emit x goto J; } } } }
    { when k goto Q; }
  state Q { when k goto P; } } }
";

const TIMEOUTS: &[u8] = b"argos 1;
component main (t, g) -> (x, y) { automaton { init W;
  state W { when g emit y goto D; after 3 of t emit x goto D; }
  state D { when g goto W; } } }
";

// Each of two locals is emitted where the other is present.
const MUTUAL_SUPPORT: &[u8] = b"argos 1;
component main () -> (x) { local a, b in {
  automaton { init S; state S { when a emit b, x goto S; } }
  || automaton { init S; state S { when b emit a, x goto S; } } } }
";

const OUTPUTS_IN_TURN: &[u8] = b"argos 1;
component main (a) -> (o, p, q) { automaton { init A;
  state A { when a goto B; } state B { when a emit o goto C; } state C { when a emit p goto A; } } }
";

// A call waits for its turn, or is held; `stop` goes before all else.
const THREE_STATES: &[u8] = b"argos 1;
component lift (call, hold, stop) -> (move, wait, halt) { automaton { init Idle;
  state Idle { when call and not hold and not stop emit move goto Busy; when call and hold and not stop emit wait goto Idle; }
  state Busy { when stop emit halt goto Out; when not stop and not call emit wait, move goto Idle; }
  state Out { when call and not stop goto Idle; } } }
";

const OVERLAPPING: &[u8] = b"argos 1;
component main (a, b) -> () { automaton { init S;
  state S { when a goto S; when b goto T; } state T { } } }
";

// Each of `c1` to `c12` runs the one before it twice, and `main` the last of them.
const DOUBLED: &[u8] = b"argos 1;
component c0 (a) -> (o) { automaton { init S; state S { } } }
component c1 (a) -> (o) { run c0 (a) -> (o) || run c0 (a) -> (o) }
component c2 (a) -> (o) { run c1 (a) -> (o) || run c1 (a) -> (o) }
component c3 (a) -> (o) { run c2 (a) -> (o) || run c2 (a) -> (o) }
component c4 (a) -> (o) { run c3 (a) -> (o) || run c3 (a) -> (o) }
component c5 (a) -> (o) { run c4 (a) -> (o) || run c4 (a) -> (o) }
component c6 (a) -> (o) { run c5 (a) -> (o) || run c5 (a) -> (o) }
component c7 (a) -> (o) { run c6 (a) -> (o) || run c6 (a) -> (o) }
component c8 (a) -> (o) { run c7 (a) -> (o) || run c7 (a) -> (o) }
component c9 (a) -> (o) { run c8 (a) -> (o) || run c8 (a) -> (o) }
component c10 (a) -> (o) { run c9 (a) -> (o) || run c9 (a) -> (o) }
component c11 (a) -> (o) { run c10 (a) -> (o) || run c10 (a) -> (o) }
component c12 (a) -> (o) { run c11 (a) -> (o) || run c11 (a) -> (o) }
component main (a) -> (o) { run c12 (a) -> (o) || run c12 (a) -> (o) }
";

// The toggle, with its one register 1 or 2.
const TOGGLE_EQUATIONS: &[u8] = b"argos-eq 1
inputs 1
a
outputs 1
o
registers 1
1
lines 5
within 0 1 1
within 0 2 2
all +0 +1
all +0 +2
choose when +3 code 2 when +4 code 1 else word 0
out 4
next 1
end
";

// The same as a step in C, 19 lines.
const TOGGLE_C: &[u8] = b"/* argos-c 1 */
/* input a */
/* output o */
struct argos { unsigned int w[2]; unsigned int b[5]; };
void argos_init(struct argos *m) {
m->w[0] = 1u;
}
void argos_step(struct argos *m, const unsigned int *in, unsigned int *out) {
m->b[0] = in[0] != 0u;
m->b[1] = 1u <= m->w[0] && m->w[0] <= 1u;
m->b[2] = 2u <= m->w[0] && m->w[0] <= 2u;
m->b[3] = m->b[0] && m->b[1];
m->b[4] = m->b[0] && m->b[2];
if (m->b[3]) m->w[1] = 2u;
else if (m->b[4]) m->w[1] = 1u;
else m->w[1] = m->w[0];
out[0] = m->b[4];
m->w[0] = m->w[1];
}
";

// A local is present exactly where it is absent.
const NO_REACTION: &[u8] = b"argos 1;
component main () -> () { local a in { automaton { init S; state S { when not a emit a goto S; } } } }
";

// The same in a state that no transition enters.
const UNREACHABLE_CASE: &[u8] = b"argos 1;
component main (g) -> () { local a in { automaton { init A;
  state A { } state B { when not a emit a goto B; } } } }
";

// Three cells in a ring: in each state a cell passes on what it gets, or takes it.
const RING: &[u8] = b"argos 1;
component cell (p, r) -> (q, g) { automaton { init N;
  state N { when p and r emit g goto N; when p and not r emit q goto N; }
  state T { when r emit g goto T; when not r emit q goto T; } } }
component main (r0, r1, r2) -> (g0, g1, g2) { local p0, p1, p2 in {
  run cell (p0, r0) -> (p1, g0) || run cell (p1, r1) -> (p2, g1) || run cell (p2, r2) -> (p0, g2) } }
";

// Where g is present, h would have to be present exactly where it is absent: so both are absent.
const KILLED_SUPPORT: &[u8] = b"argos 1;
component main () -> (x) { local g, h in {
  automaton { init S; state S { when g emit g, x goto S; } }
  || automaton { init S; state S { when g and not h emit h goto S; } } } }
";

const USAGE_LINE: &[u8] = b"usage: argos check|compile|weave|simulate|equiv|sample\n";

// The numbers of the statuses.
const YES: u8 = 0;

const NO: u8 = 1;

const USAGE: u8 = 2;

const REFUSED: u8 = 3;

const READ_FAULT: u8 = 4;

const WRITE_FAULT: u8 = 5;

const BUDGET: u8 = 6;

// What a run wrote, and its status.
#[derive(Drop)]
struct Ran {
    written: Vec<u8>,
    status: u8,
}

impl Ran {
    fn is(&self, written: &[u8], status: u8) -> bool {
        self.written.as_slice() == written && self.status == status
    }
}

fn words(rt: &impl Abort, alloc: Global, list: &[&str]) -> Vec<String> {
    let mut words = Vec::new(alloc);
    for word in list {
        words
            .push(String::from_str(alloc, word).expect(rt, "memory"))
            .expect(rt, "memory");
    }
    words
}

// A shelf with these files, whose loads with these numbers fail.
fn shelf_of(rt: &impl Abort, alloc: Global, texts: &[(&str, &[u8])], fail: &[u32]) -> MemShelf {
    let mut files = Vec::new(alloc);
    for text in texts {
        let name = String::from_str(alloc, text.0).expect(rt, "memory");
        let bytes = text.1.to_vec(alloc).expect(rt, "memory");
        files.push((name, bytes)).expect(rt, "memory");
    }
    MemShelf::new(files, fail.to_vec(alloc).expect(rt, "memory"))
}

// The same with one file, `program`.
fn shelf(rt: &impl Abort, alloc: Global, text: &[u8], fail: &[u32]) -> MemShelf {
    shelf_of(rt, alloc, &[("program", text)], fail)
}

// A run of these words on these files and this input, with devices that don't fail.
fn run_on(
    rt: &impl Abort,
    alloc: Global,
    list: &[&str],
    texts: &[(&str, &[u8])],
    trace: &[u8],
) -> Ran {
    let mut shelf = shelf_of(rt, alloc, texts, &[]);
    let mut input = SureSource::new(trace.to_vec(alloc).expect(rt, "memory"));
    let mut out = SureSink::new(alloc, 65_536).expect(rt, "memory");
    let status = argos_run(
        alloc,
        &words(rt, alloc, list),
        &mut shelf,
        &mut input,
        &mut out,
    );
    let written = out.bytes().to_vec(alloc).expect(rt, "memory");
    Ran {
        written,
        status: status.number(),
    }
}

// The same with one file, `program`.
fn run(rt: &impl Abort, alloc: Global, list: &[&str], text: &[u8], trace: &[u8]) -> Ran {
    run_on(rt, alloc, list, &[("program", text)], trace)
}

// A program whose one guard stands in so many brackets.
fn nested(rt: &impl Abort, alloc: Global, depth: usize) -> Vec<u8> {
    let mut text = b"argos 1;component main(a)->(){automaton{init S;state S{when "
        .to_vec(alloc)
        .expect(rt, "memory");
    for _ in 0..depth {
        text.push(b'(').expect(rt, "memory");
    }
    text.push(b'a').expect(rt, "memory");
    for _ in 0..depth {
        text.push(b')').expect(rt, "memory");
    }
    text.extend_from_slice(b" goto S;}}}").expect(rt, "memory");
    text
}

fn simulate(rt: &impl Abort, alloc: Global, text: &[u8], trace: &[u8]) -> Ran {
    run(rt, alloc, &["simulate", "program"], text, trace)
}

// Which calls of each device fail, and how many bytes it moves at a call.
#[derive(Drop)]
struct Failing<'a> {
    loads: &'a [u32],
    pulls: &'a [u32],
    pushes: &'a [u32],
    step: usize,
}

// A simulation of the toggle on devices that fail.
fn simulate_failing(rt: &impl Abort, alloc: Global, trace: &[u8], failing: &Failing) -> Ran
    requires { 1 ≤ failing.now.step }
{
    let mut shelf = shelf(rt, alloc, TOGGLE, failing.loads);
    let trace = trace.to_vec(alloc).expect(rt, "memory");
    let pulls = failing.pulls.to_vec(alloc).expect(rt, "memory");
    let mut input = MemSource::slow(trace, failing.step, pulls);
    let pushes = failing.pushes.to_vec(alloc).expect(rt, "memory");
    let mut out = MemSink::slow(alloc, 4096, failing.step, pushes).expect(rt, "memory");
    let status = argos_run(
        alloc,
        &words(rt, alloc, &["simulate", "program"]),
        &mut shelf,
        &mut input,
        &mut out,
    );
    let written = out.bytes().to_vec(alloc).expect(rt, "memory");
    Ran {
        written,
        status: status.number(),
    }
}

#[test]
fn simulates(rt: HostRuntime) {
    let alloc = rt.alloc();
    for (text, trace, written) in [
        (TOGGLE, b"a\n-\na\n".as_slice(), b"-\n-\no\n".as_slice()),
        (TOGGLE, b"", b""),
        (TOGGLE, b"a\na", b"-\no\n"),
        (TOGGLE_DOUBLE, b"a\na\na\na\n", b"-\no\n-\no\n"),
        (
            THREE_STATES,
            b"call hold\ncall\ncall\n-\nhold call\ncall\nstop hold\ncall stop\ncall",
            b"wait\nmove\n-\nmove wait\nwait\nmove\nhalt\n-\n-\n",
        ),
        (TWO_BIT_COUNTER, b"a\na\na\na\n", b"-\n-\n-\no\n"),
        (LAST_INSTANT, b"a\na\n", b"x y\n-\n"),
        (SELF_LOOP, b"a\na\nb\na\na\n", b"-\nx\n-\n-\nx\n"),
        (
            FREEZING,
            b"a\na f\na\nf k\nk\na\na\n",
            b"-\n-\nx\n-\n-\n-\nx\n",
        ),
        (
            TIMEOUTS,
            b"t\nt\nt g\ng\nt\n-\nt\nt\n",
            b"-\n-\ny\n-\n-\n-\n-\nx\n",
        ),
        (OUTPUTS_IN_TURN, b"a\na\na\na\n", b"-\no\np\n-\n"),
    ] {
        let ran = simulate(&rt, alloc, text, trace);
        assert!(rt; ran.is(written, YES), "{text:?}");
    }
}

#[test]
fn runs_equation_files(rt: HostRuntime) {
    let alloc = rt.alloc();
    let ran = simulate(&rt, alloc, TOGGLE_EQUATIONS, b"a\n-\na\n");
    assert!(rt; ran.is(b"-\n-\no\n", YES));
    for (text, written) in [
        (
            b"argos-eq 1\ninputs 01\n".as_slice(),
            b"refused: file 1: line 2: spelling\n".as_slice(),
        ),
        (
            b"argos-eq 1\ninputs 16385\n",
            b"refused: file 1: line 2: range\n",
        ),
        (
            b"argos-eq 1\ninputs 1\na\noutputs 1\na\n",
            b"refused: file 1: line 5: name\n",
        ),
        (b"argos-eq", b"refused: file 1: syntax at 5: byte\n"),
    ] {
        let ran = simulate(&rt, alloc, text, b"a\n");
        assert!(rt; ran.is(written, REFUSED), "{text:?}");
    }
    // what is compiled runs as the program does
    let file = run(
        &rt,
        alloc,
        &["compile", "program", "--to", "eq"],
        TWO_BIT_COUNTER,
        b"",
    );
    assert_eq!(rt; file.status, YES);
    let ran = simulate(&rt, alloc, &file.written, b"a\na\na\na\n");
    assert!(rt; ran.is(b"-\n-\n-\no\n", YES));
}

#[test]
fn runs_c_files(rt: HostRuntime) {
    let alloc = rt.alloc();
    let ran = simulate(&rt, alloc, TOGGLE_C, b"a\n-\na\n");
    assert!(rt; ran.is(b"-\n-\no\n", YES));
    // without `out[0] = m->b[4];`
    let mut text = TOGGLE_C[..480].to_vec(alloc).expect(&rt, "memory");
    text.extend_from_slice(&TOGGLE_C[498..])
        .expect(&rt, "memory");
    for (text, written) in [
        (
            text.as_slice(),
            b"refused: file 1: line 18: not of the subset\n".as_slice(),
        ),
        (
            b"/* argos-c 1 */\n",
            b"refused: file 1: line 2: not of the subset\n",
        ),
        (
            b"/* argos-c 2 */\n",
            b"refused: file 1: line 1: not of the subset\n",
        ),
        (b"/* argos-c", b"refused: file 1: syntax at 0: byte\n"),
    ] {
        let ran = simulate(&rt, alloc, text, b"a\n");
        assert!(rt; ran.is(written, REFUSED), "{text:?}");
    }
    // what is compiled begins with the names, and runs as the program does
    for (program, names, trace, written) in [
        (
            TOGGLE,
            &TOGGLE_C[..44],
            b"a\n-\na\n".as_slice(),
            b"-\n-\no\n".as_slice(),
        ),
        (
            TIMEOUTS,
            b"/* argos-c 1 */\n/* input t */\n/* input g */\n/* output x */\n/* output y */\n",
            b"t\nt\nt g\ng\nt\n-\nt\nt\n",
            b"-\n-\ny\n-\n-\n-\n-\nx\n",
        ),
    ] {
        let list = ["compile", "program", "--to", "c"].as_slice();
        let file = run(&rt, alloc, list, program, b"");
        assert!(rt; file.status == YES && file.written.starts_with(names));
        let ran = simulate(&rt, alloc, &file.written, trace);
        assert!(rt; ran.is(written, YES), "{program:?}");
    }
}

#[test]
fn refuses_lines(rt: HostRuntime) {
    let alloc = rt.alloc();
    for (trace, written) in [
        (
            b"a\na\nb\n".as_slice(),
            b"-\no\nrefused: line 3: unknown name\n".as_slice(),
        ),
        (b"\n", b"refused: line 1: spelling\n"),
        (b"a\n- a\n", b"-\nrefused: line 2: spelling\n"),
        (b"a\r\na \na\r", b"-\no\nrefused: line 3: spelling\n"),
        (b"o\n", b"refused: line 1: unknown name\n"),
    ] {
        let ran = simulate(&rt, alloc, TOGGLE, trace);
        assert!(rt; ran.is(written, REFUSED), "{trace:?}");
    }
}

#[test]
fn refuses_long_traces(rt: HostRuntime) {
    let alloc = rt.alloc();
    // after one whole line, a line without an end
    let mut trace = vec![in alloc; b'a'; 1_048_577].expect(&rt, "memory");
    trace[1] = b'\n';
    let ran = simulate(&rt, alloc, TOGGLE, &trace);
    assert!(rt; ran.is(b"-\nrefused: trace longer than 1048576 bytes\n", REFUSED));
    // the third line is bad
    trace[3] = b'\n';
    trace[4] = b'b';
    trace[5] = b'\n';
    let ran = simulate(&rt, alloc, TOGGLE, &trace);
    assert!(rt; ran.is(b"-\no\nrefused: line 3: unknown name\n", REFUSED));
    // the second line is too long
    let mut trace = vec![in alloc; b'a'; 65_538].expect(&rt, "memory");
    trace[1] = b'\n';
    let ran = simulate(&rt, alloc, TOGGLE, &trace);
    assert!(rt; ran.is(b"-\nrefused: line 2: too long\n", REFUSED));
}

#[test]
fn refuses_files(rt: HostRuntime) {
    let alloc = rt.alloc();
    for (text, written) in [
        (
            OVERLAPPING,
            b"refused: file 1: overlap in r0 state S of transitions 1 and 2 at a b\n".as_slice(),
        ),
        (b"", b"refused: file 1: syntax at 0: end\n".as_slice()),
        (
            b"argos 1;\xc3",
            b"refused: file 1: not utf-8 at 8\n".as_slice(),
        ),
        (
            b"argos 1;component main(a)->(o){",
            b"refused: file 1: syntax at 31: end\n",
        ),
        (b"argos 2;", b"refused: file 1: syntax at 6: version\n"),
        (b"argos 1;$", b"refused: file 1: syntax at 8: byte\n"),
        (b"argos 1;main", b"refused: file 1: syntax at 8: token\n"),
        (
            b"argos 1;component main(a)->(o){automaton{init S;state S{when o goto S;}}}",
            b"refused: file 1: not readable: o at 61\n",
        ),
        (
            b"argos 1;component main(a)->(o){automaton{init T;state S{when a goto S;}}}",
            b"refused: file 1: no initial: T at 46\n",
        ),
        (DOUBLED, b"refused: file 1: limit automata: 4097\n"),
    ] {
        let ran = simulate(&rt, alloc, text, b"a\n");
        assert!(rt; ran.is(written, REFUSED), "{text:?}");
    }
}

#[test]
fn refuses_long_and_deep_files(rt: HostRuntime) {
    let alloc = rt.alloc();
    let long = vec![in alloc; b' '; 1_048_577].expect(&rt, "memory");
    let ran = simulate(&rt, alloc, &long, b"a\n");
    assert!(rt; ran.is(b"refused: file 1: longer than 1048576 bytes\n", REFUSED));
    let ran = simulate(&rt, alloc, &long[1..], b"a\n");
    assert!(rt; ran.is(b"refused: file 1: syntax at 1048576: end\n", REFUSED));
    let deep = nested(&rt, alloc, 61);
    assert!(rt; simulate(&rt, alloc, &deep, b"a\n-\n").is(b"-\n-\n", YES));
    let deeper = nested(&rt, alloc, 62);
    let ran = simulate(&rt, alloc, &deeper, b"a\n");
    assert!(rt; ran.is(b"refused: file 1: too deep at 121\n", REFUSED));
}

#[test]
fn reads_words(rt: HostRuntime) {
    let alloc = rt.alloc();
    for (list, written, status) in [
        ([].as_slice(), USAGE_LINE, USAGE),
        (&["check"], USAGE_LINE, USAGE),
        (&["simulate", "p", "--nodes=1"], USAGE_LINE, USAGE),
        (&["compile", "p"], USAGE_LINE, USAGE),
        (
            &["compile", "p", "--to", "eq", "--to", "eq"],
            USAGE_LINE,
            USAGE,
        ),
        (&["sample", "61"], USAGE_LINE, USAGE),
        (&["check", "-x", "p"], USAGE_LINE, USAGE),
        (&["check", "program", "--nodes=0000016"], b"yes\n", YES),
        (&["check", "--", "-x"], b"read fault: file 1\n", READ_FAULT),
        (&["weave", "program", "--to", "eq"], USAGE_LINE, USAGE),
        (
            &["sample", "10"],
            b"automata 10\nreactions 4096\nemitted 4\n",
            YES,
        ),
        (
            &["equiv", "program", "p", "p"],
            b"read fault: file 2\n",
            READ_FAULT,
        ),
        (
            &["simulate", "program", "program"],
            b"refused: file 2: syntax at 0: token\n",
            REFUSED,
        ),
        (
            &["weave", "program", "missing", "--to", "c"],
            b"read fault: file 2\n",
            READ_FAULT,
        ),
        (
            &["simulate", "missing"],
            b"read fault: file 1\n",
            READ_FAULT,
        ),
        (&["simulate", "--nodes", "16", "program"], b"-\n", YES),
    ] {
        let ran = run(&rt, alloc, list, TOGGLE, b"a\n");
        assert!(rt; ran.is(written, status), "{list:?}");
    }
}

#[test]
fn tells_faults(rt: HostRuntime) {
    let alloc = rt.alloc();
    let none = [].as_slice();
    for (loads, pulls, pushes, written, status) in [
        (
            [0].as_slice(),
            none,
            none,
            b"read fault: file 1\n".as_slice(),
            READ_FAULT,
        ),
        (none, &[0], none, b"read fault: line 1\n", READ_FAULT),
        (none, none, &[1], b"-\n", WRITE_FAULT),
        (none, none, &[0], b"", WRITE_FAULT),
        (none, &[0], &[0], b"", WRITE_FAULT),
    ] {
        let failing = Failing {
            loads,
            pulls,
            pushes,
            step: 4096,
        };
        let ran = simulate_failing(&rt, alloc, b"a\na\nb\n", &failing);
        assert!(rt; ran.is(written, status), "{written:?}");
    }
}

// One byte at a call: the output of `a`, `-` and `a` takes six pushes, and the input seven pulls.
#[test]
fn tells_each_fault_of_slow_devices(rt: HostRuntime) {
    let alloc = rt.alloc();
    let whole = b"-\n-\no\n".as_slice();
    for push in 0..7u32 {
        let failing = Failing {
            loads: &[],
            pulls: &[],
            pushes: &[push],
            step: 1,
        };
        let ran = simulate_failing(&rt, alloc, b"a\n-\na\n", &failing);
        let status = if push < 6 { WRITE_FAULT } else { YES };
        let count = whole.len().min(push as usize);
        assert!(rt; ran.is(&whole[..count], status), "push {push}");
    }
    for (pull, written) in [
        (0u32, b"read fault: line 1\n".as_slice()),
        (1, b"read fault: line 1\n"),
        (2, b"-\nread fault: line 2\n"),
        (3, b"-\nread fault: line 2\n"),
        (4, b"-\n-\nread fault: line 3\n"),
        (5, b"-\n-\nread fault: line 3\n"),
        (6, b"-\n-\no\nread fault: line 4\n"),
    ] {
        let failing = Failing {
            loads: &[],
            pulls: &[pull],
            pushes: &[],
            step: 1,
        };
        let ran = simulate_failing(&rt, alloc, b"a\n-\na\n", &failing);
        assert!(rt; ran.is(written, READ_FAULT), "pull {pull}");
    }
}

// A line is one piece: a sink that takes four bytes at a push and fails at its second one has the first four of `move wait`.
#[test]
fn writes_a_line_as_one_piece(rt: HostRuntime) {
    let alloc = rt.alloc();
    let mut shelf = shelf(&rt, alloc, THREE_STATES, &[]);
    let trace = b"call\n-\n".to_vec(alloc).expect(&rt, "memory");
    let mut input = SureSource::new(trace);
    let fail = vec![in alloc; 3].expect(&rt, "memory");
    let mut out = MemSink::slow(alloc, 4096, 4, fail).expect(&rt, "memory");
    let status = argos_run(
        alloc,
        &words(&rt, alloc, &["simulate", "program"]),
        &mut shelf,
        &mut input,
        &mut out,
    );
    assert!(rt; status.number() == WRITE_FAULT);
    assert!(rt; out.bytes() == b"move\nmove".as_slice());
}

#[test]
fn simulates_long_traces(rt: HostRuntime) {
    let alloc = rt.alloc();
    let mut trace = Vec::new(alloc);
    let mut lines = Vec::new(alloc);
    for _ in 0..50_000u32 {
        trace.extend_from_slice(b"a\na\n").expect(&rt, "memory");
        lines.extend_from_slice(b"-\no\n").expect(&rt, "memory");
    }
    let mut shelf = shelf(&rt, alloc, TOGGLE, &[]);
    let mut input = SureSource::new(trace);
    let mut out = SureSink::new(alloc, 200_000).expect(&rt, "memory");
    let status = argos_run(
        alloc,
        &words(&rt, alloc, &["simulate", "program"]),
        &mut shelf,
        &mut input,
        &mut out,
    );
    assert!(rt; status.number() == YES);
    assert!(rt; out.bytes() == lines.as_slice());
}

#[test]
fn checks(rt: HostRuntime) {
    let alloc = rt.alloc();
    for (text, written, status) in [
        (TOGGLE, b"yes\n".as_slice(), YES),
        (FREEZING, b"yes\n", YES),
        (RING, b"yes\n", YES),
        (KILLED_SUPPORT, b"yes\n", YES),
        (
            NO_REACTION,
            b"no: file 1: no reaction\nmemory r0=S\ninput -\n",
            NO,
        ),
        (
            UNREACHABLE_CASE,
            b"no: file 1: no reaction\nmemory r0=B\ninput -\n",
            NO,
        ),
        (
            MUTUAL_SUPPORT,
            b"no: file 1: several reactions
memory r0=S r1=S
input -
first emit - memory r0=S r1=S
second emit x memory r0=S r1=S
",
            NO,
        ),
        (
            OVERLAPPING,
            b"refused: file 1: overlap in r0 state S of transitions 1 and 2 at a b\n",
            REFUSED,
        ),
        (b"", b"refused: file 1: syntax at 0: end\n", REFUSED),
    ] {
        let ran = run(&rt, alloc, &["check", "program"], text, b"a\n");
        assert!(rt; ran.is(written, status), "{text:?}");
    }
}

// Two nodes are the constants: there is no room for a variable.
#[test]
fn finds_no_room(rt: HostRuntime) {
    let alloc = rt.alloc();
    for list in [
        ["check", "program", "--nodes=2"].as_slice(),
        &["simulate", "program", "--nodes=2"],
        &["compile", "program", "--to=eq", "--nodes=2"],
    ] {
        for text in [MUTUAL_SUPPORT, OVERLAPPING, RING] {
            let ran = run(&rt, alloc, list, text, b"-\n");
            assert!(rt; ran.is(b"budget: 2 nodes\n", BUDGET), "{list:?}");
        }
        // where no local depends on itself and no two transitions differ, no diagram is made
        let ran = run(&rt, alloc, list, TOGGLE, b"-\n");
        assert!(rt; ran.status == YES, "{list:?}");
    }
    // the need of this job of two variables
    let ran = run(
        &rt,
        alloc,
        &["check", "program", "--nodes=16"],
        NO_REACTION,
        b"",
    );
    assert!(rt; ran.status == NO);
}

#[test]
fn runs_what_is_solved(rt: HostRuntime) {
    let alloc = rt.alloc();
    let ran = simulate(&rt, alloc, RING, b"-\nr1\nr0 r1 r2\n");
    assert!(rt; ran.is(b"-\n-\n-\n", YES));
    let ran = simulate(&rt, alloc, KILLED_SUPPORT, b"-\n-\n");
    assert!(rt; ran.is(b"-\n-\n", YES));
    for to in ["eq", "c"] {
        let list = ["compile", "program", "--to", to];
        let compiled = run(&rt, alloc, &list, RING, b"");
        assert!(rt; compiled.status == YES);
        let ran = simulate(&rt, alloc, &compiled.written, b"-\nr1\n");
        assert!(rt; ran.is(b"-\n-\n", YES));
    }
}

#[test]
fn numbers_statuses(rt: HostRuntime) {
    let alloc = rt.alloc();
    assert_eq!(rt; Status::Yes.number(), YES);
    assert_eq!(rt; Status::No.number(), NO);
    assert_eq!(rt; Status::Usage.number(), USAGE);
    assert_eq!(rt; Status::Refused.number(), REFUSED);
    assert_eq!(rt; Status::ReadFault.number(), READ_FAULT);
    assert_eq!(rt; Status::WriteFault.number(), WRITE_FAULT);
    let arena = Arena::new(alloc, 1, 2).expect(&rt, "an arena");
    assert_eq!(rt; Status::Budget(arena).number(), BUDGET);
    assert_eq!(rt; Status::OutOfMemory.number(), 7);
}
