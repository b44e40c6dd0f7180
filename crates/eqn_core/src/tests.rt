//! What a run tells: that calls succeed with ample memory, and that the clauses mean what they should, on worked systems.
ghost use Rattle.std.specs.Prelude.{◌≡◌, length, IfOk};

use crate::{Case, Line, Lit, Ordered, Pick, Stepper, System, weight};
use argos_base::{OutOfMemory, Signals};
use smallvec::SmallVec;
use std::alloc::Global;
use std::process::Abort;
use std::test::Fail;

fn plus(bit: u32) -> Lit {
    Lit {
        bit,
        negated: false,
    }
}

fn when(bit: u32, code: u16) -> Case {
    Case {
        when: plus(bit),
        pick: Pick::Code(code),
    }
}

fn all(alloc: Global, literals: &[Lit]) -> Result<Line, OutOfMemory> {
    Ok(Line::All(SmallVec::from_slice(alloc, literals)?))
}

fn choose(alloc: Global, cases: &[Case], other: Pick) -> Result<Line, OutOfMemory> {
    let cases = SmallVec::from_slice(alloc, cases)?;
    Ok(Line::Choose { cases, other })
}

fn two(alloc: Global, first: Line, second: Line) -> Result<Vec<Line>, OutOfMemory> {
    Ok(vec![in alloc; first, second]?)
}

// Register 0 is 1 or 2; the input changes it, and a change back is told.
fn toggle_lines(alloc: Global) -> Result<Vec<Line>, OutOfMemory> {
    let mut lines = two(
        alloc,
        Line::Within {
            word: 0,
            lo: 1,
            hi: 1,
        },
        Line::Within {
            word: 0,
            lo: 2,
            hi: 2,
        },
    )?;
    lines.push(all(alloc, &[plus(0), plus(1)])?)?;
    lines.push(all(alloc, &[plus(0), plus(2)])?)?;
    lines.push(choose(alloc, &[when(3, 2), when(4, 1)], Pick::Word(0))?)?;
    Ok(lines)
}

// What stands round the lines of a system.
#[derive(Clone, Copy, Debug)]
struct Frame<'a> {
    inputs: u32,
    init: &'a [u16],
    outs: &'a [u32],
    locals: &'a [u32],
    next: &'a [u32],
}

const TOGGLE: Frame<'static> = Frame {
    inputs: 1,
    init: &[1],
    outs: &[4],
    locals: &[],
    next: &[1],
};

fn system(alloc: Global, frame: Frame, lines: Vec<Line>) -> Result<System, OutOfMemory>
    ensures inputs { IfOk result (λ s. s.inputs ≡ frame.entry.inputs) }
    ensures outputs { IfOk result (λ s. length s.outs.items ≡ length frame.entry.outs.now) }
{
    Ok(System {
        inputs: frame.inputs,
        init: Vec::from_slice(alloc, frame.init)?,
        lines,
        outs: Vec::from_slice(alloc, frame.outs)?,
        locals: Vec::from_slice(alloc, frame.locals)?,
        next: Vec::from_slice(alloc, frame.next)?,
    })
}

fn toggle(alloc: Global) -> Result<System, OutOfMemory>
    ensures inputs { IfOk result (λ s. s.inputs ≡ 1) }
    ensures outputs { IfOk result (λ s. length s.outs.items ≡ 1) }
{
    let lines = toggle_lines(alloc)?;
    system(alloc, TOGGLE, lines)
}

// Registers with these codes and next values, and no inputs or outputs.
fn closed(
    alloc: Global,
    init: &[u16],
    lines: Vec<Line>,
    next: &[u32],
) -> Result<System, OutOfMemory>
    ensures inputs { IfOk result (λ s. s.inputs ≡ 0) }
    ensures outputs { IfOk result (λ s. length s.outs.items ≡ 0) }
{
    let frame = Frame {
        inputs: 0,
        init,
        outs: &[],
        locals: &[],
        next,
    };
    system(alloc, frame, lines)
}

fn is_taken(system: System) -> bool {
    Ordered::from_system(system).is_ok()
}

// Whether a system is taken that has one register, which keeps its code, and this line, which nothing reads.
fn is_line_taken(alloc: Global, line: Line) -> Result<bool, OutOfMemory> {
    let lines = two(alloc, line, choose(alloc, &[], Pick::Word(0))?)?;
    Ok(is_taken(closed(alloc, &[1], lines, &[1])?))
}

fn is_within_taken(alloc: Global, word: u32, lo: u16, hi: u16) -> Result<bool, OutOfMemory> {
    is_line_taken(alloc, Line::Within { word, lo, hi })
}

fn is_digit_taken(alloc: Global, place: u8) -> Result<bool, OutOfMemory> {
    is_line_taken(alloc, Line::Digit { word: 0, place })
}

fn is_all_taken(alloc: Global, literals: &[Lit]) -> Result<bool, OutOfMemory> {
    is_line_taken(alloc, all(alloc, literals)?)
}

fn is_next_taken(alloc: Global, word: u32) -> Result<bool, OutOfMemory> {
    is_line_taken(alloc, choose(alloc, &[], Pick::Next(word))?)
}

#[test]
fn takes_lines_that_read_earlier_ones(rt: HostRuntime) -> Result<(), Fail> {
    let alloc = rt.alloc();
    assert!(rt; is_within_taken(alloc, 0, 1, 1)?);
    assert!(rt; !is_within_taken(alloc, 0, 2, 1)?);
    assert!(rt; !is_within_taken(alloc, 1, 1, 1)?);
    assert!(rt; is_digit_taken(alloc, 15)?);
    assert!(rt; !is_digit_taken(alloc, 16)?);
    assert!(rt; is_all_taken(alloc, &[])?);
    assert!(rt; !is_all_taken(alloc, &[plus(0)])?);
    assert!(rt; is_next_taken(alloc, 0)?);
    assert!(rt; !is_next_taken(alloc, 1)?);
    Ok(())
}

// A system with one register, one line and no input, whose line reads its own bit.
#[test]
fn hands_back_what_reads_itself(rt: HostRuntime) -> Result<(), Fail> {
    let alloc = rt.alloc();
    let lines = vec![in alloc; all(alloc, &[plus(0)])?]?;
    assert!(rt; !is_taken(closed(alloc, &[1], lines, &[1])?));
    Ok(())
}

#[test]
fn takes_systems_within_limits(rt: HostRuntime) -> Result<(), Fail> {
    let alloc = rt.alloc();
    let rows = [
        (TOGGLE, true),
        (
            Frame {
                inputs: 16_384,
                ..TOGGLE
            },
            true,
        ),
        (
            Frame {
                inputs: 16_385,
                ..TOGGLE
            },
            false,
        ),
        (
            Frame {
                init: &[],
                next: &[],
                ..TOGGLE
            },
            false,
        ),
        (
            Frame {
                next: &[0],
                ..TOGGLE
            },
            false,
        ),
        (
            Frame {
                next: &[],
                ..TOGGLE
            },
            false,
        ),
        (
            Frame {
                outs: &[5],
                ..TOGGLE
            },
            false,
        ),
        (
            Frame {
                locals: &[1],
                ..TOGGLE
            },
            false,
        ),
    ];
    for (frame, taken) in rows {
        let lines = toggle_lines(alloc)?;
        assert_eq!(rt; is_taken(system(alloc, frame, lines)?), taken, "{frame:?}");
    }
    Ok(())
}

#[test]
fn hands_a_system_back(rt: HostRuntime) -> Result<(), Fail> {
    let mut system = toggle(rt.alloc())?;
    system.inputs = 16_385;
    let back = Ordered::from_system(system).expect_err(&rt, "too many inputs");
    assert_eq!(rt; back.inputs, 16_385);
    assert_eq!(rt; back.lines.len(), 5);
    Ok(())
}

#[test]
fn weighs_lines_literals_and_cases(rt: HostRuntime) -> Result<(), Fail> {
    assert_eq!(rt; weight(&toggle(rt.alloc())?), 11);
    Ok(())
}

// One step on this input gives this output, and leads to this code of the one register.
fn step_tells(
    rt: &impl Abort,
    alloc: Global,
    stepper: &mut Stepper,
    a: bool,
    o: bool,
    code: u16,
) -> Result<(), Fail>
    requires inputs { stepper.old.equations.inputs ≡ 1 }
    requires outputs { length stepper.old.equations.outputs ≡ 1 }
    ensures { stepper.new.equations ≡ stepper.old.equations }
{
    let mut input = Signals::new(alloc, 1)?;
    let mut output = Signals::new(alloc, 1)?;
    input.set(0, a);
    stepper.step(&input, &mut output);
    assert_eq!(rt; output.get(0), o);
    assert_eq!(rt; stepper.memory(), [code].as_slice());
    Ok(())
}

#[test]
fn toggle_runs(rt: HostRuntime) -> Result<(), Fail> {
    let alloc = rt.alloc();
    let ordered = Ordered::from_system(toggle(alloc)?).expect(&rt, "ordered");
    let mut stepper = Stepper::begin(alloc, ordered.copy(alloc)?)?;
    assert_eq!(rt; stepper.memory(), [1].as_slice());
    step_tells(&rt, alloc, &mut stepper, true, false, 2)?;
    step_tells(&rt, alloc, &mut stepper, false, false, 2)?;
    step_tells(&rt, alloc, &mut stepper, true, true, 1)?;
    Ok(())
}

// After one step the registers hold these codes.
fn steps_to(rt: &impl Abort, alloc: Global, system: System, codes: &[u16]) -> Result<(), Fail>
    requires inputs { system.inputs ≡ 0 }
    requires outputs { length system.outs.items ≡ 0 }
{
    let ordered = Ordered::from_system(system).expect(rt, "ordered");
    let mut stepper = Stepper::begin(alloc, ordered)?;
    let input = Signals::new(alloc, 0)?;
    let mut output = Signals::new(alloc, 0)?;
    stepper.step(&input, &mut output);
    assert_eq!(rt; stepper.memory(), codes);
    Ok(())
}

#[test]
fn next_code_goes_round(rt: HostRuntime) -> Result<(), Fail> {
    let alloc = rt.alloc();
    for (code, after) in [(65_534, 65_535), (65_535, 0)] {
        let lines = vec![in alloc; choose(alloc, &[], Pick::Next(0))?]?;
        steps_to(&rt, alloc, closed(alloc, &[code], lines, &[1])?, &[after])?;
    }
    Ok(())
}

// `All` of nothing is true, so both cases are, and the first counts.
#[test]
fn first_true_case_counts(rt: HostRuntime) -> Result<(), Fail> {
    let alloc = rt.alloc();
    let cases = [when(0, 7), when(0, 9)];
    let lines = two(
        alloc,
        all(alloc, &[])?,
        choose(alloc, &cases, Pick::Code(0))?,
    )?;
    steps_to(&rt, alloc, closed(alloc, &[1], lines, &[1])?, &[7])
}

// 4 has the digit 1 at place 2.
#[test]
fn least_digit_has_place_0(rt: HostRuntime) -> Result<(), Fail> {
    let alloc = rt.alloc();
    let digit = Line::Digit { word: 0, place: 2 };
    let lines = two(alloc, digit, choose(alloc, &[when(0, 7)], Pick::Code(0))?)?;
    steps_to(&rt, alloc, closed(alloc, &[4], lines, &[1])?, &[7])
}

// Each register is read before one is written, so these two change places.
#[test]
fn registers_change_places(rt: HostRuntime) -> Result<(), Fail> {
    let alloc = rt.alloc();
    let first = choose(alloc, &[], Pick::Word(1))?;
    let lines = two(alloc, first, choose(alloc, &[], Pick::Word(0))?)?;
    steps_to(&rt, alloc, closed(alloc, &[1, 2], lines, &[2, 3])?, &[2, 1])
}
