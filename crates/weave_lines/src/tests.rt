//! A toggle with an observer of its output and an advice is woven and run.
ghost use Rattle.std.specs.Prelude.{◌≡◌, ◌≤◌, length, IfOk};
ghost use Rattle.argos_aspects.specs.Aspects.{AreSized};

use crate::join_advice;
use argos_aspects::{Advice, Seen};
use argos_base::{OutOfMemory, Signals};
use eqn_core::{Case, Line, Lit, Ordered, Pick, Stepper, System};
use smallvec::SmallVec;
use std::alloc::{AllocError, Global};
use std::process::Abort;
use std::test::Fail;

fn plain(bit: u32) -> Lit {
    Lit {
        bit,
        negated: false,
    }
}

fn both(alloc: Global, a: u32, b: u32) -> Result<Line, AllocError> {
    Ok(Line::All(SmallVec::from_slice(alloc, [plain(a), plain(b)].as_slice())?))
}

// Register 0 is 1 or 2; the input changes it, and a change back is told.
fn toggle(alloc: Global) -> Result<System, AllocError> {
    let cases = [
        Case {
            when: plain(3),
            pick: Pick::Code(2),
        },
        Case {
            when: plain(4),
            pick: Pick::Code(1),
        },
    ];
    let mut lines = Vec::new(alloc);
    lines.push(Line::Within {
        word: 0,
        lo: 1,
        hi: 1,
    })?;
    lines.push(Line::Within {
        word: 0,
        lo: 2,
        hi: 2,
    })?;
    lines.push(both(alloc, 0, 1)?)?;
    lines.push(both(alloc, 0, 2)?)?;
    lines.push(Line::Choose {
        cases: SmallVec::from_slice(alloc, cases.as_slice())?,
        other: Pick::Word(0),
    })?;
    Ok(System {
        inputs: 1,
        init: vec![in alloc; 1]?,
        lines,
        outs: vec![in alloc; 4]?,
        locals: Vec::new(alloc),
        next: vec![in alloc; 1]?,
    })
}

// It has one state, and its output is its input.
fn observer(alloc: Global) -> Result<System, AllocError> {
    let mut lines = Vec::new(alloc);
    lines.push(Line::Any(SmallVec::from_slice(alloc, [plain(0)].as_slice())?))?;
    lines.push(Line::Choose {
        cases: SmallVec::new(alloc),
        other: Pick::Word(0),
    })?;
    Ok(System {
        inputs: 1,
        init: vec![in alloc; 1]?,
        lines,
        outs: vec![in alloc; 1]?,
        locals: Vec::new(alloc),
        next: vec![in alloc; 1]?,
    })
}

fn one_signal(alloc: Global, value: bool) -> Result<Signals, OutOfMemory>
    ensures { IfOk result (λ s. length s ≡ 1) }
{
    let mut set = Signals::new(alloc, 1)?;
    set.set(0, value);
    Ok(set)
}

// No output, and a trace of one set, which has the input, or of none.
fn advice(alloc: Global, current: bool, moves: bool) -> Result<Advice, OutOfMemory>
    ensures outs { IfOk result (λ a. length a.outs ≡ 1) }
    ensures trace { IfOk result (λ a. AreSized 1 a.trace.items) }
    ensures count { IfOk result (λ a. length a.trace.items ≤ 1) }
{
    let outs = one_signal(alloc, false)?;
    let mut trace = Vec::new(alloc);
    if moves {
        trace.push(one_signal(alloc, true)?)?;
    }
    Ok(Advice {
        outs,
        current,
        trace,
    })
}

// The toggle with the observer, which sees the output, and an advice.
fn woven(rt: &impl Abort, alloc: Global, advice: &Advice) -> Result<Ordered, Fail>
    requires outs { length advice.now.outs ≡ 1 }
    requires trace { AreSized 1 advice.now.trace.items }
    requires count { length advice.now.trace.items ≤ 1 }
{
    let base = Ordered::from_system(toggle(alloc)?).expect(rt, "ordered");
    let observer = Ordered::from_system(observer(alloc)?).expect(rt, "ordered");
    let first = base.system();
    assert!(rt; first.inputs == 1);
    assert!(rt; first.outs.len() == 1);
    assert!(rt; first.init.len() == 1);
    assert!(rt; first.lines.len() == 5);
    let second = observer.system();
    assert!(rt; second.inputs == 1);
    assert!(rt; second.outs.len() == 1);
    assert!(rt; second.init.len() == 1);
    assert!(rt; second.lines.len() == 2);
    let seen = [Seen::Output(0)];
    Ok(join_advice(alloc, &base, &observer, &seen, advice)?)
}

// One step with the input leads to these codes, and gives no output.
fn step_leads_to(
    rt: &impl Abort,
    alloc: Global,
    stepper: &mut Stepper,
    codes: &[u16],
) -> Result<(), Fail>
    requires inputs { stepper.old.equations.inputs ≡ 1 }
    requires outputs { length stepper.old.equations.outputs ≡ 1 }
    ensures { stepper.new.equations ≡ stepper.old.equations }
{
    let input = one_signal(alloc, true)?;
    let mut output = Signals::new(alloc, 1)?;
    stepper.step(&input, &mut output);
    assert!(rt; !output.get(0));
    assert_eq!(rt; stepper.memory(), codes);
    Ok(())
}

// The toggle's second change would be told; there the advice's outputs come, and these codes.
fn advice_leads_to(
    rt: &impl Abort,
    alloc: Global,
    current: bool,
    moves: bool,
    codes: &[u16],
) -> Result<(), Fail> {
    let advice = advice(alloc, current, moves)?;
    let ordered = woven(rt, alloc, &advice)?;
    let system = ordered.system();
    assert_eq!(rt; system.inputs, 1);
    assert_eq!(rt; system.outs.len(), 1);
    let mut stepper = Stepper::begin(alloc, ordered.copy(alloc)?)?;
    assert_eq!(rt; stepper.memory(), [1, 1].as_slice());
    step_leads_to(rt, alloc, &mut stepper, &[2, 1])?;
    step_leads_to(rt, alloc, &mut stepper, codes)
}

#[test]
fn stays_in_place(rt: HostRuntime) -> Result<(), Fail> {
    advice_leads_to(&rt, rt.alloc(), true, false, &[2, 1])
}

#[test]
fn goes_on_from_the_current_place(rt: HostRuntime) -> Result<(), Fail> {
    advice_leads_to(&rt, rt.alloc(), true, true, &[1, 1])
}

#[test]
fn starts_again(rt: HostRuntime) -> Result<(), Fail> {
    advice_leads_to(&rt, rt.alloc(), false, false, &[1, 1])
}

#[test]
fn goes_on_from_the_start(rt: HostRuntime) -> Result<(), Fail> {
    advice_leads_to(&rt, rt.alloc(), false, true, &[2, 1])
}
