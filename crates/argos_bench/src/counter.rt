// A binary counter as equations, and its run.
ghost use Rattle.std.specs.Prelude.{◌≡◌, ◌≤◌, ◌<◌, ◌+◌, IfOk, length};

use crate::failure::Failure;
use argos_base::Signals;
use eqn_core::{Case, Line, Lit, Ordered, Pick, Stepper, System};
use smallvec::SmallVec;
use std::alloc::Global;

/// The most digits of a counter.
pub const MOST_DIGITS: u32 = 100_000;

fn is_true(bit: u32) -> Lit {
    Lit {
        bit,
        negated: false,
    }
}

/// A counter of the steps whose one input is true, with so many binary digits, a register each. Its output is the carry out of the
/// last digit. Digit k has three lines: whether it is 1, the carry out of it, and its next value.
pub fn counter(alloc: Global, digits: u32) -> Result<System, Failure>
    requires { digits ≤ 100000 }
    ensures inputs { IfOk result (λ s. s.inputs ≡ 1) }
    ensures outputs { IfOk result (λ s. length s.outs.items ≡ 1) }
{
    let mut lines = Vec::new(alloc);
    let mut next = Vec::new(alloc);
    for k in 0..digits {
        lines.push(Line::Within {
            word: k,
            lo: 1,
            hi: 1,
        })?;
        lines.push(carry_line(alloc, k)?)?;
        lines.push(next_line(alloc, k)?)?;
        next.push(digits + k)?;
    }
    Ok(System {
        inputs: 1,
        init: vec![in alloc; 0; digits as usize]?,
        lines,
        outs: vec![in alloc; 2 * digits]?,
        locals: Vec::new(alloc),
        next,
    })
}

/// The carry out of digit k: the carry into it, and that it is 1.
fn carry_line(alloc: Global, k: u32) -> Result<Line, Failure>
    requires { k < 100000 }
{
    let both = [is_true(2 * k), is_true(2 * k + 1)];
    Ok(Line::All(SmallVec::from_slice(alloc, &both)?))
}

/// The next value of digit k, which changes where there is a carry into it.
fn next_line(alloc: Global, k: u32) -> Result<Line, Failure>
    requires { k < 100000 }
{
    let cases = [
        Case {
            when: is_true(2 * k + 2),
            pick: Pick::Code(0),
        },
        Case {
            when: is_true(2 * k),
            pick: Pick::Code(1),
        },
    ];
    Ok(Line::Choose {
        cases: SmallVec::from_slice(alloc, &cases)?,
        other: Pick::Word(k),
    })
}

/// A stepper of the counter.
pub fn begin(alloc: Global, digits: u32) -> Result<Stepper, Failure>
    requires { digits ≤ 100000 }
    ensures inputs { IfOk result (λ s. s.equations.inputs ≡ 1) }
    ensures outputs { IfOk result (λ s. length s.equations.outputs ≡ 1) }
{
    let system = counter(alloc, digits)?;
    let Ok(ordered) = Ordered::from_system(system) else {
        return Err(Failure::Counter);
    };
    Ok(Stepper::begin(alloc, ordered)?)
}

/// How many of so many steps have a carry out of the last digit.
pub fn run(alloc: Global, stepper: &mut Stepper, steps: u32) -> Result<u32, Failure>
    requires inputs { stepper.old.equations.inputs ≡ 1 }
    requires outputs { length stepper.old.equations.outputs ≡ 1 }
{
    let mut input = Signals::new(alloc, 1)?;
    input.set(0, true);
    let mut output = Signals::new(alloc, 1)?;
    Ok(count_carries(stepper, &input, &mut output, steps))
}

fn count_carries(stepper: &mut Stepper, input: &Signals, output: &mut Signals, steps: u32) -> u32
    requires inputs { length input.now ≡ stepper.old.equations.inputs }
    requires outputs { length stepper.old.equations.outputs ≡ 1 }
    requires output { length output.old ≡ 1 }
{
    let mut carries = 0;
    for _step in 0..steps {
        stepper.step(input, output);
        carries += carry(output);
    }
    carries
}

/// The one output as a number.
fn carry(output: &Signals) -> u32
    requires { length output.now ≡ 1 }
    ensures { result ≤ 1 }
{
    if output.get(0) { 1 } else { 0 }
}
