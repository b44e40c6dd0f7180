//! The reactions of a sample.
ghost use Rattle.std.specs.Prelude.{◌≡◌, ◌≤◌, length, IfOk};
ghost use Rattle.argos_base.specs.Limits.{sample_limit};
ghost use Rattle.argos_compile.specs.Accepting.{IsAccepted};
ghost use Rattle.argos_scope.specs.declared.text.TextError.TheVariants as text_errors;
ghost use Rattle.argos_verdict.specs.declared.judging.AcceptError.TheVariants as accept_errors;
ghost use Rattle.argos_sample.specs.Emitted.{Emits};
ghost use Rattle.argos_sample.specs.Running.{RunEmits};
ghost use Rattle.argos_sample.specs.SampleModule.{sample_module};

use crate::text::sample_text;
use argos_base::{OutOfMemory, Signals, USUAL_NODES};
use argos_compile::{AcceptError, Accepted, accept};
use argos_scope::{TextError, resolve_text};
use eqn_core::{Ordered, Stepper};
use std::alloc::Global;

/// In how many instants a sample runs.
const REACTIONS: u16 = 4096;

/// In how many of 4,096 instants, in each of which its input is present, a chain of so many automata emits its output. It is parsed,
/// resolved and accepted from its text like any other program, and its equations react.
pub fn emitted(alloc: Global, count: u8) -> Result<u16, OutOfMemory>
    requires least { 1 ≤ count }
    requires most { count ≤ sample_limit }
    ensures emitted { IfOk result (λ k. Emits count k) }
{
    let accepted = accepted(alloc, count)?;
    let ordered = accepted.ordered().copy(alloc)?;
    Ok(react(alloc, ordered, REACTIONS)?)
}

// The sample as it is accepted from its text, which means a module that is good: so nothing but memory can be missing.
fn accepted(alloc: Global, count: u8) -> Result<Accepted, OutOfMemory>
    requires least { 1 ≤ count }
    requires most { count ≤ sample_limit }
    ensures { IfOk result (λ a. IsAccepted (sample_module count) a.ordered a.lines) }
{
    let text = sample_text(alloc, count)?;
    let sample = match resolve_text(alloc, &text) {
        Ok(sample) => sample,
        Err(error) => return Err(no_memory_to_read(error)),
    };
    match accept(alloc, sample, USUAL_NODES) {
        Ok(accepted) => Ok(accepted),
        Err((_, error)) => Err(no_memory_to_judge(error)),
    }
}

// The text wasn't read, for want of memory.
fn no_memory_to_read(error: TextError) -> OutOfMemory
    requires { error ≡ text_errors.OutOfMemory }
{
    match error {
        TextError::OutOfMemory => OutOfMemory,
        _ => unreachable!(),
    }
}

// The module wasn't judged, for want of memory.
fn no_memory_to_judge(error: AcceptError) -> OutOfMemory
    requires { error ≡ accept_errors.OutOfMemory }
{
    match error {
        AcceptError::OutOfMemory => OutOfMemory,
        _ => unreachable!(),
    }
}

// In how many of so many instants, in each of which the one input is present, the equations emit the one output.
fn react(alloc: Global, ordered: Ordered, instants: u16) -> Result<u16, OutOfMemory>
    requires input { ordered.inputs ≡ 1 }
    requires output { length ordered.outputs ≡ 1 }
    ensures { IfOk result (RunEmits ordered instants) }
{
    let mut input = Signals::new(alloc, 1)?;
    input.set(0, true);
    let mut output = Signals::new(alloc, 1)?;
    let mut stepper = Stepper::begin(alloc, ordered)?;
    let mut emitted = 0;
    for _instant in 0..instants {
        stepper.step(&input, &mut output);
        if output.get(0) {
            emitted += 1;
        }
    }
    Ok(emitted)
}
