//! The command `simulate`.
ghost use Rattle.std.specs.Prelude.{◌≡◌, List, ◌≤◌, ◌++◌, length, IfOk};
ghost use Rattle.argos_base.specs.SignalSets.{SignalSet};
ghost use Rattle.c_step.specs.CStep.{IsCStep};
ghost use Rattle.c_step.specs.Running as c_running;
ghost use Rattle.c_step.specs.StepViews.{step_of};
ghost use Rattle.eqn_core.specs.Ordered.{IsOrdered};
ghost use Rattle.eqn_core.specs.Running.{start_of};
ghost use Rattle.line_format.specs.FileNames.{names_of};
ghost use Rattle.trace_io.specs.Lines.{room_of};
ghost use Rattle.trace_io.specs.Whole.{lines_left};
ghost use Rattle.argos_load.specs.Calls.{call};
ghost use Rattle.argos_load.specs.Runnables.{Runnable, equations, c_steps, HasTrace};
ghost use Rattle.argos_top.specs.Simulation.{output_lines};
ghost use Rattle.argos_top.specs.inner.Endings.{Ran, Pushes, tail_of, status_after};
ghost use Rattle.argos_top.specs.inner.Lines.{IsRunOf};

use crate::lines::{Instant, go_through};
use crate::reactor::Reactor;
use crate::report::report_end;
use crate::status::Status;
use argos_base::{Names, OutOfMemory, Sink, Source};
use c_emit::copy_names;
use c_step::{CRun, CStep};
use eqn_core::{Ordered, Stepper};
use std::alloc::Global;
use trace_io::{WholeTrace, WriteFault};

/// Simulates equations with these names on the input. It takes all the memory that it needs before it writes.
pub fn simulate<R: Source, W: Sink>(
    alloc: Global,
    names: &Names,
    ordered: Ordered,
    input: &mut R,
    out: &mut W,
) -> Status
    requires inputs { length names.now.inputs ≡ ordered.inputs }
    requires outputs { length names.now.outputs ≡ length ordered.outputs }
    ensures { Ran (equations ordered (names_of names.now)) (call R.left R.faults input.old input.new) (call W.held W.faults out.old out.new) result }
{
    match begin(alloc, names, ordered) {
        Ok((mut stepper, mut instant)) => {
            simulate_in(alloc, names, &mut stepper, &mut instant, input, out)
        }
        Err(OutOfMemory) => Status::OutOfMemory,
    }
}

// A stepper at the initial codes, and room for each instant.
fn begin(alloc: Global, names: &Names, ordered: Ordered) -> Result<(Stepper, Instant), OutOfMemory>
    ensures stepper { IfOk result (λ r. r.0 ≡ start_of ordered) }
    ensures ordered { IsOrdered ordered }
    ensures input { IfOk result (λ r. length r.1.input ≡ length names.now.inputs) }
    ensures output { IfOk result (λ r. length r.1.output ≡ length names.now.outputs) }
    ensures room { IfOk result (λ r. room_of names.now.outputs ≤ r.1.writer) }
{
    let instant = Instant::begin(alloc, names)?;
    Ok((Stepper::begin(alloc, ordered)?, instant))
}

/// The same of a C step.
pub fn simulate_step<R: Source, W: Sink>(
    alloc: Global,
    step: CStep,
    input: &mut R,
    out: &mut W,
) -> Status
    ensures { Ran (c_steps (step_of step)) (call R.left R.faults input.old input.new) (call W.held W.faults out.old out.new) result }
{
    match begin_step(alloc, step) {
        Ok((names, mut run, mut instant)) => {
            simulate_in(alloc, &names, &mut run, &mut instant, input, out)
        }
        Err(OutOfMemory) => Status::OutOfMemory,
    }
}

// The step's names, a run of it at the initial codes, and room for each instant.
fn begin_step(alloc: Global, step: CStep) -> Result<(Names, CRun, Instant), OutOfMemory>
    ensures names { IfOk result (λ r. names_of r.0 ≡ names_of step.names) }
    ensures run { IfOk result (λ r. r.1 ≡ c_running.start_of (step_of step)) }
    ensures kept { IsCStep (step_of step) }
    ensures input { IfOk result (λ r. length r.2.input ≡ length r.0.inputs) }
    ensures output { IfOk result (λ r. length r.2.output ≡ length r.0.outputs) }
    ensures room { IfOk result (λ r. room_of r.0.outputs ≤ r.2.writer) }
{
    let names = copy_names(alloc, &step.names)?;
    let instant = Instant::begin(alloc, &names)?;
    Ok((names, CRun::begin(alloc, step)?, instant))
}

// Simulates what reacts, from where it stands, in this room.
fn simulate_in<T: Reactor, R: Source, W: Sink>(
    alloc: Global,
    names: &Names,
    reactor: &mut T,
    instant: &mut Instant,
    input: &mut R,
    out: &mut W,
) -> Status
    requires inputs { T.inputs reactor.old ≡ length names.now.inputs }
    requires outputs { T.outputs reactor.old ≡ length names.now.outputs }
    requires input { length instant.old.input ≡ length names.now.inputs }
    requires output { length instant.old.output ≡ length names.now.outputs }
    requires room { room_of names.now.outputs ≤ instant.old.writer }
    ensures { (x : Runnable) → IsRunOf T.reacts reactor.old (names_of names.now) x → Ran x (call R.left R.faults input.old input.new) (call W.held W.faults out.old out.new) result }
{
    match WholeTrace::take(alloc, input) {
        Ok(mut trace) => simulate_trace(names, reactor, &mut trace, instant, out),
        Err(OutOfMemory) => Status::OutOfMemory,
    }
}

// Simulates on a trace that was taken.
fn simulate_trace<T: Reactor, W: Sink>(
    names: &Names,
    reactor: &mut T,
    trace: &mut WholeTrace,
    instant: &mut Instant,
    out: &mut W,
) -> Status
    requires inputs { T.inputs reactor.old ≡ length names.now.inputs }
    requires outputs { T.outputs reactor.old ≡ length names.now.outputs }
    requires input { length instant.old.input ≡ length names.now.inputs }
    requires output { length instant.old.output ≡ length names.now.outputs }
    requires room { room_of names.now.outputs ≤ instant.old.writer }
    requires first { trace.old.number ≡ 1 }
    ensures { (x : Runnable) → IsRunOf T.reacts reactor.old (names_of names.now) x → let lines = lines_left names.now.inputs trace.old in
        (outputs : List SignalSet) × HasTrace x lines.0 outputs
        × Pushes (output_lines names.now.outputs outputs ++ tail_of lines.1 (length lines.0)) (status_after lines.1) (call W.held W.faults out.old out.new) result }
{
    match go_through(reactor, names, trace, instant, out) {
        Ok(error) => report_end(error, out),
        Err(WriteFault) => Status::WriteFault,
    }
}
