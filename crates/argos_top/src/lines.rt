//! Simulation, line by line, of anything that reacts.
ghost use Rattle.std.specs.Prelude.{◌≡◌, ◌≤◌, length, IfOk};
ghost use Rattle.trace_io.specs.Lines.{room_of};
ghost use Rattle.trace_io.specs.Whole.{lines_left};
ghost use Rattle.argos_load.specs.Calls.{call};
ghost use Rattle.argos_top.specs.inner.Lines.{GoesThrough};

use crate::reactor::Reactor;
use argos_base::{Names, OutOfMemory, Signals, Sink};
use std::alloc::Global;
use trace_io::{LineWriter, TraceError, WholeTrace, WriteFault};

/// Room for one instant: its inputs, its outputs and their line.
#[derive(Drop)]
pub struct Instant {
    pub input: Signals,
    pub output: Signals,
    pub writer: LineWriter,
}

impl Instant {
    /// Room for each instant of what has these names.
    pub fn begin(alloc: Global, names: &Names) -> Result<Instant, OutOfMemory>
        ensures input { IfOk result (λ i. length i.input ≡ length names.now.inputs) }
        ensures output { IfOk result (λ i. length i.output ≡ length names.now.outputs) }
        ensures room { IfOk result (λ i. room_of names.now.outputs ≤ i.writer) }
    {
        Ok(Instant {
            input: Signals::new(alloc, names.inputs.len())?,
            output: Signals::new(alloc, names.outputs.len())?,
            writer: LineWriter::begin(alloc, &names.outputs)?,
        })
    }
}

/// Reads the lines one after the other, reacts to each, and writes the line of its outputs, up to the end of the trace or to the first
/// error, which is answered. It takes no memory.
#[tactic(auto, using(crate::proofs::Simulations::simulations))]
pub fn go_through<T: Reactor, W: Sink>(
    reactor: &mut T,
    names: &Names,
    trace: &mut WholeTrace,
    instant: &mut Instant,
    out: &mut W,
) -> Result<Option<TraceError>, WriteFault>
    requires inputs { T.inputs reactor.old ≡ length names.now.inputs }
    requires outputs { T.outputs reactor.old ≡ length names.now.outputs }
    requires input { length instant.old.input ≡ length names.now.inputs }
    requires output { length instant.old.output ≡ length names.now.outputs }
    requires room { room_of names.now.outputs ≤ instant.old.writer }
    requires first { trace.old.number ≡ 1 }
    ensures { GoesThrough T.reacts reactor.old names.now.outputs (lines_left names.now.inputs trace.old) (call W.held W.faults out.old out.new) result }
{
    loop {
        match trace.next_set(&names.inputs, &mut instant.input) {
            Ok(true) => {}
            Ok(false) => return Ok(None),
            Err(error) => return Ok(Some(error)),
        }
        reactor.react(&instant.input, &mut instant.output);
        if let Err(fault) = instant.writer.put_set(out, &names.outputs, &instant.output) {
            return Err(fault);
        }
    }
}
