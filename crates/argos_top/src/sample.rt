//! The command `sample`: how often the last one of a chain of automata emits.
ghost use Rattle.std.specs.Prelude.{◌≡◌, ◌≤◌, ◌++◌, decimal, IfOk};
ghost use Rattle.argos_base.specs.Limits.{sample_limit};
ghost use Rattle.argos_load.specs.Calls.{call};
ghost use Rattle.argos_load.specs.Said as said;
ghost use Rattle.argos_top.specs.Sample.{Sampled};
ghost use Rattle.argos_top.specs.inner.Sampling.{WroteSample};

use crate::report::report;
use crate::status::Status;
use argos_base::{OutOfMemory, Sink};
use argos_sample::emitted;
use itoa::Buffer;
use std::alloc::Global;

/// Writes how many automata the sample has, how many instants it runs, and in how many of them it emits its output.
pub fn sample<W: Sink>(alloc: Global, count: u8, out: &mut W) -> Status
    requires least { 1 ≤ count }
    requires most { count ≤ sample_limit }
    ensures { WroteSample count (call W.held W.faults out.old out.new) result }
{
    match sample_lines(alloc, count) {
        Ok(text) => report(&text, Status::Yes, out),
        Err(OutOfMemory) => Status::OutOfMemory,
    }
}

// The three lines.
fn sample_lines(alloc: Global, count: u8) -> Result<Vec<u8>, OutOfMemory>
    requires least { 1 ≤ count }
    requires most { count ≤ sample_limit }
    ensures { IfOk result (λ text. Sampled count (said.said said.Yes text.items)) }
{
    let emitted = emitted(alloc, count)?;
    let mut text = Vec::new(alloc);
    text.extend_from_slice(b"automata ")?;
    push_number(&mut text, count as u16)?;
    text.extend_from_slice(b"\nreactions 4096\nemitted ")?;
    push_number(&mut text, emitted)?;
    text.push(b'\n')?;
    Ok(text)
}

// Appends a number in decimal.
fn push_number(text: &mut Vec<u8>, number: u16) -> Result<(), OutOfMemory>
    ensures { IfOk result (λ _. text.new.items ≡ text.old.items ++ decimal number) }
{
    let mut digits = Buffer::new();
    text.extend_from_slice(digits.format(number).as_bytes())?;
    Ok(())
}
