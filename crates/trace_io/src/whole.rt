//! A trace that is pulled whole before its first line is read.
ghost use Rattle.std.specs.Prelude.{◌≡◌, ◌+◌, ◌≤◌, ◌<◌, ◌^◌, Ok, Err, IfOk, MatchResult, length};
ghost use Rattle.argos_base.specs.Outside.{ahead};
ghost use Rattle.trace_io.specs.Lines.{line_set};
ghost use Rattle.trace_io.specs.Whole.{ReadsNext, StayUnread, IsStopped, kind_of};
ghost use Rattle.trace_io.specs.inner.Stops.{stop_of, raw_of, EndsAs};

use crate::cut::{Line, content, next_line};
use crate::errors::{LineKind, TraceError};
use crate::words::read_words;
use argos_base::{Failed, NameTable, OutOfMemory, Signals, Source, TEXT_LIMIT, TRACE_LINE_LIMIT};
use std::alloc::Global;
use std::marker::Model;

// How pulling stopped: at the end of the source, at a failure, or with one byte more than is pulled at most.
#[derive(Clone, Copy, Debug, PartialEq, Eq)]
pub enum Stop {
    AtEnd,
    Failed,
    Full,
}

/// The bytes that were taken of a source, at most 1,048,577. It is seen as what is left of them, how pulling stopped, and the number of
/// the next line.
#[derive(Debug, Drop)]
pub struct WholeTrace {
    bytes: Vec<u8>,
    stop: Stop,
    at: usize,
    number: u64,
}

impl Model for WholeTrace {
    ghost use Rattle.std.specs.Prelude.{◌+◌, ◌≤◌, drop, length};
    ghost use Rattle.trace_io.specs.Whole.{Reading};
    ghost use Rattle.trace_io.specs.inner.Stops.{stop_of};

    ghost Value = { Reading };

    ghost view = { λ t. record { bytes = drop t.at t.bytes.items; stop = stop_of t.stop; number = t.number } };

    ghost invariant = { λ t. (t.at ≤ length t.bytes.items) × (t.number ≤ t.at + 1) };
}

impl WholeTrace {
    /// Pulls until the end, a failure, or 1,048,577 bytes.
    pub fn take<S: Source>(alloc: Global, source: &mut S) -> Result<WholeTrace, OutOfMemory>
        ensures taken { IfOk result (λ t. S.left source.old ≡ ahead t.bytes (S.left source.new)) }
        ensures stopped { IfOk result (λ t. IsStopped t.stop (length t.bytes) (S.left source.new) (S.faults source.old) (S.faults source.new)) }
        ensures first { IfOk result (λ t. t.number ≡ 1) }
        ensures later { S.faults source.old ≤ S.faults source.new }
    {
        let (bytes, stop) = pull_all(alloc, source)?;
        Ok(WholeTrace {
            bytes,
            stop,
            at: 0,
            number: 1,
        })
    }

    /// Reads the next line: with `true` its set stands in `set`, and `false` comes exactly at the end of a trace that was pulled to its
    /// end. Where no line is read, set and trace stay. It takes no memory.
    pub fn next_set(&mut self, names: &NameTable, set: &mut Signals) -> Result<bool, TraceError>
        requires { length set.old ≡ length names.now }
        ensures read { ReadsNext names.now self.old self.new set.new result }
        ensures kept { StayUnread result self.old self.new set.old set.new }
        ensures sized { length set.new ≡ length names.now }
    {
        let number = self.number;
        let Some(line) = next_line(&self.bytes[self.at..], self.stop) else {
            return end(self.stop, number);
        };
        if let Err(kind) = read_set(&line, number, names, set) {
            return Err(TraceError::BadLine { number, kind });
        }
        self.at = self.bytes.len() - line.rest.len();
        self.number = number + 1;
        Ok(true)
    }
}

// Pulls until the end, a failure, or one byte more than the limit.
#[tactic(auto, using(crate::proofs::Devices::devices))]
fn pull_all<S: Source>(alloc: Global, source: &mut S) -> Result<(Vec<u8>, Stop), OutOfMemory>
    ensures taken { IfOk result (λ t. S.left source.old ≡ ahead t.0.items (S.left source.new)) }
    ensures stopped { IfOk result (λ t. IsStopped (stop_of t.1) (length t.0.items) (S.left source.new) (S.faults source.old) (S.faults source.new)) }
    ensures later { S.faults source.old ≤ S.faults source.new }
{
    let mut bytes = Vec::new(alloc);
    let mut buf = [0; 8192];
    while bytes.len() <= TEXT_LIMIT {
        let room = buf.len().min(TEXT_LIMIT + 1 - bytes.len());
        match source.pull(&mut buf[..room]) {
            Ok(0) => return Ok((bytes, Stop::AtEnd)),
            Ok(count) => bytes.extend_from_slice(&buf[..count])?,
            Err(Failed) => return Ok((bytes, Stop::Failed)),
        }
    }
    Ok((bytes, Stop::Full))
}

// What is answered where no line is left.
fn end(stop: Stop, number: u64) -> Result<bool, TraceError>
    ensures { EndsAs (stop_of stop) number result }
{
    match stop {
        Stop::AtEnd => Ok(false),
        Stop::Failed => Err(TraceError::ReadFault { number }),
        Stop::Full => Err(TraceError::Long),
    }
}

// Reads the set of the line with this number.
fn read_set(
    line: &Line<'_>,
    number: u64,
    names: &NameTable,
    set: &mut Signals,
) -> Result<(), LineKind>
    requires { length set.old ≡ length names.now }
    ensures set { MatchResult result (λ _. line_set names.now number (raw_of line.now) ≡ Ok set.new) (λ kind. line_set names.now number (raw_of line.now) ≡ Err (kind_of kind)) }
    ensures kept { (kind : _) → result ≡ Err kind → set.new ≡ set.old }
    ensures sized { length set.new ≡ length names.now }
{
    if number > u64::from(u32::MAX) {
        return Err(LineKind::TooMany);
    }
    if line.bytes.len() > TRACE_LINE_LIMIT {
        return Err(LineKind::TooLong);
    }
    read_words(content(line), names, set)
}
