//! Texts that are written once, with the status that follows them. They take no memory.
ghost use Rattle.std.specs.Prelude.{◌≡◌, ℕ, ◌+◌, ◌++◌, codes, decimal};
ghost use Rattle.trace_io.specs.Lines.{End};
ghost use Rattle.trace_io.specs.Whole.{IsNumbered, end_of, kind_of};
ghost use Rattle.argos_load.specs.Calls.{call};
ghost use Rattle.argos_load.specs.Said as said;
ghost use Rattle.argos_report.specs.Texts.{line};
ghost use Rattle.argos_top.specs.inner.Endings.{Pushes, Reports, tail_of, status_after};
ghost use Rattle.argos_top.specs.inner.Lines.{EndsAs};

use crate::status::Status;
use argos_base::Sink;
use argos_load::Stop;
use itoa::Buffer;
use trace_io::{LineKind, TraceError, push_all};

/// What is written where a trace has too many bytes.
const LONG_TRACE: &[u8] = b"refused: trace longer than 1048576 bytes\n";

/// Writes a text, and answers the status that follows it.
#[tactic(auto, using(crate::proofs::Reports::reports))]
pub fn report<W: Sink>(text: &[u8], status: Status, out: &mut W) -> Status
    ensures { Pushes text.now status (call W.held W.faults out.old out.new) result }
{
    match push_all(out, text) {
        Ok(()) => status,
        Err(_) => Status::WriteFault,
    }
}

/// Writes what a stage says that ends the call early.
pub fn report_early<W: Sink>(early: Stop, out: &mut W) -> Status
    ensures { Reports early (call W.held W.faults out.old out.new) result }
{
    match early {
        Stop::Refused(text) => report(&text, Status::Refused, out),
        Stop::No(text) => report(&text, Status::No, out),
        Stop::ReadFault(text) => report(&text, Status::ReadFault, out),
        Stop::Budget(text, arena) => report(&text, Status::Budget(arena), out),
        Stop::OutOfMemory => Status::OutOfMemory,
    }
}

/// Writes what follows the output lines, where the trace ended so, and answers the status that follows it.
#[tactic(auto, using(crate::proofs::Reports::reports))]
pub fn report_end<W: Sink>(error: Option<TraceError>, out: &mut W) -> Status
    ensures { (lines : End) (count : ℕ) → EndsAs lines count error → Pushes (tail_of lines count) (status_after lines) (call W.held W.faults out.old out.new) result }
{
    match error {
        None => Status::Yes,
        Some(error) => report_error(error, out),
    }
}

// Writes why no more lines are read.
fn report_error<W: Sink>(error: TraceError, out: &mut W) -> Status
    ensures { (count : ℕ) → IsNumbered error (count + 1) → Pushes (tail_of (end_of error) count) (status_after (end_of error)) (call W.held W.faults out.old out.new) result }
{
    match error {
        TraceError::BadLine { number, kind } => report_number(
            b"refused: line ",
            number,
            line_cause(kind),
            Status::Refused,
            out,
        ),
        TraceError::ReadFault { number } => {
            report_number(b"read fault: line ", number, b"\n", Status::ReadFault, out)
        }
        TraceError::Long => report(LONG_TRACE, Status::Refused, out),
    }
}

// What is written behind the number of a bad line.
fn line_cause(kind: LineKind) -> &'static [u8]
    ensures { result.now ≡ codes ": " ++ line (said.line_cause (kind_of kind)) }
{
    match kind {
        LineKind::Unknown => b": unknown name\n",
        LineKind::Spelling => b": spelling\n",
        LineKind::TooLong => b": too long\n",
        LineKind::TooMany => b": too many lines\n",
    }
}

/// Writes a number between two texts.
pub(crate) fn report_number<W: Sink>(
    before: &[u8],
    number: u64,
    after: &[u8],
    status: Status,
    out: &mut W,
) -> Status
    ensures { Pushes (before.now ++ (decimal number ++ after.now)) status (call W.held W.faults out.old out.new) result }
{
    match push_all(out, before) {
        Ok(()) => report_digits(number, after, status, out),
        Err(_) => Status::WriteFault,
    }
}

// Writes a number, and then a text.
fn report_digits<W: Sink>(number: u64, after: &[u8], status: Status, out: &mut W) -> Status
    ensures { Pushes (decimal number ++ after.now) status (call W.held W.faults out.old out.new) result }
{
    let mut digits = Buffer::new();
    match push_all(out, digits.format(number).as_bytes()) {
        Ok(()) => report(after, status, out),
        Err(_) => Status::WriteFault,
    }
}
