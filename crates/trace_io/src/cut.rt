//! Bytes cut at a byte, and the lines of a trace.
ghost use Rattle.std.specs.Prelude.{◌≡◌, ◌==◌, ◌<◌, ◌-◌, [], ◌∷◌, length, drop, position, IfSome, MatchOption};
ghost use Rattle.std.specs.List.{slice_split};
ghost use Rattle.std.specs.Str.Lines.{strip_carriage_return};
ghost use Rattle.trace_io.specs.Lines as plain;
ghost use Rattle.trace_io.specs.Lines.{raws_from, last_raw, at_end};
ghost use Rattle.trace_io.specs.Parts.{parts_of};
ghost use Rattle.trace_io.specs.inner.Stops.{stop_of, raw_of};

use crate::whole::Stop;

/// Cuts bytes at the first of a kind: what stands before it, and what stands behind it, where there is one.
#[tactic(auto, using(crate::proofs::Cuts::cuts))]
pub fn cut(bytes: &[u8], at: u8) -> (&[u8], Option<&[u8]>)
    ensures parts { slice_split (λ b. b == at) bytes.now ≡ result.0.now ∷ parts_of at result.1 }
    ensures shorter { IfSome result.1 (λ rest. length rest.now < length bytes.now) }
    ensures behind { IfSome result.1 (λ rest. rest.now ≡ drop (length bytes.now - length rest.now) bytes.now) }
{
    match place_of(bytes, at) {
        Some(place) => (&bytes[..place], Some(&bytes[place + 1..])),
        None => (bytes, None),
    }
}

/// A line of a trace without its LF, whether it has one, and what stands behind it.
#[derive(Clone, Copy, Debug)]
pub struct Line<'a> {
    pub bytes: &'a [u8],
    pub ended: bool,
    pub rest: &'a [u8],
}

/// The first line of what is left of a trace. What stands after the last LF is a line only where pulling stopped at the end, and
/// where it isn't empty.
#[tactic(auto, using(crate::proofs::Cuts::raw_lines))]
pub fn next_line<'a>(left: &'a [u8], stop: Stop) -> Option<Line<'a>>
    ensures line { MatchOption result (raws_from (stop_of stop) left.now ≡ []) (λ line. raws_from (stop_of stop) left.now ≡ raw_of line ∷ raws_from (stop_of stop) line.rest.now) }
    ensures shorter { IfSome result (λ line. length line.rest.now < length left.now) }
    ensures behind { IfSome result (λ line. line.rest.now ≡ drop (length left.now - length line.rest.now) left.now) }
{
    match cut(left, b'\n') {
        (bytes, Some(rest)) => Some(Line {
            bytes,
            ended: true,
            rest,
        }),
        (bytes, None) => last_line(bytes, stop),
    }
}

/// What a line says: a CR before its LF is none of it.
pub fn content<'a>(line: &Line<'a>) -> &'a [u8]
    ensures { result.now ≡ plain.content (raw_of line.now) }
{
    if line.ended {
        without_return(line.bytes)
    } else {
        line.bytes
    }
}

fn without_return(bytes: &[u8]) -> &[u8]
    ensures { result.now ≡ strip_carriage_return bytes.now }
{
    if !bytes.is_empty() && bytes[bytes.len() - 1] == b'\r' {
        &bytes[..bytes.len() - 1]
    } else {
        bytes
    }
}

// What stands after the last LF, where it is a line.
fn last_line<'a>(bytes: &'a [u8], stop: Stop) -> Option<Line<'a>>
    ensures { MatchOption result (last_raw (stop_of stop) bytes.now ≡ []) (λ line. (0 < length bytes.now) × (line.rest.now ≡ []) × (stop_of stop ≡ at_end) × (last_raw (stop_of stop) bytes.now ≡ raw_of line ∷ [])) }
{
    match stop {
        Stop::AtEnd if !bytes.is_empty() => Some(Line {
            bytes,
            ended: false,
            rest: &[],
        }),
        _ => None,
    }
}

// The place of the first byte of a kind.
fn place_of(bytes: &[u8], at: u8) -> Option<usize>
    ensures { result ≡ position (λ b. b == at) bytes.now }
{
    bytes.iter().position(|b| *b == at)
}
