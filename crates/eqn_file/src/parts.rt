ghost use Rattle.std.specs.Prelude.{◌≡◌, ℕ, ◌+◌, ◌^◌, ◌<◌, ◌≤◌, [], ◌++◌, ◌∷◌, length, map, IfOk, IfErr};
ghost use Rattle.argos_base.specs.Names.{Spelled};
ghost use Rattle.eqn_core.specs.Equations.{bit_lines, word_lines};
ghost use Rattle.eqn_core.specs.Views.{line_of};
ghost use Rattle.eqn_file.specs.EquationFile.{FileLine, a_code, a_line, range, unless};
ghost use Rattle.eqn_file.specs.inner.Words.{split};
ghost use Rattle.eqn_file.specs.inner.WordReading.{keyed, one_number, one_name, read_line};
ghost use Rattle.eqn_file.specs.inner.Taking.{Gives};
ghost use Rattle.eqn_file.specs.inner.Sections.{GoesOn, FailsIn, AddsName, outside, stood_before, reads_ahead, too_large};

use crate::due::{DueLine, due_line};
use crate::errors::{EqError, EqKind};
use crate::system_lines::{Bounds, system_line};
use crate::words::LineWords;
use argos_base::{AddError, Name, NameTable};
use eqn_core::Line;
use line_format::LineReader;
use std::alloc::Global;

/// A word and a number of at least `start` and below `end`.
pub(crate) fn keyed_number(
    line: DueLine<'_>,
    word: &[u8],
    start: u32,
    end: u32,
) -> Result<u32, EqError>
    ensures gives { Gives (λ n. n) line.entry.at (keyed word.now (split line.entry.bytes.now)) (outside start end) result }
{
    let mut words = LineWords::new(line);
    words.keyword(word)?;
    let number = words.number(end)?;
    words.end()?;
    if words.fits && start <= number {
        Ok(number)
    } else {
        Err(words.outside())
    }
}

// The code of a register.
fn code(line: DueLine<'_>) -> Result<u16, EqError>
    ensures { Gives (λ n. n) line.entry.at (one_number (split line.entry.bytes.now)) too_large result }
{
    let mut words = LineWords::new(line);
    let code = words.code()?;
    words.end()?;
    if words.fits {
        Ok(code)
    } else {
        Err(words.outside())
    }
}

// A name that stands neither before nor among the names so far.
fn add_name(line: DueLine<'_>, before: &NameTable, names: &mut NameTable) -> Result<(), EqError>
    requires { length names.old < 16384 }
    ensures { AddsName line.entry.at (split line.entry.bytes.now) before.now names.old names.new result }
{
    let Ok(name) = Name::new(line.bytes) else {
        return Err(EqError::Line {
            at: line.at,
            kind: EqKind::Spelling,
        });
    };
    if before.find(line.bytes).is_some() {
        return Err(EqError::Line {
            at: line.at,
            kind: EqKind::Name,
        });
    }
    match names.add(name) {
        Ok(_) => Ok(()),
        Err(AddError::Duplicate(_)) => Err(EqError::Line {
            at: line.at,
            kind: EqKind::Name,
        }),
        Err(AddError::OutOfMemory) => Err(EqError::OutOfMemory),
    }
}

/// So many names, none of which stands before.
pub(crate) fn names(
    alloc: Global,
    reader: &mut LineReader<'_>,
    before: &NameTable,
    count: u32,
) -> Result<NameTable, EqError>
    requires few { count ≤ 16384 }
    requires line { reader.old.number + count + 1 < 2 ^ 32 }
    ensures ok { IfOk result (λ v. (say : Spelled → FileLine) → GoesOn say one_name (stood_before before.now) reader.old count reader.new 0 v) }
    ensures count { IfOk result (λ v. length v ≡ count) }
    ensures number { IfOk result (λ v. reader.new.number ≡ reader.old.number + count) }
    ensures err { IfErr result (λ e. (say : Spelled → FileLine) → FailsIn say one_name (stood_before before.now) reader.old count e) }
{
    let mut names = NameTable::new(alloc);
    for _ in 0..count {
        let line = due_line(reader)?;
        add_name(line, before, &mut names)?;
    }
    Ok(names)
}

/// So many codes.
pub(crate) fn codes(
    alloc: Global,
    reader: &mut LineReader<'_>,
    count: u32,
) -> Result<Vec<u16>, EqError>
    requires line { reader.old.number + count + 1 < 2 ^ 32 }
    ensures ok { IfOk result (λ v. GoesOn a_code one_number (λ _. too_large) reader.old count reader.new 0 v.items) }
    ensures count { IfOk result (λ v. length v.items ≡ count) }
    ensures number { IfOk result (λ v. reader.new.number ≡ reader.old.number + count) }
    ensures err { IfErr result (λ e. FailsIn a_code one_number (λ _. too_large) reader.old count e) }
{
    let mut codes = Vec::new(alloc);
    for _ in 0..count {
        let line = due_line(reader)?;
        codes.push(code(line)?)?;
    }
    Ok(codes)
}

/// So many numbers behind this word, each at least `start` and below `end`.
pub(crate) fn places(
    alloc: Global,
    reader: &mut LineReader<'_>,
    word: &[u8],
    start: u32,
    end: u32,
    count: u32,
) -> Result<Vec<u32>, EqError>
    requires line { reader.old.number + count + 1 < 2 ^ 32 }
    ensures ok { IfOk result (λ v. (say : ℕ → FileLine) → GoesOn say (keyed word.now) (λ _. outside start end) reader.old count reader.new 0 v.items) }
    ensures count { IfOk result (λ v. length v.items ≡ count) }
    ensures number { IfOk result (λ v. reader.new.number ≡ reader.old.number + count) }
    ensures err { IfErr result (λ e. (say : ℕ → FileLine) → FailsIn say (keyed word.now) (λ _. outside start end) reader.old count e) }
{
    let mut places = Vec::new(alloc);
    for _ in 0..count {
        let line = due_line(reader)?;
        places.push(keyed_number(line, word, start, end)?)?;
    }
    Ok(places)
}

/// Lines of a system, and how many bits and words there are with those that they define.
#[derive(Debug, Drop)]
pub(crate) struct LinesRead {
    pub lines: Vec<Line>,
    pub bounds: Bounds,
}

/// So many lines, of which each reads what stands before it.
pub(crate) fn lines(
    alloc: Global,
    reader: &mut LineReader<'_>,
    before: Bounds,
    count: u32,
) -> Result<LinesRead, EqError>
    requires line { reader.old.number + count + 1 < 2 ^ 32 }
    requires bits { before.bits + count < 2 ^ 32 }
    requires words { before.words + count < 2 ^ 32 }
    ensures ok { IfOk result (λ v. GoesOn a_line read_line (reads_ahead before.bits before.words) reader.old count reader.new 0 (map line_of v.lines.items)) }
    ensures bits { IfOk result (λ v. v.bounds.bits ≡ before.bits + bit_lines (map line_of v.lines.items)) }
    ensures words { IfOk result (λ v. v.bounds.words ≡ before.words + word_lines (map line_of v.lines.items)) }
    ensures number { IfOk result (λ v. reader.new.number ≡ reader.old.number + count) }
    ensures err { IfErr result (λ e. FailsIn a_line read_line (reads_ahead before.bits before.words) reader.old count e) }
{
    let mut lines = Vec::new(alloc);
    let mut bounds = before;
    for _ in 0..count {
        let line = system_line(alloc, due_line(reader)?, bounds)?;
        bounds = bounds.behind(&line);
        lines.push(line)?;
    }
    Ok(LinesRead { lines, bounds })
}
