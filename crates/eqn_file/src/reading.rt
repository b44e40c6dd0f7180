ghost use Rattle.std.specs.Prelude.{◌≡◌, ◌≢◌, ℕ, ◌+◌, ◌^◌, ◌≤◌, List, [], length, map, IfOk, IfErr, MatchResult};
ghost use Rattle.argos_base.specs.Names.{Spelled};
ghost use Rattle.eqn_core.specs.Equations.{Line, bit_lines, word_lines, Equations};
ghost use Rattle.eqn_core.specs.Views.{line_of};
ghost use Rattle.line_format.specs.FileNames.{FileNames, names_of};
ghost use Rattle.eqn_file.specs.EquationFile.{stage, no_system, no_names, head_due, end_due, IsEquationText};
ghost use Rattle.eqn_file.specs.Errors.{TellsFault};
ghost use Rattle.eqn_file.specs.inner.Sections.{Moves, Stops};
ghost use Rattle.eqn_file.specs.inner.Stages.{behind_head, names, at_inputs, at_outputs, at_codes, at_lines, at_outs, at_nexts, at_end};

use crate::due::{DueLine, due_line};
use crate::errors::{EqError, EqKind};
use crate::keywords::{END, HEAD, INPUTS, LINES, NEXT, OUT, OUTPUTS, REGISTERS};
use crate::parts::{LinesRead, codes, keyed_number, lines, names, places};
use crate::system_lines::Bounds;
use argos_base::{NameTable, Names};
use eqn_core::{Ordered, System};
use line_format::LineReader;
use std::alloc::Global;

/// The ordered system and the names that the bytes spell, exactly where they are a spelling of one; else the first bad line and what is
/// wrong with it. Nothing is reserved for what a file only announces.
pub fn read_equations(alloc: Global, bytes: &[u8]) -> Result<(Ordered, Names), EqError>
    ensures text { IfOk result (λ read. IsEquationText bytes.now read.0 (names_of read.1)) }
    ensures fault { IfErr result (λ e. TellsFault bytes.now e) }
{
    let mut reader = LineReader::new(bytes);
    head(&mut reader)?;
    let inputs = input_names(alloc, &mut reader)?;
    let outputs = output_names(alloc, &mut reader, &inputs)?;
    let init = registers(alloc, &mut reader)?;
    let before = Bounds {
        bits: inputs.len(),
        words: init.len() as u32,
    };
    let LinesRead { lines, bounds } = system_lines(alloc, &mut reader, before)?;
    let outs = outs(alloc, &mut reader, bounds.bits, outputs.len())?;
    let next = nexts(alloc, &mut reader, init.len() as u32, bounds.words)?;
    end(&mut reader)?;
    let system = System {
        inputs: inputs.len(),
        init,
        lines,
        outs,
        locals: Vec::new(alloc),
        next,
    };
    match Ordered::from_system(system) {
        Ok(ordered) => Ok((ordered, Names { inputs, outputs })),
        Err(_) => unreachable!(),
    }
}

// The line is this text.
fn fixed_line(line: DueLine<'_>, text: &[u8]) -> Result<(), EqError>
    ensures text { MatchResult result (λ _. line.entry.bytes.now ≡ text.now) (λ _. line.entry.bytes.now ≢ text.now) }
    ensures kind { IfErr result (λ e. e ≡ EqError.Line line.entry.at EqKind.Spelling) }
{
    if line.bytes == text {
        Ok(())
    } else {
        Err(EqError::Line {
            at: line.at,
            kind: EqKind::Spelling,
        })
    }
}

// The first line.
fn head(reader: &mut LineReader<'_>) -> Result<(), EqError>
    requires { reader.old.number ≤ 2 ^ 31 }
    ensures ok { IfOk result (λ _. Moves (stage head_due no_system no_names) reader.old behind_head reader.new) }
    ensures number { IfOk result (λ _. reader.new.number ≡ reader.old.number + 1) }
    ensures err { IfErr result (λ e. Stops (stage head_due no_system no_names) reader.old e) }
{
    fixed_line(due_line(reader)?, HEAD)
}

// The number of inputs and their names.
fn input_names(alloc: Global, reader: &mut LineReader<'_>) -> Result<NameTable, EqError>
    requires { reader.old.number ≤ 2 ^ 31 }
    ensures ok { IfOk result (λ ins. Moves behind_head reader.old (at_inputs (length ins) 0 ins) reader.new) }
    ensures count { IfOk result (λ ins. length ins ≤ 16384) }
    ensures number { IfOk result (λ _. reader.new.number ≤ reader.old.number + 16385) }
    ensures err { IfErr result (λ e. Stops behind_head reader.old e) }
{
    let count = keyed_number(due_line(reader)?, INPUTS, 0, 16_385)?;
    names(alloc, reader, &NameTable::new(alloc), count)
}

// The number of outputs and their names, none of which is an input's.
fn output_names(
    alloc: Global,
    reader: &mut LineReader<'_>,
    inputs: &NameTable,
) -> Result<NameTable, EqError>
    requires { reader.old.number ≤ 2 ^ 31 }
    ensures ok { IfOk result (λ outs. (I : ℕ) → Moves (at_inputs I 0 inputs.now) reader.old (at_outputs I inputs.now 0 outs) reader.new) }
    ensures count { IfOk result (λ outs. length outs ≤ 16384) }
    ensures number { IfOk result (λ _. reader.new.number ≤ reader.old.number + 16385) }
    ensures err { IfErr result (λ e. (I : ℕ) → Stops (at_inputs I 0 inputs.now) reader.old e) }
{
    let count = keyed_number(due_line(reader)?, OUTPUTS, 0, 16_385)?;
    names(alloc, reader, inputs, count)
}

// The number of registers and their initial codes.
fn registers(alloc: Global, reader: &mut LineReader<'_>) -> Result<Vec<u16>, EqError>
    requires { reader.old.number ≤ 2 ^ 31 }
    ensures ok { IfOk result (λ init. (I : ℕ) (ins outs : List Spelled) → Moves (at_outputs I ins 0 outs) reader.old (at_codes I (names ins outs) 0 init.items) reader.new) }
    ensures count { IfOk result (λ init. length init.items ≤ 100000) }
    ensures number { IfOk result (λ _. reader.new.number ≤ reader.old.number + 100001) }
    ensures err { IfErr result (λ e. (I : ℕ) (ins outs : List Spelled) → Stops (at_outputs I ins 0 outs) reader.old e) }
{
    let count = keyed_number(due_line(reader)?, REGISTERS, 1, 100_001)?;
    codes(alloc, reader, count)
}

// The number of lines of the system and these lines.
fn system_lines(
    alloc: Global,
    reader: &mut LineReader<'_>,
    before: Bounds,
) -> Result<LinesRead, EqError>
    requires number { reader.old.number ≤ 2 ^ 31 }
    requires bits { before.bits ≤ 2 ^ 31 }
    requires words { before.words ≤ 2 ^ 31 }
    ensures ok { IfOk result (λ v. (n : FileNames) (init : List ℕ) → length init ≡ before.words → Moves (at_codes before.bits n 0 init) reader.old (at_lines before.bits n init 0 (map line_of v.lines.items)) reader.new) }
    ensures bits { IfOk result (λ v. v.bounds.bits ≡ before.bits + bit_lines (map line_of v.lines.items)) }
    ensures words { IfOk result (λ v. v.bounds.words ≡ before.words + word_lines (map line_of v.lines.items)) }
    ensures number { IfOk result (λ _. reader.new.number ≤ reader.old.number + 100000001) }
    ensures err { IfErr result (λ e. (n : FileNames) (init : List ℕ) → length init ≡ before.words → Stops (at_codes before.bits n 0 init) reader.old e) }
{
    let count = keyed_number(due_line(reader)?, LINES, 0, 100_000_001)?;
    lines(alloc, reader, before, count)
}

// The bits that are the outputs.
fn outs(
    alloc: Global,
    reader: &mut LineReader<'_>,
    bits: u32,
    count: u32,
) -> Result<Vec<u32>, EqError>
    requires number { reader.old.number ≤ 2 ^ 31 }
    requires count { count ≤ 16384 }
    ensures ok { IfOk result (λ v. (I : ℕ) (n : FileNames) (init : List ℕ) (ls : List Line) → bits ≡ I + bit_lines ls → count ≡ length n.outputs → Moves (at_lines I n init 0 ls) reader.old (at_outs I n init ls 0 v.items) reader.new) }
    ensures number { IfOk result (λ _. reader.new.number ≤ reader.old.number + 16384) }
    ensures err { IfErr result (λ e. (I : ℕ) (n : FileNames) (init : List ℕ) (ls : List Line) → bits ≡ I + bit_lines ls → count ≡ length n.outputs → Stops (at_lines I n init 0 ls) reader.old e) }
{
    places(alloc, reader, OUT, 0, bits, count)
}

// The words that are the next values, and the last line.
fn nexts(
    alloc: Global,
    reader: &mut LineReader<'_>,
    registers: u32,
    words: u32,
) -> Result<Vec<u32>, EqError>
    requires number { reader.old.number ≤ 2 ^ 31 }
    requires count { registers ≤ 100000 }
    ensures ok { IfOk result (λ v. (I : ℕ) (n : FileNames) (init : List ℕ) (ls : List Line) (os : List ℕ) → registers ≡ length init → words ≡ length init + word_lines ls → Moves (at_outs I n init ls 0 os) reader.old (at_nexts I n init ls os 0 v.items) reader.new) }
    ensures number { IfOk result (λ _. reader.new.number ≤ reader.old.number + 100000) }
    ensures err { IfErr result (λ e. (I : ℕ) (n : FileNames) (init : List ℕ) (ls : List Line) (os : List ℕ) → registers ≡ length init → words ≡ length init + word_lines ls → Stops (at_outs I n init ls 0 os) reader.old e) }
{
    places(alloc, reader, NEXT, registers, words, registers)
}

// The last line, and nothing behind it.
fn end(reader: &mut LineReader<'_>) -> Result<(), EqError>
    requires { reader.old.number ≤ 2 ^ 31 }
    ensures ok { IfOk result (λ _. (E : Equations) (n : FileNames) → Moves (stage end_due E n) reader.old (at_end E n) reader.new) }
    ensures rest { IfOk result (λ _. reader.new.rest.now ≡ []) }
    ensures err { IfErr result (λ e. (E : Equations) (n : FileNames) → Stops (stage end_due E n) reader.old e) }
{
    fixed_line(due_line(reader)?, END)?;
    if reader.rest.is_empty() {
        Ok(())
    } else {
        Err(EqError::Line {
            at: reader.number,
            kind: EqKind::After,
        })
    }
}
