ghost use Rattle.std.specs.Prelude.{◌≡◌, ◌<◌, [], ◌++◌, ◌∷◌, length, slice_index_or, map, IfOk, OnOk};
ghost use Rattle.argos_base.specs.Names.{IsTable};
ghost use Rattle.eqn_core.specs.Views.{literal_of, choice_of};
ghost use Rattle.line_format.specs.FileNames.{names_of};
ghost use Rattle.line_format.specs.Numerals.{numeral};
ghost use Rattle.eqn_file.specs.EquationFile.{literal_text, choice_words, IsEquationText};
ghost use Rattle.eqn_file.specs.inner.Words.{behind_spaces};
ghost use Rattle.eqn_file.specs.inner.Texts.{keyed_line, lines_text, places_text, cases_text, line_text};

use crate::keywords::{INPUTS, LINES, NEXT, OUT, OUTPUTS, REGISTERS};
use argos_base::{NameTable, Names, OutOfMemory};
use eqn_core::{Case, Line, Lit, Ordered, Pick};
use line_format::push_number;
use std::alloc::Global;

/// The one spelling of an ordered system and its names.
pub fn write_equations(
    alloc: Global,
    ordered: &Ordered,
    names: &Names,
) -> Result<Vec<u8>, OutOfMemory>
    requires inputs { length names.now.inputs ≡ ordered.now.inputs }
    requires outputs { length names.now.outputs ≡ length ordered.now.outputs }
    ensures { IfOk result (λ text. IsEquationText text.items ordered.now (names_of names.now)) }
{
    let system = ordered.system();
    let mut text = Vec::from_slice(alloc, b"argos-eq 1\n")?;
    push_names(&mut text, INPUTS, &names.inputs)?;
    push_names(&mut text, OUTPUTS, &names.outputs)?;
    push_codes(&mut text, &system.init)?;
    push_lines(&mut text, &system.lines)?;
    push_places(&mut text, OUT, &system.outs)?;
    push_places(&mut text, NEXT, &system.next)?;
    text.extend_from_slice(b"end\n")?;
    Ok(text)
}

// A word, a number and the end of the line.
fn push_keyed(text: &mut Vec<u8>, word: &[u8], number: u64) -> Result<(), OutOfMemory>
    ensures { OnOk result (text.new.items ≡ text.old.items ++ keyed_line word.now number) }
{
    text.extend_from_slice(word)?;
    push_behind_space(text, number)?;
    text.push(b'\n')?;
    Ok(())
}

// A space and a number.
fn push_behind_space(text: &mut Vec<u8>, number: u64) -> Result<(), OutOfMemory>
    ensures { OnOk result (text.new.items ≡ text.old.items ++ 32 ∷ numeral number) }
{
    text.push(b' ')?;
    push_number(text, number)
}

// How many names there are, and the names.
fn push_names(text: &mut Vec<u8>, word: &[u8], names: &NameTable) -> Result<(), OutOfMemory>
    ensures text { OnOk result (text.new.items ≡ text.old.items ++ (keyed_line word.now (length names.now) ++ lines_text names.now)) }
    ensures names { IsTable names.now }
{
    push_keyed(text, word, names.len() as u64)?;
    for k in 0..names.len() {
        push_name(text, names, k)?;
    }
    Ok(())
}

// The name with a number, and the end of the line.
fn push_name(text: &mut Vec<u8>, names: &NameTable, k: u32) -> Result<(), OutOfMemory>
    requires { k < length names.now }
    ensures { OnOk result (text.new.items ≡ text.old.items ++ (slice_index_or names.now k [] ++ 10 ∷ [])) }
{
    if let Some(name) = names.get(k) {
        text.extend_from_slice(name.bytes())?;
    }
    text.push(b'\n')?;
    Ok(())
}

// How many registers there are, and their codes.
fn push_codes(text: &mut Vec<u8>, init: &[u16]) -> Result<(), OutOfMemory>
    ensures { OnOk result (text.new.items ≡ text.old.items ++ (keyed_line REGISTERS.now (length init.now) ++ lines_text (map numeral init.now))) }
{
    push_keyed(text, REGISTERS, init.len() as u64)?;
    for code in init {
        push_number(text, *code as u64)?;
        text.push(b'\n')?;
    }
    Ok(())
}

// Bits or words, one a line behind this word.
fn push_places(text: &mut Vec<u8>, word: &[u8], places: &[u32]) -> Result<(), OutOfMemory>
    ensures { OnOk result (text.new.items ≡ text.old.items ++ places_text word.now places.now) }
{
    for place in places {
        push_keyed(text, word, *place as u64)?;
    }
    Ok(())
}

// How many lines the system has, and the lines.
fn push_lines(text: &mut Vec<u8>, lines: &[Line]) -> Result<(), OutOfMemory>
    ensures { OnOk result (text.new.items ≡ text.old.items ++ (keyed_line LINES.now (length lines.now) ++ lines_text (map line_text lines.now))) }
{
    push_keyed(text, LINES, lines.len() as u64)?;
    for line in lines {
        push_line(text, line)?;
        text.push(b'\n')?;
    }
    Ok(())
}

// A line without its end.
fn push_line(text: &mut Vec<u8>, line: &Line) -> Result<(), OutOfMemory>
    ensures { OnOk result (text.new.items ≡ text.old.items ++ line_text line.now) }
{
    match line {
        Line::All(literals) => {
            text.extend_from_slice(b"all")?;
            push_literals(text, literals)
        }
        Line::Any(literals) => {
            text.extend_from_slice(b"any")?;
            push_literals(text, literals)
        }
        Line::Within { word, lo, hi } => {
            text.extend_from_slice(b"within")?;
            push_behind_space(text, *word as u64)?;
            push_behind_space(text, *lo as u64)?;
            push_behind_space(text, *hi as u64)
        }
        Line::Digit { word, place } => {
            text.extend_from_slice(b"bit")?;
            push_behind_space(text, *word as u64)?;
            push_behind_space(text, *place as u64)
        }
        Line::Choose { cases, other } => {
            text.extend_from_slice(b"choose")?;
            push_cases(text, cases)?;
            text.extend_from_slice(b" else")?;
            push_pick(text, *other)
        }
    }
}

// Literals, each behind a space.
fn push_literals(text: &mut Vec<u8>, literals: &[Lit]) -> Result<(), OutOfMemory>
    ensures { OnOk result (text.new.items ≡ text.old.items ++ behind_spaces (map (λ l. literal_text (literal_of l)) literals.now)) }
{
    for literal in literals {
        push_literal(text, *literal)?;
    }
    Ok(())
}

// A literal behind a space.
fn push_literal(text: &mut Vec<u8>, literal: Lit) -> Result<(), OutOfMemory>
    ensures { OnOk result (text.new.items ≡ text.old.items ++ 32 ∷ literal_text (literal_of literal)) }
{
    text.push(b' ')?;
    text.push(if literal.negated { b'-' } else { b'+' })?;
    push_number(text, literal.bit as u64)
}

// Cases, each behind a space.
fn push_cases(text: &mut Vec<u8>, cases: &[Case]) -> Result<(), OutOfMemory>
    ensures { OnOk result (text.new.items ≡ text.old.items ++ cases_text cases.now) }
{
    for case in cases {
        text.extend_from_slice(b" when")?;
        push_literal(text, case.when)?;
        push_pick(text, case.pick)?;
    }
    Ok(())
}

// A pick behind a space.
fn push_pick(text: &mut Vec<u8>, pick: Pick) -> Result<(), OutOfMemory>
    ensures { OnOk result (text.new.items ≡ text.old.items ++ behind_spaces (choice_words (choice_of pick))) }
{
    match pick {
        Pick::Code(code) => {
            text.extend_from_slice(b" code")?;
            push_behind_space(text, code as u64)
        }
        Pick::Word(word) => {
            text.extend_from_slice(b" word")?;
            push_behind_space(text, word as u64)
        }
        Pick::Next(word) => {
            text.extend_from_slice(b" next")?;
            push_behind_space(text, word as u64)
        }
    }
}
