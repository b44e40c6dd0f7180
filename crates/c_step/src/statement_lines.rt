ghost use Rattle.std.specs.Prelude.{◌≡◌, ◌<◌, length, IfSome};
ghost use Rattle.eqn_core.specs.Views.{literal_of, choice_of};
ghost use Rattle.c_step.specs.CFile as lines;
ghost use Rattle.c_step.specs.Views.{value_of};
ghost use Rattle.c_step.specs.inner.LineReading as reading;
ghost use Rattle.c_step.specs.inner.Parts.{word_parts_of, case_parts_of};
ghost use Rattle.c_step.specs.inner.Scopes.{scope_of};
ghost use Rattle.c_step.specs.inner.Taking.{Takes, TakesText, Reads, ReadsMore};

use crate::errors::CError;
use crate::pieces::Pieces;
use crate::scope::Scope;
use crate::statements::CValue;
use eqn_core::{Case, Lit, Pick};
use std::alloc::Global;

const BITS: &[u8] = b"m->b[";

const WORDS: &[u8] = b"m->w[";

/// A bit that is given a value.
#[derive(Debug, Drop)]
pub(crate) struct BitLine {
    pub to: u32,
    pub value: CValue,
}

/// A word that is given a pick.
#[derive(Clone, Copy, Debug)]
pub(crate) struct WordLine {
    pub to: u32,
    pub pick: Pick,
}

/// A word that is given a pick where a literal is true.
#[derive(Clone, Copy, Debug)]
pub(crate) struct CaseLine {
    pub to: u32,
    pub case: Case,
}

/// An output that is given a bit.
#[derive(Clone, Copy, Debug)]
pub(crate) struct OutLine {
    pub to: u32,
    pub bit: u32,
}

/// A line that gives a bit a value.
pub(crate) fn bit_line(
    alloc: Global,
    mut line: Pieces<'_>,
    scope: Scope<'_>,
) -> Result<BitLine, CError>
    ensures { Reads (λ x. lines.bit_line x.to (value_of x.value)) line.entry.at (reading.read_bit (scope_of scope.entry) line.entry.rest.now) result }
{
    let to = line.index(BITS, scope.bits)?;
    line.text(b" = ")?;
    let value = value(alloc, line, scope)?;
    Ok(BitLine { to, value })
}

/// A line that gives a word a pick.
pub(crate) fn word_line(mut line: Pieces<'_>, scope: Scope<'_>) -> Result<WordLine, CError>
    ensures { Reads word_parts_of line.entry.at (reading.word_parts (scope_of scope.entry) line.entry.rest.now) result }
{
    let to = line.index(WORDS, scope.words)?;
    line.text(b" = ")?;
    let pick = pick(line, scope)?;
    Ok(WordLine { to, pick })
}

/// A line that gives a word a pick where a literal is true.
pub(crate) fn case_line(mut line: Pieces<'_>, scope: Scope<'_>) -> Result<CaseLine, CError>
    ensures { Reads case_parts_of line.entry.at (reading.case_parts (scope_of scope.entry) line.entry.rest.now) result }
{
    line.text(b"if (")?;
    let when = literal(&mut line, scope)?;
    line.text(b") ")?;
    let WordLine { to, pick } = word_line(line, scope)?;
    Ok(CaseLine {
        to,
        case: Case { when, pick },
    })
}

/// A line that gives an output a bit.
pub(crate) fn out_line(mut line: Pieces<'_>, scope: Scope<'_>) -> Result<OutLine, CError>
    ensures { Reads (λ x. lines.out_line x.to x.bit) line.entry.at (reading.read_out (scope_of scope.entry) line.entry.rest.now) result }
{
    let to = line.index(b"out[", scope.outputs)?;
    line.text(b" = ")?;
    let bit = bit(&mut line, scope)?;
    line.last(b";")?;
    Ok(OutLine { to, bit })
}

// A bit that may be read.
fn bit(line: &mut Pieces<'_>, scope: Scope<'_>) -> Result<u32, CError>
    ensures { Takes (λ k. k) (reading.take_bit (scope_of scope.entry) line.old.rest.now) line.old line.new result }
{
    let bit = line.index(BITS, scope.bits)?;
    if scope.has_bit(bit) {
        Ok(bit)
    } else {
        Err(line.refused())
    }
}

// A word that may be read.
fn word(line: &mut Pieces<'_>, scope: Scope<'_>) -> Result<u32, CError>
    ensures { Takes (λ k. k) (reading.take_word (scope_of scope.entry) line.old.rest.now) line.old line.new result }
{
    let word = line.index(WORDS, scope.words)?;
    if scope.has_word(word) {
        Ok(word)
    } else {
        Err(line.refused())
    }
}

// The same word again.
fn same_word(line: &mut Pieces<'_>, scope: Scope<'_>, word: u32) -> Result<(), CError>
    ensures { TakesText (reading.take_same (scope_of scope.entry) word line.old.rest.now) line.old line.new result }
{
    if line.index(WORDS, scope.words)? == word {
        Ok(())
    } else {
        Err(line.refused())
    }
}

fn literal(line: &mut Pieces<'_>, scope: Scope<'_>) -> Result<Lit, CError>
    ensures { Takes literal_of (reading.take_literal (scope_of scope.entry) line.old.rest.now) line.old line.new result }
{
    let negated = line.skip(b"!");
    let bit = bit(line, scope)?;
    Ok(Lit { bit, negated })
}

// A pick, up to the end of the line.
fn pick(line: Pieces<'_>, scope: Scope<'_>) -> Result<Pick, CError>
    ensures { Reads choice_of line.entry.at (reading.read_choice (scope_of scope.entry) line.entry.rest.now) result }
{
    if line.begins(WORDS) {
        word_pick(line, scope)
    } else {
        code_pick(line)
    }
}

fn code_pick(mut line: Pieces<'_>) -> Result<Pick, CError>
    ensures { Reads choice_of line.entry.at (reading.read_code_choice line.entry.rest.now) result }
{
    let code = line.number(65_536)?;
    line.last(b"u;")?;
    Ok(Pick::Code(code as u16))
}

// A word, or one more than a word.
fn word_pick(mut line: Pieces<'_>, scope: Scope<'_>) -> Result<Pick, CError>
    ensures { Reads choice_of line.entry.at (reading.read_word_choice (scope_of scope.entry) line.entry.rest.now) result }
{
    let word = word(&mut line, scope)?;
    if line.is_last(b";") {
        Ok(Pick::Word(word))
    } else {
        next_pick(line, scope, word)
    }
}

fn next_pick(mut line: Pieces<'_>, scope: Scope<'_>, word: u32) -> Result<Pick, CError>
    ensures { Reads choice_of line.entry.at (reading.read_next (scope_of scope.entry) word line.entry.rest.now) result }
{
    line.text(b" <= 65534u ? ")?;
    same_word(&mut line, scope, word)?;
    line.last(b" + 1u : 0u;")?;
    Ok(Pick::Next(word))
}

// A value, up to the end of the line.
fn value(alloc: Global, line: Pieces<'_>, scope: Scope<'_>) -> Result<CValue, CError>
    ensures { Reads value_of line.entry.at (reading.read_value (scope_of scope.entry) line.entry.rest.now) result }
{
    if line.begins(WORDS) {
        digit(line, scope)
    } else if line.begins(b"in[") {
        input(line, scope)
    } else if line.begins(BITS) || line.begins(b"!") {
        literals(alloc, line, scope)
    } else {
        numbers(line, scope)
    }
}

// A binary digit of a word.
fn digit(mut line: Pieces<'_>, scope: Scope<'_>) -> Result<CValue, CError>
    ensures { Reads value_of line.entry.at (reading.read_digit (scope_of scope.entry) line.entry.rest.now) result }
{
    let word = word(&mut line, scope)?;
    line.text(b" / ")?;
    let divisor = line.number(65_536)?;
    let Some(place) = place_of(divisor, 16) else {
        return Err(line.refused());
    };
    line.last(b"u % 2u;")?;
    Ok(CValue::Digit { word, place })
}

// Which power of 2 the number is, where it is one below 2 to the power of `steps`.
fn place_of(number: u32, steps: u8) -> Option<u8>
    ensures place { result ≡ reading.place_of steps number }
    ensures below { IfSome result (λ j. j < steps) }
{
    if steps == 0 {
        return None;
    }
    if number == 1 {
        return Some(0);
    }
    if number % 2 != 0 {
        return None;
    }
    let half = place_of(number / 2, steps - 1)?;
    Some(half + 1)
}

// An input.
fn input(mut line: Pieces<'_>, scope: Scope<'_>) -> Result<CValue, CError>
    ensures { Reads value_of line.entry.at (reading.read_present (scope_of scope.entry) line.entry.rest.now) result }
{
    let input = line.index(b"in[", scope.inputs)?;
    line.last(b" != 0u;")?;
    Ok(CValue::Input(input))
}

// A constant, or a word within bounds.
fn numbers(mut line: Pieces<'_>, scope: Scope<'_>) -> Result<CValue, CError>
    ensures { Reads value_of line.entry.at (reading.read_numbers (scope_of scope.entry) line.entry.rest.now) result }
{
    let number = line.number(65_536)?;
    if line.is_last(b"u;") {
        constant(line, number)
    } else {
        within(line, scope, number as u16)
    }
}

fn constant(line: Pieces<'_>, number: u32) -> Result<CValue, CError>
    ensures { Reads value_of line.entry.at (reading.constant_of number) result }
{
    match number {
        0 => Ok(CValue::Const(false)),
        1 => Ok(CValue::Const(true)),
        _ => Err(line.refused()),
    }
}

fn within(mut line: Pieces<'_>, scope: Scope<'_>, lo: u16) -> Result<CValue, CError>
    ensures { Reads value_of line.entry.at (reading.read_between (scope_of scope.entry) lo line.entry.rest.now) result }
{
    line.text(b"u <= ")?;
    let word = word(&mut line, scope)?;
    line.text(b" && ")?;
    same_word(&mut line, scope, word)?;
    line.text(b" <= ")?;
    high_bound(line, word, lo)
}

fn high_bound(mut line: Pieces<'_>, word: u32, lo: u16) -> Result<CValue, CError>
    ensures { Reads value_of line.entry.at (reading.read_high word lo line.entry.rest.now) result }
{
    let hi = line.number(65_536)? as u16;
    if lo > hi {
        return Err(line.refused());
    }
    line.last(b"u;")?;
    Ok(CValue::Within { word, lo, hi })
}

// Whether each, or some, of the literals is true.
fn literals(alloc: Global, mut line: Pieces<'_>, scope: Scope<'_>) -> Result<CValue, CError>
    ensures { Reads value_of line.entry.at (reading.read_literals (scope_of scope.entry) line.entry.rest.now) result }
{
    let first = literal(&mut line, scope)?;
    let mut literals = Vec::new(alloc);
    literals.push(first)?;
    if line.begins(b" || ") {
        more_literals(line, scope, b" || ", &mut literals)?;
        Ok(CValue::Or(literals))
    } else {
        more_literals(line, scope, b" && ", &mut literals)?;
        Ok(CValue::And(literals))
    }
}

// Literals, each behind the sign, up to the end of the line.
fn more_literals(
    mut line: Pieces<'_>,
    scope: Scope<'_>,
    sign: &[u8],
    literals: &mut Vec<Lit>,
) -> Result<(), CError>
    requires { 0 < length sign.now }
    ensures { ReadsMore literals.old.items literals.new.items line.entry.at (reading.all_literals sign.now (scope_of scope.entry) line.entry.rest.now) result }
{
    while !line.is_last(b";") {
        line.text(sign)?;
        let literal = literal(&mut line, scope)?;
        literals.push(literal)?;
    }
    Ok(())
}
