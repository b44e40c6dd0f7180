ghost use Rattle.std.specs.Prelude.{◌≡◌, ◌+◌, ◌*◌, ◌<◌, ◌≤◌, ◌^◌, [], ◌++◌, ◌∷◌, length, map, codes, slice_index_or, IsTrue, IfOk, OnOk};
ghost use Rattle.std.specs.List.{list_all};
ghost use Rattle.eqn_core.specs.Views.{literal_of, choice_of, case_of};
ghost use Rattle.line_format.specs.Numerals.{numeral};
ghost use Rattle.c_step.specs.CFile.{indexed, bit_place, word_place, literal_then, joined_literals, choice_text, value_text, word_text, case_text, IsCText};
ghost use Rattle.c_step.specs.StepViews.{step_of};
ghost use Rattle.c_step.specs.Views.{value_of, statement_of};
ghost use Rattle.c_step.specs.inner.Texts.{comments_text, sizes_text, codes_text, cases_text, statement_text, statements_text, has_small_place, small_place};

use crate::statements::{CStat, CValue};
use crate::step::CStep;
use argos_base::{NameTable, OutOfMemory};
use eqn_core::{Case, Lit, Pick};
use line_format::push_number;
use std::alloc::Global;

/// The one spelling of a step.
pub fn print_c(alloc: Global, step: &CStep) -> Result<Vec<u8>, OutOfMemory>
    ensures { IfOk result (λ text. IsCText text.items (step_of step.now)) }
{
    let mut text = Vec::from_slice(alloc, b"/* argos-c 1 */\n")?;
    push_names(&mut text, b"/* input ", &step.names.inputs)?;
    push_names(&mut text, b"/* output ", &step.names.outputs)?;
    push_sizes(&mut text, step.words, step.bits)?;
    text.extend_from_slice(b"void argos_init(struct argos *m) {\n")?;
    push_codes(&mut text, &step.init)?;
    text.extend_from_slice(
        b"}\nvoid argos_step(struct argos *m, const unsigned int *in, unsigned int *out) {\n",
    )?;
    push_statements(&mut text, &step.stats)?;
    text.extend_from_slice(b"}\n")?;
    Ok(text)
}

// Comments that begin with this text, each with a name.
fn push_names(text: &mut Vec<u8>, front: &[u8], names: &NameTable) -> Result<(), OutOfMemory>
    ensures { OnOk result (text.new.items ≡ text.old.items ++ comments_text front.now names.now) }
{
    for k in 0..names.len() {
        text.extend_from_slice(front)?;
        push_name(text, names, k)?;
        text.extend_from_slice(b" */\n")?;
    }
    Ok(())
}

// The name with a number.
fn push_name(text: &mut Vec<u8>, names: &NameTable, k: u32) -> Result<(), OutOfMemory>
    requires { k < length names.now }
    ensures { OnOk result (text.new.items ≡ text.old.items ++ slice_index_or names.now k []) }
{
    if let Some(name) = names.get(k) {
        text.extend_from_slice(name.bytes())?;
    }
    Ok(())
}

// How many words and bits there are.
fn push_sizes(text: &mut Vec<u8>, words: u32, bits: u32) -> Result<(), OutOfMemory>
    ensures { OnOk result (text.new.items ≡ text.old.items ++ sizes_text words bits) }
{
    text.extend_from_slice(b"struct argos { unsigned int w[")?;
    push_number(text, words as u64)?;
    text.extend_from_slice(b"]; unsigned int b[")?;
    push_number(text, bits as u64)?;
    text.extend_from_slice(b"]; };\n")?;
    Ok(())
}

// The initial codes of the registers, one a line.
fn push_codes(text: &mut Vec<u8>, codes: &[u16]) -> Result<(), OutOfMemory>
    requires { length codes.now < 2 ^ 32 }
    ensures { OnOk result (text.new.items ≡ text.old.items ++ codes_text 0 codes.now) }
{
    for (register, code) in codes.iter().enumerate() {
        push_word_line(text, register as u32, Pick::Code(*code))?;
    }
    Ok(())
}

// The statements one after the other.
fn push_statements(text: &mut Vec<u8>, statements: &[CStat]) -> Result<(), OutOfMemory>
    requires { IsTrue (list_all has_small_place (map statement_of statements.now)) }
    ensures { OnOk result (text.new.items ≡ text.old.items ++ statements_text (map statement_of statements.now)) }
{
    for statement in statements {
        push_statement(text, statement)?;
    }
    Ok(())
}

// The lines of a statement.
fn push_statement(text: &mut Vec<u8>, statement: &CStat) -> Result<(), OutOfMemory>
    requires { IsTrue (has_small_place (statement_of statement.now)) }
    ensures { OnOk result (text.new.items ≡ text.old.items ++ statement_text (statement_of statement.now)) }
{
    match statement {
        CStat::Bit { to, value } => push_bit_line(text, *to, value),
        CStat::Word { to, cases, other } => push_choose(text, *to, cases, *other),
        CStat::Out { to, bit } => push_out_line(text, *to, *bit),
    }
}

// A bit that is given a value.
fn push_bit_line(text: &mut Vec<u8>, to: u32, value: &CValue) -> Result<(), OutOfMemory>
    requires { IsTrue (small_place (value_of value.now)) }
    ensures { OnOk result (text.new.items ≡ text.old.items ++ (bit_place to (codes " = " ++ value_text (value_of value.now)) ++ 10 ∷ [])) }
{
    push_bit(text, to)?;
    text.extend_from_slice(b" = ")?;
    push_value(text, value)?;
    text.push(b'\n')?;
    Ok(())
}

// An output that is given a bit.
fn push_out_line(text: &mut Vec<u8>, to: u32, bit: u32) -> Result<(), OutOfMemory>
    ensures { OnOk result (text.new.items ≡ text.old.items ++ (indexed (codes "out[") to (codes " = " ++ bit_place bit (codes ";")) ++ 10 ∷ [])) }
{
    push_indexed(text, b"out[", to)?;
    text.extend_from_slice(b" = ")?;
    push_bit(text, bit)?;
    text.extend_from_slice(b";\n")?;
    Ok(())
}

// A word that is given the pick of the first case whose literal is true, else the other one.
fn push_choose(text: &mut Vec<u8>, to: u32, cases: &[Case], other: Pick) -> Result<(), OutOfMemory>
    ensures { OnOk result (text.new.items ≡ text.old.items ++ cases_text to (map case_of cases.now) (choice_of other)) }
{
    let Some((first, further)) = cases.split_first() else {
        return push_word_line(text, to, other);
    };
    push_case(text, to, *first)?;
    for case in further {
        text.extend_from_slice(b"else ")?;
        push_case(text, to, *case)?;
    }
    text.extend_from_slice(b"else ")?;
    push_word_line(text, to, other)
}

// A word that is given a pick where a literal is true.
fn push_case(text: &mut Vec<u8>, to: u32, case: Case) -> Result<(), OutOfMemory>
    ensures { OnOk result (text.new.items ≡ text.old.items ++ (case_text to (case_of case) ++ 10 ∷ [])) }
{
    text.extend_from_slice(b"if (")?;
    push_literal(text, case.when)?;
    text.extend_from_slice(b") ")?;
    push_word_line(text, to, case.pick)
}

// A word that is given a pick.
fn push_word_line(text: &mut Vec<u8>, to: u32, pick: Pick) -> Result<(), OutOfMemory>
    ensures { OnOk result (text.new.items ≡ text.old.items ++ (word_text to (choice_of pick) ++ 10 ∷ [])) }
{
    push_word(text, to)?;
    text.extend_from_slice(b" = ")?;
    push_pick(text, pick)?;
    text.push(b'\n')?;
    Ok(())
}

// A value and the `;` behind it.
fn push_value(text: &mut Vec<u8>, value: &CValue) -> Result<(), OutOfMemory>
    requires { IsTrue (small_place (value_of value.now)) }
    ensures { OnOk result (text.new.items ≡ text.old.items ++ value_text (value_of value.now)) }
{
    match value {
        CValue::Const(value) => {
            text.extend_from_slice(if *value { b"1u;" } else { b"0u;" })?;
            Ok(())
        }
        CValue::And(literals) => push_literals(text, b" && ", literals),
        CValue::Or(literals) => push_literals(text, b" || ", literals),
        CValue::Within { word, lo, hi } => push_within(text, *word, *lo, *hi),
        CValue::Digit { word, place } => push_digit(text, *word, *place),
        CValue::Input(input) => {
            push_indexed(text, b"in[", *input)?;
            text.extend_from_slice(b" != 0u;")?;
            Ok(())
        }
    }
}

// A word within bounds.
fn push_within(text: &mut Vec<u8>, word: u32, lo: u16, hi: u16) -> Result<(), OutOfMemory>
    ensures { OnOk result (text.new.items ≡ text.old.items ++ (numeral lo ++ (codes "u <= " ++ word_place word (codes " && " ++ word_place word (codes " <= " ++ (numeral hi ++ codes "u;")))))) }
{
    push_number(text, lo as u64)?;
    text.extend_from_slice(b"u <= ")?;
    push_word(text, word)?;
    text.extend_from_slice(b" && ")?;
    push_word(text, word)?;
    text.extend_from_slice(b" <= ")?;
    push_number(text, hi as u64)?;
    text.extend_from_slice(b"u;")?;
    Ok(())
}

// A binary digit of a word.
#[tactic(auto, using(std::proofs::lemmas::Nat::one_shl))]
fn push_digit(text: &mut Vec<u8>, word: u32, place: u8) -> Result<(), OutOfMemory>
    requires { place ≤ 15 }
    ensures { OnOk result (text.new.items ≡ text.old.items ++ word_place word (codes " / " ++ (numeral (2 ^ place) ++ codes "u % 2u;"))) }
{
    push_word(text, word)?;
    text.extend_from_slice(b" / ")?;
    push_number(text, 1 << place)?;
    text.extend_from_slice(b"u % 2u;")?;
    Ok(())
}

// Literals with a sign between two, and the `;` behind them.
fn push_literals(text: &mut Vec<u8>, sign: &[u8], literals: &[Lit]) -> Result<(), OutOfMemory>
    ensures { OnOk result (text.new.items ≡ text.old.items ++ joined_literals sign.now (map literal_of literals.now) (codes ";")) }
{
    let Some((first, others)) = literals.split_first() else {
        text.push(b';')?;
        return Ok(());
    };
    push_literal(text, *first)?;
    for literal in others {
        text.extend_from_slice(sign)?;
        push_literal(text, *literal)?;
    }
    text.push(b';')?;
    Ok(())
}

fn push_literal(text: &mut Vec<u8>, literal: Lit) -> Result<(), OutOfMemory>
    ensures { OnOk result (text.new.items ≡ text.old.items ++ literal_then (literal_of literal) []) }
{
    if literal.negated {
        text.push(b'!')?;
    }
    push_bit(text, literal.bit)
}

// A pick and the `;` behind it.
fn push_pick(text: &mut Vec<u8>, pick: Pick) -> Result<(), OutOfMemory>
    ensures { OnOk result (text.new.items ≡ text.old.items ++ choice_text (choice_of pick)) }
{
    match pick {
        Pick::Code(code) => {
            push_number(text, code as u64)?;
            text.extend_from_slice(b"u;")?;
        }
        Pick::Word(word) => {
            push_word(text, word)?;
            text.push(b';')?;
        }
        Pick::Next(word) => {
            push_word(text, word)?;
            text.extend_from_slice(b" <= 65534u ? ")?;
            push_word(text, word)?;
            text.extend_from_slice(b" + 1u : 0u;")?;
        }
    }
    Ok(())
}

fn push_bit(text: &mut Vec<u8>, bit: u32) -> Result<(), OutOfMemory>
    ensures { OnOk result (text.new.items ≡ text.old.items ++ bit_place bit []) }
{
    push_indexed(text, b"m->b[", bit)
}

fn push_word(text: &mut Vec<u8>, word: u32) -> Result<(), OutOfMemory>
    ensures { OnOk result (text.new.items ≡ text.old.items ++ word_place word []) }
{
    push_indexed(text, b"m->w[", word)
}

// An array at an index.
fn push_indexed(text: &mut Vec<u8>, array: &[u8], index: u32) -> Result<(), OutOfMemory>
    ensures { OnOk result (text.new.items ≡ text.old.items ++ indexed array.now index []) }
{
    text.extend_from_slice(array)?;
    push_number(text, index as u64)?;
    text.push(b']')?;
    Ok(())
}
