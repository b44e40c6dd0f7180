ghost use Rattle.std.specs.Prelude.{◌≡◌, ◌+◌, ◌<◌, [], ◌++◌, length, take, map, IsTrue, All};
ghost use Rattle.std.specs.List.{list_all, list_any};
ghost use Rattle.eqn_core.specs.Equations.{bit_lines, word_lines};
ghost use Rattle.eqn_core.specs.inner.LineValues.{known, value_bits, value_words};
ghost use Rattle.eqn_core.specs.Ordered.{literal_below, choice_below, case_below, line_below};
ghost use Rattle.eqn_core.specs.inner.OrderTest.{lines_in_order};
ghost use Rattle.eqn_core.specs.Solutions.{is_true, value_of, chosen_value, defined_bits, defined_words, Completes};
ghost use Rattle.eqn_core.specs.Views.{literal_of, choice_of, case_of, line_of};

use crate::system::{Case, Line, Lit, Pick};

/// The value of the bit or of the word that a line defines.
#[derive(Clone, Copy)]
pub(crate) enum Value {
    Bit(bool),
    Word(u16),
}

// Whether a literal is true.
fn holds(literal: Lit, bits: &[bool]) -> bool
    requires { literal.bit < length bits.now }
    ensures { result ≡ is_true (known bits.now []) (literal_of literal) }
{
    bits[literal.bit as usize] != literal.negated
}

fn all_hold(literals: &[Lit], bits: &[bool]) -> bool
    requires { All (λ l. l.bit < length bits.now) literals.now }
    ensures { result ≡ list_all (λ l. is_true (known bits.now []) (literal_of l)) literals.now }
{
    literals.iter().all(|literal| holds(*literal, bits))
}

fn any_holds(literals: &[Lit], bits: &[bool]) -> bool
    requires { All (λ l. l.bit < length bits.now) literals.now }
    ensures { result ≡ list_any (λ l. is_true (known bits.now []) (literal_of l)) literals.now }
{
    literals.iter().any(|literal| holds(*literal, bits))
}

// The value that a pick gives.
fn picked(pick: Pick, words: &[u16]) -> u16
    requires { IsTrue (choice_below (length words.now) (choice_of pick)) }
    ensures { result ≡ value_of (known [] words.now) (choice_of pick) }
{
    match pick {
        Pick::Code(code) => code,
        Pick::Word(word) => words[word as usize],
        Pick::Next(word) => words[word as usize].wrapping_add(1),
    }
}

// The pick of the first case whose literal is true, else the other one.
#[tactic(auto, using(crate::proofs::Walks::walks))]
fn chosen(cases: &[Case], other: Pick, bits: &[bool], words: &[u16]) -> u16
    requires cases { IsTrue (list_all (case_below (length bits.now) (length words.now)) (map case_of cases.now)) }
    requires other { IsTrue (choice_below (length words.now) (choice_of other)) }
    ensures { result ≡ chosen_value (known bits.now words.now) (map case_of cases.now) (choice_of other) }
{
    for case in cases {
        if holds(case.when, bits) {
            return picked(case.pick, words);
        }
    }
    picked(other, words)
}

// The value of what the line defines, where these bits and words stand before it.
#[tactic(auto, using(crate::proofs::Walks::walks))]
fn line_value(line: &Line, bits: &[bool], words: &[u16]) -> Value
    requires { IsTrue (line_below (length bits.now) (length words.now) (line_of line.now)) }
    ensures bits { value_bits result ≡ defined_bits (known bits.now words.now) (line_of line.now) }
    ensures words { value_words result ≡ defined_words (known bits.now words.now) (line_of line.now) }
{
    match line {
        Line::All(literals) => Value::Bit(all_hold(literals, bits)),
        Line::Any(literals) => Value::Bit(any_holds(literals, bits)),
        Line::Within { word, lo, hi } => {
            let code = words[*word as usize];
            Value::Bit(*lo <= code && code <= *hi)
        }
        Line::Digit { word, place } => Value::Bit((words[*word as usize] >> *place) % 2 == 1),
        Line::Choose { cases, other } => Value::Word(chosen(cases, *other, bits, words)),
    }
}

/// Writes the value of each line, the first bit at `bit` and the first word at `word`.
#[tactic(auto, using(crate::proofs::Walks::walks))]
pub(crate) fn evaluate(
    lines: &[Line],
    mut bit: usize,
    mut word: usize,
    bits: &mut [bool],
    words: &mut [u16],
)
    requires order { IsTrue (lines_in_order bit word (map line_of lines.now)) }
    requires bits { length bits.old ≡ bit + bit_lines (map line_of lines.now) }
    requires words { length words.old ≡ word + word_lines (map line_of lines.now) }
    ensures { Completes (map line_of lines.now) (known (take bit bits.old) (take word words.old)) (known bits.new words.new) }
{
    for line in lines {
        match line_value(line, &bits[..bit], &words[..word]) {
            Value::Bit(b) => {
                bits[bit] = b;
                bit += 1;
            }
            Value::Word(w) => {
                words[word] = w;
                word += 1;
            }
        }
    }
}
