ghost use Rattle.std.specs.Prelude.{◌≡◌, ◌<◌, [], length, map, IsTrue, All};
ghost use Rattle.std.specs.List.{list_all, list_any};
ghost use Rattle.eqn_core.specs.Ordered.{literal_below, choice_below, case_below};
ghost use Rattle.eqn_core.specs.Views.{literal_of, choice_of, case_of};
ghost use Rattle.c_step.specs.CRuns.{literal_value, choice_value, chain_value, bit_value, done, all_done};
ghost use Rattle.c_step.specs.inner.Ranges.{arrays, value_within, statement_within};
ghost use Rattle.c_step.specs.Views.{value_of, statement_of};

use crate::statements::{CStat, CValue};
use argos_base::Signals;
use eqn_core::{Case, Lit, Pick};

// Whether a literal is true.
fn holds(literal: Lit, bits: &[bool]) -> bool
    requires { literal.bit < length bits.now }
    ensures { result ≡ literal_value (arrays [] bits.now []) (literal_of literal) }
{
    bits[literal.bit as usize] != literal.negated
}

fn all_hold(literals: &[Lit], bits: &[bool]) -> bool
    requires { All (λ l. l.bit < length bits.now) literals.now }
    ensures { result ≡ list_all (λ l. literal_value (arrays [] bits.now []) (literal_of l)) literals.now }
{
    literals.iter().all(|literal| holds(*literal, bits))
}

fn any_holds(literals: &[Lit], bits: &[bool]) -> bool
    requires { All (λ l. l.bit < length bits.now) literals.now }
    ensures { result ≡ list_any (λ l. literal_value (arrays [] bits.now []) (literal_of l)) literals.now }
{
    literals.iter().any(|literal| holds(*literal, bits))
}

// The value that a pick gives.
fn picked(pick: Pick, words: &[u16]) -> u16
    requires { IsTrue (choice_below (length words.now) (choice_of pick)) }
    ensures { result ≡ choice_value (arrays words.now [] []) (choice_of pick) }
{
    match pick {
        Pick::Code(code) => code,
        Pick::Word(word) => words[word as usize],
        Pick::Next(word) => words[word as usize].wrapping_add(1),
    }
}

// The pick of the first case whose literal is true, else the other one.
#[tactic(auto, using(crate::proofs::RunLemmas::runs))]
fn chosen(cases: &[Case], other: Pick, bits: &[bool], words: &[u16]) -> u16
    requires cases { IsTrue (list_all (case_below (length bits.now) (length words.now)) (map case_of cases.now)) }
    requires other { IsTrue (choice_below (length words.now) (choice_of other)) }
    ensures { result ≡ chain_value (arrays words.now bits.now []) (map case_of cases.now) (choice_of other) }
{
    for case in cases {
        if holds(case.when, bits) {
            return picked(case.pick, words);
        }
    }
    picked(other, words)
}

// The value that a bit is given.
#[tactic(auto, using(crate::proofs::RunLemmas::runs))]
fn bit_value(value: &CValue, input: &Signals, bits: &[bool], words: &[u16]) -> bool
    requires { IsTrue (value_within (length input.now) (length words.now) (length bits.now) (value_of value.now)) }
    ensures { result ≡ bit_value input.now (arrays words.now bits.now []) (value_of value.now) }
{
    match value {
        CValue::Const(value) => *value,
        CValue::And(literals) => all_hold(literals, bits),
        CValue::Or(literals) => any_holds(literals, bits),
        CValue::Within { word, lo, hi } => {
            let code = words[*word as usize];
            *lo <= code && code <= *hi
        }
        CValue::Digit { word, place } => (words[*word as usize] >> *place) % 2 == 1,
        CValue::Input(number) => input.get(*number),
    }
}

// Does one statement.
#[tactic(auto, using(crate::proofs::RunLemmas::runs))]
fn run_statement(
    statement: &CStat,
    input: &Signals,
    words: &mut [u16],
    bits: &mut [bool],
    output: &mut Signals,
)
    requires { IsTrue (statement_within (length input.now) (length output.old) (length words.old) (length bits.old) (statement_of statement.now)) }
    ensures done { arrays words.new bits.new output.new ≡ done input.now (statement_of statement.now) (arrays words.old bits.old output.old) }
    ensures sized { length output.new ≡ length output.old }
{
    match statement {
        CStat::Bit { to, value } => bits[*to as usize] = bit_value(value, input, bits, words),
        CStat::Word { to, cases, other } => words[*to as usize] = chosen(
            cases, *other, bits, words,
        ),
        CStat::Out { to, bit } => output.set(*to, bits[*bit as usize]),
    }
}

/// Does the statements one after the other.
#[tactic(auto, using(crate::proofs::RunLemmas::runs))]
pub(crate) fn run_statements(
    statements: &[CStat],
    input: &Signals,
    words: &mut [u16],
    bits: &mut [bool],
    output: &mut Signals,
)
    requires { IsTrue (list_all (statement_within (length input.now) (length output.old) (length words.old) (length bits.old)) (map statement_of statements.now)) }
    ensures { arrays words.new bits.new output.new ≡ all_done input.now (map statement_of statements.now) (arrays words.old bits.old output.old) }
{
    for statement in statements {
        run_statement(statement, input, words, bits, output);
    }
}
