//! The words of a line, and the set that they name.
ghost use Rattle.std.specs.Prelude.{◌≡◌, ◌==◌, ◌<◌, ℕ, List, [], ◌∷◌, ◌++◌, length, Ok, Err, IfSome, MatchOption, MatchResult, nat_lt};
ghost use Rattle.std.specs.List.{list_all};
ghost use Rattle.argos_base.specs.Names.{IsTable};
ghost use Rattle.argos_base.specs.Spelling.{is_name, is_one_of};
ghost use Rattle.trace_io.specs.Lines as plain;
ghost use Rattle.trace_io.specs.Lines.{words_of, set_of, of_words};
ghost use Rattle.trace_io.specs.Whole.{kind_of};

use crate::cut::cut;
use crate::errors::LineKind;
use argos_base::{NameTable, Signals, is_name};

/// Reads the set that a line names: a dash, or names of the table with spaces between them. Where it names none, the set stays.
#[tactic(auto, using(crate::proofs::WordSets::sets))]
pub fn read_words(line: &[u8], names: &NameTable, set: &mut Signals) -> Result<(), LineKind>
    requires { length set.old ≡ length names.now }
    ensures set { MatchResult result (λ _. of_words names.now (words_of line.now) ≡ Ok set.new) (λ kind. of_words names.now (words_of line.now) ≡ Err (kind_of kind)) }
    ensures kept { (kind : _) → result ≡ Err kind → set.new ≡ set.old }
    ensures sized { length set.new ≡ length names.now }
{
    let has_places = set.len() == names.len();
    prove!(has_places);
    if is_dash(line) {
        set.clear();
        return Ok(());
    }
    if !has_words(line) || !are_names(line) {
        return Err(LineKind::Spelling);
    }
    if !are_known(line, names) {
        return Err(LineKind::Unknown);
    }
    set.clear();
    add_words(line, names, set);
    Ok(())
}

// The first word of a line, and what stands behind it.
#[tactic(auto, using(crate::proofs::WordLists::words))]
fn next_word(line: &[u8]) -> Option<(&[u8], &[u8])>
    ensures word { MatchOption result (words_of line.now ≡ []) (λ w. words_of line.now ≡ w.0.now ∷ words_of w.1.now) }
    ensures shorter { IfSome result (λ w. length w.1.now < length line.now) }
{
    let mut left = line;
    while !left.is_empty() {
        let (word, rest) = cut(left, b' ');
        let rest = rest.unwrap_or(&[]);
        if !word.is_empty() {
            return Some((word, rest));
        }
        left = rest;
    }
    None
}

fn has_words(line: &[u8]) -> bool
    ensures { result ≡ nat_lt 0 (length (words_of line.now)) }
{
    next_word(line).is_some()
}

fn is_dash(line: &[u8]) -> bool
    ensures { result ≡ plain.is_dash (words_of line.now) }
{
    match next_word(line) {
        Some((word, rest)) => word == b"-".as_slice() && !has_words(rest),
        None => false,
    }
}

#[tactic(auto, using(crate::proofs::WordLists::words))]
fn are_names(line: &[u8]) -> bool
    ensures { result ≡ list_all is_name (words_of line.now) }
{
    let mut left = line;
    while let Some((word, rest)) = next_word(left) {
        if !is_name(word) {
            return false;
        }
        left = rest;
    }
    true
}

#[tactic(auto, using(crate::proofs::WordLists::words))]
fn are_known(line: &[u8], names: &NameTable) -> bool
    ensures { result ≡ list_all (is_one_of names.now) (words_of line.now) }
{
    let mut left = line;
    while let Some((word, rest)) = next_word(left) {
        if !is_known(word, names) {
            return false;
        }
        left = rest;
    }
    true
}

#[tactic(auto, using(crate::proofs::WordSets::sets))]
fn is_known(word: &[u8], names: &NameTable) -> bool
    ensures { result ≡ is_one_of names.now word.now }
{
    names.find(word).is_some()
}

// Adds the names of a line to a set without any.
#[tactic(auto, using(crate::proofs::WordLists::words))]
fn add_words(line: &[u8], names: &NameTable, set: &mut Signals)
    requires table { IsTable names.now }
    requires none { set.old ≡ set_of names.now [] }
    ensures { set.new ≡ set_of names.now (words_of line.now) }
{
    let mut left = line;
    while let Some((word, rest)) = next_word(left) {
        add_word(word, names, set);
        left = rest;
    }
}

// Adds the name, where it is one of the table.
#[tactic(auto, using(crate::proofs::WordSets::sets))]
fn add_word(word: &[u8], names: &NameTable, set: &mut Signals)
    requires table { IsTable names.now }
    requires places { length set.old ≡ length names.now }
    ensures { (seen : List (List ℕ)) → set.old ≡ set_of names.now seen → set.new ≡ set_of names.now (seen ++ word.now ∷ []) }
{
    if let Some(signal) = names.find(word) {
        set.set(signal.0, true);
    }
}
