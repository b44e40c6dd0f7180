//! Numbers of texts.
ghost use Rattle.std.specs.Prelude.{◌≡◌, true, MatchOption};
ghost use Rattle.argos_base.specs.Spelling.{is_digits, number_of, Spells, has_leading_zero};
ghost use Rattle.argos_grammar.specs.Faults.{is_wrong_number};

use argos_base::{NUMBER_LIMIT, is_digits, number_within};

/// The number that these bytes spell, where they are digits that spell one of at most 65,535 without a leading zero.
pub fn numeral(text: &[u8]) -> Option<u16>
    ensures { MatchOption result (is_digits text.now ≡ true → is_wrong_number text.now ≡ true) (λ n. Spells n text.now) }
{
    if !is_digits(text) || has_leading_zero(text) {
        return None;
    }
    let value = number_within(text, NUMBER_LIMIT)?;
    Some(value as u16)
}

/// Digits that spell a number above 65,535, or several that begin with 0.
#[tactic(auto, using(argos_base::proofs::DigitLemmas::numbers))]
pub fn is_wrong_number(text: &[u8]) -> bool
    ensures { result ≡ is_wrong_number text.now }
{
    is_digits(text) && (has_leading_zero(text) || number_within(text, NUMBER_LIMIT).is_none())
}

// Several digits that begin with 0.
fn has_leading_zero(text: &[u8]) -> bool
    ensures { result ≡ has_leading_zero text.now }
{
    text.len() > 1 && text[0] == b'0'
}
