//! Numbers among the words.
ghost use Rattle.std.specs.Prelude.{ℕ, MatchOption};
ghost use Rattle.argos_words.specs.Words.{IsNodes, IsCount};
ghost use Rattle.argos_words.specs.inner.Reading.{IsWithin};

use argos_base::{NODE_LIMIT, SAMPLE_LIMIT, is_digits, number_within};

/// The number of nodes that the text spells: one to eight digits, 2 to 16,777,216.
pub fn nodes_of(text: &str) -> Option<u32>
    ensures { MatchOption result ((n : ℕ) → ¬ (IsNodes text.now n)) (λ n. IsNodes text.now n) }
{
    let nodes = value_within(text.as_bytes(), 8, NODE_LIMIT)?;
    if nodes >= 2 { Some(nodes) } else { None }
}

/// The number of samples that the text spells: one or two digits, 1 to 60.
pub fn count_of(text: &str) -> Option<u8>
    ensures { MatchOption result ((n : ℕ) → ¬ (IsCount text.now n)) (λ n. IsCount text.now n) }
{
    let count = value_within(text.as_bytes(), 2, SAMPLE_LIMIT)?;
    if count >= 1 { Some(count as u8) } else { None }
}

// The number that the text spells, where it is so many digits at most, and so great at most.
fn value_within(text: &[u8], most_digits: usize, most: u32) -> Option<u32>
    ensures { MatchOption result ((n : ℕ) → ¬ (IsWithin text.now most_digits most n)) (λ n. IsWithin text.now most_digits most n) }
{
    if text.len() > most_digits || !is_digits(text) {
        return None;
    }
    number_within(text, most)
}
