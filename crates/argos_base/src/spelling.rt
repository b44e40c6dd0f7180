//! How names are spelled.
ghost use Rattle.std.specs.Prelude.{◌≡◌, bytes_eq};
ghost use Rattle.std.specs.List.{list_all, list_any};
ghost use Rattle.argos_base.specs.Spelling as spelling;

use crate::limits::NAME_LIMIT;

/// The words of the language, which are no names.
const RESERVED_WORDS: [&[u8]; 33] = [
    b"argos",
    b"larissa",
    b"bisim",
    b"component",
    b"automaton",
    b"init",
    b"state",
    b"body",
    b"when",
    b"emit",
    b"goto",
    b"after",
    b"of",
    b"local",
    b"freeze",
    b"run",
    b"in",
    b"and",
    b"or",
    b"not",
    b"true",
    b"false",
    b"advice",
    b"toInit",
    b"toCurrent",
    b"toSaved",
    b"strict",
    b"relation",
    b"lhs",
    b"rhs",
    b"inactive",
    b"elapsed",
    b"samecode",
];

/// Whether a byte is a letter of `A` to `Z` or `a` to `z`, or `_`.
pub fn is_letter(byte: u8) -> bool
    ensures { result ≡ spelling.is_letter byte }
{
    matches!(byte, b'A'..=b'Z' | b'a'..=b'z' | b'_')
}

/// Whether a byte is a letter as above or a digit.
pub fn is_letter_or_digit(byte: u8) -> bool
    ensures { result ≡ spelling.is_letter_or_digit byte }
{
    is_letter(byte) || byte.is_ascii_digit()
}

/// Whether the bytes are a word of the language, which is no name.
pub fn is_reserved(bytes: &[u8]) -> bool
    ensures { result ≡ spelling.is_reserved bytes.now }
{
    is_one_of(&RESERVED_WORDS, bytes)
}

// Whether the bytes are one of these words.
fn is_one_of(words: &[&[u8]], bytes: &[u8]) -> bool
    ensures { result ≡ list_any (λ word. bytes_eq bytes.now word.now) words.now }
{
    words.iter().any(|word| bytes == *word)
}

/// Whether the bytes spell a name: a letter, and letters and digits after it, at most 64 in all, and no reserved word.
pub fn is_name(bytes: &[u8]) -> bool
    ensures { result ≡ spelling.is_name bytes.now }
{
    is_word(bytes) && !is_reserved(bytes) && bytes.len() <= NAME_LIMIT
}

// A letter, and letters and digits after it.
fn is_word(bytes: &[u8]) -> bool
    ensures { result ≡ spelling.is_word bytes.now }
{
    match bytes.split_first() {
        Some((first, rest)) => is_letter(*first) && are_letters_or_digits(rest),
        None => false,
    }
}

// Each byte is a letter or a digit.
fn are_letters_or_digits(bytes: &[u8]) -> bool
    ensures { result ≡ list_all spelling.is_letter_or_digit bytes.now }
{
    bytes.iter().all(|b| is_letter_or_digit(*b))
}
