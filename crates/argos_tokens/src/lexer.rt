//! Reading a text as tokens.
ghost use Rattle.std.specs.Prelude.{◌≡◌, ◌≤◌, ◌∷◌, [], ◌==◌, length, false, not, IfOk, MatchOption};
ghost use Rattle.argos_base.specs.Limits.{text_limit};
ghost use Rattle.std.specs.List.{prefix_len};
ghost use Rattle.std.specs.Char as char;
ghost use Rattle.argos_base.specs.Spelling as spelling;
ghost use Rattle.argos_base.specs.Spelling.{is_one_of};
ghost use Rattle.argos_tokens.specs.Tokens.{symbols, is_blank, begins_blank};
ghost use Rattle.argos_tokens.specs.TokenViews.{tokens_of, AreTokens};
ghost use Rattle.argos_tokens.specs.Lexing.{SkipsTo, IsSolid, IsBehindLine, IsFront, BeginsNone};

use crate::token::{Token, Tokens};
use argos_base::{OutOfMemory, is_letter, is_letter_or_digit};
use std::alloc::Global;

/// The tokens of a text in order, or those before a byte that begins none.
#[tactic(auto, using(crate::proofs::Readings::readings))]
pub fn tokens_of<'a>(alloc: Global, text: &'a [u8]) -> Result<Tokens<'a>, OutOfMemory>
    requires { length text.now ≤ text_limit }
    ensures { IfOk result (λ t. AreTokens text.now (tokens_of t.tokens.items) t.stuck) }
{
    let mut tokens = Vec::new(alloc);
    let mut rest = after_separators(text);
    while !rest.is_empty() {
        let at = (text.len() - rest.len()) as u32;
        let Some(len) = token_len(rest) else {
            return Ok(Tokens {
                tokens,
                stuck: Some(at),
            });
        };
        let (token, after) = rest.split_at(len);
        tokens.push(Token { text: token, at })?;
        rest = after_separators(after);
    }
    Ok(Tokens {
        tokens,
        stuck: None,
    })
}

// What stands behind the blanks and comments at the front.
#[tactic(auto, using(crate::proofs::Separators::separators))]
fn after_separators(bytes: &[u8]) -> &[u8]
    ensures skipped { SkipsTo bytes.now result.now }
    ensures within { length result.now ≤ length bytes.now }
    ensures solid { IsSolid result.now }
{
    let mut rest = after_blanks(bytes);
    while let Some(comment) = rest.strip_prefix(b"//") {
        rest = after_blanks(after_line(comment));
    }
    rest
}

// What stands behind the blanks at the front.
#[tactic(auto, using(crate::proofs::Separators::separators))]
fn after_blanks(bytes: &[u8]) -> &[u8]
    ensures skipped { SkipsTo bytes.now result.now }
    ensures within { length result.now ≤ length bytes.now }
    ensures solid { begins_blank result.now ≡ false }
{
    let (_blanks, rest) = bytes.split_at(blanks_len(bytes));
    rest
}

// What stands from the first LF on.
#[tactic(auto, using(crate::proofs::Separators::separators))]
fn after_line(bytes: &[u8]) -> &[u8]
    ensures behind { IsBehindLine bytes.now result.now }
    ensures within { length result.now ≤ length bytes.now }
{
    let (_line, rest) = bytes.split_at(line_len(bytes));
    rest
}

// How many bytes the token at the front has, if one begins there.
#[tactic(auto, using(crate::proofs::TokenFronts::fronts))]
fn token_len(bytes: &[u8]) -> Option<usize>
    ensures { MatchOption result (BeginsNone bytes.now) (λ n. IsFront n bytes.now) }
{
    let (first, rest) = bytes.split_first()?;
    if is_letter(*first) {
        Some(word_len(rest) + 1)
    } else if first.is_ascii_digit() {
        Some(digits_len(rest) + 1)
    } else {
        symbol_len(*first, rest)
    }
}

// How many bytes the symbol of this byte and bytes behind it has, if there is one.
fn symbol_len(first: u8, rest: &[u8]) -> Option<usize>
    requires no_letter { spelling.is_letter first ≡ false }
    requires no_digit { char.is_ascii_digit first ≡ false }
    ensures { MatchOption result (BeginsNone (first ∷ rest.now)) (λ n. IsFront n (first ∷ rest.now)) }
{
    if is_symbol(first) {
        return Some(1);
    }
    match rest.first() {
        Some(second) if is_double_symbol(first, *second) => Some(2),
        _ => None,
    }
}

// Whether the byte is a symbol.
fn is_symbol(byte: u8) -> bool
    ensures { result ≡ is_one_of symbols (byte ∷ []) }
{
    matches!(byte, b'(' | b')' | b'{' | b'}' | b'[' | b']' | b',' | b';')
}

// Whether the two bytes are a symbol.
fn is_double_symbol(first: u8, second: u8) -> bool
    ensures { result ≡ is_one_of symbols (first ∷ second ∷ []) }
{
    matches!((first, second), (b'-', b'>') | (b'|', b'|'))
}

// How many letters and digits stand at the front.
fn word_len(bytes: &[u8]) -> usize
    ensures { result ≡ prefix_len spelling.is_letter_or_digit bytes.now }
{
    bytes.iter().take_while(|b| is_letter_or_digit(**b)).count()
}

// How many digits stand at the front.
fn digits_len(bytes: &[u8]) -> usize
    ensures { result ≡ prefix_len char.is_ascii_digit bytes.now }
{
    bytes.iter().take_while(|b| b.is_ascii_digit()).count()
}

// How many blanks stand at the front.
fn blanks_len(bytes: &[u8]) -> usize
    ensures { result ≡ prefix_len is_blank bytes.now }
{
    bytes
        .iter()
        .take_while(|b| matches!(**b, b' ' | b'\t' | b'\r' | b'\n'))
        .count()
}

// How many bytes stand before the first LF.
fn line_len(bytes: &[u8]) -> usize
    ensures { result ≡ prefix_len (λ b. not (b == 10)) bytes.now }
{
    bytes.iter().take_while(|b| **b != b'\n').count()
}

#[cfg(test)]
mod tests {
    use super::tokens_of;
    use argos_base::TEXT_LIMIT;
    use std::alloc::Global;
    use std::process::Abort;
    use std::test::Fail;

    // The place and the length of each token, and the place where a byte begins none.
    fn expect_tokens(
        rt: &impl Abort,
        alloc: Global,
        text: &[u8],
        tokens: &[(u32, usize)],
        stuck: Option<u32>,
    ) -> Result<(), Fail> {
        assert!(rt; text.len() <= TEXT_LIMIT);
        let read = tokens_of(alloc, text)?;
        assert_eq!(rt; read.stuck, stuck, "{text:?}");
        assert_eq!(rt; read.tokens.len(), tokens.len(), "{text:?}");
        for (token, (at, len)) in read.tokens.iter().zip(tokens) {
            assert_eq!(rt; token.at, *at, "{text:?}");
            assert_eq!(rt; token.text.len(), *len, "{text:?}");
        }
        Ok(())
    }

    #[test]
    fn short_texts(rt: HostRuntime) -> Result<(), Fail> {
        let alloc = rt.alloc();
        expect_tokens(&rt, alloc, b"", &[], None)?;
        expect_tokens(&rt, alloc, b"_b1 when", &[(0, 3), (4, 4)], None)?;
        expect_tokens(&rt, alloc, b"12ab", &[(0, 2), (2, 2)], None)?;
        expect_tokens(&rt, alloc, b"a->||", &[(0, 1), (1, 2), (3, 2)], None)?;
        expect_tokens(&rt, alloc, b"(|", &[(0, 1)], Some(1))?;
        expect_tokens(&rt, alloc, b"a -", &[(0, 1)], Some(2))?;
        expect_tokens(&rt, alloc, b" \t\r\n;]", &[(4, 1), (5, 1)], None)?;
        expect_tokens(&rt, alloc, b"a // - b\nc", &[(0, 1), (9, 1)], None)?;
        expect_tokens(&rt, alloc, b"a//b", &[(0, 1)], None)?;
        expect_tokens(&rt, alloc, b"a/b", &[(0, 1)], Some(1))
    }

    #[test]
    fn longest_texts(rt: HostRuntime) -> Result<(), Fail> {
        let alloc = rt.alloc();
        let mut text = vec![in alloc; b'('; TEXT_LIMIT]?;
        let brackets = tokens_of(alloc, &text)?.tokens.len();
        assert_eq!(rt; brackets, TEXT_LIMIT);
        text.fill(b'a');
        expect_tokens(&rt, alloc, &text, &[(0, TEXT_LIMIT)], None)?;
        text.fill(b'/');
        expect_tokens(&rt, alloc, &text, &[], None)
    }
}
