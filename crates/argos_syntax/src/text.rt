//! Trees from texts.
ghost use Rattle.std.specs.Prelude.{◌≡◌, ◌≤◌, List, Result, IfOk, IfErr, IsUtf8, MatchResult, length};
ghost use Rattle.argos_base.specs.Limits.{text_limit};
ghost use Rattle.argos_tokens.specs.TokenViews.{tokens_of, AreTokens};
ghost use Rattle.argos_grammar.specs.DueSymbols as due;
ghost use Rattle.argos_grammar.specs.Forms.{ProgramForm, AspectForm, CertForm};
ghost use Rattle.argos_grammar.specs.Refusals.{Tells};
ghost use Rattle.argos_grammar.specs.Text.{IsText, IsAspectText, IsCertText};
ghost use Rattle.argos_grammar.specs.Views.{program_of, aspect_of, cert_of};
ghost use Rattle.argos_grammar.specs.declared.errors.ParseError.TheVariants as errors;
ghost use Rattle.argos_syntax.specs.Parses as parses;

use argos_grammar::{
    AspectTree, CertTree, ParseError, ProgramTree, SyntaxKind, aspects_are_taken,
    aspects_have_one_tree, certificates_are_taken, certificates_have_one_tree, programs_are_taken,
    programs_have_one_tree,
};
use argos_parser::{Stop, read_aspect, read_cert, read_program};
use argos_tokens::{Tokens, tokens_of};
use std::alloc::Global;

/// The tree of a program's text of at most 1,048,576 bytes. Errors tell the first fault of the text: `NotUtf8`, `Syntax` or `TooDeep`, with its place in
/// bytes from 0; or that no memory was given: `OutOfMemory`.
#[tactic(auto, using(crate::proofs::Verdicts::verdicts))]
pub fn parse(alloc: Global, text: &[u8]) -> Result<ProgramTree, ParseError>
    requires { length text.now ≤ text_limit }
    ensures text { IfOk result (λ t. IsText text.now (program_of t)) }
    ensures fault { IfErr result (Tells due.program text.now) }
    ensures exact { (p : ProgramForm) → IsText text.now p → MatchResult result (λ t. program_of t ≡ p) (λ e. e ≡ errors.OutOfMemory) }
{
    let tokens = read(alloc, text)?;
    let program = read_program(alloc, tokens.tokens.as_slice());
    // so a text with a tree has no other, and isn't refused
    programs_have_one_tree();
    programs_are_taken();
    judged(text.len() as u32, tokens.stuck, program)
}

/// The tree of an aspect's text of at most 1,048,576 bytes. Errors are those of `parse`.
#[tactic(auto, using(crate::proofs::Verdicts::verdicts))]
pub fn parse_aspect(alloc: Global, text: &[u8]) -> Result<AspectTree, ParseError>
    requires { length text.now ≤ text_limit }
    ensures text { IfOk result (λ t. IsAspectText text.now (aspect_of t)) }
    ensures fault { IfErr result (Tells due.aspect text.now) }
    ensures exact { (a : AspectForm) → IsAspectText text.now a → MatchResult result (λ t. aspect_of t ≡ a) (λ e. e ≡ errors.OutOfMemory) }
{
    let tokens = read(alloc, text)?;
    let aspect = read_aspect(alloc, tokens.tokens.as_slice());
    // so a text with a tree has no other, and isn't refused
    aspects_have_one_tree();
    aspects_are_taken();
    judged(text.len() as u32, tokens.stuck, aspect)
}

/// The tree of a certificate's text of at most 1,048,576 bytes. Errors are those of `parse`.
#[tactic(auto, using(crate::proofs::Verdicts::verdicts))]
pub fn parse_cert(alloc: Global, text: &[u8]) -> Result<CertTree, ParseError>
    requires { length text.now ≤ text_limit }
    ensures text { IfOk result (λ t. IsCertText text.now (cert_of t)) }
    ensures fault { IfErr result (Tells due.cert text.now) }
    ensures exact { (c : CertForm) → IsCertText text.now c → MatchResult result (λ t. cert_of t ≡ c) (λ e. e ≡ errors.OutOfMemory) }
{
    let tokens = read(alloc, text)?;
    let cert = read_cert(alloc, tokens.tokens.as_slice());
    // so a text with a tree has no other, and isn't refused
    certificates_have_one_tree();
    certificates_are_taken();
    judged(text.len() as u32, tokens.stuck, cert)
}

// The tokens of a text, or why it is no text at all.
#[tactic(auto, using(crate::proofs::Verdicts::verdicts))]
fn read<'a>(alloc: Global, text: &'a [u8]) -> Result<Tokens<'a>, ParseError>
    requires { length text.now ≤ text_limit }
    ensures utf8 { IfOk result (λ _. IsUtf8 text.now) }
    ensures tokens { IfOk result (λ t. AreTokens text.now (tokens_of t.tokens.items) t.stuck) }
    ensures fault { IfErr result (λ e. (start : due.Rule) → Tells start text.now e) }
    ensures memory { IfErr result (λ e. IsUtf8 text.now → e ≡ errors.OutOfMemory) }
{
    if let Err(error) = str::from_utf8(text) {
        let at = error.valid_up_to() as u32;
        return Err(ParseError::NotUtf8 { at });
    }
    Ok(tokens_of(alloc, text)?)
}

// What the answer on the tokens says of a text of so many bytes, whose tokens end there or before a byte that begins none.
fn judged<T: Drop>(len: u32, stuck: Option<u32>, answer: Result<T, Stop>) -> Result<T, ParseError>
    ensures { result ≡ parses.judged len stuck answer }
{
    let tree = match answer {
        Ok(tree) => tree,
        Err(stop) => return Err(reported(len, stuck, stop)),
    };
    match stuck {
        Some(at) => {
            let kind = SyntaxKind::Byte;
            Err(ParseError::Syntax { at, kind })
        }
        None => Ok(tree),
    }
}

// A refusal in a text of so many bytes, whose tokens end there or before a byte that begins none.
fn reported(len: u32, stuck: Option<u32>, stop: Stop) -> ParseError
    ensures { result ≡ parses.report_of len stuck stop }
{
    match stop {
        Stop::Ended => match stuck {
            Some(at) => ParseError::Syntax {
                at,
                kind: SyntaxKind::Byte,
            },
            None => ParseError::Syntax {
                at: len,
                kind: SyntaxKind::End,
            },
        },
        Stop::Wrong { at, kind } => ParseError::Syntax { at, kind },
        Stop::TooDeep { at } => ParseError::TooDeep { at },
        Stop::OutOfMemory => ParseError::OutOfMemory,
    }
}
