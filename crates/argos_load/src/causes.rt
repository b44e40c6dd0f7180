//! The causes of refusals, as texts.
ghost use Rattle.std.specs.Prelude.{◌≡◌, ◌++◌, IfOk, codes, decimal};
ghost use Rattle.eqn_file.specs.Errors.{kind_of};
ghost use Rattle.argos_load.specs.Reports as reports;
ghost use Rattle.argos_load.specs.Said as said;
ghost use Rattle.argos_load.specs.Reports.{aspect_cause};
ghost use Rattle.pointcuts.specs.Pointcuts.{outputs};
ghost use Rattle.argos_load.specs.inner.Causes.{IsCertCause, IsFaultCause, IsScopeCause, kind_word, which_word};

use argos_base::{Name, OutOfMemory};
use argos_scope::{ScopeError, Which};
use argos_syntax::{ParseError, SyntaxKind};
use bisim_formula::CertError;
use eqn_file::EqKind;
use itoa::Buffer;
use std::alloc::Global;

/// The first fault of a text, and its place.
pub(crate) fn fault_cause(alloc: Global, error: &ParseError) -> Result<Vec<u8>, OutOfMemory>
    ensures { IfOk result (IsFaultCause error.now) }
{
    match error {
        ParseError::NotUtf8 { at } => placed(alloc, b"not utf-8", *at),
        ParseError::Syntax { at, kind } => syntax_cause(alloc, *at, *kind),
        ParseError::TooDeep { at } => placed(alloc, b"too deep", *at),
        ParseError::OutOfMemory => Err(OutOfMemory),
    }
}

/// The broken name rule with its name and place, or the limit that is passed and what is reached there.
pub(crate) fn scope_cause(alloc: Global, error: &ScopeError) -> Result<Vec<u8>, OutOfMemory>
    ensures { IfOk result (IsScopeCause error.now) }
{
    match error {
        ScopeError::Unknown { name, at } => broken(alloc, b"unknown: ", name, *at),
        ScopeError::Duplicate { name, at } => broken(alloc, b"duplicate: ", name, *at),
        ScopeError::NotReadable { name, at } => broken(alloc, b"not readable: ", name, *at),
        ScopeError::NotEmittable { name, at } => broken(alloc, b"not emittable: ", name, *at),
        ScopeError::Arity { name, at } => broken(alloc, b"arity: ", name, *at),
        ScopeError::NotEarlier { name, at } => broken(alloc, b"not earlier: ", name, *at),
        ScopeError::NoInitial { name, at } => broken(alloc, b"no initial: ", name, *at),
        ScopeError::Limit { which, count } => passed(alloc, *which, *count),
        ScopeError::OutOfMemory => Err(OutOfMemory),
    }
}

/// A number of the certificate that isn't there, or a state's name that isn't, with its place.
pub(crate) fn cert_cause(alloc: Global, error: &CertError) -> Result<Vec<u8>, OutOfMemory>
    ensures { IfOk result (IsCertCause error.now) }
{
    match error {
        CertError::Number { number, at } => no_number(alloc, *number, *at),
        CertError::Unknown { name, at } => broken(alloc, b"unknown: ", name, *at),
        CertError::OutOfMemory => Err(OutOfMemory),
    }
}

/// The first bad line of an equation file, and what is wrong with it.
pub(crate) fn equation_cause(alloc: Global, at: u32, kind: EqKind) -> Result<Vec<u8>, OutOfMemory>
    ensures { IfOk result (λ text. text.items ≡ said.equation_cause at (kind_of kind)) }
{
    let mut digits = Buffer::new();
    let mut text = Vec::from_slice(alloc, b"line ")?;
    text.extend_from_slice(digits.format(at).as_bytes())?;
    text.extend_from_slice(b": ")?;
    text.extend_from_slice(equation_kind_word(kind))?;
    Ok(text)
}

/// The first line of a C file that isn't due.
pub(crate) fn c_cause(alloc: Global, at: u32) -> Result<Vec<u8>, OutOfMemory>
    ensures { IfOk result (λ text. text.items ≡ said.c_cause at) }
{
    let mut digits = Buffer::new();
    let mut text = Vec::from_slice(alloc, b"line ")?;
    text.extend_from_slice(digits.format(at).as_bytes())?;
    text.extend_from_slice(b": not of the subset")?;
    Ok(text)
}

/// An observer that has not one output, but so many.
pub(crate) fn outputs_cause(alloc: Global, count: u32) -> Result<Vec<u8>, OutOfMemory>
    ensures { IfOk result (λ text. text.items ≡ aspect_cause (outputs count)) }
{
    let mut digits = Buffer::new();
    let mut text = Vec::from_slice(alloc, b"observer has ")?;
    text.extend_from_slice(digits.format(count).as_bytes())?;
    text.extend_from_slice(b" outputs")?;
    Ok(text)
}

/// A woven program that needs so many lines.
pub(crate) fn lines_cause(alloc: Global, need: u64) -> Result<Vec<u8>, OutOfMemory>
    ensures { IfOk result (λ text. text.items ≡ reports.lines_cause need) }
{
    let mut digits = Buffer::new();
    let mut text = Vec::from_slice(alloc, b"limit lines: ")?;
    text.extend_from_slice(digits.format(need).as_bytes())?;
    Ok(text)
}

fn equation_kind_word(kind: EqKind) -> &'static [u8]
    ensures { result.now ≡ said.equation_kind_word (kind_of kind) }
{
    match kind {
        EqKind::Spelling => b"spelling",
        EqKind::Range => b"range",
        EqKind::Name => b"name",
        EqKind::After => b"after",
    }
}

fn syntax_cause(alloc: Global, at: u32, kind: SyntaxKind) -> Result<Vec<u8>, OutOfMemory>
    ensures { IfOk result (λ text. text.items ≡ (codes "syntax" ++ codes " at " ++ decimal at) ++ codes ": " ++ kind_word kind) }
{
    let mut text = placed(alloc, b"syntax", at)?;
    text.extend_from_slice(b": ")?;
    text.extend_from_slice(kind_word(kind))?;
    Ok(text)
}

// A name at which a rule is broken.
fn broken(alloc: Global, rule: &[u8], name: &Name, at: u32) -> Result<Vec<u8>, OutOfMemory>
    ensures { IfOk result (λ text. text.items ≡ (rule.now ++ name.now) ++ codes " at " ++ decimal at) }
{
    let mut text = Vec::from_slice(alloc, rule)?;
    text.extend_from_slice(name.bytes())?;
    placed(alloc, &text, at)
}

// A number that isn't there.
fn no_number(alloc: Global, number: u16, at: u32) -> Result<Vec<u8>, OutOfMemory>
    ensures { IfOk result (λ text. text.items ≡ (codes "no number " ++ decimal number) ++ codes " at " ++ decimal at) }
{
    let mut digits = Buffer::new();
    let mut text = Vec::from_slice(alloc, b"no number ")?;
    text.extend_from_slice(digits.format(number).as_bytes())?;
    placed(alloc, &text, at)
}

fn passed(alloc: Global, which: Which, count: u64) -> Result<Vec<u8>, OutOfMemory>
    ensures { IfOk result (λ text. text.items ≡ ((codes "limit " ++ which_word which) ++ codes ": ") ++ decimal count) }
{
    let mut digits = Buffer::new();
    let mut text = Vec::from_slice(alloc, b"limit ")?;
    text.extend_from_slice(which_word(which))?;
    text.extend_from_slice(b": ")?;
    text.extend_from_slice(digits.format(count).as_bytes())?;
    Ok(text)
}

// A text, and a place.
fn placed(alloc: Global, text: &[u8], at: u32) -> Result<Vec<u8>, OutOfMemory>
    ensures { IfOk result (λ placed. placed.items ≡ text.now ++ codes " at " ++ decimal at) }
{
    let mut digits = Buffer::new();
    let mut placed = Vec::from_slice(alloc, text)?;
    placed.extend_from_slice(b" at ")?;
    placed.extend_from_slice(digits.format(at).as_bytes())?;
    Ok(placed)
}

fn kind_word(kind: SyntaxKind) -> &'static [u8]
    ensures { result.now ≡ kind_word kind }
{
    match kind {
        SyntaxKind::Byte => b"byte",
        SyntaxKind::Token => b"token",
        SyntaxKind::End => b"end",
        SyntaxKind::Number => b"number",
        SyntaxKind::LongName => b"long name",
        SyntaxKind::Version => b"version",
    }
}

fn which_word(which: Which) -> &'static [u8]
    ensures { result.now ≡ which_word which }
{
    match which {
        Which::Signals => b"signals",
        Which::Automata => b"automata",
        Which::Codes => b"codes",
        Which::Depth => b"depth",
        Which::Size => b"size",
        Which::Trace => b"trace",
    }
}
