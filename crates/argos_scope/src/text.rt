//! From the bytes of a text to its module.
ghost use Rattle.std.specs.Prelude.{◌≡◌, ◌≤◌, length, IfOk, IfErr, MatchResult};
ghost use Rattle.argos_base.specs.Limits.{text_limit};
ghost use Rattle.argos_core.specs.ModuleViews.{module_of};
ghost use Rattle.argos_core.specs.Process.{PlainModule};
ghost use Rattle.argos_scope.specs.Meaning.{Means};
ghost use Rattle.argos_scope.specs.TextFaults.{TellsWhy};
ghost use Rattle.argos_scope.specs.declared.text.TextError.TheVariants as errors;

use crate::errors::ScopeError;
use crate::laws::one_meaning;
use crate::resolving::resolve;
use argos_core::Module;
use argos_grammar::programs_are_well_formed;
use argos_syntax::{ParseError, parse};
use std::alloc::Global;
use thiserror::Error;

/// Why a text means nothing. `OutOfMemory` never stands inside the others.
#[derive(Clone, Copy, Debug, PartialEq, Eq, Error)]
pub enum TextError {
    /// It is no text of the grammar: its first fault.
    #[error("{0:?}")]
    Parse(ParseError),
    /// Its components mean nothing: the name rule that is broken at the least place, else the first limit that is passed.
    #[error("{0}")]
    Scope(ScopeError),
    /// No memory was given.
    #[error("out of memory")]
    OutOfMemory,
}

impl From<ParseError> for TextError {
    ghost use Rattle.std.specs.Prelude.{◌≡◌};
    ghost use Rattle.argos_scope.specs.inner.TextErrors.{error_of_parse};

    ghost from_gives = { λ error e. e ≡ error_of_parse error };

    fn from(error: ParseError) -> TextError {
        match error {
            ParseError::OutOfMemory => TextError::OutOfMemory,
            _ => TextError::Parse(error),
        }
    }
}

impl From<ScopeError> for TextError {
    ghost use Rattle.std.specs.Prelude.{◌≡◌};
    ghost use Rattle.argos_scope.specs.inner.TextErrors.{error_of_scope};

    ghost from_gives = { λ error e. e ≡ error_of_scope error };

    fn from(error: ScopeError) -> TextError {
        match error {
            ScopeError::OutOfMemory => TextError::OutOfMemory,
            _ => TextError::Scope(error),
        }
    }
}

/// The module that a program's text of at most 1,048,576 bytes means. Errors tell why it means nothing: its first fault by the
/// grammar, `Parse`; of a text with a tree its scope fault, `Scope`; or that no memory was given: `OutOfMemory`.
pub fn resolve_text(alloc: Global, text: &[u8]) -> Result<Module, TextError>
    requires { length text.now ≤ text_limit }
    ensures means { IfOk result (λ m. Means text.now (module_of m)) }
    ensures why { IfErr result (TellsWhy text.now) }
    ensures exact { (p : PlainModule) → Means text.now p → MatchResult result (λ m. module_of m ≡ p) (λ e. e ≡ errors.OutOfMemory) }
{
    let program = parse(alloc, text)?;
    // so its components can be resolved
    programs_are_well_formed();
    // so a text that means a module means no other, and isn't refused
    one_meaning();
    Ok(resolve(alloc, &program.components)?)
}
