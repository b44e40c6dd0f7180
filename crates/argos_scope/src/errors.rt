ghost use Rattle.std.specs.Prelude.{◌≡◌};
ghost use Rattle.argos_scope.specs.inner.Joined.{error_at};

use argos_base::{Name, OutOfMemory};
use argos_expansion::{ExpansionError, Which};
use argos_names::{NameFault, NameRule};
use std::fmt;
use thiserror::Error;

/// Why components mean nothing. A name rule is broken at the place of a name, counted in bytes from 0.
#[derive(Clone, Copy, Debug, PartialEq, Eq, Error)]
pub enum ScopeError {
    /// A name that stands for nothing here.
    #[error("unknown: {shown} at {at}", shown = Shown(.name))]
    Unknown { name: Name, at: u32 },
    /// A name that stands for something already.
    #[error("duplicate: {shown} at {at}", shown = Shown(.name))]
    Duplicate { name: Name, at: u32 },
    /// An output that is read.
    #[error("not readable: {shown} at {at}", shown = Shown(.name))]
    NotReadable { name: Name, at: u32 },
    /// An input that is emitted.
    #[error("not emittable: {shown} at {at}", shown = Shown(.name))]
    NotEmittable { name: Name, at: u32 },
    /// A component that is run with a wrong number of inputs or outputs.
    #[error("arity: {shown} at {at}", shown = Shown(.name))]
    Arity { name: Name, at: u32 },
    /// A component that is run and doesn't stand before.
    #[error("not earlier: {shown} at {at}", shown = Shown(.name))]
    NotEarlier { name: Name, at: u32 },
    /// An initial state that is none of the states.
    #[error("no initial: {shown} at {at}", shown = Shown(.name))]
    NoInitial { name: Name, at: u32 },
    /// The main component grows past a limit, with the number that is reached there.
    #[error("limit {which:?}: {count}")]
    Limit { which: Which, count: u64 },
    /// No memory was given.
    #[error("out of memory")]
    OutOfMemory,
}

// A name as it is written.
#[derive(Clone, Copy)]
struct Shown<'a>(&'a Name);

impl fmt::Display for Shown<'_> {
    fn fmt<W: fmt::Write>(&self, f: &mut fmt::Formatter<W>) -> fmt::Result {
        match str::from_utf8(self.0.bytes()) {
            Ok(text) => f.write_str(text),
            Err(_) => Ok(()),
        }
    }
}

impl From<NameFault> for ScopeError {
    ghost use Rattle.std.specs.Prelude.{◌≡◌};
    ghost use Rattle.argos_scope.specs.inner.Joined.{error_of_fault};

    ghost from_gives = { λ fault e. e ≡ error_of_fault fault };

    fn from(fault: NameFault) -> ScopeError {
        match fault {
            NameFault::Broken { rule, name, at } => broken(rule, name, at),
            NameFault::OutOfMemory => ScopeError::OutOfMemory,
        }
    }
}

fn broken(rule: NameRule, name: Name, at: u32) -> ScopeError
    ensures { result ≡ error_at rule name at }
{
    match rule {
        NameRule::Unknown => ScopeError::Unknown { name, at },
        NameRule::Duplicate => ScopeError::Duplicate { name, at },
        NameRule::NotReadable => ScopeError::NotReadable { name, at },
        NameRule::NotEmittable => ScopeError::NotEmittable { name, at },
        NameRule::Arity => ScopeError::Arity { name, at },
        NameRule::NotEarlier => ScopeError::NotEarlier { name, at },
        NameRule::NoInitial => ScopeError::NoInitial { name, at },
    }
}

impl From<ExpansionError> for ScopeError {
    ghost use Rattle.std.specs.Prelude.{◌≡◌};
    ghost use Rattle.argos_scope.specs.inner.Joined.{error_of_limit};

    ghost from_gives = { λ error e. e ≡ error_of_limit error };

    fn from(error: ExpansionError) -> ScopeError {
        match error {
            ExpansionError::Limit { which, count } => ScopeError::Limit { which, count },
            ExpansionError::OutOfMemory => ScopeError::OutOfMemory,
        }
    }
}

impl From<OutOfMemory> for ScopeError {
    ghost use Rattle.std.specs.Prelude.{◌≡◌};
    ghost use Rattle.argos_scope.specs.declared.errors.ScopeError.TheVariants as errors;

    ghost from_gives = { λ _ e. e ≡ errors.OutOfMemory };

    fn from(_error: OutOfMemory) -> ScopeError {
        ScopeError::OutOfMemory
    }
}
