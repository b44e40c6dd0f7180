//! What components mean: the module of the last of them, or why there is none.
#![tactic(auto)]

mod errors;
mod laws;
mod resolving;
mod tables;
#[cfg(test)]
mod tests;
mod text;

pub use argos_expansion::Which;
pub use errors::ScopeError;
pub use laws::{
    one_meaning, one_rule_is_broken_at_a_place, one_scope_fault, resolved_modules_are_kept,
};
pub use resolving::resolve;
pub use text::{TextError, resolve_text};
