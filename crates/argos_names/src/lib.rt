//! The rules of names that components keep, and which is broken first.
#![tactic(auto)]

mod errors;
mod least;
mod rules;
mod scope;

pub use errors::{NameFault, NameRule};
pub use rules::check_names;
