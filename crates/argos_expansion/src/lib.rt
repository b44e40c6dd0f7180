//! The expansion of components into one process, with the limits on what it grows to.
#![tactic(auto)]

mod counts;
mod errors;
mod expander;
mod expansion;
mod first_names;
mod marks;
mod once;
mod placed;
mod places;
mod placing;
mod renaming;
mod rules;
mod scope;
mod state_names;

pub use errors::{ExpansionError, Which};
pub use expansion::{Expanded, expand};
