//! Reduced ordered decision diagrams of Boolean functions, in an arena with a budget of nodes.
//! Source: Bryant 1986.
#![tactic(auto)]

mod cache;
mod diagrams;
mod errors;
mod laws;
mod nodes;
mod operations;
mod table;
#[cfg(test)]
mod tests;
mod vectors;

pub use cache::{Choice, Operation, Restriction};
pub use diagrams::Arena;
pub use errors::{DdError, NewError};
pub use laws::equal_functions_have_equal_ids;
pub use nodes::{Node, NodeId};
