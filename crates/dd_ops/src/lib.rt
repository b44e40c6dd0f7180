//! Operations on diagrams: variables set to a value or quantified, least valuations, and lists of nodes.
//! Source: Bryant 1986.
#![tactic(auto)]

mod listing;
mod quantifying;
mod reading;
mod restricting;
#[cfg(test)]
mod tests;

pub use listing::nodes;
pub use quantifying::exists;
pub use reading::least;
pub use restricting::restrict;
