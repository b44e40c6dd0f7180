//! Example programs: as plain data in `specs/`, with laws on how they react, and the toggle as a value of the code.
#![tactic(auto)]

mod built;
pub mod good;
pub mod reactions;
#[cfg(test)]
mod tests;
pub mod traces;

pub use built::toggle;
