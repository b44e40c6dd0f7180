//! What a system of equations denotes, as diagrams.
//!
//! `place_vars` numbers the variables of an arena that stand for the registers, inputs and cyclic bits of
//! a system. `diagrams_of` makes the diagrams of all bits and words of a system; `within` and `structural`
//! make those of a word within a range and of the memories that fit a layout. What each call leaves of the
//! arena, and how many nodes it may add, is said in one way (`AddsAtMost`, `HasNoRoom`).
#![tactic(auto)]

mod diagrams;
mod errors;
mod jobs;
pub mod laws;
mod lines;
mod places;
mod ranges;
mod registers;
mod structure;
mod table;
#[cfg(test)]
mod tests;
mod words;

pub use diagrams::{Diagrams, diagrams_of};
pub use errors::CheckError;
pub use jobs::job_arena;
pub use places::{Places, place_vars};
pub use ranges::within;
pub use structure::structural;
