//! Weaving into ordered systems: the system of a base with an observer and an advice.
//!
//! `join_advice` lays the lines of the base, of the observer and of their copies along the advice's trace behind each other, and joins
//! them: at a join point the outputs and next words are the advice's. The lines are said as a function in `specs/WovenLines`, and the
//! laws tie it to the steps of the woven program.
#![tactic(auto)]

mod adding;
mod copying;
mod joining;
pub mod laws;
mod running;
#[cfg(test)]
mod tests;
mod together;
mod weaving;

pub use adding::join_advice;
