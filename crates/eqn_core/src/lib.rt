//! Equation systems over bits and words, their one solution, and the stepper that runs them.
//!
//! A system has inputs, registers, and lines of which each defines one bit or one word. A solution gives every bit and word a value
//! that makes each line true. In an `Ordered` system each line reads inputs, registers and earlier lines alone, so it has exactly one
//! solution at each memory and input, and a `Stepper` finds it by going along the lines once.
#![tactic(auto)]

mod copies;
pub mod laws;
mod order;
mod ordered;
mod stepper;
mod system;
#[cfg(test)]
mod tests;
mod values;
mod weights;

pub use order::count_words;
pub use ordered::Ordered;
pub use stepper::Stepper;
pub use system::{Case, Line, Lit, Pick, Plan, System};
pub use weights::weight;
