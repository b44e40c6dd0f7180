//! The sample: a chain of automata, each of which hands on every second signal that it hears.
//!
//! `sample_text` gives the program as a text, `emitted` how many of 4,096 instants emit its output. The text takes the way of every
//! other text: it is parsed, resolved, accepted, and its equations react.
#![tactic(auto)]

pub mod laws;
mod reacting;
#[cfg(test)]
mod tests;
mod text;

pub use laws::{samples_are_good, samples_are_modules, samples_are_short, samples_emit_one_number};
pub use reacting::emitted;
pub use text::sample_text;
