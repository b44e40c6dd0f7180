//! Equation files: an ordered system and the names of its inputs and outputs, line by line in one spelling.
//!
//! A text says one system and begins no other. All other bytes have exactly one first bad line, and reading them tells it.
#![tactic(auto)]

mod due;
mod errors;
mod keywords;
pub mod laws;
mod parts;
mod reading;
mod system_lines;
#[cfg(test)]
mod tests;
mod words;
mod writing;

pub use errors::{EqError, EqKind};
pub use reading::read_equations;
pub use writing::write_equations;
