//! The step function in C, in a small part of C: as data, what it does, and its text.
//!
//! A step has two arrays, of words and of bits, and statements that run one after the other, each of which replaces one value. The first
//! words are registers: they keep their values to the next step. A text says one step and begins no other. All other bytes have exactly one
//! first line that isn't due, and reading them tells it.
#![tactic(auto)]

mod draft;
mod errors;
mod head_lines;
pub mod laws;
mod pieces;
mod reading;
mod run;
mod running;
mod scope;
mod statement_lines;
mod statements;
mod step;
#[cfg(test)]
mod tests;
mod writing;

pub use errors::CError;
pub use reading::read_c;
pub use run::CRun;
pub use statements::{CStat, CValue};
pub use step::CStep;
pub use writing::print_c;
