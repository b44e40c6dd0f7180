//! The step function in C of an ordered system: its inputs, lines and outputs in order, and its registers last, so that each statement
//! reads the old value of a register.
#![tactic(auto)]

mod emit;
pub mod laws;
mod names;
mod statements;
#[cfg(test)]
mod tests;

pub use emit::c_of;
pub use names::copy_names;
