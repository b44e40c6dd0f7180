//! What the line-by-line file formats share: what a format is and what holds of every one, cutting bytes into lines and words, and
//! numbers in decimal.
//!
//! A format says which lines are due after the lines so far, what is wrong with one that is due, and when nothing more is. Where due
//! lines are clear (their bytes have no LF and tell what they say), a file says one thing and begins no other, and all other bytes have
//! exactly one first bad line.
#![tactic(auto)]

mod cutting;
mod decimals;
pub mod laws;
mod reader;
#[cfg(test)]
mod tests;

pub use cutting::cut;
pub use decimals::{push_number, read_number};
pub use reader::LineReader;
