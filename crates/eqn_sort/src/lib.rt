//! Systems whose lines are moved into the order of a plan, and the ordered system that this makes where no bit is cyclic.
//!
//! A line that is moved gets the next free number for the bit or the word that it defines, and reads under the numbers that earlier
//! lines got, which stand in two tables. Time and memory are linear in the weight of the system.
#![tactic(auto)]

mod lines;
mod moving;
mod sorting;
mod tables;
#[cfg(test)]
mod tests;

pub use moving::move_lines;
pub use sorting::sort;
pub use tables::Tables;
