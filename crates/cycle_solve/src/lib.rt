//! Systems of equations whose cycles are solved.
//!
//! Where a system reacts once at each memory that fits a layout and to each input, `solve` puts it in
//! order. Its cyclic bits are computed from register bits and inputs alone, by lines that follow the
//! diagrams of the least solution, and the other lines come behind them in the order of the plan.
//! Diagrams: Bryant 1986; the rest is this project's.
#![tactic(auto)]

mod branches;
mod digits;
mod listing;
mod roots;
mod solving;
mod system;
#[cfg(test)]
mod tests;

pub use solving::solve;
