//! Overlapping transitions by diagrams: of each state of a module, whether two of its transitions can be taken on one set
//! of signals with different effects. Diagrams: Bryant 1986; the rest is this project's.
#![tactic(auto)]

mod drawing;
mod effects;
mod guards;
mod job;
mod reading;
mod search;
mod sets;
mod states;
#[cfg(test)]
mod tests;

pub use guards::guard_diagram;
pub use job::{StateOverlap, state_overlap};
pub use reading::read_signals;
pub use search::{OverlapFound, overlaps};
