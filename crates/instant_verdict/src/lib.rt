//! The verdict on one reaction: whether a system of equations reacts exactly once at each memory that fits a layout and to each input,
//! reachable or not; else the first bad case, with what there is in it.
//!
//! All memories, inputs and values of the cyclic bits are taken at once, as variables of diagrams (Bryant 1986); nothing enumerates
//! them. Where nothing is cyclic, no diagram is made.
#![tactic(auto)]

mod checking;
mod decoding;
mod reactions;
mod searching;

pub use checking::instant;
pub use reactions::{Reaction, Verdict};
