//! The verdict on a program: whether each configuration, reachable or not, has exactly one reaction to each input, else the first
//! overlap of two transitions, or the first case without exactly one reaction.
#![tactic(auto)]

mod judging;
mod laws;

pub use judging::{AcceptError, Sound, judge};
pub use laws::{one_decision, some_decision};
