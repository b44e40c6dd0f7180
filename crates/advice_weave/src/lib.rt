//! Weaving aspects into programs: the limit on lines, and the woven program behind it.
#![tactic(auto)]

mod needing;
mod weaving;

pub use weaving::{WeaveError, weave};
