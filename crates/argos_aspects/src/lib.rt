//! Aspects over programs, and what a program woven with them means.
//!
//! An aspect watches a base by an observer, and at the observer's join points its advice replaces the base's reaction. The meaning is
//! said in `specs/` over plain data (`Aspects`, `Weaving`), and `Views` says what the types here stand for.
#![tactic(auto)]

mod aspect;
pub mod laws;

pub use aspect::{Advice, Seen};
