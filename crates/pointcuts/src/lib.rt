//! Aspects over a program: from an aspect's tree to its observer, which is accepted, and its advice in numbers of the program's signals.
#![tactic(auto)]

mod base;
mod errors;
mod laws;
mod resolving;
mod told;

pub use errors::AspectError;
pub use laws::{aspects_fit, one_aspect_answer, some_aspect_answer};
pub use resolving::resolve_aspect;
