//! Traces: the bytes that a source gives as the sets of its lines, and the lines of output sets.
#![tactic(auto)]

mod cut;
mod errors;
mod push;
#[cfg(test)]
mod tests;
mod whole;
mod words;
mod writer;

pub use errors::{LineKind, TraceError};
pub use push::push_all;
pub use whole::WholeTrace;
pub use writer::{LineWriter, WriteFault};
