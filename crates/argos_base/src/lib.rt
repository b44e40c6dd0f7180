//! The ground of every other crate: names, sets of signals, and what is asked of the outside.
//!
//! A `Shelf` gives files, a `Source` gives bytes, a `Sink` takes them. What such a device holds it may tell or not, and clauses
//! on content hold where it is told. Each counts its faults, and answers a failure only where that count rose.
#![tactic(auto)]

#[cfg(test)]
mod adapter_tests;
mod adapters;
mod failing;
mod fakes;
mod limits;
mod name;
mod names;
mod numbers;
mod out_of_memory;
mod outside;
mod shelf;
mod signals;
mod spelling;
mod sure;
#[cfg(test)]
mod tests;

pub use adapters::{FileShelf, StdinSource, StdoutSink};
pub use failing::{MemShelf, MemSink, MemSource};
pub use limits::{
    ADVICE_SET_LIMIT, ASPECT_LIMIT, AUTOMATON_LIMIT, CODE_LIMIT, DEPTH_LIMIT, LEVEL_LIMIT,
    LINE_LIMIT, NAME_LIMIT, NODE_LIMIT, NUMBER_LIMIT, PLAN_LINE_LIMIT, REGISTER_LIMIT,
    SAMPLE_LIMIT, SIGNAL_LIMIT, SIZE_LIMIT, TEXT_LIMIT, TRACE_LINE_LIMIT, USUAL_NODES,
    VARIABLE_LIMIT, WOVEN_LINE_LIMIT,
};
pub use name::{Name, NameError};
pub use names::{AddError, NameTable, Names};
pub use numbers::{is_digits, number_within};
pub use out_of_memory::OutOfMemory;
pub use outside::{Failed, Sink, Source};
pub use shelf::{LoadError, Shelf};
pub use signals::{RegId, SigId, Signals};
pub use spelling::{is_letter, is_letter_or_digit, is_name, is_reserved};
pub use sure::{SureShelf, SureSink, SureSource};
