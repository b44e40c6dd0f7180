//! Printing trees: their tokens with one space between two, and one LF at the end.
#![tactic(auto)]

mod formula;
mod guard;
mod printer;
mod printing;
mod process;

pub use printing::{print, print_aspect, print_cert};
