//! The words of the command line, read as a command.
#![tactic(auto)]

mod command;
mod laws;
mod number;
mod options;
mod parts;
mod read;
mod simple;
#[cfg(test)]
mod tests;

pub use command::{Command, Target, WordsError};
pub use laws::one_command;
pub use read::read_words;
