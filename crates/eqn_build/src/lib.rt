//! The builder of equations: from a module to a system of equations over bits and words.
//!
//! It follows the equation scheme line by line, in time linear in the size of the module: each fire is pushed once onto the list of its
//! target and of each signal that it emits.
#![tactic(auto)]

mod builder;
mod building;
mod guards;
mod processes;
mod registers;
mod states;
mod tables;

pub use building::equations;
