//! The states of the automata of a program, in the order of registers.
#![tactic(auto)]

mod walking;

pub use walking::automata_of;
