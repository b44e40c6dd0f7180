//! Texts of programs, aspects and certificates, and their trees.
#![tactic(auto)]

#[cfg(test)]
mod print_tests;
#[cfg(test)]
mod tests;
mod text;

pub use argos_grammar::{
    AspectTree, CertNode, CertTree, ComponentTree, GuardTree, ParseError, ProcessTree, ProgramTree,
    Spot, StateTree, SyntaxKind, TimedTree, TransTree,
};
pub use argos_printer::{print, print_aspect, print_cert};
pub use text::{parse, parse_aspect, parse_cert};
