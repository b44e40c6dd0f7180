//! The trees of programs, aspects and certificates, why a text has none, and the laws of their grammar.
#![tactic(auto)]

mod errors;
mod fault_laws;
mod machine_laws;
mod print_laws;
mod tree_laws;
mod trees;

pub use errors::{ParseError, SyntaxKind};
pub use fault_laws::{
    aspects_have_no_fault, certificates_have_no_fault, one_first_fault, programs_have_no_fault,
};
pub use machine_laws::{aspects_are_taken, certificates_are_taken, programs_are_taken};
pub use print_laws::{aspects_read_back, certificates_read_back, programs_read_back};
pub use tree_laws::{
    aspects_are_well_formed, aspects_have_one_tree, certificates_are_well_formed,
    certificates_have_one_tree, programs_are_well_formed, programs_have_one_tree,
};
pub use trees::{
    AspectTree, CertNode, CertTree, ComponentTree, GuardTree, ProcessTree, ProgramTree, Spot,
    StateTree, TimedTree, TransTree,
};
