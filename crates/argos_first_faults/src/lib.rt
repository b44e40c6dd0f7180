//! Every text has a tree or a first fault, as a program, as an aspect and as a certificate.
//!
//! Each law gives one of the two for any bytes, whatever their length. That no text has both, and none has two trees or two first
//! faults, are laws of `argos_grammar`.
#![tactic(auto)]

pub mod laws;
