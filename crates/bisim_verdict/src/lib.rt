//! What a check for equivalence by a certificate has to answer, and how functions of both programs' variables decide it. Laws, and
//! nothing in it runs.
#![tactic(auto)]

pub mod laws;
