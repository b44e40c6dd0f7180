//! Whether two programs are equivalent by a certificate: a formula over both memories that has to be a bisimulation. What is accepted
//! is equal under every list of aspects.
//!
//! All related memories and inputs are taken at once, as variables of diagrams (Bryant 1986); nothing enumerates pairs.
#![tactic(auto)]

mod certs;
mod checking;
mod comparing;
mod decoding;
mod diagrams;
mod formula;
mod found;
mod interfaces;
mod placing;
mod searching;

pub use certs::resolve_cert;
pub use checking::equiv;
pub use found::EquivFound;
