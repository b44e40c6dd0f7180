//! Formulas on the memories of two programs: what they say, what a certificate's text says, and why it may say nothing.
#![tactic(auto)]

mod building;
mod cert;
mod checking;
mod faults;
mod holding;
pub mod laws;
mod places;
mod resolving;

pub use cert::{Cert, Side};
pub use holding::holds;
pub use resolving::{CertError, resolve};
