//! Acceptance: from modules to ordered equations that react exactly as they do.
//!
//! A module is accepted exactly where it is a program each of whose configurations has one reaction to each input (`argos_verdict`), and no
//! job of diagrams is too large. Locals that depend on themselves are solved (`cycle_solve`).
#![tactic(auto)]

mod acceptance;
mod accepted;
mod aspect;
mod laws;
mod line_bound;
mod sizes;
mod woven;

pub use acceptance::accept;
pub use accepted::Accepted;
pub use argos_aspects::{Advice, Seen};
pub use argos_verdict::AcceptError;
pub use aspect::Aspect;
pub use laws::{acyclic_modules_have_systems, one_line_bound, runs_are_traces};
pub use woven::Woven;
