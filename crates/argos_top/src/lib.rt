//! The commands of argos: one call that does all that the program does.
#![tactic(auto)]

mod compile;
mod equiv;
mod laws;
mod lines;
mod reactor;
mod report;
mod run;
mod sample;
mod simulate;
mod status;
#[cfg(test)]
mod tests;

pub use laws::{one_due_answer, some_due_answer};
pub use run::argos_run;
pub use status::Status;
