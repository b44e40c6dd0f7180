//! The reports of modules that aren't accepted: overlaps, cases without exactly one reaction, and jobs with too many variables or no
//! room. Also the texts of an equivalence that is refused.
#![tactic(auto)]

mod differences;
mod laws;
mod reports;
mod sets;
mod states;
#[cfg(test)]
mod tests;
mod texts;

pub use differences::{left_by_step_text, outputs_differ_text};
pub use laws::{off_is_told, states_are_told};
pub use reports::report_text;
