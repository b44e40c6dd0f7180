//! Reading tokens as programs, aspects and certificates, one function a rule of the grammar.
#![tactic(auto)]

mod aspect;
mod cert;
mod formula;
mod guard;
mod lists;
mod number;
mod parser;
mod process;
mod program;
mod transition;

pub use aspect::read_aspect;
pub use cert::read_cert;
pub use parser::Stop;
pub use program::read_program;
