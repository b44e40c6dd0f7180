//! Programs with resolved names: what they are, what they mean, and how a configuration is written as a code.
//!
//! The meaning is said in `specs/` over plain data (`Process`, `Configuration`), and `Views` says what each type here stands for.
#![tactic(auto)]

mod codes;
mod configurations;
mod decoder;
mod guards;
pub mod laws;
mod layouts;
mod module;
mod prog;
mod signals;
#[cfg(test)]
mod tests;

pub use codes::encode;
pub use configurations::initial;
pub use decoder::decode;
pub use guards::{holds, reads};
pub use layouts::{Layout, Shape, layout_of};
pub use module::Module;
pub use prog::{Auto, Config, Guard, Prog, State, Timed, Trans};
pub use signals::{emit, lists};
