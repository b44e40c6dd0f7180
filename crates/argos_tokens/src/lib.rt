//! Texts as tokens: names, numbers and symbols, with their places.
#![tactic(auto)]

mod laws;
mod lexer;
mod token;

pub use laws::{no_tokens_of_a_stuck_text, one_list_of_tokens};
pub use lexer::tokens_of;
pub use token::{Token, Tokens};
