//! What the equations of a system say where its cyclic bits are taken as given, and what becomes of them where its lines are moved.
//!
//! A completion gives each bit and each word the value of its line, where given values are read in place of the cyclic bits. With a
//! plan there is exactly one, and the solutions are the completions whose cyclic bits have the values that were given. A system
//! without cyclic bits can be put into the order of its plan (`Sorted`), and keeps its reactions. Nothing runs here.
#![tactic(auto)]

pub mod laws;
