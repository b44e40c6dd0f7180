//! The equation scheme: which equations stand for a module, as a function from plain modules to plain equations, and its laws.
//!
//! The scheme has one bit for each signal, for each state that is current or live, and for each transition that fires, and one word for
//! each automaton. At the codes of a configuration its solutions are exactly the reactions of a module without overlapping transitions
//! (Maraninchi and Rémond 2001 for these). Nothing runs here: the builder of the next crate makes these equations.
#![tactic(auto)]

pub mod laws;
