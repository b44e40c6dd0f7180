//! From diagrams to the verdict on one reaction, and to a system without cyclic bits: what the functions of register bits, inputs and
//! cyclic bits say of a system, as laws.
//!
//! Such functions say which memories fit a layout, where the given values of the cyclic bits are consistent, and what outputs and next
//! words then are. From them it is found whether the system always reacts once, else the first bad case; and which lines compute the
//! least values of the cyclic bits, so that the rest can be put in order. Diagrams denote such functions (Bryant 1986). Nothing runs
//! here.
#![tactic(auto)]

pub mod laws;
