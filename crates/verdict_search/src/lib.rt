//! The verdict on one reaction, found by steps over diagrams.
//!
//! The functions are those of the variables of an arena. The first variables stand for register bits and
//! inputs, whose values are a point, and the others for cyclic bits. `consistency` makes the functions that
//! say where the values of the cyclic bits agree with their functions: one for each part of the cyclic bits
//! that don't depend on others. These are never met over all points, where their size would be the product of
//! all parts'. `find` tells whether there is one reaction at each structural point, else what there is at the
//! first other one; `least_roots` makes the functions of the least consistent values. Nothing is said of lines, codes or systems here. Diagrams:
//! Bryant 1986; the rest is this project's.
#![tactic(auto)]

mod agreement;
mod finding;
mod parting;
mod pinning;
mod quantifying;
mod roots;
mod taking;
mod testing;
#[cfg(test)]
mod tests;

pub use agreement::consistency;
pub use finding::{Found, find};
pub use parting::Parts;
pub use roots::least_roots;
