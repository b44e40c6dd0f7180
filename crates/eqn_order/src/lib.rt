//! The order in which the lines of a system can be evaluated, and the bits that depend on themselves.
//!
//! The lines are a graph, in which each leads to those whose bits and words it reads. Its strong components are found by two searches,
//! as Kosaraju and Sharir do (M. Sharir, A strong-connectivity algorithm and its applications in data flow analysis, 1981): a
//! depth-first search of the graph, and then a search of the reversed graph, from the lines in the opposite of the order in which the
//! first one left them. A line depends on itself exactly where it leads to one of its own component. With the cyclic bits taken as
//! given the rest has no cycle, and the order in which a depth-first search leaves its lines is the one that is wanted. Each search
//! keeps its own stack, and time and memory are linear in the weight of the system.
#![tactic(auto)]

mod components;
mod finishing;
mod graph;
mod plan;
mod sources;
#[cfg(test)]
mod tests;

pub use plan::order;
