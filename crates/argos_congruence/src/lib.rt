//! Programs that are equal under every list of aspects, said by the names of their signals.
//!
//! Two interfaces may have the same names in different places: `NamedSets` compares sets of signals by name, and `Moved` says an
//! aspect of one program over the names of another. Two programs are equal under aspects where, woven with any aspects, inputs that
//! are the same by name give outputs that are the same by name (`Congruence`). A bisimulation between their memories is enough for
//! that, whatever relation it is.
#![tactic(auto)]

pub mod laws;
