use crate::accepted::Accepted;
use argos_aspects::{Advice, Seen};

/// An aspect over the interface of a program: an observer that was accepted, which signal of the program each of its inputs sees, and
/// the advice at its join points.
#[derive(Debug, Drop)]
pub struct Aspect {
    pub observer: Accepted,
    /// One for each input of the observer.
    pub seen: Vec<Seen>,
    pub advice: Advice,
}
