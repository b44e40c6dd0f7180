//! What an observer sees, and what is done at its join points.
use argos_base::Signals;

/// A signal of the base that an observer sees: the input, or the output, of this number. Both count from 0.
#[derive(Clone, Copy, Debug, PartialEq, Eq)]
pub enum Seen {
    Input(u32),
    Output(u32),
}

/// What replaces the base's reaction at a join point. `outs` are the outputs then, with a place for each output of the base. The
/// next memory is the one behind `trace`, whose sets have a place for each input of the base: from where the instant began, if
/// `current`, else from the initial configurations.
#[derive(Debug, Drop)]
pub struct Advice {
    pub outs: Signals,
    pub current: bool,
    pub trace: Vec<Signals>,
}
