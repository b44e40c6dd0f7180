use argos_base::Signals;

/// What a check of one reaction finds. Memories are compared register by register, then inputs by number, absent before present;
/// reactions by outputs, and then by next memory.
#[derive(Debug, Drop)]
pub enum Verdict {
    /// Exactly one reaction at each memory and to each input.
    One,
    /// No reaction in the first bad case.
    NoReaction {
        memory: Vec<u16>,
        input: Signals,
    },
    /// Several reactions in the first bad case: the least, and the least of the others.
    Several {
        memory: Vec<u16>,
        input: Signals,
        first: Reaction,
        second: Reaction,
    },
}

/// The outputs of a reaction by number, and the next code of each register.
#[derive(Debug, Drop)]
pub struct Reaction {
    pub outputs: Signals,
    pub next: Vec<u16>,
}
