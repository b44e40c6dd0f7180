use argos_base::{Name, Signals};

/// What a check for equivalence by a certificate answers.
#[derive(Debug, Drop)]
pub enum EquivFound {
    /// The memories that satisfy the formula are a bisimulation.
    Accept,
    /// The first name that isn't an input of both or an output of both, of the left inputs, left outputs, right inputs and right outputs.
    Interfaces {
        name: Name,
    },
    /// The initial memories don't satisfy the formula.
    Start,
    /// Related memories that react with different outputs, the least by left memory, right memory and left input, and the first output,
    /// in the left order, that differs. Memories have one code for each register, the input set one place for each left input.
    Outputs {
        left: Vec<u16>,
        right: Vec<u16>,
        input: Signals,
        name: Name,
    },
    /// Related memories whose next memories aren't related, the least by the same order.
    Leaves {
        left: Vec<u16>,
        right: Vec<u16>,
        input: Signals,
    },
}
