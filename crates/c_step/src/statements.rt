use eqn_core::{Case, Lit, Pick};

/// The value that a bit is given.
#[derive(Debug, Drop)]
pub enum CValue {
    Const(bool),
    /// Whether each of one or more literals is true.
    And(Vec<Lit>),
    /// Whether some of two or more literals is true.
    Or(Vec<Lit>),
    /// Whether `lo <= word <= hi`.
    Within { word: u32, lo: u16, hi: u16 },
    /// The binary digit of the word at `place`, 0 to 15, of which 0 is the least significant.
    Digit { word: u32, place: u8 },
    /// Whether the input with this number is present.
    Input(u32),
}

/// A statement, which replaces one value at once.
#[derive(Debug, Drop)]
pub enum CStat {
    /// Bit `to` is given a value.
    Bit {
        to: u32,
        value: CValue,
    },
    /// Word `to` is given the pick of the first case whose literal is true, else `other`.
    Word {
        to: u32,
        cases: Vec<Case>,
        other: Pick,
    },
    /// Output `to` is given a bit.
    Out {
        to: u32,
        bit: u32,
    },
}
