use smallvec::SmallVec;

/// A bit, or its opposite where `negated`.
#[derive(Clone, Copy, Debug, Default, PartialEq, Eq)]
pub struct Lit {
    pub bit: u32,
    pub negated: bool,
}

/// The value that a word is given.
#[derive(Clone, Copy, Debug, PartialEq, Eq)]
pub enum Pick {
    /// This code.
    Code(u16),
    /// The value of this word.
    Word(u32),
    /// The value of this word plus 1, or 0 where it is 65,535.
    Next(u32),
}

impl Default for Pick {
    ghost use Rattle.std.specs.Prelude.{◌≡◌};
    ghost use Rattle.eqn_core.specs.declared.system.Pick.TheVariants.{Code};

    ghost is_default = { λ p. p ≡ Code 0 };

    fn default() -> Pick {
        Pick::Code(0)
    }
}

/// What is picked where a literal is true.
#[derive(Clone, Copy, Debug, Default, PartialEq, Eq)]
pub struct Case {
    pub when: Lit,
    pub pick: Pick,
}

/// What defines one bit, or for `Choose` one word.
#[derive(Debug, Drop)]
pub enum Line {
    /// Whether each literal is true.
    All(SmallVec<Lit, 4>),
    /// Whether some literal is true.
    Any(SmallVec<Lit, 4>),
    /// Whether `lo <= word <= hi`.
    Within {
        word: u32,
        lo: u16,
        hi: u16,
    },
    /// The binary digit of the word at `place`, 0 to 15, of which 0 is the least significant.
    Digit {
        word: u32,
        place: u8,
    },
    /// The pick of the first case whose literal is true, else `other`.
    Choose {
        cases: SmallVec<Case, 4>,
        other: Pick,
    },
}

/// Equations over bits and words. The inputs are the first bits and the registers the first words; then each line defines the next
/// bit, or for `Choose` the next word.
#[derive(Debug, Drop)]
pub struct System {
    /// How many inputs there are.
    pub inputs: u32,
    /// The initial code of each register.
    pub init: Vec<u16>,
    pub lines: Vec<Line>,
    /// The bits that are the outputs.
    pub outs: Vec<u32>,
    /// The bits of the local signals.
    pub locals: Vec<u32>,
    /// For each register the word that is its next value.
    pub next: Vec<u32>,
}

/// An order in which the lines of a system can be evaluated, where its cyclic bits are taken as given.
#[derive(Debug, Drop)]
pub struct Plan {
    /// The place of each line, once. A line reads inputs, registers, cyclic bits and lines that stand before it here.
    pub order: Vec<u32>,
    /// The bits of `locals`, in their order, that depend on themselves through one or more lines.
    pub cyclic: Vec<u32>,
}
