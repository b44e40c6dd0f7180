//! Lines, as far as they are built.
ghost use Rattle.std.specs.Prelude.{◌≡◌, [], ◌∷◌, ◌+◌, ◌^◌, ◌<◌, ◌++◌, IfOk, map, suc};
ghost use Rattle.eqn_scheme.specs.Scheme.{plus, minus, opposite};
ghost use Rattle.eqn_scheme.specs.Scheme as meaning;
ghost use Rattle.eqn_core.specs.Views.{literal_of, line_of};

use argos_base::{OutOfMemory, SigId};
use eqn_core::{Line, Lit};
use smallvec::SmallVec;
use std::alloc::Global;

/// The lines so far.
#[derive(Debug, Drop)]
pub(crate) struct Builder {
    pub lines: Vec<Line>,
    /// The number of the next bit.
    pub bits: u32,
    /// A bit that is always true.
    pub one: u32,
}

/// The bit that tells whether a transition or a timeout fires, what it emits, and where it leads.
#[derive(Debug, Drop)]
pub(crate) struct Fire {
    pub bit: u32,
    pub outs: SmallVec<SigId, 4>,
    pub target: u16,
}

/// What the body of a state needs of the state: the bit that tells whether it is live, and the literals of which one tells that it is
/// left or that its automaton is killed.
#[derive(Debug, Drop)]
pub(crate) struct Exit {
    pub live: u32,
    pub left: SmallVec<Lit, 4>,
}

/// What stands around a process tells it: whether it reacts, whether it is started, and whether it is killed.
#[derive(Clone, Copy, Debug)]
pub(crate) struct Around {
    pub run: Lit,
    pub start: Lit,
    pub kill: Lit,
}

/// The initial state of an automaton, and what starts the automaton.
#[derive(Clone, Copy, Debug)]
pub(crate) struct Initial {
    pub state: u16,
    pub start: Lit,
}

/// What the states of one automaton give, without their bodies.
#[derive(Debug, Drop)]
pub(crate) struct Own {
    pub fires: Vec<Fire>,
    /// The bits that tell that a state goes on counting.
    pub ticks: Vec<u32>,
    pub exits: Vec<Exit>,
}

/// The bit.
pub(crate) fn plus(bit: u32) -> Lit
    ensures { literal_of result ≡ meaning.plus bit }
{
    Lit {
        bit,
        negated: false,
    }
}

/// The bit's opposite.
pub(crate) fn minus(bit: u32) -> Lit
    ensures { literal_of result ≡ meaning.minus bit }
{
    Lit { bit, negated: true }
}

/// The literal's opposite.
pub(crate) fn opposite(literal: Lit) -> Lit
    ensures { literal_of result ≡ meaning.opposite (literal_of literal) }
{
    Lit {
        bit: literal.bit,
        negated: !literal.negated,
    }
}

/// Adds a line that defines a bit, and answers the bit.
pub(crate) fn put_bit(builder: &mut Builder, line: Line) -> Result<u32, OutOfMemory>
    requires room { builder.old.bits + 1 < 2 ^ 32 }
    ensures bit { IfOk result (λ b. b ≡ builder.old.bits) }
    ensures bits { IfOk result (λ _. builder.new.bits ≡ builder.old.bits + 1) }
    ensures one { IfOk result (λ _. builder.new.one ≡ builder.old.one) }
    ensures lines { IfOk result (λ _. map line_of builder.new.lines.items ≡ map line_of builder.old.lines.items ++ line_of line ∷ []) }
{
    builder.lines.push(line)?;
    let bit = builder.bits;
    builder.bits += 1;
    Ok(bit)
}

/// Two literals.
pub(crate) fn both(alloc: Global, a: Lit, b: Lit) -> Result<SmallVec<Lit, 4>, OutOfMemory>
    ensures { IfOk result (λ ls. map literal_of ls.items ≡ literal_of a ∷ literal_of b ∷ []) }
{
    Ok(SmallVec::from_slice(alloc, &[a, b])?)
}

/// Three literals.
pub(crate) fn three(alloc: Global, a: Lit, b: Lit, c: Lit) -> Result<SmallVec<Lit, 4>, OutOfMemory>
    ensures { IfOk result (λ ls. map literal_of ls.items ≡ literal_of a ∷ literal_of b ∷ literal_of c ∷ []) }
{
    Ok(SmallVec::from_slice(alloc, &[a, b, c])?)
}
