// The diagrams that are known so far.
ghost use Rattle.std.specs.Prelude.{◌≡◌, ℕ, ◌+◌, ◌<◌, ◌≤◌, map, length, All, IfOk};
ghost use Rattle.dd_core.specs.Arenas.{IsArena, AddsAtMost, HasNoRoom};
ghost use Rattle.eqn_dd.specs.Placed.{register_at, register_variables};
ghost use Rattle.eqn_dd.specs.inner.Tables.{view_of, GivenAre, InputsAre, WordsAre, with_drawn, HasPlace, Begins};

use crate::places::Places;
use crate::registers::register_words;
use crate::words::code_word;
use dd_core::{Arena, DdError, NodeId};
use std::alloc::Global;

/// The diagram of one line: that of a bit, or of a word.
#[derive(Drop)]
pub(crate) enum Drawn {
    Bit(NodeId),
    Word(Vec<NodeId>),
}

/// The diagrams of bits and words, by number. Those whose lines aren't drawn yet are false and 0.
#[derive(Drop)]
pub(crate) struct Table {
    pub bits: Vec<NodeId>,
    /// The variable of a cyclic bit, which is read in its place.
    pub given: Vec<Option<NodeId>>,
    pub words: Vec<Vec<NodeId>>,
}

/// Puts the diagram of a line at the number of its bit or word.
pub(crate) fn put(table: &mut Table, number: usize, drawn: Drawn)
    requires { HasPlace (view_of table.old) number drawn }
    ensures { view_of table.new ≡ with_drawn (view_of table.old) number drawn }
{
    match drawn {
        Drawn::Bit(bit) => table.bits[number] = bit,
        Drawn::Word(word) => table.words[number] = word,
    }
}

/// So many bits, of which the first are the inputs' variables and the others false.
pub(crate) fn begin_bits(
    alloc: Global,
    arena: &mut Arena,
    inputs: &[u32],
    count: usize,
) -> Result<Vec<NodeId>, DdError>
    requires exist { All (λ k. k < arena.old.variables) inputs.now }
    requires room { length inputs.now ≤ count }
    ensures adds { AddsAtMost (length inputs.now) arena.old arena.new }
    ensures budget { result ≡ Err DdError.Budget → HasNoRoom arena.new }
    ensures inputs { IfOk result (λ bits. InputsAre arena.new inputs.now count bits.items) }
{
    // The proof begins with what this call says of each arena.
    let _ = arena.variables();
    let mut bits = Vec::new(alloc);
    for variable in inputs {
        bits.push(arena.var(*variable)?)?;
    }
    bits.resize(count, NodeId::FALSE)?;
    Ok(bits)
}

/// So many places, at which cyclic bits have their variables.
pub(crate) fn begin_given(
    alloc: Global,
    arena: &mut Arena,
    cyclic: &[u32],
    variables: &[u32],
    count: usize,
) -> Result<Vec<Option<NodeId>>, DdError>
    requires sized { length variables.now ≡ length cyclic.now }
    requires bits { All (λ k. k < count) cyclic.now }
    requires exist { All (λ k. k < arena.old.variables) variables.now }
    ensures adds { AddsAtMost (length cyclic.now) arena.old arena.new }
    ensures budget { result ≡ Err DdError.Budget → HasNoRoom arena.new }
    ensures given { IfOk result (λ given. GivenAre arena.new cyclic.now variables.now count given.items) }
{
    // The proof begins with what this call says of each arena.
    let _ = arena.variables();
    let mut given = Vec::new(alloc);
    given.resize(count, None)?;
    let mut left = cyclic.len();
    while left > 0 {
        left -= 1;
        let variable = arena.var(variables[left])?;
        given[cyclic[left] as usize] = Some(variable);
    }
    Ok(given)
}

/// So many words, of which the first are those of the registers and the others 0.
pub(crate) fn begin_words(
    alloc: Global,
    arena: &mut Arena,
    regs: &[(u32, u8)],
    count: usize,
) -> Result<Vec<Vec<NodeId>>, DdError>
    requires narrow { All (λ r. r.1 ≤ 16) regs.now }
    requires exist { All (λ k. k < arena.old.variables) (register_variables regs.now) }
    requires room { length regs.now ≤ count }
    ensures adds { AddsAtMost (length (register_variables regs.now)) arena.old arena.new }
    ensures budget { result ≡ Err DdError.Budget → HasNoRoom arena.new }
    ensures words { IfOk result (λ words. WordsAre arena.new (λ x. map (register_at x) regs.now) (length regs.now) count
        (map (λ w. w.items) words.items)) }
{
    let mut words = register_words(alloc, arena, regs)?;
    'fill: while words.len() < count {
        words.push(code_word(alloc, 0)?)?;
    }
    Ok(words)
}

/// The table before a line is drawn: inputs and registers are their variables, and so is what is read of cyclic bits.
pub(crate) fn begin(
    alloc: Global,
    arena: &mut Arena,
    bits: usize,
    words: usize,
    cyclic: &[u32],
    places: &Places,
) -> Result<Table, DdError>
    requires narrow { All (λ r. r.1 ≤ 16) places.now.regs.items }
    requires registers { All (λ k. k < arena.old.variables) (register_variables places.now.regs.items) }
    requires inputs { All (λ k. k < arena.old.variables) places.now.inputs.items }
    requires given { All (λ k. k < arena.old.variables) places.now.cyclic.items }
    requires cyclic { All (λ k. k < bits) cyclic.now }
    requires sized { length places.now.cyclic.items ≡ length cyclic.now }
    requires inputs_fit { length places.now.inputs.items ≤ bits }
    requires registers_fit { length places.now.regs.items ≤ words }
    ensures adds { AddsAtMost (length (register_variables places.now.regs.items) + length places.now.inputs.items + length cyclic.now)
        arena.old arena.new }
    ensures budget { result ≡ Err DdError.Budget → HasNoRoom arena.new }
    ensures begins { IfOk result (λ t. Begins arena.new places.now cyclic.now bits words (view_of t)) }
{
    let words = begin_words(alloc, arena, &places.regs, words)?;
    let own = begin_bits(alloc, arena, &places.inputs, bits)?;
    let given = begin_given(alloc, arena, cyclic, &places.cyclic, bits)?;
    Ok(Table {
        bits: own,
        given,
        words,
    })
}
