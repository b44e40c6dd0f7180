// The memories that fit a layout.
ghost use Rattle.std.specs.Prelude.{◌≡◌, ◌+◌, ◌*◌, map, length, All, IfOk};
ghost use Rattle.argos_core.specs.Views.{shapes_of, register_shape_of, parent_of};
ghost use Rattle.dd_core.specs.Arenas.{IsArena, Holds, function_of, AddsAtMost, HasNoRoom};
ghost use Rattle.eqn_dd.specs.Denoting.{Denotes, IsWord, code_at};
ghost use Rattle.eqn_dd.specs.Placed.{NamesRegisters};
ghost use Rattle.eqn_dd.specs.Structural.{DenotesLayout};
ghost use Rattle.eqn_dd.specs.inner.Fitting.{codes_at, is_on, fits_shape, fits_shapes};

use crate::places::Places;
use crate::ranges::within;
use crate::registers::register_words;
use argos_base::RegId;
use argos_core::{Layout, Shape};
use dd_core::{Arena, DdError, NodeId};
use std::alloc::Global;

/// The node of the function that is true exactly on the memories that fit the layout.
///
/// # Errors
///
/// `Budget` where the arena is full and some function of its variables isn't held.
pub fn structural(
    alloc: Global,
    arena: &mut Arena,
    layout: &Layout,
    places: &Places,
) -> Result<NodeId, DdError>
    requires sized { length places.now.regs.items ≡ length layout.now.regs.items }
    requires places { NamesRegisters arena.old.variables places.now.regs.items }
    ensures adds { AddsAtMost (128 * length layout.now.regs.items + arena.old.variables) arena.old arena.new }
    ensures budget { result ≡ Err DdError.Budget → HasNoRoom arena.new }
    ensures denotes { IfOk result (λ f. DenotesLayout arena.new f.0 (shapes_of layout.now) places.now) }
{
    let words = register_words(alloc, arena, &places.regs)?;
    memory_fits(arena, &words, &layout.regs)
}

// The node that is true where the codes of the registers fit their shapes.
fn memory_fits(
    arena: &mut Arena,
    words: &[Vec<NodeId>],
    shapes: &[Shape],
) -> Result<NodeId, DdError>
    requires sized { length words.now ≡ length shapes.now }
    requires words { All (IsWord arena.old) (map (λ w. w.items) words.now) }
    ensures adds { AddsAtMost (124 * length shapes.now) arena.old arena.new }
    ensures budget { result ≡ Err DdError.Budget → HasNoRoom arena.new }
    ensures denotes { IfOk result (λ f. Denotes arena.new f.0 (λ x.
        let codes = codes_at arena.old (map (λ w. w.items) words.now) x in
        fits_shapes codes (map register_shape_of shapes.now) codes)) }
{
    // The proof begins with what this call says of each arena.
    let _ = arena.variables();
    let mut fits = NodeId::TRUE;
    for (register, shape) in shapes.iter().enumerate() {
        let fit = register_fits(arena, words, &words[register], shape)?;
        fits = arena.and(fits, fit)?;
    }
    Ok(fits)
}

// The node that is true where the code of a register is within its shape, and above 0 exactly where its automaton is on.
fn register_fits(
    arena: &mut Arena,
    words: &[Vec<NodeId>],
    word: &[NodeId],
    shape: &Shape,
) -> Result<NodeId, DdError>
    requires words { All (IsWord arena.old) (map (λ w. w.items) words.now) }
    requires word { IsWord arena.old word.now }
    ensures adds { AddsAtMost 123 arena.old arena.new }
    ensures budget { result ≡ Err DdError.Budget → HasNoRoom arena.new }
    ensures denotes { IfOk result (λ f. Denotes arena.new f.0 (λ x. fits_shape
        (codes_at arena.old (map (λ w. w.items) words.now) x) (register_shape_of shape.now) (code_at arena.old word.now x))) }
{
    let is_low = within(arena, word, 0, shape.top)?;
    let is_above = within(arena, word, 1, u16::MAX)?;
    let on = parent_is_on(arena, words, shape.parent)?;
    let off = arena.not(on)?;
    let agrees = arena.ite(is_above, on, off)?;
    arena.and(is_low, agrees)
}

// The node that is true where the state is on in whose body an automaton stands.
fn parent_is_on(
    arena: &mut Arena,
    words: &[Vec<NodeId>],
    parent: Option<(RegId, u16, u16)>,
) -> Result<NodeId, DdError>
    requires { All (IsWord arena.old) (map (λ w. w.items) words.now) }
    ensures adds { AddsAtMost 40 arena.old arena.new }
    ensures budget { result ≡ Err DdError.Budget → HasNoRoom arena.new }
    ensures denotes { IfOk result (λ f. Denotes arena.new f.0 (λ x.
        is_on (codes_at arena.old (map (λ w. w.items) words.now) x) (parent_of parent))) }
{
    // The proof begins with what this call says of each arena.
    let _ = arena.variables();
    match parent {
        Some((register, first, last)) => match words.get(register.0 as usize) {
            Some(word) => within(arena, word, first, last),
            None => Ok(NodeId::FALSE),
        },
        None => Ok(NodeId::TRUE),
    }
}
