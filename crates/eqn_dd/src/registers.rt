// The words of registers, from their variables.
ghost use Rattle.std.specs.Prelude.{◌≡◌, ℕ, ◌+◌, ◌<◌, ◌≤◌, map, length, take, drop, All, IfOk};
ghost use Rattle.dd_core.specs.Arenas.{IsArena, AddsAtMost, HasNoRoom};
ghost use Rattle.eqn_completion.specs.Binary.{number};
ghost use Rattle.eqn_dd.specs.Denoting.{DenotesWord};
ghost use Rattle.eqn_dd.specs.Placed.{register_at, register_variables};
ghost use Rattle.eqn_dd.specs.inner.Registers.{DenoteMemory};

use dd_core::{Arena, DdError, NodeId};
use std::alloc::Global;

/// The word of each register, given its first variable and how many it has.
pub(crate) fn register_words(
    alloc: Global,
    arena: &mut Arena,
    regs: &[(u32, u8)],
) -> Result<Vec<Vec<NodeId>>, DdError>
    requires narrow { All (λ r. r.1 ≤ 16) regs.now }
    requires exist { All (λ k. k < arena.old.variables) (register_variables regs.now) }
    ensures adds { AddsAtMost (length (register_variables regs.now)) arena.old arena.new }
    ensures budget { result ≡ Err DdError.Budget → HasNoRoom arena.new }
    ensures denote { IfOk result (λ words. DenoteMemory arena.new
        (map (λ w. w.items) words.items) (λ x. map (register_at x) regs.now) (length regs.now)) }
{
    // The proof begins with what this call says of each arena.
    let _ = arena.variables();
    let mut words = Vec::new(alloc);
    for (first, bits) in regs {
        words.push(register_word(alloc, arena, *first, *bits)?)?;
    }
    Ok(words)
}

// The word of a register: false at the digits that it has no variable for.
fn register_word(
    alloc: Global,
    arena: &mut Arena,
    first: u32,
    bits: u8,
) -> Result<Vec<NodeId>, DdError>
    requires narrow { bits ≤ 16 }
    requires exist { (k : ℕ) → k < bits → first + k < arena.old.variables }
    ensures adds { AddsAtMost bits arena.old arena.new }
    ensures budget { result ≡ Err DdError.Budget → HasNoRoom arena.new }
    ensures denotes { IfOk result (λ w. DenotesWord arena.new w.items (λ x. number (take bits (drop first x)))) }
{
    // The proof begins with what this call says of each arena.
    let _ = arena.variables();
    let mut word = Vec::with_capacity(alloc, 16)?;
    word.resize(16 - bits as usize, NodeId::FALSE)?;
    for digit in 0..bits as u32 {
        word.push(arena.var(first + digit)?)?;
    }
    Ok(word)
}
