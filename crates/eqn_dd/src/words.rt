// Words of sixteen diagrams: codes, one more, and a choice between two.
ghost use Rattle.std.specs.Prelude.{◌≡◌, if◌then◌else◌, IfOk, length};
ghost use Rattle.dd_core.specs.Functions.{both, if_else, opposite};
ghost use Rattle.dd_core.specs.Arenas.{ArenaView, IsArena, Holds, function_of, AddsAtMost, HasNoRoom};
ghost use Rattle.eqn_core.specs.Solutions.{next_code};
ghost use Rattle.eqn_dd.specs.Denoting.{Denotes, IsWord, DenotesWord, code_at};
ghost use Rattle.eqn_dd.specs.inner.Words.{differ};

use dd_core::{Arena, DdError, NodeId};
use std::alloc::{AllocError, Global};

/// The node of a constant function.
pub(crate) fn constant(value: bool) -> NodeId
    ensures { result.0 ≡ (if value then 1 else 0) }
{
    if value { NodeId::TRUE } else { NodeId::FALSE }
}

/// The word that is this code everywhere.
pub(crate) fn code_word(alloc: Global, code: u16) -> Result<Vec<NodeId>, AllocError>
    ensures { IfOk result (λ w. (arena : ArenaView) → IsArena arena → DenotesWord arena w.items (λ x. code)) }
{
    let mut word = Vec::with_capacity(alloc, 16)?;
    for place in 0..16u32 {
        word.push(constant((code >> (15 - place)) % 2 == 1))?;
    }
    Ok(word)
}

/// The word that is one more, or 0 where the word is 65,535.
pub(crate) fn next_word(
    alloc: Global,
    arena: &mut Arena,
    word: &[NodeId],
) -> Result<Vec<NodeId>, DdError>
    requires { IsWord arena.old word.now }
    ensures adds { AddsAtMost 48 arena.old arena.new }
    ensures budget { result ≡ Err DdError.Budget → HasNoRoom arena.new }
    ensures denotes { IfOk result (λ w. DenotesWord arena.new w.items (λ x. next_code (code_at arena.old word.now x))) }
{
    // The proof begins with what this call says of each arena.
    let _ = arena.variables();
    let mut next = Vec::from_slice(alloc, word)?;
    let mut carry = NodeId::TRUE;
    for place in 0..16 {
        let digit = next[15 - place];
        let (sum, over) = add_carry(arena, digit, carry)?;
        next[15 - place] = sum;
        carry = over;
    }
    Ok(next)
}

// The last digit of the sum of two digits, and whether it has one more.
fn add_carry(arena: &mut Arena, digit: NodeId, carry: NodeId) -> Result<(NodeId, NodeId), DdError>
    requires digit { Holds arena.old digit.0 }
    requires carry { Holds arena.old carry.0 }
    ensures adds { AddsAtMost 3 arena.old arena.new }
    ensures budget { result ≡ Err DdError.Budget → HasNoRoom arena.new }
    ensures sum { IfOk result (λ made. Denotes arena.new made.0.0
        (differ (function_of arena.old digit.0) (function_of arena.old carry.0))) }
    ensures over { IfOk result (λ made. Denotes arena.new made.1.0
        (both (function_of arena.old carry.0) (function_of arena.old digit.0))) }
{
    let flipped = arena.not(digit)?;
    let sum = arena.ite(carry, flipped, digit)?;
    let over = arena.and(carry, digit)?;
    Ok((sum, over))
}

/// The word that is `yes` where the test is true, and `no` elsewhere.
pub(crate) fn choose_word(
    alloc: Global,
    arena: &mut Arena,
    test: NodeId,
    yes: &[NodeId],
    no: &[NodeId],
) -> Result<Vec<NodeId>, DdError>
    requires test { Holds arena.old test.0 }
    requires yes { IsWord arena.old yes.now }
    requires no { IsWord arena.old no.now }
    ensures adds { AddsAtMost 16 arena.old arena.new }
    ensures budget { result ≡ Err DdError.Budget → HasNoRoom arena.new }
    ensures denotes { IfOk result (λ w. DenotesWord arena.new w.items
        (λ x. if function_of arena.old test.0 x then code_at arena.old yes.now x else code_at arena.old no.now x)) }
{
    // The proof begins with what this call says of each arena.
    let _ = arena.variables();
    let mut word = Vec::with_capacity(alloc, 16)?;
    for place in 0..16 {
        word.push(arena.ite(test, yes[place], no[place])?)?;
    }
    Ok(word)
}
