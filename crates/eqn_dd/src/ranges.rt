// Words compared with codes.
ghost use Rattle.std.specs.Prelude.{◌≡◌, ◌+◌, ◌^◌, ◌%◌, ◌<◌, ◌≤◌, ◌&&◌, nat_le, if◌then◌else◌, IfOk};
ghost use Rattle.dd_core.specs.Functions.{if_else};
ghost use Rattle.dd_core.specs.Arenas.{IsArena, Holds, function_of, AddsAtMost, HasNoRoom};
ghost use Rattle.eqn_dd.specs.Denoting.{Denotes, IsWord, code_at};
ghost use Rattle.eqn_dd.specs.inner.Words.{compared};

use crate::words::constant;
use dd_core::{Arena, DdError, NodeId};

/// The node of the function that is true where `lo <= word <= hi`. The word's digits are its sixteen nodes, the most significant first.
///
/// # Errors
///
/// `Budget` where the arena is full and some function of its variables isn't held.
pub fn within(arena: &mut Arena, word: &[NodeId], lo: u16, hi: u16) -> Result<NodeId, DdError>
    requires { IsWord arena.old word.now }
    ensures adds { AddsAtMost 40 arena.old arena.new }
    ensures budget { result ≡ Err DdError.Budget → HasNoRoom arena.new }
    ensures denotes { IfOk result (λ f. Denotes arena.new f.0
        (λ x. nat_le lo (code_at arena.old word.now x) && nat_le (code_at arena.old word.now x) hi)) }
{
    let low_enough = compare(arena, word, hi, true, false)?;
    let high_enough = compare(arena, word, lo, false, true)?;
    arena.and(high_enough, low_enough)
}

// The node of the function that is `below` where the word is below the bound, `above` where it is above, and true where it is the bound.
fn compare(
    arena: &mut Arena,
    word: &[NodeId],
    bound: u16,
    below: bool,
    above: bool,
) -> Result<NodeId, DdError>
    requires { IsWord arena.old word.now }
    ensures adds { AddsAtMost 16 arena.old arena.new }
    ensures budget { result ≡ Err DdError.Budget → HasNoRoom arena.new }
    ensures denotes { IfOk result (λ f. Denotes arena.new f.0 (λ x. compared below above bound (code_at arena.old word.now x))) }
{
    // The proof begins with what this call says of each arena.
    let _ = arena.variables();
    let mut answer = NodeId::TRUE;
    for place in 0..16 {
        let digit = word[15 - place];
        let bound_digit = (bound >> place) % 2 == 1;
        answer = compare_digit(
            arena,
            digit,
            bound_digit,
            answer,
            constant(below),
            constant(above),
        )?;
    }
    Ok(answer)
}

// Goes on with the answer by the later digits where this digit is the bound's.
fn compare_digit(
    arena: &mut Arena,
    digit: NodeId,
    bound: bool,
    later: NodeId,
    below: NodeId,
    above: NodeId,
) -> Result<NodeId, DdError>
    requires digit { Holds arena.old digit.0 }
    requires later { Holds arena.old later.0 }
    requires below { Holds arena.old below.0 }
    requires above { Holds arena.old above.0 }
    ensures adds { AddsAtMost 1 arena.old arena.new }
    ensures budget { result ≡ Err DdError.Budget → HasNoRoom arena.new }
    ensures denotes { IfOk result (λ f. Denotes arena.new f.0 (if_else (function_of arena.old digit.0)
        (function_of arena.old (if bound then later.0 else above.0))
        (function_of arena.old (if bound then below.0 else later.0)))) }
{
    if bound {
        arena.ite(digit, later, below)
    } else {
        arena.ite(digit, above, later)
    }
}
