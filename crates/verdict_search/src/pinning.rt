// Functions pinned to one point.
ghost use Rattle.std.specs.Prelude.{◌≡◌, ◌+◌, ◌*◌, ◌<◌, ◌≤◌, length, All, IfOk};
ghost use Rattle.dd_core.specs.Arenas.{IsArena, Holds, AddsAtMost, HasNoRoom};
ghost use Rattle.eqn_dd.specs.Denoting.{Denotes};
ghost use Rattle.verdict_search.specs.Counts.{pinning_count};
ghost use Rattle.verdict_search.specs.inner.Pinning.{literal_function, IsPoint, IsPinnedTo};

use dd_core::{Arena, DdError, NodeId};

/// The node of the function that is true where all these are and the first variables have these values. The
/// values come first, so each function is met at this point alone.
pub(crate) fn pin(arena: &mut Arena, fs: &[NodeId], values: &[bool]) -> Result<NodeId, DdError>
    requires held { All (λ f. Holds arena.old f.0) fs.now }
    requires sized { length values.now ≤ arena.old.variables }
    ensures adds { AddsAtMost (pinning_count (length values.now) (length fs.now)) arena.old arena.new }
    ensures budget { result ≡ Err DdError.Budget → HasNoRoom arena.new }
    ensures held { IfOk result (λ q. Holds arena.new q.0) }
    ensures pinned { IfOk result (λ q. IsPinnedTo arena.old arena.new values.now fs.now q.0) }
{
    let mut here = point(arena, values)?;
    for f in fs {
        here = arena.and(here, *f)?;
    }
    Ok(here)
}

// The node of the function that is true where the first variables have these values. The last ones come
// first: so each one more adds a node above the others.
fn point(arena: &mut Arena, values: &[bool]) -> Result<NodeId, DdError>
    requires sized { length values.now ≤ arena.old.variables }
    ensures adds { AddsAtMost (3 * length values.now) arena.old arena.new }
    ensures budget { result ≡ Err DdError.Budget → HasNoRoom arena.new }
    ensures held { IfOk result (λ f. Holds arena.new f.0) }
    ensures point { IfOk result (λ f. IsPoint arena.new values.now f.0) }
{
    // The proof begins with what this call says of each arena.
    let _ = arena.variables();
    let mut there = NodeId::TRUE;
    let mut left = values.len();
    while left > 0 {
        left -= 1;
        let here = literal(arena, left as u32, values[left])?;
        there = arena.and(here, there)?;
    }
    Ok(there)
}

// The node of the function that is true where the variable has this value.
fn literal(arena: &mut Arena, variable: u32, value: bool) -> Result<NodeId, DdError>
    requires variable { variable < arena.old.variables }
    ensures adds { AddsAtMost 2 arena.old arena.new }
    ensures budget { result ≡ Err DdError.Budget → HasNoRoom arena.new }
    ensures denotes { IfOk result (λ f. Denotes arena.new f.0 (literal_function variable value)) }
{
    let f = arena.var(variable)?;
    if value { Ok(f) } else { arena.not(f) }
}
