// The pairwise equality function in an arena.
ghost use Rattle.std.specs.Prelude.{◌≡◌, ℕ, ◌*◌, ◌<◌, ◌≤◌, IfOk};
ghost use Rattle.dd_core.specs.Arenas.{IsArena, Holds};

use dd_core::{Arena, DdError, NodeId};

/// The most pairs whose variables fit an arena.
pub const MOST_PAIRS: u32 = 512;

/// The node of the function that says, for each k below `count`, that variable k equals variable `count` + k.
pub fn pairwise_equality(arena: &mut Arena, count: u32) -> Result<NodeId, DdError>
    requires few { count ≤ 512 }
    requires variables { arena.old.variables ≡ 2 * count }
    requires valid { IsArena arena.old }
    ensures { IfOk result (λ f. Holds arena.new f.0) }
{
    let mut equality = NodeId::TRUE;
    for k in 0..count {
        let same = equal_pair(arena, k, count + k)?;
        equality = arena.and(equality, same)?;
    }
    Ok(equality)
}

/// The node of the function that says that two variables are equal.
fn equal_pair(arena: &mut Arena, left: u32, right: u32) -> Result<NodeId, DdError>
    requires left { left < arena.old.variables }
    requires right { right < arena.old.variables }
    ensures variables { arena.new.variables ≡ arena.old.variables }
    ensures node { IfOk result (λ f. Holds arena.new f.0) }
    ensures stay { (f : ℕ) → Holds arena.old f → Holds arena.new f }
{
    let x = arena.var(left)?;
    let y = arena.var(right)?;
    let opposite = arena.not(y)?;
    arena.ite(x, y, opposite)
}
