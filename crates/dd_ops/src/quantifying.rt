// Variables quantified.
ghost use Rattle.std.specs.Prelude.{◌+◌, ◌*◌, ◌^◌, ◌<◌, [], ◌∷◌, length, All};
ghost use Rattle.dd_core.specs.Arenas.{Holds, function_of};
ghost use Rattle.dd_ops.specs.Quantified.{IsExists, MakesNodeWith};

use crate::restricting::restrict;
use dd_core::{Arena, DdError, NodeId};

/// The node of the function that is true where some values of these variables make f true.
///
/// # Errors
///
/// `Budget` where the arena is full and some function of its variables isn't held.
pub fn exists(arena: &mut Arena, f: NodeId, vars: &[u32]) -> Result<NodeId, DdError>
    requires held { Holds arena.old f.0 }
    requires variables { All (λ k. k < arena.old.variables) vars.now }
    ensures { MakesNodeWith (length vars.now * 2 ^ (arena.old.variables + 1)) arena.old arena.new
        (IsExists arena.old.variables vars.now (function_of arena.old f.0)) result }
{
    if arena.node(f).is_none() {
        return Ok(f);
    }
    let mut g = f;
    for var in vars {
        g = exists_one(arena, g, *var)?;
    }
    Ok(g)
}

/// The same for one variable.
fn exists_one(arena: &mut Arena, f: NodeId, var: u32) -> Result<NodeId, DdError>
    requires held { Holds arena.old f.0 }
    requires variable { var < arena.old.variables }
    ensures { MakesNodeWith (2 ^ (arena.old.variables + 1)) arena.old arena.new
        (IsExists arena.old.variables (var ∷ []) (function_of arena.old f.0)) result }
{
    let without = restrict(arena, f, var, false)?;
    let with = restrict(arena, f, var, true)?;
    arena.or(without, with)
}
