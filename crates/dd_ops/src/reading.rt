// What is read off diagrams.
ghost use Rattle.std.specs.Prelude.{◌≡◌, ◌≢◌, ◌<◌, false, true, IfOk, MatchOption};
ghost use Rattle.dd_core.specs.Functions.{AreEqual, constant};
ghost use Rattle.dd_core.specs.Diagrams.{after, node_at};
ghost use Rattle.dd_core.specs.Arenas.{IsArena, Holds, function_of};
ghost use Rattle.dd_ops.specs.Least.{IsLeast};

use dd_core::{Arena, NodeId};
use std::alloc::{AllocError, Global};

/// The least values that make f true, variable 0 first and false before true; `None` where f is false everywhere.
pub fn least(alloc: Global, arena: &Arena, f: NodeId) -> Result<Option<Vec<bool>>, AllocError>
    requires held { Holds arena.now f.0 }
    ensures { IfOk result (λ found. MatchOption found
        (AreEqual arena.now.variables (function_of arena.now f.0) (constant false))
        (λ x. IsLeast arena.now.variables (function_of arena.now f.0) x.items)) }
{
    let variables = arena.variables();
    if f == NodeId::FALSE {
        return Ok(None);
    }
    let mut values = Vec::new(alloc);
    let mut at = f;
    for k in 0..variables {
        let (next, value) = least_step(arena, at, k);
        values.push(value)?;
        at = next;
    }
    Ok(Some(values))
}

/// Where the least walk goes on after variable k, and the value that it takes there: false unless that leads to the
/// constant false.
fn least_step(arena: &Arena, at: NodeId, k: u32) -> (NodeId, bool)
    requires possible { at.0 ≢ 0 }
    ensures next { result.0.0 ≡ after k result.1 at.0 (node_at arena.now.nodes at.0) }
    ensures forced { result.1 ≡ true → after k false at.0 (node_at arena.now.nodes at.0) ≡ 0 }
    ensures possible { result.0.0 ≢ 0 }
{
    match arena.node(at) {
        Some(node) if node.variable == k => {
            let value = node.low == NodeId::FALSE;
            (node.child(value), value)
        }
        _ => (at, false),
    }
}
