// A variable set to a value.
ghost use Rattle.std.specs.Prelude.{◌≡◌, ◌+◌, ◌^◌, ◌<◌, Some};
ghost use Rattle.dd_core.specs.Functions.{restriction};
ghost use Rattle.dd_core.specs.Diagrams.{node_at, node_count};
ghost use Rattle.dd_core.specs.Arenas.{IsArena, Holds, function_of, Makes};
ghost use Rattle.dd_ops.specs.inner.Restricting.{MakesRestriction};

use dd_core::{Arena, DdError, Node, NodeId, Operation, Restriction};

/// The node of f with this variable set to this value.
///
/// # Errors
///
/// `Budget` where the arena is full and some cofactor of the result's function isn't held.
pub fn restrict(arena: &mut Arena, f: NodeId, var: u32, value: bool) -> Result<NodeId, DdError>
    requires held { Holds arena.old f.0 }
    requires variable { var < arena.old.variables }
    ensures made { Makes (2 ^ (arena.old.variables + 1)) arena.old arena.new
        (restriction var value (function_of arena.old f.0)) result }
    ensures fewer { node_count arena.new.nodes < node_count arena.old.nodes + 2 ^ var }
{
    let asked = Restriction {
        f,
        variable: var,
        value,
    };
    restrict_from(arena, asked)
}

/// The same, as an operation.
#[cycle(restrict)]
fn restrict_from(arena: &mut Arena, asked: Restriction) -> Result<NodeId, DdError>
    requires held { Holds arena.old asked.f.0 }
    requires variable { asked.variable < arena.old.variables }
    ensures { MakesRestriction arena.old arena.new asked result }
{
    let Some(node) = arena.node(asked.f) else {
        return Ok(asked.f);
    };
    if node.variable > asked.variable {
        return Ok(asked.f);
    }
    if node.variable == asked.variable {
        return Ok(node.child(asked.value));
    }
    if let Some(g) = arena.cached(Operation::Restrict(asked)) {
        return Ok(g);
    }
    restrict_node(arena, asked, node)
}

/// The same, where f is this node, which tests an earlier variable.
#[cycle(restrict)]
fn restrict_node(arena: &mut Arena, asked: Restriction, node: Node) -> Result<NodeId, DdError>
    requires valid { IsArena arena.old }
    requires node { node_at arena.old.nodes asked.f.0 ≡ Some node }
    requires earlier { node.variable < asked.variable }
    requires variable { asked.variable < arena.old.variables }
    ensures { MakesRestriction arena.old arena.new asked result }
{
    let low = restrict_from(
        arena,
        Restriction {
            f: node.low,
            ..asked
        },
    )?;
    let high = restrict_from(
        arena,
        Restriction {
            f: node.high,
            ..asked
        },
    )?;
    let g = arena.mk(node.variable, low, high)?;
    arena.cache_result(Operation::Restrict(asked), g);
    Ok(g)
}
