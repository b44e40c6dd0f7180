// The lines that compute nodes of diagrams.
ghost use Rattle.std.specs.Prelude.{◌≡◌, ◌+◌, ◌*◌, ◌<◌, ◌^◌, ◌++◌, length, map, IfOk, OnOk};
ghost use Rattle.dd_ops.specs.Listed.{IsListing};
ghost use Rattle.eqn_core.specs.Views.{literal_of, line_of};
ghost use Rattle.eqn_verdict.specs.Branches.{plus, minus, and_node, variable_bit};
ghost use Rattle.eqn_verdict.specs.Branches.{branch_lines, branches_after, root_lines};
ghost use Rattle.eqn_verdict.specs.FromArena.{branches_of, root_ids};
ghost use Rattle.eqn_verdict.specs.Solved.{no_table};
ghost use Rattle.cycle_solve.specs.inner.Building as building;

use argos_base::OutOfMemory;
use dd_core::{Arena, Node, NodeId};
use eqn_core::{Line, Lit};
use smallvec::SmallVec;
use std::alloc::Global;
use std::collections::HashMap;

/// Adds three lines for each node, and answers the bit that computes it. The ids list children before
/// parents. The digits of registers are so many bits behind the inputs, and the first line defines bit
/// `first`.
pub(crate) fn push_branches(
    alloc: Global,
    arena: &Arena,
    ids: &[NodeId],
    inputs: u32,
    register_bits: u32,
    first: u32,
    lines: &mut Vec<Line>,
) -> Result<HashMap<NodeId, u32>, OutOfMemory>
    requires listing { IsListing arena.now.nodes ids.now }
    requires variables { inputs + register_bits < 2 ^ 32 }
    requires room { first + 3 * length ids.now < 2 ^ 32 }
    ensures lines { IfOk result (λ _. map line_of lines.new.items ≡ map line_of lines.old.items
        ++ branch_lines (variable_bit inputs register_bits) (branches_of arena.now.nodes ids.now)
        no_table first) }
    ensures table { IfOk result (λ bits. building.table_of bits
        ≡ branches_after (branches_of arena.now.nodes ids.now) no_table first) }
{
    let mut bits = HashMap::new(alloc);
    let mut bit = first;
    for id in ids {
        let Some(node) = arena.node(*id) else {
            unreachable!()
        };
        let variable = variable_bit(inputs, register_bits, node.variable);
        push_branch(alloc, lines, &bits, node, variable, bit)?;
        bits.insert(*id, bit + 2)?;
        bit += 3;
    }
    Ok(bits)
}

/// Adds a line for each root.
pub(crate) fn push_roots(
    alloc: Global,
    roots: &[NodeId],
    bits: &HashMap<NodeId, u32>,
    lines: &mut Vec<Line>,
) -> Result<(), OutOfMemory>
    ensures { OnOk result (map line_of lines.new.items ≡ map line_of lines.old.items
        ++ root_lines (root_ids roots.now) (building.table_of bits.now)) }
{
    for root in roots {
        lines.push(and_node(alloc, &[], *root, bits)?)?;
    }
    Ok(())
}

// The three lines of a node whose variable is this bit: its children met with the variable or its
// opposite, and either.
fn push_branch(
    alloc: Global,
    lines: &mut Vec<Line>,
    bits: &HashMap<NodeId, u32>,
    node: Node,
    variable: u32,
    bit: u32,
) -> Result<(), OutOfMemory>
    requires room { bit + 1 < 2 ^ 32 }
    ensures { OnOk result (map line_of lines.new.items ≡ map line_of lines.old.items
        ++ building.node_lines variable node.low.0 node.high.0 (building.table_of bits.now) bit) }
{
    let high = and_node(alloc, &[plus(variable)], node.high, bits)?;
    let low = and_node(alloc, &[minus(variable)], node.low, bits)?;
    let either = SmallVec::from_slice(alloc, &[plus(bit), plus(bit + 1)])?;
    lines.push(high)?;
    lines.push(low)?;
    lines.push(Line::Any(either))?;
    Ok(())
}

// The line that is true where the literals and the node are.
fn and_node(
    alloc: Global,
    literals: &[Lit],
    f: NodeId,
    bits: &HashMap<NodeId, u32>,
) -> Result<Line, OutOfMemory>
    ensures { IfOk result (λ l. line_of l
        ≡ and_node (map literal_of literals.now) f.0 (building.table_of bits.now)) }
{
    if f == NodeId::FALSE {
        return Ok(Line::Any(SmallVec::new(alloc)));
    }
    let mut met = SmallVec::new(alloc);
    if f != NodeId::TRUE {
        met.push(plus(bit_of(bits, f)))?;
    }
    met.extend_from_slice(literals)?;
    Ok(Line::All(met))
}

// The bit of a node, 0 where it has none.
fn bit_of(bits: &HashMap<NodeId, u32>, f: NodeId) -> u32
    ensures { result ≡ building.table_of bits.now f.0 }
{
    bits.get(&f).copied().unwrap_or(0)
}

// The bit of a variable: the digits of registers are the first variables, and stand behind the inputs.
fn variable_bit(inputs: u32, register_bits: u32, variable: u32) -> u32
    requires { inputs + register_bits < 2 ^ 32 }
    ensures { result ≡ variable_bit inputs register_bits variable }
{
    if variable < register_bits {
        inputs + variable
    } else {
        variable - register_bits
    }
}

fn plus(bit: u32) -> Lit
    ensures { literal_of result ≡ plus bit }
{
    Lit {
        bit,
        negated: false,
    }
}

fn minus(bit: u32) -> Lit
    ensures { literal_of result ≡ minus bit }
{
    Lit { bit, negated: true }
}
