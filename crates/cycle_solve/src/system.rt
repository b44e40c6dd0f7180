// The system whose cyclic bits are computed from nodes.
ghost use Rattle.std.specs.Prelude.{◌≡◌, ◌+◌, ◌≤◌, ◌++◌, length, map, IfOk, IsTrue};
ghost use Rattle.dd_ops.specs.Listed.{IsListing};
ghost use Rattle.eqn_core.specs.Equations.{registers};
ghost use Rattle.eqn_core.specs.Orderable.{IsOrderable};
ghost use Rattle.eqn_core.specs.Ordered.{all_below};
ghost use Rattle.eqn_core.specs.Plans.{IsPlanOf};
ghost use Rattle.eqn_core.specs.Views.{line_of, equations_from};
ghost use Rattle.eqn_completion.specs.Binary.{digits_in};
ghost use Rattle.eqn_verdict.specs.Branches.{digit_lines, branch_lines, branches_after, root_lines, variable_bit};
ghost use Rattle.eqn_verdict.specs.FromArena.{branches_of, root_ids};
ghost use Rattle.eqn_verdict.specs.Solved.{no_table, solved_system};
ghost use Rattle.instant_verdict.specs.inner.Decoded.{register_widths};

use crate::branches::{push_branches, push_roots};
use crate::digits::push_digits;
use argos_base::OutOfMemory;
use dd_core::{Arena, NodeId};
use eqn_core::{Line, Plan, System};
use eqn_sort::{Tables, move_lines};
use std::alloc::Global;

/// The system with lines for the digits of its registers, for the nodes and for the roots, one for each
/// cyclic bit, and its other lines behind them in the order of the plan. The ids list the nodes under
/// the roots, and `points` counts register bits and inputs.
pub(crate) fn solved_system(
    alloc: Global,
    system: &System,
    plan: &Plan,
    digits: &[(u32, u8)],
    points: u32,
    arena: &Arena,
    ids: &[NodeId],
    roots: &[NodeId],
) -> Result<System, OutOfMemory>
    requires orderable { IsOrderable (equations_from system.now) }
    requires plan { IsPlanOf (equations_from system.now) plan.now.order.items plan.now.cyclic.items }
    requires digits { length digits.now ≡ length system.now.init.items }
    requires points { points ≡ digits_in (register_widths digits.now) + system.now.inputs }
    requires listing { IsListing arena.now.nodes ids.now }
    requires few_variables { points + length plan.now.cyclic.items ≤ 1024 }
    requires few_nodes { length ids.now ≤ 16777216 }
    ensures is { IfOk result (λ s. equations_from s
        ≡ solved_system (equations_from system.now) plan.now.order.items plan.now.cyclic.items
        (register_widths digits.now) (branches_of arena.now.nodes ids.now) (root_ids roots.now)) }
    ensures codes { IfOk result (λ _. IsTrue (all_below 65536 system.now.init.items)) }
{
    let mut lines = root_lines(alloc, digits, system.inputs, points, arena, ids, roots)?;
    let first_root = points + 3 * ids.len() as u32;
    let mut tables = Tables::with_given(alloc, system, &plan.cyclic, first_root)?;
    move_lines(alloc, system, plan, &mut tables, &mut lines)?;
    Ok(System {
        inputs: system.inputs,
        init: copy_codes(alloc, &system.init)?,
        lines,
        outs: tables.new_bits(alloc, &system.outs)?,
        locals: Vec::new(alloc),
        next: tables.new_words(alloc, &system.next)?,
    })
}

// The lines of digits, nodes and roots.
fn root_lines(
    alloc: Global,
    digits: &[(u32, u8)],
    inputs: u32,
    points: u32,
    arena: &Arena,
    ids: &[NodeId],
    roots: &[NodeId],
) -> Result<Vec<Line>, OutOfMemory>
    requires few_digits { length digits.now ≤ 100000 }
    requires points { points ≡ digits_in (register_widths digits.now) + inputs }
    requires listing { IsListing arena.now.nodes ids.now }
    requires few_variables { points ≤ 1024 }
    requires few_nodes { length ids.now ≤ 16777216 }
    ensures { IfOk result (λ lines.
        let widths = register_widths digits.now in
        let ns = branches_of arena.now.nodes ids.now in
        let first = inputs + digits_in widths in
        map line_of lines.items ≡ digit_lines 0 widths
        ++ (branch_lines (variable_bit inputs (digits_in widths)) ns no_table first
        ++ root_lines (root_ids roots.now) (branches_after ns no_table first))) }
{
    let mut lines = Vec::new(alloc);
    push_digits(&mut lines, digits)?;
    let bits = push_branches(
        alloc,
        arena,
        ids,
        inputs,
        points - inputs,
        points,
        &mut lines,
    )?;
    push_roots(alloc, roots, &bits, &mut lines)?;
    Ok(lines)
}

// The same codes, each of which has 16 bits.
fn copy_codes(alloc: Global, codes: &[u16]) -> Result<Vec<u16>, OutOfMemory>
    ensures items { IfOk result (λ v. v.items ≡ codes.now) }
    ensures codes { IfOk result (λ _. IsTrue (all_below 65536 codes.now)) }
{
    Ok(Vec::from_slice(alloc, codes)?)
}
