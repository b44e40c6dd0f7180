ghost use Rattle.std.specs.Prelude.{◌≡◌, ℕ, ◌<◌, ◌≤◌, Some, length, map, filter, All, IfOk};
ghost use Rattle.eqn_core.specs.Orderable.{IsOrderable};
ghost use Rattle.eqn_core.specs.Plans.{AreCyclicBits, IsPlanOf};
ghost use Rattle.eqn_core.specs.Views.{line_of, equations_from};
ghost use Rattle.eqn_order.specs.inner.Cyclic.{leads_back, is_on_cycle};
ghost use Rattle.eqn_order.specs.inner.Graphs.{rows_of, AreRows, IsFinishingOrder};
ghost use Rattle.eqn_order.specs.inner.Sources.{origins_of, line_of_bit, all_given, graph_of};
ghost use Rattle.eqn_order.specs.inner.Views.{origins_from};

use crate::components::components;
use crate::finishing::finishing_order;
use crate::graph::{row_of, rows};
use crate::sources::Sources;
use argos_base::OutOfMemory;
use eqn_core::{Plan, System};
use std::alloc::Global;

/// The plan of a system: an order of its lines, and the local bits that depend on themselves, which are taken as given in it. Each
/// cycle among the bits, also one through the word of a choice, has to pass a bit of a local, and each choice to read bits and
/// registers alone. The cyclic bits are the only ones; where several orders serve, any of them is given.
///
/// It finds strong components by two searches, after Kosaraju and Sharir (1981), with stacks of its own, in time and memory linear in
/// the weight of the system.
pub fn order(alloc: Global, system: &System) -> Result<Plan, OutOfMemory>
    requires { IsOrderable (equations_from system.now) }
    ensures { IfOk result (λ p. IsPlanOf (equations_from system.now) p.order.items p.cyclic.items) }
{
    Ok(make_plan(alloc, system)?)
}

// What is made of any system is a plan where the system is orderable.
pub(crate) fn make_plan(alloc: Global, system: &System) -> Result<Plan, OutOfMemory>
    requires { length system.now.lines.items ≤ 30000000 }
    ensures { IfOk result (λ p. IsOrderable (equations_from system.now) → IsPlanOf (equations_from system.now) p.order.items p.cyclic.items) }
{
    let mut sources = Sources::of(alloc, system)?;
    let cyclic = cyclic_bits(alloc, system, &sources)?;
    give_all(&mut sources, &cyclic);
    let order = order_of_rest(alloc, system, &sources)?;
    Ok(Plan { order, cyclic })
}

// The local bits that depend on themselves.
fn cyclic_bits(alloc: Global, system: &System, sources: &Sources) -> Result<Vec<u32>, OutOfMemory>
    requires count { length system.now.lines.items ≤ 30000000 }
    requires sources { origins_from sources.now ≡ origins_of (equations_from system.now) }
    ensures { IfOk result (λ v. IsOrderable (equations_from system.now) → AreCyclicBits (equations_from system.now) v.items) }
{
    let rows = rows(alloc, &system.lines, sources)?;
    let roots = components(alloc, &rows)?;
    Ok(bits_on_cycles(alloc, &system.locals, sources, &rows, &roots)?)
}

// Those of the bits whose lines are on a cycle.
#[tactic(auto, using(crate::proofs::Building::building))]
fn bits_on_cycles(
    alloc: Global,
    bits: &[u32],
    sources: &Sources,
    rows: &[Vec<u32>],
    roots: &[usize],
) -> Result<Vec<u32>, OutOfMemory>
    requires inside { AreRows (rows_of rows.now) }
    requires roots { length roots.now ≡ length rows.now }
    requires lines { (k v : ℕ) → line_of_bit (origins_from sources.now) k ≡ Some v → v < length rows.now }
    ensures { IfOk result (λ v. v.items ≡ filter (λ k. is_on_cycle (rows_of rows.now) roots.now (line_of_bit (origins_from sources.now) k)) bits.now) }
{
    let mut cyclic = Vec::new(alloc);
    for bit in bits {
        if is_on_cycle(rows, roots, sources.of_bit(*bit)) {
            cyclic.push(*bit)?;
        }
    }
    Ok(cyclic)
}

// Whether there is a line, and it is on a cycle.
fn is_on_cycle(rows: &[Vec<u32>], roots: &[usize], line: Option<u32>) -> bool
    requires inside { AreRows (rows_of rows.now) }
    requires roots { length roots.now ≡ length rows.now }
    requires line { (v : ℕ) → line ≡ Some v → v < length rows.now }
    ensures { result ≡ is_on_cycle (rows_of rows.now) roots.now line }
{
    match line {
        None => false,
        Some(line) => leads_back(row_of(rows, line as usize), roots, line),
    }
}

// Whether a line leads to one of its own component.
fn leads_back(row: &[u32], roots: &[usize], line: u32) -> bool
    requires row { All (λ w. w < length roots.now) row.now }
    requires line { line < length roots.now }
    ensures { result ≡ leads_back row.now roots.now line }
{
    row.iter()
        .any(|target| roots[*target as usize] == roots[line as usize])
}

// Takes the bits as given.
#[tactic(auto, using(crate::proofs::Building::building))]
fn give_all(sources: &mut Sources, bits: &[u32])
    ensures { origins_from sources.new ≡ all_given (origins_from sources.old) bits.now }
{
    for bit in bits {
        sources.give(*bit);
    }
}

// The order of the lines where what has no source is given.
fn order_of_rest(alloc: Global, system: &System, sources: &Sources) -> Result<Vec<u32>, OutOfMemory>
    requires inside { AreRows (graph_of (origins_from sources.now) (map line_of system.now.lines.items)) }
    requires count { length system.now.lines.items ≤ 30000000 }
    ensures { IfOk result (λ v. IsFinishingOrder (graph_of (origins_from sources.now) (map line_of system.now.lines.items)) v.items) }
{
    let rows = rows(alloc, &system.lines, sources)?;
    Ok(finishing_order(alloc, &rows)?)
}
