// Parts of the cyclic bits that don't depend on each other.
ghost use Rattle.std.specs.Prelude.{◌≡◌, ◌+◌, ◌<◌, ◌≤◌, ℕ, Some, length, All, Contains, IfOk, IfSome};
ghost use Rattle.dd_core.specs.declared.nodes.Node.{Node};
ghost use Rattle.dd_core.specs.Arenas.{IsArena, Holds};
ghost use Rattle.dd_core.specs.Diagrams.{node_at};
ghost use Rattle.verdict_search.specs.Parts.{part_of};
ghost use Rattle.verdict_search.specs.inner.Parting.{Tests, AreClosed, IsRelabelled, KeepsTogether};

use dd_core::{Arena, NodeId};
use dd_ops::nodes;
use std::alloc::{AllocError, Global};

/// The cyclic bits in parts: those of different parts don't depend on each other.
#[derive(Debug, Drop)]
pub struct Parts {
    /// The part of each cyclic bit.
    pub(crate) labels: Vec<usize>,
    /// For each part the node of the function that is true where its bits have the values of their functions.
    pub(crate) consistent: Vec<NodeId>,
}

/// The part of each cyclic bit, where `bits` are their functions: a bit is in one part with those whose
/// variables its function reads.
pub(crate) fn labels_of(
    alloc: Global,
    arena: &Arena,
    points: u32,
    bits: &[NodeId],
) -> Result<Vec<usize>, AllocError>
    requires variables { points + length bits.now ≡ arena.now.variables }
    requires bits { All (λ f. Holds arena.now f.0) bits.now }
    ensures sized { IfOk result (λ labels. length labels.items ≡ length bits.now) }
    ensures labelled { IfOk result (λ labels. All (λ p. p < length bits.now) labels.items) }
    ensures closed { IfOk result (λ labels. AreClosed arena.now.nodes points bits.now labels.items) }
{
    let mut labels: Vec<usize> = (0..bits.len()).collect(alloc)?;
    for (place, bit) in bits.iter().enumerate() {
        let read = bits_read(alloc, arena, points, *bit)?;
        join_all(&mut labels, place, &read);
    }
    Ok(labels)
}

// Brings a cyclic bit into one part with all of these.
fn join_all(labels: &mut [usize], place: usize, others: &[usize])
    requires place { place < length labels.old }
    requires others { All (λ j. j < length labels.old) others.now }
    requires labelled { All (λ p. p < length labels.old) labels.old }
    ensures sized { length labels.new ≡ length labels.old }
    ensures labelled { All (λ p. p < length labels.old) labels.new }
    ensures together { KeepsTogether labels.old labels.new }
    ensures joined { All (λ j. part_of labels.new j ≡ part_of labels.new place) others.now }
{
    for other in others {
        let kept = labels[place];
        let left = labels[*other];
        relabel(labels, left, kept);
    }
}

// Gives each cyclic bit with the label `left` the label `kept`.
fn relabel(labels: &mut [usize], left: usize, kept: usize)
    ensures sized { length labels.new ≡ length labels.old }
    ensures relabelled { IsRelabelled left kept labels.old labels.new }
{
    for place in 0..labels.len() {
        if labels[place] == left {
            labels[place] = kept;
        }
    }
}

/// The cyclic bits, by number, whose variables f reads.
pub(crate) fn bits_read(
    alloc: Global,
    arena: &Arena,
    points: u32,
    f: NodeId,
) -> Result<Vec<usize>, AllocError>
    requires held { Holds arena.now f.0 }
    ensures inside { IfOk result (λ read. All (λ j. points + j < arena.now.variables) read.items) }
    ensures read { IfOk result (λ read. (j : ℕ) → Tests arena.now.nodes (points + j) f → Contains read.items j) }
{
    let mut read = Vec::new(alloc);
    for g in &nodes(alloc, arena, f)? {
        if let Some(bit) = bit_tested(arena, points, *g) {
            read.push(bit)?;
        }
    }
    Ok(read)
}

// The cyclic bit, by number, whose variable the node tests.
fn bit_tested(arena: &Arena, points: u32, f: NodeId) -> Option<usize>
    ensures inside { IfSome result (λ j. points + j < arena.now.variables) }
    ensures tested { (j : ℕ) (n : Node) → node_at arena.now.nodes f.0 ≡ Some n → n.variable ≡ points + j → result ≡ Some j }
{
    // The proof begins with what this call says of the arena.
    let _ = arena.variables();
    match arena.node(f) {
        Some(node) if node.variable >= points => Some((node.variable - points) as usize),
        _ => None,
    }
}
