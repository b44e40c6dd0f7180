// The unique table: the nodes, and chains through them.
ghost use Rattle.std.specs.Prelude.{◌≡◌, ◌≢◌, ℕ, ◌+◌, ◌-◌, ◌<◌, ◌≤◌, [], ◌∷◌, ◌++◌, Some, IfOk, OnOk, OnErr, IfSome, IfNone, length, slice_get};
ghost use Rattle.dd_core.specs.declared.nodes.NodeId.{NodeId};
ghost use Rattle.dd_core.specs.Chains.{bucket_of, bucket_count, IsChain};
ghost use Rattle.dd_core.specs.Diagrams.{node_at};
ghost use Rattle.dd_core.specs.inner.Adding.{by_id};
ghost use Rattle.dd_core.specs.inner.Tables.{slot_nodes, IsLinkedTo};

use crate::nodes::{Node, NodeId};
use crate::vectors::filled;
use std::alloc::{AllocError, Global};
use std::marker::Model;

/// How many chains there are at first.
const FIRST_BUCKETS: usize = 256;

/// A node, and the next one of its chain; the constant false ends a chain.
#[derive(Clone, Copy, Debug)]
pub(crate) struct Slot {
    pub node: Node,
    pub next: NodeId,
}

/// Nodes that have the ids from 2 on, each in the chain of its bucket.
#[derive(Debug, Drop)]
pub(crate) struct Table {
    /// The node with id k + 2 at place k.
    slots: Vec<Slot>,
    /// The first node of each chain; the constant false where it has none.
    heads: Vec<NodeId>,
}

impl Model for Table {
    ghost use Rattle.std.specs.Prelude.{List};
    ghost use Rattle.dd_core.specs.declared.nodes.Node.{Node};
    ghost use Rattle.dd_core.specs.inner.Tables.{slot_nodes, IsTable};

    ghost Value = { List Node };

    ghost view = { λ t. slot_nodes t.slots.items };

    ghost invariant = { λ t. IsTable t.slots.items t.heads.items };
}

impl Table {
    pub fn new(alloc: Global) -> Result<Self, AllocError>
        ensures { IfOk result (λ table. table ≡ []) }
    {
        Ok(Table {
            slots: Vec::new(alloc),
            heads: filled(alloc, NodeId::FALSE, FIRST_BUCKETS)?,
        })
    }

    /// How many nodes there are, without constants.
    pub fn len(&self) -> usize
        ensures len { result ≡ length self.now }
        ensures few { length self.now + 2 ≤ 16777216 }
    {
        self.slots.len()
    }

    /// The node with this id.
    pub fn node(&self, f: NodeId) -> Option<Node>
        ensures { result ≡ node_at (by_id self.now) f.0 }
    {
        Some(slot_of(&self.slots, f)?.node)
    }

    /// The id of the node with this triple, by a walk along its chain.
    pub fn find(&self, node: Node) -> Option<NodeId>
        ensures found { IfSome result (λ f. node_at (by_id self.now) f.0 ≡ Some node) }
        ensures none { IfNone result ((f : ℕ) → node_at (by_id self.now) f ≢ Some node) }
    {
        let mut at = self.heads[bucket_of(node, self.heads.len())];
        while let Some(slot) = slot_of(&self.slots, at) {
            if slot.node == node {
                return Some(at);
            }
            at = slot.next;
        }
        None
    }

    /// Puts a node behind the others, and at the head of its chain. Where there are as many nodes as buckets, constants
    /// included, there are twice as many buckets first.
    pub fn push(&mut self, node: Node) -> Result<(), AllocError>
        requires room { length self.old + 2 < 16777216 }
        ensures ok { OnOk result (self.new ≡ self.old ++ node ∷ []) }
        ensures err { OnErr result (self.new ≡ self.old) }
    {
        let place = self.slots.len();
        let slot = Slot {
            node,
            next: NodeId::FALSE,
        };
        if place + 2 == self.heads.len() {
            let mut heads = filled(*self.heads.allocator(), NodeId::FALSE, 2 * self.heads.len())?;
            self.slots.push(slot)?;
            link_all(&mut self.slots, &mut heads);
            self.heads = heads;
        } else {
            self.slots.push(slot)?;
            link(&mut self.slots, &mut self.heads, place);
        }
        Ok(())
    }

    /// How many chains there are.
    pub fn buckets(&self) -> u32
        ensures { result ≡ bucket_count (length self.now + 2) }
    {
        self.heads.len() as u32
    }

    /// The ids of a chain, the greatest first.
    pub fn chain(&self, bucket: u32) -> Result<Vec<NodeId>, AllocError>
        requires { bucket < bucket_count (length self.now + 2) }
        ensures { IfOk result (λ ids. IsChain (by_id self.now) (bucket_count (length self.now + 2)) bucket ids.items) }
    {
        let mut ids = Vec::new(*self.heads.allocator());
        let mut id = self.heads[bucket as usize];
        while let Some(slot) = slot_of(&self.slots, id) {
            ids.push(id)?;
            id = slot.next;
        }
        Ok(ids)
    }
}

/// The slot of the node with this id.
fn slot_of(slots: &[Slot], f: NodeId) -> Option<Slot>
    ensures some { IfSome result (λ s. (2 ≤ f.0) × (slice_get slots.now (f.0 - 2) ≡ Some s)) }
    ensures none { IfNone result (node_at (by_id (slot_nodes slots.now)) f.0 ≡ None) }
{
    if f.0 < 2 {
        None
    } else {
        slots.get(f.0 as usize - 2).copied()
    }
}

/// The bucket of a triple among so many.
fn bucket_of(node: Node, buckets: usize) -> usize
    requires { 0 < buckets }
    ensures value { result ≡ bucket_of buckets node }
    ensures below { result < buckets }
{
    let number = (node.variable as u64 * 31 + node.low.0 as u64) * 31 + node.high.0 as u64;
    number as usize % buckets
}

/// Puts the slot at this place at the head of its chain, where those before it are linked.
fn link(slots: &mut [Slot], heads: &mut [NodeId], place: usize)
    requires place { place < length slots.old }
    requires few { length slots.old + 2 ≤ 16777216 }
    requires some { 0 < length heads.old }
    requires linked { IsLinkedTo (place + 2) slots.old heads.old }
    ensures nodes { slot_nodes slots.new ≡ slot_nodes slots.old }
    ensures linked { IsLinkedTo (place + 3) slots.new heads.new }
{
    let node = slots[place].node;
    let bucket = bucket_of(node, heads.len());
    slots[place] = Slot {
        node,
        next: heads[bucket],
    };
    heads[bucket] = NodeId(place as u32 + 2);
}

/// Links all slots, where no chain has a node.
fn link_all(slots: &mut [Slot], heads: &mut [NodeId])
    requires few { length slots.old + 2 ≤ 16777216 }
    requires some { 0 < length heads.old }
    requires empty { (b : ℕ) (h : NodeId) → slice_get heads.old b ≡ Some h → h.0 ≡ 0 }
    ensures nodes { slot_nodes slots.new ≡ slot_nodes slots.old }
    ensures linked { IsLinkedTo (length slots.old + 2) slots.new heads.new }
{
    for place in 0..slots.len() {
        link(slots, heads, place);
    }
}
