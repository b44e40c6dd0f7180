// Operations, and the cache of their results.
ghost use Rattle.std.specs.Prelude.{◌≡◌, ◌<◌, ◌≤◌, IfOk, IfSome, IfNone, ◌⊎◌};
ghost use Rattle.std.specs.Vec.{vec_len};
ghost use Rattle.dd_core.specs.declared.nodes.NodeId.{NodeId};
ghost use Rattle.dd_core.specs.declared.cache.Operation.{Operation};
ghost use Rattle.dd_core.specs.inner.Caches.{IsRecorded, IsInitial};
ghost use Rattle.dd_core.specs.inner.Choices.{IsSettled};

use crate::nodes::NodeId;
use crate::vectors::filled;
use std::alloc::{AllocError, Global};

/// The function that is `yes` where `test` is true, and `no` elsewhere.
#[derive(Clone, Copy, Debug, PartialEq, Eq)]
pub struct Choice {
    pub test: NodeId,
    pub yes: NodeId,
    pub no: NodeId,
}

/// The function of f with this variable set to this value.
#[derive(Clone, Copy, Debug, PartialEq, Eq)]
pub struct Restriction {
    pub f: NodeId,
    pub variable: u32,
    pub value: bool,
}

/// An operation whose results an arena keeps.
#[derive(Clone, Copy, Debug, PartialEq, Eq)]
pub enum Operation {
    Choose(Choice),
    Restrict(Restriction),
}

impl Choice {
    /// The node of the function, where the operands show it.
    pub(crate) fn settled(self) -> Option<NodeId>
        ensures some { IfSome result (IsSettled self) }
        ensures none { IfNone result (2 ≤ self.test.0) }
    {
        if self.test == NodeId::TRUE || self.yes == self.no {
            Some(self.yes)
        } else if self.test == NodeId::FALSE {
            Some(self.no)
        } else if self.yes == NodeId::TRUE && self.no == NodeId::FALSE {
            Some(self.test)
        } else {
            None
        }
    }
}

/// How many results a cache keeps.
const ENTRIES: usize = 65_536;

/// An operation with its result.
#[derive(Clone, Copy, Debug)]
pub(crate) struct Entry {
    pub operation: Operation,
    pub node: NodeId,
}

impl Entry {
    /// An entry that is right in each arena: where false is true, it is true, and else false.
    pub fn initial() -> Entry
        ensures { IsInitial result }
    {
        Entry {
            operation: Operation::Choose(Choice {
                test: NodeId::FALSE,
                yes: NodeId::TRUE,
                no: NodeId::FALSE,
            }),
            node: NodeId::FALSE,
        }
    }
}

/// Results of operations. Each has one place, where a later result overwrites it.
#[derive(Debug, Drop)]
pub(crate) struct Cache {
    pub entries: Vec<Entry>,
    ghost sized: { vec_len entries ≡ 65536 },
}

impl Cache {
    pub fn new(alloc: Global) -> Result<Self, AllocError>
        ensures { IfOk result (λ cache. (operation : Operation) (f : NodeId)
            → IsRecorded cache.entries.items operation f → IsInitial (record { operation = operation; node = f })) }
    {
        Ok(Cache {
            entries: filled(alloc, Entry::initial(), ENTRIES)?,
        })
    }

    /// The result that is kept of this operation.
    pub fn get(&self, operation: Operation) -> Option<NodeId>
        ensures { IfSome result (IsRecorded self.now.entries.items operation) }
    {
        let entry = self.entries[place_of(operation)];
        if entry.operation == operation {
            Some(entry.node)
        } else {
            None
        }
    }

    /// Keeps a result, in place of the one that has its place.
    pub fn put(&mut self, operation: Operation, f: NodeId)
        ensures { (other : Operation) (g : NodeId) → IsRecorded self.new.entries.items other g
            → IsRecorded self.old.entries.items other g ⊎ (other ≡ operation) × (g ≡ f) }
    {
        let place = place_of(operation);
        self.entries[place] = Entry { operation, node: f };
    }
}

/// The place of an operation in a cache. Any would do: a good one is seldom another's.
fn place_of(operation: Operation) -> usize
    ensures { result < 65536 }
{
    let number = match operation {
        Operation::Choose(choice) => mix(choice.test.0, choice.yes.0, choice.no.0),
        Operation::Restrict(restriction) => mix(
            restriction.f.0,
            restriction.variable,
            restriction.value as u32,
        ),
    };
    number as usize % ENTRIES
}

/// A number of three others, spread by odd factors.
fn mix(first: u32, second: u32, third: u32) -> u64 {
    first as u64 * 12_582_917 + second as u64 * 4_256_249 + third as u64 * 741_457
}
