// The nodes under several nodes.
ghost use Rattle.std.specs.Prelude.{◌≡◌, ◌↔◌, List, [], ◌∷◌, ◌++◌, length, All, IfOk, OnOk, IsTrue};
ghost use Rattle.dd_core.specs.declared.nodes.NodeId.{NodeId};
ghost use Rattle.dd_core.specs.Arenas.{IsArena, Holds};
ghost use Rattle.dd_ops.specs.Listed.{IsListed, IsListing, ListsUnder};
ghost use Rattle.cycle_solve.specs.inner.Listing.{AreUnder, Agrees, NewOnes, Takes};

use argos_base::OutOfMemory;
use dd_core::{Arena, NodeId};
use dd_ops::nodes;
use std::alloc::Global;
use std::collections::HashSet;

/// The nodes under all roots with the roots, without constants: each once, and children before parents. Time is
/// linear in the nodes under each root, of which one after the other is walked.
pub(crate) fn nodes_under(
    alloc: Global,
    arena: &Arena,
    roots: &[NodeId],
) -> Result<Vec<NodeId>, OutOfMemory>
    requires held { All (λ f. Holds arena.now f.0) roots.now }
    ensures under { IfOk result (λ ids. AreUnder arena.now.nodes roots.now ids.items) }
{
    let mut listing = Listing::new(alloc);
    for root in roots {
        let under = nodes(alloc, arena, *root)?;
        take_new(&mut listing, &under)?;
    }
    Ok(listing.into_ids())
}

// Lists those that aren't listed yet.
fn take_new(listing: &mut Listing, ids: &[NodeId]) -> Result<(), OutOfMemory>
    requires { Agrees listing.old }
    ensures { OnOk result (Takes listing.old listing.new ids.now) }
{
    for id in ids {
        listing.take(*id)?;
    }
    Ok(())
}

/// The ids that were come to, in order, and the set of them.
#[derive(Drop)]
struct Listing {
    ids: Vec<NodeId>,
    seen: HashSet<NodeId>,
}

impl Listing {
    fn new(alloc: Global) -> Self
        ensures empty { result.ids.items ≡ [] }
        ensures agrees { Agrees result }
    {
        Listing {
            ids: Vec::new(alloc),
            seen: HashSet::new(alloc),
        }
    }

    // Lists it if it isn't listed yet.
    fn take(&mut self, f: NodeId) -> Result<(), OutOfMemory>
        requires { Agrees self.old }
        ensures agrees { OnOk result (Agrees self.new) }
        ensures taken { OnOk result ((rest ids : List NodeId) → NewOnes self.new.ids.items rest ids
            → NewOnes self.old.ids.items (f ∷ rest) ids) }
    {
        if self.has(f) {
            return Ok(());
        }
        self.push(f)
    }

    fn has(&self, f: NodeId) -> bool
        requires agrees { Agrees self.now }
        ensures { IsTrue result ↔ IsListed self.now.ids.items f }
    {
        self.seen.contains(&f)
    }

    fn push(&mut self, f: NodeId) -> Result<(), OutOfMemory>
        requires agrees { Agrees self.old }
        ensures pushed { OnOk result (self.new.ids.items ≡ self.old.ids.items ++ f ∷ []) }
        ensures agrees { OnOk result (Agrees self.new) }
    {
        self.ids.push(f)?;
        self.seen.insert(f)?;
        Ok(())
    }

    fn into_ids(self) -> Vec<NodeId>
        ensures { result.items ≡ self.ids.items }
    {
        let Listing { ids, seen: _ } = self;
        ids
    }
}
