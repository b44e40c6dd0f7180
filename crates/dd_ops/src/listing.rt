// The nodes under a node.
ghost use Rattle.std.specs.Prelude.{◌≡◌, ◌↔◌, [], ◌∷◌, ◌++◌, IfOk, OnOk, IsTrue};
ghost use Rattle.dd_core.specs.Arenas.{IsArena, Holds};
ghost use Rattle.dd_ops.specs.Listed.{IsListed, IsListing, ListsUnder};
ghost use Rattle.dd_ops.specs.inner.Visited.{Agrees, Visits};

use dd_core::{Arena, NodeId};
use std::alloc::{AllocError, Global};
use std::collections::HashSet;

/// The nodes under f with f, without constants: each once, and children before parents.
pub fn nodes(alloc: Global, arena: &Arena, f: NodeId) -> Result<Vec<NodeId>, AllocError>
    requires held { Holds arena.now f.0 }
    ensures { IfOk result (λ ids. ListsUnder arena.now.nodes f ids.items) }
{
    let mut listing = Listing::new(alloc);
    visit(arena, &mut listing, f)?;
    Ok(listing.into_ids())
}

/// Lists the nodes under f that aren't listed yet.
fn visit(arena: &Arena, listing: &mut Listing, f: NodeId) -> Result<(), AllocError>
    requires held { Holds arena.now f.0 }
    requires agrees { Agrees listing.old }
    requires listing { IsListing arena.now.nodes listing.old.ids.items }
    ensures visits { OnOk result (Visits arena.now.nodes listing.old listing.new f) }
    ensures arena { IsArena arena.now }
{
    let Some(node) = arena.node(f) else {
        return Ok(());
    };
    if listing.has(f) {
        return Ok(());
    }
    visit(arena, listing, node.low)?;
    visit(arena, listing, node.high)?;
    listing.push(f)?;
    Ok(())
}

/// The ids that were come to, in order, and the set of them.
#[derive(Drop)]
struct Listing {
    ids: Vec<NodeId>,
    seen: HashSet<NodeId>,
}

impl Listing {
    fn new(alloc: Global) -> Self
        ensures empty { result.ids.items ≡ [] }
        ensures agrees { Agrees result }
    {
        Listing {
            ids: Vec::new(alloc),
            seen: HashSet::new(alloc),
        }
    }

    fn has(&self, f: NodeId) -> bool
        requires agrees { Agrees self.now }
        ensures { IsTrue result ↔ IsListed self.now.ids.items f }
    {
        self.seen.contains(&f)
    }

    fn push(&mut self, f: NodeId) -> Result<(), AllocError>
        requires agrees { Agrees self.old }
        ensures pushed { OnOk result (self.new.ids.items ≡ self.old.ids.items ++ f ∷ []) }
        ensures agrees { OnOk result (Agrees self.new) }
    {
        self.ids.push(f)?;
        self.seen.insert(f)?;
        Ok(())
    }

    fn into_ids(self) -> Vec<NodeId>
        ensures { result.items ≡ self.ids.items }
    {
        let Listing { ids, seen: _ } = self;
        ids
    }
}
