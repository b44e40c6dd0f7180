ghost use Rattle.std.specs.Prelude.{◌≡◌, ℕ, Bool, List, ◌+◌, ◌<◌, ◌≤◌, [], ◌∷◌, ◌++◌, true, false, length, slice_index_or, slice_set, IfOk, OnOk};
ghost use Rattle.argos_base.specs.SignalSets.{has};
ghost use Rattle.eqn_order.specs.inner.Graphs.{rows_of, Stands, AreRows, AreComponents};
ghost use Rattle.eqn_order.specs.inner.Searches.{Gathers};

use crate::finishing::finishing_order;
use crate::graph::{reversed, row_of};
use argos_base::OutOfMemory;
use std::alloc::Global;

// A search of the reversed graph.
#[derive(Drop)]
struct Gathering {
    seen: Vec<bool>,
    // for each line that was seen the place of the root of its component
    roots: Vec<usize>,
    // lines whose edges are still to be followed
    waiting: Vec<u32>,
}

/// A number for each line, so that a line and one that it leads to have the same exactly where they are in one component.
pub(crate) fn components(alloc: Global, rows: &[Vec<u32>]) -> Result<Vec<usize>, OutOfMemory>
    requires inside { AreRows (rows_of rows.now) }
    requires count { length rows.now ≤ 30000000 }
    ensures components { IfOk result (λ v. AreComponents (rows_of rows.now) v.items) }
    ensures sized { IfOk result (λ v. length v.items ≡ length rows.now) }
{
    let finished = finishing_order(alloc, rows)?;
    let readers = reversed(alloc, rows)?;
    Ok(roots(alloc, &readers, &finished)?)
}

// For each line the place of the root of its component.
fn roots(alloc: Global, readers: &[Vec<u32>], finished: &[u32]) -> Result<Vec<usize>, OutOfMemory>
    requires inside { AreRows (rows_of readers.now) }
    requires sized { length finished.now ≡ length readers.now }
    requires listed { (v : ℕ) → v < length readers.now → Stands finished.now v }
    requires lines { (v : ℕ) → Stands finished.now v → v < length readers.now }
    ensures { IfOk result (λ v. (seen : List Bool) × Gathers (rows_of readers.now) finished.now 0 0 seen v.items []) }
{
    let mut search = Gathering {
        seen: vec![in alloc; false; readers.len()]?,
        roots: vec![in alloc; 0; readers.len()]?,
        waiting: Vec::new(alloc),
    };
    let mut place = finished.len();
    while place > 0 {
        place -= 1;
        if search.seen[finished[place] as usize] {
            continue;
        }
        search.gather(readers, finished, place)?;
    }
    Ok(search.roots)
}

impl Gathering {
    // Gives the root's place to all that leads to it and wasn't seen before.
    fn gather(
        &mut self,
        readers: &[Vec<u32>],
        finished: &[u32],
        place: usize,
    ) -> Result<(), OutOfMemory>
        requires inside { AreRows (rows_of readers.now) }
        requires place { place < length finished.now }
        requires listed { (v : ℕ) → v < length readers.now → Stands finished.now v }
        requires lines { (v : ℕ) → Stands finished.now v → v < length readers.now }
        requires unseen { has self.old.seen.items (slice_index_or finished.now place 0) ≡ false }
        requires search { Gathers (rows_of readers.now) finished.now (place + 1) place self.old.seen.items self.old.roots.items [] }
        requires ended { self.old.waiting.items ≡ [] }
        ensures search { OnOk result (Gathers (rows_of readers.now) finished.now (place + 1) place self.new.seen.items self.new.roots.items []) }
        ensures ended { OnOk result (self.new.waiting.items ≡ []) }
        ensures seen { OnOk result (has self.new.seen.items (slice_index_or finished.now place 0) ≡ true) }
    {
        self.add(finished[place], place)?;
        while let Some(line) = self.waiting.pop() {
            let row = row_of(readers, line as usize);
            for reader in row {
                if self.seen[*reader as usize] {
                    continue;
                }
                self.add(*reader, place)?;
            }
        }
        Ok(())
    }

    fn add(&mut self, line: u32, place: usize) -> Result<(), OutOfMemory>
        requires seen { line < length self.old.seen.items }
        requires roots { line < length self.old.roots.items }
        ensures seen { OnOk result (self.new.seen.items ≡ slice_set self.old.seen.items line true) }
        ensures roots { OnOk result (self.new.roots.items ≡ slice_set self.old.roots.items line place) }
        ensures waiting { OnOk result (self.new.waiting.items ≡ self.old.waiting.items ++ line ∷ []) }
    {
        self.seen[line as usize] = true;
        self.roots[line as usize] = place;
        self.waiting.push(line)?;
        Ok(())
    }
}
