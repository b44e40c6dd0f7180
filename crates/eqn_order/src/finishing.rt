ghost use Rattle.std.specs.Prelude.{◌≡◌, ℕ, ◌<◌, ◌≤◌, [], ◌∷◌, ◌++◌, true, false, length, slice_set, IfOk, OnOk};
ghost use Rattle.argos_base.specs.SignalSets.{has};
ghost use Rattle.eqn_order.specs.inner.Graphs.{rows_of, AreRows, IsFinishingOrder};
ghost use Rattle.eqn_order.specs.inner.Searches.{Searches, work};
ghost use Rattle.eqn_order.specs.inner.Views.{IsSearch};

use crate::graph::edge;
use argos_base::OutOfMemory;
use std::alloc::Global;

// A depth-first search.
#[derive(Drop)]
struct Search {
    seen: Vec<bool>,
    // how many edges of each line were followed
    followed: Vec<usize>,
    // the lines from the root down to the current one
    path: Vec<u32>,
    // the lines that were left, in this order
    done: Vec<u32>,
}

/// The order in which a depth-first search leaves the lines.
pub(crate) fn finishing_order(alloc: Global, rows: &[Vec<u32>]) -> Result<Vec<u32>, OutOfMemory>
    requires inside { AreRows (rows_of rows.now) }
    requires count { length rows.now ≤ 30000000 }
    ensures { IfOk result (λ v. IsFinishingOrder (rows_of rows.now) v.items) }
{
    let mut search = Search {
        seen: vec![in alloc; false; rows.len()]?,
        followed: vec![in alloc; 0; rows.len()]?,
        path: Vec::new(alloc),
        done: Vec::with_capacity(alloc, rows.len())?,
    };
    for root in 0..rows.len() {
        if search.seen[root] {
            continue;
        }
        search.visit(rows, root as u32)?;
    }
    Ok(search.done)
}

impl Search {
    // Visits what can be reached from a line and wasn't seen before.
    fn visit(&mut self, rows: &[Vec<u32>], root: u32) -> Result<(), OutOfMemory>
        requires inside { AreRows (rows_of rows.now) }
        requires root { root < length rows.now }
        requires unseen { has self.old.seen.items root ≡ false }
        requires search { IsSearch (rows_of rows.now) self.old }
        requires ended { self.old.path.items ≡ [] }
        ensures search { OnOk result (IsSearch (rows_of rows.now) self.new) }
        ensures ended { OnOk result (self.new.path.items ≡ []) }
        ensures seen { OnOk result (has self.new.seen.items root ≡ true) }
        ensures keeps { OnOk result ((x : ℕ) → has self.old.seen.items x ≡ true → has self.new.seen.items x ≡ true) }
    {
        self.enter(root)?;
        while let Some(line) = self.path.pop() {
            self.step(rows, line)?;
        }
        Ok(())
    }

    // Follows the next edge of the line that ends the path, or leaves it.
    fn step(&mut self, rows: &[Vec<u32>], line: u32) -> Result<(), OutOfMemory>
        requires inside { AreRows (rows_of rows.now) }
        requires search { Searches (rows_of rows.now) self.old.seen.items self.old.followed.items (self.old.path.items ++ line ∷ []) self.old.done.items }
        ensures search { OnOk result (IsSearch (rows_of rows.now) self.new) }
        ensures less { OnOk result (work (rows_of rows.now) self.new.followed.items self.new.path.items < work (rows_of rows.now) self.old.followed.items (self.old.path.items ++ line ∷ [])) }
        ensures keeps { OnOk result ((x : ℕ) → has self.old.seen.items x ≡ true → has self.new.seen.items x ≡ true) }
    {
        match edge(rows, line as usize, self.followed[line as usize]) {
            Some(target) => {
                self.followed[line as usize] += 1;
                self.path.push(line)?;
                if !self.seen[target as usize] {
                    self.enter(target)?;
                }
                Ok(())
            }
            None => {
                self.done.push(line)?;
                Ok(())
            }
        }
    }

    fn enter(&mut self, line: u32) -> Result<(), OutOfMemory>
        requires { line < length self.old.seen.items }
        ensures seen { OnOk result (self.new.seen.items ≡ slice_set self.old.seen.items line true) }
        ensures path { OnOk result (self.new.path.items ≡ self.old.path.items ++ line ∷ []) }
        ensures followed { self.new.followed.items ≡ self.old.followed.items }
        ensures done { self.new.done.items ≡ self.old.done.items }
    {
        self.seen[line as usize] = true;
        self.path.push(line)?;
        Ok(())
    }
}
