ghost use Rattle.std.specs.Prelude.{◌≡◌, map, IfOk};
ghost use Rattle.eqn_core.specs.Views.{line_of, equations_from};

use crate::system::{Line, System};
use argos_base::OutOfMemory;
use smallvec::SmallVec;
use std::alloc::Global;

/// A system with the same equations.
pub(crate) fn copy_system(alloc: Global, system: &System) -> Result<System, OutOfMemory>
    ensures { IfOk result (λ s. equations_from s ≡ equations_from system.now) }
{
    Ok(System {
        inputs: system.inputs,
        init: Vec::from_slice(alloc, &system.init)?,
        lines: copy_lines(alloc, &system.lines)?,
        outs: Vec::from_slice(alloc, &system.outs)?,
        locals: Vec::from_slice(alloc, &system.locals)?,
        next: Vec::from_slice(alloc, &system.next)?,
    })
}

#[tactic(auto, using(crate::proofs::Walks::walks))]
fn copy_lines(alloc: Global, lines: &[Line]) -> Result<Vec<Line>, OutOfMemory>
    ensures { IfOk result (λ v. map line_of v.items ≡ map line_of lines.now) }
{
    let mut copies = Vec::with_capacity(alloc, lines.len())?;
    for line in lines {
        copies.push(copy_line(alloc, line)?)?;
    }
    Ok(copies)
}

fn copy_line(alloc: Global, line: &Line) -> Result<Line, OutOfMemory>
    ensures { IfOk result (λ l. line_of l ≡ line_of line.now) }
{
    Ok(match line {
        Line::All(literals) => Line::All(SmallVec::from_slice(alloc, literals)?),
        Line::Any(literals) => Line::Any(SmallVec::from_slice(alloc, literals)?),
        Line::Within { word, lo, hi } => Line::Within {
            word: *word,
            lo: *lo,
            hi: *hi,
        },
        Line::Digit { word, place } => Line::Digit {
            word: *word,
            place: *place,
        },
        Line::Choose { cases, other } => Line::Choose {
            cases: SmallVec::from_slice(alloc, cases)?,
            other: *other,
        },
    })
}
