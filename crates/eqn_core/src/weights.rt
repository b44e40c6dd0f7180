ghost use Rattle.std.specs.Prelude.{◌≡◌, ◌-◌, ◌^◌, min, map};
ghost use Rattle.eqn_core.specs.Equations.{line_weight, weight_of};
ghost use Rattle.eqn_core.specs.Views.{line_of, equations_from};

use crate::system::{Line, System};

/// The number of lines, plus that of the literals of all `All` and `Any`, plus that of the cases of all `Choose`; 2^64 - 1 where
/// that is more.
#[tactic(auto, using(crate::proofs::Walks::walks))]
pub fn weight(system: &System) -> u64
    ensures { result ≡ min (weight_of (equations_from system.now)) (2 ^ 64 - 1) }
{
    let mut sum: u64 = 0;
    for line in &system.lines {
        sum = sum.saturating_add(line_weight(line));
    }
    sum
}

fn line_weight(line: &Line) -> u64
    ensures { result ≡ min (line_weight (line_of line.now)) (2 ^ 64 - 1) }
{
    let parts = match line {
        Line::All(literals) => literals.len(),
        Line::Any(literals) => literals.len(),
        Line::Within { .. } => 0,
        Line::Digit { .. } => 0,
        Line::Choose { cases, .. } => cases.len(),
    };
    (parts as u64).saturating_add(1)
}
