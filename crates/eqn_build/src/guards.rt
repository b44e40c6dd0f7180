//! Guards as lines.
ghost use Rattle.std.specs.Prelude.{◌≡◌, ◌+◌, ◌^◌, ◌<◌, ◌++◌, IfOk, map};
ghost use Rattle.argos_core.specs.Views.{guard_of, guards_of};
ghost use Rattle.eqn_scheme.specs.Scheme.{guard_bits, operand_bits, guard_literal, operand_literals, guard_lines, operand_lines};
ghost use Rattle.eqn_core.specs.Views.{literal_of, line_of};

use crate::builder::{Builder, minus, opposite, plus, put_bit};
use argos_base::OutOfMemory;
use argos_core::Guard;
use eqn_core::{Line, Lit};
use smallvec::SmallVec;
use std::alloc::Global;

/// Adds the lines of a guard, and answers the literal that tells whether it holds.
#[cycle(guards)]
#[tactic(auto, using(crate::proofs::GuardBuilding::guard_building))]
pub(crate) fn put_guard(
    alloc: Global,
    guard: &Guard,
    builder: &mut Builder,
) -> Result<Lit, OutOfMemory>
    requires room { builder.old.bits + guard_bits (guard_of guard.now) < 2 ^ 32 }
    ensures literal { IfOk result (λ l. literal_of l ≡ guard_literal builder.old.one builder.old.bits (guard_of guard.now)) }
    ensures bits { IfOk result (λ _. builder.new.bits ≡ builder.old.bits + guard_bits (guard_of guard.now)) }
    ensures one { IfOk result (λ _. builder.new.one ≡ builder.old.one) }
    ensures lines { IfOk result (λ _. map line_of builder.new.lines.items ≡ map line_of builder.old.lines.items ++ guard_lines builder.old.one builder.old.bits (guard_of guard.now)) }
{
    match guard {
        Guard::True => Ok(plus(builder.one)),
        Guard::False => Ok(minus(builder.one)),
        Guard::Sig(signal) => Ok(plus(signal.0)),
        Guard::Not(operand) => Ok(opposite(put_guard(alloc, operand, builder)?)),
        Guard::All(operands) => {
            let literals = put_operands(alloc, operands, builder)?;
            Ok(plus(put_bit(builder, Line::All(literals))?))
        }
        Guard::Any(operands) => {
            let literals = put_operands(alloc, operands, builder)?;
            Ok(plus(put_bit(builder, Line::Any(literals))?))
        }
    }
}

#[cycle(guards)]
#[tactic(auto, using(crate::proofs::GuardBuilding::guard_building))]
fn put_operands(
    alloc: Global,
    guards: &[Guard],
    builder: &mut Builder,
) -> Result<SmallVec<Lit, 4>, OutOfMemory>
    requires room { builder.old.bits + operand_bits (guards_of (map guard_of guards.now)) < 2 ^ 32 }
    ensures literals { IfOk result (λ ls. map literal_of ls.items ≡ operand_literals builder.old.one builder.old.bits (guards_of (map guard_of guards.now))) }
    ensures bits { IfOk result (λ _. builder.new.bits ≡ builder.old.bits + operand_bits (guards_of (map guard_of guards.now))) }
    ensures one { IfOk result (λ _. builder.new.one ≡ builder.old.one) }
    ensures lines { IfOk result (λ _. map line_of builder.new.lines.items ≡ map line_of builder.old.lines.items ++ operand_lines builder.old.one builder.old.bits (guards_of (map guard_of guards.now))) }
{
    let mut literals = SmallVec::new(alloc);
    for guard in guards {
        literals.push(put_guard(alloc, guard, builder)?)?;
    }
    Ok(literals)
}
