//! An observer and an advice joined to an ordered system.
ghost use Rattle.std.specs.Prelude.{◌≡◌, ◌≤◌, length, map, IfOk, IsTrue};
ghost use Rattle.argos_base.specs.Limits as limits;
ghost use Rattle.argos_aspects.specs.Views.{seen_of, onset_of, advice_of};
ghost use Rattle.eqn_core.specs.Ordered.{all_below, IsOrdered};
ghost use Rattle.eqn_core.specs.Views.{equations_from};
ghost use Rattle.weave_lines.specs.Systems.{CanJoin, AreAdvised, HasRoom, IsJoined, IsShort};
ghost use Rattle.weave_lines.specs.WovenLines.{woven_equations};

use crate::running::codes_behind;
use crate::weaving::woven_system;
use argos_aspects::{Advice, Seen};
use argos_base::OutOfMemory;
use eqn_core::{Ordered, System};
use std::alloc::Global;

// Each code has 16 bits.
fn codes_fit(codes: &[u16])
    ensures { IsTrue (all_below 65536 codes.now) }
{
    let _count = codes.len();
}

// The memories that the advice asks: behind its trace, where it starts at the initial configurations.
fn advised_codes(
    alloc: Global,
    base: &Ordered,
    observer: &Ordered,
    seen: &[Seen],
    advice: &Advice,
) -> Result<Vec<u16>, OutOfMemory>
    requires { CanJoin base.now observer.now (map seen_of seen.now) (advice_of advice.now) }
    ensures { IfOk result (λ v. AreAdvised base.now observer.now (map seen_of seen.now) (advice_of advice.now) (onset_of advice.now.current) v.items) }
{
    if advice.current {
        return Ok(Vec::new(alloc));
    }
    let codes = codes_behind(alloc, base, observer, seen, &advice.trace)?;
    Ok(codes)
}

fn ordered_of(system: System) -> Ordered
    requires { IsOrdered (equations_from system) }
    ensures { result ≡ equations_from system }
{
    match Ordered::from_system(system) {
        Ok(ordered) => ordered,
        Err(_) => unreachable!(),
    }
}

/// The ordered system of the base with the observer, which sees these signals of the base, and the advice.
pub fn join_advice(
    alloc: Global,
    base: &Ordered,
    observer: &Ordered,
    seen: &[Seen],
    advice: &Advice,
) -> Result<Ordered, OutOfMemory>
    requires join { CanJoin base.now observer.now (map seen_of seen.now) (advice_of advice.now) }
    requires trace { length advice.now.trace.items ≤ limits.advice_set_limit }
    requires room { HasRoom base.now observer.now (map seen_of seen.now) (advice_of advice.now) }
    requires short { IsShort base.now observer.now (map seen_of seen.now) (advice_of advice.now) }
    ensures { IfOk result (λ o. IsJoined base.now observer.now (map seen_of seen.now) (advice_of advice.now) o) }
{
    let codes = advised_codes(alloc, base, observer, seen, advice)?;
    codes_fit(&codes);
    let system = woven_system(
        alloc,
        base.system(),
        observer.system(),
        seen,
        advice,
        &codes,
    )?;
    let ordered = ordered_of(system);
    Ok(ordered)
}
