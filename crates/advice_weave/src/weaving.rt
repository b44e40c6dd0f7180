//! An aspect woven into a program.
ghost use Rattle.std.specs.Prelude.{◌≡◌, ℕ, ◌<◌, ◌≤◌, [], ◌∷◌, ◌++◌, Err, length, IfOk};
ghost use Rattle.advice_weave.specs.Needs.{FitsInto, registers_with, lines_with, weight_with};
ghost use Rattle.argos_base.specs.Limits.{advice_set_limit, register_limit, woven_line_limit};
ghost use Rattle.argos_compile.specs.AspectViews.{aspect_view, woven_from};
ghost use Rattle.argos_compile.specs.Weaving.{IsWoven, with_aspect};
ghost use Rattle.argos_compile.specs.WovenViews.{woven_view};
ghost use Rattle.argos_core.specs.ModuleViews.{module_of};
ghost use Rattle.eqn_core.specs.Equations.{weight_of};
ghost use Rattle.eqn_core.specs.Ordered.{IsOrdered};

use crate::needing::lines_with;
use argos_base::{OutOfMemory, WOVEN_LINE_LIMIT};
use argos_compile::{Aspect, Woven};
use eqn_core::Ordered;
use std::alloc::Global;
use weave_lines::join_advice;

/// Why an aspect isn't woven.
#[derive(Clone, Copy, Debug, PartialEq, Eq)]
pub enum WeaveError {
    /// The program with the aspect may need so many lines, which is more than 4,000,000.
    Limit { need: u64 },
    OutOfMemory,
}

impl From<OutOfMemory> for WeaveError {
    ghost use Rattle.std.specs.Prelude.{◌≡◌};
    ghost use Rattle.advice_weave.specs.declared.weaving.WeaveError.TheVariants as errors;

    ghost from_gives = { λ _ e. e ≡ errors.OutOfMemory };

    fn from(_error: OutOfMemory) -> WeaveError {
        WeaveError::OutOfMemory
    }
}

/// Weaves an aspect into a program, behind those that are woven already: where the aspect's observer emits its output, the outputs and
/// the next memory of all that is before it are those of the advice. The lines of the program and of the observer stand once, and once
/// more for each set of a trace that starts at the current memory.
///
/// # Errors
///
/// `Limit` where more than 4,000,000 lines may be needed, before any is made.
pub fn weave(alloc: Global, woven: Woven, aspect: Aspect) -> Result<Woven, WeaveError>
    requires fits { FitsInto woven aspect }
    requires trace { length aspect.advice.trace.items ≤ advice_set_limit }
    requires registers { registers_with woven aspect ≤ register_limit }
    ensures woven { IfOk result (λ w. woven_view w ≡ with_aspect (woven_view woven) (aspect_view aspect)) }
    ensures most { IfOk result (λ w. w.most ≡ lines_with woven aspect) }
    ensures few { IfOk result (λ w. w.most ≤ woven_line_limit) }
    ensures weight { IfOk result (λ w. weight_of w.ordered ≤ weight_with woven aspect) }
    ensures limit { (need : ℕ) → result ≡ Err (WeaveError.Limit need) → (need ≡ lines_with woven aspect) × (woven_line_limit < need) }
{
    let need = lines_with(&woven, &aspect);
    if WOVEN_LINE_LIMIT < need {
        return Err(WeaveError::Limit { need });
    }
    let ordered = equations_with(alloc, &woven, &aspect)?;
    let woven = put_last(woven, aspect, ordered, need)?;
    Ok(woven)
}

// They are ordered, as all of their type.
fn are_ordered(ordered: &Ordered)
    ensures { IsOrdered ordered.now }
{
    let _system = ordered.system();
}

// The equations of the program with the aspect.
fn equations_with(alloc: Global, woven: &Woven, aspect: &Aspect) -> Result<Ordered, OutOfMemory>
    requires fits { FitsInto woven.now aspect.now }
    requires trace { length aspect.now.advice.trace.items ≤ advice_set_limit }
    requires registers { registers_with woven.now aspect.now ≤ register_limit }
    requires few { lines_with woven.now aspect.now ≤ woven_line_limit }
    ensures woven { IfOk result (λ o. ∥ IsWoven (with_aspect (woven_view woven.now) (aspect_view aspect.now)) o (lines_with woven.now aspect.now) ∥₁) }
    ensures weight { IfOk result (λ o. weight_of o ≤ weight_with woven.now aspect.now) }
{
    let observer = aspect.observer.ordered();
    are_ordered(observer);
    let ordered = join_advice(
        alloc,
        &woven.ordered,
        observer,
        &aspect.seen,
        &aspect.advice,
    )?;
    Ok(ordered)
}

// The program with the aspect, of which these are the equations.
fn put_last(woven: Woven, aspect: Aspect, ordered: Ordered, need: u64) -> Result<Woven, OutOfMemory>
    requires few { need ≤ woven_line_limit }
    requires woven { ∥ IsWoven (woven_from (module_of woven.«module») (woven.aspects.items ++ aspect ∷ [])) ordered need ∥₁ }
    ensures module_kept { IfOk result (λ w. w.«module» ≡ woven.«module») }
    ensures aspects { IfOk result (λ w. w.aspects.items ≡ woven.aspects.items ++ aspect ∷ []) }
    ensures ordered { IfOk result (λ w. w.ordered ≡ ordered) }
    ensures most { IfOk result (λ w. w.most ≡ need) }
{
    let Woven {
        module,
        layout,
        mut aspects,
        ordered: _before,
        most: _most,
    } = woven;
    aspects.push(aspect)?;
    Ok(Woven {
        module,
        layout,
        aspects,
        ordered,
        most: need,
    })
}
