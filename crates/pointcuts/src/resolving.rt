//! From an aspect's tree to the aspect.
ghost use Rattle.std.specs.Prelude.{◌≡◌, ◌≤◌, [], Some, length, map, IfOk, IfErr, MatchResult};
ghost use Rattle.argos_aspects.specs.Views.{seen_of, advice_of};
ghost use Rattle.argos_compile.specs.AspectViews.{aspect_view};
ghost use Rattle.argos_core.specs.ModuleViews.{module_of};
ghost use Rattle.argos_expansion.specs.Expansion.{last_of};
ghost use Rattle.argos_grammar.specs.Text.{IsAspectForm};
ghost use Rattle.argos_grammar.specs.Views.{component_of, aspect_of};
ghost use Rattle.argos_verdict.specs.Judgements.{IsAcceptable};
ghost use Rattle.line_format.specs.FileNames.{names_of};
ghost use Rattle.pointcuts.specs.Pointcuts.{IsAspectOf, faults_over, outputs_fault, trace_fault, base_scope, in_advice};
ghost use Rattle.pointcuts.specs.Refusals.{TellsWhyNot};
ghost use Rattle.pointcuts.specs.inner.Finding.{TellsFirst, TellsFirstFault, IsAdvice, IsOverBase};

use crate::base::{check_all_emitted, check_trace, see_all};
use crate::errors::{AspectError, unaccepted};
use crate::told::{told_set, told_sets};
use argos_base::{ADVICE_SET_LIMIT, Names, OutOfMemory};
use argos_compile::{Advice, Aspect, Seen, accept};
use argos_grammar::{AspectTree, ComponentTree};
use argos_names::check_names;
use argos_scope::{ScopeError, Which, resolve};
use std::alloc::Global;

/// The aspect of a well-formed tree over a base with these names. Its observer is the module of the last component, which is accepted
/// within this budget of nodes.
///
/// # Errors
///
/// The first of these that is so. `Scope`: a name rule is broken in the components, at the least place. `Outputs`: the observer hasn't
/// one output. `Scope`: the base doesn't have an input of the observer; a name of the advice is unknown, or an input that is emitted, or
/// an output in its trace; the trace has more than 256 sets; the expansion passes a limit. `Observer`: the observer isn't accepted.
pub fn resolve_aspect(
    alloc: Global,
    tree: &AspectTree,
    base: &Names,
    budget: u32,
) -> Result<Aspect, AspectError>
    requires formed { IsAspectForm (aspect_of tree.now) }
    requires least { 2 ≤ budget }
    requires greatest { budget ≤ 16777216 }
    ensures aspect { IfOk result (λ a. IsAspectOf (aspect_of tree.now) (names_of base.now) (aspect_view a)) }
    ensures accepted { IfOk result (λ a. IsAcceptable (module_of a.observer.«module»)) }
    ensures why { IfErr result (TellsWhyNot (aspect_of tree.now) (names_of base.now) budget) }
{
    check_names(alloc, &tree.components)?;
    let main = main_of(&tree.components);
    let (seen, advice) = over_base(alloc, main, tree, base)?;
    let module = resolve(alloc, &tree.components)?;
    match accept(alloc, module, budget) {
        Ok(observer) => Ok(Aspect {
            observer,
            seen,
            advice,
        }),
        Err((module, error)) => Err(unaccepted(module, error)),
    }
}

// The last component.
fn main_of(components: &[ComponentTree]) -> &ComponentTree
    requires { 1 ≤ length components.now }
    ensures { last_of (map component_of components.now) ≡ Some (component_of result.now) }
{
    &components[components.len() - 1]
}

// What the observer sees of the base, and the advice.
fn over_base(
    alloc: Global,
    main: &ComponentTree,
    tree: &AspectTree,
    base: &Names,
) -> Result<(Vec<Seen>, Advice), AspectError>
    ensures known { IfOk result (λ r. IsOverBase (names_of base.now) (component_of main.now) (aspect_of tree.now) (map seen_of r.0.items) (advice_of r.1)) }
    ensures why { IfErr result (TellsFirstFault (faults_over (names_of base.now) (component_of main.now) (aspect_of tree.now))) }
{
    check_outputs(main)?;
    let seen = see_all(alloc, base, &main.inputs)?;
    check_advice(base, tree)?;
    check_length(tree)?;
    let advice = advice_over(alloc, base, tree)?;
    Ok((seen, advice))
}

// The observer has one output.
fn check_outputs(main: &ComponentTree) -> Result<(), AspectError>
    ensures { MatchResult result (λ _. outputs_fault (length (component_of main.now).outputs) ≡ []) (TellsFirstFault (outputs_fault (length (component_of main.now).outputs))) }
{
    let outputs = main.outputs.len();
    if outputs == 1 {
        return Ok(());
    }
    match u32::try_from(outputs) {
        Ok(count) => Err(AspectError::Outputs { count }),
        // No text has so many.
        Err(_) => Err(AspectError::OutOfMemory),
    }
}

// The advice emits outputs of the base, and its trace names inputs.
fn check_advice(base: &Names, tree: &AspectTree) -> Result<(), ScopeError>
    ensures { MatchResult result (λ _. in_advice (base_scope (names_of base.now)) (aspect_of tree.now) ≡ []) (TellsFirst (in_advice (base_scope (names_of base.now)) (aspect_of tree.now))) }
{
    check_all_emitted(base, &tree.outs)?;
    check_trace(base, &tree.trace)
}

// The trace isn't too long.
fn check_length(tree: &AspectTree) -> Result<(), AspectError>
    ensures { MatchResult result (λ _. trace_fault (length (aspect_of tree.now).trace) ≡ []) (TellsFirstFault (trace_fault (length (aspect_of tree.now).trace))) }
{
    let sets = tree.trace.len();
    if sets > ADVICE_SET_LIMIT {
        return Err(AspectError::Scope(ScopeError::Limit {
            which: Which::Trace,
            count: sets as u64,
        }));
    }
    Ok(())
}

// The advice, in numbers of the base's signals.
fn advice_over(alloc: Global, base: &Names, tree: &AspectTree) -> Result<Advice, OutOfMemory>
    ensures { IfOk result (λ a. IsAdvice (names_of base.now) (aspect_of tree.now) (advice_of a)) }
{
    let outs = told_set(alloc, &base.outputs, &tree.outs)?;
    let trace = told_sets(alloc, &base.inputs, &tree.trace)?;
    Ok(Advice {
        outs,
        current: tree.current,
        trace,
    })
}
