//! Programs with aspects: the file of the program, and one file for each aspect.
ghost use Rattle.std.specs.Prelude.{◌≡◌, ◌+◌, ◌<◌, ◌≤◌, ◌∷◌, length, map, string_bytes, IfOk};
ghost use Rattle.argos_aspects.specs.Aspects as plain;
ghost use Rattle.argos_aspects.specs.Aspects.{Fits};
ghost use Rattle.argos_base.specs.Limits.{advice_set_limit, aspect_limit, node_limit, text_limit};
ghost use Rattle.argos_base.specs.Shelves.{after_load};
ghost use Rattle.argos_compile.specs.AspectViews.{aspect_view};
ghost use Rattle.argos_compile.specs.WovenViews.{woven_view};
ghost use Rattle.argos_grammar.specs.Text.{IsAspectForm};
ghost use Rattle.argos_grammar.specs.Views.{aspect_of};
ghost use Rattle.argos_verdict.specs.Jobs.{IsStopped};
ghost use Rattle.line_format.specs.FileNames.{names_of};
ghost use Rattle.pointcuts.specs.Pointcuts.{IsAspectOf};
ghost use Rattle.argos_load.specs.Calls.{call};
ghost use Rattle.argos_load.specs.Giving.{IsFileStage, IsStage};
ghost use Rattle.argos_load.specs.GivingFiles.{HasLoaded, IsFilesStage};
ghost use Rattle.argos_load.specs.Stages.{◌then◌};
ghost use Rattle.argos_load.specs.WovenFiles.{AreGoodFiles, AreOutOfNodes, AspectFile, AspectOver, AspectTreeOf, IsObserverOutOfNodes, ObservedOf, WovenOf, WovenWith};

use crate::causes::{fault_cause, lines_cause, outputs_cause, scope_cause};
use crate::files::{load_program, load_text, refused};
use crate::stop::{Stop, refusal};
use advice_weave::{WeaveError, weave};
use argos_base::{Names, Shelf};
use argos_compile::{Aspect, Woven};
use argos_syntax::{AspectTree, ParseError, parse_aspect};
use pointcuts::{AspectError, aspects_fit, resolve_aspect};
use std::alloc::Global;

/// The program of the first file with the aspects of the others, woven one after the other in the order of their names.
pub fn load_woven<H: Shelf>(
    alloc: Global,
    file: &str,
    aspects: &[String],
    nodes: u32,
    shelf: &mut H,
) -> Result<Woven, Stop>
    requires few { length aspects.now ≤ aspect_limit }
    requires least { 2 ≤ nodes }
    requires greatest { nodes ≤ node_limit }
    ensures woven { IsFilesStage woven_view result nodes (file.now ∷ map string_bytes aspects.now) (call H.told H.faults shelf.old shelf.new)
        (λ files. WovenOf files file.now (map string_bytes aspects.now))
        (λ files. AreGoodFiles files file.now (map string_bytes aspects.now))
        (λ files. AreOutOfNodes files file.now (map string_bytes aspects.now) nodes) }
    ensures loaded { HasLoaded (H.told shelf.old) (H.told shelf.new) }
{
    let accepted = load_program(alloc, 1, file, nodes, shelf)?;
    let mut woven = Woven::plain(alloc, accepted);
    let mut number = 1;
    for name in aspects {
        number += 1;
        woven = load_aspect(alloc, number, name, woven, nodes, shelf)?;
    }
    Ok(woven)
}

// The program with the aspect of the file with this name, which is file `number` of the call.
fn load_aspect<H: Shelf>(
    alloc: Global,
    number: u8,
    name: &str,
    woven: Woven,
    nodes: u32,
    shelf: &mut H,
) -> Result<Woven, Stop>
    requires few { length woven.aspects.items < aspect_limit }
    requires least { 2 ≤ nodes }
    requires greatest { nodes ≤ node_limit }
    ensures aspect { IsFileStage woven_view result number nodes name.now (call H.told H.faults shelf.old shelf.new) (AspectFile number (woven_view woven)) (IsObserverOutOfNodes nodes (woven_view woven)) }
    ensures more { IfOk result (λ w. length w.aspects.items ≡ length woven.aspects.items + 1) }
    ensures counted { H.told shelf.new ≡ after_load (H.told shelf.old) }
    ensures still { IfOk result (λ _. H.faults shelf.new ≡ H.faults shelf.old) }
{
    match load_text(alloc, number, name, shelf) {
        Ok(text) => with_aspect(alloc, number, &text, woven, nodes),
        Err(stop) => Err(stop),
    }
}

// The program with the aspect of this text.
fn with_aspect(
    alloc: Global,
    number: u8,
    text: &[u8],
    woven: Woven,
    nodes: u32,
) -> Result<Woven, Stop>
    requires short { length text.now ≤ text_limit }
    requires few { length woven.aspects.items < aspect_limit }
    requires least { 2 ≤ nodes }
    requires greatest { nodes ≤ node_limit }
    ensures aspect { IsStage woven_view result nodes
        (AspectTreeOf number text.now then λ t. AspectOver number (names_of woven.«module».names) t then λ A. ObservedOf number A then λ B. WovenWith number (woven_view woven) B)
        (IsObserverOutOfNodes nodes (woven_view woven) text.now) }
    ensures more { IfOk result (λ w. length w.aspects.items ≡ length woven.aspects.items + 1) }
{
    let tree = aspect_tree(alloc, number, text)?;
    let aspect = aspect_over(alloc, number, &tree, &woven.module.names, nodes)?;
    weave_in(alloc, number, woven, aspect)
}

// The tree of an aspect's text.
fn aspect_tree(alloc: Global, number: u8, text: &[u8]) -> Result<AspectTree, Stop>
    requires { length text.now ≤ text_limit }
    ensures tree { IsStage aspect_of result 0 (AspectTreeOf number text.now) (λ _. ⊥) }
    ensures formed { IfOk result (λ t. IsAspectForm (aspect_of t)) }
{
    match parse_aspect(alloc, text) {
        Ok(tree) => Ok(tree),
        Err(ParseError::OutOfMemory) => Err(Stop::OutOfMemory),
        Err(error) => Err(Stop::Refused(refusal(alloc, number, &fault_cause(alloc, &error)?)?)),
    }
}

// The aspect that the tree is over a program with these names, where its observer is accepted.
fn aspect_over(
    alloc: Global,
    number: u8,
    tree: &AspectTree,
    names: &Names,
    nodes: u32,
) -> Result<Aspect, Stop>
    requires formed { IsAspectForm (aspect_of tree.now) }
    requires least { 2 ≤ nodes }
    requires greatest { nodes ≤ node_limit }
    ensures aspect { IsStage aspect_view result nodes (AspectOver number (names_of names.now) (aspect_of tree.now) then ObservedOf number)
        (λ arena. (A : plain.Aspect) × IsAspectOf (aspect_of tree.now) (names_of names.now) A × IsStopped A.observer nodes arena) }
    ensures fits { IfOk result (λ a. Fits (aspect_view a) (length names.now.inputs) (length names.now.outputs)) }
    ensures short { IfOk result (λ a. length a.advice.trace.items ≤ advice_set_limit) }
{
    match resolve_aspect(alloc, tree, names, nodes) {
        Ok(aspect) => {
            // so it fits the program
            aspects_fit();
            Ok(aspect)
        }
        Err(AspectError::Scope(error)) => Err(Stop::Refused(refusal(
            alloc,
            number,
            &scope_cause(alloc, &error)?,
        )?)),
        Err(AspectError::Outputs { count }) => Err(Stop::Refused(refusal(
            alloc,
            number,
            &outputs_cause(alloc, count)?,
        )?)),
        Err(AspectError::Observer(observer, error)) => {
            Err(refused(alloc, number, &observer, nodes, error)?)
        }
        Err(AspectError::OutOfMemory) => Err(Stop::OutOfMemory),
    }
}

// The program with this aspect, where it needs few enough lines.
fn weave_in(alloc: Global, number: u8, woven: Woven, aspect: Aspect) -> Result<Woven, Stop>
    requires few { length woven.aspects.items < aspect_limit }
    requires fits { Fits (aspect_view aspect) (length woven.«module».names.inputs) (length woven.«module».names.outputs) }
    requires short { length aspect.advice.trace.items ≤ advice_set_limit }
    ensures woven { IsStage woven_view result 0 (WovenWith number (woven_view woven) (aspect_view aspect)) (λ _. ⊥) }
    ensures more { IfOk result (λ w. length w.aspects.items ≡ length woven.aspects.items + 1) }
{
    match weave(alloc, woven, aspect) {
        Ok(woven) => Ok(woven),
        Err(WeaveError::Limit { need }) => Err(Stop::Refused(refusal(
            alloc,
            number,
            &lines_cause(alloc, need)?,
        )?)),
        Err(WeaveError::OutOfMemory) => Err(Stop::OutOfMemory),
    }
}
