//! Files: loaded, and read as programs that are resolved and accepted, as equations, or as C.
ghost use Rattle.std.specs.Prelude.{◌≡◌, ◌≤◌, ℕ, [], ◌∷◌, length, map, string_bytes, IfOk};
ghost use Rattle.argos_base.specs.Limits.{aspect_limit, node_limit, text_limit};
ghost use Rattle.argos_base.specs.Shelves.{after_load};
ghost use Rattle.argos_core.specs.ModuleViews.{module_of};
ghost use Rattle.argos_load.specs.Calls.{call};
ghost use Rattle.argos_load.specs.Programs.{TextOf, ModuleOf, AcceptedOf, IsOutOfNodes, ProgramOf, equation_file, c_file, RunnableAs, RunnableOf, RunnableFile};
ghost use Rattle.argos_load.specs.Stages.{◌then◌};
ghost use Rattle.argos_load.specs.Giving.{program_of, runnable_of, IsLoaded, IsSaidOf, IsStage, IsFileStage};
ghost use Rattle.argos_load.specs.GivingFiles.{HasLoaded, IsFilesStage};
ghost use Rattle.argos_load.specs.WovenFiles.{AreGoodFiles, AreOutOfNodes, SimulationOf};
ghost use Rattle.argos_verdict.specs.Answers.{IsRefused};

use crate::aspects::load_woven;
use crate::causes::{c_cause, equation_cause, fault_cause, scope_cause};
use crate::stop::{Stop, read_fault, refusal};
use argos_base::{LoadError, Names, OutOfMemory, Shelf};
use argos_compile::{AcceptError, Accepted, Woven, accept};
use argos_core::Module;
use argos_report::report_text;
use argos_scope::{TextError, resolve_text};
use argos_verdict::judge;
use c_step::{CError, CStep, read_c};
use eqn_core::Ordered;
use eqn_file::{EqError, read_equations};
use std::alloc::Global;

/// How an equation file begins.
const EQUATIONS_HEAD: &[u8] = b"argos-eq ";

/// How a C file begins.
const C_HEAD: &[u8] = b"/* argos-c ";

/// What was loaded for a simulation: an accepted program with its aspects, the system of an equation file with its names, or the step of a C file.
#[derive(Drop)]
pub enum Loaded {
    Program(Woven),
    Equations(Ordered, Names),
    CText(CStep),
}

/// What is simulated: the program of the first file with the aspects of the others; without aspects, what the file is that begins as an
/// equation file or a C file.
pub fn load_simulation<H: Shelf>(
    alloc: Global,
    file: &str,
    aspects: &[String],
    nodes: u32,
    shelf: &mut H,
) -> Result<Loaded, Stop>
    requires few { length aspects.now ≤ aspect_limit }
    requires least { 2 ≤ nodes }
    requires greatest { nodes ≤ node_limit }
    ensures simulation { IsFilesStage runnable_of result nodes (file.now ∷ map string_bytes aspects.now) (call H.told H.faults shelf.old shelf.new)
        (λ files. SimulationOf files file.now (map string_bytes aspects.now))
        (λ files. AreGoodFiles files file.now (map string_bytes aspects.now))
        (λ files. AreOutOfNodes files file.now (map string_bytes aspects.now) nodes) }
    ensures named { IfOk result IsLoaded }
    ensures loaded { HasLoaded (H.told shelf.old) (H.told shelf.new) }
{
    if aspects.is_empty() {
        return load_runnable(alloc, file, nodes, shelf);
    }
    match load_woven(alloc, file, aspects, nodes, shelf) {
        Ok(woven) => Ok(Loaded::Program(woven)),
        Err(stop) => Err(stop),
    }
}

// What the file with this name, the only one of the call, is for a simulation.
fn load_runnable<H: Shelf>(
    alloc: Global,
    name: &str,
    nodes: u32,
    shelf: &mut H,
) -> Result<Loaded, Stop>
    requires least { 2 ≤ nodes }
    requires greatest { nodes ≤ node_limit }
    ensures runnable { IsFileStage runnable_of result 1 nodes name.now (call H.told H.faults shelf.old shelf.new) (RunnableFile 1) (IsOutOfNodes nodes) }
    ensures named { IfOk result IsLoaded }
    ensures counted { H.told shelf.new ≡ after_load (H.told shelf.old) }
{
    match load_text(alloc, 1, name, shelf) {
        Ok(text) => runnable(alloc, 1, &text, nodes),
        Err(stop) => Err(stop),
    }
}

// What a text is for a simulation.
fn runnable(alloc: Global, number: u8, text: &[u8], nodes: u32) -> Result<Loaded, Stop>
    requires short { length text.now ≤ text_limit }
    requires least { 2 ≤ nodes }
    requires greatest { nodes ≤ node_limit }
    ensures runnable { IsStage runnable_of result nodes (RunnableOf number text.now) (IsOutOfNodes nodes text.now) }
    ensures named { IfOk result IsLoaded }
{
    if text.starts_with(EQUATIONS_HEAD) {
        equations(alloc, number, text)
    } else if text.starts_with(C_HEAD) {
        c_step(alloc, number, text)
    } else {
        match program(alloc, number, text, nodes) {
            Ok(accepted) => Ok(Loaded::Program(Woven::plain(alloc, accepted))),
            Err(stop) => Err(stop),
        }
    }
}

// The system of an equation file.
fn equations(alloc: Global, number: u8, text: &[u8]) -> Result<Loaded, Stop>
    ensures runnable { IsStage runnable_of result 0 (RunnableAs number text.now equation_file) (λ _. ⊥) }
    ensures named { IfOk result IsLoaded }
{
    match read_equations(alloc, text) {
        Ok((ordered, names)) => Ok(Loaded::Equations(ordered, names)),
        Err(EqError::Line { at, kind }) => Err(Stop::Refused(refusal(
            alloc,
            number,
            &equation_cause(alloc, at, kind)?,
        )?)),
        Err(EqError::OutOfMemory) => Err(Stop::OutOfMemory),
    }
}

// The step of a C file.
fn c_step(alloc: Global, number: u8, text: &[u8]) -> Result<Loaded, Stop>
    requires { length text.now ≤ text_limit }
    ensures runnable { IsStage runnable_of result 0 (RunnableAs number text.now c_file) (λ _. ⊥) }
    ensures named { IfOk result IsLoaded }
{
    match read_c(alloc, text) {
        Ok(step) => Ok(Loaded::CText(step)),
        Err(CError::NotSubset { at }) => {
            Err(Stop::Refused(refusal(alloc, number, &c_cause(alloc, at)?)?))
        }
        Err(CError::OutOfMemory) => Err(Stop::OutOfMemory),
    }
}

/// The module of the file with this name, the only one of the call, where it is accepted within so many nodes. Its equations aren't put in
/// order.
pub fn load_judged<H: Shelf>(
    alloc: Global,
    file: &str,
    nodes: u32,
    shelf: &mut H,
) -> Result<Module, Stop>
    requires least { 2 ≤ nodes }
    requires greatest { nodes ≤ node_limit }
    ensures program { IsFilesStage module_of result nodes (file.now ∷ []) (call H.told H.faults shelf.old shelf.new) (λ files. ProgramOf 1 (files file.now))
        (λ files. AreGoodFiles files file.now []) (λ files. AreOutOfNodes files file.now [] nodes) }
    ensures loaded { HasLoaded (H.told shelf.old) (H.told shelf.new) }
{
    match load_text(alloc, 1, file, shelf) {
        Ok(text) => judged(alloc, 1, &text, nodes),
        Err(stop) => Err(stop),
    }
}

/// The program of the file with this name, which is file `number` of the call, where it is accepted within so many nodes.
pub(crate) fn load_program<H: Shelf>(
    alloc: Global,
    number: u8,
    name: &str,
    nodes: u32,
    shelf: &mut H,
) -> Result<Accepted, Stop>
    requires least { 2 ≤ nodes }
    requires greatest { nodes ≤ node_limit }
    ensures program { IsFileStage program_of result number nodes name.now (call H.told H.faults shelf.old shelf.new) (ProgramOf number) (IsOutOfNodes nodes) }
    ensures counted { H.told shelf.new ≡ after_load (H.told shelf.old) }
    ensures still { IfOk result (λ _. H.faults shelf.new ≡ H.faults shelf.old) }
{
    match load_text(alloc, number, name, shelf) {
        Ok(text) => program(alloc, number, &text, nodes),
        Err(stop) => Err(stop),
    }
}

/// The text of the file with this name, which is file `number` of the call.
pub(crate) fn load_text<H: Shelf>(
    alloc: Global,
    number: u8,
    name: &str,
    shelf: &mut H,
) -> Result<Vec<u8>, Stop>
    ensures text { (nodes : ℕ) → IsFileStage (λ t. t.items) result number nodes name.now (call H.told H.faults shelf.old shelf.new) (TextOf number) (λ _ _. ⊥) }
    ensures short { IfOk result (λ t. length t.items ≤ text_limit) }
    ensures counted { H.told shelf.new ≡ after_load (H.told shelf.old) }
    ensures still { IfOk result (λ _. H.faults shelf.new ≡ H.faults shelf.old) }
{
    match shelf.load(alloc, name) {
        Ok(text) => Ok(text),
        Err(LoadError::Failed) => Err(Stop::ReadFault(read_fault(alloc, number)?)),
        Err(LoadError::TooLong(_)) => Err(Stop::Refused(refusal(
            alloc,
            number,
            b"longer than 1048576 bytes",
        )?)),
        Err(LoadError::OutOfMemory) => Err(Stop::OutOfMemory),
    }
}

// The module of a text, where it is accepted.
fn program(alloc: Global, number: u8, text: &[u8], nodes: u32) -> Result<Accepted, Stop>
    requires short { length text.now ≤ text_limit }
    requires least { 2 ≤ nodes }
    requires greatest { nodes ≤ node_limit }
    ensures program { IsStage program_of result nodes (λ r. (ModuleOf number text.now then AcceptedOf number) r) (IsOutOfNodes nodes text.now) }
{
    let program = meant(alloc, number, text)?;
    match accept(alloc, program, nodes) {
        Ok(accepted) => Ok(accepted),
        Err((program, error)) => Err(refused(alloc, number, &program, nodes, error)?),
    }
}

// The same, judged alone.
fn judged(alloc: Global, number: u8, text: &[u8], nodes: u32) -> Result<Module, Stop>
    requires short { length text.now ≤ text_limit }
    requires least { 2 ≤ nodes }
    requires greatest { nodes ≤ node_limit }
    ensures { IsStage module_of result nodes (λ r. (ModuleOf number text.now then AcceptedOf number) r) (IsOutOfNodes nodes text.now) }
{
    let program = meant(alloc, number, text)?;
    match judge(alloc, &program, nodes) {
        Ok(_) => Ok(program),
        Err(error) => Err(refused(alloc, number, &program, nodes, error)?),
    }
}

/// What ends the call where a module isn't accepted, which is that of file `number`, or of its observer.
pub(crate) fn refused(
    alloc: Global,
    number: u8,
    program: &Module,
    nodes: u32,
    error: AcceptError,
) -> Result<Stop, OutOfMemory>
    requires { IsRefused (module_of program.now) nodes error }
    ensures { IfOk result (IsSaidOf number (module_of program.now) nodes) }
{
    let text = report_text(alloc, number, program, nodes, &error)?;
    // Each arm names what it drops, so that it takes the error whole.
    match error {
        AcceptError::Budget(arena) => Ok(Stop::Budget(text, arena)),
        AcceptError::NoReaction {
            memory: _memory,
            input: _input,
        } => Ok(Stop::No(text)),
        AcceptError::Several {
            memory: _memory,
            input: _input,
            first: _first,
            second: _second,
        } => Ok(Stop::No(text)),
        AcceptError::Overlap { set: _set, .. } => Ok(Stop::Refused(text)),
        AcceptError::Variables(_) => Ok(Stop::Refused(text)),
        AcceptError::OutOfMemory => Err(OutOfMemory),
    }
}

// The module that a text means.
fn meant(alloc: Global, number: u8, text: &[u8]) -> Result<Module, Stop>
    requires { length text.now ≤ text_limit }
    ensures { IsStage module_of result 0 (ModuleOf number text.now) (λ _. ⊥) }
{
    match resolve_text(alloc, text) {
        Ok(program) => Ok(program),
        Err(TextError::Parse(error)) => Err(Stop::Refused(refusal(
            alloc,
            number,
            &fault_cause(alloc, &error)?,
        )?)),
        Err(TextError::Scope(error)) => Err(Stop::Refused(refusal(
            alloc,
            number,
            &scope_cause(alloc, &error)?,
        )?)),
        Err(TextError::OutOfMemory) => Err(Stop::OutOfMemory),
    }
}
