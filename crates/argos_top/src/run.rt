ghost use Rattle.std.specs.Prelude.{◌≡◌, ◌≤◌, ℕ, List, Option, length, map, string_bytes, IfSome};
ghost use Rattle.argos_words.specs.Views.{command_of, target_of};
ghost use Rattle.argos_words.specs.Words as named;
ghost use Rattle.argos_words.specs.Words.{IsCommand};
ghost use Rattle.argos_load.specs.Calls.{Call, call};
ghost use Rattle.argos_top.specs.Devices.{devices};
ghost use Rattle.argos_top.specs.Clauses.{AreCongruent, IsDue, ReadsAll, IsAnswered, IsReadFault, IsWriteFault, IsBudget, HasEnough, NoneFails, NothingWritten, LeavesInputs};
ghost use Rattle.argos_base.specs.Limits.{aspect_limit};
ghost use Rattle.argos_top.specs.inner.Commands.{AreNodes, KeepsLimits, Writes};
ghost use Rattle.argos_top.specs.inner.Endings.{Ran};
ghost use Rattle.dd_core.specs.Arenas.{ArenaView};
ghost use Rattle.argos_compile.specs.WovenViews.{woven_view};
ghost use Rattle.argos_load.specs.Giving.{IsLoaded, runnable_of};
ghost use Rattle.argos_load.specs.GivingFiles.{HasLoaded};
ghost use Rattle.argos_load.specs.Runnables.{program};
ghost use Rattle.argos_top.specs.inner.Commands.{IsJobOf};
ghost use Rattle.argos_top.specs.Statuses.{answer_of};
ghost use Rattle.argos_top.specs.inner.Endings.{Ending};

use crate::compile::compile;
use crate::equiv::equiv_files;
use crate::report::{report, report_early};
use crate::sample::sample;
use crate::simulate::{simulate, simulate_step};
use crate::status::Status;
use argos_base::{Shelf, Sink, Source};
use argos_compile::Woven;
use argos_load::{Loaded, load_judged, load_simulation, load_woven};
use argos_words::{Command, Target, WordsError, read_words};
use std::alloc::Global;

const USAGE: &[u8] = b"usage: argos check|compile|weave|simulate|equiv|sample\n";

pub(crate) const YES: &[u8] = b"yes\n";

/// Does what the words say: loads the files that they name, reads the input, and writes to `out`.
///
/// `check` writes the verdict on a program. `simulate` takes a program that is accepted, with the aspects that are woven into it one after the
/// other, or an equation file or a C file, and writes its reactions to the input line by line; `compile` writes a program that is accepted as
/// such a file, and `weave` one with its aspects; `equiv` says whether two programs are equivalent by a
/// certificate; `sample` writes how often the last of a chain of automata emits.
pub fn argos_run<H: Shelf, R: Source, W: Sink>(
    alloc: Global,
    words: &[String],
    shelf: &mut H,
    input: &mut R,
    out: &mut W,
) -> Status
    // Yes, No, Usage and Refused come with the due bytes, and after Yes of a simulation the input was read to its end.
    ensures due { IfSome (answer_of result) (IsDue (map string_bytes words.now) (devices (call H.told H.faults shelf.old shelf.new) (call R.left R.faults input.old input.new) (call W.held W.faults out.old out.new))) }
    ensures reads_all { IfSome (answer_of result) (ReadsAll (map string_bytes words.now) (devices (call H.told H.faults shelf.old shelf.new) (call R.left R.faults input.old input.new) (call W.held W.faults out.old out.new))) }

    // A fault comes only where the count of its device rose.
    ensures read_fault { result ≡ Status.ReadFault → IsReadFault (map string_bytes words.now) (devices (call H.told H.faults shelf.old shelf.new) (call R.left R.faults input.old input.new) (call W.held W.faults out.old out.new)) }
    ensures write_fault { result ≡ Status.WriteFault → IsWriteFault (map string_bytes words.now) (devices (call H.told H.faults shelf.old shelf.new) (call R.left R.faults input.old input.new) (call W.held W.faults out.old out.new)) }

    // Where equiv says yes, the programs are equal under every list of aspects.
    ensures congruence { result ≡ Status.Yes → AreCongruent (map string_bytes words.now) (devices (call H.told H.faults shelf.old shelf.new) (call R.left R.faults input.old input.new) (call W.held W.faults out.old out.new)) }

    // Budget comes only where a job needs more nodes than it may have, and not where no device counts a fault and the nodes are enough.
    ensures budget { (arena : ArenaView) → result ≡ Status.Budget arena → IsBudget (map string_bytes words.now) (devices (call H.told H.faults shelf.old shelf.new) (call R.left R.faults input.old input.new) (call W.held W.faults out.old out.new)) arena }
    ensures enough_nodes { HasEnough (map string_bytes words.now) (devices (call H.told H.faults shelf.old shelf.new) (call R.left R.faults input.old input.new) (call W.held W.faults out.old out.new)) → NoneFails (map string_bytes words.now) (devices (call H.told H.faults shelf.old shelf.new) (call R.left R.faults input.old input.new) (call W.held W.faults out.old out.new)) → IsAnswered result }

    // WriteFault goes before every other status.
    ensures sink_kept { (result ≡ Status.WriteFault → ⊥) → W.faults out.new ≡ W.faults out.old }

    // Want of memory comes before anything is written.
    ensures nothing_written { result ≡ Status.OutOfMemory → NothingWritten (map string_bytes words.now) (devices (call H.told H.faults shelf.old shelf.new) (call R.left R.faults input.old input.new) (call W.held W.faults out.old out.new)) }

    // No file changes, and where nothing is simulated the input stays.
    ensures leaves_inputs { LeavesInputs (map string_bytes words.now) (devices (call H.told H.faults shelf.old shelf.new) (call R.left R.faults input.old input.new) (call W.held W.faults out.old out.new)) }
{
    run_words(alloc, words, shelf, input, out)
}

// The same, in one fact.
fn run_words<H: Shelf, R: Source, W: Sink>(
    alloc: Global,
    words: &[String],
    shelf: &mut H,
    input: &mut R,
    out: &mut W,
) -> Status
    ensures ending { Ending (map string_bytes words.now) (devices (call H.told H.faults shelf.old shelf.new) (call R.left R.faults input.old input.new) (call W.held W.faults out.old out.new)) result }
    ensures leaves { LeavesInputs (map string_bytes words.now) (devices (call H.told H.faults shelf.old shelf.new) (call R.left R.faults input.old input.new) (call W.held W.faults out.old out.new)) }
{
    match read_words(alloc, words) {
        Ok(command) => run_command(alloc, &command, shelf, input, out),
        Err(WordsError::Usage) => report(USAGE, Status::Usage, out),
        Err(WordsError::OutOfMemory) => Status::OutOfMemory,
    }
}

// Does what the command says.
fn run_command<H: Shelf, R: Source, W: Sink>(
    alloc: Global,
    command: &Command,
    shelf: &mut H,
    input: &mut R,
    out: &mut W,
) -> Status
    requires { KeepsLimits (command_of command.now) }
    ensures ending { (words : List (List ℕ)) → IsCommand words (command_of command.now)
        → Ending words (devices (call H.told H.faults shelf.old shelf.new) (call R.left R.faults input.old input.new) (call W.held W.faults out.old out.new)) result }
    ensures leaves { (words : List (List ℕ)) → IsCommand words (command_of command.now)
        → LeavesInputs words (devices (call H.told H.faults shelf.old shelf.new) (call R.left R.faults input.old input.new) (call W.held W.faults out.old out.new)) }
{
    match job_of(command) {
        Job::Check(file, nodes) => check_file(alloc, file, nodes, shelf, out),
        Job::Simulation(file, aspects, nodes) => simulate_files(
            alloc, file, aspects, nodes, shelf, input, out,
        ),
        Job::Comparison(left, right, cert, nodes) => {
            equiv_files(alloc, left, right, cert, nodes, shelf, out)
        }
        Job::Writing(file, aspects, to, nodes) => {
            write_files(alloc, file, aspects, to, nodes, shelf, out)
        }
        Job::Sample(count) => sample(alloc, count, out),
    }
}

/// What a command has to do, with its files and how many nodes a job of diagrams may have.
#[derive(Clone, Copy)]
pub enum Job<'a> {
    /// A verdict.
    Check(&'a str, u32),
    /// A simulation.
    Simulation(&'a str, &'a [String], u32),
    /// Two programs are compared by a certificate.
    Comparison(&'a str, &'a str, &'a str, u32),
    /// A program with its aspects is written, and as what.
    Writing(&'a str, &'a [String], Target, u32),
    /// A chain of so many automata runs.
    Sample(u8),
}

// What the command has to do.
fn job_of(command: &Command) -> Job<'_>
    ensures { IsJobOf result (command_of command.now) }
{
    match command {
        Command::Check { file, nodes } => Job::Check(file, *nodes),
        Command::Simulate {
            file,
            aspects,
            nodes,
        } => Job::Simulation(file, aspects, *nodes),
        Command::Compile { file, to, nodes } => Job::Writing(file, &[], *to, *nodes),
        Command::Weave {
            file,
            aspects,
            to,
            nodes,
        } => Job::Writing(file, aspects, *to, *nodes),
        Command::Equiv {
            left,
            right,
            cert,
            nodes,
        } => Job::Comparison(left, right, cert, *nodes),
        Command::Sample { count } => Job::Sample(*count),
    }
}

// The verdict on the program of the file with this name.
fn check_file<H: Shelf, W: Sink>(
    alloc: Global,
    file: &str,
    nodes: u32,
    shelf: &mut H,
    out: &mut W,
) -> Status
    requires { AreNodes nodes }
    ensures ending { (words : List (List ℕ)) (source : Call (Option (List ℕ))) → IsCommand words (named.check file.now nodes)
        → Ending words (devices (call H.told H.faults shelf.old shelf.new) source (call W.held W.faults out.old out.new)) result }
    ensures loaded { HasLoaded (H.told shelf.old) (H.told shelf.new) }
{
    match load_judged(alloc, file, nodes, shelf) {
        Ok(_) => report(YES, Status::Yes, out),
        Err(stop) => report_early(stop, out),
    }
}

// Simulates the program of the first file with the aspects of the others, or what else the only file is.
fn simulate_files<H: Shelf, R: Source, W: Sink>(
    alloc: Global,
    file: &str,
    aspects: &[String],
    nodes: u32,
    shelf: &mut H,
    input: &mut R,
    out: &mut W,
) -> Status
    requires nodes { AreNodes nodes }
    requires few { length aspects.now ≤ aspect_limit }
    ensures ending { (words : List (List ℕ)) → IsCommand words (named.simulate file.now (map string_bytes aspects.now) nodes)
        → Ending words (devices (call H.told H.faults shelf.old shelf.new) (call R.left R.faults input.old input.new) (call W.held W.faults out.old out.new)) result }
    ensures loaded { HasLoaded (H.told shelf.old) (H.told shelf.new) }
{
    match load_simulation(alloc, file, aspects, nodes, shelf) {
        Ok(loaded) => simulate_loaded(alloc, loaded, input, out),
        Err(stop) => report_early(stop, out),
    }
}

// Simulates what was loaded.
fn simulate_loaded<R: Source, W: Sink>(
    alloc: Global,
    loaded: Loaded,
    input: &mut R,
    out: &mut W,
) -> Status
    requires { IsLoaded loaded }
    ensures { Ran (runnable_of loaded) (call R.left R.faults input.old input.new) (call W.held W.faults out.old out.new) result }
{
    match loaded {
        Loaded::Program(woven) => simulate_woven(alloc, woven, input, out),
        Loaded::Equations(ordered, names) => simulate(alloc, &names, ordered, input, out),
        Loaded::CText(step) => simulate_step(alloc, step, input, out),
    }
}

// Simulates a program with its aspects.
fn simulate_woven<R: Source, W: Sink>(
    alloc: Global,
    woven: Woven,
    input: &mut R,
    out: &mut W,
) -> Status
    ensures { Ran (program (woven_view woven)) (call R.left R.faults input.old input.new) (call W.held W.faults out.old out.new) result }
{
    let Woven {
        module,
        layout: _layout,
        aspects: _aspects,
        ordered,
        ..
    } = woven;
    simulate(alloc, &module.names, ordered, input, out)
}

// Writes the program of the first file with the aspects of the others, to equations or to C.
fn write_files<H: Shelf, W: Sink>(
    alloc: Global,
    file: &str,
    aspects: &[String],
    to: Target,
    nodes: u32,
    shelf: &mut H,
    out: &mut W,
) -> Status
    requires nodes { AreNodes nodes }
    requires few { length aspects.now ≤ aspect_limit }
    ensures ending { (words : List (List ℕ)) (c : named.Command) (source : Call (Option (List ℕ))) → IsCommand words c → Writes c file.now (map string_bytes aspects.now) (target_of to) nodes
        → Ending words (devices (call H.told H.faults shelf.old shelf.new) source (call W.held W.faults out.old out.new)) result }
    ensures loaded { HasLoaded (H.told shelf.old) (H.told shelf.new) }
{
    match load_woven(alloc, file, aspects, nodes, shelf) {
        Ok(woven) => compile(alloc, &woven, to, out),
        Err(stop) => report_early(stop, out),
    }
}
