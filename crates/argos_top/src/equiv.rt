//! Whether two programs are equivalent by a certificate: the command `equiv`.
ghost use Rattle.std.specs.Prelude.{◌≡◌, List, ℕ, Option, IfOk};
ghost use Rattle.argos_core.specs.ModuleViews.{module_of};
ghost use Rattle.argos_core.specs.Process.{PlainModule};
ghost use Rattle.argos_load.specs.Calls.{Call, call};
ghost use Rattle.argos_load.specs.Giving.{comparison_of};
ghost use Rattle.argos_load.specs.GivingFiles.{HasLoaded};
ghost use Rattle.argos_words.specs.Words as named;
ghost use Rattle.argos_words.specs.Words.{IsCommand};
ghost use Rattle.bisim_check.specs.Found as checked;
ghost use Rattle.argos_top.specs.Devices.{devices};
ghost use Rattle.argos_top.specs.Equivalence as equivalence;
ghost use Rattle.argos_top.specs.Equivalence.{said_of};
ghost use Rattle.argos_top.specs.inner.Commands.{AreNodes};
ghost use Rattle.argos_top.specs.inner.Comparing.{Compares};
ghost use Rattle.argos_top.specs.inner.Endings.{status_of, Ending};

use crate::report::{report, report_early, report_number};
use crate::run::YES;
use crate::status::Status;
use argos_base::{Name, OutOfMemory, Shelf, Sink};
use argos_core::Module;
use argos_load::{Compared, load_equiv};
use argos_report::{left_by_step_text, outputs_differ_text};
use bisim_check::{EquivFound, equiv};
use eqn_dd::CheckError;
use std::alloc::Global;

/// What is written where the initial memories aren't related.
const START: &[u8] = b"no: initial pair not related\n";

/// Says whether the programs of the first two files are equivalent by the certificate of the third one.
pub fn equiv_files<H: Shelf, W: Sink>(
    alloc: Global,
    left: &str,
    right: &str,
    cert: &str,
    nodes: u32,
    shelf: &mut H,
    out: &mut W,
) -> Status
    requires { AreNodes nodes }
    ensures ending { (words : List (List ℕ)) (source : Call (Option (List ℕ))) → IsCommand words (named.equiv left.now right.now cert.now nodes)
        → Ending words (devices (call H.told H.faults shelf.old shelf.new) source (call W.held W.faults out.old out.new)) result }
    ensures loaded { HasLoaded (H.told shelf.old) (H.told shelf.new) }
{
    match load_equiv(alloc, left, right, cert, nodes, shelf) {
        Ok(compared) => compare(alloc, &compared, nodes, out),
        Err(stop) => report_early(stop, out),
    }
}

// Compares two programs, and writes what is found.
fn compare<W: Sink>(alloc: Global, compared: &Compared, nodes: u32, out: &mut W) -> Status
    requires { AreNodes nodes }
    ensures { Compares (comparison_of compared.now) nodes (call W.held W.faults out.old out.new) result }
{
    let Compared { left, right, cert } = compared;
    match equiv(alloc, left, right, cert, nodes) {
        Ok(found) => match found_text(alloc, left.module(), right.module(), &found) {
            Ok(text) => report(&text, found_status(&found), out),
            Err(OutOfMemory) => Status::OutOfMemory,
        },
        Err(CheckError::Variables(count)) => report_number(
            b"refused: file 3: ",
            u64::from(count),
            b" variables\n",
            Status::Refused,
            out,
        ),
        Err(CheckError::Budget(arena)) => report_number(
            b"budget: ",
            u64::from(nodes),
            b" nodes\n",
            Status::Budget(arena),
            out,
        ),
        Err(CheckError::OutOfMemory) => Status::OutOfMemory,
    }
}

// The status of what was found.
fn found_status(found: &EquivFound) -> Status
    ensures { (P Q : PlainModule) → result ≡ status_of (said_of P Q (checked.answer_of found.now)).answer }
{
    match found {
        EquivFound::Accept => Status::Yes,
        EquivFound::Interfaces { .. }
        | EquivFound::Start
        | EquivFound::Outputs { .. }
        | EquivFound::Leaves { .. } => Status::No,
    }
}

// The text of what was found of two programs.
fn found_text(
    alloc: Global,
    left: &Module,
    right: &Module,
    found: &EquivFound,
) -> Result<Vec<u8>, OutOfMemory>
    ensures { IfOk result (λ text. text.items ≡ (said_of (module_of left.now) (module_of right.now) (checked.answer_of found.now)).bytes) }
{
    match found {
        EquivFound::Accept => Ok(Vec::from_slice(alloc, YES)?),
        EquivFound::Interfaces { name } => interfaces_text(alloc, name),
        EquivFound::Start => Ok(Vec::from_slice(alloc, START)?),
        EquivFound::Outputs {
            left: lefts,
            right: rights,
            input,
            name,
        } => outputs_differ_text(alloc, left, right, (lefts, rights), input, name),
        EquivFound::Leaves {
            left: lefts,
            right: rights,
            input,
        } => left_by_step_text(alloc, left, right, (lefts, rights), input),
    }
}

// The text where the interfaces differ, first in this name.
fn interfaces_text(alloc: Global, name: &Name) -> Result<Vec<u8>, OutOfMemory>
    ensures { IfOk result (λ text. text.items ≡ equivalence.interfaces_text name.now) }
{
    let mut text = Vec::from_slice(alloc, b"no: interfaces differ on ")?;
    text.extend_from_slice(name.bytes())?;
    text.push(b'\n')?;
    Ok(text)
}
