//! Two programs and a certificate over them, each from a file of its own.
ghost use Rattle.std.specs.Prelude.{◌≡◌, ◌≤◌, ℕ, [], ◌∷◌, length, IfOk};
ghost use Rattle.argos_base.specs.Limits.{node_limit, text_limit};
ghost use Rattle.argos_base.specs.Shelves.{after_load};
ghost use Rattle.argos_grammar.specs.Views.{cert_of};
ghost use Rattle.bisim_formula.specs.Views.{formula_of};
ghost use Rattle.argos_load.specs.Calls.{call};
ghost use Rattle.argos_load.specs.EquivFiles.{AreComparedOutOfNodes, AreGoodCompared, CertFile, CertOver, CertTreeOf, EquivOf};
ghost use Rattle.argos_load.specs.Giving.{comparison_of, program_of, IsFileStage, IsStage};
ghost use Rattle.argos_load.specs.GivingFiles.{HasLoaded, IsFilesStage};
ghost use Rattle.argos_load.specs.Stages.{◌then◌};

use crate::causes::{cert_cause, fault_cause};
use crate::files::{load_program, load_text};
use crate::stop::{Stop, refusal};
use argos_base::Shelf;
use argos_compile::Accepted;
use argos_syntax::{CertTree, ParseError, parse_cert};
use bisim_check::resolve_cert;
use bisim_formula::{Cert, CertError};
use std::alloc::Global;

/// Two programs that are accepted, and the formula that a certificate says of them.
#[derive(Debug, Drop)]
pub struct Compared {
    pub left: Accepted,
    pub right: Accepted,
    pub cert: Cert,
}

/// The programs of the first two files, and the formula that the third one says of them.
pub fn load_equiv<H: Shelf>(
    alloc: Global,
    left: &str,
    right: &str,
    cert: &str,
    nodes: u32,
    shelf: &mut H,
) -> Result<Compared, Stop>
    requires least { 2 ≤ nodes }
    requires greatest { nodes ≤ node_limit }
    ensures compared { IsFilesStage comparison_of result nodes (left.now ∷ right.now ∷ cert.now ∷ []) (call H.told H.faults shelf.old shelf.new)
        (λ files. EquivOf files left.now right.now cert.now)
        (λ files. AreGoodCompared files left.now right.now cert.now)
        (λ files. AreComparedOutOfNodes files left.now right.now cert.now nodes) }
    ensures loaded { HasLoaded (H.told shelf.old) (H.told shelf.new) }
{
    let left = load_program(alloc, 1, left, nodes, shelf)?;
    let right = load_program(alloc, 2, right, nodes, shelf)?;
    let cert = load_cert(alloc, 3, cert, &left, &right, shelf)?;
    Ok(Compared { left, right, cert })
}

// The formula that the file with this name, which is file `number` of the call, says of two programs.
fn load_cert<H: Shelf>(
    alloc: Global,
    number: u8,
    name: &str,
    left: &Accepted,
    right: &Accepted,
    shelf: &mut H,
) -> Result<Cert, Stop>
    ensures cert { (nodes : ℕ) → IsFileStage formula_of result number nodes name.now (call H.told H.faults shelf.old shelf.new) (CertFile number (program_of left.now) (program_of right.now)) (λ _ _. ⊥) }
    ensures counted { H.told shelf.new ≡ after_load (H.told shelf.old) }
{
    match load_text(alloc, number, name, shelf) {
        Ok(text) => cert_over(alloc, number, &text, left, right),
        Err(stop) => Err(stop),
    }
}

// The formula that this text says of two programs.
fn cert_over(
    alloc: Global,
    number: u8,
    text: &[u8],
    left: &Accepted,
    right: &Accepted,
) -> Result<Cert, Stop>
    requires { length text.now ≤ text_limit }
    ensures { IsStage formula_of result 0 (CertTreeOf number text.now then CertOver number (program_of left.now) (program_of right.now)) (λ _. ⊥) }
{
    let tree = cert_tree(alloc, number, text)?;
    match resolve_cert(alloc, &tree, left, right) {
        Ok(cert) => Ok(cert),
        Err(CertError::OutOfMemory) => Err(Stop::OutOfMemory),
        Err(error) => Err(Stop::Refused(refusal(alloc, number, &cert_cause(alloc, &error)?)?)),
    }
}

// The tree of a certificate's text.
fn cert_tree(alloc: Global, number: u8, text: &[u8]) -> Result<CertTree, Stop>
    requires { length text.now ≤ text_limit }
    ensures { IsStage cert_of result 0 (CertTreeOf number text.now) (λ _. ⊥) }
{
    match parse_cert(alloc, text) {
        Ok(tree) => Ok(tree),
        Err(ParseError::OutOfMemory) => Err(Stop::OutOfMemory),
        Err(error) => Err(Stop::Refused(refusal(alloc, number, &fault_cause(alloc, &error)?)?)),
    }
}
