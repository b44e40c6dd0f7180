// Certificates over accepted programs.
ghost use Rattle.std.specs.Prelude.{};
ghost use Rattle.argos_core.specs.ModuleViews.{module_of};
ghost use Rattle.argos_grammar.specs.Views.{cert_of};
ghost use Rattle.bisim_formula.specs.Certificates.{cert_answer};
ghost use Rattle.bisim_formula.specs.ResolveViews.{Answers};

use argos_compile::Accepted;
use argos_grammar::CertTree;
use bisim_formula::{Cert, CertError, resolve};
use std::alloc::Global;

/// The formula that a certificate's text says of two programs.
///
/// # Errors
///
/// `Number` at a register that the side doesn't have, or an elapsed count that the state doesn't have; `Unknown` at a state that the
/// register doesn't have. The least place decides.
pub fn resolve_cert(
    alloc: Global,
    text: &CertTree,
    left: &Accepted,
    right: &Accepted,
) -> Result<Cert, CertError>
    ensures { Answers (cert_answer (module_of left.now.«module») (module_of right.now.«module») (cert_of text.now)) result }
{
    resolve(alloc, text, left.module(), right.module())
}
