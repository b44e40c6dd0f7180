//! What a certificate's text says of two programs.
ghost use Rattle.std.specs.Prelude.{◌≡◌, IfOk};
ghost use Rattle.argos_core.specs.ModuleViews.{module_of};
ghost use Rattle.argos_grammar.specs.Views.{cert_of};
ghost use Rattle.bisim_formula.specs.Certificates.{cert_answer};
ghost use Rattle.bisim_formula.specs.ResolveViews.{Answers};
ghost use Rattle.bisim_formula.specs.inner.Lent.{AreLentBy};

use crate::building::build;
use crate::cert::Cert;
use crate::checking::check;
use crate::faults::{Fault, LeastFault};
use argos_base::{Name, OutOfMemory};
use argos_core::{Module, State};
use argos_grammar::CertTree;
use argos_states::automata_of;
use std::alloc::Global;

/// Why a certificate says nothing, with the place in its text.
#[derive(Clone, Copy, Debug, PartialEq, Eq)]
pub enum CertError {
    /// The register has no state of this name.
    Unknown { name: Name, at: u32 },
    /// The side has no register of this number, or the state no such elapsed count.
    Number { number: u16, at: u32 },
    /// No memory was given.
    OutOfMemory,
}

impl From<OutOfMemory> for CertError {
    ghost use Rattle.std.specs.Prelude.{◌≡◌};
    ghost use Rattle.bisim_formula.specs.declared.resolving.CertError.TheVariants as errors;

    ghost from_gives = { λ _ e. e ≡ errors.OutOfMemory };

    fn from(_error: OutOfMemory) -> CertError {
        CertError::OutOfMemory
    }
}

/// The formula that the certificate says of two modules, or the fault at the least place.
pub fn resolve(
    alloc: Global,
    text: &CertTree,
    left: &Module,
    right: &Module,
) -> Result<Cert, CertError>
    ensures { Answers (cert_answer (module_of left.now) (module_of right.now) (cert_of text.now)) result }
{
    let left = registers_of(alloc, left)?;
    let right = registers_of(alloc, right)?;
    let mut least = LeastFault::new();
    check(&text.formula, &left, &right, &mut least);
    match least.found() {
        Some(Fault::Number(number, at)) => Err(CertError::Number { number, at }),
        Some(Fault::Unknown(spot)) => Err(CertError::Unknown {
            name: spot.name,
            at: spot.at,
        }),
        None => Ok(build(alloc, &text.formula, &left, &right)?),
    }
}

// The states of each register of a module.
fn registers_of<'a>(alloc: Global, module: &'a Module) -> Result<Vec<&'a [State]>, OutOfMemory>
    ensures { IfOk result (λ registers. AreLentBy (module_of «module».now) registers.items) }
{
    automata_of(alloc, &module.prog)
}
