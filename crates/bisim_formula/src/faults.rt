//! The fault of a certificate's text at the least place.
ghost use Rattle.std.specs.Prelude.{◌≡◌, [], ◌∷◌, None, option_map};
ghost use Rattle.bisim_formula.specs.Certificates.{least_after, fault_at};
ghost use Rattle.bisim_formula.specs.inner.Lent.{fault_of};

use argos_grammar::Spot;
use std::marker::Model;

/// A number that isn't there, or a state's name that isn't, with the place in the text.
#[derive(Clone, Copy, Debug)]
pub(crate) enum Fault {
    Number(u16, u32),
    Unknown(Spot),
}

/// Of the faults so far, the one at the least place, and of several there the first that was found.
#[derive(Debug, Drop)]
pub(crate) struct LeastFault {
    found: Option<Fault>,
}

impl Model for LeastFault {
    ghost use Rattle.std.specs.Prelude.{Option, option_map};
    ghost use Rattle.bisim_formula.specs.Certificates.{CertFault};
    ghost use Rattle.bisim_formula.specs.inner.Lent.{fault_of};

    ghost Value = { Option CertFault };

    ghost view = { λ l. option_map fault_of l.found };
}

impl Fault {
    fn place(&self) -> u32
        ensures { result ≡ fault_at (fault_of self.now) }
    {
        match self {
            Fault::Number(_, at) => *at,
            Fault::Unknown(spot) => spot.at,
        }
    }
}

impl LeastFault {
    pub(crate) fn new() -> LeastFault
        ensures { result ≡ None }
    {
        LeastFault { found: None }
    }

    pub(crate) fn add(&mut self, fault: Fault)
        ensures { self.new ≡ least_after self.old (fault_of fault ∷ []) }
    {
        let comes_first = match &self.found {
            Some(found) => fault.place() < found.place(),
            None => true,
        };
        if comes_first {
            self.found = Some(fault);
        }
    }

    pub(crate) fn found(self) -> Option<Fault>
        ensures { option_map fault_of result ≡ self }
    {
        self.found
    }
}
