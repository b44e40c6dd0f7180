ghost use Rattle.std.specs.Prelude.{◌≡◌, ◌↔◌, IsOk, IfOk, IfErr};

use crate::copies::copy_system;
use crate::order::is_ordered;
use crate::system::System;
use argos_base::OutOfMemory;
use std::alloc::Global;
use std::marker::Model;

/// A system in which each line reads inputs, registers and earlier lines alone, seen as its equations. It has 1 to 100,000
/// registers, at most 16,384 inputs, 16,384 outputs and 100,000,000 lines, and no locals; each `Within` has its bounds in order,
/// each `Digit` a place of at most 15, and each number names a bit or a word that exists.
#[derive(Debug, Drop)]
pub struct Ordered {
    system: System,
}

impl Model for Ordered {
    ghost use Rattle.eqn_core.specs.Equations.{Equations};

    ghost Value = { Equations };

    ghost use Rattle.eqn_core.specs.Ordered.{IsOrdered};
    ghost use Rattle.eqn_core.specs.Views.{equations_from};

    ghost view = { λ o. equations_from o.system };

    ghost invariant = { λ o. IsOrdered (equations_from o.system) };
}

impl Ordered {
    ghost use Rattle.eqn_core.specs.Ordered.{IsOrdered};
    ghost use Rattle.eqn_core.specs.Views.{equations_from};

    /// Ok exactly where the system is ordered and within the limits; else it is handed back. It takes no memory.
    pub fn from_system(system: System) -> Result<Ordered, System>
        ensures ordered { IsOk result ↔ IsOrdered (equations_from system) }
        ensures kept { IfOk result (λ o. o ≡ equations_from system) }
        ensures back { IfErr result (λ s. s ≡ system) }
    {
        if is_ordered(&system) {
            Ok(Ordered { system })
        } else {
            Err(system)
        }
    }

    /// The system.
    pub fn system(&self) -> &System
        ensures system { equations_from result.now ≡ self.now }
        ensures ordered { IsOrdered self.now }
    {
        &self.system
    }

    /// One with an equal system.
    pub fn copy(&self, alloc: Global) -> Result<Ordered, OutOfMemory>
        ensures { IfOk result (λ o. o ≡ self.now) }
    {
        let system = copy_system(alloc, &self.system)?;
        Ok(Ordered { system })
    }
}
