ghost use Rattle.std.specs.Prelude.{◌≡◌, ◌<◌, [], ◌++◌, length, slice_get, option_copied};
ghost use Rattle.std.specs.Option.{option_map};
ghost use Rattle.argos_base.specs.Names.{AreDistinct, place_of, IsTable};
ghost use Rattle.argos_base.specs.Adding.{Adds};
ghost use Rattle.argos_base.specs.Limits.{signal_limit};

use crate::name::Name;
use crate::out_of_memory::OutOfMemory;
use crate::signals::SigId;
use indexmap::IndexSet;
use std::alloc::Global;
use std::marker::Model;

/// Distinct names, at most 16,384, seen as a list: the name with number `k` stands at place `k`.
#[derive(Debug, Drop)]
pub struct NameTable {
    names: IndexSet<Name>,
}

impl Model for NameTable {
    ghost use Rattle.std.specs.Prelude.{List, ℕ};
    ghost use Rattle.argos_base.specs.Names.{IsTable};

    ghost Value = { List (List ℕ) };

    ghost view = { λ t. t.names.keys };

    ghost invariant = { λ t. IsTable t.names.keys };
}

/// Why a name isn't added.
#[derive(Clone, Copy, Debug, PartialEq, Eq)]
pub enum AddError {
    /// The name stands at this place already.
    Duplicate(SigId),
    /// No memory was given.
    OutOfMemory,
}

impl NameTable {
    /// A table without names.
    pub fn new(alloc: Global) -> NameTable
        ensures { result ≡ [] }
    {
        NameTable {
            names: IndexSet::new(alloc),
        }
    }

    /// Appends a name, and gives its place. Where the name stands already, or on want of memory, the table stays as it was.
    #[tactic(auto, using(crate::proofs::NameLemmas::tables))]
    pub fn add(&mut self, name: Name) -> Result<SigId, AddError>
        requires { length self.old < signal_limit }
        ensures { Adds self.old name self.new result }
    {
        // the bytes of a name are spelled as one, which the table keeps
        let _spelled = name.bytes();
        if let Some(place) = self.names.get_index_of(&name) {
            return Err(AddError::Duplicate(SigId(place as u32)));
        }
        let place = self.names.len() as u32;
        match self.names.insert(name) {
            Ok(_) => Ok(SigId(place)),
            Err(_) => Err(AddError::OutOfMemory),
        }
    }

    /// The place of the name with these bytes.
    #[tactic(auto, using(crate::proofs::NameLemmas::tables))]
    pub fn find(&self, bytes: &[u8]) -> Option<SigId>
        ensures { option_map (λ k. k.0) result ≡ place_of self.now bytes.now }
    {
        let names = &self.names;
        let Ok(name) = Name::new(bytes) else {
            return None;
        };
        let place = names.get_index_of(&name)?;
        Some(SigId(place as u32))
    }

    /// The name at a place.
    pub fn get(&self, k: u32) -> Option<&Name>
        ensures { option_copied result ≡ slice_get self.now k }
    {
        self.names.get_index(k as usize)
    }

    /// How many names there are.
    pub fn len(&self) -> u32
        ensures count { result ≡ length self.now }
        ensures kept { IsTable self.now }
    {
        self.names.len() as u32
    }
}

/// The names of a module's inputs and outputs. No name stands in both.
#[derive(Debug, Drop)]
pub struct Names {
    pub inputs: NameTable,
    pub outputs: NameTable,
    ghost distinct: { AreDistinct (inputs ++ outputs) },
}
