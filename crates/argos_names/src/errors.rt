use argos_base::{Name, OutOfMemory};

/// A rule on names. It is broken at the place of a name.
#[derive(Clone, Copy, Debug, PartialEq, Eq)]
pub enum NameRule {
    /// The name stands for nothing here.
    Unknown,
    /// The name stands for something already.
    Duplicate,
    /// An output is read.
    NotReadable,
    /// An input is emitted.
    NotEmittable,
    /// A component is run with a wrong number of inputs or outputs.
    Arity,
    /// A component is run that doesn't stand before.
    NotEarlier,
    /// The initial state is none of the states.
    NoInitial,
}

/// Why the rules on names aren't seen to be kept.
#[derive(Clone, Copy, Debug, PartialEq, Eq)]
pub enum NameFault {
    /// This rule is broken at this name, whose place is counted in bytes from 0.
    Broken { rule: NameRule, name: Name, at: u32 },
    /// No memory was given.
    OutOfMemory,
}

impl From<OutOfMemory> for NameFault {
    ghost use Rattle.std.specs.Prelude.{◌≡◌};
    ghost use Rattle.argos_names.specs.declared.errors.NameFault.TheVariants as faults;

    ghost from_gives = { λ _ e. e ≡ faults.OutOfMemory };

    fn from(_error: OutOfMemory) -> NameFault {
        NameFault::OutOfMemory
    }
}
