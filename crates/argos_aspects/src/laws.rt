//! What follows from the definitions. Each function has its law as its contract, and does nothing.
ghost use Rattle.argos_aspects.specs.Laws.{WovenStepsOnce, WovenInitialIsOne, WovenCodesAreSized, WovenCodesDiffer};

/// A good base with fitting aspects has exactly one woven step in each woven configuration, to each input set; and the initial
/// woven configuration is one.
pub fn woven_steps_once()
    ensures initial { WovenInitialIsOne }
    ensures once { WovenStepsOnce }
{}

/// A woven configuration has a code, with one number for each automaton, and no two have the same.
pub fn woven_codes_differ()
    ensures sized { WovenCodesAreSized }
    ensures distinct { WovenCodesDiffer }
{}
