//! What follows from the definitions. Each function has its law as its contract, and does nothing.
ghost use Rattle.argos_core.specs.Laws.{CodesAreSized, CodesDiffer, MemoriesFitLayouts, InitialIsOne, StepsStay, ProgramsReactOnceWithoutLocals, GoodProgramsHaveOneTrace, ReactionsAreCoded};

/// A configuration has a code, with one number for each automaton, and no two configurations have the same.
pub fn codes_differ()
    ensures sized { CodesAreSized }
    ensures distinct { CodesDiffer }
{}

/// A memory is the code of a configuration exactly where it fits the layout.
pub fn memories_fit_layouts()
    ensures { MemoriesFitLayouts }
{}

/// Where targets and initial states exist and timeouts count at least one instant, the initial configuration is one, and a step
/// from a configuration leads to a configuration.
pub fn steps_stay()
    ensures initial { InitialIsOne }
    ensures step { StepsStay }
{}

/// A module without overlaps and without locals has exactly one reaction to each input set in each configuration, reachable or not.
pub fn programs_react_once_without_locals()
    ensures { ProgramsReactOnceWithoutLocals }
{}

/// A module without overlaps that has exactly one reaction to each input set in each configuration has exactly one trace to each
/// list of input sets.
pub fn good_programs_have_one_trace()
    ensures { GoodProgramsHaveOneTrace }
{}

/// A configuration has exactly one reaction to an input set where there is exactly one between codes, from its code on.
pub fn reactions_are_coded()
    ensures { ReactionsAreCoded }
{}
