//! What follows from the definitions. Each function has its law as its contract, and does nothing.
ghost use Rattle.weave_lines.specs.Laws.{WeavingIsWoven, WeavingIsSmall, WeavingCanJoin, WovenSolutionsAreSteps, WovenTracesAreRuns, WovenRunsAreTraces, WovenRuns, PlainIsWoven, WovenFromIsWoven};

/// The woven lines are a system of the woven program, and they are few.
pub fn weaving_is_woven()
    ensures plain { PlainIsWoven }
    ensures woven { WeavingIsWoven }
    ensures small { WeavingIsSmall }
    ensures join { WeavingCanJoin }
    ensures list { WovenFromIsWoven }
{}

/// At the code of a woven configuration the one solution is the woven step, and the runs are the woven traces.
pub fn woven_runs()
    ensures steps { WovenSolutionsAreSteps }
    ensures traces { WovenTracesAreRuns }
    ensures runs { WovenRunsAreTraces }
    ensures same { WovenRuns }
{}
