//! Laws of judgements. Each function has its law as its contract, and does nothing.
ghost use Rattle.argos_verdict.specs.Laws.{OneDecision, SomeDecision};

/// Of a module one thing at most is decided: that it is accepted, its first overlap, its first case without exactly one reaction, or that
/// a job has too many variables.
pub fn one_decision()
    ensures { OneDecision }
{}

/// It can't be that nothing is decided of a module.
pub fn some_decision()
    ensures { SomeDecision }
{}
