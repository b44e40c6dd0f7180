//! What follows from the definitions. Each function has its laws as its contract, and does nothing: a
//! caller gets them by calling it.

ghost use Rattle.bisim_verdict.specs.Laws.{FoundIsDue, OneIsDue, SomeIsDue, AcceptedAreEqualUnderAspects};
ghost use Rattle.bisim_verdict.specs.Laws.{SystemsDecide, DifferingIsTold, OperationsAreFew};
ghost use Rattle.bisim_verdict.specs.Laws.{PlacedTogetherAreNamed, DigitsFit, ValuesArePoints};

/// What is found by the functions that decide is the due answer, of which there is exactly one; and where
/// it is to accept, the programs are equal under aspects.
pub fn found_is_due()
    ensures due { FoundIsDue }
    ensures one { OneIsDue }
    ensures some { SomeIsDue }
    ensures equal { AcceptedAreEqualUnderAspects }
{}

/// The functions of two systems that react as the programs do decide, and tell which output differs.
pub fn systems_decide()
    ensures decide { SystemsDecide }
    ensures told { DifferingIsTold }
{}

/// The places of both programs name different variables, there are digits enough, and all values of the
/// variables are those of two memories and an input set.
pub fn places_together()
    ensures named { PlacedTogetherAreNamed }
    ensures digits { DigitsFit }
    ensures points { ValuesArePoints }
{}

/// A check makes fewer operations on diagrams than its need counts.
pub fn operations_are_few()
    ensures few { OperationsAreFew }
{}
