//! What follows from the definitions. Each function has its laws as its contract, and does nothing: a caller gets them by calling it.

ghost use Rattle.eqn_verdict.specs.Diagrams.{ExistsIsSome, LeastIsFirst, NoneIsFalse, PinnedIsFalse, LeastDigit, PartlyNext, RootsAreLeast};
ghost use Rattle.eqn_verdict.specs.FromArena.{ArenasGiveDiagrams};
ghost use Rattle.eqn_verdict.specs.FromDiagrams.{DiagramsGiveFindings};
ghost use Rattle.eqn_verdict.specs.Laws.{SkippedDontDiffer, InstantFinds, VerdictIsOne, VerdictIsFirstBad, FindingsExist, LeastIsChosen, SolvedAreOrdered, SolvedReact, SolvedAreSmall};
ghost use Rattle.eqn_verdict.specs.Needs.{CountedAreEnough, AcceptanceCountsMore};
ghost use Rattle.eqn_verdict.specs.Programs.{OneIsOne, FirstBadIsFirstBad, RunsAreTraces, SolvedAreSystems, AcyclicAreGood, LayoutsAreSized};
ghost use Rattle.eqn_verdict.specs.SolvedNodes.{ListedAreNodes};
ghost use Rattle.eqn_verdict.specs.Structural.{FitsIsTest, WidthsAreEnough};

/// The verdict that functions of register bits, inputs and cyclic bits give is the system's; there are such functions, and the diagrams
/// of bits and words give some.
pub fn verdict()
    ensures one { VerdictIsOne }
    ensures first_bad { VerdictIsFirstBad }
    ensures exist { FindingsExist }
    ensures skipped { SkippedDontDiffer }
    ensures diagrams { DiagramsGiveFindings }
    ensures instant { InstantFinds }
{}

/// The system whose cyclic bits are computed from the diagrams of the least solution is ordered, small, and has the one reaction; and
/// its nodes are as many as the functions have, in whatever arena.
pub fn solving()
    ensures least { LeastIsChosen }
    ensures arenas { ArenasGiveDiagrams }
    ensures nodes { ListedAreNodes }
    ensures ordered { SolvedAreOrdered }
    ensures reacts { SolvedReact }
    ensures small { SolvedAreSmall }
{}

/// What quantifying, the least values, and functions that are pinned or partly set find.
pub fn steps()
    ensures exists { ExistsIsSome }
    ensures first { LeastIsFirst }
    ensures none { NoneIsFalse }
    ensures pinned { PinnedIsFalse }
    ensures digit { LeastDigit }
    ensures next { PartlyNext }
    ensures roots { RootsAreLeast }
{}

/// The verdict on a program's equations is the verdict on the program, and its runs are the traces; so are those of a system that has
/// its reactions wherever it reacts once, as the solved and the sorted one. Without cyclic bits a program is good.
pub fn programs()
    ensures one { OneIsOne }
    ensures first_bad { FirstBadIsFirstBad }
    ensures runs { RunsAreTraces }
    ensures solved { SolvedAreSystems }
    ensures acyclic { AcyclicAreGood }
{}

/// A layout has one shape for each register, fitting it is a test of codes, and its registers have few digits.
pub fn layouts()
    ensures sized { LayoutsAreSized }
    ensures test { FitsIsTest }
    ensures widths { WidthsAreEnough }
{}

/// The instant and the solving make fewer operations on diagrams than their need counts.
pub fn needs()
    ensures jobs { CountedAreEnough }
    ensures acceptance { AcceptanceCountsMore }
{}
