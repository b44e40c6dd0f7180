//! What follows from the definitions. Each function has its laws as its contract, and does nothing.
ghost use Rattle.argos_congruence.specs.Laws.{BisimilarAreEqualUnderAspects, BisimilarTracesMove, MovedAspectsFit, WeavingsHaveOneTrace};

/// Good programs with the same names that are bisimilar are equal under every list of aspects; and the traces of the one are, said
/// by name, traces of the other.
pub fn bisimilar_are_equal_under_aspects()
    ensures equal { BisimilarAreEqualUnderAspects }
    ensures moves { BisimilarTracesMove }
{}

/// Aspects that fit a good program fit, moved, a program with the same names; and a good program under fitting aspects has exactly
/// one trace to each list of input sets.
pub fn weavings_have_one_trace()
    ensures fit { MovedAspectsFit }
    ensures one { WeavingsHaveOneTrace }
{}
