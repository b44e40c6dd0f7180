//! The laws of arenas. Each is the contract of a function that does nothing: a caller gets the law by calling it.

ghost use Rattle.dd_core.specs.Laws.{EqualFunctionsHaveEqualIds, FullArenasAreSmall, NeedIsEnough};

/// Nodes of an arena that denote equal functions are one node.
pub fn equal_functions_have_equal_ids()
    ensures { EqualFunctionsHaveEqualIds }
{}

/// A full arena in which some function has no node holds fewer than `2^(2^v)` nodes, which is the number of functions of v variables.
pub fn full_arenas_are_small()
    ensures { FullArenasAreSmall }
{}

/// A job of fewer than n operations on functions of v variables lacks room only where its budget is below `need n v`.
pub fn need_is_enough()
    ensures { NeedIsEnough }
{}
