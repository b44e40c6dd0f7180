//! Laws of the aspects of trees. Each function has its law as its contract, and does nothing.
ghost use Rattle.pointcuts.specs.Laws.{AspectsFit, OneAspect, OneAspectFault, NotBoth, SomeAspectAnswer};

/// An aspect of a tree fits the base, where its observer is good.
pub fn aspects_fit()
    ensures { AspectsFit }
{}

/// A text of an aspect has one aspect over a base at most, or one fault, and not both.
pub fn one_aspect_answer()
    ensures aspect { OneAspect }
    ensures fault { OneAspectFault }
    ensures not_both { NotBoth }
{}

/// A well-formed tree has an aspect over a base, or a fault.
pub fn some_aspect_answer()
    ensures { SomeAspectAnswer }
{}
