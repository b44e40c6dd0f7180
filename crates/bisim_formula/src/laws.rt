//! What follows from the definitions. The function has its law as its contract, and does nothing.
ghost use Rattle.bisim_formula.specs.Laws.{CertificatesResolve};

/// A certificate is refused for its first fault, or says a formula whose names exist.
pub fn certificates_resolve()
    ensures { CertificatesResolve }
{}
