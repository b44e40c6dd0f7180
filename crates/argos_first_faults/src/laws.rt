//! What follows from the definitions. Each function has its law as its contract, and does nothing.
ghost use Rattle.argos_first_faults.specs.Laws.{ProgramsHaveATreeOrAFault, AspectsHaveATreeOrAFault, CertificatesHaveATreeOrAFault};

/// Any bytes have the tree of a program, or a first fault as a program.
pub fn programs_have_a_tree_or_a_fault()
    ensures { ProgramsHaveATreeOrAFault }
{}

/// Any bytes have the tree of an aspect, or a first fault as an aspect.
pub fn aspects_have_a_tree_or_a_fault()
    ensures { AspectsHaveATreeOrAFault }
{}

/// Any bytes have the tree of a certificate, or a first fault as a certificate.
pub fn certificates_have_a_tree_or_a_fault()
    ensures { CertificatesHaveATreeOrAFault }
{}
