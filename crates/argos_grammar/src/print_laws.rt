//! What is printed of a tree is a text of it.
ghost use Rattle.argos_grammar.specs.Forms.{ProgramForm, AspectForm, CertForm};
ghost use Rattle.argos_grammar.specs.Text.{IsNestedWithin, IsProgramForm, IsAspectForm, IsCertForm, IsText, IsAspectText, IsCertText};
ghost use Rattle.argos_grammar.specs.Printed.{program_text, aspect_text, cert_text};
ghost use Rattle.argos_grammar.specs.Unplaced.{AreEqualPrograms, AreEqualAspects, AreEqualCerts};

/// What is printed of a well-formed tree, where it isn't nested too deep, is a text of this tree apart from places.
pub fn programs_read_back()
    ensures { (p : ProgramForm) → IsProgramForm p → IsNestedWithin (program_text p) → (q : ProgramForm) × IsText (program_text p) q × AreEqualPrograms q p }
{}

/// What is printed of a well-formed aspect, where it isn't nested too deep, is a text of this aspect apart from places.
pub fn aspects_read_back()
    ensures { (a : AspectForm) → IsAspectForm a → IsNestedWithin (aspect_text a) → (b : AspectForm) × IsAspectText (aspect_text a) b × AreEqualAspects b a }
{}

/// What is printed of a well-formed certificate, where it isn't nested too deep, is a text of this certificate apart from places.
pub fn certificates_read_back()
    ensures { (c : CertForm) → IsCertForm c → IsNestedWithin (cert_text c) → (d : CertForm) × IsCertText (cert_text c) d × AreEqualCerts d c }
{}
