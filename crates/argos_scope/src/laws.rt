//! Laws of what a program text means.
ghost use Rattle.std.specs.Prelude.{◌≡◌, ℕ, List, Contains};
ghost use Rattle.std.specs.List.{AllByRecursion};
ghost use Rattle.argos_core.specs.Modules.{IsModule};
ghost use Rattle.argos_core.specs.Process.{PlainModule};
ghost use Rattle.argos_grammar.specs.Forms.{ComponentForm, ProgramForm};
ghost use Rattle.argos_grammar.specs.Text.{IsComponent, IsText};
ghost use Rattle.argos_names.specs.Scope.{Breach, breaches};
ghost use Rattle.argos_scope.specs.Meaning.{Resolves, Means, ScopeFault, IsScopeFault};

/// The module that well-formed components resolve to keeps the rules of scope and the limits.
pub fn resolved_modules_are_kept()
    ensures { (cs : List ComponentForm) (p : PlainModule) → AllByRecursion IsComponent cs → Resolves cs p → IsModule p }
{}

/// In a text at most one name rule is broken at one place.
pub fn one_rule_is_broken_at_a_place()
    ensures { (bs : List ℕ) (t : ProgramForm) (b c : Breach) → IsText bs t → Contains (breaches t.components) b → Contains (breaches t.components) c
        → b.mark.at ≡ c.mark.at → b ≡ c }
{}

/// A text has at most one scope fault.
pub fn one_scope_fault()
    ensures { (bs : List ℕ) (t : ProgramForm) (f g : ScopeFault) → IsText bs t → IsScopeFault t.components f → IsScopeFault t.components g → f ≡ g }
{}

/// A text means at most one module, and one that means a module has no scope fault.
pub fn one_meaning()
    ensures once { (bs : List ℕ) (p q : PlainModule) → Means bs p → Means bs q → p ≡ q }
    ensures no_fault { (bs : List ℕ) (t : ProgramForm) (p : PlainModule) (f : ScopeFault) → Means bs p → IsText bs t → IsScopeFault t.components f → ⊥ }
{}
