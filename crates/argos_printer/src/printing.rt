//! Trees as texts: their words with one space between two, and an LF at the end.
ghost use Rattle.std.specs.Prelude.{◌≡◌, ◌++◌, IfOk, map};
ghost use Rattle.argos_grammar.specs.Printed.{program_text, aspect_text, cert_text, onset_words};
ghost use Rattle.argos_printer.specs.Spaced.{spaced, set_words, sets_words, trace_words, advice_words};
ghost use Rattle.argos_grammar.specs.Views.{program_of, aspect_of, cert_of, set_of, marks_of};

use crate::printer::Printer;
use argos_base::OutOfMemory;
use argos_grammar::{AspectTree, CertTree, ProgramTree, Spot};
use std::alloc::Global;

/// The text of a program.
#[tactic(auto, using(crate::proofs::Texts::texts))]
pub fn print(alloc: Global, tree: &ProgramTree) -> Result<Vec<u8>, OutOfMemory>
    ensures text { IfOk result (λ v. v.items ≡ program_text (program_of tree.now)) }
{
    let mut printer = Printer::new(alloc, b"argos")?;
    printer.number(tree.version)?;
    printer.word(b";")?;
    printer.components(&tree.components)?;
    Ok(printer.line()?)
}

/// The text of an aspect.
#[tactic(auto, using(crate::proofs::Texts::texts))]
pub fn print_aspect(alloc: Global, tree: &AspectTree) -> Result<Vec<u8>, OutOfMemory>
    ensures text { IfOk result (λ v. v.items ≡ aspect_text (aspect_of tree.now)) }
{
    let mut printer = Printer::new(alloc, b"larissa")?;
    printer.number(tree.version)?;
    printer.word(b";")?;
    printer.components(&tree.components)?;
    printer.advice(tree)?;
    Ok(printer.line()?)
}

/// The text of a certificate.
#[tactic(auto, using(crate::proofs::Texts::texts))]
pub fn print_cert(alloc: Global, tree: &CertTree) -> Result<Vec<u8>, OutOfMemory>
    ensures text { IfOk result (λ v. v.items ≡ cert_text (cert_of tree.now)) }
{
    let mut printer = Printer::new(alloc, b"bisim")?;
    printer.number(tree.version)?;
    printer.word(b";")?;
    printer.word(b"relation")?;
    printer.formula(&tree.formula)?;
    printer.word(b";")?;
    Ok(printer.line()?)
}

impl Printer {
    // Appends what stands behind the components of an aspect.
    #[tactic(auto, using(crate::proofs::Spaced::words))]
    fn advice(&mut self, tree: &AspectTree) -> Result<(), OutOfMemory>
        ensures { IfOk result (λ _. self.new.text.items ≡ self.old.text.items ++ spaced (advice_words (aspect_of tree.now))) }
    {
        self.word(b"advice")?;
        self.emission(&tree.outs)?;
        self.onset(tree.current)?;
        self.trace(&tree.trace)?;
        self.word(b";")
    }

    // Appends where the advice leads to.
    fn onset(&mut self, current: bool) -> Result<(), OutOfMemory>
        ensures { IfOk result (λ _. self.new.text.items ≡ self.old.text.items ++ spaced (onset_words current)) }
    {
        if current {
            self.word(b"toCurrent")
        } else {
            self.word(b"toInit")
        }
    }

    // Appends the sets of a trace in brackets.
    #[tactic(auto, using(crate::proofs::Texts::sets))]
    fn trace(&mut self, sets: &[Vec<Spot>]) -> Result<(), OutOfMemory>
        ensures { IfOk result (λ _. self.new.text.items ≡ self.old.text.items ++ spaced (trace_words (map set_of sets.now))) }
    {
        self.word(b"[")?;
        self.sets(sets)?;
        self.word(b"]")
    }

    // Appends sets with a comma between two.
    #[tactic(auto, using(crate::proofs::Texts::sets))]
    fn sets(&mut self, sets: &[Vec<Spot>]) -> Result<(), OutOfMemory>
        ensures { IfOk result (λ _. self.new.text.items ≡ self.old.text.items ++ spaced (sets_words (map set_of sets.now))) }
    {
        let Some((first, others)) = sets.split_first() else {
            return Ok(());
        };
        self.set(first)?;
        for set in others {
            self.word(b",")?;
            self.set(set)?;
        }
        Ok(())
    }

    // Appends the names of a set in braces.
    #[tactic(auto, using(crate::proofs::Spaced::words))]
    fn set(&mut self, set: &[Spot]) -> Result<(), OutOfMemory>
        ensures { IfOk result (λ _. self.new.text.items ≡ self.old.text.items ++ spaced (set_words (marks_of set.now))) }
    {
        self.word(b"{")?;
        self.names(set)?;
        self.word(b"}")
    }
}
