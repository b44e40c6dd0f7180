//! The words of a text, appended one by one.
ghost use Rattle.std.specs.Prelude.{◌≡◌, ◌++◌, ◌∷◌, [], IfOk};
ghost use Rattle.argos_grammar.specs.Views.{mark_of, marks_of};
ghost use Rattle.argos_grammar.specs.Printed.{name_words, number_words, names_words, listed_words, emitted_words};
ghost use Rattle.argos_printer.specs.Spaced.{spaced, interface_words};

use argos_base::OutOfMemory;
use argos_grammar::Spot;
use std::alloc::Global;

/// What is printed so far.
#[derive(Debug, Drop)]
pub struct Printer {
    pub alloc: Global,
    pub text: Vec<u8>,
}

impl Printer {
    /// A text that begins with this word.
    pub fn new(alloc: Global, word: &[u8]) -> Result<Printer, OutOfMemory>
        ensures { IfOk result (λ p. p.text.items ≡ word.now) }
    {
        let text = Vec::from_slice(alloc, word)?;
        Ok(Printer { alloc, text })
    }

    /// The text, with an LF at the end.
    pub fn line(self) -> Result<Vec<u8>, OutOfMemory>
        ensures { IfOk result (λ v. v.items ≡ self.text.items ++ 10 ∷ []) }
    {
        let mut text = self.text;
        text.push(b'\n')?;
        Ok(text)
    }

    /// Appends a word, behind a space.
    pub fn word(&mut self, word: &[u8]) -> Result<(), OutOfMemory>
        ensures { IfOk result (λ _. self.new.text.items ≡ self.old.text.items ++ spaced (word.now ∷ [])) }
    {
        self.text.push(b' ')?;
        self.text.extend_from_slice(word)?;
        Ok(())
    }

    /// Appends a name.
    pub fn name(&mut self, spot: &Spot) -> Result<(), OutOfMemory>
        ensures { IfOk result (λ _. self.new.text.items ≡ self.old.text.items ++ spaced (name_words (mark_of spot.now))) }
    {
        self.word(spot.name.bytes())
    }

    /// Appends a number.
    pub fn number(&mut self, number: u16) -> Result<(), OutOfMemory>
        ensures { IfOk result (λ _. self.new.text.items ≡ self.old.text.items ++ spaced (number_words number)) }
    {
        let digits = format!(in self.alloc; "{number}")?;
        self.word(digits.as_bytes())
    }

    /// Appends names with a comma between two.
    #[tactic(auto, using(crate::proofs::Spaced::words))]
    pub fn names(&mut self, names: &[Spot]) -> Result<(), OutOfMemory>
        ensures { IfOk result (λ _. self.new.text.items ≡ self.old.text.items ++ spaced (names_words (marks_of names.now))) }
    {
        let Some((first, others)) = names.split_first() else {
            return Ok(());
        };
        self.name(first)?;
        for name in others {
            self.word(b",")?;
            self.name(name)?;
        }
        Ok(())
    }

    /// Appends names in parentheses, or none there.
    #[tactic(auto, using(crate::proofs::Spaced::words))]
    pub fn listed(&mut self, names: &[Spot]) -> Result<(), OutOfMemory>
        ensures { IfOk result (λ _. self.new.text.items ≡ self.old.text.items ++ spaced (listed_words (marks_of names.now))) }
    {
        self.word(b"(")?;
        self.names(names)?;
        self.word(b")")
    }

    /// Appends the names of inputs and of outputs.
    #[tactic(auto, using(crate::proofs::Spaced::words))]
    pub fn interface(&mut self, inputs: &[Spot], outputs: &[Spot]) -> Result<(), OutOfMemory>
        ensures { IfOk result (λ _. self.new.text.items ≡ self.old.text.items ++ spaced (interface_words (marks_of inputs.now) (marks_of outputs.now))) }
    {
        self.listed(inputs)?;
        self.word(b"->")?;
        self.listed(outputs)
    }

    /// Appends what is emitted, if anything is.
    #[tactic(auto, using(crate::proofs::Spaced::words))]
    pub fn emission(&mut self, outs: &[Spot]) -> Result<(), OutOfMemory>
        ensures { IfOk result (λ _. self.new.text.items ≡ self.old.text.items ++ spaced (emitted_words (marks_of outs.now))) }
    {
        if outs.is_empty() {
            return Ok(());
        }
        self.word(b"emit")?;
        self.names(outs)
    }
}
