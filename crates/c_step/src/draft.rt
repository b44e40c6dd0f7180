ghost use Rattle.std.specs.Prelude.{◌≡◌, codes, map, nat_eq};
ghost use Rattle.std.specs.HashSet.{contains};
ghost use Rattle.eqn_core.specs.Views.{case_of};
ghost use Rattle.c_step.specs.CFile as lines;
ghost use Rattle.c_step.specs.CStep.{IsCStep};
ghost use Rattle.c_step.specs.StepViews.{step_of};
ghost use Rattle.c_step.specs.inner.Drafts.{start_stage, stage_of, draft_step, draft_assigned, IsSound, Moves, AddsName, all_marked};
ghost use Rattle.c_step.specs.inner.LineReading as reading;
ghost use Rattle.c_step.specs.inner.Pieces as pieces;
ghost use Rattle.c_step.specs.inner.Scopes.{scope_of};

use crate::errors::CError;
use crate::head_lines::{array_sizes, comment, register_code};
use crate::pieces::Pieces;
use crate::scope::{Marks, Scope, mark};
use crate::statement_lines::{bit_line, case_line, out_line, word_line};
use crate::statements::CStat;
use crate::step::CStep;
use argos_base::{AddError, Name, NameTable, Names, SIGNAL_LIMIT};
use eqn_core::Case;
use std::alloc::Global;
use std::collections::HashSet;
use std::mem;

/// What may come next.
#[derive(Clone, Copy, Debug)]
pub(crate) enum Part {
    Opening,
    Inputs,
    Outputs,
    Init,
    Codes,
    Step,
    Statements,
    /// A further case of this word, or its last.
    Cases { word: u32 },
    Nothing,
}

/// A step as far as the lines so far say it.
#[derive(Debug, Drop)]
pub(crate) struct Draft {
    pub part: Part,
    pub inputs: NameTable,
    pub outputs: NameTable,
    pub words: u32,
    pub bits: u32,
    pub init: Vec<u16>,
    pub stats: Vec<CStat>,
    /// The cases so far of the word whose cases are due.
    pub cases: Vec<Case>,
    /// What the statements so far gave a value.
    pub marks: Marks,
}

// A name that stands in neither table is appended to the first.
fn add_name(names: &mut NameTable, others: &NameTable, name: Name, at: u32) -> Result<(), CError>
    ensures { AddsName at name names.old others.now names.new result }
{
    if others.find(name.bytes()).is_some() {
        return Err(CError::NotSubset { at });
    }
    if names.len() >= SIGNAL_LIMIT {
        return Err(CError::NotSubset { at });
    }
    match names.add(name) {
        Ok(_) => Ok(()),
        Err(AddError::Duplicate(_)) => Err(CError::NotSubset { at }),
        Err(AddError::OutOfMemory) => Err(CError::OutOfMemory),
    }
}

// Whether an array may have so many places.
fn is_size(length: u32) -> bool
    ensures { result ≡ lines.is_size length }
{
    1 <= length && length <= 200_000_000
}

// Whether each number below this is marked.
fn all_marked(count: u32, marks: &HashSet<u32>) -> bool
    ensures { result ≡ all_marked count (contains nat_eq marks.now) }
{
    for number in 0..count {
        if !marks.contains(&number) {
            return false;
        }
    }
    true
}

impl Draft {
    /// Before the first line.
    pub fn new(alloc: Global) -> Draft
        ensures stage { stage_of result ≡ start_stage }
        ensures sound { IsSound result }
    {
        Draft {
            part: Part::Opening,
            inputs: NameTable::new(alloc),
            outputs: NameTable::new(alloc),
            words: 0,
            bits: 0,
            init: Vec::new(alloc),
            stats: Vec::new(alloc),
            cases: Vec::new(alloc),
            marks: Marks::new(alloc),
        }
    }

    /// Whether the last line was taken.
    pub fn is_whole(&self) -> bool
        ensures { result ≡ lines.is_finished (stage_of self.now).due }
    {
        match self.part {
            Part::Nothing => true,
            _ => false,
        }
    }

    /// The step, where it keeps what a step keeps.
    pub fn into_step(self) -> CStep
        requires { IsCStep (draft_step self) }
        ensures { step_of result ≡ draft_step self }
    {
        CStep {
            names: Names {
                inputs: self.inputs,
                outputs: self.outputs,
            },
            words: self.words,
            bits: self.bits,
            init: self.init,
            stats: self.stats,
        }
    }

    // What the next statement may name.
    fn scope(&self) -> Scope<'_>
        requires { IsSound self.now }
        ensures { scope_of result ≡ reading.scope_at (draft_step self.now) (draft_assigned self.now) }
    {
        Scope {
            inputs: self.inputs.len(),
            outputs: self.outputs.len(),
            words: self.words,
            bits: self.bits,
            registers: self.init.len() as u32,
            marks: &self.marks,
        }
    }

    /// Takes a line, where it is due.
    pub fn take(&mut self, alloc: Global, line: Pieces<'_>) -> Result<(), CError>
        requires { IsSound self.old }
        ensures { Moves (stage_of self.old).due (reading.read_part (stage_of self.old).due (draft_step self.old) (draft_assigned self.old) line.entry.rest.now) line.entry.at self.old self.new result }
    {
        match self.part {
            Part::Opening => self.opening(line),
            Part::Inputs => self.input_or_other(line),
            Part::Outputs => self.output_or_sizes(line),
            Part::Init => self.init_head(line),
            Part::Codes => self.code_or_end(line),
            Part::Step => self.step_head(line),
            Part::Statements => self.statement(alloc, line),
            Part::Cases { word } => self.further(alloc, line, word),
            Part::Nothing => Err(line.refused()),
        }
    }

    fn opening(&mut self, line: Pieces<'_>) -> Result<(), CError>
        requires { IsSound self.old }
        ensures { Moves lines.opening_due (reading.read_part lines.opening_due (draft_step self.old) (draft_assigned self.old) line.entry.rest.now) line.entry.at self.old self.new result }
    {
        line.last(b"/* argos-c 1 */")?;
        self.part = Part::Inputs;
        Ok(())
    }

    fn init_head(&mut self, line: Pieces<'_>) -> Result<(), CError>
        requires { IsSound self.old }
        ensures { Moves lines.init_due (reading.read_part lines.init_due (draft_step self.old) (draft_assigned self.old) line.entry.rest.now) line.entry.at self.old self.new result }
    {
        line.last(b"void argos_init(struct argos *m) {")?;
        self.part = Part::Codes;
        Ok(())
    }

    fn step_head(&mut self, line: Pieces<'_>) -> Result<(), CError>
        requires { IsSound self.old }
        ensures { Moves lines.step_due (reading.read_part lines.step_due (draft_step self.old) (draft_assigned self.old) line.entry.rest.now) line.entry.at self.old self.new result }
    {
        line.last(
            b"void argos_step(struct argos *m, const unsigned int *in, unsigned int *out) {",
        )?;
        self.part = Part::Statements;
        Ok(())
    }

    fn input_or_other(&mut self, line: Pieces<'_>) -> Result<(), CError>
        requires { IsSound self.old }
        ensures { Moves lines.inputs_due (reading.read_input line.entry.rest.now) line.entry.at self.old self.new result }
    {
        if line.begins(b"/* input ") {
            self.input(line)
        } else {
            self.output_or_sizes(line)
        }
    }

    fn input(&mut self, line: Pieces<'_>) -> Result<(), CError>
        requires { IsSound self.old }
        ensures { Moves lines.inputs_due (reading.read_comment (codes "/* input ") lines.input_comment line.entry.rest.now) line.entry.at self.old self.new result }
    {
        let name = comment(line, b"/* input ")?;
        add_name(&mut self.inputs, &self.outputs, name, line.at)?;
        self.part = Part::Inputs;
        Ok(())
    }

    fn output_or_sizes(&mut self, line: Pieces<'_>) -> Result<(), CError>
        requires { IsSound self.old }
        ensures inputs { Moves lines.inputs_due (reading.read_output line.entry.rest.now) line.entry.at self.old self.new result }
        ensures outputs { Moves lines.outputs_due (reading.read_output line.entry.rest.now) line.entry.at self.old self.new result }
    {
        if line.begins(b"/* output ") {
            self.output(line)
        } else {
            self.sizes(line)
        }
    }

    fn output(&mut self, line: Pieces<'_>) -> Result<(), CError>
        requires { IsSound self.old }
        ensures inputs { Moves lines.inputs_due (reading.read_comment (codes "/* output ") lines.output_comment line.entry.rest.now) line.entry.at self.old self.new result }
        ensures outputs { Moves lines.outputs_due (reading.read_comment (codes "/* output ") lines.output_comment line.entry.rest.now) line.entry.at self.old self.new result }
    {
        let name = comment(line, b"/* output ")?;
        add_name(&mut self.outputs, &self.inputs, name, line.at)?;
        self.part = Part::Outputs;
        Ok(())
    }

    fn sizes(&mut self, line: Pieces<'_>) -> Result<(), CError>
        requires { IsSound self.old }
        ensures inputs { Moves lines.inputs_due (reading.read_sizes line.entry.rest.now) line.entry.at self.old self.new result }
        ensures outputs { Moves lines.outputs_due (reading.read_sizes line.entry.rest.now) line.entry.at self.old self.new result }
    {
        let sizes = array_sizes(line)?;
        if !is_size(sizes.words) || !is_size(sizes.bits) {
            return Err(line.refused());
        }
        self.words = sizes.words;
        self.bits = sizes.bits;
        self.part = Part::Init;
        Ok(())
    }

    fn code_or_end(&mut self, line: Pieces<'_>) -> Result<(), CError>
        requires { IsSound self.old }
        ensures { Moves lines.codes_due (reading.read_register self.old.words line.entry.rest.now) line.entry.at self.old self.new result }
    {
        if line.is_last(b"}") {
            if self.init.is_empty() {
                return Err(line.refused());
            }
            self.part = Part::Step;
            Ok(())
        } else {
            self.code(line)
        }
    }

    fn code(&mut self, line: Pieces<'_>) -> Result<(), CError>
        requires { IsSound self.old }
        ensures { Moves lines.codes_due (reading.read_code self.old.words line.entry.rest.now) line.entry.at self.old self.new result }
    {
        let code = register_code(line, self.words)?;
        if code.register as usize != self.init.len() {
            return Err(line.refused());
        }
        self.init.push(code.code)?;
        self.part = Part::Codes;
        Ok(())
    }

    fn statement(&mut self, alloc: Global, line: Pieces<'_>) -> Result<(), CError>
        requires { IsSound self.old }
        ensures { Moves lines.statements_due (reading.read_statement (reading.scope_at (draft_step self.old) (draft_assigned self.old)) line.entry.rest.now) line.entry.at self.old self.new result }
    {
        if line.begins(b"m->b[") {
            self.bit(alloc, line)
        } else if line.begins(b"m->w[") {
            self.word(alloc, line)
        } else if line.begins(b"if (") {
            self.first_case(alloc, line)
        } else if line.begins(b"out[") {
            self.assign_output(line)
        } else {
            self.end(line)
        }
    }

    fn bit(&mut self, alloc: Global, line: Pieces<'_>) -> Result<(), CError>
        requires { IsSound self.old }
        ensures { Moves lines.statements_due (reading.read_bit (reading.scope_at (draft_step self.old) (draft_assigned self.old)) line.entry.rest.now) line.entry.at self.old self.new result }
    {
        let said = bit_line(alloc, line, self.scope())?;
        mark(&mut self.marks.bits, said.to)?;
        self.stats.push(CStat::Bit {
            to: said.to,
            value: said.value,
        })?;
        self.part = Part::Statements;
        Ok(())
    }

    fn word(&mut self, alloc: Global, line: Pieces<'_>) -> Result<(), CError>
        requires { IsSound self.old }
        ensures { Moves lines.statements_due (reading.read_word (reading.scope_at (draft_step self.old) (draft_assigned self.old)) lines.word_line line.entry.rest.now) line.entry.at self.old self.new result }
    {
        let said = word_line(line, self.scope())?;
        mark(&mut self.marks.words, said.to)?;
        self.stats.push(CStat::Word {
            to: said.to,
            cases: Vec::new(alloc),
            other: said.pick,
        })?;
        self.part = Part::Statements;
        Ok(())
    }

    fn first_case(&mut self, alloc: Global, line: Pieces<'_>) -> Result<(), CError>
        requires { IsSound self.old }
        ensures { Moves lines.statements_due (reading.read_case (reading.scope_at (draft_step self.old) (draft_assigned self.old)) lines.first_case line.entry.rest.now) line.entry.at self.old self.new result }
    {
        let said = case_line(line, self.scope())?;
        let mut cases = Vec::new(alloc);
        cases.push(said.case)?;
        self.cases = cases;
        self.part = Part::Cases { word: said.to };
        Ok(())
    }

    fn assign_output(&mut self, line: Pieces<'_>) -> Result<(), CError>
        requires { IsSound self.old }
        ensures { Moves lines.statements_due (reading.read_out (reading.scope_at (draft_step self.old) (draft_assigned self.old)) line.entry.rest.now) line.entry.at self.old self.new result }
    {
        let said = out_line(line, self.scope())?;
        mark(&mut self.marks.outs, said.to)?;
        self.stats.push(CStat::Out {
            to: said.to,
            bit: said.bit,
        })?;
        self.part = Part::Statements;
        Ok(())
    }

    fn end(&mut self, line: Pieces<'_>) -> Result<(), CError>
        requires { IsSound self.old }
        ensures { Moves lines.statements_due (pieces.last (codes "}") lines.closing line.entry.rest.now) line.entry.at self.old self.new result }
    {
        line.last(b"}")?;
        if !all_marked(self.outputs.len(), &self.marks.outs) {
            return Err(CError::NotSubset { at: line.at });
        }
        self.part = Part::Nothing;
        Ok(())
    }

    fn further(&mut self, alloc: Global, mut line: Pieces<'_>, word: u32) -> Result<(), CError>
        requires { IsSound self.old }
        ensures { Moves (lines.cases_due word (map case_of self.old.cases.items)) (reading.read_further (reading.scope_at (draft_step self.old) (draft_assigned self.old)) line.entry.rest.now) line.entry.at self.old self.new result }
    {
        line.text(b"else ")?;
        if line.begins(b"if (") {
            self.further_case(line, word)
        } else {
            self.last_case(alloc, line, word)
        }
    }

    fn further_case(&mut self, line: Pieces<'_>, word: u32) -> Result<(), CError>
        requires { IsSound self.old }
        ensures { Moves (lines.cases_due word (map case_of self.old.cases.items)) (reading.read_case (reading.scope_at (draft_step self.old) (draft_assigned self.old)) lines.further_case line.entry.rest.now) line.entry.at self.old self.new result }
    {
        let said = case_line(line, self.scope())?;
        if said.to != word {
            return Err(line.refused());
        }
        self.cases.push(said.case)?;
        self.part = Part::Cases { word: said.to };
        Ok(())
    }

    fn last_case(&mut self, alloc: Global, line: Pieces<'_>, word: u32) -> Result<(), CError>
        requires { IsSound self.old }
        ensures { Moves (lines.cases_due word (map case_of self.old.cases.items)) (reading.read_word (reading.scope_at (draft_step self.old) (draft_assigned self.old)) lines.last_case line.entry.rest.now) line.entry.at self.old self.new result }
    {
        let said = word_line(line, self.scope())?;
        if said.to != word {
            return Err(line.refused());
        }
        mark(&mut self.marks.words, said.to)?;
        let cases = mem::replace(&mut self.cases, Vec::new(alloc));
        self.stats.push(CStat::Word {
            to: said.to,
            cases,
            other: said.pick,
        })?;
        self.part = Part::Statements;
        Ok(())
    }
}
