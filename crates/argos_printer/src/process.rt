//! The printing of processes and components.
ghost use Rattle.std.specs.Prelude.{◌≡◌, ◌++◌, IfOk, map, flat_map};
ghost use Rattle.argos_grammar.specs.Forms.{automaton};
ghost use Rattle.argos_grammar.specs.Views.{mark_of, process_of, state_of, block_of, states_of, component_of};
ghost use Rattle.argos_grammar.specs.Printed.{braced_words, process_words, block_words, states_words, body_words, component_words};
ghost use Rattle.argos_printer.specs.Spaced.{spaced, inside_words, state_words, reaction_words};

use crate::printer::Printer;
use argos_base::OutOfMemory;
use argos_grammar::{ComponentTree, ProcessTree, Spot, StateTree};

impl Printer {
    /// Appends components, each behind the one before.
    #[tactic(auto, using(crate::proofs::ProcessWords::component_list))]
    pub fn components(&mut self, components: &[ComponentTree]) -> Result<(), OutOfMemory>
        ensures { IfOk result (λ _. self.new.text.items ≡ self.old.text.items ++ spaced (flat_map component_words (map component_of components.now))) }
    {
        for component in components {
            self.component(component)?;
        }
        Ok(())
    }

    // Appends a component.
    #[tactic(auto, using(crate::proofs::Spaced::words))]
    fn component(&mut self, component: &ComponentTree) -> Result<(), OutOfMemory>
        ensures { IfOk result (λ _. self.new.text.items ≡ self.old.text.items ++ spaced (component_words (component_of component.now))) }
    {
        self.word(b"component")?;
        self.name(&component.name)?;
        self.interface(&component.inputs, &component.outputs)?;
        Ok(self.block(&component.block)?)
    }

    // Appends processes in braces.
    #[cycle(process)]
    #[tactic(auto, using(crate::proofs::ProcessWords::process_list))]
    fn block(&mut self, processes: &[ProcessTree]) -> Result<(), OutOfMemory>
        ensures { IfOk result (λ _. self.new.text.items ≡ self.old.text.items ++ spaced (braced_words (block_words (block_of processes.now)))) }
    {
        self.word(b"{")?;
        self.processes(processes)?;
        self.word(b"}")
    }

    // Appends processes with `||` between two.
    #[cycle(process)]
    #[tactic(auto, using(crate::proofs::ProcessWords::process_list))]
    fn processes(&mut self, processes: &[ProcessTree]) -> Result<(), OutOfMemory>
        ensures { IfOk result (λ _. self.new.text.items ≡ self.old.text.items ++ spaced (block_words (block_of processes.now))) }
    {
        let Some((first, others)) = processes.split_first() else {
            return Ok(());
        };
        self.process(first)?;
        for process in others {
            self.word(b"||")?;
            self.process(process)?;
        }
        Ok(())
    }

    // Appends a process.
    #[cycle(process)]
    #[tactic(auto, using(crate::proofs::ProcessWords::process_list))]
    fn process(&mut self, process: &ProcessTree) -> Result<(), OutOfMemory>
        ensures { IfOk result (λ _. self.new.text.items ≡ self.old.text.items ++ spaced (process_words (process_of process.now))) }
    {
        match process {
            ProcessTree::Automaton { init, states } => Ok(self.automaton(init, states)?),
            ProcessTree::Local(names, block) => {
                self.word(b"local")?;
                self.names(names)?;
                self.word(b"in")?;
                Ok(self.block(block)?)
            }
            ProcessTree::Freeze(signal, block) => {
                self.word(b"freeze")?;
                self.name(signal)?;
                self.word(b"in")?;
                Ok(self.block(block)?)
            }
            ProcessTree::Run {
                component,
                inputs,
                outputs,
            } => {
                self.word(b"run")?;
                self.name(component)?;
                Ok(self.interface(inputs, outputs)?)
            }
        }
    }

    // Appends an automaton.
    #[cycle(process)]
    #[tactic(auto, using(crate::proofs::ProcessWords::process_list))]
    fn automaton(&mut self, init: &Spot, states: &[StateTree]) -> Result<(), OutOfMemory>
        ensures { IfOk result (λ _. self.new.text.items ≡ self.old.text.items ++ spaced (process_words (automaton (mark_of init.now) (states_of states.now)))) }
    {
        self.word(b"automaton")?;
        self.word(b"{")?;
        self.inside(init, states)?;
        self.word(b"}")
    }

    // Appends what stands inside an automaton.
    #[cycle(process)]
    #[tactic(auto, using(crate::proofs::ProcessWords::process_list))]
    fn inside(&mut self, init: &Spot, states: &[StateTree]) -> Result<(), OutOfMemory>
        ensures { IfOk result (λ _. self.new.text.items ≡ self.old.text.items ++ spaced (inside_words (mark_of init.now) (states_of states.now))) }
    {
        self.word(b"init")?;
        self.name(init)?;
        self.word(b";")?;
        self.states(states)
    }

    // Appends states, each behind the one before.
    #[cycle(process)]
    #[tactic(auto, using(crate::proofs::ProcessWords::process_list))]
    fn states(&mut self, states: &[StateTree]) -> Result<(), OutOfMemory>
        ensures { IfOk result (λ _. self.new.text.items ≡ self.old.text.items ++ spaced (states_words (states_of states.now))) }
    {
        for state in states {
            self.state(state)?;
        }
        Ok(())
    }

    // Appends a state.
    #[cycle(process)]
    #[tactic(auto, using(crate::proofs::ProcessWords::process_list))]
    fn state(&mut self, state: &StateTree) -> Result<(), OutOfMemory>
        ensures { IfOk result (λ _. self.new.text.items ≡ self.old.text.items ++ spaced (state_words (state_of state.now))) }
    {
        self.word(b"state")?;
        self.name(&state.name)?;
        self.body(state)?;
        self.reactions(state)
    }

    // Appends the body of a state, if it has one.
    #[cycle(process)]
    #[tactic(auto, using(crate::proofs::ProcessWords::process_list))]
    fn body(&mut self, state: &StateTree) -> Result<(), OutOfMemory>
        ensures { IfOk result (λ _. self.new.text.items ≡ self.old.text.items ++ spaced (body_words (state_of state.now).body)) }
    {
        let Some(block) = &state.body else {
            return Ok(());
        };
        self.word(b"body")?;
        Ok(self.block(block)?)
    }

    // Appends the transitions and the timeout of a state, in braces.
    #[tactic(auto, using(crate::proofs::Spaced::words))]
    fn reactions(&mut self, state: &StateTree) -> Result<(), OutOfMemory>
        ensures { IfOk result (λ _. self.new.text.items ≡ self.old.text.items ++ spaced (reaction_words (state_of state.now).head)) }
    {
        self.word(b"{")?;
        self.transitions(&state.trans)?;
        self.timeout(&state.timed)?;
        self.word(b"}")
    }
}
