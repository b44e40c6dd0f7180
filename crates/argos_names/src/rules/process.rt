//! The rules in processes.
ghost use Rattle.std.specs.Prelude.{◌≡◌, [], ◌++◌, None, IfOk, bytes_eq};
ghost use Rattle.indexmap.specs.IndexSet.{insert_all};
ghost use Rattle.argos_grammar.specs.Forms.{automaton, local, run};
ghost use Rattle.argos_grammar.specs.Views.{mark_of, marks_of, process_of, block_of, states_of, state_of};
ghost use Rattle.argos_names.specs.Scope.{in_process, in_block, in_states, in_body, in_head, state_names, run_as, named};
ghost use Rattle.argos_names.specs.inner.Least.{least_after};
ghost use Rattle.argos_names.specs.inner.AroundViews.{around_of};

use crate::errors::NameRule;
use crate::least::Least;
use crate::rules::around::Around;
use crate::rules::signals::{
    declare_all, emit_all, leave_all, read, read_all, timeout, transitions,
};
use crate::scope::{Scope, Sort};
use argos_base::{Name, OutOfMemory};
use argos_grammar::{ProcessTree, Spot, StateTree};
use indexmap::IndexSet;
use std::alloc::Global;

impl Around<'_> {
    /// A block.
    #[cycle(process)]
    #[tactic(auto, using(crate::proofs::Processes::processes))]
    pub fn block(
        &self,
        scope: &mut Scope,
        least: &mut Least,
        block: &[ProcessTree],
    ) -> Result<(), OutOfMemory>
        ensures scope { IfOk result (λ _. scope.new ≡ scope.old) }
        ensures least { IfOk result (λ _. least.new ≡ least_after least.old (in_block (around_of self.now) scope.old (block_of block.now))) }
    {
        for process in block {
            self.process(scope, least, process)?;
        }
        Ok(())
    }

    // A process.
    #[cycle(process)]
    #[tactic(auto, using(crate::proofs::Processes::processes))]
    fn process(
        &self,
        scope: &mut Scope,
        least: &mut Least,
        process: &ProcessTree,
    ) -> Result<(), OutOfMemory>
        ensures scope { IfOk result (λ _. scope.new ≡ scope.old) }
        ensures least { IfOk result (λ _. least.new ≡ least_after least.old (in_process (around_of self.now) scope.old (process_of process.now))) }
    {
        match process {
            ProcessTree::Automaton { init, states } => Ok(self.automaton(
                scope, least, init, states,
            )?),
            ProcessTree::Local(names, block) => Ok(self.local(scope, least, names, block)?),
            ProcessTree::Freeze(signal, block) => {
                read(scope, least, signal);
                Ok(self.block(scope, least, block)?)
            }
            ProcessTree::Run {
                component,
                inputs,
                outputs,
            } => {
                self.run(scope, least, component, inputs, outputs);
                Ok(())
            }
        }
    }

    // A block with names of its own.
    #[cycle(process)]
    #[tactic(auto, using(crate::proofs::Processes::processes))]
    fn local(
        &self,
        scope: &mut Scope,
        least: &mut Least,
        names: &[Spot],
        block: &[ProcessTree],
    ) -> Result<(), OutOfMemory>
        ensures scope { IfOk result (λ _. scope.new ≡ scope.old) }
        ensures least { IfOk result (λ _. least.new ≡ least_after least.old (in_process (around_of self.now) scope.old (local (marks_of names.now) (block_of block.now)))) }
    {
        declare_all(scope, least, Sort::Inner, names)?;
        self.block(scope, least, block)?;
        leave_all(scope, names)
    }

    // An automaton.
    #[cycle(process)]
    #[tactic(auto, using(crate::proofs::Processes::processes))]
    fn automaton(
        &self,
        scope: &mut Scope,
        least: &mut Least,
        init: &Spot,
        states: &[StateTree],
    ) -> Result<(), OutOfMemory>
        ensures scope { IfOk result (λ _. scope.new ≡ scope.old) }
        ensures least { IfOk result (λ _. least.new ≡ least_after least.old (in_process (around_of self.now) scope.old (automaton (mark_of init.now) (states_of states.now)))) }
    {
        let names = names_of(self.alloc, states)?;
        least.broken_unless(names.contains(&init.name), NameRule::NoInitial, init);
        Ok(self.states(scope, least, &names, states)?)
    }

    // States, among these names of states.
    #[cycle(process)]
    #[tactic(auto, using(crate::proofs::Processes::processes))]
    fn states(
        &self,
        scope: &mut Scope,
        least: &mut Least,
        names: &IndexSet<Name>,
        states: &[StateTree],
    ) -> Result<(), OutOfMemory>
        ensures scope { IfOk result (λ _. scope.new ≡ scope.old) }
        ensures least { IfOk result (λ _. least.new ≡ least_after least.old (in_states (around_of self.now) scope.old names.now.keys [] (states_of states.now))) }
    {
        let mut seen = IndexSet::new(self.alloc);
        for state in states {
            let name = name_of(state);
            let fresh = seen.insert(name.name)?;
            least.broken_unless(fresh, NameRule::Duplicate, &name);
            self.state(scope, least, names, state)?;
        }
        Ok(())
    }

    // A state without its name, among these names of states.
    #[cycle(process)]
    #[tactic(auto, using(crate::proofs::Processes::processes))]
    fn state(
        &self,
        scope: &mut Scope,
        least: &mut Least,
        names: &IndexSet<Name>,
        state: &StateTree,
    ) -> Result<(), OutOfMemory>
        ensures scope { IfOk result (λ _. scope.new ≡ scope.old) }
        ensures least { IfOk result (λ _. least.new ≡ least_after least.old
            (in_body (around_of self.now) scope.old (state_of state.now).body ++ in_head scope.old names.now.keys (state_of state.now).head)) }
    {
        self.body(scope, least, state)?;
        reactions(scope, least, names, state);
        Ok(())
    }

    // The body of a state, if it has one.
    #[cycle(process)]
    #[tactic(auto, using(crate::proofs::Processes::processes))]
    fn body(
        &self,
        scope: &mut Scope,
        least: &mut Least,
        state: &StateTree,
    ) -> Result<(), OutOfMemory>
        ensures scope { IfOk result (λ _. scope.new ≡ scope.old) }
        ensures least { IfOk result (λ _. least.new ≡ least_after least.old (in_body (around_of self.now) scope.old (state_of state.now).body)) }
    {
        let Some(block) = &state.body else {
            return Ok(());
        };
        Ok(self.block(scope, least, block)?)
    }

    // A component that is run.
    #[tactic(auto, using(crate::proofs::Processes::processes))]
    fn run(
        &self,
        scope: &Scope,
        least: &mut Least,
        component: &Spot,
        inputs: &[Spot],
        outputs: &[Spot],
    )
        ensures { least.new ≡ least_after least.old (in_process (around_of self.now) scope.now (run (mark_of component.now) (marks_of inputs.now) (marks_of outputs.now))) }
    {
        self.run_component(least, component, inputs.len(), outputs.len());
        read_all(scope, least, inputs);
        emit_all(scope, least, outputs);
    }

    // A component that is run with so many inputs and outputs.
    #[tactic(auto, using(crate::proofs::Processes::processes))]
    fn run_component(&self, least: &mut Least, component: &Spot, inputs: usize, outputs: usize)
        ensures { least.new ≡ least_after least.old
            (run_as (named component.now.name (around_of self.now).earlier) (around_of self.now).names (mark_of component.now) inputs outputs) }
    {
        match self.named(&component.name) {
            Some(found) => {
                let fits = found.inputs.len() == inputs && found.outputs.len() == outputs;
                least.broken_unless(fits, NameRule::Arity, component);
            }
            None => self.run_unknown(least, component),
        }
    }

    // A component that is run and isn't among those before.
    fn run_unknown(&self, least: &mut Least, component: &Spot)
        ensures { least.new ≡ least_after least.old (run_as None (around_of self.now).names (mark_of component.now) 0 0) }
    {
        if self.is_component(&component.name) {
            least.broken(NameRule::NotEarlier, component);
        } else {
            least.broken(NameRule::Unknown, component);
        }
    }
}

// The transitions and the timeout of a state, among these names of states.
#[tactic(auto, using(crate::proofs::Breaches::leasts))]
fn reactions(scope: &Scope, least: &mut Least, names: &IndexSet<Name>, state: &StateTree)
    ensures { least.new ≡ least_after least.old (in_head scope.now names.now.keys (state_of state.now).head) }
{
    transitions(scope, least, names, &state.trans);
    timeout(scope, least, names, &state.timed);
}

fn name_of(state: &StateTree) -> Spot
    ensures { mark_of result ≡ (state_of state.now).head.name }
{
    state.name
}

// The names of states.
#[tactic(auto, using(crate::proofs::Processes::processes))]
fn names_of(alloc: Global, states: &[StateTree]) -> Result<IndexSet<Name>, OutOfMemory>
    ensures { IfOk result (λ names. names.keys ≡ insert_all bytes_eq [] (state_names (states_of states.now))) }
{
    let mut names = IndexSet::new(alloc);
    for state in states {
        names.insert(name_of(state).name)?;
    }
    Ok(names)
}
