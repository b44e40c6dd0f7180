//! The looking up of names, once for each component.
ghost use Rattle.std.specs.Prelude.{◌≡◌, [], map, IfOk};
ghost use Rattle.argos_grammar.specs.Forms.{automaton, local, freeze, run};
ghost use Rattle.argos_grammar.specs.Views as tree;
ghost use Rattle.argos_grammar.specs.Views.{mark_of, marks_of, process_of, block_of, states_of, component_of};
ghost use Rattle.argos_expansion.specs.inner.FirstPlaces.{first_place};
ghost use Rattle.argos_expansion.specs.inner.Placers.{known_names, body_shape};
ghost use Rattle.argos_expansion.specs.inner.Placing.{placed_process, placed_block, placed_states, placed_state, placed_body, placed_component, placed_components, placed_main, signal_count};
ghost use Rattle.argos_expansion.specs.inner.Shapes.{process_shape, block_shape, states_shape, state_shape, component_shape};

use crate::first_names::FirstNames;
use crate::placed::{PlacedComponent, PlacedProcess, PlacedState};
use crate::places::{declare_all, declare_backwards, leave_all, next, place, places};
use crate::rules::{codes_in, timeout, transitions};
use crate::scope::Scope;
use crate::state_names::{state_names, state_number};
use argos_base::{Name, OutOfMemory};
use argos_grammar::{ComponentTree, ProcessTree, Spot, StateTree};
use std::alloc::Global;

// Looks up the names of the component at a place, among the names of all components.
#[derive(Debug, Drop)]
struct Placer<'a> {
    alloc: Global,
    names: &'a FirstNames,
    place: usize,
}

impl Placer<'_> {
    // A block, where `count` is the next place.
    #[cycle(process)]
    #[tactic(auto, using(crate::proofs::PlacedLists::placed_lists))]
    fn block(
        &self,
        scope: &mut Scope,
        count: u32,
        forms: &[ProcessTree],
    ) -> Result<Vec<PlacedProcess>, OutOfMemory>
        ensures scope { IfOk result (λ _. scope.new ≡ scope.old) }
        ensures placed { IfOk result (λ ps. block_shape ps.items ≡ placed_block (known_names self.now) scope.old count (block_of forms.now)) }
    {
        let mut parts = Vec::new(self.alloc);
        for form in forms {
            parts.push(self.process(scope, count, form)?)?;
        }
        Ok(parts)
    }

    // A process.
    #[cycle(process)]
    #[tactic(auto, using(crate::proofs::PlacedLists::placed_lists))]
    fn process(
        &self,
        scope: &mut Scope,
        count: u32,
        form: &ProcessTree,
    ) -> Result<PlacedProcess, OutOfMemory>
        ensures scope { IfOk result (λ _. scope.new ≡ scope.old) }
        ensures placed { IfOk result (λ p. process_shape p ≡ placed_process (known_names self.now) scope.old count (process_of form.now)) }
    {
        match form {
            ProcessTree::Automaton { init, states } => {
                Ok(self.automaton(scope, count, init, states)?)
            }
            ProcessTree::Local(names, block) => Ok(self.local(scope, count, names, block)?),
            ProcessTree::Freeze(signal, block) => Ok(self.freeze(scope, count, signal, block)?),
            ProcessTree::Run {
                component,
                inputs,
                outputs,
            } => Ok(self.run(scope, component, inputs, outputs)?),
        }
    }

    // An automaton.
    #[cycle(process)]
    #[tactic(auto, using(crate::proofs::PlacedLists::placed_lists))]
    fn automaton(
        &self,
        scope: &mut Scope,
        count: u32,
        init: &Spot,
        forms: &[StateTree],
    ) -> Result<PlacedProcess, OutOfMemory>
        ensures scope { IfOk result (λ _. scope.new ≡ scope.old) }
        ensures placed { IfOk result (λ p. process_shape p ≡ placed_process (known_names self.now) scope.old count (automaton (mark_of init.now) (states_of forms.now))) }
    {
        let names = state_names(self.alloc, forms)?;
        let codes = codes_in(forms)?;
        let init = state_number(&names, init);
        let states = self.states(scope, count, &names, forms)?;
        Ok(PlacedProcess::Automaton {
            init,
            codes,
            states,
        })
    }

    // States, among these names of states.
    #[cycle(process)]
    #[tactic(auto, using(crate::proofs::PlacedLists::placed_lists))]
    fn states(
        &self,
        scope: &mut Scope,
        count: u32,
        names: &FirstNames,
        forms: &[StateTree],
    ) -> Result<Vec<PlacedState>, OutOfMemory>
        ensures scope { IfOk result (λ _. scope.new ≡ scope.old) }
        ensures placed { IfOk result (λ ss. states_shape ss.items ≡ placed_states (known_names self.now) scope.old count names.now.names.items (states_of forms.now)) }
    {
        let mut states = Vec::new(self.alloc);
        for form in forms {
            states.push(self.state(scope, count, names, form)?)?;
        }
        Ok(states)
    }

    // A state, among these names of states.
    #[cycle(process)]
    #[tactic(auto, using(crate::proofs::PlacedLists::placed_lists))]
    fn state(
        &self,
        scope: &mut Scope,
        count: u32,
        names: &FirstNames,
        form: &StateTree,
    ) -> Result<PlacedState, OutOfMemory>
        ensures scope { IfOk result (λ _. scope.new ≡ scope.old) }
        ensures placed { IfOk result (λ s. state_shape s ≡ placed_state (known_names self.now) scope.old count names.now.names.items (tree.state_of form.now)) }
    {
        let body = self.body(scope, count, form)?;
        let trans = transitions(self.alloc, scope, names, &form.trans)?;
        let timed = timeout(self.alloc, scope, names, &form.timed)?;
        Ok(PlacedState {
            name: form.name.name,
            trans,
            timed,
            body,
        })
    }

    // The body of a state, if it has one.
    #[cycle(process)]
    #[tactic(auto, using(crate::proofs::PlacedLists::placed_lists))]
    fn body(
        &self,
        scope: &mut Scope,
        count: u32,
        form: &StateTree,
    ) -> Result<Option<Vec<PlacedProcess>>, OutOfMemory>
        ensures scope { IfOk result (λ _. scope.new ≡ scope.old) }
        ensures placed { IfOk result (λ b. body_shape b ≡ placed_body (known_names self.now) scope.old count (tree.state_of form.now).body) }
    {
        match &form.body {
            None => Ok(None),
            Some(forms) => {
                let block = self.block(scope, count, forms)?;
                Ok(Some(block))
            }
        }
    }

    // A block with local signals, which get the next places.
    #[cycle(process)]
    #[tactic(auto, using(crate::proofs::PlacedLists::placed_lists))]
    fn local(
        &self,
        scope: &mut Scope,
        count: u32,
        names: &[Spot],
        forms: &[ProcessTree],
    ) -> Result<PlacedProcess, OutOfMemory>
        ensures scope { IfOk result (λ _. scope.new ≡ scope.old) }
        ensures placed { IfOk result (λ p. process_shape p ≡ placed_process (known_names self.now) scope.old count (local (marks_of names.now) (block_of forms.now))) }
    {
        let inner = next(count, names.len())?;
        declare_all(scope, names, count)?;
        let block = self.block(scope, inner, forms)?;
        leave_all(scope, names)?;
        let mut spots = Vec::new(self.alloc);
        spots.extend_from_slice(names)?;
        Ok(PlacedProcess::Local(spots, block))
    }

    // A block that a signal freezes.
    #[cycle(process)]
    #[tactic(auto, using(crate::proofs::PlacedLists::placed_lists))]
    fn freeze(
        &self,
        scope: &mut Scope,
        count: u32,
        signal: &Spot,
        forms: &[ProcessTree],
    ) -> Result<PlacedProcess, OutOfMemory>
        ensures scope { IfOk result (λ _. scope.new ≡ scope.old) }
        ensures placed { IfOk result (λ p. process_shape p ≡ placed_process (known_names self.now) scope.old count (freeze (mark_of signal.now) (block_of forms.now))) }
    {
        let signal = place(scope, signal);
        let block = self.block(scope, count, forms)?;
        Ok(PlacedProcess::Freeze(signal, block))
    }

    // A component that is run.
    #[tactic(auto, using(crate::proofs::PlacedLists::placed_lists))]
    fn run(
        &self,
        scope: &Scope,
        component: &Spot,
        inputs: &[Spot],
        outputs: &[Spot],
    ) -> Result<PlacedProcess, OutOfMemory>
        ensures { IfOk result (λ p. process_shape p ≡ placed_process (known_names self.now) scope.now 0 (run (mark_of component.now) (marks_of inputs.now) (marks_of outputs.now))) }
    {
        let first = self.first(&component.name);
        let signals = places(self.alloc, scope, inputs, outputs)?;
        Ok(PlacedProcess::Run(first, signals))
    }

    // The place of the first component with the name, if it stands before.
    #[tactic(auto, using(crate::proofs::PlacedLists::placed_lists))]
    fn first(&self, name: &Name) -> Option<usize>
        ensures { result ≡ first_place name.now (known_names self.now) }
    {
        let first = self.names.first(name)?;
        if first < self.place {
            Some(first)
        } else {
            None
        }
    }

    // A component that is run.
    #[tactic(auto, using(crate::proofs::PlacedLists::placed_lists))]
    fn component(&self, component: &ComponentTree) -> Result<PlacedComponent, OutOfMemory>
        ensures { IfOk result (λ p. component_shape p ≡ placed_component (known_names self.now) (component_of component.now)) }
    {
        let outputs = next(1, component.inputs.len())?;
        let count = next(outputs, component.outputs.len())?;
        let mut scope = Scope::new(self.alloc);
        declare_backwards(&mut scope, &component.outputs, outputs)?;
        declare_backwards(&mut scope, &component.inputs, 1)?;
        let block = self.block(&mut scope, count, &component.block)?;
        Ok(PlacedComponent {
            signals: count as usize - 1,
            block,
        })
    }

    // The block of the main component.
    #[tactic(auto, using(crate::proofs::PlacedLists::placed_lists))]
    fn main(&self, component: &ComponentTree) -> Result<Vec<PlacedProcess>, OutOfMemory>
        ensures { IfOk result (λ ps. block_shape ps.items ≡ placed_main (known_names self.now) (component_of component.now)) }
    {
        let outputs = next(1, component.inputs.len())?;
        let count = next(outputs, component.outputs.len())?;
        let mut scope = Scope::new(self.alloc);
        declare_all(&mut scope, &component.inputs, 1)?;
        declare_all(&mut scope, &component.outputs, outputs)?;
        Ok(self.block(&mut scope, count, &component.block)?)
    }
}

// The names of the components.
#[tactic(auto, using(crate::proofs::PlacedLists::placed_lists))]
fn component_names(alloc: Global, components: &[ComponentTree]) -> Result<FirstNames, OutOfMemory>
    ensures { IfOk result (λ n. n.names.items ≡ map (λ c. c.name.name) (map component_of components.now)) }
{
    let mut names = Vec::new(alloc);
    for component in components {
        names.push(component.name.name)?;
    }
    Ok(FirstNames::new(alloc, names)?)
}

// The components, each of which may run those before it. These are their names.
#[tactic(auto, using(crate::proofs::PlacedLists::placed_lists))]
fn components(
    alloc: Global,
    names: &FirstNames,
    components: &[ComponentTree],
) -> Result<Vec<PlacedComponent>, OutOfMemory>
    requires { names.now.names.items ≡ map (λ c. c.name.name) (map component_of components.now) }
    ensures { IfOk result (λ ps. map component_shape ps.items ≡ placed_components [] (map component_of components.now)) }
{
    let mut placed = Vec::new(alloc);
    for (place, component) in components.iter().enumerate() {
        let placer = Placer {
            alloc,
            names,
            place,
        };
        placed.push(placer.component(component)?)?;
    }
    Ok(placed)
}

/// The components before the main one, and the block of the main one.
#[derive(Debug, Drop)]
pub struct Placement {
    pub components: Vec<PlacedComponent>,
    pub block: Vec<PlacedProcess>,
}

/// Looks up the names of the main component and of those before.
#[tactic(auto, using(crate::proofs::PlacedLists::placed_lists))]
pub fn placed(
    alloc: Global,
    earlier: &[ComponentTree],
    main: &ComponentTree,
) -> Result<Placement, OutOfMemory>
    ensures components { IfOk result (λ p. map component_shape p.components.items ≡ placed_components [] (map component_of earlier.now)) }
    ensures block { IfOk result (λ p. block_shape p.block.items ≡ placed_main (map (λ c. c.name.name) (map component_of earlier.now)) (component_of main.now)) }
{
    let names = component_names(alloc, earlier)?;
    let components = components(alloc, &names, earlier)?;
    let placer = Placer {
        alloc,
        names: &names,
        place: earlier.len(),
    };
    let block = placer.main(main)?;
    Ok(Placement { components, block })
}
