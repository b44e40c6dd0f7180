//! The expansion of processes of which the names were looked up, where each run stands for the block of its component.
ghost use Rattle.std.specs.Prelude.{◌≡◌, ◌+◌, ◌++◌, ◌<◌, ◌≤◌, map, IfOk, IfSome};
ghost use Rattle.std.specs.List.{range_with_len};
ghost use Rattle.argos_base.specs.Limits.{signal_limit};
ghost use Rattle.argos_core.specs.Views as core;
ghost use Rattle.argos_core.specs.Views.{numbers};
ghost use Rattle.argos_grammar.specs.Views.{marks_of};
ghost use Rattle.argos_expansion.specs.inner.Growing.{moment_of, body_of};
ghost use Rattle.argos_expansion.specs.inner.Growth.{Grows};
ghost use Rattle.argos_expansion.specs.inner.Renaming.{signal_at};
ghost use Rattle.argos_expansion.specs.inner.ShapeGrowth as shapes;
ghost use Rattle.argos_expansion.specs.inner.ShapeGrowth.{process_growth, block_growth, rest_growth, states_growth, state_growth, body_growth, growths_of, place_within};
ghost use Rattle.argos_expansion.specs.inner.Shapes.{automaton, local, freeze, run, process_shape, block_shape, states_shape, state_shape};

use crate::counts::{Counts, Node, sum};
use crate::errors::ExpansionError;
use crate::marks::Marks;
use crate::placed::{PlacedComponent, PlacedProcess, PlacedState};
use crate::renaming::{signal_at, size_in, state_number, timeout, transitions, used_signal};
use argos_base::{Name, OutOfMemory, SigId};
use argos_core::{Auto, Prog, State};
use argos_grammar::Spot;
use std::alloc::Global;

/// What has grown so far: the counts of its nodes, and the names of its local signals.
#[derive(Debug, Drop)]
pub struct Expander {
    pub alloc: Global,
    pub marks: Marks,
    pub counts: Counts,
    pub locals: Vec<Name>,
}

impl Expander {
    /// Expands a block at this depth, with these components earlier and these signals at the places. Where a limit is passed, the
    /// error says the first one.
    #[cycle(process)]
    #[tactic(auto, using(crate::proofs::Growing::growing))]
    pub fn block(
        &mut self,
        earlier: &[PlacedComponent],
        signals: &[SigId],
        depth: u64,
        forms: &[PlacedProcess],
    ) -> Result<Prog, ExpansionError>
        ensures { Grows (block_growth (growths_of earlier.now) (numbers signals.now) depth self.old.counts.signals (block_shape forms.now)) core.process_of (moment_of self.old) result (moment_of self.new) }
    {
        let Some((first, others)) = forms.split_first() else {
            return Ok(Prog::Par(Vec::new(self.alloc)));
        };
        if others.is_empty() {
            return Ok(self.process(earlier, signals, depth, first)?);
        }
        self.counts.visit(Node {
            depth,
            signals: 0,
            automata: 0,
            codes: 0,
            size: 1,
        })?;
        let parts = self.processes(earlier, signals, depth + 1, forms)?;
        Ok(Prog::Par(parts))
    }

    // Expands processes, each by itself.
    #[cycle(process)]
    #[tactic(auto, using(crate::proofs::Growing::growing))]
    fn processes(
        &mut self,
        earlier: &[PlacedComponent],
        signals: &[SigId],
        depth: u64,
        forms: &[PlacedProcess],
    ) -> Result<Vec<Prog>, ExpansionError>
        ensures { Grows (rest_growth (growths_of earlier.now) (numbers signals.now) depth self.old.counts.signals (block_shape forms.now)) (λ parts. core.processes_of (map core.process_of parts.items)) (moment_of self.old) result (moment_of self.new) }
    {
        let mut parts = Vec::new(self.alloc);
        for form in forms {
            parts.push(self.process(earlier, signals, depth, form)?)?;
        }
        Ok(parts)
    }

    // Expands a process.
    #[cycle(process)]
    #[tactic(auto, using(crate::proofs::Growing::growing))]
    fn process(
        &mut self,
        earlier: &[PlacedComponent],
        signals: &[SigId],
        depth: u64,
        form: &PlacedProcess,
    ) -> Result<Prog, ExpansionError>
        ensures { Grows (process_growth (growths_of earlier.now) (numbers signals.now) depth self.old.counts.signals (process_shape form.now)) core.process_of (moment_of self.old) result (moment_of self.new) }
    {
        match form {
            PlacedProcess::Automaton {
                init,
                codes,
                states,
            } => Ok(self.automaton(earlier, signals, depth, *init, *codes, states)?),
            PlacedProcess::Local(names, block) => {
                Ok(self.local(earlier, signals, depth, names, block)?)
            }
            PlacedProcess::Freeze(place, block) => {
                Ok(self.freeze(earlier, signals, depth, *place, block)?)
            }
            PlacedProcess::Run(component, places) => {
                Ok(self.run(earlier, signals, depth, *component, places)?)
            }
        }
    }

    // Expands an automaton.
    #[cycle(process)]
    #[tactic(auto, using(crate::proofs::Growing::growing))]
    fn automaton(
        &mut self,
        earlier: &[PlacedComponent],
        signals: &[SigId],
        depth: u64,
        init: usize,
        codes: u64,
        forms: &[PlacedState],
    ) -> Result<Prog, ExpansionError>
        ensures { Grows (process_growth (growths_of earlier.now) (numbers signals.now) depth self.old.counts.signals (automaton init codes (states_shape forms.now))) core.process_of (moment_of self.old) result (moment_of self.new) }
    {
        let size = sum(1, size_in(self.alloc, &mut self.marks, signals, forms)?)?;
        self.counts.visit(Node {
            depth,
            signals: 0,
            automata: 1,
            codes,
            size,
        })?;
        let states = self.states(earlier, signals, depth + 1, forms)?;
        let init = state_number(init)?;
        Ok(Prog::Auto(Auto { states, init }))
    }

    // Expands states.
    #[cycle(process)]
    #[tactic(auto, using(crate::proofs::Growing::growing))]
    fn states(
        &mut self,
        earlier: &[PlacedComponent],
        signals: &[SigId],
        depth: u64,
        forms: &[PlacedState],
    ) -> Result<Vec<State>, ExpansionError>
        ensures { Grows (states_growth (growths_of earlier.now) (numbers signals.now) depth self.old.counts.signals (states_shape forms.now)) (λ states. core.states_of (map core.state_of states.items)) (moment_of self.old) result (moment_of self.new) }
    {
        let mut states = Vec::new(self.alloc);
        for form in forms {
            states.push(self.state(earlier, signals, depth, form)?)?;
        }
        Ok(states)
    }

    // Expands a state.
    #[cycle(process)]
    #[tactic(auto, using(crate::proofs::Growing::growing))]
    fn state(
        &mut self,
        earlier: &[PlacedComponent],
        signals: &[SigId],
        depth: u64,
        form: &PlacedState,
    ) -> Result<State, ExpansionError>
        ensures { Grows (state_growth (growths_of earlier.now) (numbers signals.now) depth self.old.counts.signals (state_shape form.now)) core.state_of (moment_of self.old) result (moment_of self.new) }
    {
        let body = self.body(earlier, signals, depth, form)?;
        let trans = transitions(self.alloc, &mut self.marks, signals, &form.trans)?;
        let timed = timeout(self.alloc, &mut self.marks, signals, &form.timed)?;
        Ok(State {
            name: form.name,
            trans,
            timed,
            body,
        })
    }

    // Expands the body of a state, if it has one.
    #[cycle(process)]
    #[tactic(auto, using(crate::proofs::Growing::growing))]
    fn body(
        &mut self,
        earlier: &[PlacedComponent],
        signals: &[SigId],
        depth: u64,
        form: &PlacedState,
    ) -> Result<Option<Box<Prog>>, ExpansionError>
        ensures { Grows (body_growth (growths_of earlier.now) (numbers signals.now) depth self.old.counts.signals (state_shape form.now).body) body_of (moment_of self.old) result (moment_of self.new) }
    {
        match &form.body {
            None => Ok(None),
            Some(forms) => {
                let block = self.block(earlier, signals, depth, forms)?;
                let block = Box::new(self.alloc, block)?;
                Ok(Some(block))
            }
        }
    }

    // Expands a process with local signals, which get the next numbers.
    #[cycle(process)]
    #[tactic(auto, using(crate::proofs::Growing::growing))]
    fn local(
        &mut self,
        earlier: &[PlacedComponent],
        signals: &[SigId],
        depth: u64,
        names: &[Spot],
        forms: &[PlacedProcess],
    ) -> Result<Prog, ExpansionError>
        ensures { Grows (process_growth (growths_of earlier.now) (numbers signals.now) depth self.old.counts.signals (local (marks_of names.now) (block_shape forms.now))) core.process_of (moment_of self.old) result (moment_of self.new) }
    {
        let first = self.counts.signals;
        let count = names.len() as u64;
        let size = sum(1, count)?;
        self.counts.visit(Node {
            depth,
            signals: count,
            automata: 0,
            codes: 0,
            size,
        })?;
        add_names(&mut self.locals, names)?;
        let own = signals_from(self.alloc, first as u32, count as u32)?;
        let inner = joined(self.alloc, signals, &own)?;
        let block = self.block(earlier, &inner, depth + 1, forms)?;
        let block = Box::new(self.alloc, block)?;
        Ok(Prog::Local(own, block))
    }

    // Expands a process that a signal freezes.
    #[cycle(process)]
    #[tactic(auto, using(crate::proofs::Growing::growing))]
    fn freeze(
        &mut self,
        earlier: &[PlacedComponent],
        signals: &[SigId],
        depth: u64,
        place: SigId,
        forms: &[PlacedProcess],
    ) -> Result<Prog, ExpansionError>
        ensures { Grows (process_growth (growths_of earlier.now) (numbers signals.now) depth self.old.counts.signals (freeze place.0 (block_shape forms.now))) core.process_of (moment_of self.old) result (moment_of self.new) }
    {
        self.counts.visit(Node {
            depth,
            signals: 0,
            automata: 0,
            codes: 0,
            size: 1,
        })?;
        let signal = signal_at(signals, place);
        let block = self.block(earlier, signals, depth + 1, forms)?;
        let block = Box::new(self.alloc, block)?;
        Ok(Prog::Freeze(signal, block))
    }

    // Expands the block of a component that stands earlier, or nothing where there is none.
    #[cycle(process)]
    #[tactic(auto, using(crate::proofs::Growing::growing))]
    fn run(
        &mut self,
        earlier: &[PlacedComponent],
        signals: &[SigId],
        depth: u64,
        component: Option<usize>,
        places: &[SigId],
    ) -> Result<Prog, ExpansionError>
        ensures { Grows (process_growth (growths_of earlier.now) (numbers signals.now) depth self.old.counts.signals (run component (numbers places.now))) core.process_of (moment_of self.old) result (moment_of self.new) }
    {
        self.counts.visit(Node {
            depth,
            signals: 0,
            automata: 0,
            codes: 0,
            size: 0,
        })?;
        let Some(k) = within(component, earlier.len()) else {
            return Ok(Prog::Par(Vec::new(self.alloc)));
        };
        let found = &earlier[k];
        let inner = placed_signals(self.alloc, found.signals, signals, places)?;
        Ok(self.block(&earlier[..k], &inner, depth + 1, &found.block)?)
    }
}

// The place, if it is among so many.
fn within(place: Option<usize>, count: usize) -> Option<usize>
    ensures place { result ≡ place_within count place }
    ensures below { IfSome result (λ k. k < count) }
{
    match place {
        Some(k) => { if k < count { Some(k) } else { None } }
        None => None,
    }
}

// The signals of a component with so many inputs and outputs that is used with those at these places.
#[tactic(auto, using(crate::proofs::Ranges::ranges))]
fn placed_signals(
    alloc: Global,
    count: usize,
    signals: &[SigId],
    places: &[SigId],
) -> Result<Vec<SigId>, OutOfMemory>
    ensures { IfOk result (λ inner. numbers inner.items ≡ shapes.placed_signals count (map (signal_at (numbers signals.now)) (numbers places.now))) }
{
    let mut inner = Vec::with_capacity(alloc, count)?;
    inner.push(SigId(0))?;
    for k in 0..count {
        inner.push(used_signal(signals, places, k))?;
    }
    Ok(inner)
}

/// The signals one after another.
pub fn joined(alloc: Global, signals: &[SigId], own: &[SigId]) -> Result<Vec<SigId>, OutOfMemory>
    ensures { IfOk result (λ all. numbers all.items ≡ numbers signals.now ++ numbers own.now) }
{
    let mut all = Vec::new(alloc);
    all.extend_from_slice(signals)?;
    all.extend_from_slice(own)?;
    Ok(all)
}

/// Appends these names.
pub fn add_names(names: &mut Vec<Name>, spots: &[Spot]) -> Result<(), OutOfMemory>
    ensures { IfOk result (λ _. names.new.items ≡ names.old.items ++ map (λ m. m.name) (marks_of spots.now)) }
{
    for spot in spots {
        names.push(spot.name)?;
    }
    Ok(())
}

/// So many signals from the first one on.
#[tactic(auto, using(crate::proofs::Ranges::ranges))]
pub fn signals_from(alloc: Global, first: u32, count: u32) -> Result<Vec<SigId>, OutOfMemory>
    requires { first + count ≤ signal_limit }
    ensures { IfOk result (λ signals. numbers signals.items ≡ range_with_len first count) }
{
    let mut signals = Vec::new(alloc);
    for k in 0..count {
        signals.push(SigId(first + k))?;
    }
    Ok(signals)
}
