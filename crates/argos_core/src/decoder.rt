//! Configurations from their codes.
ghost use Rattle.std.specs.Prelude.{◌≡◌, ◌<◌, ◌≤◌, [], ◌∷◌, suc, Some, None, IfOk, MatchOption, if◌then◌else◌, length, map, option_map};
ghost use Rattle.argos_core.specs.Automata.{register_count, registers_of, registers_in, registers_within, rules_of};
ghost use Rattle.argos_core.specs.Codes.{IsStructural, code_of};
ghost use Rattle.argos_core.specs.Configurations.{IsConfiguration};
ghost use Rattle.argos_core.specs.Modules.{IsShaped, AreShapedParts, AreShapedStates, IsShapedBody};
ghost use Rattle.argos_core.specs.Process.{automaton, parallel, body};
ghost use Rattle.argos_core.specs.inner.Reading.{read, read_parts, read_at, read_within, skipped, place_in, place_of, with_rest};
ghost use Rattle.argos_core.specs.Views.{process_of, state_of, processes_of, states_of, configuration_of, configurations_of, inner_of};

use crate::codes::counts_of;
use crate::prog::{Config, Prog, State};
use argos_base::OutOfMemory;
use std::alloc::Global;

/// The configuration that has this memory as its code, if there is one.
pub fn decode(alloc: Global, prog: &Prog, memory: &[u16]) -> Result<Option<Config>, OutOfMemory>
    requires { IsShaped (process_of prog.now) }
    ensures { IfOk result (λ found. MatchOption found (IsStructural (process_of prog.now) memory.now → ⊥) (λ c. IsConfiguration (process_of prog.now) (configuration_of c) × (code_of (process_of prog.now) (configuration_of c) ≡ memory.now))) }
{
    let mut decoder = Decoder {
        alloc,
        rest: memory,
    };
    let found = decoder.process(prog)?;
    if decoder.rest.is_empty() {
        Ok(found)
    } else {
        Ok(None)
    }
}

// The codes that are still ahead.
#[derive(Debug, Drop)]
struct Decoder<'m> {
    alloc: Global,
    rest: &'m [u16],
}

impl Decoder<'_> {
    // The next code.
    fn next(&mut self) -> Option<u16>
        ensures { MatchOption result (self.old.rest.now ≡ []) (λ code. self.old.rest.now ≡ code ∷ self.new.rest.now) }
    {
        let (first, others) = self.rest.split_first()?;
        self.rest = others;
        Some(*first)
    }

    // The configuration of a process whose codes are ahead.
    #[cycle(decode)]
    #[tactic(auto, using(crate::proofs::ReadLists::read_lists))]
    fn process(&mut self, prog: &Prog) -> Result<Option<Config>, OutOfMemory>
        requires { IsShaped (process_of prog.now) }
        ensures { IfOk result (λ found. read (process_of prog.now) self.old.rest.now ≡ with_rest self.new.rest.now (option_map configuration_of found)) }
    {
        match prog {
            Prog::Auto(auto) => Ok(self.automaton(&auto.states, auto.init)?),
            Prog::Par(parts) => Ok(self.parallel(parts)?),
            Prog::Local(_, inside) | Prog::Freeze(_, inside) => Ok(self.process(inside)?),
        }
    }

    #[cycle(decode)]
    #[tactic(auto, using(crate::proofs::ReadLists::read_lists))]
    fn parallel(&mut self, parts: &[Prog]) -> Result<Option<Config>, OutOfMemory>
        requires { AreShapedParts (processes_of (map process_of parts.now)) }
        ensures { IfOk result (λ found. read (parallel (processes_of (map process_of parts.now))) self.old.rest.now ≡ with_rest self.new.rest.now (option_map configuration_of found)) }
    {
        match self.parts(parts)? {
            Some(configs) => Ok(Some(Config::Beside(configs))),
            None => Ok(None),
        }
    }

    #[cycle(decode)]
    #[tactic(auto, using(crate::proofs::ReadLists::read_lists))]
    fn parts(&mut self, parts: &[Prog]) -> Result<Option<Vec<Config>>, OutOfMemory>
        requires { AreShapedParts (processes_of (map process_of parts.now)) }
        ensures { IfOk result (λ found. read_parts (processes_of (map process_of parts.now)) self.old.rest.now ≡ with_rest self.new.rest.now (option_map (λ cs. configurations_of (map configuration_of cs.items)) found)) }
    {
        let mut configs = Vec::new(self.alloc);
        for part in parts {
            let Some(config) = self.process(part)? else {
                return Ok(None);
            };
            configs.push(config)?;
        }
        Ok(Some(configs))
    }

    // An automaton with these states.
    #[cycle(decode)]
    #[tactic(auto, using(crate::proofs::ReadLists::read_lists))]
    fn automaton(&mut self, states: &[State], init: u16) -> Result<Option<Config>, OutOfMemory>
        requires { IsShaped (automaton (states_of (map state_of states.now)) init) }
        ensures { IfOk result (λ found. read (automaton (states_of (map state_of states.now)) init) self.old.rest.now ≡ with_rest self.new.rest.now (option_map configuration_of found)) }
    {
        let Some(code) = self.next() else {
            return Ok(None);
        };
        match place(states, code) {
            Some((current, elapsed)) => Ok(self.state(states, current, elapsed)?),
            None => Ok(None),
        }
    }

    // The configuration in which this state is current, where so many instants were counted.
    #[cycle(decode)]
    #[tactic(auto, using(crate::proofs::ReadLists::read_lists))]
    fn state(
        &mut self,
        states: &[State],
        current: u16,
        elapsed: u16,
    ) -> Result<Option<Config>, OutOfMemory>
        requires exists { current < length states.now }
        requires shaped { AreShapedStates (length (rules_of (states_of (map state_of states.now)))) (states_of (map state_of states.now)) }
        ensures { IfOk result (λ found. read_at (states_of (map state_of states.now)) current elapsed self.old.rest.now ≡ with_rest self.new.rest.now (option_map configuration_of found)) }
    {
        let number = current as usize;
        if !self.states_off(&states[..number]) {
            return Ok(None);
        }
        let Some(body) = self.body(&states[number])? else {
            return Ok(None);
        };
        if !self.states_off(&states[number + 1..]) {
            return Ok(None);
        }
        Ok(Some(Config::At {
            state: current,
            elapsed,
            body,
        }))
    }

    // What stands inside a state.
    #[cycle(decode)]
    #[tactic(auto, using(crate::proofs::ReadLists::read_lists))]
    fn body(&mut self, state: &State) -> Result<Option<Option<Box<Config>>>, OutOfMemory>
        requires { IsShapedBody (state_of state.now).body }
        ensures { IfOk result (λ found. read_within (state_of state.now).body self.old.rest.now ≡ with_rest self.new.rest.now (option_map inner_of found)) }
    {
        match &state.body {
            Some(inside) => Ok(self.inside(inside)?),
            None => Ok(Some(None)),
        }
    }

    #[cycle(decode)]
    #[tactic(auto, using(crate::proofs::ReadLists::read_lists))]
    fn inside(&mut self, prog: &Prog) -> Result<Option<Option<Box<Config>>>, OutOfMemory>
        requires { IsShaped (process_of prog.now) }
        ensures { IfOk result (λ found. read_within (body (process_of prog.now)) self.old.rest.now ≡ with_rest self.new.rest.now (option_map inner_of found)) }
    {
        match self.process(prog)? {
            Some(config) => Ok(Some(Some(Box::new(self.alloc, config)?))),
            None => Ok(None),
        }
    }

    // Takes the zeros of a process that is off, if they are ahead.
    #[cycle(off)]
    #[tactic(auto, using(crate::proofs::ReadLists::read_lists))]
    fn process_off(&mut self, prog: &Prog) -> bool
        ensures { skipped (register_count (process_of prog.now)) self.old.rest.now ≡ (if result then Some self.new.rest.now else None) }
    {
        match prog {
            Prog::Auto(auto) => self.automaton_off(&auto.states),
            Prog::Par(parts) => self.parts_off(parts),
            Prog::Local(_, inside) | Prog::Freeze(_, inside) => self.process_off(inside),
        }
    }

    #[cycle(off)]
    #[tactic(auto, using(crate::proofs::ReadLists::read_lists))]
    fn automaton_off(&mut self, states: &[State]) -> bool
        ensures { skipped (suc (registers_in (states_of (map state_of states.now)))) self.old.rest.now ≡ (if result then Some self.new.rest.now else None) }
    {
        match self.next() {
            Some(0) => self.states_off(states),
            _ => false,
        }
    }

    #[cycle(off)]
    #[tactic(auto, using(crate::proofs::ReadLists::read_lists))]
    fn parts_off(&mut self, parts: &[Prog]) -> bool
        ensures { skipped (registers_of (processes_of (map process_of parts.now))) self.old.rest.now ≡ (if result then Some self.new.rest.now else None) }
    {
        for part in parts {
            if !self.process_off(part) {
                return false;
            }
        }
        true
    }

    #[cycle(off)]
    #[tactic(auto, using(crate::proofs::ReadLists::read_lists))]
    fn states_off(&mut self, states: &[State]) -> bool
        ensures { skipped (registers_in (states_of (map state_of states.now))) self.old.rest.now ≡ (if result then Some self.new.rest.now else None) }
    {
        for state in states {
            if !self.body_off(state) {
                return false;
            }
        }
        true
    }

    #[cycle(off)]
    #[tactic(auto, using(crate::proofs::ReadLists::read_lists))]
    fn body_off(&mut self, state: &State) -> bool
        ensures { skipped (registers_within (state_of state.now).body) self.old.rest.now ≡ (if result then Some self.new.rest.now else None) }
    {
        match &state.body {
            Some(inside) => self.process_off(inside),
            None => true,
        }
    }
}

// The state that has the code, and its elapsed count.
#[tactic(auto, using(crate::proofs::ReadLists::read_lists))]
fn place(states: &[State], code: u16) -> Option<(u16, u16)>
    requires { AreShapedStates (length (rules_of (states_of (map state_of states.now)))) (states_of (map state_of states.now)) }
    ensures place { option_map place_of result ≡ place_in (states_of (map state_of states.now)) code }
    ensures exists { MatchOption result (Unit {0}) (λ z. z.0 < length states.now) }
{
    if code == 0 {
        return None;
    }
    let mut before = code - 1;
    let mut number = 0;
    for state in states {
        let counts = counts_of(state);
        if before < counts {
            return Some((number, before));
        }
        before -= counts;
        number += 1;
    }
    None
}
