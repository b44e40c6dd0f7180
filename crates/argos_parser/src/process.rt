//! Processes and their blocks.
ghost use Rattle.std.specs.Prelude.{◌≡◌, ◌<◌, ◌≤◌, true, codes, IfOk, length, map, option_map, MatchResult, ◌∷◌, []};
ghost use Rattle.argos_base.specs.Limits.{level_limit};
ghost use Rattle.argos_tokens.specs.TokenViews.{tokens_of};
ghost use Rattle.argos_grammar.specs.Views.{mark_of, trans_of, timed_of, process_of, state_of, block_of, states_of, body_of};
ghost use Rattle.argos_grammar.specs.Runs.{begins_with};
ghost use Rattle.argos_parser.specs.inner.Answers.{AnswersAt};
ghost use Rattle.argos_grammar.specs.DueSymbols as due;
ghost use Rattle.argos_grammar.specs.Grammar as grammar;

use crate::parser::{Parser, Stop};
use argos_grammar::{ProcessTree, Spot, StateTree, TimedTree, TransTree};

impl Parser<'_, '_> {
    /// Reads a block, where so much is open.
    #[cycle(process)]
    #[tactic(auto, using(crate::proofs::Processes::processes))]
    pub fn block(&mut self, depth: usize) -> Result<Vec<ProcessTree>, Stop>
        requires { depth ≤ level_limit }
        ensures tree { IfOk result (λ x. grammar.braced (grammar.processes (block_of x.items)) (tokens_of self.old.rest.now) (tokens_of self.new.rest.now)) }
        ensures run { AnswersAt (due.rule due.block ∷ []) depth (tokens_of self.old.rest.now) result (tokens_of self.new.rest.now) }
        ensures shorter { IfOk result (λ _. length self.new.rest.now < length self.old.rest.now) }
    {
        self.open(b"{", depth)?;
        let processes = self.processes(depth + 1)?;
        self.close(b"}")?;
        Ok(processes)
    }

    // Reads processes with `||` between two.
    #[cycle(process)]
    #[tactic(auto, using(crate::proofs::Processes::processes))]
    fn processes(&mut self, depth: usize) -> Result<Vec<ProcessTree>, Stop>
        requires { depth ≤ level_limit }
        ensures tree { IfOk result (λ x. grammar.processes (block_of x.items) (tokens_of self.old.rest.now) (tokens_of self.new.rest.now)) }
        ensures run { AnswersAt (due.rule due.process ∷ due.repeat due.another_process ∷ []) depth (tokens_of self.old.rest.now) result (tokens_of self.new.rest.now) }
        ensures shorter { IfOk result (λ _. length self.new.rest.now < length self.old.rest.now) }
    {
        let mut processes = Vec::new(self.alloc);
        processes.push(self.process(depth)?)?;
        while self.take(b"||") {
            processes.push(self.process(depth)?)?;
        }
        Ok(processes)
    }

    // Reads a process.
    #[cycle(process)]
    #[tactic(auto, using(crate::proofs::Processes::processes))]
    fn process(&mut self, depth: usize) -> Result<ProcessTree, Stop>
        requires { depth ≤ level_limit }
        ensures tree { IfOk result (λ x. grammar.one_process (process_of x) (tokens_of self.old.rest.now) (tokens_of self.new.rest.now)) }
        ensures run { AnswersAt (due.rule due.process ∷ []) depth (tokens_of self.old.rest.now) result (tokens_of self.new.rest.now) }
        ensures shorter { IfOk result (λ _. length self.new.rest.now < length self.old.rest.now) }
    {
        if self.is_at(b"automaton") {
            return Ok(self.automaton(depth)?);
        }
        if self.is_at(b"local") {
            return Ok(self.local(depth)?);
        }
        if self.is_at(b"freeze") {
            return Ok(self.freeze(depth)?);
        }
        Ok(self.run(depth)?)
    }

    // Reads an automaton.
    #[cycle(process)]
    #[tactic(auto, using(crate::proofs::Processes::processes))]
    fn automaton(&mut self, depth: usize) -> Result<ProcessTree, Stop>
        requires depth { depth ≤ level_limit }
        requires at { begins_with (codes "automaton") (tokens_of self.old.rest.now) ≡ true }
        ensures tree { IfOk result (λ x. grammar.one_process (process_of x) (tokens_of self.old.rest.now) (tokens_of self.new.rest.now)) }
        ensures run { AnswersAt (due.rule due.process ∷ []) depth (tokens_of self.old.rest.now) result (tokens_of self.new.rest.now) }
        ensures shorter { IfOk result (λ _. length self.new.rest.now < length self.old.rest.now) }
    {
        self.expect(b"automaton")?;
        self.open(b"{", depth)?;
        let (init, states) = self.inside(depth + 1)?;
        self.close(b"}")?;
        Ok(ProcessTree::Automaton { init, states })
    }

    // Reads what stands inside an automaton.
    #[cycle(process)]
    #[tactic(auto, using(crate::proofs::Processes::processes))]
    fn inside(&mut self, depth: usize) -> Result<(Spot, Vec<StateTree>), Stop>
        requires { depth ≤ level_limit }
        ensures tree { IfOk result (λ x. grammar.inside (mark_of x.0) (grammar.states (states_of x.1.items)) (tokens_of self.old.rest.now) (tokens_of self.new.rest.now)) }
        ensures run { AnswersAt (due.w "init" ∷ due.name ∷ due.w ";" ∷ due.rule due.state ∷ due.repeat due.state ∷ []) depth (tokens_of self.old.rest.now) result (tokens_of self.new.rest.now) }
        ensures shorter { IfOk result (λ _. length self.new.rest.now < length self.old.rest.now) }
    {
        self.expect(b"init")?;
        let init = self.name()?;
        self.expect(b";")?;
        let states = self.states(depth)?;
        Ok((init, states))
    }

    // Reads states.
    #[cycle(process)]
    #[tactic(auto, using(crate::proofs::Processes::processes))]
    fn states(&mut self, depth: usize) -> Result<Vec<StateTree>, Stop>
        requires { depth ≤ level_limit }
        ensures tree { IfOk result (λ x. grammar.states (states_of x.items) (tokens_of self.old.rest.now) (tokens_of self.new.rest.now)) }
        ensures run { AnswersAt (due.rule due.state ∷ due.repeat due.state ∷ []) depth (tokens_of self.old.rest.now) result (tokens_of self.new.rest.now) }
        ensures shorter { IfOk result (λ _. length self.new.rest.now < length self.old.rest.now) }
    {
        let mut states = Vec::new(self.alloc);
        states.push(self.state(depth)?)?;
        while self.is_at(b"state") {
            states.push(self.state(depth)?)?;
        }
        Ok(states)
    }

    // Reads a state.
    #[cycle(process)]
    #[tactic(auto, using(crate::proofs::Processes::processes))]
    fn state(&mut self, depth: usize) -> Result<StateTree, Stop>
        requires { depth ≤ level_limit }
        ensures tree { IfOk result (λ x. grammar.one_state (state_of x).head (grammar.body (state_of x).body) (tokens_of self.old.rest.now) (tokens_of self.new.rest.now)) }
        ensures run { AnswersAt (due.rule due.state ∷ []) depth (tokens_of self.old.rest.now) result (tokens_of self.new.rest.now) }
        ensures shorter { IfOk result (λ _. length self.new.rest.now < length self.old.rest.now) }
    {
        self.expect(b"state")?;
        let name = self.name()?;
        let body = self.body(depth)?;
        let (trans, timed) = self.reactions(depth)?;
        Ok(StateTree {
            name,
            body,
            trans,
            timed,
        })
    }

    // Reads the body of a state, if it has one.
    #[cycle(process)]
    #[tactic(auto, using(crate::proofs::Processes::processes))]
    fn body(&mut self, depth: usize) -> Result<Option<Vec<ProcessTree>>, Stop>
        requires { depth ≤ level_limit }
        ensures tree { IfOk result (λ x. grammar.body (body_of x) (tokens_of self.old.rest.now) (tokens_of self.new.rest.now)) }
        ensures run { AnswersAt (due.option due.body ∷ []) depth (tokens_of self.old.rest.now) result (tokens_of self.new.rest.now) }
        ensures shorter { IfOk result (λ _. length self.new.rest.now ≤ length self.old.rest.now) }
    {
        if !self.take(b"body") {
            return Ok(None);
        }
        let block = self.block(depth)?;
        Ok(Some(block))
    }

    // Reads a process with local signals.
    #[cycle(process)]
    #[tactic(auto, using(crate::proofs::Processes::processes))]
    fn local(&mut self, depth: usize) -> Result<ProcessTree, Stop>
        requires depth { depth ≤ level_limit }
        requires at { begins_with (codes "local") (tokens_of self.old.rest.now) ≡ true }
        ensures tree { IfOk result (λ x. grammar.one_process (process_of x) (tokens_of self.old.rest.now) (tokens_of self.new.rest.now)) }
        ensures run { AnswersAt (due.rule due.process ∷ []) depth (tokens_of self.old.rest.now) result (tokens_of self.new.rest.now) }
        ensures shorter { IfOk result (λ _. length self.new.rest.now < length self.old.rest.now) }
    {
        self.expect(b"local")?;
        let names = self.names()?;
        self.expect(b"in")?;
        let block = self.block(depth)?;
        Ok(ProcessTree::Local(names, block))
    }

    // Reads a process that a signal freezes.
    #[cycle(process)]
    #[tactic(auto, using(crate::proofs::Processes::processes))]
    fn freeze(&mut self, depth: usize) -> Result<ProcessTree, Stop>
        requires depth { depth ≤ level_limit }
        requires at { begins_with (codes "freeze") (tokens_of self.old.rest.now) ≡ true }
        ensures tree { IfOk result (λ x. grammar.one_process (process_of x) (tokens_of self.old.rest.now) (tokens_of self.new.rest.now)) }
        ensures run { AnswersAt (due.rule due.process ∷ []) depth (tokens_of self.old.rest.now) result (tokens_of self.new.rest.now) }
        ensures shorter { IfOk result (λ _. length self.new.rest.now < length self.old.rest.now) }
    {
        self.expect(b"freeze")?;
        let signal = self.name()?;
        self.expect(b"in")?;
        let block = self.block(depth)?;
        Ok(ProcessTree::Freeze(signal, block))
    }

    // Reads the use of a component.
    #[tactic(auto, using(crate::proofs::Processes::processes))]
    fn run(&mut self, depth: usize) -> Result<ProcessTree, Stop>
        requires { depth ≤ level_limit }
        ensures tree { IfOk result (λ x. grammar.one_process (process_of x) (tokens_of self.old.rest.now) (tokens_of self.new.rest.now)) }
        ensures run { AnswersAt (due.w "run" ∷ due.name ∷ due.listed (due.w "->" ∷ due.listed [])) depth (tokens_of self.old.rest.now) result (tokens_of self.new.rest.now) }
        ensures shorter { IfOk result (λ _. length self.new.rest.now < length self.old.rest.now) }
    {
        self.expect(b"run")?;
        let component = self.name()?;
        let (inputs, outputs) = self.interface(depth)?;
        Ok(ProcessTree::Run {
            component,
            inputs,
            outputs,
        })
    }

    // Reads the transitions and the timeout of a state.
    #[tactic(auto, using(crate::proofs::Processes::processes))]
    fn reactions(&mut self, depth: usize) -> Result<(Vec<TransTree>, Option<TimedTree>), Stop>
        requires { depth ≤ level_limit }
        ensures tree { IfOk result (λ x. grammar.reactions (map trans_of x.0.items) (option_map timed_of x.1) (tokens_of self.old.rest.now) (tokens_of self.new.rest.now)) }
        ensures run { AnswersAt (due.w "{" ∷ due.repeat due.trans ∷ due.option due.timeout ∷ due.w "}" ∷ []) depth (tokens_of self.old.rest.now) result (tokens_of self.new.rest.now) }
        ensures shorter { IfOk result (λ _. length self.new.rest.now < length self.old.rest.now) }
    {
        self.open(b"{", depth)?;
        let trans = self.transitions(depth + 1)?;
        let timed = self.timeout()?;
        self.close(b"}")?;
        Ok((trans, timed))
    }
}
