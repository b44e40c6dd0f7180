// The operations on functions. Each is a choice between two functions by a third. They answer `Budget` only where the arena is
// full and some cofactor of their function isn't held.
ghost use Rattle.std.specs.Prelude.{◌≡◌, ℕ, ◌+◌, ◌^◌, ◌<◌, ◌≤◌, ◌&&◌, ◌||◌, not};
ghost use Rattle.dd_core.specs.Functions.{if_else, both, either, opposite};
ghost use Rattle.dd_core.specs.Diagrams.{node_count};
ghost use Rattle.dd_core.specs.Arenas.{IsArena, Holds, level_of, function_of, Makes};
ghost use Rattle.dd_core.specs.Operations.{IsHeld, first_level};
ghost use Rattle.dd_core.specs.inner.Choices.{child, choice_child, MakesChoice};

use crate::cache::{Choice, Operation};
use crate::diagrams::Arena;
use crate::errors::DdError;
use crate::nodes::NodeId;

impl Arena {
    /// The node of the function that is g where f is true, and h elsewhere.
    pub fn ite(&mut self, f: NodeId, g: NodeId, h: NodeId) -> Result<NodeId, DdError>
        requires held_f { Holds self.old f.0 }
        requires held_g { Holds self.old g.0 }
        requires held_h { Holds self.old h.0 }
        ensures made { Makes (2 ^ (self.old.variables + 1)) self.old self.new
            (if_else (function_of self.old f.0) (function_of self.old g.0) (function_of self.old h.0)) result }
        ensures fewer { node_count self.new.nodes < node_count self.old.nodes + 2 ^ self.old.variables }
    {
        // The proof of `make` begins with what this call says of each arena.
        let _ = self.variables();
        self.make(Choice {
            test: f,
            yes: g,
            no: h,
        })
    }

    /// The node of the function that is true where f and g are.
    pub fn and(&mut self, f: NodeId, g: NodeId) -> Result<NodeId, DdError>
        requires held_f { Holds self.old f.0 }
        requires held_g { Holds self.old g.0 }
        ensures made { Makes (2 ^ (self.old.variables + 1)) self.old self.new
            (both (function_of self.old f.0) (function_of self.old g.0)) result }
    {
        self.ite(f, g, NodeId::FALSE)
    }

    /// The node of the function that is true where f or g is.
    pub fn or(&mut self, f: NodeId, g: NodeId) -> Result<NodeId, DdError>
        requires held_f { Holds self.old f.0 }
        requires held_g { Holds self.old g.0 }
        ensures made { Makes (2 ^ (self.old.variables + 1)) self.old self.new
            (either (function_of self.old f.0) (function_of self.old g.0)) result }
        ensures fewer { node_count self.new.nodes < node_count self.old.nodes + 2 ^ self.old.variables }
    {
        self.ite(f, NodeId::TRUE, g)
    }

    /// The node of the function that is true where f is false.
    pub fn not(&mut self, f: NodeId) -> Result<NodeId, DdError>
        requires held { Holds self.old f.0 }
        ensures made { Makes (2 ^ (self.old.variables + 1)) self.old self.new
            (opposite (function_of self.old f.0)) result }
    {
        self.ite(f, NodeId::FALSE, NodeId::TRUE)
    }

    /// The node of a choice.
    #[cycle(make)]
    fn make(&mut self, choice: Choice) -> Result<NodeId, DdError>
        requires valid { IsArena self.old }
        requires held { IsHeld self.old choice }
        ensures { MakesChoice self.old self.new choice result }
    {
        if let Some(f) = choice.settled() {
            return Ok(f);
        }
        if let Some(f) = self.cached(Operation::Choose(choice)) {
            return Ok(f);
        }
        self.make_node(choice)
    }

    /// The node of a choice whose operands don't show it, over the nodes of its two cofactors.
    #[cycle(make)]
    fn make_node(&mut self, choice: Choice) -> Result<NodeId, DdError>
        requires valid { IsArena self.old }
        requires held { IsHeld self.old choice }
        requires undecided { 2 ≤ choice.test.0 }
        ensures { MakesChoice self.old self.new choice result }
    {
        let variable = self.first_variable(choice);
        let without = self.choice_child(choice, variable, false);
        let with = self.choice_child(choice, variable, true);
        let low = self.make(without)?;
        let high = self.make(with)?;
        let f = self.mk(variable, low, high)?;
        self.cache_result(Operation::Choose(choice), f);
        Ok(f)
    }

    /// The first variable that an operand tests.
    fn first_variable(&self, choice: Choice) -> u32
        requires held { IsHeld self.now choice }
        ensures { result ≡ first_level self.now choice }
    {
        let branches = self.level(choice.yes).min(self.level(choice.no));
        self.level(choice.test).min(branches)
    }

    /// The operands with this variable set, where none tests an earlier one.
    fn choice_child(&self, choice: Choice, variable: u32, value: bool) -> Choice
        ensures { result ≡ choice_child self.now variable value choice }
    {
        Choice {
            test: self.child(choice.test, variable, value),
            yes: self.child(choice.yes, variable, value),
            no: self.child(choice.no, variable, value),
        }
    }

    /// The variable that f tests, or the number of variables for a constant.
    fn level(&self, f: NodeId) -> u32
        requires held { Holds self.now f.0 }
        ensures { result ≡ level_of self.now f.0 }
    {
        match self.node(f) {
            Some(node) => node.variable,
            None => self.variables(),
        }
    }

    /// Where a walk stands after this variable.
    fn child(&self, f: NodeId, variable: u32, value: bool) -> NodeId
        ensures { result ≡ child self.now variable value f }
    {
        match self.node(f) {
            Some(node) if node.variable == variable => node.child(value),
            _ => f,
        }
    }
}
