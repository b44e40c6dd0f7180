// The arena: its nodes, and the calls that make and read single nodes.
ghost use Rattle.std.specs.Prelude.{◌≡◌, ◌≢◌, ℕ, ◌<◌, ◌≤◌, ◌↔◌, true, IfOk, OnErr, IfSome, IfNone, length};
ghost use Rattle.dd_core.specs.Functions.{variable_value, if_else};
ghost use Rattle.dd_core.specs.Diagrams.{node_at, node_count};
ghost use Rattle.dd_core.specs.Chains.{bucket_count, IsChain};
ghost use Rattle.dd_core.specs.Arenas.{ArenaView, IsArena, IsEmpty, Holds, level_of, function_of, IsFull, Makes};
ghost use Rattle.dd_core.specs.Operations.{IsResult};
ghost use Rattle.dd_core.specs.inner.Adding.{IsFresh, AddsNode};

use crate::cache::{Cache, Operation};
use crate::errors::{DdError, NewError};
use crate::nodes::{Node, NodeId};
use crate::table::Table;
use std::alloc::{AllocError, Global};
use std::marker::Model;

/// How many variables an arena may have.
const MOST_VARIABLES: u32 = 1024;

/// Nodes that are all different, and reduced: equal functions have equal ids.
#[derive(Debug, Drop)]
pub struct Arena {
    variables: u32,
    budget: u32,
    nodes: Table,
    cache: Cache,
}

impl Model for Arena {
    ghost use Rattle.dd_core.specs.Arenas.{ArenaView};
    ghost use Rattle.dd_core.specs.inner.Adding.{in_turn};
    ghost use Rattle.dd_core.specs.inner.Caches.{IsSound};

    ghost Value = { ArenaView };

    ghost view = { λ a. in_turn a.variables a.budget a.nodes };

    ghost invariant = { λ a. IsSound (in_turn a.variables a.budget a.nodes) a.cache.entries.items };
}

#[tactic(auto, using(crate::proofs::ArenaSteps::arena_steps))]
impl Arena {
    /// An arena for functions of `vars` variables, which never holds more than `budget` nodes, constants included.
    ///
    /// # Errors
    ///
    /// `Variables` where there are more than 1,024 variables.
    pub fn new(alloc: Global, vars: u32, budget: u32) -> Result<Arena, NewError>
        requires least { 2 ≤ budget }
        requires greatest { budget ≤ 16777216 }
        ensures ok { IfOk result (λ a. IsEmpty vars budget a) }
        ensures variables { (n : ℕ)
            → (result ≡ Err (NewError.Variables n)) ↔ ((1024 < vars) × (n ≡ vars)) }
    {
        if vars > MOST_VARIABLES {
            return Err(NewError::Variables(vars));
        }
        Ok(Arena {
            variables: vars,
            budget,
            nodes: Table::new(alloc)?,
            cache: Cache::new(alloc)?,
        })
    }

    /// How many variables its functions have.
    pub fn variables(&self) -> u32
        ensures count { result ≡ self.now.variables }
        ensures arena { IsArena self.now }
    {
        self.variables
    }

    /// How many nodes are held, constants included.
    pub fn used(&self) -> u32
        ensures count { result ≡ node_count self.now.nodes }
        ensures arena { IsArena self.now }
    {
        self.nodes.len() as u32 + 2
    }

    /// The node with this id; `None` for a constant, and where no node is held.
    pub fn node(&self, f: NodeId) -> Option<Node>
        ensures node { result ≡ node_at self.now.nodes f.0 }
        ensures arena { IsArena self.now }
    {
        self.nodes.node(f)
    }

    /// How many chains the unique table has: a power of two, 256 at first, doubled before a node would make `used`
    /// greater than it.
    pub fn buckets(&self) -> u32
        ensures { result ≡ bucket_count (node_count self.now.nodes) }
    {
        self.nodes.buckets()
    }

    /// The nodes, constants aside, of a bucket of the unique table, the greatest id first. The bucket of a node is
    /// `((variable * 31 + low) * 31 + high) % buckets`.
    pub fn chain(&self, bucket: u32) -> Result<Vec<NodeId>, AllocError>
        requires { bucket < bucket_count (node_count self.now.nodes) }
        ensures { IfOk result (λ ids.
            IsChain self.now.nodes (bucket_count (node_count self.now.nodes)) bucket ids.items) }
    {
        self.nodes.chain(bucket)
    }

    /// The result of this operation, if the arena still has it.
    pub fn cached(&self, operation: Operation) -> Option<NodeId>
        ensures { IfSome result (IsResult self.now operation) }
    {
        self.cache.get(operation)
    }

    /// Keeps the result of an operation, until another takes its place.
    pub fn cache_result(&mut self, operation: Operation, f: NodeId)
        requires { IsResult self.old operation f }
        ensures { self.new ≡ self.old }
    {
        self.cache.put(operation, f);
    }

    /// The node that goes on with `low` where the variable is false and with `high` where it is true:
    /// `low` where the two are one, else the one node with this triple.
    ///
    /// # Errors
    ///
    /// `Budget` where the triple isn't held and the arena is full.
    pub fn mk(&mut self, var: u32, low: NodeId, high: NodeId) -> Result<NodeId, DdError>
        requires variable { var < self.old.variables }
        requires low_later { var < level_of self.old low.0 }
        requires high_later { var < level_of self.old high.0 }
        ensures made { Makes 1 self.old self.new
            (if_else (variable_value var) (function_of self.old high.0) (function_of self.old low.0)) result }
        ensures equal { low ≡ high → result ≡ Ok low }
        ensures triple { low ≢ high → IfOk result (λ f.
            node_at self.new.nodes f.0 ≡ Some (record { variable = var; low = low; high = high })) }
        ensures later { IfOk result (λ f. var ≤ level_of self.new f.0) }
    {
        // Its proof knows the arena's invariant from the read of a field.
        let _ = &self.variables;
        if low == high {
            return Ok(low);
        }
        let node = Node {
            variable: var,
            low,
            high,
        };
        match self.find(node) {
            Some(f) => Ok(f),
            None => self.add(node),
        }
    }

    /// The node of a variable.
    ///
    /// # Errors
    ///
    /// `Budget` as in `mk`.
    pub fn var(&mut self, var: u32) -> Result<NodeId, DdError>
        requires variable { var < self.old.variables }
        ensures made { Makes 1 self.old self.new (variable_value var) result }
        ensures triple { IfOk result (λ f. node_at self.new.nodes f.0
            ≡ Some (record { variable = var; low = record { 0 = 0 }; high = record { 0 = 1 } })) }
    {
        // As in `mk`: the constants' levels are known.
        let _ = &self.variables;
        self.mk(var, NodeId::FALSE, NodeId::TRUE)
    }

    /// The id of the node with this triple.
    fn find(&self, node: Node) -> Option<NodeId>
        ensures found { IfSome result (λ f. node_at self.now.nodes f.0 ≡ Some node) }
        ensures none { IfNone result ((f : ℕ) → node_at self.now.nodes f ≢ Some node) }
        ensures arena { IsArena self.now }
    {
        let _ = &self.variables;
        self.nodes.find(node)
    }

    /// Adds a node.
    fn add(&mut self, node: Node) -> Result<NodeId, DdError>
        requires fresh { IsFresh self.old.variables self.old.nodes node }
        ensures ok { IfOk result (λ f. AddsNode self.old self.new node f.0) }
        ensures err { OnErr result (self.new ≡ self.old) }
        ensures full { result ≡ Err DdError.Budget → IsFull self.old }
        ensures arena { IsArena self.old }
    {
        let used = self.used();
        if used == self.budget {
            return Err(DdError::Budget);
        }
        self.nodes.push(node)?;
        Ok(NodeId(used))
    }

    /// The value of f where these are the values of the variables, by number.
    pub fn eval(&self, f: NodeId, x: &[bool]) -> bool
        requires held { Holds self.now f.0 }
        requires sized { length x.now ≡ self.now.variables }
        ensures value { result ≡ function_of self.now f.0 x.now }
        ensures arena { IsArena self.now }
    {
        let mut at = f;
        while let Some(node) = self.node(at) {
            at = node.child(x[node.variable as usize]);
        }
        at == NodeId::TRUE
    }
}
