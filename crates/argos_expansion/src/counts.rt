//! What is counted at the nodes of an expansion, and its limits.
ghost use Rattle.std.specs.Prelude.{◌≡◌, ◌+◌, ◌<◌, ◌≤◌, None, MatchResult, IfOk};
ghost use Rattle.argos_base.specs.Limits.{depth_limit, signal_limit};
ghost use Rattle.argos_expansion.specs.inner.Growth.{tally_of, visit_of, counted, passed_at, IsStop};

use crate::errors::{ExpansionError, Which};
use argos_base::{AUTOMATON_LIMIT, CODE_LIMIT, DEPTH_LIMIT, SIGNAL_LIMIT, SIZE_LIMIT};

/// What a visited node has and adds.
#[derive(Clone, Copy, Debug)]
pub struct Node {
    pub depth: u64,
    pub signals: u64,
    pub automata: u64,
    pub codes: u64,
    pub size: u64,
}

/// What the visited nodes add up to.
#[derive(Clone, Copy, Debug)]
pub struct Counts {
    pub signals: u64,
    pub automata: u64,
    pub size: u64,
}

impl Counts {
    /// Counts a node, or answers the first limit that is passed there.
    #[tactic(auto, using(crate::proofs::Limited::limits))]
    pub fn visit(&mut self, node: Node) -> Result<(), ExpansionError>
        ensures limit { MatchResult result
            (λ _. passed_at (tally_of self.old) (visit_of node) ≡ None)
            (λ e. IsStop (passed_at (tally_of self.old) (visit_of node)) e) }
        ensures counted { IfOk result (λ _. tally_of self.new ≡ counted (tally_of self.old) (visit_of node)) }
        ensures shallow { IfOk result (λ _. node.depth ≤ depth_limit) }
        ensures few { IfOk result (λ _. self.new.signals ≤ signal_limit) }
    {
        let signals = sum(self.signals, node.signals)?;
        let automata = sum(self.automata, node.automata)?;
        let size = sum(self.size, node.size)?;
        within(Which::Depth, DEPTH_LIMIT, node.depth)?;
        within(Which::Signals, SIGNAL_LIMIT, signals)?;
        within(Which::Automata, AUTOMATON_LIMIT, automata)?;
        within(Which::Codes, CODE_LIMIT, node.codes)?;
        within(Which::Size, SIZE_LIMIT, size)?;
        self.signals = signals;
        self.automata = automata;
        self.size = size;
        Ok(())
    }
}

// That the count is at most the limit.
fn within(which: Which, most: u32, count: u64) -> Result<(), ExpansionError>
    ensures { MatchResult result (λ _. count ≤ most) (λ e. (most < count) × (e ≡ ExpansionError.Limit which count)) }
{
    if count > u64::from(most) {
        return Err(ExpansionError::Limit { which, count });
    }
    Ok(())
}

/// The sum. No tree whose parts add up to more than a `u64` fits in memory.
pub fn sum(a: u64, b: u64) -> Result<u64, ExpansionError>
    ensures { MatchResult result (λ s. s ≡ a + b) (λ e. e ≡ ExpansionError.OutOfMemory) }
{
    match a.checked_add(b) {
        Some(sum) => Ok(sum),
        None => Err(ExpansionError::OutOfMemory),
    }
}
