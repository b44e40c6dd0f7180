//! Components in which each name was looked up. A signal stands as its place among the signals of its component: from 1 on the
//! inputs, then the outputs, then the local signals around it. At place 0 stands what isn't in scope.
use argos_base::{Name, SigId};
use argos_core::Guard;
use argos_grammar::Spot;
use smallvec::SmallVec;

/// A transition whose signals stand as places. A component that is never run may have more states than there are numbers of two
/// bytes, so the target has more.
#[derive(Debug, Drop)]
pub struct PlacedTrans {
    pub guard: Guard,
    pub outs: SmallVec<SigId, 4>,
    pub target: usize,
}

/// A timeout whose signals stand as places.
#[derive(Debug, Drop)]
pub struct PlacedTimed {
    pub count: u16,
    pub signal: SigId,
    pub outs: SmallVec<SigId, 4>,
    pub target: usize,
}

/// A process whose signals stand as places.
#[cycle(placed)]
#[derive(Debug, Drop)]
pub enum PlacedProcess {
    /// An automaton with the number of its initial state, and how many codes its states have.
    Automaton {
        init: usize,
        codes: u64,
        states: Vec<PlacedState>,
    },
    /// A block with local signals, which take the next places.
    Local(Vec<Spot>, Vec<PlacedProcess>),
    Freeze(SigId, Vec<PlacedProcess>),
    /// A component by its place among those before, if it is one of them, with these signals as its inputs and outputs.
    Run(Option<usize>, Vec<SigId>),
}

/// A state whose signals stand as places.
#[cycle(placed)]
#[derive(Debug, Drop)]
pub struct PlacedState {
    pub name: Name,
    pub trans: Vec<PlacedTrans>,
    pub timed: Option<PlacedTimed>,
    pub body: Option<Vec<PlacedProcess>>,
}

/// A component with so many inputs and outputs together, and its block.
#[derive(Debug, Drop)]
pub struct PlacedComponent {
    pub signals: usize,
    pub block: Vec<PlacedProcess>,
}
