//! Programs and configurations, after Maraninchi and Rémond 2001. Timeouts and freezing are this project's own.

use argos_base::{Name, SigId};
use smallvec::SmallVec;

/// A condition on the signals that are present.
#[derive(Debug, Drop)]
pub enum Guard {
    True,
    False,
    /// The signal is present.
    Sig(SigId),
    Not(Box<Guard>),
    /// Each of them holds.
    All(Vec<Guard>),
    /// Some of them holds.
    Any(Vec<Guard>),
}

/// Where the guard holds, these signals are emitted, and the state with the number `target` is entered.
#[derive(Debug, Drop)]
pub struct Trans {
    pub guard: Guard,
    pub outs: SmallVec<SigId, 4>,
    pub target: u16,
}

/// In the instant in which the signal is present for the `count`-th time since the state was entered, and no guard holds, these
/// signals are emitted, and the state with the number `target` is entered.
#[derive(Debug, Drop)]
pub struct Timed {
    pub count: u16,
    pub signal: SigId,
    pub outs: SmallVec<SigId, 4>,
    pub target: u16,
}

/// A state of an automaton. A state with a body is refined: the body reacts while the state is the current one.
#[cycle(prog)]
#[derive(Debug, Drop)]
pub struct State {
    pub name: Name,
    pub trans: Vec<Trans>,
    pub timed: Option<Timed>,
    pub body: Option<Box<Prog>>,
}

/// An automaton. `init` is the number of its initial state.
#[cycle(prog)]
#[derive(Debug, Drop)]
pub struct Auto {
    pub states: Vec<State>,
    pub init: u16,
}

/// A process.
#[cycle(prog)]
#[derive(Debug, Drop)]
pub enum Prog {
    Auto(Auto),
    /// Parts that react together.
    Par(Vec<Prog>),
    /// A process with signals of its own, which count as present exactly where it emits them.
    Local(Vec<SigId>, Box<Prog>),
    /// A process that stands still while the signal is present.
    Freeze(SigId, Box<Prog>),
}

/// A configuration of a process: where it stands between two instants.
#[derive(Debug, Drop)]
pub enum Config {
    /// Of an automaton: the number of its state, how many instants were counted there, and where that state's body stands.
    At {
        state: u16,
        elapsed: u16,
        body: Option<Box<Config>>,
    },
    /// Of parallel parts: where each stands.
    Beside(Vec<Config>),
}
