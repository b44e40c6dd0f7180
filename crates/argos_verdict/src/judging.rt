ghost use Rattle.std.specs.Prelude.{◌≡◌, ◌≤◌, MatchResult};
ghost use Rattle.argos_core.specs.ModuleViews.{module_of};
ghost use Rattle.argos_verdict.specs.Answers.{IsSound, IsRefused};
ghost use Rattle.instant_check.specs.ModuleOverlaps.{IsClear};

use argos_base::{OutOfMemory, RegId, Signals};
use argos_core::{Layout, Module, layout_of};
use dd_core::Arena;
use eqn_build::equations;
use eqn_core::{Plan, System};
use eqn_dd::CheckError;
use eqn_order::order;
use instant_check::{OverlapFound, overlaps};
use instant_verdict::{Reaction, Verdict, instant};
use std::alloc::Global;

/// The equations of a good program, with their plan, and the layout of its registers.
#[derive(Debug, Drop)]
pub struct Sound {
    pub system: System,
    pub plan: Plan,
    pub layout: Layout,
}

/// Why a module isn't accepted. The first case is told: of overlaps by register, state, places and set; of the others by memory and
/// input.
#[derive(Debug, Drop)]
pub enum AcceptError {
    /// Two transitions of a state, by places from 0, hold on this set of signals and differ in effect.
    Overlap {
        reg: RegId,
        state: u16,
        first: u32,
        second: u32,
        set: Signals,
    },
    /// In the configuration with this code, a number per register, there is no reaction to this input.
    NoReaction {
        memory: Vec<u16>,
        input: Signals,
    },
    /// There are several, these two being the least and the least of the others.
    Several {
        memory: Vec<u16>,
        input: Signals,
        first: Reaction,
        second: Reaction,
    },
    /// A job of diagrams has so many variables, which is more than 1,024.
    Variables(u32),
    /// An operation on diagrams answered `Budget`. The arena is its job's, as it then stood.
    Budget(Arena),
    OutOfMemory,
}

impl From<OutOfMemory> for AcceptError {
    ghost use Rattle.std.specs.Prelude.{◌≡◌};
    ghost use Rattle.argos_verdict.specs.declared.judging.AcceptError.TheVariants as errors;

    ghost from_gives = { λ _ e. e ≡ errors.OutOfMemory };

    fn from(_: OutOfMemory) -> AcceptError {
        AcceptError::OutOfMemory
    }
}

/// Judges a module: whether it is a program each of whose configurations, reachable or not, has exactly one reaction to each input.
/// Overlaps are looked for first, state by state, then cases without exactly one reaction.
///
/// # Errors
///
/// `Overlap`, `NoReaction` and `Several` where it isn't one. `Variables` where a job of diagrams has more than 1,024 variables; `Budget`
/// where an operation on diagrams answered it, which none does where `budget` is what each job needs.
pub fn judge(alloc: Global, module: &Module, budget: u32) -> Result<Sound, AcceptError>
    requires least { 2 ≤ budget }
    requires greatest { budget ≤ 16777216 }
    ensures { MatchResult result (IsSound (module_of «module».now)) (IsRefused (module_of «module».now) budget) }
{
    match overlaps(alloc, module, budget) {
        Ok(OverlapFound::Clear) => judge_reactions(alloc, module, budget),
        Ok(
            OverlapFound::Overlap {
                reg,
                state,
                first,
                second,
                set,
            },
        ) => Err(AcceptError::Overlap {
            reg,
            state,
            first,
            second,
            set,
        }),
        Err(CheckError::Variables(n)) => Err(AcceptError::Variables(n)),
        Err(CheckError::Budget(arena)) => Err(AcceptError::Budget(arena)),
        Err(CheckError::OutOfMemory) => Err(AcceptError::OutOfMemory),
    }
}

// The same, where no state has an overlap.
fn judge_reactions(alloc: Global, module: &Module, budget: u32) -> Result<Sound, AcceptError>
    requires least { 2 ≤ budget }
    requires greatest { budget ≤ 16777216 }
    requires clear { IsClear (module_of «module».now) }
    ensures { MatchResult result (IsSound (module_of «module».now)) (IsRefused (module_of «module».now) budget) }
{
    let system = equations(alloc, module)?;
    let plan = order(alloc, &system)?;
    let layout = layout_of(alloc, &module.prog)?;
    match instant(alloc, &system, &plan, &layout, budget) {
        Ok(Verdict::One) => Ok(Sound {
            system,
            plan,
            layout,
        }),
        Ok(Verdict::NoReaction { memory, input }) => Err(AcceptError::NoReaction { memory, input }),
        Ok(
            Verdict::Several {
                memory,
                input,
                first,
                second,
            },
        ) => Err(AcceptError::Several {
            memory,
            input,
            first,
            second,
        }),
        Err(CheckError::Variables(n)) => Err(AcceptError::Variables(n)),
        Err(CheckError::Budget(arena)) => Err(AcceptError::Budget(arena)),
        Err(CheckError::OutOfMemory) => Err(AcceptError::OutOfMemory),
    }
}
