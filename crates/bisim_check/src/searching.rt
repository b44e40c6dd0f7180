// The search for related memories that react differently, or that lead to unrelated ones, by diagrams of both programs.
ghost use Rattle.std.specs.Prelude.{◌≡◌, ◌+◌, ◌*◌, ℕ, IfOk, Err, length};
ghost use Rattle.argos_congruence.specs.Congruence.{HaveSameNames};
ghost use Rattle.argos_core.specs.ModuleViews.{module_of};
ghost use Rattle.bisim_check.specs.Jobs.{job_variables, job_size};
ghost use Rattle.argos_core.specs.Reactions.{output_count};
ghost use Rattle.argos_core.specs.Views.{shapes_of};
ghost use Rattle.bisim_check.specs.inner.Nodes.{AreWords, AreHeld};
ghost use Rattle.bisim_check.specs.inner.Searched.{digits_of, IsOutcome, drawing_operations, IsDrawn, in_left_order, differing_function, leaving_function};
ghost use Rattle.bisim_formula.specs.Formulas.{formula_size};
ghost use Rattle.eqn_core.specs.Equations.{registers};
ghost use Rattle.eqn_dd.specs.Denoting.{Denotes};
ghost use Rattle.bisim_formula.specs.Views.{formula_of};
ghost use Rattle.bisim_verdict.specs.Counts.{equiv_operations};
ghost use Rattle.bisim_verdict.specs.EquivFunctions.{ArePlacedTogether};
ghost use Rattle.bisim_verdict.specs.Laws.{AreNamed};
ghost use Rattle.dd_core.specs.Arenas.{AddsAtMost, HasNoRoom, Holds};

use crate::comparing;
use crate::comparing::{first_differing, some_differ};
use crate::diagrams::{ProgramDiagrams, program_diagrams};
use crate::formula::formula_node;
use crate::placing::Together;
use argos_compile::Accepted;
use bisim_formula::Cert;
use dd_core::{Arena, DdError, NodeId};
use dd_ops::least;
use std::alloc::Global;

/// What the search finds, in values of the variables.
#[derive(Debug, Drop)]
pub(crate) enum Outcome {
    Accept,
    /// Related memories and an input set, and the place of the first left output that differs there.
    Outputs { at: Vec<bool>, place: usize },
    Leaves { at: Vec<bool> },
}

/// The diagrams of both programs, and the node that is true at related structural memories.
#[derive(Debug, Drop)]
pub(crate) struct Drawn {
    left: ProgramDiagrams,
    right: ProgramDiagrams,
    pairs: NodeId,
}

/// The node that is true where related memories react with different outputs, and the right outputs in the order of the left names.
#[derive(Debug, Drop)]
pub(crate) struct Compared {
    node: NodeId,
    answers: Vec<NodeId>,
}

/// The least related memories that react with different outputs; else the least that lead to unrelated ones.
pub(crate) fn search(
    alloc: Global,
    arena: &mut Arena,
    left: &Accepted,
    right: &Accepted,
    cert: &Cert,
    together: &Together,
) -> Result<Outcome, DdError>
    requires same { HaveSameNames (module_of left.now.«module») (module_of right.now.«module») }
    requires placed { let P = module_of left.now.«module» in let Q = module_of right.now.«module» in
        ArePlacedTogether P Q (digits_of P) (digits_of Q) together.now.left together.now.right }
    requires named { let P = module_of left.now.«module» in let Q = module_of right.now.«module» in
        AreNamed P Q (digits_of P) (digits_of Q) together.now.left together.now.right left.now.ordered right.now.ordered }
    requires variables { arena.old.variables ≡ job_variables (module_of left.now.«module») (module_of right.now.«module») }
    ensures adds { AddsAtMost (equiv_operations (job_size (formula_of cert.now) (module_of left.now.«module») (module_of right.now.«module») left.now.ordered right.now.ordered)) arena.old arena.new }
    ensures budget { result ≡ Err DdError.Budget → HasNoRoom arena.new }
    ensures found { IfOk result (λ outcome. ∥ IsOutcome (formula_of cert.now) (module_of left.now.«module») (module_of right.now.«module»)
        together.now.left together.now.right left.now.ordered right.now.ordered outcome ∥₁) }
{
    let drawn = draw(alloc, arena, left, right, cert, together)?;
    let compared = compare(alloc, arena, left, right, &drawn)?;
    if let Some(at) = least(alloc, arena, compared.node)? {
        let place = first_differing(arena, &drawn.left.outputs, &compared.answers, &at).unwrap();
        return Ok(Outcome::Outputs { at, place });
    }
    let leaving = leave(arena, left, right, cert, &drawn)?;
    match least(alloc, arena, leaving)? {
        Some(at) => Ok(Outcome::Leaves { at }),
        None => Ok(Outcome::Accept),
    }
}

fn draw(
    alloc: Global,
    arena: &mut Arena,
    left: &Accepted,
    right: &Accepted,
    cert: &Cert,
    together: &Together,
) -> Result<Drawn, DdError>
    requires named { let P = module_of left.now.«module» in let Q = module_of right.now.«module» in
        AreNamed P Q (digits_of P) (digits_of Q) together.now.left together.now.right left.now.ordered right.now.ordered }
    requires sized_left { length left.now.layout.regs.items ≡ registers left.now.ordered }
    requires sized_right { length right.now.layout.regs.items ≡ registers right.now.ordered }
    requires variables { arena.old.variables ≡ job_variables (module_of left.now.«module») (module_of right.now.«module») }
    ensures adds { AddsAtMost (drawing_operations arena.old.variables (formula_of cert.now) left.now.ordered right.now.ordered) arena.old arena.new }
    ensures budget { result ≡ Err DdError.Budget → HasNoRoom arena.new }
    ensures drawn { IfOk result (IsDrawn (formula_of cert.now) (shapes_of left.now.layout) (shapes_of right.now.layout) together.now.left together.now.right left.now.ordered right.now.ordered arena.new) }
{
    let first = program_diagrams(alloc, arena, left.ordered(), left.layout(), &together.left)?;
    let second = program_diagrams(
        alloc,
        arena,
        right.ordered(),
        right.layout(),
        &together.right,
    )?;
    let related = formula_node(
        arena,
        cert,
        left.layout(),
        right.layout(),
        &first.registers,
        &second.registers,
    )?;
    let structural = arena.and(first.structural, second.structural)?;
    let pairs = arena.and(related, structural)?;
    Ok(Drawn {
        left: first,
        right: second,
        pairs,
    })
}

fn compare(
    alloc: Global,
    arena: &mut Arena,
    left: &Accepted,
    right: &Accepted,
    drawn: &Drawn,
) -> Result<Compared, DdError>
    requires pairs { Holds arena.old drawn.now.pairs.0 }
    requires left { AreHeld arena.old drawn.now.left.outputs.items }
    requires right { AreHeld arena.old drawn.now.right.outputs.items }
    requires sized { length drawn.now.left.outputs.items ≡ output_count (module_of left.now.«module») }
    ensures adds { AddsAtMost (3 * output_count (module_of left.now.«module») + 1) arena.old arena.new }
    ensures budget { result ≡ Err DdError.Budget → HasNoRoom arena.new }
    ensures answers { IfOk result (λ c. c.answers.items ≡ in_left_order (module_of left.now.«module») (module_of right.now.«module») drawn.now.right.outputs.items) }
    ensures node { IfOk result (λ c. Denotes arena.new c.node.0 (differing_function arena.old drawn.now.pairs.0 drawn.now.left.outputs.items c.answers.items)) }
{
    // The proof begins with what this call says of each arena.
    let _ = arena.variables();
    let answers = comparing::in_left_order(
        alloc,
        &left.module().names.outputs,
        &right.module().names.outputs,
        &drawn.right.outputs,
    )?;
    let differ = some_differ(arena, &drawn.left.outputs, &answers)?;
    let node = arena.and(drawn.pairs, differ)?;
    Ok(Compared { node, answers })
}

// The node that is true at related structural memories whose next memories aren't related.
fn leave(
    arena: &mut Arena,
    left: &Accepted,
    right: &Accepted,
    cert: &Cert,
    drawn: &Drawn,
) -> Result<NodeId, DdError>
    requires pairs { Holds arena.old drawn.now.pairs.0 }
    requires left { AreWords arena.old drawn.now.left.next.items }
    requires right { AreWords arena.old drawn.now.right.next.items }
    ensures adds { AddsAtMost (50 * formula_size (formula_of cert.now) + 2) arena.old arena.new }
    ensures budget { result ≡ Err DdError.Budget → HasNoRoom arena.new }
    ensures node { IfOk result (λ f. Denotes arena.new f.0 (leaving_function arena.old drawn.now.pairs.0 (shapes_of left.now.layout) (shapes_of right.now.layout) (formula_of cert.now) drawn.now.left.next.items drawn.now.right.next.items)) }
{
    let kept = formula_node(
        arena,
        cert,
        left.layout(),
        right.layout(),
        &drawn.left.next,
        &drawn.right.next,
    )?;
    let lost = arena.not(kept)?;
    arena.and(drawn.pairs, lost)
}
