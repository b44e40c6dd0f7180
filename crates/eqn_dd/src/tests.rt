//! What a run tells: that calls succeed with ample room, and what diagrams of a worked system are.
ghost use Rattle.std.specs.Prelude.{◌≡◌, [], ◌∷◌, ◌≤◌, length, map, All, IfOk};
ghost use Rattle.argos_core.specs.Views.{shapes_of};
ghost use Rattle.dd_core.specs.Arenas.{Holds};
ghost use Rattle.eqn_core.specs.Equations as plain;
ghost use Rattle.eqn_core.specs.Views.{literal_of, line_of, equations_from};
ghost use Rattle.eqn_dd.specs.Denoting.{IsWord};
ghost use Rattle.eqn_dd.specs.Placed.{AreInTurn};
ghost use Rattle.eqn_dd.specs.Structural.{widths_of};
ghost use Rattle.eqn_dd.specs.inner.Samples.{plus};
ghost use Rattle.eqn_dd.specs.inner.Samples as samples;

use crate::{Diagrams, Places, diagrams_of, place_vars, structural, within};
use argos_base::OutOfMemory;
use argos_core::{Layout, Shape};
use dd_core::{Arena, NodeId};
use eqn_core::{Case, Line, Lit, Pick, Plan, System};
use smallvec::SmallVec;
use std::alloc::Global;
use std::process::Abort;
use std::test::Fail;

// A bit.
fn lit(bit: u32) -> Lit
    ensures { literal_of result ≡ plus bit }
{
    Lit {
        bit,
        negated: false,
    }
}

// Any of two bits.
fn either(alloc: Global, a: u32, b: u32) -> Result<Line, OutOfMemory>
    ensures { IfOk result (λ l. line_of l ≡ plain.any (plus a ∷ plus b ∷ [])) }
{
    let literals = [lit(a), lit(b)];
    Ok(Line::Any(SmallVec::from_slice(alloc, &literals)?))
}

// 0 where a bit is present, else one more where another one is, else the word as it is.
fn count_on(alloc: Global, back: u32, on: u32, word: u32) -> Result<Line, OutOfMemory>
    ensures { IfOk result (λ l. line_of l ≡ samples.count_on back on word) }
{
    let cases = [
        Case {
            when: lit(back),
            pick: Pick::Code(0),
        },
        Case {
            when: lit(on),
            pick: Pick::Next(word),
        },
    ];
    Ok(Line::Choose {
        cases: SmallVec::from_slice(alloc, &cases)?,
        other: Pick::Word(word),
    })
}

fn keeper(alloc: Global) -> Result<System, OutOfMemory>
    ensures { IfOk result (λ s. equations_from s ≡ samples.keeper) }
{
    let kept = either(alloc, 0, 1)?;
    let full = Line::Within {
        word: 0,
        lo: 2,
        hi: 2,
    };
    let count = count_on(alloc, 2, 1, 0)?;
    Ok(System {
        inputs: 1,
        init: Vec::from_slice(alloc, &[0])?,
        lines: vec![in alloc; kept, full, count]?,
        outs: Vec::from_slice(alloc, &[2])?,
        locals: Vec::from_slice(alloc, &[1])?,
        next: Vec::from_slice(alloc, &[1])?,
    })
}

fn keeper_plan(alloc: Global) -> Result<Plan, OutOfMemory>
    ensures order { IfOk result (λ p. p.order.items ≡ samples.keeper_order) }
    ensures cyclic { IfOk result (λ p. p.cyclic.items ≡ samples.keeper_cyclic) }
{
    Ok(Plan {
        order: Vec::from_slice(alloc, &[1, 0, 2])?,
        cyclic: Vec::from_slice(alloc, &[1])?,
    })
}

// One register, which holds 1 or 2.
fn keeper_layout(alloc: Global) -> Result<Layout, OutOfMemory>
    ensures { IfOk result (λ l. shapes_of l ≡ samples.keeper_shape ∷ []) }
{
    let shape = Shape {
        top: 2,
        init: 1,
        ranges: Vec::new(alloc),
        parent: None,
    };
    Ok(Layout {
        regs: vec![in alloc; shape]?,
    })
}

fn keeper_places(alloc: Global) -> Result<Places, OutOfMemory>
    ensures { IfOk result (AreInTurn (2 ∷ []) 1 1) }
{
    let system = keeper(alloc)?;
    let plan = keeper_plan(alloc)?;
    let layout = keeper_layout(alloc)?;
    Ok(place_vars(alloc, &system, &plan, &layout)?)
}

// The diagrams of the sample in an arena of its four variables.
fn keeper_diagrams(alloc: Global) -> Result<(Arena, Diagrams), Fail>
    ensures variables { IfOk result (λ d. d.0.variables ≡ 4) }
    ensures bits { IfOk result (λ d. All (λ f. Holds d.0 f.0) d.1.bits.items) }
    ensures words { IfOk result (λ d. All (IsWord d.0) (map (λ w. w.items) d.1.words.items)) }
{
    let system = keeper(alloc)?;
    let plan = keeper_plan(alloc)?;
    let places = keeper_places(alloc)?;
    let mut arena = Arena::new(alloc, 4, 10_000)?;
    let diagrams = diagrams_of(alloc, &mut arena, &system, &plan, &places)?;
    Ok((arena, diagrams))
}

// The codes 1 and 2 as a diagram of the sample's register.
fn register_within(alloc: Global) -> Result<(Arena, NodeId), Fail>
    ensures variables { IfOk result (λ d. d.0.variables ≡ 4) }
    ensures held { IfOk result (λ d. Holds d.0 d.1.0) }
{
    let (mut arena, diagrams) = keeper_diagrams(alloc)?;
    let node = match diagrams.words.get(0) {
        Some(word) => within(&mut arena, word, 1, 2)?,
        None => NodeId::FALSE,
    };
    Ok((arena, node))
}

// The memories that fit the sample's layout.
fn keeper_structural(alloc: Global) -> Result<(Arena, NodeId), Fail>
    ensures variables { IfOk result (λ d. d.0.variables ≡ 4) }
    ensures held { IfOk result (λ d. Holds d.0 d.1.0) }
{
    let layout = keeper_layout(alloc)?;
    let places = keeper_places(alloc)?;
    let mut arena = Arena::new(alloc, 4, 10_000)?;
    let node = structural(alloc, &mut arena, &layout, &places)?;
    Ok((arena, node))
}

// The bits have these values there.
fn bits_are(
    rt: &impl Abort,
    arena: &Arena,
    bits: &[NodeId],
    x: &[bool],
    values: &[bool],
) -> Result<(), Fail>
    requires held { All (λ f. Holds arena.now f.0) bits.now }
    requires sized { length x.now ≡ arena.now.variables }
{
    assert_eq!(rt; bits.len(), values.len());
    for k in 0..values.len() {
        assert_eq!(rt; arena.eval(bits[k], x), values[k]);
    }
    Ok(())
}

// The sixteen digits of the word are those of the code there.
fn word_is(
    rt: &impl Abort,
    arena: &Arena,
    word: &[NodeId],
    x: &[bool],
    code: u16,
) -> Result<(), Fail>
    requires word { IsWord arena.now word.now }
    requires sized { length x.now ≡ arena.now.variables }
{
    for place in 0..16 {
        assert_eq!(rt; arena.eval(word[15 - place], x), (code >> place) % 2 == 1);
    }
    Ok(())
}

// Each bit and each word has these values there.
fn tells(
    rt: &impl Abort,
    arena: &Arena,
    diagrams: &Diagrams,
    x: &[bool],
    bits: &[bool],
    codes: &[u16],
) -> Result<(), Fail>
    requires bits { All (λ f. Holds arena.now f.0) diagrams.now.bits.items }
    requires words { All (IsWord arena.now) (map (λ w. w.items) diagrams.now.words.items) }
    requires sized { length x.now ≡ arena.now.variables }
{
    bits_are(rt, arena, &diagrams.bits, x, bits)?;
    assert_eq!(rt; diagrams.words.len(), codes.len());
    for k in 0..codes.len() {
        word_is(rt, arena, &diagrams.words[k], x, codes[k])?;
    }
    Ok(())
}

#[test]
fn places_stand_in_turn(rt: HostRuntime) -> Result<(), Fail> {
    let places = keeper_places(rt.alloc())?;
    assert_eq!(rt; places.regs.as_slice(), [(0, 2)].as_slice());
    assert_eq!(rt; places.inputs.as_slice(), [2].as_slice());
    assert_eq!(rt; places.cyclic.as_slice(), [3].as_slice());
    Ok(())
}

// The variables are the register's two digits, the input, and the cyclic bit.
#[test]
fn diagrams_follow_lines(rt: HostRuntime) -> Result<(), Fail> {
    let (arena, all) = keeper_diagrams(rt.alloc())?;
    let here = [false, false, false, false];
    tells(&rt, &arena, &all, &here, &[false, false, false], &[0, 0])?;
    // The line of bit 1 is true, and the cyclic bit is read by its variable.
    let here = [false, false, true, false];
    tells(&rt, &arena, &all, &here, &[true, true, false], &[0, 0])?;
    let here = [false, true, false, true];
    tells(&rt, &arena, &all, &here, &[false, true, false], &[1, 2])?;
    // Both cases hold.
    let here = [true, false, false, true];
    tells(&rt, &arena, &all, &here, &[false, true, true], &[2, 0])?;
    let here = [true, true, false, true];
    tells(&rt, &arena, &all, &here, &[false, true, false], &[3, 4])?;
    let here = [true, true, true, false];
    tells(&rt, &arena, &all, &here, &[true, true, false], &[3, 3])?;
    Ok(())
}

// The node is true at the codes 1 and 2 of the register, and not at 0 and 3.
fn is_one_or_two(rt: &impl Abort, arena: &Arena, node: NodeId) -> Result<(), Fail>
    requires variables { arena.now.variables ≡ 4 }
    requires held { Holds arena.now node.0 }
{
    assert!(rt; !arena.eval(node, &[false, false, true, true]));
    assert!(rt; arena.eval(node, &[false, true, false, true]));
    assert!(rt; arena.eval(node, &[true, false, true, false]));
    assert!(rt; !arena.eval(node, &[true, true, false, false]));
    Ok(())
}

#[test]
fn words_are_within_ranges(rt: HostRuntime) -> Result<(), Fail> {
    let (arena, node) = register_within(rt.alloc())?;
    is_one_or_two(&rt, &arena, node)
}

#[test]
fn memories_fit_layouts(rt: HostRuntime) -> Result<(), Fail> {
    let (arena, node) = keeper_structural(rt.alloc())?;
    is_one_or_two(&rt, &arena, node)
}
