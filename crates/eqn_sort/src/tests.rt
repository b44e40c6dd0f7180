//! What a run tells: that calls succeed with ample memory, and what sorted systems do.
ghost use Rattle.std.specs.Prelude.{◌≡◌, [], ◌∷◌, length, map, IfOk};
ghost use Rattle.eqn_core.specs.Equations as plain;
ghost use Rattle.eqn_core.specs.Views.{case_of, line_of, equations_from};
ghost use Rattle.eqn_sort.specs.inner.Samples.{plus, pick};
ghost use Rattle.eqn_sort.specs.inner.Samples as samples;

use crate::{Tables, sort};
use argos_base::{OutOfMemory, Signals};
use eqn_core::{Case, Line, Lit, Ordered, Pick, Plan, Stepper, System};
use smallvec::SmallVec;
use std::alloc::Global;
use std::process::Abort;
use std::test::Fail;

// All of one bit.
fn one(alloc: Global, bit: u32) -> Result<Line, OutOfMemory>
    ensures { IfOk result (λ l. line_of l ≡ plain.all (plus bit ∷ [])) }
{
    Ok(Line::All(SmallVec::from_slice(
        alloc,
        &[Lit {
            bit,
            negated: false,
        }],
    )?))
}

// All of two bits.
fn both(alloc: Global, a: u32, b: u32) -> Result<Line, OutOfMemory>
    ensures { IfOk result (λ l. line_of l ≡ plain.all (plus a ∷ plus b ∷ [])) }
{
    let literals = [
        Lit {
            bit: a,
            negated: false,
        },
        Lit {
            bit: b,
            negated: false,
        },
    ];
    Ok(Line::All(SmallVec::from_slice(alloc, &literals)?))
}

// A code where a bit is present.
fn pick(bit: u32, code: u16) -> Case
    ensures { case_of result ≡ pick bit code }
{
    Case {
        when: Lit {
            bit,
            negated: false,
        },
        pick: Pick::Code(code),
    }
}

// The code of the first case that holds, else the word.
fn choose(alloc: Global, first: Case, second: Case, word: u32) -> Result<Line, OutOfMemory>
    ensures { IfOk result (λ l. line_of l ≡ plain.choose (case_of first ∷ case_of second ∷ []) (plain.word word)) }
{
    Ok(Line::Choose {
        cases: SmallVec::from_slice(alloc, &[first, second])?,
        other: Pick::Word(word),
    })
}

// The lines of the counter.
fn counter_lines(alloc: Global) -> Result<Vec<Line>, OutOfMemory>
    ensures { IfOk result (λ v. map line_of v.items ≡ samples.counter.lines) }
{
    let carry = both(alloc, 3, 0)?;
    let round = both(alloc, 1, 4)?;
    let low = Line::Within {
        word: 0,
        lo: 1,
        hi: 1,
    };
    let high = Line::Within {
        word: 1,
        lo: 1,
        hi: 1,
    };
    let next_low = choose(alloc, pick(1, 0), pick(0, 1), 0)?;
    let next_high = choose(alloc, pick(2, 0), pick(1, 1), 1)?;
    Ok(vec![in alloc; carry, round, low, high, next_low, next_high]?)
}

fn counter(alloc: Global) -> Result<System, OutOfMemory>
    ensures { IfOk result (λ s. equations_from s ≡ samples.counter) }
{
    Ok(System {
        inputs: 1,
        init: Vec::from_slice(alloc, &[0, 0])?,
        lines: counter_lines(alloc)?,
        outs: Vec::from_slice(alloc, &[2])?,
        locals: Vec::from_slice(alloc, &[1])?,
        next: Vec::from_slice(alloc, &[2, 3])?,
    })
}

fn chain(alloc: Global) -> Result<System, OutOfMemory>
    ensures { IfOk result (λ s. equations_from s ≡ samples.chain) }
{
    let first = one(alloc, 2)?;
    let second = one(alloc, 3)?;
    let third = one(alloc, 0)?;
    let keep = Line::Choose {
        cases: SmallVec::new(alloc),
        other: Pick::Word(0),
    };
    Ok(System {
        inputs: 1,
        init: Vec::from_slice(alloc, &[7])?,
        lines: vec![in alloc; first, second, third, keep]?,
        outs: Vec::from_slice(alloc, &[1])?,
        locals: Vec::new(alloc),
        next: Vec::from_slice(alloc, &[1])?,
    })
}

// A plan without cyclic bits.
fn plan(alloc: Global, order: &[u32]) -> Result<Plan, OutOfMemory>
    ensures order { IfOk result (λ p. p.order.items ≡ order.now) }
    ensures acyclic { IfOk result (λ p. p.cyclic.items ≡ []) }
{
    Ok(Plan {
        order: Vec::from_slice(alloc, order)?,
        cyclic: Vec::new(alloc),
    })
}

fn sorted_counter(alloc: Global) -> Result<Ordered, OutOfMemory>
    ensures inputs { IfOk result (λ o. o.inputs ≡ 1) }
    ensures outputs { IfOk result (λ o. length o.outputs ≡ 1) }
{
    let system = counter(alloc)?;
    let plan = plan(alloc, &[2, 3, 0, 1, 4, 5])?;
    Ok(sort(alloc, &system, &plan)?)
}

fn sorted_chain(alloc: Global) -> Result<Ordered, OutOfMemory>
    ensures inputs { IfOk result (λ o. o.inputs ≡ 1) }
    ensures outputs { IfOk result (λ o. length o.outputs ≡ 1) }
{
    let system = chain(alloc)?;
    let plan = plan(alloc, &[3, 2, 1, 0])?;
    Ok(sort(alloc, &system, &plan)?)
}

// Tables of the chain in which bit 1 is given the number 10.
fn given_tables(alloc: Global) -> Result<Tables, OutOfMemory> {
    let system = chain(alloc)?;
    Ok(Tables::with_given(alloc, &system, &[1], 10)?)
}

// One step on this input gives this output, and leads to these codes.
fn step_tells(
    rt: &impl Abort,
    alloc: Global,
    stepper: &mut Stepper,
    tick: bool,
    round: bool,
    codes: &[u16],
) -> Result<(), Fail>
    requires inputs { stepper.old.equations.inputs ≡ 1 }
    requires outputs { length stepper.old.equations.outputs ≡ 1 }
    ensures { stepper.new.equations ≡ stepper.old.equations }
{
    let mut input = Signals::new(alloc, 1)?;
    let mut output = Signals::new(alloc, 1)?;
    input.set(0, tick);
    stepper.step(&input, &mut output);
    assert_eq!(rt; output.get(0), round);
    assert_eq!(rt; stepper.memory(), codes);
    Ok(())
}

#[test]
fn sorted_counter_counts(rt: HostRuntime) -> Result<(), Fail> {
    let alloc = rt.alloc();
    let mut stepper = Stepper::begin(alloc, sorted_counter(alloc)?)?;
    step_tells(&rt, alloc, &mut stepper, true, false, &[1, 0])?;
    step_tells(&rt, alloc, &mut stepper, true, false, &[0, 1])?;
    step_tells(&rt, alloc, &mut stepper, false, false, &[0, 1])?;
    step_tells(&rt, alloc, &mut stepper, true, false, &[1, 1])?;
    step_tells(&rt, alloc, &mut stepper, true, true, &[0, 0])?;
    Ok(())
}

#[test]
fn sorted_chain_passes_on(rt: HostRuntime) -> Result<(), Fail> {
    let alloc = rt.alloc();
    let mut stepper = Stepper::begin(alloc, sorted_chain(alloc)?)?;
    step_tells(&rt, alloc, &mut stepper, true, true, &[7])?;
    step_tells(&rt, alloc, &mut stepper, false, false, &[7])?;
    Ok(())
}

#[test]
fn given_bits_have_their_numbers(rt: HostRuntime) -> Result<(), Fail> {
    let tables = given_tables(rt.alloc())?;
    assert_eq!(rt; tables.bits.as_slice(), [0, 10, 2, 3].as_slice());
    assert_eq!(rt; tables.next_bit, 11);
    assert_eq!(rt; tables.next_word, 1);
    Ok(())
}
