//! The text of a sample.
ghost use Rattle.std.specs.Prelude.{◌≡◌, ◌<◌, ◌≤◌, [], ◌∷◌, None, true, IfOk, codes, map};
ghost use Rattle.argos_base.specs.Limits.{sample_limit};
ghost use Rattle.argos_base.specs.Spelling.{is_name};
ghost use Rattle.argos_grammar.specs.Forms.{atom, plain};
ghost use Rattle.argos_grammar.specs.Views.{block_of, component_of, mark_of, marks_of, process_of, state_of, trans_of};
ghost use Rattle.argos_sample.specs.SampleForm.{mark, inner_name, heard_name, emitted_name, halving_form, row_forms, inner_marks, sample_block, sample_component, sample_program};

use argos_base::{Name, OutOfMemory};
use argos_grammar::{
    ComponentTree, GuardTree, ProcessTree, ProgramTree, Spot, StateTree, TransTree,
};
use argos_printer::print;
use itoa::Buffer;
use std::alloc::Global;

/// The canonical text of a chain of so many automata, 1 to 60: the first one hears the input `a`, the last one emits the output `o`,
/// and each one hands on every second signal that it hears.
pub fn sample_text(alloc: Global, count: u8) -> Result<Vec<u8>, OutOfMemory>
    requires least { 1 ≤ count }
    requires most { count ≤ sample_limit }
    ensures text { IfOk result (λ t. t.items ≡ sample_program count) }
{
    let program = ProgramTree {
        version: 1,
        components: list(alloc, component(alloc, count)?)?,
    };
    Ok(print(alloc, &program)?)
}

// The one component.
#[tactic(auto, using(crate::proofs::Building::building))]
fn component(alloc: Global, count: u8) -> Result<ComponentTree, OutOfMemory>
    requires least { 1 ≤ count }
    requires most { count ≤ sample_limit }
    ensures { IfOk result (λ c. component_of c ≡ sample_component count) }
{
    Ok(ComponentTree {
        name: named(b"main"),
        inputs: list(alloc, named(b"a"))?,
        outputs: list(alloc, named(b"o"))?,
        block: block(alloc, count)?,
    })
}

// One automaton alone, or more of them under the signals between them.
#[tactic(auto, using(crate::proofs::Building::building))]
fn block(alloc: Global, count: u8) -> Result<Vec<ProcessTree>, OutOfMemory>
    requires least { 1 ≤ count }
    requires most { count ≤ sample_limit }
    ensures { IfOk result (λ b. block_of b.items ≡ sample_block count) }
{
    let row = row(alloc, count)?;
    if count == 1 {
        return Ok(row);
    }
    let links = links(alloc, count)?;
    Ok(list(alloc, ProcessTree::Local(links, row))?)
}

// The signals between the automata.
#[tactic(auto, using(crate::proofs::Building::building))]
fn links(alloc: Global, count: u8) -> Result<Vec<Spot>, OutOfMemory>
    requires least { 1 ≤ count }
    requires most { count ≤ sample_limit }
    ensures { IfOk result (λ l. marks_of l.items ≡ inner_marks count) }
{
    let mut links = Vec::new(alloc);
    for place in 1..count {
        links.push(signal(alloc, place)?)?;
    }
    Ok(links)
}

// The automata, one beside the other.
#[tactic(auto, using(crate::proofs::Building::building))]
fn row(alloc: Global, count: u8) -> Result<Vec<ProcessTree>, OutOfMemory>
    requires { count ≤ sample_limit }
    ensures { IfOk result (λ r. map process_of r.items ≡ row_forms count 0 count) }
{
    let mut row = Vec::new(alloc);
    for place in 0..count {
        row.push(halving(alloc, count, place)?)?;
    }
    Ok(row)
}

// The automaton at a place, counted from 0, in a chain of so many.
#[tactic(auto, using(crate::proofs::Building::building))]
fn halving(alloc: Global, count: u8, place: u8) -> Result<ProcessTree, OutOfMemory>
    requires place { place < count }
    requires most { count ≤ sample_limit }
    ensures { IfOk result (λ p. process_of p ≡ halving_form count place) }
{
    let heard = heard_at(alloc, place)?;
    let outs = list(alloc, emitted_at(alloc, count, place)?)?;
    let off = state(
        alloc,
        named(b"Off"),
        moving(heard, Vec::new(alloc), named(b"On")),
    )?;
    let on = state(alloc, named(b"On"), moving(heard, outs, named(b"Off")))?;
    let mut states = list(alloc, off)?;
    states.push(on)?;
    Ok(ProcessTree::Automaton {
        init: named(b"Off"),
        states,
    })
}

// What the automaton at a place hears: the input, or what the one before it emits.
#[tactic(auto, using(crate::proofs::Building::building))]
fn heard_at(alloc: Global, place: u8) -> Result<Spot, OutOfMemory>
    requires { place ≤ sample_limit }
    ensures { IfOk result (λ s. mark_of s ≡ mark (heard_name place)) }
{
    if place == 0 {
        return Ok(named(b"a"));
    }
    Ok(signal(alloc, place)?)
}

// What the automaton at a place emits: the output, or what the one behind it hears.
#[tactic(auto, using(crate::proofs::Building::building))]
fn emitted_at(alloc: Global, count: u8, place: u8) -> Result<Spot, OutOfMemory>
    requires place { place < count }
    requires most { count ≤ sample_limit }
    ensures { IfOk result (λ s. mark_of s ≡ mark (emitted_name count place)) }
{
    if place + 1 == count {
        return Ok(named(b"o"));
    }
    Ok(signal(alloc, place + 1)?)
}

// A state with one transition.
fn state(alloc: Global, name: Spot, transition: TransTree) -> Result<StateTree, OutOfMemory>
    ensures { IfOk result (λ s. state_of s ≡ record { head = record { name = mark_of name; trans = trans_of transition ∷ []; timed = None }; body = plain }) }
{
    Ok(StateTree {
        name,
        body: None,
        trans: list(alloc, transition)?,
        timed: None,
    })
}

// A transition on one signal.
#[tactic(auto, using(crate::proofs::Building::building))]
fn moving(heard: Spot, outs: Vec<Spot>, target: Spot) -> TransTree
    ensures { trans_of result ≡ record { guard = atom (mark_of heard); outs = marks_of outs.items; target = mark_of target } }
{
    TransTree {
        guard: GuardTree::Sig(heard),
        outs,
        target,
    }
}

// The signal with this number between two automata.
#[tactic(auto, using(crate::proofs::Building::building))]
fn signal(alloc: Global, number: u8) -> Result<Spot, OutOfMemory>
    requires { number ≤ sample_limit }
    ensures { IfOk result (λ s. mark_of s ≡ mark (inner_name number)) }
{
    let mut digits = Buffer::new();
    let mut name = Vec::new(alloc);
    name.push(b'c')?;
    name.extend_from_slice(digits.format(number).as_bytes())?;
    Ok(named(&name))
}

// A name, which stands at no place.
fn named(bytes: &[u8]) -> Spot
    requires { is_name bytes.now ≡ true }
    ensures { mark_of result ≡ mark bytes.now }
{
    match Name::new(bytes) {
        Ok(name) => Spot { name, at: 0 },
        Err(_) => unreachable!(),
    }
}

// A list of one.
fn list<T: Drop>(alloc: Global, item: T) -> Result<Vec<T>, OutOfMemory>
    ensures { IfOk result (λ l. l.items ≡ item ∷ []) }
{
    let mut list = Vec::new(alloc);
    list.push(item)?;
    Ok(list)
}
