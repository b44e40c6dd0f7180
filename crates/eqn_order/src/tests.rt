//! What a run tells: that calls succeed with ample memory, and what the plans of worked systems are.
ghost use Rattle.std.specs.Prelude.{IfOk};
ghost use Rattle.eqn_core.specs.Orderable.{IsOrderable};
ghost use Rattle.eqn_core.specs.Views.{equations_from};

use crate::order;
use crate::plan::make_plan;
use argos_base::OutOfMemory;
use eqn_core::{Case, Line, Lit, Pick, Plan, System};
use smallvec::SmallVec;
use std::alloc::Global;
use std::process::Abort;
use std::test::Fail;

// A line, short to write: bits of which all or some are true, the last one perhaps not; a word that is this code; codes that are
// picked where a bit is true, else a word.
#[derive(Clone, Copy)]
enum Row<'a> {
    All(&'a [u32]),
    AllBut(&'a [u32], u32),
    Any(&'a [u32]),
    Is(u32, u16),
    Choose(&'a [(u32, u16)], u32),
}

// A system, short to write, and the bits of it that are cyclic.
#[derive(Clone, Copy)]
struct Table<'a> {
    inputs: u32,
    registers: usize,
    rows: &'a [Row<'a>],
    locals: &'a [u32],
    cyclic: &'a [u32],
}

// A counter of two bits, of which the first tells the second by a local signal.
const TWO_BIT_COUNTER: Table<'static> = Table {
    inputs: 1,
    registers: 2,
    rows: &[
        Row::Any(&[10]),
        Row::Any(&[6]),
        Row::Is(0, 1),
        Row::All(&[3, 0]),
        Row::Is(0, 2),
        Row::All(&[5, 0]),
        Row::Choose(&[(4, 2), (6, 1)], 0),
        Row::Is(1, 1),
        Row::All(&[7, 2]),
        Row::Is(1, 2),
        Row::All(&[9, 2]),
        Row::Choose(&[(8, 2), (10, 1)], 1),
    ],
    locals: &[2],
    cyclic: &[],
};

// Two automata, each of which emits the local signal that the other one hears.
const MUTUAL_SUPPORT: Table<'static> = Table {
    inputs: 0,
    registers: 2,
    rows: &[
        Row::Any(&[4, 6]),
        Row::Any(&[6]),
        Row::Any(&[4]),
        Row::Is(0, 1),
        Row::All(&[3, 1]),
        Row::Choose(&[(4, 1)], 0),
        Row::Is(1, 1),
        Row::All(&[5, 2]),
        Row::Choose(&[(6, 1)], 1),
    ],
    locals: &[1, 2],
    cyclic: &[1, 2],
};

// Three cells, each of which passes a token on to the next where it doesn't take it.
const TOKEN_RING: Table<'static> = Table {
    inputs: 3,
    registers: 3,
    rows: &[
        Row::Any(&[10, 13]),
        Row::Any(&[16, 19]),
        Row::Any(&[22, 25]),
        Row::Any(&[23, 26]),
        Row::Any(&[11, 14]),
        Row::Any(&[17, 20]),
        Row::Is(0, 1),
        Row::All(&[9, 6, 0]),
        Row::AllBut(&[9, 6], 0),
        Row::Is(0, 2),
        Row::All(&[12, 0]),
        Row::AllBut(&[12], 0),
        Row::Choose(&[(10, 1), (11, 1), (13, 2), (14, 2)], 0),
        Row::Is(1, 1),
        Row::All(&[15, 7, 1]),
        Row::AllBut(&[15, 7], 1),
        Row::Is(1, 2),
        Row::All(&[18, 1]),
        Row::AllBut(&[18], 1),
        Row::Choose(&[(16, 1), (17, 1), (19, 2), (20, 2)], 1),
        Row::Is(2, 1),
        Row::All(&[21, 8, 2]),
        Row::AllBut(&[21, 8], 2),
        Row::Is(2, 2),
        Row::All(&[24, 2]),
        Row::AllBut(&[24], 2),
        Row::Choose(&[(22, 1), (23, 1), (25, 2), (26, 2)], 2),
    ],
    locals: &[6, 7, 8],
    cyclic: &[6, 7, 8],
};

// A cycle that goes through the word of a choice.
const THROUGH_CHOICE: Table<'static> = Table {
    inputs: 1,
    registers: 1,
    rows: &[
        Row::Choose(&[(0, 1), (2, 2)], 0),
        Row::Is(1, 2),
        Row::Any(&[1, 0]),
    ],
    locals: &[2],
    cyclic: &[2],
};

// A local bit that reads itself, and one that is there but isn't cyclic.
const SELF_READING: Table<'static> = Table {
    inputs: 1,
    registers: 0,
    rows: &[Row::All(&[0]), Row::Any(&[2, 0])],
    locals: &[1, 2],
    cyclic: &[2],
};

// Two cycles that share the local bit 0; of one of them bit 2 is local too, and stands first.
const INTERLOCKED: Table<'static> = Table {
    inputs: 0,
    registers: 0,
    rows: &[Row::Any(&[1, 2]), Row::All(&[0]), Row::All(&[0])],
    locals: &[2, 0],
    cyclic: &[2, 0],
};

// Local bits behind and before a cycle.
const DOWNSTREAM: Table<'static> = Table {
    inputs: 0,
    registers: 0,
    rows: &[
        Row::Any(&[1]),
        Row::Any(&[2, 3]),
        Row::Any(&[1]),
        Row::All(&[]),
    ],
    locals: &[0, 1, 3],
    cyclic: &[1],
};

fn plus(bit: u32) -> Lit {
    Lit {
        bit,
        negated: false,
    }
}

fn literals(alloc: Global, bits: &[u32]) -> Result<SmallVec<Lit, 4>, OutOfMemory> {
    let mut literals = SmallVec::new(alloc);
    for bit in bits {
        literals.push(plus(*bit))?;
    }
    Ok(literals)
}

fn all_but(alloc: Global, bits: &[u32], but: u32) -> Result<SmallVec<Lit, 4>, OutOfMemory> {
    let mut literals = literals(alloc, bits)?;
    literals.push(Lit {
        bit: but,
        negated: true,
    })?;
    Ok(literals)
}

fn cases(alloc: Global, picks: &[(u32, u16)]) -> Result<SmallVec<Case, 4>, OutOfMemory> {
    let mut cases = SmallVec::new(alloc);
    for (bit, code) in picks {
        cases.push(Case {
            when: plus(*bit),
            pick: Pick::Code(*code),
        })?;
    }
    Ok(cases)
}

fn line(alloc: Global, row: Row) -> Result<Line, OutOfMemory> {
    Ok(match row {
        Row::All(bits) => Line::All(literals(alloc, bits)?),
        Row::AllBut(bits, but) => Line::All(all_but(alloc, bits, but)?),
        Row::Any(bits) => Line::Any(literals(alloc, bits)?),
        Row::Is(word, code) => Line::Within {
            word,
            lo: code,
            hi: code,
        },
        Row::Choose(picks, word) => Line::Choose {
            cases: cases(alloc, picks)?,
            other: Pick::Word(word),
        },
    })
}

fn system(alloc: Global, table: Table) -> Result<System, OutOfMemory> {
    let mut lines = Vec::new(alloc);
    for row in table.rows {
        lines.push(line(alloc, *row)?)?;
    }
    Ok(System {
        inputs: table.inputs,
        init: vec![in alloc; 1; table.registers]?,
        lines,
        outs: Vec::new(alloc),
        locals: Vec::from_slice(alloc, table.locals)?,
        next: Vec::new(alloc),
    })
}

fn plan(rt: &impl Abort, alloc: Global, table: Table) -> Result<Plan, OutOfMemory> {
    let system = system(alloc, table)?;
    assert!(rt; system.lines.len() <= 30_000_000);
    make_plan(alloc, &system)
}

#[test]
fn cyclic_bits_are_those_on_cycles(rt: HostRuntime) -> Result<(), Fail> {
    let tables = [
        TWO_BIT_COUNTER,
        MUTUAL_SUPPORT,
        TOKEN_RING,
        THROUGH_CHOICE,
        SELF_READING,
        INTERLOCKED,
        DOWNSTREAM,
    ];
    for table in tables {
        let plan = plan(&rt, rt.alloc(), table)?;
        assert_eq!(rt; plan.order.len(), table.rows.len());
        assert_eq!(rt; plan.cyclic.as_slice(), table.cyclic);
    }
    Ok(())
}

// Each line but the last reads the next one, so only one order serves.
#[test]
fn lines_stand_behind_what_they_read(rt: HostRuntime) -> Result<(), Fail> {
    let chain = Table {
        inputs: 0,
        registers: 0,
        rows: &[
            Row::All(&[1]),
            Row::All(&[2]),
            Row::All(&[3]),
            Row::All(&[]),
        ],
        locals: &[],
        cyclic: &[],
    };
    let plan = plan(&rt, rt.alloc(), chain)?;
    assert_eq!(rt; plan.order.as_slice(), [3, 2, 1, 0].as_slice());
    Ok(())
}

// One line that reads nothing, whose bit is local.
fn one_line(alloc: Global) -> Result<System, OutOfMemory>
    ensures { IfOk result (λ s. IsOrderable (equations_from s)) }
{
    Ok(System {
        inputs: 1,
        init: Vec::new(alloc),
        lines: vec![in alloc; Line::All(SmallVec::new(alloc))]?,
        outs: vec![in alloc; 1]?,
        locals: vec![in alloc; 1]?,
        next: Vec::new(alloc),
    })
}

#[test]
fn plans_one_line(rt: HostRuntime) -> Result<(), Fail> {
    let plan = order(rt.alloc(), &one_line(rt.alloc())?)?;
    assert_eq!(rt; plan.order.as_slice(), [0].as_slice());
    assert_eq!(rt; plan.cyclic.len(), 0);
    Ok(())
}
