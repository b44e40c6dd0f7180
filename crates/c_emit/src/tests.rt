//! The toggle's C, from its equations.
use crate::c_of;
use c_step::{print_c, read_c};
use eqn_core::{Case, Line, Lit, Ordered, Pick, System};
use smallvec::SmallVec;
use std::alloc::{AllocError, Global};
use std::test::Fail;

const TOGGLE: &[u8] =
    b"/* argos-c 1 */\n/* input a */\n/* output o */\nstruct argos { unsigned int w[2]; unsigned int b[5]; };\nvoid argos_init(struct argos *m) {\nm->w[0] = 1u;\n}\nvoid argos_step(struct argos *m, const unsigned int *in, unsigned int *out) {\nm->b[0] = in[0] != 0u;\nm->b[1] = 1u <= m->w[0] && m->w[0] <= 1u;\nm->b[2] = 2u <= m->w[0] && m->w[0] <= 2u;\nm->b[3] = m->b[0] && m->b[1];\nm->b[4] = m->b[0] && m->b[2];\nif (m->b[3]) m->w[1] = 2u;\nelse if (m->b[4]) m->w[1] = 1u;\nelse m->w[1] = m->w[0];\nout[0] = m->b[4];\nm->w[0] = m->w[1];\n}\n";

fn plain(bit: u32) -> Lit {
    Lit {
        bit,
        negated: false,
    }
}

fn both(alloc: Global, a: u32, b: u32) -> Result<Line, AllocError> {
    Ok(Line::All(SmallVec::from_slice(alloc, [plain(a), plain(b)].as_slice())?))
}

fn toggle(alloc: Global) -> Result<System, AllocError> {
    let cases = [
        Case {
            when: plain(3),
            pick: Pick::Code(2),
        },
        Case {
            when: plain(4),
            pick: Pick::Code(1),
        },
    ];
    let mut lines = Vec::new(alloc);
    lines.push(Line::Within {
        word: 0,
        lo: 1,
        hi: 1,
    })?;
    lines.push(Line::Within {
        word: 0,
        lo: 2,
        hi: 2,
    })?;
    lines.push(both(alloc, 0, 1)?)?;
    lines.push(both(alloc, 0, 2)?)?;
    lines.push(Line::Choose {
        cases: SmallVec::from_slice(alloc, cases.as_slice())?,
        other: Pick::Word(0),
    })?;
    Ok(System {
        inputs: 1,
        init: vec![in alloc; 1]?,
        lines,
        outs: vec![in alloc; 4]?,
        locals: Vec::new(alloc),
        next: vec![in alloc; 1]?,
    })
}

#[test]
fn the_toggle_is_emitted(rt: HostRuntime) -> Result<(), Fail> {
    let alloc = rt.alloc();
    let ordered = Ordered::from_system(toggle(alloc)?).ok().ok_or("ordered")?;
    let names = read_c(alloc, TOGGLE)?.names;
    let system = ordered.system();
    assert!(rt; names.inputs.len() == system.inputs);
    assert!(rt; names.outputs.len() as usize == system.outs.len());
    let step = c_of(alloc, &ordered, &names)?;
    let text = print_c(alloc, &step)?;
    assert_eq!(rt; text.as_slice(), TOGGLE);
    Ok(())
}
