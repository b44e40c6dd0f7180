//! The modules of texts.
use super::meaning;
use argos_core::{Auto, Guard, Module, Prog};
use std::test::Fail;

// Three cells that pass a token on.
const TOKEN_RING: &[u8] = b"argos 1;
component cell (p, r) -> (q, g) { automaton { init N;
  state N { when p and r emit g goto N; when p and not r emit q goto N; }
  state T { when r emit g goto T; when not r emit q goto T; } } }
component main (r0, r1, r2) -> (g0, g1, g2) { local p0, p1, p2 in {
  run cell (p0, r0) -> (p1, g0) || run cell (p1, r1) -> (p2, g1) || run cell (p2, r2) -> (p0, g2) } }
";

// In its first state the automaton reads `p` and `r`, and emits `g` or `q`; in both it stays.
fn is_cell(prog: &Prog, [p, r, q, g]: [u32; 4]) -> bool {
    let Prog::Auto(Auto { states, init: 0 }) = prog else {
        return false;
    };
    let [first, second] = states.as_slice() else {
        return false;
    };
    let [take, pass] = first.trans.as_slice() else {
        return false;
    };
    let Guard::All(operands) = &take.guard else {
        return false;
    };
    let [Guard::Sig(token), Guard::Sig(request)] = operands.as_slice() else {
        return false;
    };
    token.0 == p
        && request.0 == r
        && take.outs.as_slice().iter().all(|s| s.0 == g)
        && pass.outs.as_slice().iter().all(|s| s.0 == q)
        && take.target == 0
        && second.trans.as_slice().iter().all(|t| t.target == 1)
}

// A run stands for the block of its component, and local signals come behind the inputs and outputs.
#[test]
fn token_ring(rt: HostRuntime) -> Result<(), Fail> {
    let Ok(module) = meaning(&rt, rt.alloc(), TOKEN_RING) else {
        return Err("no module".into());
    };
    let Module {
        prog,
        names,
        locals,
    } = &module;
    assert_eq!(rt; names.inputs.len(), 3);
    assert_eq!(rt; names.outputs.len(), 3);
    assert_eq!(rt; locals.len(), 3);
    let Prog::Local(signals, inner) = prog else {
        return Err("no local signals".into());
    };
    assert!(rt; matches!(signals.as_slice(), [p0, p1, p2] if p0.0 == 6 && p1.0 == 7 && p2.0 == 8));
    let Prog::Par(parts) = &**inner else {
        return Err("no parts".into());
    };
    let [first, second, third] = parts.as_slice() else {
        return Err("not three cells".into());
    };
    assert!(rt; is_cell(first, [6, 0, 7, 3]));
    assert!(rt; is_cell(second, [7, 1, 8, 4]));
    assert!(rt; is_cell(third, [8, 2, 6, 5]));
    Ok(())
}
