//! What is printed of trees that were parsed.
use super::{parse, parse_aspect, parse_cert, print, print_aspect, print_cert};
use argos_base::TEXT_LIMIT;
use std::alloc::Global;
use std::process::Abort;
use std::test::Fail;

// The program's text is printed so.
fn prints(rt: &impl Abort, alloc: Global, text: &[u8], printed: &[u8]) -> Result<(), Fail> {
    assert!(rt; text.len() <= TEXT_LIMIT);
    let tree = parse(alloc, text)?;
    assert_eq!(rt; print(alloc, &tree)?.as_slice(), printed);
    Ok(())
}

#[test]
fn program(rt: HostRuntime) -> Result<(), Fail> {
    let text =
        b"argos 1;\ncomponent main (a, b) -> () { automaton { init S;\n  state S { when a goto S; when a or b goto T; } state T { } } }";
    let printed =
        b"argos 1 ; component main ( a , b ) -> ( ) { automaton { init S ; state S { when a goto S ; when a or b goto T ; } state T { } } }\n";
    prints(&rt, rt.alloc(), text, printed)
}

// Parentheses stay only where the guard needs them.
#[test]
fn guards(rt: HostRuntime) -> Result<(), Fail> {
    let text =
        b"argos 1;component m(a,b)->(){automaton{init S;state S{when (a and b) or (not (a)) goto S;when not (a and b) and (a or b) goto S;when (a or b) or a goto S;when (a and (a and (true))) goto S;}}}";
    let printed =
        b"argos 1 ; component m ( a , b ) -> ( ) { automaton { init S ; state S { when a and b or not a goto S ; when not ( a and b ) and ( a or b ) goto S ; when ( a or b ) or a goto S ; when a and ( a and true ) goto S ; } } }\n";
    prints(&rt, rt.alloc(), text, printed)
}

#[test]
fn processes(rt: HostRuntime) -> Result<(), Fail> {
    let text =
        b"argos 1;component c()->(){automaton{init S;state S{}}}component m(t)->(x,y){local u,v in{freeze t in{run c()->()}||automaton{init S;state S body{run m(t)->(x,y)}{when false emit x goto S;after 12 of t emit x,y goto S;}}}}";
    let printed =
        b"argos 1 ; component c ( ) -> ( ) { automaton { init S ; state S { } } } component m ( t ) -> ( x , y ) { local u , v in { freeze t in { run c ( ) -> ( ) } || automaton { init S ; state S body { run m ( t ) -> ( x , y ) } { when false emit x goto S ; after 12 of t emit x , y goto S ; } } } }\n";
    prints(&rt, rt.alloc(), text, printed)
}

#[test]
fn aspects(rt: HostRuntime) -> Result<(), Fail> {
    let alloc = rt.alloc();
    let text =
        b"larissa 1;\ncomponent watch (p) -> (j) { automaton { init S; state S { when p emit j goto S; } } }\nadvice emit q toCurrent [];";
    let tree = parse_aspect(alloc, text)?;
    let printed =
        b"larissa 1 ; component watch ( p ) -> ( j ) { automaton { init S ; state S { when p emit j goto S ; } } } advice emit q toCurrent [ ] ;\n";
    assert_eq!(rt; print_aspect(alloc, &tree)?.as_slice(), printed.as_slice());
    let text =
        b"larissa 1;component w()->(j){automaton{init S;state S{}}}advice emit q,r toInit[{},{a,b}];";
    let tree = parse_aspect(alloc, text)?;
    let printed =
        b"larissa 1 ; component w ( ) -> ( j ) { automaton { init S ; state S { } } } advice emit q , r toInit [ { } , { a , b } ] ;\n";
    assert_eq!(rt; print_aspect(alloc, &tree)?.as_slice(), printed.as_slice());
    Ok(())
}

#[test]
fn certificates(rt: HostRuntime) -> Result<(), Fail> {
    let alloc = rt.alloc();
    let tree = parse_cert(alloc, b"bisim 1; relation lhs 1 in Off;")?;
    let printed = b"bisim 1 ; relation lhs 1 in Off ;\n";
    assert_eq!(rt; print_cert(alloc, &tree)?.as_slice(), printed.as_slice());
    let text =
        b"bisim 1;relation(lhs 1 in W elapsed 2 and rhs 0 inactive)or not(samecode 1 65535 or true)and((false));";
    let tree = parse_cert(alloc, text)?;
    let printed =
        b"bisim 1 ; relation lhs 1 in W elapsed 2 and rhs 0 inactive or not ( samecode 1 65535 or true ) and false ;\n";
    assert_eq!(rt; print_cert(alloc, &tree)?.as_slice(), printed.as_slice());
    Ok(())
}
