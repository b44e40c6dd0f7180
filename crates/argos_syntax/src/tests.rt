//! The whole parsers, row by row.
use super::{
    CertNode, GuardTree, ParseError, ProcessTree, SyntaxKind, parse, parse_aspect, parse_cert,
};
use argos_base::TEXT_LIMIT;
use std::alloc::{AllocError, Global};
use std::process::Abort;
use std::test::Fail;

const fn syntax(at: u32, kind: SyntaxKind) -> ParseError {
    ParseError::Syntax { at, kind }
}

// The text of a program has no tree, and this is its first fault.
fn expect_fault(
    rt: &impl Abort,
    alloc: Global,
    text: &[u8],
    fault: ParseError,
) -> Result<(), Fail> {
    assert!(rt; text.len() <= TEXT_LIMIT);
    let Err(found) = parse(alloc, text) else {
        return Err("a tree".into());
    };
    assert_eq!(rt; found, fault, "{text:?}");
    Ok(())
}

// The head, so many times the piece, the middle, so many times the end piece, and the tail.
fn nested(
    alloc: Global,
    head: &[u8],
    times: usize,
    pieces: (&[u8], &[u8], &[u8]),
    tail: &[u8],
) -> Result<Vec<u8>, AllocError> {
    let (before, middle, after) = pieces;
    let mut text = head.to_vec(alloc)?;
    for _ in 0..times {
        text.extend_from_slice(before)?;
    }
    text.extend_from_slice(middle)?;
    for _ in 0..times {
        text.extend_from_slice(after)?;
    }
    text.extend_from_slice(tail)?;
    Ok(text)
}

const TOGGLE: &[u8] =
    b"argos 1;\ncomponent main (a) -> (o) { automaton { init Off;\n  state Off { when a goto On; }\n  state On { when a emit o goto Off; } } }";

#[test]
fn programs_without_a_tree(rt: HostRuntime) -> Result<(), Fail> {
    let cases: [(&[u8], ParseError); 30] = [
        (b"", syntax(0, SyntaxKind::End)),
        (b"argos", syntax(5, SyntaxKind::End)),
        (b"argos 1;", syntax(8, SyntaxKind::End)),
        (
            b"argos 1;component main(a)->(o){",
            syntax(31, SyntaxKind::End),
        ),
        (
            b"argos 1;component m()->(){automaton{init S;state S{}}",
            syntax(53, SyntaxKind::End),
        ),
        (b"\xFF", ParseError::NotUtf8 { at: 0 }),
        (b"argos 1;\xC3", ParseError::NotUtf8 { at: 8 }),
        (b"argos 2;\xFF", ParseError::NotUtf8 { at: 8 }),
        (b"argos 1;$", syntax(8, SyntaxKind::Byte)),
        (b"argos 1;/", syntax(8, SyntaxKind::Byte)),
        (b"argos 1;component m()-()", syntax(21, SyntaxKind::Byte)),
        (
            b"argos 1;component m()->(){automaton|",
            syntax(35, SyntaxKind::Byte),
        ),
        (b"argos 1;// $\n$", syntax(13, SyntaxKind::Byte)),
        (
            b"argos 1;component m()->(){run c()->()}-",
            syntax(38, SyntaxKind::Byte),
        ),
        (b"argos 1;main", syntax(8, SyntaxKind::Token)),
        (b"argos 1;component (", syntax(18, SyntaxKind::Token)),
        (b"argos 1;component in", syntax(18, SyntaxKind::Token)),
        (
            b"argos 1;component m()->(){}",
            syntax(26, SyntaxKind::Token),
        ),
        (
            b"argos 1;component m()->(){automaton{init S;}}",
            syntax(43, SyntaxKind::Token),
        ),
        (
            b"argos 1;component m()->(){automaton{init S;state S{when a}}}",
            syntax(57, SyntaxKind::Token),
        ),
        (
            b"argos 1;component m()->(){run c()->()}}",
            syntax(38, SyntaxKind::Token),
        ),
        (
            b"argos 1;a2345678901234567890123456789012345678901234567890123456789012345",
            syntax(8, SyntaxKind::LongName),
        ),
        (
            b"argos 1;component a2345678901234567890123456789012345678901234567890123456789012345",
            syntax(18, SyntaxKind::LongName),
        ),
        (b"argos 00;", syntax(6, SyntaxKind::Number)),
        (b"argos 65536;", syntax(6, SyntaxKind::Number)),
        (b"argos 1;00", syntax(8, SyntaxKind::Number)),
        (
            b"argos 1;component m()->(){automaton{init S;state S{after 0 of t goto S;}}}",
            syntax(57, SyntaxKind::Number),
        ),
        (
            b"argos 1;component m()->(){automaton{init S;state S{after 03 of t goto S;}}}",
            syntax(57, SyntaxKind::Number),
        ),
        (b"argos 2;", syntax(6, SyntaxKind::Version)),
        (b"argos 0;", syntax(6, SyntaxKind::Version)),
    ];
    for (text, fault) in cases {
        expect_fault(&rt, rt.alloc(), text, fault)?;
    }
    Ok(())
}

#[test]
fn aspects_without_a_tree(rt: HostRuntime) -> Result<(), Fail> {
    let cases: [(&[u8], ParseError); 5] = [
        (b"larissa 2;", syntax(8, SyntaxKind::Version)),
        (b"larissa 1;advice toInit[];", syntax(10, SyntaxKind::Token)),
        (
            b"larissa 1;component w()->(){run c()->()}advice toSaved[];",
            syntax(47, SyntaxKind::Token),
        ),
        (
            b"larissa 1;component w()->(){run c()->()}advice toInit[{a},];",
            syntax(58, SyntaxKind::Token),
        ),
        (
            b"larissa 1;component w()->(){run c()->()}advice emit q toCurrent[]",
            syntax(65, SyntaxKind::End),
        ),
    ];
    for (text, fault) in cases {
        assert!(rt; text.len() <= TEXT_LIMIT);
        let Err(found) = parse_aspect(rt.alloc(), text) else {
            return Err("a tree".into());
        };
        assert_eq!(rt; found, fault, "{text:?}");
    }
    Ok(())
}

#[test]
fn certificates_without_a_tree(rt: HostRuntime) -> Result<(), Fail> {
    let cases: [(&[u8], ParseError); 7] = [
        (b"bisim 2;", syntax(6, SyntaxKind::Version)),
        (
            b"bisim 1;relation lhs 65536 inactive;",
            syntax(21, SyntaxKind::Number),
        ),
        (
            b"bisim 1;relation rhs 1 in S elapsed 00;",
            syntax(36, SyntaxKind::Number),
        ),
        (
            b"bisim 1;relation samecode 1;",
            syntax(27, SyntaxKind::Token),
        ),
        (b"bisim 1;relation not;", syntax(20, SyntaxKind::Token)),
        (b"bisim 1;relation #;", syntax(17, SyntaxKind::Byte)),
        (b"bisim 1;relation lhs 1 in S", syntax(27, SyntaxKind::End)),
    ];
    for (text, fault) in cases {
        assert!(rt; text.len() <= TEXT_LIMIT);
        let Err(found) = parse_cert(rt.alloc(), text) else {
            return Err("a tree".into());
        };
        assert_eq!(rt; found, fault, "{text:?}");
    }
    Ok(())
}

// The whole text has a tree, and each text cut before its last byte is refused for its syntax.
#[test]
fn cut_texts(rt: HostRuntime) -> Result<(), Fail> {
    parse(rt.alloc(), TOGGLE)?;
    for len in 0..TOGGLE.len() {
        let Err(ParseError::Syntax { at: _, kind: _ }) = parse(rt.alloc(), &TOGGLE[..len]) else {
            return Err("no syntax refusal".into());
        };
    }
    Ok(())
}

// A guard stands inside three braces, so 61 parentheses or `not`s come to level 64. A block may stand inside 63 others.
#[test]
fn levels(rt: HostRuntime) -> Result<(), Fail> {
    let alloc = rt.alloc();
    let head = b"argos 1;component main(a)->(){automaton{init S;state S{when ";
    let tail = b" goto S;}}}";
    let round = (b"(".as_slice(), b"a".as_slice(), b")".as_slice());
    let text = nested(alloc, head, 61, round, tail)?;
    assert!(rt; text.len() <= TEXT_LIMIT);
    parse(alloc, &text)?;
    let text = nested(alloc, head, 62, round, tail)?;
    expect_fault(&rt, alloc, &text, ParseError::TooDeep { at: 121 })?;

    let negated = (b"not ".as_slice(), b"a".as_slice(), b"".as_slice());
    let text = nested(alloc, head, 61, negated, tail)?;
    assert!(rt; text.len() <= TEXT_LIMIT);
    parse(alloc, &text)?;
    let text = nested(alloc, head, 62, negated, tail)?;
    expect_fault(&rt, alloc, &text, ParseError::TooDeep { at: 304 })?;

    let head = b"argos 1;component m()->(){";
    let local = (
        b"local a in{".as_slice(),
        b"run c()->()".as_slice(),
        b"}".as_slice(),
    );
    let text = nested(alloc, head, 62, local, b"}")?;
    assert!(rt; text.len() <= TEXT_LIMIT);
    parse(alloc, &text)?;
    let text = nested(alloc, head, 64, local, b"}")?;
    expect_fault(&rt, alloc, &text, ParseError::TooDeep { at: 729 })
}

const TIMEOUT: &[u8] =
    b"argos 1;\ncomponent main (t, g) -> (x, y) { automaton { init W;\n  state W { when g emit y goto D; after 3 of t emit x goto D; }\n  state D { when g goto W; } } }\n";

#[test]
fn timeout(rt: HostRuntime) -> Result<(), Fail> {
    let program = parse(rt.alloc(), TIMEOUT)?;
    assert_eq!(rt; program.version, 1);
    let [main] = program.components.as_slice() else {
        return Err("not one component".into());
    };
    assert_eq!(rt; main.name.at, 19);
    let [ProcessTree::Automaton { init, states }] = main.block.as_slice() else {
        return Err("no automaton".into());
    };
    assert_eq!(rt; init.name.bytes(), b"W".as_slice());
    let [waits, done] = states.as_slice() else {
        return Err("not two states".into());
    };
    assert_eq!(rt; waits.trans.len(), 1);
    assert!(rt; done.timed.is_none());
    let Some(timed) = &waits.timed else {
        return Err("no timeout".into());
    };
    assert_eq!(rt; timed.count, 3);
    assert_eq!(rt; timed.signal.name.bytes(), b"t".as_slice());
    assert_eq!(rt; timed.outs.len(), 1);
    assert_eq!(rt; timed.target.name.bytes(), b"D".as_slice());
    Ok(())
}

#[test]
fn parentheses(rt: HostRuntime) -> Result<(), Fail> {
    let text =
        b"argos 1;component m(a,b)->(){automaton{init S;state S{when not(a or b)and((a)) goto S;}}}";
    let program = parse(rt.alloc(), text)?;
    assert_eq!(rt; program.components.len(), 1);
    let [ProcessTree::Automaton { init: _, states }] = program.components[0].block.as_slice() else {
        return Err("no automaton".into());
    };
    assert_eq!(rt; states.len(), 1);
    assert_eq!(rt; states[0].trans.len(), 1);
    let GuardTree::All(parts) = &states[0].trans[0].guard else {
        return Err("no conjunction".into());
    };
    let [GuardTree::Not(either), GuardTree::Sig(a)] = parts.as_slice() else {
        return Err("other parts".into());
    };
    assert!(rt; matches!(&**either, GuardTree::Any(names) if names.len() == 2));
    assert_eq!(rt; a.name.bytes(), b"a".as_slice());
    Ok(())
}

#[test]
fn aspects_and_certificates(rt: HostRuntime) -> Result<(), Fail> {
    let text =
        b"larissa 1;\ncomponent watch (p) -> (j) { automaton { init S; state S { when p emit j goto S; } } }\nadvice emit q toCurrent [{a}, {}];";
    let aspect = parse_aspect(rt.alloc(), text)?;
    assert!(rt; aspect.current);
    assert_eq!(rt; aspect.outs.len(), 1);
    assert_eq!(rt; aspect.trace.len(), 2);
    let cert = parse_cert(rt.alloc(), b"bisim 1; relation lhs 1 in Off;")?;
    assert_eq!(rt; cert.version, 1);
    let CertNode::InState {
        left,
        reg,
        reg_at,
        state,
        elapsed,
    } = &cert.formula
    else {
        return Err("another formula".into());
    };
    assert!(rt; *left);
    assert_eq!(rt; *reg, 1);
    assert_eq!(rt; *reg_at, 22);
    assert_eq!(rt; state.name.bytes(), b"Off".as_slice());
    assert!(rt; elapsed.is_none());
    Ok(())
}
