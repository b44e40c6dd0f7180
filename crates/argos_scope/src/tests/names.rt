//! Texts that keep the name rules, and texts that break them.
use super::{expect_fault, meaning};
use crate::ScopeError;
use argos_base::Name;
use argos_names::{NameFault, NameRule};
use std::test::Fail;

const KEPT: [&[u8]; 6] = [
    b"argos 1;component main(a)->(o){automaton{init S;state S{when a emit o goto S;}}}",
    b"argos 1;component main(a)->(o){local b in{automaton{init S;state S{when b emit b goto S;}}||freeze b in{automaton{init S;state S{}}}}}",
    b"argos 1;component main(a)->(o){local b in{automaton{init S;state S{}}}||local b in{automaton{init S;state S{}}}}",
    b"argos 1;component main(a)->(o){automaton{init S;state S body{automaton{init S;state S{}state T{when true goto S;}}}{}state T{after 3 of a emit o,o goto S;}}}",
    b"argos 1;component part(x)->(y){automaton{init S;state S{}}}component main(a)->(o){run part(a)->(o)||run part(a)->(o)}",
    b"argos 1;component main()->(){automaton{init S;state S{when true goto S;}}}",
];

// a text, the rule that is broken first, the name at which it is, and its place
const BROKEN: [(&[u8], NameRule, &[u8], u32); 31] = [
    (
        b"argos 1;component main(a)->(o){automaton{init S;state S{when o goto S;}}}",
        NameRule::NotReadable,
        b"o",
        61,
    ),
    (
        b"argos 1;component main(a)->(o){freeze o in{automaton{init S;state S{}}}}",
        NameRule::NotReadable,
        b"o",
        38,
    ),
    (
        b"argos 1;component main(a)->(o){automaton{init S;state S{when a and not (true or o) goto S;}}}",
        NameRule::NotReadable,
        b"o",
        80,
    ),
    (
        b"argos 1;component main(a)->(o){automaton{init S;state S{after 2 of o goto S;}}}",
        NameRule::NotReadable,
        b"o",
        67,
    ),
    (
        b"argos 1;component part(x)->(y){automaton{init S;state S{}}}component main(a)->(o){run part(o)->(o)}",
        NameRule::NotReadable,
        b"o",
        91,
    ),
    (
        b"argos 1;component main(a)->(o){automaton{init T;state S{when a goto S;}}}",
        NameRule::NoInitial,
        b"T",
        46,
    ),
    (
        b"argos 1;component main(a)->(o){automaton{init S;state S body{automaton{init S;state T{}}}{}}}",
        NameRule::NoInitial,
        b"S",
        76,
    ),
    (
        b"argos 1;component main(a)->(o){automaton{init S;state S{when x goto S;}}}",
        NameRule::Unknown,
        b"x",
        61,
    ),
    (
        b"argos 1;component main(a)->(o){automaton{init S;state S{when a emit x goto S;}}}",
        NameRule::Unknown,
        b"x",
        68,
    ),
    (
        b"argos 1;component main(a)->(o){automaton{init S;state S{when a goto T;}}}",
        NameRule::Unknown,
        b"T",
        68,
    ),
    (
        b"argos 1;component main(a)->(o){automaton{init S;state S{after 2 of a goto T;}}}",
        NameRule::Unknown,
        b"T",
        74,
    ),
    (
        b"argos 1;component main(a)->(o){automaton{init S;state S body{automaton{init T;state T{when a goto S;}}}{}}}",
        NameRule::Unknown,
        b"S",
        98,
    ),
    (
        b"argos 1;component main(a)->(o){run part(a)->(o)}",
        NameRule::Unknown,
        b"part",
        35,
    ),
    (
        b"argos 1;component main(a)->(o){local b in{automaton{init S;state S{}}}||freeze b in{automaton{init S;state S{}}}}",
        NameRule::Unknown,
        b"b",
        79,
    ),
    (
        b"argos 1;component main(a,a)->(o){automaton{init S;state S{}}}",
        NameRule::Duplicate,
        b"a",
        25,
    ),
    (
        b"argos 1;component main(a)->(a){automaton{init S;state S{}}}",
        NameRule::Duplicate,
        b"a",
        28,
    ),
    (
        b"argos 1;component main(a)->(o){local b,b in{automaton{init S;state S{}}}}",
        NameRule::Duplicate,
        b"b",
        39,
    ),
    (
        b"argos 1;component main(a)->(o){local b in{local c,o in{automaton{init S;state S{}}}}}",
        NameRule::Duplicate,
        b"o",
        50,
    ),
    (
        b"argos 1;component main(a)->(o){automaton{init S;state S{}state T{}state S{}}}",
        NameRule::Duplicate,
        b"S",
        72,
    ),
    (
        b"argos 1;component part(x)->(y){automaton{init S;state S{}}}component part(a)->(o){automaton{init S;state S{}}}",
        NameRule::Duplicate,
        b"part",
        69,
    ),
    (
        b"argos 1;component main(a)->(o){automaton{init S;state S{when a emit a goto S;}}}",
        NameRule::NotEmittable,
        b"a",
        68,
    ),
    (
        b"argos 1;component main(a)->(o){automaton{init S;state S{after 2 of a emit o,a goto S;}}}",
        NameRule::NotEmittable,
        b"a",
        76,
    ),
    (
        b"argos 1;component part(x)->(y){automaton{init S;state S{}}}component main(a)->(o){run part(a)->(a)}",
        NameRule::NotEmittable,
        b"a",
        96,
    ),
    (
        b"argos 1;component part(x)->(y){automaton{init S;state S{}}}component main(a)->(o){run part(a,a)->(o)}",
        NameRule::Arity,
        b"part",
        86,
    ),
    (
        b"argos 1;component part(x)->(y){automaton{init S;state S{}}}component main(a)->(o){run part(a)->(o,o)}",
        NameRule::Arity,
        b"part",
        86,
    ),
    (
        b"argos 1;component part(x)->(y){automaton{init S;state S{}}}component main(a)->(o){run part(a)->()}",
        NameRule::Arity,
        b"part",
        86,
    ),
    (
        b"argos 1;component main(a)->(o){run main(a)->(o)}",
        NameRule::NotEarlier,
        b"main",
        35,
    ),
    (
        b"argos 1;component main(a)->(o){run part(a)->(o)}component part(x)->(y){automaton{init S;state S{}}}",
        NameRule::NotEarlier,
        b"part",
        35,
    ),
    (
        b"argos 1;component main(a)->(o){automaton{init T;state S{when o emit a goto X;}}}",
        NameRule::NoInitial,
        b"T",
        46,
    ),
    (
        b"argos 1;component main(a)->(o){automaton{init S;state S{when o emit a goto X;}}}",
        NameRule::NotReadable,
        b"o",
        61,
    ),
    (
        b"argos 1;component part(x)->(y){automaton{init S;state S{}}}component main(a)->(o){run part(o,x)->(a)}",
        NameRule::Arity,
        b"part",
        86,
    ),
];

#[test]
fn takes_texts(rt: HostRuntime) -> Result<(), Fail> {
    for text in KEPT {
        let module = meaning(&rt, rt.alloc(), text);
        assert!(rt; module.is_ok(), "{text:?}");
    }
    Ok(())
}

#[test]
fn refuses_texts(rt: HostRuntime) -> Result<(), Fail> {
    for (text, rule, name, at) in BROKEN {
        let Ok(name) = Name::new(name) else {
            return Err("no name".into());
        };
        let fault = ScopeError::from(NameFault::Broken { rule, name, at });
        expect_fault(&rt, rt.alloc(), text, fault)?;
    }
    Ok(())
}
