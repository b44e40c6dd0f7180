//! That calls succeed with ample memory.
use crate::adapter_tests::{fails, gives};
use crate::{
    AddError, Failed, LoadError, MemShelf, MemSink, MemSource, Name, NameTable, Shelf, SigId,
    Signals, Sink, Source, SureShelf, SureSink, SureSource,
};
use std::test::Fail;

#[test]
fn spells_names(rt: HostRuntime) -> Result<(), Fail> {
    let longest = [b'x'; 64];
    let too_long = [b'x'; 65];
    for bytes in [b"a".as_slice(), b"Off2", b"_", b"a_b1", &longest] {
        assert!(rt; Name::new(bytes).is_ok(), "{bytes:?}");
    }
    for bytes in [
        b"".as_slice(),
        b"when",
        b"toSaved",
        b"1a",
        b"a b",
        b"a-",
        b"\xc3\xa9",
        &too_long,
    ] {
        assert!(rt; Name::new(bytes).is_err(), "{bytes:?}");
    }
    Ok(())
}

#[test]
fn numbers_names(rt: HostRuntime) -> Result<(), Fail> {
    let mut table = NameTable::new(rt.alloc());
    let a = Name::new(b"a")?;
    let b = Name::new(b"b")?;
    assert_eq!(rt; table.len(), 0);
    assert_eq!(rt; table.add(a), Ok(SigId(0)));
    assert_eq!(rt; table.len(), 1);
    assert_eq!(rt; table.add(b), Ok(SigId(1)));
    assert_eq!(rt; table.len(), 2);
    assert_eq!(rt; table.add(a), Err(AddError::Duplicate(SigId(0))));
    assert_eq!(rt; table.find(b"b"), Some(SigId(1)));
    assert_eq!(rt; table.find(b"c"), None);
    assert_eq!(rt; table.find(b"when"), None);
    assert!(rt; table.get(1) == Some(&b));
    assert!(rt; table.get(2).is_none());
    Ok(())
}

#[test]
fn keeps_sets(rt: HostRuntime) -> Result<(), Fail> {
    let mut set = Signals::new(rt.alloc(), 2)?;
    assert_eq!(rt; set.len(), 2);
    assert!(rt; !set.get(0) && !set.get(1));
    set.set(1, true);
    assert_eq!(rt; set.len(), 2);
    assert!(rt; !set.get(0) && set.get(1));
    set.clear();
    assert_eq!(rt; set.len(), 2);
    assert!(rt; !set.get(1));
    Ok(())
}

#[test]
fn fakes_fail_where_listed(rt: HostRuntime) -> Result<(), Fail> {
    let alloc = rt.alloc();
    let mut files = Vec::new(alloc);
    let name = String::from_str(alloc, "a")?;
    files.push((name, b"first".to_vec(alloc)?))?;
    let name = String::from_str(alloc, "a")?;
    files.push((name, b"second".to_vec(alloc)?))?;

    let mut shelf = MemShelf::new(files, vec![in alloc; 1u32]?);
    assert!(rt; gives(shelf.load(alloc, "a"), b"first"));
    assert!(rt; fails(shelf.load(alloc, "a"), LoadError::Failed));
    assert!(rt; fails(shelf.load(alloc, "b"), LoadError::Failed));

    let mut source = MemSource::slow(b"ab".to_vec(alloc)?, 1, vec![in alloc; 1u32]?);
    let mut buf = [0; 4];
    assert_eq!(rt; source.pull(&mut buf), Ok(1));
    assert_eq!(rt; source.pull(&mut buf), Err(Failed));
    assert_eq!(rt; source.pull(&mut buf), Ok(1));
    assert_eq!(rt; source.pull(&mut buf), Ok(0));

    let mut sink = MemSink::slow(alloc, 3, 2, vec![in alloc; 1u32]?)?;
    assert_eq!(rt; sink.push(b"abc"), Ok(2));
    assert_eq!(rt; sink.push(b"c"), Err(Failed));
    assert_eq!(rt; sink.push(b"cd"), Ok(1));
    assert_eq!(rt; sink.push(b"d"), Err(Failed));
    assert!(rt; sink.bytes() == b"abc".as_slice());
    Ok(())
}

#[test]
fn sure_devices_give_all(rt: HostRuntime) -> Result<(), Fail> {
    let alloc = rt.alloc();
    let mut shelf = SureShelf::new(Vec::new(alloc));
    assert!(rt; gives(shelf.load(alloc, "a"), b""));

    let mut source = SureSource::new(b"ab".to_vec(alloc)?);
    let mut buf = [0; 1];
    assert_eq!(rt; source.pull(&mut buf), Ok(1));
    assert_eq!(rt; source.pull(&mut buf), Ok(1));
    assert_eq!(rt; source.pull(&mut buf), Ok(0));

    let mut sink = SureSink::new(alloc, 1)?;
    assert_eq!(rt; sink.push(b"ab"), Ok(1));
    assert_eq!(rt; sink.push(b"b"), Err(Failed));
    assert!(rt; sink.bytes() == b"a".as_slice());
    Ok(())
}
