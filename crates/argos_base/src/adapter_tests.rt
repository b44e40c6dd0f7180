//! That the adapters reach real files and streams, flush, and count what fails.
use crate::{
    Failed, FileShelf, LoadError, Shelf, Sink, Source, StdinSource, StdoutSink, TEXT_LIMIT,
};
use std::fs::File;
use std::io::{Read, Write};
use std::test::Fail;
use std::{fs, io};

/// Whether a load gave these bytes.
pub fn gives(loaded: Result<Vec<u8>, LoadError>, bytes: &[u8]) -> bool {
    match loaded {
        Ok(file) => file.as_slice() == bytes,
        Err(_) => false,
    }
}

/// Whether a load answered this error.
pub fn fails(loaded: Result<Vec<u8>, LoadError>, error: LoadError) -> bool {
    match loaded {
        Ok(_) => false,
        Err(answered) => answered == error,
    }
}

// Counts its flushes, and fails at the one with the number `bad_flush`.
#[derive(Drop)]
struct CountingWriter {
    flushes: u8,
    bad_flush: u8,
}

impl Write for CountingWriter {
    fn write(&mut self, buf: &[u8]) -> io::Result<usize> {
        Ok(buf.len())
    }

    fn flush(&mut self) -> io::Result<()> {
        self.flushes = self.flushes.saturating_add(1);
        if self.flushes == self.bad_flush {
            return Err(io::ErrorKind::Other.into());
        }
        Ok(())
    }
}

// Gives one byte, and fails from then on.
#[derive(Drop)]
struct FailsBehindOne {
    given: bool,
}

impl Read for FailsBehindOne {
    fn read(&mut self, buf: &mut [u8]) -> io::Result<usize> {
        if self.given || buf.is_empty() {
            return Err(io::ErrorKind::Other.into());
        }
        self.given = true;
        buf[0] = b'a';
        Ok(1)
    }
}

#[test]
fn loads_real_files(rt: HostRuntime) -> Result<(), Fail> {
    let long = vec![in rt.alloc(); b'x'; TEXT_LIMIT + 1]?;
    fs::write(&rt, "short", b"argos 1;")?;
    fs::write(&rt, "long", long.as_slice())?;
    fs::write(&rt, "longest", &long[1..])?;
    let mut shelf = FileShelf::new(rt);
    assert!(rt; gives(shelf.load(rt.alloc(), "short"), b"argos 1;"));
    assert!(rt; gives(shelf.load(rt.alloc(), "longest"), &long[1..]));
    assert!(rt;
        fails(
            shelf.load(rt.alloc(), "long"),
            LoadError::TooLong(TEXT_LIMIT as u64 + 1)
        )
    );
    // a missing file, a folder, and a file that opens and can't be read
    for name in ["missing", ".", "/proc/self/mem"] {
        assert!(rt;
            fails(shelf.load(rt.alloc(), name), LoadError::Failed),
            "{name}"
        );
    }
    for name in ["short", "long", "longest"] {
        fs::remove_file(&rt, name)?;
    }
    Ok(())
}

#[test]
fn pulls_and_pushes_real_files(rt: HostRuntime) -> Result<(), Fail> {
    let mut sink = StdoutSink::new(File::create(&rt, "stream")?);
    assert_eq!(rt; sink.push(b"a\n-\n"), Ok(4));
    drop(sink);

    let mut source = StdinSource::new(File::open(&rt, "stream")?);
    let mut buf = [0; 16];
    assert_eq!(rt; source.pull(&mut buf), Ok(4));
    assert!(rt; &buf[..4] == b"a\n-\n".as_slice());
    assert_eq!(rt; source.pull(&mut buf), Ok(0));

    // a stream that can't be written, and one that can't be read
    let mut closed = StdoutSink::new(File::open(&rt, "stream")?);
    assert_eq!(rt; closed.push(b"a"), Err(Failed));
    let mut unreadable = StdinSource::new(File::create(&rt, "stream")?);
    assert_eq!(rt; unreadable.pull(&mut buf), Err(Failed));
    fs::remove_file(&rt, "stream")?;
    Ok(())
}

#[test]
fn each_push_is_flushed(rt: HostRuntime) -> Result<(), Fail> {
    let mut sink = StdoutSink::new(CountingWriter {
        flushes: 0,
        bad_flush: 3,
    });
    assert_eq!(rt; sink.push(b"a"), Ok(1));
    assert_eq!(rt; sink.push(b"b"), Ok(1));
    assert_eq!(rt; sink.push(b"c"), Err(Failed));
    assert_eq!(rt; sink.into_inner().flushes, 3);
    Ok(())
}

#[test]
fn a_source_may_fail_in_mid_stream(rt: HostRuntime) -> Result<(), Fail> {
    let mut source = StdinSource::new(FailsBehindOne { given: false });
    let mut buf = [0; 4];
    assert_eq!(rt; source.pull(&mut buf), Ok(1));
    assert_eq!(rt; source.pull(&mut buf), Err(Failed));
    Ok(())
}
