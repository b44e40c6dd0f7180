//! Lines and traces: that calls succeed with ample memory, and what is read.
use crate::{LineKind, LineWriter, TraceError, WholeTrace, WriteFault, push_all};
use argos_base::{MemSink, MemSource, Name, NameTable, Signals, SureSink};
use std::test::Fail;

// The sets of a trace as numbers, one bit a name, up to its end or its first error.
fn read_all(
    rt: &HostRuntime,
    bytes: &[u8],
    fail: Vec<u32>,
) -> Result<(Vec<u32>, Result<bool, TraceError>), Fail> {
    let alloc = rt.alloc();
    let mut names = NameTable::new(alloc);
    names.add(Name::new(b"a")?)?;
    names.add(Name::new(b"b")?)?;
    let mut source = MemSource::slow(bytes.to_vec(alloc)?, 3, fail);
    let mut trace = WholeTrace::take(alloc, &mut source)?;
    let mut numbers = Vec::new(alloc);
    for _ in 0..bytes.len() {
        let mut set = Signals::new(alloc, names.len())?;
        match trace.next_set(&names, &mut set) {
            Ok(true) if set.len() == 2 => {
                numbers.push(u32::from(set.get(0)) + 2 * u32::from(set.get(1)))?;
            }
            end => return Ok((numbers, end)),
        }
    }
    let mut set = Signals::new(alloc, names.len())?;
    Ok((numbers, trace.next_set(&names, &mut set)))
}

#[test]
fn reads_sets(rt: HostRuntime) -> Result<(), Fail> {
    let alloc = rt.alloc();
    let bad = |number, kind| Err(TraceError::BadLine { number, kind });
    let rows: [(&[u8], &[u32], Result<bool, TraceError>); 12] = [
        (b"", &[], Ok(false)),
        (b"a\n-\nb", &[1, 0, 2], Ok(false)),
        (b"  b a  b \r\n - \n", &[3, 0], Ok(false)),
        (b"a\n\nb\n", &[1], bad(2, LineKind::Spelling)),
        (b"a - b\n", &[], bad(1, LineKind::Spelling)),
        (b"a\r", &[], bad(1, LineKind::Spelling)),
        (b"a\r\r\n", &[], bad(1, LineKind::Spelling)),
        (b"a\tb\n", &[], bad(1, LineKind::Spelling)),
        (b"c when\n", &[], bad(1, LineKind::Spelling)),
        (b"a c\n", &[], bad(1, LineKind::Unknown)),
        (b"a\nb\nab", &[1, 2], bad(3, LineKind::Unknown)),
        (b"a\n ", &[1], bad(2, LineKind::Spelling)),
    ];
    for (bytes, numbers, end) in rows {
        let read = read_all(&rt, bytes, Vec::new(alloc))?;
        assert!(rt; read.0.as_slice() == numbers);
        assert_eq!(rt; read.1, end);
    }
    Ok(())
}

// After a failure what stands behind the last LF is no line, however long it is.
#[test]
fn stops_pulling(rt: HostRuntime) -> Result<(), Fail> {
    let alloc = rt.alloc();
    let read = read_all(&rt, b"a\nb\nb", vec![in alloc; 1]?)?;
    assert!(rt; read.0.as_slice() == [1u32].as_slice());
    assert_eq!(rt; read.1, Err(TraceError::ReadFault { number: 2 }));

    let mut names = NameTable::new(alloc);
    names.add(Name::new(b"a")?)?;
    for (len, end) in [
        (
            65_535,
            Err(TraceError::BadLine {
                number: 1,
                kind: LineKind::Spelling,
            }),
        ),
        (
            65_536,
            Err(TraceError::BadLine {
                number: 1,
                kind: LineKind::TooLong,
            }),
        ),
        (1_048_577, Err(TraceError::Long)),
    ] {
        let mut source = MemSource::new(vec![in alloc; b'a'; len]?, Vec::new(alloc));
        let mut trace = WholeTrace::take(alloc, &mut source)?;
        let mut set = Signals::new(alloc, names.len())?;
        assert_eq!(rt; trace.next_set(&names, &mut set), end);
    }
    Ok(())
}

// A line is one piece: a sink that takes four bytes at a push and fails at its second one has the first four.
#[test]
fn writes_lines(rt: HostRuntime) -> Result<(), Fail> {
    let alloc = rt.alloc();
    let mut names = NameTable::new(alloc);
    names.add(Name::new(b"x")?)?;
    names.add(Name::new(b"y")?)?;
    names.add(Name::new(b"zz")?)?;
    let mut set = Signals::new(alloc, 3)?;
    let mut writer = LineWriter::begin(alloc, &names)?;
    let mut sink = SureSink::new(alloc, 16)?;
    assert_eq!(rt; writer.put_set(&mut sink, &names, &set), Ok(()));
    set.set(0, true);
    set.set(2, true);
    assert_eq!(rt; writer.put_set(&mut sink, &names, &set), Ok(()));
    assert!(rt; sink.bytes() == b"-\nx zz\n".as_slice());
    let mut failing = MemSink::slow(alloc, 16, 4, vec![in alloc; 1]?)?;
    assert_eq!(rt; writer.put_set(&mut failing, &names, &set), Err(WriteFault));
    assert!(rt; failing.bytes() == b"x zz".as_slice());
    push_all(&mut sink, b"end")?;
    assert!(rt; sink.bytes() == b"-\nx zz\nend".as_slice());
    Ok(())
}
