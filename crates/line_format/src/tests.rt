//! That cutting, reading and writing of numbers succeed, on worked bytes.
use crate::{LineReader, push_number, read_number};
use std::test::Fail;

#[test]
fn numbers_stay_at_the_largest(rt: HostRuntime) -> Result<(), Fail> {
    let rows: [(&[u8], Option<u64>); 7] = [
        (b"0", Some(0)),
        (b"65536", Some(65_536)),
        (b"18446744073709551615", Some(u64::MAX)),
        (b"18446744073709551616", Some(u64::MAX)),
        (b"00", None),
        (b"", None),
        (b"1a", None),
    ];
    for (bytes, number) in rows {
        assert_eq!(rt; read_number(bytes), number);
    }
    let mut text = Vec::new(rt.alloc());
    push_number(&mut text, 0)?;
    push_number(&mut text, u64::MAX)?;
    assert_eq!(rt; text.as_slice(), b"018446744073709551615".as_slice());
    Ok(())
}

#[test]
fn lines_end_with_a_line_feed(rt: HostRuntime) -> Result<(), Fail> {
    let mut reader = LineReader::new(b"a\n\nb");
    assert_eq!(rt; reader.next_line().ok_or("a line")?, b"a".as_slice());
    Ok(())
}
