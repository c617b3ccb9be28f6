use super::ReaderSource;
use crate::source::{Failed, Source};
use crate::tests::drain;
use std::io;
use std::io::{Cursor, Read};
use std::test::Fail;

// Gives its bytes, but its second call fails.
#[derive(Drop)]
struct FailsOnce<'a> {
    bytes: &'a [u8],
    calls: u32,
}

impl<'a> Read for FailsOnce<'a> {
    fn read(&mut self, into: &mut [u8]) -> io::Result<usize> {
        self.calls = self.calls.saturating_add(1);
        if self.calls == 2 {
            return Err(io::Error::from(io::ErrorKind::BrokenPipe));
        }
        self.bytes.read(into)
    }
}

#[test]
fn gives_the_bytes_of_its_reader(rt: HostRuntime) -> Result<(), Fail> {
    let mut over_slice = ReaderSource::new(b"abcdefg".as_slice());
    let (bytes, failures) = drain(rt.alloc(), &mut over_slice)?;
    assert_eq!(rt; bytes.as_slice(), b"abcdefg".as_slice());
    assert_eq!(rt; failures, 0);
    assert_eq!(rt; over_slice.faults, 0);

    let mut over_cursor = ReaderSource::new(Cursor::new(b"\0\xff".as_slice()));
    let (bytes, failures) = drain(rt.alloc(), &mut over_cursor)?;
    assert_eq!(rt; bytes.as_slice(), b"\0\xff".as_slice());
    assert_eq!(rt; failures, 0);
    Ok(())
}

#[test]
fn counts_a_failed_read_and_goes_on(rt: HostRuntime) {
    let mut source = ReaderSource::new(FailsOnce {
        bytes: b"abcde",
        calls: 0,
    });
    let mut buffer = [0; 3];
    // what each read answers, what then stands in the buffer, and how many reads have failed
    for (answer, held, faults) in [
        (Ok(3), *b"abc", 0),
        (Err(Failed), *b"abc", 1),
        (Ok(2), *b"dec", 1),
        (Ok(0), *b"dec", 1),
    ] {
        assert_eq!(rt; source.read(&mut buffer), answer);
        assert_eq!(rt; buffer, held);
        assert_eq!(rt; source.faults, faults);
    }
}
