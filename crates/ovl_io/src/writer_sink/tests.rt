use super::WriterSink;
use crate::sink::Sink;
use crate::source::Failed;
use crate::tests::pour;
use std::io;
use std::io::Write;
use std::test::Fail;

// Takes at most two bytes a call, but its second call fails and its third takes nothing.
#[derive(Drop)]
struct Uneven {
    taken: Vec<u8>,
    calls: u32,
}

impl Write for Uneven {
    fn write(&mut self, piece: &[u8]) -> io::Result<usize> {
        self.calls = self.calls.saturating_add(1);
        if self.calls == 2 {
            return Err(io::Error::from(io::ErrorKind::BrokenPipe));
        }
        if self.calls == 3 {
            return Ok(0);
        }
        let n = piece.len().min(2);
        self.taken.extend_from_slice(&piece[..n])?;
        Ok(n)
    }

    fn flush(&mut self) -> io::Result<()> {
        Ok(())
    }
}

#[test]
fn its_writer_gets_the_bytes(rt: HostRuntime) {
    let mut sink = WriterSink::new(Vec::new(rt.alloc()));
    assert_eq!(rt; pour(&mut sink, b"abcdefg"), 0);
    assert_eq!(rt; pour(&mut sink, b"\0\xff"), 0);
    assert_eq!(rt; sink.write(b""), Ok(0));
    assert_eq!(rt; sink.writer.as_slice(), b"abcdefg\0\xff".as_slice());
    assert_eq!(rt; sink.faults, 0);
}

#[test]
fn counts_a_write_that_fails_or_takes_nothing_and_goes_on(rt: HostRuntime) {
    let mut sink = WriterSink::new(Uneven {
        taken: Vec::new(rt.alloc()),
        calls: 0,
    });
    // what is written, what is answered, and how many writes have failed
    let rows: [(&[u8], Result<usize, Failed>, u64); 6] = [
        (b"abcde", Ok(2), 0),
        (b"cde", Err(Failed), 1),
        (b"cde", Err(Failed), 2),
        (b"cde", Ok(2), 2),
        (b"", Ok(0), 2),
        (b"e", Ok(1), 2),
    ];
    for (piece, answer, faults) in rows {
        assert_eq!(rt; sink.write(piece), answer, "at {piece:?}");
        assert_eq!(rt; sink.faults, faults, "at {piece:?}");
    }
    assert_eq!(rt; sink.writer.taken.as_slice(), b"abcde".as_slice());
}
