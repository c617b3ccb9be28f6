ghost use Rattle.std.specs.Prelude.{◌≢◌};

use crate::run_program;
use ovl_io::{CountSink, OneFileShelf, SureSource};
use std::alloc::Global;
use std::test::Fail;

// Over a source, a shelf and a sink that can't fail, no status says that one did.
fn run_surely(
    alloc: Global,
    words: &[String],
    script: &mut SureSource,
    shelf: &mut OneFileShelf,
    sink: &mut CountSink,
) -> u8
    ensures no_read_failed { result ≢ 3 }
    ensures no_write_failed { result ≢ 4 }
{
    run_program(alloc, words, script, shelf, sink)
}

// A file whose program exits with 7: addi x17, x0, 93; addi x10, x0, 7; ecall
const EXIT_7: &[u8] = b"\x7FELF\x02\x01\x01\0\0\0\0\0\0\0\0\0\x02\0\xF3\0\x01\0\0\0\
\x78\0\x01\0\0\0\0\0\x40\0\0\0\0\0\0\0\0\0\0\0\0\0\0\0\0\0\0\0\x40\0\x38\0\x01\0\0\0\0\0\0\0\
\x01\0\0\0\x05\0\0\0\x78\0\0\0\0\0\0\0\x78\0\x01\0\0\0\0\0\x78\0\x01\0\0\0\0\0\
\x0C\0\0\0\0\0\0\0\x0C\0\0\0\0\0\0\0\0\x10\0\0\0\0\0\0\x93\x08\xD0\x05\x13\x05\x70\0\x73\0\0\0";

#[test]
fn a_word_is_refused(rt: HostRuntime) -> Result<(), Fail> {
    assert_eq!(rt; EXIT_7.len(), 132);
    let words = [String::from_str(rt.alloc(), "--frames")?];
    let mut source = SureSource::new(Vec::from_slice(rt.alloc(), b"exec a.elf 10")?, 1);
    let mut shelf = OneFileShelf::new(Vec::from_slice(rt.alloc(), EXIT_7)?);
    let mut sink = CountSink::new();
    let status = run_surely(rt.alloc(), &words, &mut source, &mut shelf, &mut sink);
    assert_eq!(rt; (status, sink.count()), (2, 0));
    // nothing was taken of the script: the same source gives all of it to the next call
    let status = run_surely(rt.alloc(), &[], &mut source, &mut shelf, &mut sink);
    assert_eq!(rt; (status, sink.count()), (0, 55));
    Ok(())
}
