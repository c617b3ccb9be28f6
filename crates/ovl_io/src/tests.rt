use crate::{
    Bytes, Failed, MemoryShelf, MemorySink, OneFileShelf, Perms, Shelf, ShelfError, Sink, Source,
};
use bitflags::Flags;
use std::alloc::{AllocError, Global};
use std::process::Abort;
use std::test::Fail;

const TEXT: &[u8] = b"abcdefg";

// Reads to the end by threes and goes on after a failure: the bytes, and how many reads failed.
pub fn drain<S: Source>(alloc: Global, source: &mut S) -> Result<(Vec<u8>, u32), AllocError> {
    let mut all = Vec::new(alloc);
    let mut failures = 0u32;
    for _ in 0..20 {
        let mut piece = [0; 3];
        match source.read(&mut piece) {
            Ok(0) => break,
            Ok(n) => all.extend_from_slice(&piece[..n])?,
            Err(Failed) => failures = failures.saturating_add(1),
        }
    }
    Ok((all, failures))
}

// Writes until all is taken, in at most 10 calls, and goes on after a failure: how many writes failed.
pub fn pour<K: Sink>(sink: &mut K, bytes: &[u8]) -> u32 {
    let mut rest = bytes;
    let mut failures = 0u32;
    for _ in 0..10 {
        if rest.is_empty() {
            break;
        }
        match sink.write(rest) {
            Ok(n) => rest = &rest[n..],
            Err(Failed) => failures = failures.saturating_add(1),
        }
    }
    failures
}

// Fetches a file, and asserts what is answered and what is told of it afterwards.
pub fn assert_fetch<S: Shelf>(
    rt: &impl Abort,
    alloc: Global,
    shelf: &mut S,
    name: &[u8],
    want: Result<&[u8], ShelfError>,
) {
    assert!(rt; !name.is_empty() && name.len() <= 255);
    match (shelf.fetch(alloc, name), want) {
        (Ok(file), Ok(bytes)) => {
            assert!(rt; file.as_slice() == bytes, "another file of {name:?}");
            assert!(rt; shelf.refused().is_none(), "{name:?} was given");
        }
        (Err(answer), Err(wanted)) => {
            assert_eq!(rt; answer, wanted, "at {name:?}");
            match shelf.refused() {
                Some(refusal) => {
                    assert_eq!(rt; refusal.name(), name);
                    assert_eq!(rt; refusal.answer(), wanted);
                }
                None => assert!(rt; wanted == ShelfError::TooLong, "nothing told of {name:?}"),
            }
        }
        _ => panic!(rt; "the wrong kind of answer at {name:?}"),
    }
}

#[test]
fn perms_contain_and_join(rt: HostRuntime) {
    assert_eq!(rt;
        [Perms::R.bits(), Perms::W.bits(), Perms::X.bits()],
        [4, 2, 1]
    );
    // two sets of bits, whether the first has all of the second, and what they come to together
    for (left, right, contains, union) in [
        (0, 0, true, 0),
        (4, 4, true, 4),
        (5, 1, true, 5),
        (1, 5, false, 5),
        (4, 2, false, 6),
        (7, 3, true, 7),
        (0, 1, false, 1),
    ] {
        let perms = Perms::from_bits_retain(left);
        let need = Perms::from_bits_retain(right);
        assert_eq!(rt; perms.contains(need), contains, "{left} and {right}");
        assert_eq!(rt; perms.union(need).bits(), union, "{left} and {right}");
    }
}

#[test]
fn bytes_are_copied(rt: HostRuntime) -> Result<(), Fail> {
    let bytes = Bytes::new(b"\0name\xff".to_vec(rt.alloc())?);
    let copy = bytes.copy()?;
    assert_eq!(rt; copy.as_slice(), b"\0name\xff".as_slice());
    assert_eq!(rt; bytes.as_slice(), copy.as_slice());
    Ok(())
}

#[test]
fn a_sink_takes_what_it_has_room_for(rt: HostRuntime) -> Result<(), Fail> {
    // the room, the most bytes a call, the calls that fail, and then what is taken of the text and how
    // many of at most 10 writes fail
    let rows: [(usize, usize, &[u32], &[u8], u32); 6] = [
        (7, 1, &[], TEXT, 0),
        (9, 100, &[], TEXT, 0),
        (7, 7, &[0], TEXT, 1),
        (7, 3, &[2, 1], TEXT, 2),
        (5, 2, &[], b"abcde", 7),
        (0, 1, &[], b"", 10),
    ];
    for (room, most, fails, taken, failures) in rows {
        assert!(rt; most > 0);
        let mut sink = MemorySink::new(rt.alloc(), room, most, fails.to_vec(rt.alloc())?)?;
        assert_eq!(rt;
            pour(&mut sink, TEXT),
            failures,
            "room {room}, {most} a call, {fails:?} fail"
        );
        assert_eq!(rt;
            sink.taken(),
            taken,
            "room {room}, {most} a call, {fails:?} fail"
        );
        assert_eq!(rt; sink.write(b""), Ok(0), "an empty piece needs no room");
    }
    Ok(())
}

#[test]
fn a_file_has_at_most_16_mib(rt: HostRuntime) -> Result<(), Fail> {
    let most = Bytes::new(Vec::from_elem(rt.alloc(), 7u8, 16_777_216)?);
    let more = Bytes::new(Vec::from_elem(rt.alloc(), 7u8, 16_777_217)?);
    let whole = most.copy()?;
    let mut files = Vec::new(rt.alloc());
    files.push((Bytes::new(b"most".to_vec(rt.alloc())?), most))?;
    files.push((Bytes::new(b"more".to_vec(rt.alloc())?), more))?;
    let mut shelf = MemoryShelf::new(files, Vec::new(rt.alloc()));
    assert_fetch(&rt, rt.alloc(), &mut shelf, b"most", Ok(whole.as_slice()));
    assert_fetch(
        &rt,
        rt.alloc(),
        &mut shelf,
        b"more",
        Err(ShelfError::TooLong),
    );
    Ok(())
}

#[test]
fn one_file_stands_under_every_name(rt: HostRuntime) -> Result<(), Fail> {
    let mut shelf = OneFileShelf::new(b"image".to_vec(rt.alloc())?);
    assert_fetch(&rt, rt.alloc(), &mut shelf, b"a", Ok(b"image"));
    assert_fetch(&rt, rt.alloc(), &mut shelf, b"\xff", Ok(b"image"));
    let mut shelf = OneFileShelf::new(Vec::from_elem(rt.alloc(), 7u8, 16_777_217)?);
    assert_fetch(&rt, rt.alloc(), &mut shelf, b"a", Err(ShelfError::TooLong));
    Ok(())
}
