//! Files of lines, taken and refused.

use super::*;
use sizes::MOST_FILE_BYTES;
use std::alloc::{AllocError, Global};
use std::test::Fail;

// How many bytes the first line says, all of them ab; what stands behind it; and how many bytes the file says, or its first bad line.
const FILES: [(usize, &[u8], Result<usize, LinesError>); 14] = [
    (0, b"", Err(LinesError::BadLine(1))),
    (1, b"", Ok(1)),
    (63, b"", Ok(63)),
    (64, b"", Ok(64)),
    (65, b"", Err(LinesError::BadLine(1))),
    (63, b"image 00\n", Err(LinesError::BadLine(1))),
    (64, b"image 09af\n", Ok(66)),
    (64, b"image 09af", Err(LinesError::BadLine(2))),
    (64, b"image 09aF\n", Err(LinesError::BadLine(2))),
    (64, b"image 09ag\n", Err(LinesError::BadLine(2))),
    (64, b"image 09a\n", Err(LinesError::BadLine(2))),
    (64, b"image  09\n", Err(LinesError::BadLine(2))),
    (64, b"images 09\n", Err(LinesError::BadLine(2))),
    (64, b"\n", Err(LinesError::BadLine(2))),
];

// A file whose first line says so many bytes, with others behind it.
fn file_of(alloc: Global, count: usize, rest: &[u8]) -> Result<Vec<u8>, AllocError> {
    let mut file = Vec::new(alloc);
    file.extend_from_slice(b"image ")?;
    for _ in 0..count {
        file.extend_from_slice(b"ab")?;
    }
    file.push(b'\n')?;
    file.extend_from_slice(rest)?;
    Ok(file)
}

// How many digits a stand before and behind a character in a line; and how many bytes the line says, or that it is bad.
const LINES: [(usize, u8, usize, Result<usize, LinesError>); 12] = [
    (0, b'0', 127, Ok(64)),
    (64, b'9', 63, Ok(64)),
    (127, b'f', 0, Ok(64)),
    (0, b'A', 127, Err(LinesError::BadLine(1))),
    (63, b'F', 64, Err(LinesError::BadLine(1))),
    (127, b'A', 0, Err(LinesError::BadLine(1))),
    (0, b'/', 127, Err(LinesError::BadLine(1))),
    (64, b':', 63, Err(LinesError::BadLine(1))),
    (126, b'`', 1, Err(LinesError::BadLine(1))),
    (127, b'g', 0, Err(LinesError::BadLine(1))),
    (127, b'\n', 0, Err(LinesError::BadLine(1))),
    (126, b'\n', 1, Err(LinesError::BadLine(1))),
];

// A line of digits a, with a character among them.
fn line_with(alloc: Global, before: usize, c: u8, behind: usize) -> Result<Vec<u8>, AllocError> {
    let mut line = Vec::new(alloc);
    line.extend_from_slice(b"image ")?;
    for _ in 0..before {
        line.push(b'a')?;
    }
    line.push(c)?;
    for _ in 0..behind {
        line.push(b'a')?;
    }
    line.push(b'\n')?;
    Ok(line)
}

// How many bytes a file says.
fn count_of(alloc: Global, file: &[u8]) -> Result<usize, LinesError> {
    if MOST_FILE_BYTES < file.len() {
        return Err(LinesError::Memory);
    }
    let bytes = read_lines(alloc, file)?;
    Ok(bytes.len())
}

#[test]
fn files_say_bytes_or_have_a_bad_line(rt: HostRuntime) -> Result<(), Fail> {
    assert_eq!(rt; count_of(rt.alloc(), b""), Err(LinesError::BadLine(1)));
    for (count, rest, expected) in FILES {
        let file = file_of(rt.alloc(), count, rest)?;
        assert_eq!(rt;
            count_of(rt.alloc(), file.as_slice()),
            expected,
            "{count} {rest:?}"
        );
    }
    Ok(())
}

#[test]
fn full_lines_are_of_digits_alone(rt: HostRuntime) -> Result<(), Fail> {
    for (before, c, behind, expected) in LINES {
        let line = line_with(rt.alloc(), before, c, behind)?;
        assert_eq!(rt;
            count_of(rt.alloc(), line.as_slice()),
            expected,
            "{before} {c} {behind}"
        );
    }
    Ok(())
}
