//! A line, and the lines of a file.

ghost use Rattle.std.specs.Prelude.{◌≤◌, ◌∷◌, [], length, codes, IfOk};
ghost use Rattle.std.specs.Option.{option_map};
ghost use Rattle.sizes.specs.declared.TheConstants.{MOST_FILE_BYTES};
ghost use Rattle.image_lines.specs.Reading.{Begins, ReadsBack, ReadsLine, ReadsLines};
ghost use Rattle.image_lines.specs.Said.{SaysLines};

use crate::digits::read_bytes;
use crate::lines_error::LinesError;
use sizes::LINE_BYTES;
use std::alloc::{AllocError, Global};

fn behind_word(text: &[u8]) -> Option<&[u8]>
    ensures { Begins (codes "image ") text.now (option_map (λ rest. rest.now) result) }
{
    match text {
        [b'i', b'm', b'a', b'g', b'e', b' ', rest @ ..] => Some(rest),
        _ => None,
    }
}

fn behind_end(text: &[u8]) -> Option<&[u8]>
    ensures { Begins (10 ∷ []) text.now (option_map (λ rest. rest.now) result) }
{
    match text {
        [b'\n', rest @ ..] => Some(rest),
        _ => None,
    }
}

/// Reads a line of 1 to 64 bytes, and answers what stands behind it; none where no such line stands there.
fn read_line<'a>(out: &mut Vec<u8>, text: &'a [u8]) -> Result<Option<&'a [u8]>, AllocError>
    ensures { IfOk result (λ found.
        ReadsLine out.old.items out.new.items text.now (option_map (λ rest. rest.now) found)) }
{
    let start = out.len();
    match behind_word(text) {
        None => Ok(None),
        Some(digits) => {
            let rest = read_bytes(out, digits)?;
            match behind_end(rest) {
                None => Ok(None),
                Some(after) => {
                    if out.len() == start {
                        return Ok(None);
                    }
                    if LINE_BYTES < out.len() - start {
                        return Ok(None);
                    }
                    Ok(Some(after))
                }
            }
        }
    }
}

/// The bytes that the lines of a file say, one behind the other. The file has at most 16 MiB.
///
/// `BadLine` with the first line that isn't well formed, 1 for an empty file: a line is `image`, one blank and lower-case digits, two for
/// each of its 64 bytes, or of its 1 to 64 where it is the last one, and it is ended by the byte 0A. `Memory` where there was none for
/// the bytes.
pub fn read_lines(alloc: Global, file: &[u8]) -> Result<Vec<u8>, LinesError>
    requires { length file.now ≤ MOST_FILE_BYTES }
    ensures lines { ReadsLines (λ v. v.items) file.now result }
    ensures printed { ReadsBack (λ v. v.items) file.now result }
    ensures said { SaysLines (λ v. v.items) file.now result }
{
    lines_of(alloc, file)
}

fn lines_of(alloc: Global, file: &[u8]) -> Result<Vec<u8>, LinesError>
    requires { length file.now ≤ MOST_FILE_BYTES }
    ensures { ReadsLines (λ v. v.items) file.now result }
{
    let mut out = Vec::with_capacity(alloc, file.len() / 2)?;
    let mut rest = file;
    let mut line = 1;
    'lines: loop {
        let start = out.len();
        match read_line(&mut out, rest)? {
            None => return Err(LinesError::BadLine(line)),
            Some(after) => {
                if after.is_empty() {
                    return Ok(out);
                }
                if out.len() - start < LINE_BYTES {
                    return Err(LinesError::BadLine(line));
                }
                rest = after;
                line += 1;
            }
        }
    }
}
