//! Bytes as two digits each.

ghost use Rattle.std.specs.Prelude.{◌≡◌, ◌<◌, [], Some, IfOk, IfSome};
ghost use Rattle.image_lines.specs.Reading.{HaveBytes, IsByteOf, IsDigit, ReadsBytes};

use sizes::LINE_BYTES;
use std::alloc::AllocError;

fn digit_of(c: u8) -> Option<u8>
    ensures { IsDigit c result }
{
    if c < b'0' {
        None
    } else if c <= b'9' {
        Some(c - b'0')
    } else if c < b'a' {
        None
    } else if c <= b'f' {
        Some(c - b'a' + 10)
    } else {
        None
    }
}

fn byte_of(high: u8, low: u8) -> Option<u8>
    ensures { IsByteOf high low result }
{
    match digit_of(high) {
        None => None,
        Some(a) => match digit_of(low) {
            None => None,
            Some(b) => Some(16 * a + b),
        },
    }
}

// How many digits a full line has.
const LINE_DIGITS: usize = 2 * LINE_BYTES;

// What stands for a character that is no digit: more than each digit's value.
const NO_DIGIT: u8 = 16;

/// The value of a digit, or `NO_DIGIT`.
#[inline(always)]
fn value_of(c: u8) -> u8
    ensures { result < NO_DIGIT → IsDigit c (Some result) }
{
    digit_of(c).unwrap_or(NO_DIGIT)
}

/// The bytes that a full line's digits say; none where one of them is no digit.
fn full_line(digits: &[u8; LINE_DIGITS]) -> Option<[u8; LINE_BYTES]>
    ensures { IfSome result (λ bytes. HaveBytes [] bytes digits.now []) }
{
    let mut bytes = [0; LINE_BYTES];
    let mut most = 0u8;
    'pairs: for i in 0..LINE_BYTES {
        let high = value_of(digits[2 * i]);
        let low = value_of(digits[2 * i + 1]);
        bytes[i] = high.wrapping_mul(16).wrapping_add(low);
        most = most.max(high).max(low);
    }
    if most < NO_DIGIT { Some(bytes) } else { None }
}

/// Reads a full line's bytes where its digits stand there, and answers what stands behind them; else it reads none.
fn read_full_line<'a>(out: &mut Vec<u8>, text: &'a [u8]) -> Result<&'a [u8], AllocError>
    ensures { IfOk result (λ rest. HaveBytes out.old.items out.new.items text.now rest.now) }
{
    match text.split_first_chunk::<LINE_DIGITS>() {
        None => Ok(text),
        Some((digits, rest)) => match full_line(digits) {
            None => Ok(text),
            Some(bytes) => {
                out.extend_from_slice(&bytes)?;
                Ok(rest)
            }
        },
    }
}

/// Reads bytes as far as digits say them, two digits at a time, and answers what stands behind.
fn read_pairs<'a>(out: &mut Vec<u8>, text: &'a [u8]) -> Result<&'a [u8], AllocError>
    ensures { IfOk result (λ rest. ReadsBytes out.old.items out.new.items text.now rest.now) }
{
    let mut rest = text;
    'bytes: while let [high, low, after @ ..] = rest {
        match byte_of(*high, *low) {
            None => return Ok(rest),
            Some(byte) => {
                out.push(byte)?;
                rest = after;
            }
        }
    }
    Ok(rest)
}

/// Reads bytes as far as digits say them, and answers what stands behind. A full line's are read at once.
pub(crate) fn read_bytes<'a>(out: &mut Vec<u8>, text: &'a [u8]) -> Result<&'a [u8], AllocError>
    ensures { IfOk result (λ rest. ReadsBytes out.old.items out.new.items text.now rest.now) }
{
    let behind = read_full_line(out, text)?;
    read_pairs(out, behind)
}
