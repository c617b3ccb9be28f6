ghost use Rattle.std.specs.Prelude.{◌≡◌, ◌-◌, ◌^◌, ◌==◌, pos, Some, None, MatchOption, Option, IfSome};
ghost use Rattle.std.specs.List.{list_all};
ghost use Rattle.std.specs.Prelude.{neg_ℤ};
ghost use Rattle.std.specs.Option.{option_map};
ghost use Rattle.script_text.specs.Numbers.{within};
ghost use Rattle.rv_decode.specs.Encodable.{HasImmediate};
ghost use Rattle.asm_lines.specs.Kinds.{limited, has_leading_zero, register_number, register_word, signed_word, fits, placed, immediate_word, cut, closed, and_then, offset_word, is_letter, is_name_byte, is_label};

use crate::MOST_LABEL;
use crate::numbers::{is_decimal, natural};
use rv_decode::Format;

/// Whether a number of several digits begins with a zero.
fn has_leading_zero(digits: &[u8]) -> bool
    ensures { result ≡ has_leading_zero digits.now }
{
    digits.len() > 1 && digits[0] == b'0'
}

/// The number of a register.
fn register_number(bytes: &[u8]) -> Option<u8>
    ensures { result ≡ register_number bytes.now }
{
    if has_leading_zero(bytes) {
        return None;
    }
    let n = natural(bytes)?;
    if n <= 31 { Some(n as u8) } else { None }
}

/// The register that a word is.
pub(crate) fn register_word(word: &[u8]) -> Option<u8>
    ensures { result ≡ register_word word.now }
{
    if word.is_empty() {
        return None;
    }
    if word[0] != b'x' {
        return None;
    }
    register_number(&word[1..])
}

/// A number that may be missing, negated.
fn negated(n: Option<u32>) -> Option<i64>
    ensures { result ≡ option_map (λ n. neg_ℤ (pos n)) n }
{
    match n {
        Some(n) => Some(-i64::from(n)),
        None => None,
    }
}

/// The same with its sign as it is.
fn positive(n: Option<u32>) -> Option<i64>
    ensures { result ≡ option_map pos n }
{
    match n {
        Some(n) => Some(i64::from(n)),
        None => None,
    }
}

/// The number that a word is, with its sign, where it has at most 32 bits without it.
fn signed_word(word: &[u8]) -> Option<i64>
    ensures { result ≡ limited (signed_word word.now) }
{
    if word.is_empty() {
        return None;
    }
    if word[0] == b'-' {
        negated(natural(&word[1..]))
    } else {
        positive(natural(word))
    }
}

/// Whether a number is within the range of a format's immediates as they are written.
fn fits(format: Format, n: i64) -> bool
    ensures { result ≡ fits format n }
{
    match format {
        Format::I | Format::S => -2048 <= n && n < 2048,
        Format::B => -4096 <= n && n < 4096 && n % 2 == 0,
        Format::U => -524288 <= n && n < 524288,
        Format::J => -1048576 <= n && n < 1048576 && n % 2 == 0,
        Format::H6 => 0 <= n && n < 64,
        Format::H5 => 0 <= n && n < 32,
        Format::R | Format::N => false,
    }
}

/// The immediate that is written as a number.
fn scaled(format: Format, n: i64) -> Option<i64>
    ensures { result ≡ placed format n }
{
    if !fits(format, n) {
        return None;
    }
    match format {
        Format::U => Some(n * 4096),
        _ => Some(n),
    }
}

/// The immediate of an instruction's format that is written as a number, where the number is in its range.
pub fn placed(format: Format, n: i64) -> Option<i64>
    ensures is { result ≡ placed format n }
    ensures fits { IfSome result (HasImmediate format) }
{
    scaled(format, n)
}

/// The same of a number that may be missing.
fn placed_in(format: Format, n: Option<i64>) -> Option<i64>
    ensures { result ≡ and_then n (λ n. placed format n) }
{
    match n {
        Some(n) => scaled(format, n),
        None => None,
    }
}

/// The immediate that a word is.
pub(crate) fn immediate_word(format: Format, word: &[u8]) -> Option<i64>
    ensures { result ≡ immediate_word format word.now }
{
    placed_in(format, signed_word(word))
}

/// What stands before the first byte of that value, and what stands behind it.
#[inline]
pub(crate) fn cut(bytes: &[u8], at: u8) -> Option<(&[u8], &[u8])>
    ensures { MatchOption result (cut at bytes.now ≡ None) (λ p. cut at bytes.now ≡ Some (p.0.now, p.1.now)) }
{
    for (i, b) in bytes.iter().enumerate() {
        if *b == at {
            return Some((&bytes[..i], &bytes[i + 1..]));
        }
    }
    None
}

/// The register up to a parenthesis that is the last byte.
fn closed(text: &[u8]) -> Option<u8>
    ensures { result ≡ and_then (cut 41 text.now) closed }
{
    match cut(text, b')') {
        Some((register, end)) => {
            if end.is_empty() {
                register_word(register)
            } else {
                None
            }
        }
        None => None,
    }
}

/// The immediate and the register that a word of an address is.
#[tactic(auto, unfolding(crate::specs::Kinds::offset_word))]
pub(crate) fn offset_word(format: Format, word: &[u8]) -> Option<(i64, u8)>
    ensures { result ≡ offset_word format word.now }
{
    match cut(word, b'(') {
        Some((number, rest)) => match immediate_word(format, number) {
            Some(n) => match closed(rest) {
                Some(r) => Some((n, r)),
                None => None,
            },
            None => None,
        },
        None => None,
    }
}

/// Whether a byte is a letter.
fn is_letter(b: u8) -> bool
    ensures { result ≡ is_letter b }
{
    (b'A' <= b && b <= b'Z') || (b'a' <= b && b <= b'z')
}

/// Whether a byte may stand in a label's name.
fn is_name_byte(b: u8) -> bool
    ensures { result ≡ is_name_byte b }
{
    is_letter(b) || is_decimal(b) || b == b'_'
}

/// Whether each byte may stand in a label's name.
fn all_name_bytes(bytes: &[u8]) -> bool
    ensures { result ≡ list_all (λ b. is_name_byte b) bytes.now }
{
    bytes.iter().all(|b| is_name_byte(*b))
}

/// Whether a word is a label's name.
#[tactic(auto, unfolding(crate::specs::Kinds::is_label))]
pub(crate) fn is_label(word: &[u8]) -> bool
    ensures { result ≡ is_label word.now }
{
    !word.is_empty() && is_letter(word[0]) && word.len() <= MOST_LABEL && all_name_bytes(word)
}
