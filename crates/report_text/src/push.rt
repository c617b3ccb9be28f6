ghost use Rattle.std.specs.Prelude.{◌≡◌, ◌+◌, ◌*◌, ◌^◌, ◌<◌, ◌≤◌, ◌++◌, [], length, map, flat_map, codes, pos, int_lt, if◌then◌else◌};
ghost use Rattle.std.specs.List.{list_all};
ghost use Rattle.std.specs.Int.Digits.{digits_of};
ghost use Rattle.arrayvec.specs.ArrayVec.{array_vec_len};
ghost use Rattle.hex.specs.Hex.{encode_lower};
ghost use Rattle.report_text.specs.Digits.{hex_digit, hex_places, in_decimal, signed_text, address_text, word_text};
ghost use Rattle.report_text.specs.Texts.{is_plain, byte_text};

use crate::{LINE_ROOM, ROW_BYTES};
use arrayvec::ArrayVec;
use itoa::Buffer;
use sizes::LINE_BYTES;

/// The two hexadecimal digits of each byte, from 0 on.
static DIGITS_OF_BYTES: [u8; 512] = *b"\
    000102030405060708090a0b0c0d0e0f\
    101112131415161718191a1b1c1d1e1f\
    202122232425262728292a2b2c2d2e2f\
    303132333435363738393a3b3c3d3e3f\
    404142434445464748494a4b4c4d4e4f\
    505152535455565758595a5b5c5d5e5f\
    606162636465666768696a6b6c6d6e6f\
    707172737475767778797a7b7c7d7e7f\
    808182838485868788898a8b8c8d8e8f\
    909192939495969798999a9b9c9d9e9f\
    a0a1a2a3a4a5a6a7a8a9aaabacadaeaf\
    b0b1b2b3b4b5b6b7b8b9babbbcbdbebf\
    c0c1c2c3c4c5c6c7c8c9cacbcccdcecf\
    d0d1d2d3d4d5d6d7d8d9dadbdcdddedf\
    e0e1e2e3e4e5e6e7e8e9eaebecedeeef\
    f0f1f2f3f4f5f6f7f8f9fafbfcfdfeff";

/// A line of the report, with its end; two lines at a breakpoint.
pub type Line = ArrayVec<u8, LINE_ROOM>;

pub(crate) fn push_text(line: &mut Line, text: &[u8])
    requires { array_vec_len line.old + length text.now ≤ LINE_ROOM }
    ensures text { line.new.items ≡ line.old.items ++ text.now }
    ensures len { array_vec_len line.new ≡ array_vec_len line.old + length text.now }
{
    let _ = line.try_extend_from_slice(text);
}

/// A number in decimal digits, at most 20. Most numbers of a line have one digit or two, which are put by themselves.
pub(crate) fn push_decimal(line: &mut Line, n: u64)
    requires { array_vec_len line.old + 20 ≤ LINE_ROOM }
    ensures text { line.new.items ≡ line.old.items ++ in_decimal n }
    ensures len { array_vec_len line.new ≤ array_vec_len line.old + 20 }
{
    if n < 10 {
        line.push(b'0' + n as u8);
    } else if n < 100 {
        push_text(line, &[b'0' + (n / 10) as u8, b'0' + (n % 10) as u8]);
    } else {
        push_long_decimal(line, n);
    }
}

/// The same for a number of more digits: three or four are put by themselves too. It stands apart, so that the
/// short ways are short where they are used.
#[inline(never)]
fn push_long_decimal(line: &mut Line, n: u64)
    requires many { 100 ≤ n }
    requires room { array_vec_len line.old + 20 ≤ LINE_ROOM }
    ensures text { line.new.items ≡ line.old.items ++ in_decimal n }
    ensures len { array_vec_len line.new ≤ array_vec_len line.old + 20 }
{
    let last = b'0' + (n % 10) as u8;
    let tens = b'0' + (n / 10 % 10) as u8;
    if n < 1_000 {
        push_text(line, &[b'0' + (n / 100) as u8, tens, last]);
    } else if n < 10_000 {
        let hundreds = b'0' + (n / 100 % 10) as u8;
        push_text(line, &[b'0' + (n / 1_000) as u8, hundreds, tens, last]);
    } else {
        push_any_decimal(line, n);
    }
}

/// The same for a number of any length. It stands apart, so that the others take no room for its digits.
#[inline(never)]
fn push_any_decimal(line: &mut Line, n: u64)
    requires { array_vec_len line.old + 20 ≤ LINE_ROOM }
    ensures text { line.new.items ≡ line.old.items ++ in_decimal n }
    ensures len { array_vec_len line.new ≤ array_vec_len line.old + 20 }
{
    let mut buffer = Buffer::new();
    push_text(line, buffer.format(n).as_bytes());
}

/// A blank, and the sign of a number that is below zero.
fn push_sign(line: &mut Line, n: i64)
    requires { array_vec_len line.old + 2 ≤ LINE_ROOM }
    ensures text { line.new.items ≡ line.old.items ++ codes " " ++ (if int_lt n (pos 0) then codes "-" else []) }
    ensures len { array_vec_len line.new ≤ array_vec_len line.old + 2 }
{
    if n < 0 {
        push_text(line, b" -");
    } else {
        line.push(b' ');
    }
}

/// A number in decimal digits behind a blank and its sign, at most 22 characters.
pub(crate) fn push_signed(line: &mut Line, n: i64)
    requires { array_vec_len line.old + 22 ≤ LINE_ROOM }
    ensures text { line.new.items ≡ line.old.items ++ codes " " ++ signed_text n }
    ensures len { array_vec_len line.new ≤ array_vec_len line.old + 22 }
{
    push_sign(line, n);
    push_decimal(line, n.unsigned_abs());
}

fn hex_digit(d: u8) -> u8
    requires { d < 16 }
    ensures { result ≡ hex_digit d }
{
    if d < 10 { b'0' + d } else { b'a' + (d - 10) }
}

/// The hexadecimal digits of a number of at most so many places; none for zero.
fn push_digits(line: &mut Line, n: u64, places: u32)
    requires small { n < 16 ^ places }
    requires room { array_vec_len line.old + places ≤ LINE_ROOM }
    ensures text { line.new.items ≡ line.old.items ++ map hex_digit (digits_of 16 n) }
    ensures len { array_vec_len line.new ≤ array_vec_len line.old + places }
{
    if n > 0 {
        push_digits(line, n / 16, places - 1);
        line.push(hex_digit((n % 16) as u8));
    }
}

/// An address in hexadecimal digits, at most 16, behind `0x`.
#[tactic(auto, unfolding(crate::specs::Digits::address_text))]
pub(crate) fn push_address(line: &mut Line, address: u64)
    requires { array_vec_len line.old + 18 ≤ LINE_ROOM }
    ensures text { line.new.items ≡ line.old.items ++ address_text address }
    ensures len { array_vec_len line.new ≤ array_vec_len line.old + 18 }
{
    push_text(line, b"0x");
    if address == 0 {
        line.push(b'0');
    } else {
        push_digits(line, address, 16);
    }
}

/// The two hexadecimal digits of a byte.
fn byte_digits(b: u8) -> [u8; 2]
    ensures { result ≡ hex_places 2 b }
{
    let at = 2 * usize::from(b);
    [DIGITS_OF_BYTES[at], DIGITS_OF_BYTES[at + 1]]
}

/// A word of 64 bits in 16 hexadecimal digits, those of its bytes from the highest on.
pub(crate) fn push_word(line: &mut Line, n: u64)
    requires { array_vec_len line.old + 16 ≤ LINE_ROOM }
    ensures text { line.new.items ≡ line.old.items ++ word_text n }
    ensures len { array_vec_len line.new ≤ array_vec_len line.old + 16 }
{
    let [a, b, c, d, e, f, g, h] = n.to_be_bytes();
    let digits = [
        byte_digits(a),
        byte_digits(b),
        byte_digits(c),
        byte_digits(d),
        byte_digits(e),
        byte_digits(f),
        byte_digits(g),
        byte_digits(h),
    ];
    push_text(line, digits.as_flattened());
}

/// A word of 32 bits in 8 hexadecimal digits.
pub(crate) fn push_short_word(line: &mut Line, n: u32)
    requires { array_vec_len line.old + 8 ≤ LINE_ROOM }
    ensures text { line.new.items ≡ line.old.items ++ hex_places 8 n }
    ensures len { array_vec_len line.new ≤ array_vec_len line.old + 8 }
{
    let [a, b, c, d] = n.to_be_bytes();
    let digits = [
        byte_digits(a),
        byte_digits(b),
        byte_digits(c),
        byte_digits(d),
    ];
    push_text(line, digits.as_flattened());
}

/// Bytes of memory, at most 16, for each a blank and its two hexadecimal digits.
pub(crate) fn push_dumped(line: &mut Line, bytes: &[u8])
    requires row { length bytes.now ≤ ROW_BYTES }
    requires room { array_vec_len line.old + 3 * ROW_BYTES ≤ LINE_ROOM }
    ensures text { line.new.items ≡ line.old.items ++ flat_map (λ b. codes " " ++ hex_places 2 b) bytes.now }
    ensures len { array_vec_len line.new ≤ array_vec_len line.old + 3 * ROW_BYTES }
{
    let mut text = [0u8; 3 * ROW_BYTES];
    'bytes: for i in 0..bytes.len() {
        text[3 * i] = b' ';
        text[3 * i + 1] = hex_digit(bytes[i] / 16);
        text[3 * i + 2] = hex_digit(bytes[i] % 16);
    }
    push_text(line, &text[..3 * bytes.len()]);
}

/// At most 64 bytes in hexadecimal digits, two a byte. Here and above digits are put together in a piece of
/// memory of their own, a loop over which is short code, and of many bytes vector code, and then put into the
/// line at once.
pub(crate) fn push_hex(line: &mut Line, bytes: &[u8])
    requires few { length bytes.now ≤ LINE_BYTES }
    requires room { array_vec_len line.old + 2 * LINE_BYTES ≤ LINE_ROOM }
    ensures text { line.new.items ≡ line.old.items ++ encode_lower bytes.now }
    ensures len { array_vec_len line.new ≤ array_vec_len line.old + 2 * LINE_BYTES }
{
    let mut digits = [0u8; 2 * LINE_BYTES];
    'bytes: for i in 0..bytes.len() {
        digits[2 * i] = hex_digit(bytes[i] / 16);
        digits[2 * i + 1] = hex_digit(bytes[i] % 16);
    }
    push_text(line, &digits[..2 * bytes.len()]);
}

/// Whether a byte stands for itself in a text.
fn is_plain(b: u8) -> bool
    ensures { result ≡ is_plain b }
{
    (32..=126).contains(&b) && b != b'\\'
}

/// One byte that a process wrote.
fn push_byte(line: &mut Line, b: u8)
    requires { array_vec_len line.old + 3 ≤ LINE_ROOM }
    ensures text { line.new.items ≡ line.old.items ++ byte_text b }
    ensures len { array_vec_len line.new ≤ array_vec_len line.old + 3 }
{
    if is_plain(b) {
        line.push(b);
    } else {
        line.push(b'\\');
        line.push(hex_digit(b / 16));
        line.push(hex_digit(b % 16));
    }
}

/// Whether each byte stands for itself. It looks at all of them, whatever the first ones are, so that of many it
/// is vector code.
fn are_plain(bytes: &[u8]) -> bool
    ensures { result ≡ list_all is_plain bytes.now }
{
    let mut plain = true;
    for b in bytes {
        plain &= is_plain(*b);
    }
    plain
}

/// Bytes that a process wrote, one by one.
fn push_each_byte(line: &mut Line, bytes: &[u8])
    requires { array_vec_len line.old + 3 * length bytes.now ≤ LINE_ROOM }
    ensures text { line.new.items ≡ line.old.items ++ flat_map byte_text bytes.now }
    ensures len { array_vec_len line.new ≤ array_vec_len line.old + 3 * length bytes.now }
{
    for b in bytes {
        push_byte(line, *b);
    }
}

/// The bytes that a process wrote: at once, where each stands for itself. A single one is put without a look at others.
pub(crate) fn push_bytes(line: &mut Line, bytes: &[u8])
    requires { array_vec_len line.old + 3 * length bytes.now ≤ LINE_ROOM }
    ensures text { line.new.items ≡ line.old.items ++ flat_map byte_text bytes.now }
    ensures len { array_vec_len line.new ≤ array_vec_len line.old + 3 * length bytes.now }
{
    if let [b] = bytes {
        push_byte(line, *b);
    } else if are_plain(bytes) {
        push_text(line, bytes);
    } else {
        push_each_byte(line, bytes);
    }
}
