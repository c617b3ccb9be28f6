ghost use Rattle.std.specs.Prelude.{◌≡◌, ◌&&◌, nat_le, codes, IfOk, IsTrue};
ghost use Rattle.std.specs.List.{list_all};
ghost use Rattle.script_text.specs.Kinds.{is_file_name, file_word, is_name_byte, is_checkpoint_name, checkpoint_word, turns_word, process_word, address_word, begins_with, has_leading_zero, register_number, register_word, pages_word, perms_word, dumped_word, words_word, is_hex, bytes_of_pairs, hex_word, is_all};
ghost use Rattle.script_text.specs.Numbers.{is_hexadecimal};

use crate::numbers::{digit, is_decimal, is_hexadecimal, number_between};
use crate::{
    MOST_CHECKPOINT_NAME, MOST_DUMPED, MOST_PAGES, MOST_POKED, MOST_TURNS, MOST_WORDS, PC_NUMBER,
};
use bitflags::Flags;
use ovl_io::{Bytes, Perms};
use sizes::{LAST_SPACE, MOST_FILE_NAME};
use std::alloc::{AllocError, Global};

/// Whether each byte is printable and no blank.
fn all_printable(bytes: &[u8]) -> bool
    ensures { result ≡ list_all (λ b. nat_le 33 b && nat_le b 126) bytes.now }
{
    bytes.iter().all(|b| 33 <= *b && *b <= 126)
}

/// Whether a word is a file's name.
fn is_file_name(word: &[u8]) -> bool
    ensures { result ≡ is_file_name word.now }
{
    if word.is_empty() || word.len() > MOST_FILE_NAME {
        return false;
    }
    all_printable(word)
}

/// The file that a word names.
pub(crate) fn file_word(alloc: Global, word: &[u8]) -> Result<Option<Bytes>, AllocError>
    ensures { IfOk result (λ name. name ≡ file_word word.now) }
{
    if !is_file_name(word) {
        return Ok(None);
    }
    Ok(Some(Bytes::new(Vec::from_slice(alloc, word)?)))
}

/// Whether a byte is a letter, a digit, `_` or `-`.
fn is_name_byte(b: u8) -> bool
    ensures { result ≡ is_name_byte b }
{
    is_decimal(b)
        || (b'A'..=b'Z').contains(&b)
        || (b'a'..=b'z').contains(&b)
        || b == b'_'
        || b == b'-'
}

/// Whether each byte may stand in a checkpoint's name.
fn all_name_bytes(bytes: &[u8]) -> bool
    ensures { result ≡ list_all (λ b. is_name_byte b) bytes.now }
{
    bytes.iter().all(|b| is_name_byte(*b))
}

/// Whether a word is a checkpoint's name.
fn is_checkpoint_name(word: &[u8]) -> bool
    ensures { result ≡ is_checkpoint_name word.now }
{
    if word.is_empty() || word.len() > MOST_CHECKPOINT_NAME {
        return false;
    }
    all_name_bytes(word)
}

/// The checkpoint's name that a word is.
pub(crate) fn checkpoint_word(alloc: Global, word: &[u8]) -> Result<Option<Bytes>, AllocError>
    ensures { IfOk result (λ name. name ≡ checkpoint_word word.now) }
{
    if !is_checkpoint_name(word) {
        return Ok(None);
    }
    Ok(Some(Bytes::new(Vec::from_slice(alloc, word)?)))
}

/// The number of turns that a word is.
pub(crate) fn turns_word(word: &[u8]) -> Option<u32>
    ensures { result ≡ turns_word word.now }
{
    Some(number_between(1, u64::from(MOST_TURNS), word)? as u32)
}

/// The process number that a word is.
pub(crate) fn process_word(word: &[u8]) -> Option<u16>
    ensures { result ≡ process_word word.now }
{
    Some(number_between(1, u64::from(LAST_SPACE), word)? as u16)
}

/// Whether a word begins as the name of a register does.
fn begins_with_x(word: &[u8]) -> bool
    ensures { result ≡ begins_with word.now (codes "x") }
{
    !word.is_empty() && &word[..1] == b"x".as_slice()
}

/// Whether digits begin with a zero that stands for nothing.
fn has_leading_zero(digits: &[u8]) -> bool
    ensures { result ≡ has_leading_zero digits.now }
{
    !digits.is_empty() && &digits[..1] == b"0".as_slice() && digits.len() != 1
}

/// The number of a register that digits are.
fn register_number(digits: &[u8]) -> Option<u8>
    ensures { result ≡ register_number digits.now }
{
    if has_leading_zero(digits) {
        return None;
    }
    Some(number_between(0, 31, digits)? as u8)
}

/// The register that a word names, by its number, or the pc.
pub(crate) fn register_word(word: &[u8]) -> Option<u8>
    ensures { result ≡ register_word word.now }
{
    if word == b"pc".as_slice() {
        Some(PC_NUMBER)
    } else if begins_with_x(word) {
        register_number(&word[1..])
    } else {
        None
    }
}

/// The address that a word is, or the value of a register.
pub(crate) fn address_word(word: &[u8]) -> Option<u64>
    ensures { result ≡ address_word word.now }
{
    number_between(0, u64::MAX, word)
}

/// The number of pages that a word is.
pub(crate) fn pages_word(word: &[u8]) -> Option<u32>
    ensures { result ≡ pages_word word.now }
{
    Some(number_between(1, u64::from(MOST_PAGES), word)? as u32)
}

/// The number of bytes to print that a word is.
pub(crate) fn dumped_word(word: &[u8]) -> Option<u32>
    ensures { result ≡ dumped_word word.now }
{
    Some(number_between(1, u64::from(MOST_DUMPED), word)? as u32)
}

/// The number of words to print that a word is.
pub(crate) fn words_word(word: &[u8]) -> Option<u32>
    ensures { result ≡ words_word word.now }
{
    Some(number_between(1, u64::from(MOST_WORDS), word)? as u32)
}

/// Whether each byte is a hexadecimal digit.
fn all_hexadecimal(bytes: &[u8]) -> bool
    ensures { result ≡ list_all is_hexadecimal bytes.now }
{
    bytes.iter().all(|b| is_hexadecimal(*b))
}

/// Whether a word is bytes in hexadecimal digits, two a byte.
fn is_hex(word: &[u8]) -> bool
    ensures { result ≡ is_hex word.now }
{
    if word.len() < 2 || word.len() > 2 * MOST_POKED || word.len() % 2 != 0 {
        return false;
    }
    all_hexadecimal(word)
}

/// The bytes that digits are, two a byte, of which the first is the higher.
fn bytes_of_pairs(alloc: Global, digits: &[u8]) -> Result<Vec<u8>, AllocError>
    requires { IsTrue (list_all is_hexadecimal digits.now) }
    ensures { IfOk result (λ bytes. bytes.items ≡ bytes_of_pairs digits.now) }
{
    let mut bytes = Vec::with_capacity(alloc, digits.len() / 2)?;
    'pairs: for i in 0..digits.len() / 2 {
        bytes.push(16 * digit(digits[2 * i]) + digit(digits[2 * i + 1]))?;
    }
    Ok(bytes)
}

/// The bytes that a word is.
pub(crate) fn hex_word(alloc: Global, word: &[u8]) -> Result<Option<Bytes>, AllocError>
    ensures { IfOk result (λ bytes. bytes ≡ hex_word word.now) }
{
    if !is_hex(word) {
        return Ok(None);
    }
    Ok(Some(Bytes::new(bytes_of_pairs(alloc, word)?)))
}

/// The permissions that a word is.
pub(crate) fn perms_word(word: &[u8]) -> Option<Perms>
    ensures { result ≡ perms_word word.now }
{
    if word == b"r".as_slice() {
        Some(Perms::R)
    } else if word == b"rw".as_slice() {
        Some(Perms::R.union(Perms::W))
    } else if word == b"x".as_slice() {
        Some(Perms::X)
    } else if word == b"rx".as_slice() {
        Some(Perms::R.union(Perms::X))
    } else if word == b"rwx".as_slice() {
        Some(Perms::R.union(Perms::W).union(Perms::X))
    } else {
        None
    }
}

/// Whether a word is the one that stands for each page.
pub(crate) fn is_all(word: &[u8]) -> bool
    ensures { result ≡ is_all word.now }
{
    word == b"all".as_slice()
}
