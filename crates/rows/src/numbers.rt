use anyhow::{Context, Result};
use std::alloc::Global;

/// A number, in decimal or, after 0x, in hexadecimal.
pub fn number(word: &str) -> Result<u64> {
    let parsed = match word.strip_prefix("0x") {
        Some(digits) => u64::from_str_radix(digits, 16),
        None => word.parse::<u64>(),
    };
    parsed.context(format_args!("a number is wanted, and not {word:?}"))
}

/// A number of bytes.
pub fn size(word: &str) -> Result<usize> {
    Ok(usize::try_from(number(word)?)?)
}

/// The numbers that a text says, with blanks between them.
pub fn numbers(alloc: Global, text: &str) -> Result<Vec<u64>> {
    let mut all = Vec::new(alloc);
    for word in text.split_ascii_whitespace() {
        all.push(number(word)?)?;
    }
    Ok(all)
}

/// The numbers of calls that a text says.
pub fn calls(alloc: Global, text: &str) -> Result<Vec<u32>> {
    let mut all = Vec::new(alloc);
    for word in text.split_ascii_whitespace() {
        all.push(u32::try_from(number(word)?)?)?;
    }
    Ok(all)
}

/// The byte that two hexadecimal digits say.
pub fn byte(digits: &str) -> Result<u8> {
    u8::from_str_radix(digits, 16).context(format_args!(
        "a byte in hexadecimal is wanted, and not {digits:?}"
    ))
}

/// The bytes that a text says, each by two hexadecimal digits, with blanks between them.
pub fn bytes(alloc: Global, text: &str) -> Result<Vec<u8>> {
    let mut all = Vec::new(alloc);
    for digits in text.split_ascii_whitespace() {
        all.push(byte(digits)?)?;
    }
    Ok(all)
}

/// The bytes of the 32-bit words that a text says in hexadecimal, each from its low byte on.
pub fn words(alloc: Global, text: &str) -> Result<Vec<u8>> {
    let mut all = Vec::new(alloc);
    for digits in text.split_ascii_whitespace() {
        let word = u32::from_str_radix(digits, 16).context(format_args!(
            "a word in hexadecimal is wanted, and not {digits:?}"
        ))?;
        all.extend_from_slice(&word.to_le_bytes())?;
    }
    Ok(all)
}

/// The bytes of a text in which a backslash and two hexadecimal digits stand for a byte.
pub fn unescaped(alloc: Global, text: &str) -> Result<Vec<u8>> {
    let mut all = Vec::new(alloc);
    let (plain, escapes) = match text.split_once('\\') {
        Some((plain, escapes)) => (plain, Some(escapes)),
        None => (text, None),
    };
    all.extend_from_slice(plain.as_bytes())?;
    if let Some(escapes) = escapes {
        for piece in escapes.split('\\') {
            let (digits, plain) = piece
                .split_at_checked(2)
                .context("two digits are wanted behind a backslash")?;
            all.push(byte(digits)?)?;
            all.extend_from_slice(plain.as_bytes())?;
        }
    }
    Ok(all)
}
