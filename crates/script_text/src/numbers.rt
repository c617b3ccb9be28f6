ghost use Rattle.std.specs.Prelude.{◌≡◌, ◌-◌, ◌^◌, ◌<◌, ◌≤◌, nat_le, length, IsTrue};
ghost use Rattle.std.specs.List.{list_all};
ghost use Rattle.script_text.specs.Numbers.{is_decimal, is_hexadecimal, digit, spelled, is_hex_marked, number_in, number_between, within};

/// Whether a byte is a decimal digit.
pub(crate) fn is_decimal(b: u8) -> bool
    ensures { result ≡ is_decimal b }
{
    (b'0'..=b'9').contains(&b)
}

/// Whether a byte is a hexadecimal digit, of either case.
pub(crate) fn is_hexadecimal(b: u8) -> bool
    ensures { result ≡ is_hexadecimal b }
{
    is_decimal(b) || (b'A'..=b'F').contains(&b) || (b'a'..=b'f').contains(&b)
}

/// What a digit stands for.
pub(crate) fn digit(b: u8) -> u8
    requires { IsTrue (is_hexadecimal b) }
    ensures value { result ≡ digit b }
    ensures small { result < 16 }
{
    if b <= b'9' {
        b - b'0'
    } else if b <= b'F' {
        b - b'A' + 10
    } else {
        b - b'a' + 10
    }
}

/// The number below 2^64 that decimal digits stand for.
fn decimal(digits: &[u8]) -> Option<u64>
    ensures { result ≡ within 0 (2 ^ 64 - 1) (spelled 10 is_decimal digits.now) }
{
    if digits.is_empty() {
        return None;
    }
    let mut n: u64 = 0;
    for b in digits {
        if !is_decimal(*b) {
            return None;
        }
        let d = u64::from(digit(*b));
        if n > (u64::MAX - d) / 10 {
            return None;
        }
        n = 10 * n + d;
    }
    Some(n)
}

/// The number below 2^64 that hexadecimal digits stand for.
fn hexadecimal(digits: &[u8]) -> Option<u64>
    ensures { result ≡ within 0 (2 ^ 64 - 1) (spelled 16 is_hexadecimal digits.now) }
{
    if digits.is_empty() {
        return None;
    }
    let mut n: u64 = 0;
    for b in digits {
        if !is_hexadecimal(*b) {
            return None;
        }
        let d = u64::from(digit(*b));
        if n > (u64::MAX - d) / 16 {
            return None;
        }
        n = 16 * n + d;
    }
    Some(n)
}

/// Whether a word begins as a hexadecimal number does.
fn is_hex_marked(word: &[u8]) -> bool
    ensures { result ≡ is_hex_marked word.now }
{
    word.len() >= 2 && &word[..2] == b"0x".as_slice()
}

/// The number below 2^64 that a word is.
fn number(word: &[u8]) -> Option<u64>
    ensures { result ≡ within 0 (2 ^ 64 - 1) (number_in word.now) }
{
    if is_hex_marked(word) {
        hexadecimal(&word[2..])
    } else {
        decimal(word)
    }
}

/// The number that a word is, where it lies in that range.
pub(crate) fn number_between(least: u64, most: u64, word: &[u8]) -> Option<u64>
    ensures is { result ≡ number_between least most word.now }
{
    match number(word) {
        Some(n) => {
            if least <= n && n <= most {
                Some(n)
            } else {
                None
            }
        }
        None => None,
    }
}
