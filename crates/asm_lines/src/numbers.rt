ghost use Rattle.std.specs.Prelude.{◌≡◌, ◌-◌, ◌<◌, ◌^◌, IsTrue};
ghost use Rattle.script_text.specs.Numbers.{is_decimal, is_hexadecimal, digit, spelled, is_hex_marked, within};
ghost use Rattle.asm_lines.specs.Kinds.{natural, raw_word};

/// Whether a byte is a decimal digit.
#[inline]
pub(crate) fn is_decimal(b: u8) -> bool
    ensures { result ≡ is_decimal b }
{
    (b'0'..=b'9').contains(&b)
}

/// Whether a byte is a hexadecimal digit, of either case.
fn is_hexadecimal(b: u8) -> bool
    ensures { result ≡ is_hexadecimal b }
{
    is_decimal(b) || (b'A'..=b'F').contains(&b) || (b'a'..=b'f').contains(&b)
}

/// What a decimal digit stands for.
#[inline]
fn decimal_digit(b: u8) -> u8
    requires { IsTrue (is_decimal b) }
    ensures value { result ≡ digit b }
    ensures small { result < 10 }
{
    b - b'0'
}

/// What a hexadecimal digit stands for.
fn hexadecimal_digit(b: u8) -> u8
    requires { IsTrue (is_hexadecimal b) }
    ensures value { result ≡ digit b }
    ensures small { result < 16 }
{
    if b <= b'9' {
        b - b'0'
    } else if b <= b'F' {
        b - b'A' + 10
    } else {
        b - b'a' + 10
    }
}

/// The number of at most 32 bits that decimal digits are.
pub(crate) fn natural(digits: &[u8]) -> Option<u32>
    ensures { result ≡ within 0 (2 ^ 32 - 1) (natural digits.now) }
{
    if digits.is_empty() {
        return None;
    }
    let mut n: u32 = 0;
    for b in digits {
        if !is_decimal(*b) {
            return None;
        }
        let d = u32::from(decimal_digit(*b));
        if n > (u32::MAX - d) / 10 {
            return None;
        }
        n = 10 * n + d;
    }
    Some(n)
}

/// The number of at most 32 bits that hexadecimal digits are.
fn hexadecimal(digits: &[u8]) -> Option<u32>
    ensures { result ≡ within 0 (2 ^ 32 - 1) (spelled 16 is_hexadecimal digits.now) }
{
    if digits.is_empty() {
        return None;
    }
    let mut n: u32 = 0;
    for b in digits {
        if !is_hexadecimal(*b) {
            return None;
        }
        let d = u32::from(hexadecimal_digit(*b));
        if n > (u32::MAX - d) / 16 {
            return None;
        }
        n = 16 * n + d;
    }
    Some(n)
}

/// Whether a word begins as a hexadecimal number does.
fn is_hex_marked(word: &[u8]) -> bool
    ensures { result ≡ is_hex_marked word.now }
{
    word.len() >= 2 && &word[..2] == b"0x".as_slice()
}

/// The number of 32 bits that a word is.
#[tactic(auto, unfolding(crate::specs::Kinds::raw_word))]
pub(crate) fn raw_word(word: &[u8]) -> Option<u32>
    ensures { result ≡ raw_word word.now }
{
    if is_hex_marked(word) {
        hexadecimal(&word[2..])
    } else {
        natural(word)
    }
}
