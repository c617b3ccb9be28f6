//! Arithmetic of 64 bits that std's integers don't have under one name.

ghost use Rattle.std.specs.Prelude.{◌≡◌, ◌≤◌};
ghost use Rattle.rv_execute.specs.Arithmetic.{is_less_signed, flag, extended_word, shifted_left, shifted_right, shifted_right_signed};

/// Whether the first is less, as signed numbers.
#[inline(always)]
pub(crate) fn is_less_signed(a: u64, b: u64) -> bool
    ensures { result ≡ is_less_signed a b }
{
    a.cast_signed() < b.cast_signed()
}

/// The low 32 bits with their sign extended.
#[inline(always)]
pub fn extended_word(a: u64) -> u64
    ensures { result ≡ extended_word a }
{
    let low = (a % 4_294_967_296) as u32;
    i64::from(low.cast_signed()).cast_unsigned()
}

/// The value shifted to the left by less than 64 bits.
#[inline(always)]
pub(crate) fn shifted_left(a: u64, by: u64) -> u64
    requires { by ≤ 63 }
    ensures { result ≡ shifted_left a by }
{
    a << by
}

/// The value shifted to the right by less than 64 bits, without its sign.
#[inline(always)]
pub(crate) fn shifted_right(a: u64, by: u64) -> u64
    requires { by ≤ 63 }
    ensures { result ≡ shifted_right a by }
{
    a >> by
}

/// The value shifted to the right by less than 64 bits, with its sign.
#[inline(always)]
pub(crate) fn shifted_right_signed(a: u64, by: u64) -> u64
    requires { by ≤ 63 }
    ensures { result ≡ shifted_right_signed a by }
{
    (a.cast_signed() >> by).cast_unsigned()
}

/// The result of a comparison: 1 or 0.
#[inline(always)]
pub(crate) fn flag(holds: bool) -> u64
    ensures { result ≡ flag holds }
{
    u64::from(holds)
}
