//! What each row of extension M makes of two values, a line a row.

ghost use Rattle.std.specs.Prelude.{◌≡◌, IsTrue};
ghost use Rattle.rv_decode.specs.Table.{is_multiplication};
ghost use Rattle.rv_mul.specs.Multiplication.{multiplied};

use crate::arithmetic::{
    high, low_word, mixed_product, quotient, remainder, signed_product, signed_word, unsigned_high,
    unsigned_quotient, unsigned_remainder,
};
use rv_decode::Name;
use rv_execute::extended_word;

/// What the row of a name of extension M makes of the values of rs1 and rs2 (RISC-V Unprivileged ISA, chapter '"M" Extension for
/// Integer Multiplication and Division'). Nothing traps: where the divisor is 0 the quotient has all bits set, and the remainder is
/// the dividend; the least signed number by -1 is that number, and leaves 0.
#[inline(always)]
pub fn multiply(name: Name, a: u64, b: u64) -> u64
    requires { IsTrue (is_multiplication name) }
    ensures { result ≡ multiplied name a b }
{
    match name {
        Name::Mul => a.wrapping_mul(b),
        Name::Mulh => high(signed_product(a.cast_signed(), b.cast_signed())),
        Name::Mulhsu => high(mixed_product(a.cast_signed(), b)),
        Name::Mulhu => unsigned_high(a, b),
        Name::Div => quotient(a.cast_signed(), b.cast_signed()),
        Name::Divu => unsigned_quotient(a, b),
        Name::Rem => remainder(a.cast_signed(), b.cast_signed()).cast_unsigned(),
        Name::Remu => unsigned_remainder(a, b),
        Name::Mulw => extended_word(a.wrapping_mul(b)),
        Name::Divw => extended_word(quotient(signed_word(a), signed_word(b))),
        Name::Divuw => extended_word(unsigned_quotient(low_word(a), low_word(b))),
        Name::Remw => extended_word(remainder(signed_word(a), signed_word(b)).cast_unsigned()),
        Name::Remuw => extended_word(unsigned_remainder(low_word(a), low_word(b))),
        _ => unreachable!(),
    }
}
