//! Products, quotients and remainders of 64 bits.

ghost use Rattle.std.specs.Prelude.{◌≡◌, pos, ◌*ℤ◌};
ghost use Rattle.rv_execute.specs.Arithmetic.{low_word};
ghost use Rattle.rv_mul.specs.Multiplication.{high, quotient, remainder, signed_word, doubleword};

/// The product of two signed numbers.
#[inline(always)]
pub(crate) fn signed_product(a: i64, b: i64) -> i128
    ensures { result ≡ a *ℤ b }
{
    i128::from(a) * i128::from(b)
}

/// The product of a signed number and an unsigned one.
#[inline(always)]
pub(crate) fn mixed_product(a: i64, b: u64) -> i128
    ensures { result ≡ a *ℤ pos b }
{
    i128::from(a) * i128::from(b)
}

/// The high 64 bits of a signed product.
#[inline(always)]
pub(crate) fn high(product: i128) -> u64
    ensures { result ≡ high product }
{
    (product.cast_unsigned() >> 64) as u64
}

/// The high 64 bits of the product of two unsigned numbers.
#[inline(always)]
pub(crate) fn unsigned_high(a: u64, b: u64) -> u64
    ensures { result ≡ high (pos a *ℤ pos b) }
{
    ((u128::from(a) * u128::from(b)) >> 64) as u64
}

/// The quotient of two signed numbers.
#[inline(always)]
pub(crate) fn quotient(a: i64, b: i64) -> u64
    ensures { result ≡ doubleword (quotient a b) }
{
    if b == 0 {
        u64::MAX
    } else {
        a.wrapping_div(b).cast_unsigned()
    }
}

/// The quotient of two unsigned numbers.
#[inline(always)]
pub(crate) fn unsigned_quotient(a: u64, b: u64) -> u64
    ensures { result ≡ doubleword (quotient (pos a) (pos b)) }
{
    if b == 0 { u64::MAX } else { a / b }
}

/// The remainder of two signed numbers.
#[inline(always)]
#[tactic(auto, using(crate::proofs::Divided::remainder_is))]
pub(crate) fn remainder(a: i64, b: i64) -> i64
    ensures { result ≡ remainder a b }
{
    if b == 0 { a } else { a.wrapping_rem(b) }
}

/// The remainder of two unsigned numbers.
#[inline(always)]
pub(crate) fn unsigned_remainder(a: u64, b: u64) -> u64
    ensures { result ≡ doubleword (remainder (pos a) (pos b)) }
{
    if b == 0 { a } else { a % b }
}

/// The low 32 bits.
#[inline(always)]
pub(crate) fn low_word(a: u64) -> u64
    ensures { result ≡ low_word a }
{
    a % 4_294_967_296
}

/// The low 32 bits as a signed number.
#[inline(always)]
pub(crate) fn signed_word(a: u64) -> i64
    ensures { result ≡ signed_word a }
{
    i64::from((low_word(a) as u32).cast_signed())
}
