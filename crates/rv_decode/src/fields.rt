//! The fields of a word, format by format. The immediates are those of the section "Immediate Encoding Variants" of
//! the RISC-V Unprivileged ISA manual.

ghost use Rattle.std.specs.Prelude.{◌≡◌, ℕ, ◌<◌, ◌≤◌};
ghost use Rattle.rv_decode.specs.declared.names.Format.TheVariants.{R, I, S, B, U, J, H6, H5, N};
ghost use Rattle.rv_decode.specs.Fields.{field, sign_extended, imm_of, HasFields};

use crate::instruction::Instr;
use crate::names::Name;

// What bits 12 and 20 of an immediate count.
const BIT_12: u32 = 1 << 12;

const BIT_20: u32 = 1 << 20;

#[inline]
fn rd(word: u32) -> u8
    ensures { result ≡ field word 7 5 }
{
    ((word >> 7) % 32) as u8
}

#[inline]
fn rs1(word: u32) -> u8
    ensures { result ≡ field word 15 5 }
{
    ((word >> 15) % 32) as u8
}

#[inline]
fn rs2(word: u32) -> u8
    ensures { result ≡ field word 20 5 }
{
    ((word >> 20) % 32) as u8
}

/// The number whose two's complement of `count` bits is `bits`.
#[inline]
fn signed(bits: u32, count: u32) -> i64
    requires some { 0 < count }
    requires within { count ≤ 32 }
    ensures { result ≡ sign_extended count bits }
{
    let bits = i64::from(bits);
    if bits < 1 << (count - 1) {
        bits
    } else {
        bits - (1 << count)
    }
}

#[inline]
fn immediate_i(word: u32) -> i64
    ensures { result ≡ imm_of I word }
{
    signed(word >> 20, 12)
}

#[inline]
fn immediate_s(word: u32) -> i64
    ensures { result ≡ imm_of S word }
{
    signed((word >> 25) * 32 + (word >> 7) % 32, 12)
}

#[inline]
fn immediate_b(word: u32) -> i64
    ensures { result ≡ imm_of B word }
{
    let high = (word >> 31) * BIT_12 + (word >> 7) % 2 * 2048;
    signed(high + (word >> 25) % 64 * 32 + (word >> 8) % 16 * 2, 13)
}

#[inline]
fn immediate_u(word: u32) -> i64
    ensures { result ≡ imm_of U word }
{
    signed((word >> 12) * BIT_12, 32)
}

#[inline]
fn immediate_j(word: u32) -> i64
    ensures { result ≡ imm_of J word }
{
    let high = (word >> 31) * BIT_20 + (word >> 12) % 256 * BIT_12;
    signed(high + (word >> 20) % 2 * 2048 + (word >> 21) % 1024 * 2, 21)
}

#[inline]
pub fn r_format(name: Name, word: u32) -> Instr
    ensures { HasFields R name word result }
{
    Instr {
        name,
        rd: rd(word),
        rs1: rs1(word),
        rs2: rs2(word),
        imm: 0,
    }
}

#[inline]
pub fn i_format(name: Name, word: u32) -> Instr
    ensures { HasFields I name word result }
{
    Instr {
        name,
        rd: rd(word),
        rs1: rs1(word),
        rs2: 0,
        imm: immediate_i(word),
    }
}

#[inline]
pub fn s_format(name: Name, word: u32) -> Instr
    ensures { HasFields S name word result }
{
    Instr {
        name,
        rd: 0,
        rs1: rs1(word),
        rs2: rs2(word),
        imm: immediate_s(word),
    }
}

#[inline]
pub fn b_format(name: Name, word: u32) -> Instr
    ensures { HasFields B name word result }
{
    Instr {
        name,
        rd: 0,
        rs1: rs1(word),
        rs2: rs2(word),
        imm: immediate_b(word),
    }
}

#[inline]
pub fn u_format(name: Name, word: u32) -> Instr
    ensures { HasFields U name word result }
{
    Instr {
        name,
        rd: rd(word),
        rs1: 0,
        rs2: 0,
        imm: immediate_u(word),
    }
}

#[inline]
pub fn j_format(name: Name, word: u32) -> Instr
    ensures { HasFields J name word result }
{
    Instr {
        name,
        rd: rd(word),
        rs1: 0,
        rs2: 0,
        imm: immediate_j(word),
    }
}

#[inline]
pub fn h6_format(name: Name, word: u32) -> Instr
    ensures { HasFields H6 name word result }
{
    Instr {
        name,
        rd: rd(word),
        rs1: rs1(word),
        rs2: 0,
        imm: i64::from((word >> 20) % 64),
    }
}

#[inline]
pub fn h5_format(name: Name, word: u32) -> Instr
    ensures { HasFields H5 name word result }
{
    Instr {
        name,
        rd: rd(word),
        rs1: rs1(word),
        rs2: 0,
        imm: i64::from((word >> 20) % 32),
    }
}

#[inline]
pub fn n_format(name: Name) -> Instr
    ensures { (word : ℕ) → HasFields N name word result }
{
    Instr {
        name,
        rd: 0,
        rs1: 0,
        rs2: 0,
        imm: 0,
    }
}
