//! Which name a word of one major opcode has. The opcode is bits 0 to 6 of the word, as in the table "RISC-V base
//! opcode map" of the RISC-V Unprivileged ISA manual; each match tests the bits of its rows' masks.

ghost use Rattle.std.specs.Prelude.{◌≡◌, bit_and};
ghost use Rattle.rv_decode.specs.declared.names.Format.TheVariants.{R, I, S, B, H6, H5, N};
ghost use Rattle.rv_decode.specs.Table.{is_base};
ghost use Rattle.rv_decode.specs.Meaning.{Names, Means};

use crate::fields::{h5_format, h6_format, i_format};
use crate::instruction::Instr;
use crate::names::Name;

/// The branches.
#[inline]
pub fn branch(word: u32) -> Option<Name>
    requires { bit_and word 0x7F ≡ 0x63 }
    ensures { Names B word result }
{
    match word & 0x707F {
        0x0063 => Some(Name::Beq),
        0x1063 => Some(Name::Bne),
        0x4063 => Some(Name::Blt),
        0x5063 => Some(Name::Bge),
        0x6063 => Some(Name::Bltu),
        0x7063 => Some(Name::Bgeu),
        _ => None,
    }
}

/// The loads.
#[inline]
pub fn load(word: u32) -> Option<Name>
    requires { bit_and word 0x7F ≡ 0x03 }
    ensures { Names I word result }
{
    match word & 0x707F {
        0x0003 => Some(Name::Lb),
        0x1003 => Some(Name::Lh),
        0x2003 => Some(Name::Lw),
        0x3003 => Some(Name::Ld),
        0x4003 => Some(Name::Lbu),
        0x5003 => Some(Name::Lhu),
        0x6003 => Some(Name::Lwu),
        _ => None,
    }
}

/// The stores.
#[inline]
pub fn store(word: u32) -> Option<Name>
    requires { bit_and word 0x7F ≡ 0x23 }
    ensures { Names S word result }
{
    match word & 0x707F {
        0x0023 => Some(Name::Sb),
        0x1023 => Some(Name::Sh),
        0x2023 => Some(Name::Sw),
        0x3023 => Some(Name::Sd),
        _ => None,
    }
}

/// The jump to a register.
#[inline]
pub fn jump_to_register(word: u32) -> Option<Name>
    requires { bit_and word 0x7F ≡ 0x67 }
    ensures { Names I word result }
{
    match word & 0x707F {
        0x0067 => Some(Name::Jalr),
        _ => None,
    }
}

/// The fence.
#[inline]
pub fn fence(word: u32) -> Option<Name>
    requires { bit_and word 0x7F ≡ 0x0F }
    ensures { Names I word result }
{
    match word & 0x707F {
        0x000F => Some(Name::Fence),
        _ => None,
    }
}

/// The calls of the environment.
#[inline]
pub fn system(word: u32) -> Option<Name>
    requires { bit_and word 0x7F ≡ 0x73 }
    ensures { Names N word result }
{
    match word {
        0x0073 => Some(Name::Ecall),
        0x0010_0073 => Some(Name::Ebreak),
        _ => None,
    }
}

/// Arithmetic of two registers.
#[inline]
pub fn register(word: u32) -> Option<Name>
    requires { bit_and word 0x7F ≡ 0x33 }
    ensures { Names R word result }
{
    match word & 0xFE00_707F {
        0x0033 => Some(Name::Add),
        0x4000_0033 => Some(Name::Sub),
        0x1033 => Some(Name::Sll),
        0x2033 => Some(Name::Slt),
        0x3033 => Some(Name::Sltu),
        0x4033 => Some(Name::Xor),
        0x5033 => Some(Name::Srl),
        0x4000_5033 => Some(Name::Sra),
        0x6033 => Some(Name::Or),
        0x7033 => Some(Name::And),
        _ => None,
    }
}

/// Arithmetic of the low words of two registers.
#[inline]
pub fn register_word(word: u32) -> Option<Name>
    requires { bit_and word 0x7F ≡ 0x3B }
    ensures { Names R word result }
{
    match word & 0xFE00_707F {
        0x003B => Some(Name::Addw),
        0x4000_003B => Some(Name::Subw),
        0x103B => Some(Name::Sllw),
        0x503B => Some(Name::Srlw),
        0x4000_503B => Some(Name::Sraw),
        _ => None,
    }
}

/// The left shift by an amount of six bits.
#[inline]
fn left_shift(word: u32) -> Option<Name>
    requires { bit_and word 0x707F ≡ 0x1013 }
    ensures { Names H6 word result }
{
    match word & 0xFC00_707F {
        0x1013 => Some(Name::Slli),
        _ => None,
    }
}

/// The right shifts by an amount of six bits.
#[inline]
fn right_shift(word: u32) -> Option<Name>
    requires { bit_and word 0x707F ≡ 0x5013 }
    ensures { Names H6 word result }
{
    match word & 0xFC00_707F {
        0x5013 => Some(Name::Srli),
        0x4000_5013 => Some(Name::Srai),
        _ => None,
    }
}

/// The left shift of a low word by an amount of five bits.
#[inline]
fn left_shift_word(word: u32) -> Option<Name>
    requires { bit_and word 0x707F ≡ 0x101B }
    ensures { Names H5 word result }
{
    match word & 0xFE00_707F {
        0x101B => Some(Name::Slliw),
        _ => None,
    }
}

/// The right shifts of a low word by an amount of five bits.
#[inline]
fn right_shift_word(word: u32) -> Option<Name>
    requires { bit_and word 0x707F ≡ 0x501B }
    ensures { Names H5 word result }
{
    match word & 0xFE00_707F {
        0x501B => Some(Name::Srliw),
        0x4000_501B => Some(Name::Sraiw),
        _ => None,
    }
}

/// Arithmetic of a register and an immediate.
#[inline]
#[tactic(auto, using(crate::proofs::MeansInstr::means_instr))]
pub fn immediate(word: u32) -> Option<Instr>
    requires { bit_and word 0x7F ≡ 0x13 }
    ensures { Means is_base word result }
{
    match word & 0x707F {
        0x0013 => Some(i_format(Name::Addi, word)),
        0x1013 => Some(h6_format(left_shift(word)?, word)),
        0x2013 => Some(i_format(Name::Slti, word)),
        0x3013 => Some(i_format(Name::Sltiu, word)),
        0x4013 => Some(i_format(Name::Xori, word)),
        0x5013 => Some(h6_format(right_shift(word)?, word)),
        0x6013 => Some(i_format(Name::Ori, word)),
        0x7013 => Some(i_format(Name::Andi, word)),
        _ => None,
    }
}

/// Arithmetic of the low word of a register and an immediate.
#[inline]
#[tactic(auto, using(crate::proofs::MeansInstr::means_instr))]
pub fn immediate_word(word: u32) -> Option<Instr>
    requires { bit_and word 0x7F ≡ 0x1B }
    ensures { Means is_base word result }
{
    match word & 0x707F {
        0x001B => Some(i_format(Name::Addiw, word)),
        0x101B => Some(h5_format(left_shift_word(word)?, word)),
        0x501B => Some(h5_format(right_shift_word(word)?, word)),
        _ => None,
    }
}
