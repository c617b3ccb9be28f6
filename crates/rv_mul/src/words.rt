//! Words of extension M: which instruction each is, and back.

ghost use Rattle.std.specs.Prelude.{◌≡◌, ℕ, ◌<◌, ◌^◌, Some, IfSome};
ghost use Rattle.rv_decode.specs.declared.names.Format.TheVariants.{R};
ghost use Rattle.rv_decode.specs.Encodable.{IsEncodableBy};
ghost use Rattle.rv_decode.specs.Meaning.{Means, NamesBy};
ghost use Rattle.rv_decode.specs.Table.{is_multiplication};
ghost use Rattle.rv_mul.specs.Tables.{is_any, meaning_m};

use rv_decode::{Decoder, Instr, Name, decode, word_of};

/// The name of the row that the word fits, if it fits any.
#[inline(always)]
fn name_of(word: u32) -> Option<Name>
    ensures { NamesBy is_multiplication R word result }
{
    match word & 0xFE00_707F {
        0x0200_0033 => Some(Name::Mul),
        0x0200_1033 => Some(Name::Mulh),
        0x0200_2033 => Some(Name::Mulhsu),
        0x0200_3033 => Some(Name::Mulhu),
        0x0200_4033 => Some(Name::Div),
        0x0200_5033 => Some(Name::Divu),
        0x0200_6033 => Some(Name::Rem),
        0x0200_7033 => Some(Name::Remu),
        0x0200_003B => Some(Name::Mulw),
        0x0200_403B => Some(Name::Divw),
        0x0200_503B => Some(Name::Divuw),
        0x0200_603B => Some(Name::Remw),
        0x0200_703B => Some(Name::Remuw),
        _ => None,
    }
}

/// What the word means by the table of extension M.
#[inline(always)]
fn by_row(word: u32) -> Option<Instr>
    ensures { Means is_multiplication word result }
{
    let name = name_of(word)?;
    Some(Instr {
        name,
        rd: ((word >> 7) % 32) as u8,
        rs1: ((word >> 15) % 32) as u8,
        rs2: ((word >> 20) % 32) as u8,
        imm: 0,
    })
}

/// What the word is: no instruction exactly where no row of extension M fits it, and else the one instruction whose row fits.
#[inline(always)]
#[tactic(auto, using(crate::proofs::Meanings::meaning_m_is, crate::proofs::Meanings::encodable_m))]
pub fn decode_m(word: u32) -> Option<Instr>
    ensures exact { Means is_multiplication word result }
    ensures looked_up { result ≡ meaning_m word }
    ensures encodable { IfSome result (IsEncodableBy is_multiplication) }
{
    by_row(word)
}

/// The word of an instruction of extension M: the one word that means it, which `decode_m` makes the instruction of again.
pub fn encode_m(i: &Instr) -> u32
    requires { IsEncodableBy is_multiplication i.now }
    ensures meaning { Means is_multiplication result (Some i.now) }
    ensures decoded { meaning_m result ≡ Some i.now }
    ensures only { (word : ℕ) → word < 2 ^ 32
        → Means is_multiplication word (Some i.now) → result ≡ word }
{
    word_of(i)
}

/// The table of RV64I and extension M.
pub struct Rv64im;

impl Decoder for Rv64im {
    ghost has = { is_any };

    #[inline(always)]
    fn decode(word: u32) -> Option<Instr> {
        match decode_m(word) {
            Some(i) => Some(i),
            None => decode(word),
        }
    }
}
