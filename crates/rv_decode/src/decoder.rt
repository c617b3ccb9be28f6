//! The decoder: nested tests of the opcode, then of the bits that tell its rows apart.

ghost use Rattle.std.specs.Prelude.{◌≡◌, IfSome};
ghost use Rattle.rv_decode.specs.Encodable.{IsEncodable};
ghost use Rattle.rv_decode.specs.Table.{is_base};
ghost use Rattle.rv_decode.specs.Meaning.{Means, meaning};

use crate::fields::{b_format, i_format, j_format, n_format, r_format, s_format, u_format};
use crate::groups::{
    branch, fence, immediate, immediate_word, jump_to_register, load, register, register_word,
    store, system,
};
use crate::instruction::Instr;
use crate::names::Name;

/// What the word means by the table of RV64I.
#[inline(always)]
#[tactic(auto, using(crate::proofs::MeansInstr::means_instr))]
fn by_opcode(word: u32) -> Option<Instr>
    ensures { Means is_base word result }
{
    match word & 0x7F {
        0x37 => Some(u_format(Name::Lui, word)),
        0x17 => Some(u_format(Name::Auipc, word)),
        0x6F => Some(j_format(Name::Jal, word)),
        0x67 => Some(i_format(jump_to_register(word)?, word)),
        0x63 => Some(b_format(branch(word)?, word)),
        0x03 => Some(i_format(load(word)?, word)),
        0x23 => Some(s_format(store(word)?, word)),
        0x13 => immediate(word),
        0x33 => Some(r_format(register(word)?, word)),
        0x1B => immediate_word(word),
        0x3B => Some(r_format(register_word(word)?, word)),
        0x0F => Some(i_format(fence(word)?, word)),
        0x73 => Some(n_format(system(word)?)),
        _ => None,
    }
}

/// What the word is: no instruction exactly where no row of RV64I fits it, and else the one instruction whose row
/// fits, with the fields of its format.
#[inline(always)]
#[tactic(auto, using(crate::specs::MeaningLaws::meaning_is, crate::proofs::Decoded::means_encodable))]
pub fn decode(word: u32) -> Option<Instr>
    ensures exact { Means is_base word result }
    ensures looked_up { result ≡ meaning word }
    ensures encodable { IfSome result IsEncodable }
{
    by_opcode(word)
}
