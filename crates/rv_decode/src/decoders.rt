//! Tables by which words are decoded, as types.

ghost use Rattle.std.specs.Prelude.{◌≡◌, Bool, IfSome};
ghost use Rattle.rv_decode.specs.declared.names.Name.{Name};
ghost use Rattle.rv_decode.specs.Encodable.{IsEncodableBy};
ghost use Rattle.rv_decode.specs.Meaning.{meaning_by};
ghost use Rattle.rv_decode.specs.Table.{is_base};

use crate::decoder::decode;
use crate::instruction::Instr;

/// A table by which words are decoded.
pub trait Decoder {
    /// The names that have a row in it.
    ghost has: { Name → Bool };

    /// What the word is by this table: no instruction exactly where no row of it fits.
    fn decode(word: u32) -> Option<Instr>
        ensures looked_up { result ≡ meaning_by has word }
        ensures encodable { IfSome result (IsEncodableBy has) };
}

/// The table of RV64I.
pub struct Rv64i;

impl Decoder for Rv64i {
    ghost has = { is_base };

    #[inline(always)]
    fn decode(word: u32) -> Option<Instr> {
        decode(word)
    }
}
