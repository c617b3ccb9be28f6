//! The encoder: the word of an instruction.

ghost use Rattle.std.specs.Prelude.{◌≡◌, ℕ, ◌-◌, ◌^◌, ◌<◌, ◌≤◌, Some};
ghost use Rattle.rv_decode.specs.Table.{is_base, row_of};
ghost use Rattle.rv_decode.specs.Meaning.{Means, MeansInstr, meaning};
ghost use Rattle.rv_decode.specs.Encodable.{IsEncodable, IsSignedBelow, HasImmediate, HasRegisters};
ghost use Rattle.rv_decode.specs.Encoding.{bits_of, register_bits, immediate_of, store_bits, branch_bits, jump_bits, word_of};

use crate::instruction::Instr;
use crate::names::Format;

/// The word of an instruction of RV64I whose fields have a place in its format: the one word that means it, which `decode` makes the
/// instruction of again.
pub fn encode(i: &Instr) -> u32
    requires { IsEncodable i.now }
    ensures bits { result ≡ word_of i.now }
    ensures meaning { Means is_base result (Some i.now) }
    ensures decoded { meaning result ≡ Some i.now }
    ensures only { (word : ℕ) → word < 2 ^ 32 → Means is_base word (Some i.now) → result ≡ word }
{
    word_of(i)
}

/// The one word that fits the row of an instruction's name, in whatever table that is, and has the instruction's fields.
pub fn word_of(i: &Instr) -> u32
    requires registers { HasRegisters (row_of i.now.name).format i.now }
    requires immediate { HasImmediate (row_of i.now.name).format i.now.imm }
    ensures bits { result ≡ word_of i.now }
    ensures meaning { MeansInstr result i.now }
    ensures only { (word : ℕ) → word < 2 ^ 32 → MeansInstr word i.now → result ≡ word }
{
    let row = i.name.row();
    row.value + registers(i) + immediate(row.format, i.imm)
}

/// The bits of the registers; one that the format lacks is 0.
fn registers(i: &Instr) -> u32
    ensures { result ≡ register_bits i.now }
{
    (u32::from(i.rd) << 7) + (u32::from(i.rs1) << 15) + (u32::from(i.rs2) << 20)
}

/// The two's complement of a number, in so many bits.
fn bits(number: i64, count: u32) -> u32
    requires some { 0 < count }
    requires within { count ≤ 32 }
    requires fits { IsSignedBelow (count - 1) number }
    ensures { result ≡ bits_of count number }
{
    if number < 0 {
        (number + (1 << count)) as u32
    } else {
        number as u32
    }
}

/// The bits of the immediate, by format.
fn immediate(format: Format, imm: i64) -> u32
    requires { HasImmediate format imm }
    ensures { result ≡ immediate_of format imm }
{
    match format {
        Format::R | Format::N => 0,
        Format::I => bits(imm, 12) << 20,
        Format::S => store_immediate(bits(imm, 12)),
        Format::B => branch_immediate(bits(imm, 13)),
        Format::U => bits(imm, 32),
        Format::J => jump_immediate(bits(imm, 21)),
        Format::H6 | Format::H5 => (imm as u32) << 20,
    }
}

/// Bits 5 to 11 of the immediate above the sources, bits 0 to 4 below them.
fn store_immediate(b: u32) -> u32
    ensures { result ≡ store_bits b }
{
    (((b >> 5) % 128) << 25) + ((b % 32) << 7)
}

/// Bit 12 of the immediate at the top, bits 5 to 10 below it, then bits 1 to 4 and bit 11 at the place of rd.
fn branch_immediate(b: u32) -> u32
    ensures { result ≡ branch_bits b }
{
    let high = (((b >> 12) % 2) << 31) + (((b >> 5) % 64) << 25);
    high + (((b >> 1) % 16) << 8) + (((b >> 11) % 2) << 7)
}

/// Bit 20 of the immediate at the top, then bits 1 to 10, bit 11, and bits 12 to 19.
fn jump_immediate(b: u32) -> u32
    ensures { result ≡ jump_bits b }
{
    let high = (((b >> 20) % 2) << 31) + (((b >> 1) % 1024) << 21);
    high + (((b >> 11) % 2) << 20) + (((b >> 12) % 256) << 12)
}
