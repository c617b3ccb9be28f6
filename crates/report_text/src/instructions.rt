//! The text of a word of memory as an instruction. The opcode of a row is bits 0 to 6 of its word, as in the table
//! "RISC-V base opcode map" of the RISC-V Unprivileged ISA manual.

ghost use Rattle.std.specs.Prelude.{◌≡◌, ◌+◌, ◌≤◌, ◌++◌, [], ◌∷◌, codes, length};
ghost use Rattle.arrayvec.specs.ArrayVec.{array_vec_len};
ghost use Rattle.rv_decode.specs.Table.{row_of};
ghost use Rattle.report_text.specs.Instructions.{register_text, two_registers_text, offset_text, one_register_text, opcode, i_operands, operands_by, instruction_text};

use crate::push::{push_decimal, push_signed, push_text};
use crate::{LINE_ROOM, Line};
use rv_decode::{CaseRow, Decoder, Format, Instr};

/// A register, by its number, between two characters. It is put at once: a register's number has one digit or two.
fn push_register(line: &mut Line, before: u8, n: u8, after: u8)
    requires { array_vec_len line.old + 23 ≤ LINE_ROOM }
    ensures text { line.new.items ≡ line.old.items ++ before ∷ (register_text n ++ after ∷ []) }
    ensures len { array_vec_len line.new ≤ array_vec_len line.old + 23 }
{
    if n < 10 {
        push_text(line, &[before, b'x', b'0' + n, after]);
    } else if n < 100 {
        push_text(line, &[before, b'x', b'0' + n / 10, b'0' + n % 10, after]);
    } else {
        line.push(before);
        line.push(b'x');
        push_decimal(line, u64::from(n));
        line.push(after);
    }
}

/// Three registers.
fn push_three_registers(line: &mut Line, a: u8, b: u8, c: u8)
    requires { array_vec_len line.old + 96 ≤ LINE_ROOM }
    ensures text { line.new.items ≡ line.old.items ++ codes " " ++ register_text a ++ codes ", "
        ++ register_text b ++ codes ", " ++ register_text c }
    ensures len { array_vec_len line.new ≤ array_vec_len line.old + 96 }
{
    push_register(line, b' ', a, b',');
    push_register(line, b' ', b, b',');
    push_text(line, b" x");
    push_decimal(line, u64::from(c));
}

/// Two registers and an immediate.
fn push_two_registers(line: &mut Line, a: u8, b: u8, n: i64)
    requires { array_vec_len line.old + 96 ≤ LINE_ROOM }
    ensures text { line.new.items ≡ line.old.items ++ two_registers_text a b n }
    ensures len { array_vec_len line.new ≤ array_vec_len line.old + 96 }
{
    push_register(line, b' ', a, b',');
    push_register(line, b' ', b, b',');
    push_signed(line, n);
}

/// A register, and the register of an address behind what is added to it.
fn push_offset(line: &mut Line, a: u8, n: i64, b: u8)
    requires { array_vec_len line.old + 96 ≤ LINE_ROOM }
    ensures text { line.new.items ≡ line.old.items ++ offset_text a n b }
    ensures len { array_vec_len line.new ≤ array_vec_len line.old + 96 }
{
    push_register(line, b' ', a, b',');
    push_signed(line, n);
    push_register(line, b'(', b, b')');
}

/// A register and an immediate.
fn push_one_register(line: &mut Line, a: u8, n: i64)
    requires { array_vec_len line.old + 96 ≤ LINE_ROOM }
    ensures text { line.new.items ≡ line.old.items ++ one_register_text a n }
    ensures len { array_vec_len line.new ≤ array_vec_len line.old + 96 }
{
    push_register(line, b' ', a, b',');
    push_signed(line, n);
}

/// The major opcode of a row.
fn opcode(row: CaseRow) -> u32
    ensures { result ≡ opcode row }
{
    row.value % (1 << 7)
}

/// The operands of an instruction of the format I, by its row.
fn push_i_operands(line: &mut Line, row: CaseRow, i: Instr)
    requires { array_vec_len line.old + 96 ≤ LINE_ROOM }
    ensures text { line.new.items ≡ line.old.items ++ i_operands row i }
    ensures len { array_vec_len line.new ≤ array_vec_len line.old + 96 }
{
    let opcode = opcode(row);
    if opcode == 0x03 || opcode == 0x67 {
        // a load, or the jump to a register
        push_offset(line, i.rd, i.imm, i.rs1);
    } else if opcode != 0x0F {
        // no fence
        push_two_registers(line, i.rd, i.rs1, i.imm);
    }
}

/// The operands of an instruction, by its row.
#[inline(always)]
fn push_operands(line: &mut Line, row: CaseRow, i: Instr)
    requires { array_vec_len line.old + 96 ≤ LINE_ROOM }
    ensures text { line.new.items ≡ line.old.items ++ operands_by row.format row i }
    ensures len { array_vec_len line.new ≤ array_vec_len line.old + 96 }
{
    match row.format {
        Format::R => push_three_registers(line, i.rd, i.rs1, i.rs2),
        Format::I => push_i_operands(line, row, i),
        Format::S => push_offset(line, i.rs2, i.imm, i.rs1),
        Format::B => push_two_registers(line, i.rs1, i.rs2, i.imm),
        Format::U => push_one_register(line, i.rd, i.imm / (1 << 12)),
        Format::J => push_one_register(line, i.rd, i.imm),
        Format::H6 => push_two_registers(line, i.rd, i.rs1, i.imm),
        Format::H5 => push_two_registers(line, i.rd, i.rs1, i.imm),
        Format::N => {}
    }
}

/// The name of an instruction. Most have 2 to 5 characters, which are put without a call.
#[inline(always)]
fn push_name(line: &mut Line, name: &[u8])
    requires { array_vec_len line.old + length name.now ≤ LINE_ROOM }
    ensures text { line.new.items ≡ line.old.items ++ name.now }
    ensures len { array_vec_len line.new ≡ array_vec_len line.old + length name.now }
{
    match name {
        [a, b] => push_text(line, &[*a, *b]),
        [a, b, c] => push_text(line, &[*a, *b, *c]),
        [a, b, c, d] => push_text(line, &[*a, *b, *c, *d]),
        [a, b, c, d, e] => push_text(line, &[*a, *b, *c, *d, *e]),
        _ => push_text(line, name),
    }
}

/// A word as an instruction, by a table.
#[tactic(auto, unfolding(crate::specs::Instructions::instruction_text))]
pub(crate) fn push_instruction<D: Decoder>(line: &mut Line, word: u32)
    requires { array_vec_len line.old + 128 ≤ LINE_ROOM }
    ensures text { line.new.items ≡ line.old.items ++ instruction_text D.has word }
    ensures len { array_vec_len line.new ≤ array_vec_len line.old + 128 }
{
    match D::decode(word) {
        Some(i) => {
            push_name(line, i.name.text());
            push_operands(line, i.name.row(), i);
        }
        None => push_text(line, b"illegal"),
    }
}
