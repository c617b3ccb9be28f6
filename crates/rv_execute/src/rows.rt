//! What each row of the instruction table does, a line a row.

ghost use Rattle.std.specs.Prelude.{◌≡◌};
ghost use Rattle.rv_execute.specs.Rows.{action_of, branch};

use crate::action::{Action, Extension, Size};
use crate::arithmetic::{
    extended_word, flag, is_less_signed, shifted_left, shifted_right, shifted_right_signed,
};
use rv_decode::Name;

/// A branch to a target.
#[inline(always)]
fn branch(holds: bool, target: u64) -> Action
    ensures { result ≡ branch holds target }
{
    if holds {
        Action::Goto(target)
    } else {
        Action::Next
    }
}

/// What the row of a name of RV64I does: `a` is the value of rs1, `b` that of rs2, `i` the immediate as 64 bits, and `pc` the
/// address of the instruction.
#[inline(always)]
pub(crate) fn action_of(name: Name, a: u64, b: u64, i: u64, pc: u64) -> Action
    ensures { result ≡ action_of name a b i pc }
{
    match name {
        Name::Lui => Action::Write(i),
        Name::Auipc => Action::Write(pc.wrapping_add(i)),
        Name::Jal => Action::Link(pc.wrapping_add(i)),
        Name::Jalr => Action::Link(a.wrapping_add(i) / 2 * 2),
        Name::Beq => branch(a == b, pc.wrapping_add(i)),
        Name::Bne => branch(a != b, pc.wrapping_add(i)),
        Name::Blt => branch(is_less_signed(a, b), pc.wrapping_add(i)),
        Name::Bge => branch(!is_less_signed(a, b), pc.wrapping_add(i)),
        Name::Bltu => branch(a < b, pc.wrapping_add(i)),
        Name::Bgeu => branch(a >= b, pc.wrapping_add(i)),
        Name::Lb => Action::Load(a.wrapping_add(i), Size::Byte, Extension::Sign),
        Name::Lh => Action::Load(a.wrapping_add(i), Size::Half, Extension::Sign),
        Name::Lw => Action::Load(a.wrapping_add(i), Size::Word, Extension::Sign),
        Name::Ld => Action::Load(a.wrapping_add(i), Size::Double, Extension::Zero),
        Name::Lbu => Action::Load(a.wrapping_add(i), Size::Byte, Extension::Zero),
        Name::Lhu => Action::Load(a.wrapping_add(i), Size::Half, Extension::Zero),
        Name::Lwu => Action::Load(a.wrapping_add(i), Size::Word, Extension::Zero),
        Name::Sb => Action::Store(a.wrapping_add(i), Size::Byte, b),
        Name::Sh => Action::Store(a.wrapping_add(i), Size::Half, b),
        Name::Sw => Action::Store(a.wrapping_add(i), Size::Word, b),
        Name::Sd => Action::Store(a.wrapping_add(i), Size::Double, b),
        Name::Addi => Action::Write(a.wrapping_add(i)),
        Name::Slti => Action::Write(flag(is_less_signed(a, i))),
        Name::Sltiu => Action::Write(flag(a < i)),
        Name::Xori => Action::Write(a ^ i),
        Name::Ori => Action::Write(a | i),
        Name::Andi => Action::Write(a & i),
        Name::Slli => Action::Write(shifted_left(a, i % 64)),
        Name::Srli => Action::Write(shifted_right(a, i % 64)),
        Name::Srai => Action::Write(shifted_right_signed(a, i % 64)),
        Name::Add => Action::Write(a.wrapping_add(b)),
        Name::Sub => Action::Write(a.wrapping_sub(b)),
        Name::Sll => Action::Write(shifted_left(a, b % 64)),
        Name::Slt => Action::Write(flag(is_less_signed(a, b))),
        Name::Sltu => Action::Write(flag(a < b)),
        Name::Xor => Action::Write(a ^ b),
        Name::Srl => Action::Write(shifted_right(a, b % 64)),
        Name::Sra => Action::Write(shifted_right_signed(a, b % 64)),
        Name::Or => Action::Write(a | b),
        Name::And => Action::Write(a & b),
        Name::Addiw => Action::Write(extended_word(a.wrapping_add(i))),
        Name::Slliw => Action::Write(extended_word(shifted_left(a, i % 32))),
        Name::Srliw => Action::Write(extended_word(shifted_right(a % 4_294_967_296, i % 32))),
        Name::Sraiw => Action::Write(shifted_right_signed(extended_word(a), i % 32)),
        Name::Addw => Action::Write(extended_word(a.wrapping_add(b))),
        Name::Subw => Action::Write(extended_word(a.wrapping_sub(b))),
        Name::Sllw => Action::Write(extended_word(shifted_left(a, b % 32))),
        Name::Srlw => Action::Write(extended_word(shifted_right(a % 4_294_967_296, b % 32))),
        Name::Sraw => Action::Write(shifted_right_signed(extended_word(a), b % 32)),
        Name::Fence => Action::Next,
        Name::Ecall => Action::Ask,
        Name::Ebreak => Action::Stop,
        // the names of extension M, which have no row in this table
        Name::Mul
        | Name::Mulh
        | Name::Mulhsu
        | Name::Mulhu
        | Name::Div
        | Name::Divu
        | Name::Rem
        | Name::Remu
        | Name::Mulw
        | Name::Divw
        | Name::Divuw
        | Name::Remw
        | Name::Remuw => Action::Next,
    }
}
