//! Values of the instruction table's rows, computed by another program from the manual's text, and assembled words done
//! over a small memory.

use super::*;
use crate::action::Extension::{Sign, Zero};
use crate::action::{Action, Size};
use crate::rows::action_of;
use byteorder::{ByteOrder, LittleEndian};
use ovl_io::FaultKind;
use rv_decode::Name;
use std::test::Fail;

// A memory of one page, from 0x10000 on, which may be executed and written to but not read. There is no unit for any
// store.
#[derive(Drop)]
struct CodePage {
    bytes: [u8; 4096],
}

impl GuestMemory for CodePage {
    ghost use Rattle.std.specs.Prelude.{◌≡◌};
    ghost use Rattle.std.specs.FinMap.{empty, insert};

    ghost memory = { λ m. insert empty 16 (record { perms = 3; bytes = m.bytes }) };

    ghost ready = { λ m. Unit {0} };

    ghost fetched = { λ old address new. new ≡ old };

    ghost loaded = { λ old address count new. new ≡ old };

    ghost stored = { λ old address bytes answer new. new ≡ old };

    fn fetch(&mut self, address: u64) -> Result<u32, Denied> {
        if address / 4096 == 16 {
            let at = (address % 4096) as usize;
            Ok(LittleEndian::read_u32(&self.bytes[at..at + 4]))
        } else {
            Err(Denied { address })
        }
    }

    fn load(&mut self, address: u64, into: &mut [u8]) -> Result<(), Denied> {
        Err(Denied { address })
    }

    fn store(&mut self, address: u64, bytes: &[u8]) -> Result<(), Refused> {
        if address / 4096 != 16 {
            Err(Refused::At(address))
        } else if bytes.len() as u64 <= 0x1_1000 - address {
            Err(Refused::Full(33, 32))
        } else {
            Err(Refused::At(0x1_1000))
        }
    }
}

// The page with one word at its start.
fn code_page(word: u32) -> CodePage {
    let mut bytes = [0; 4096];
    bytes[..4].copy_from_slice(&word.to_le_bytes());
    CodePage { bytes }
}

#[test]
fn registers_keep_what_is_set(rt: HostRuntime) -> Result<(), Fail> {
    let mut regs = Regs::new(0x1_0078, 0x3F_FFFF_FFF0);
    for i in 0..32 {
        let want = if i == 2 { 0x3F_FFFF_FFF0 } else { 0 };
        assert_eq!(rt; regs.get(i), want, "x{i} at the start");
    }
    let before = regs;
    for i in 0..32 {
        regs.set(i, 0xFFFF_FFFF_FFFF_FF00 + u64::from(i));
    }
    regs.set_pc(0x1_007C);
    for i in 1..32 {
        assert_eq!(rt;
            regs.get(i),
            0xFFFF_FFFF_FFFF_FF00 + u64::from(i),
            "x{i} when set"
        );
    }
    assert_eq!(rt; regs.get(0), 0);
    assert_eq!(rt; regs.pc(), 0x1_007C);
    assert_eq!(rt; before.pc(), 0x1_0078);
    assert_eq!(rt; before.get(31), 0);
    assert_eq!(rt; regs.clone()?.get(31), 0xFFFF_FFFF_FFFF_FF1F);
    Ok(())
}

// What the row of a name does at pc 0x10078, where all numbers are given as signed ones.
fn action_at(name: Name, a: i64, b: i64, imm: i64) -> Action {
    let a = a.cast_unsigned();
    action_of(name, a, b.cast_unsigned(), imm.cast_unsigned(), 0x1_0078)
}

#[test]
fn rows_with_a_result(rt: HostRuntime) {
    // The name, the values of rs1 and rs2, the immediate, and the result.
    let cases = [
        (Name::Lui, 0, 0, -0x8000_0000, -0x8000_0000),
        (Name::Auipc, 0, 0, -0x1000, 0xF078),
        (Name::Auipc, 0, 0, -0x1_1000, -3976),
        (Name::Addi, 1, 0, -2, -1),
        (Name::Slti, i64::MIN, 0, -1, 1),
        (Name::Slti, 0, 0, -1, 0),
        (Name::Sltiu, 1, 0, -1, 1),
        (Name::Sltiu, -1, 0, -1, 0),
        (Name::Xori, 15, 0, -1, -16),
        (Name::Ori, 15, 0, -256, -241),
        (Name::Andi, 0x1234, 0, -256, 0x1200),
        (Name::Slli, 3, 0, 63, i64::MIN),
        (Name::Srli, i64::MIN, 0, 32, 0x8000_0000),
        (Name::Srai, i64::MIN, 0, 63, -1),
        (Name::Add, -1, 2, 0, 1),
        (Name::Sub, 0, 1, 0, -1),
        (Name::Sll, 1, 127, 0, i64::MIN),
        (Name::Slt, -1, 0, 0, 1),
        (Name::Slt, 0, -1, 0, 0),
        (Name::Sltu, 0, -1, 0, 1),
        (Name::Sltu, -1, 0, 0, 0),
        (Name::Xor, 0xFF00, 0xFF0, 0, 0xF0F0),
        (Name::Srl, i64::MIN, 65, 0, 0x4000_0000_0000_0000),
        (Name::Sra, i64::MIN, 126, 0, -2),
        (Name::Or, 0xFF00, 0xFF0, 0, 0xFFF0),
        (Name::And, 0xFF00, 0xFF0, 0, 0xF00),
        (Name::Addiw, 0x7FFF_FFFF, 0, 1, -0x8000_0000),
        (Name::Addiw, 0x1_0000_0005, 0, -6, -1),
        (Name::Slliw, 3, 0, 31, -0x8000_0000),
        (Name::Srliw, -0x8000_0000, 0, 0, -0x8000_0000),
        (Name::Srliw, -0x8000_0000, 0, 31, 1),
        (Name::Sraiw, 0x8000_0000, 0, 31, -1),
        (Name::Addw, 0x7FFF_FFFF, 0x7FFF_FFFF, 0, -2),
        (Name::Subw, 0x1_0000_0000, 1, 0, -1),
        (Name::Sllw, 1, 63, 0, -0x8000_0000),
        (Name::Srlw, -0x8000_0000, 32, 0, -0x8000_0000),
        (Name::Srlw, -0x8000_0000, 36, 0, 0x800_0000),
        (Name::Sraw, 0x8000_0000, 36, 0, -0x800_0000),
    ];
    for (name, a, b, imm, want) in cases {
        let want: i64 = want;
        assert_eq!(rt;
            action_at(name, a, b, imm),
            Action::Write(want.cast_unsigned()),
            "{name:?} at {a}, {b}, {imm}"
        );
    }
}

#[test]
fn rows_that_write_no_result(rt: HostRuntime) {
    // The name, the values of rs1 and rs2, the immediate, and the action.
    let cases = [
        (Name::Jal, 0, 0, -8, Action::Link(0x1_0070)),
        (Name::Jal, 0, 0, 2, Action::Link(0x1_007A)),
        (Name::Jalr, 0x1_0078, 0, 3, Action::Link(0x1_007A)),
        (Name::Jalr, -1, 0, 5, Action::Link(4)),
        (Name::Beq, 7, 7, -8, Action::Goto(0x1_0070)),
        (Name::Beq, 7, 8, -8, Action::Next),
        (Name::Bne, 7, 8, 16, Action::Goto(0x1_0088)),
        (Name::Bne, 7, 7, 16, Action::Next),
        (Name::Blt, -1, 0, 8, Action::Goto(0x1_0080)),
        (Name::Blt, 0, -1, 8, Action::Next),
        (Name::Bge, 0, -1, 8, Action::Goto(0x1_0080)),
        (Name::Bge, -1, 0, 8, Action::Next),
        (Name::Bltu, 0, -1, 8, Action::Goto(0x1_0080)),
        (Name::Bltu, -1, 0, 8, Action::Next),
        (Name::Bgeu, -1, 0, 8, Action::Goto(0x1_0080)),
        (Name::Bgeu, 0, -1, 8, Action::Next),
        (Name::Fence, 1, 2, 51, Action::Next),
        (Name::Ecall, 1, 2, 0, Action::Ask),
        (Name::Ebreak, 1, 2, 0, Action::Stop),
    ];
    for (name, a, b, imm, want) in cases {
        assert_eq!(rt;
            action_at(name, a, b, imm),
            want,
            "{name:?} at {a}, {b}, {imm}"
        );
    }
}

#[test]
fn rows_of_loads(rt: HostRuntime) {
    // The name, the value of rs1, the immediate, and then the address, the size and the extension.
    let cases = [
        (Name::Lb, 0x2_0000, -1, 0x1_FFFF, Size::Byte, Sign),
        (Name::Lh, 0x2_0000, 2, 0x2_0002, Size::Half, Sign),
        (Name::Lw, 0, -4, -4, Size::Word, Sign),
        (Name::Ld, 0x2_0000, 8, 0x2_0008, Size::Double, Zero),
        (Name::Lbu, 0x2_0000, 1, 0x2_0001, Size::Byte, Zero),
        (Name::Lhu, -1, 3, 2, Size::Half, Zero),
        (Name::Lwu, 0x2_0000, 4, 0x2_0004, Size::Word, Zero),
    ];
    for (name, a, imm, address, size, extension) in cases {
        let address: i64 = address;
        assert_eq!(rt;
            action_at(name, a, 7, imm),
            Action::Load(address.cast_unsigned(), size, extension),
            "{name:?} at {a}, {imm}"
        );
    }
}

#[test]
fn rows_of_stores(rt: HostRuntime) {
    // The name, the value of rs1, the immediate, and then the address and the size.
    let cases = [
        (Name::Sb, 0x2_0000, -1, 0x1_FFFF, Size::Byte),
        (Name::Sh, 0x2_0000, 2, 0x2_0002, Size::Half),
        (Name::Sw, 0, -4, -4, Size::Word),
        (Name::Sd, -1, 9, 8, Size::Double),
    ];
    for (name, a, imm, address, size) in cases {
        let address: i64 = address;
        assert_eq!(rt;
            action_at(name, a, 0x1122_3344_5566_7788, imm),
            Action::Store(address.cast_unsigned(), size, 0x1122_3344_5566_7788),
            "{name:?} at {a}, {imm}"
        );
    }
}

// Registers at the start of the page, with a value in x5.
fn regs_with(x5: u64) -> Regs {
    let mut regs = Regs::new(0x1_0000, 0x3F_FFFF_FFF0);
    regs.set(5, x5);
    regs
}

#[test]
fn does_a_word_of_a_page(rt: HostRuntime) {
    // The word at 0x10000, the value of x5, and pc and x1 afterwards.
    let cases = [
        (0xFFF2_8093, 0, 0x1_0004, 0xFFFF_FFFF_FFFF_FFFF), // addi x1, x5, -1
        (0xFFF2_8013, 9, 0x1_0004, 0), // addi x0, x5, -1
        (0xFFFF_F097, 0, 0x1_0004, 0xF000), // auipc x1, 0xfffff
        (0x4022_D0BB, 0x8000_0000, 0x1_0004, 0xFFFF_FFFF_FFFF_8000), // sraw x1, x5, x2
        (0x0092_80E7, 0x1_0000, 0x1_0008, 0x1_0004), // jalr x1, 9(x5)
        (0xFFDF_F0EF, 0, 0xFFFC, 0x1_0004), // jal x1, -4
        (0x0002_8463, 0, 0x1_0008, 0), // beq x5, x0, 8
        (0x0002_8463, 1, 0x1_0004, 0), // beq x5, x0, 8
        (0x0002_9163, 0, 0x1_0004, 0), // bne x5, x0, 2
        (0x0FF0_000F, 0, 0x1_0004, 0), // fence
    ];
    for (word, x5, pc, x1) in cases {
        let mut regs = regs_with(x5);
        let mut page = code_page(word);
        assert_eq!(rt;
            execute(&mut regs, &mut page),
            Outcome::Stepped,
            "at {word:x}"
        );
        assert_eq!(rt; (regs.pc(), regs.get(1)), (pc, x1), "at {word:x}");
    }
}

#[test]
fn a_word_that_faults_leaves_the_registers(rt: HostRuntime) {
    // The word at 0x10000, the value of x5, and the fault.
    let cases = [
        (0x0032_80E7, 0x1_0000, FaultKind::Align, 0x1_0002), // jalr x1, 3(x5)
        (0x0002_9163, 1, FaultKind::Align, 0x1_0002), // bne x5, x0, 2
        (0xFFC2_A083, 0x1_0000, FaultKind::Load, 0xFFFC), // lw x1, -4(x5)
        (0x0062_B023, 0xFFF8, FaultKind::Store, 0xFFF8), // sd x6, 0(x5)
        (0x0062_B023, 0x1_0FFC, FaultKind::Store, 0x1_1000), // sd x6, 0(x5)
        (0x0010_0073, 0, FaultKind::Break, 0x1_0000), // ebreak
        (0x02B5_0533, 0, FaultKind::Illegal, 0x1_0000), // mul x10, x10, x11
    ];
    for (word, x5, kind, at) in cases {
        let mut regs = regs_with(x5);
        let mut page = code_page(word);
        assert_eq!(rt;
            execute(&mut regs, &mut page),
            Outcome::Fault(kind, at),
            "at {word:x}"
        );
        assert_eq!(rt; (regs.pc(), regs.get(1)), (0x1_0000, 0), "at {word:x}");
    }
}

#[test]
fn a_pc_without_a_word_faults(rt: HostRuntime) {
    // The pc, and the fault there.
    let cases = [
        (0x1_0002, FaultKind::Align),
        (0x2_0001, FaultKind::Align),
        (0x1_1000, FaultKind::Fetch),
        (0xFFFC, FaultKind::Fetch),
        (0xFFFF_FFFF_FFFF_FFFC, FaultKind::Fetch),
        (0x1_0FFC, FaultKind::Illegal),
    ];
    for (pc, kind) in cases {
        let mut regs = Regs::new(pc, 0);
        let mut page = code_page(0x13);
        assert_eq!(rt;
            execute(&mut regs, &mut page),
            Outcome::Fault(kind, pc),
            "at {pc:x}"
        );
        assert_eq!(rt; regs.pc(), pc);
    }
}

#[test]
fn asks_the_machine_and_wants_units(rt: HostRuntime) {
    // ecall
    let mut regs = regs_with(0);
    let mut page = code_page(0x73);
    assert_eq!(rt; execute(&mut regs, &mut page), Outcome::Asked);
    assert_eq!(rt; regs.pc(), 0x1_0004);

    // sd x6, 0(x5)
    let mut regs = regs_with(0x1_0FF8);
    let mut page = code_page(0x0062_B023);
    assert_eq!(rt; execute(&mut regs, &mut page), Outcome::Full(33, 32));
    assert_eq!(rt; regs.pc(), 0x1_0000);
}
