//! Words of memory and their lines, a row a line behind its address: the word, and its text as a disassembler writes it
//! with plain numbers of registers and without other names for an instruction.

use report_text::{Line, disasm_line, disasm_m_line};
use std::test::Fail;

// Each row of the instruction table in its order, with immediates at their ends; then further ends, words of which
// fields are nothing to the text, and words that are no instruction beside those that are.
const ROWS: &str = "80000fb7 lui x31, -524288
7ffff097 auipc x1, 524287
800000ef jal x1, -1048576
fff302e7 jalr x5, -1(x6)
80208063 beq x1, x2, -4096
7e419fe3 bne x3, x4, 4094
fe62cfe3 blt x5, x6, -2
0083d163 bge x7, x8, 2
00a4e0e3 bltu x9, x10, 2048
81eff0e3 bgeu x31, x30, -2048
80010083 lb x1, -2048(x2)
7ff21183 lh x3, 2047(x4)
fff32283 lw x5, -1(x6)
00043383 ld x7, 0(x8)
00154483 lbu x9, 1(x10)
55565583 lhu x11, 1365(x12)
aaa76683 lwu x13, -1366(x14)
80110023 sb x1, -2048(x2)
7e321fa3 sh x3, 2047(x4)
fe532fa3 sw x5, -1(x6)
00743fa3 sd x7, 31(x8)
80010093 addi x1, x2, -2048
7ff22193 slti x3, x4, 2047
fff33293 sltiu x5, x6, -1
00044393 xori x7, x8, 0
55556493 ori x9, x10, 1365
aaa67593 andi x11, x12, -1366
03f11093 slli x1, x2, 63
02025193 srli x3, x4, 32
43f35293 srai x5, x6, 63
003100b3 add x1, x2, x3
40628233 sub x4, x5, x6
009413b3 sll x7, x8, x9
00c5a533 slt x10, x11, x12
00f736b3 sltu x13, x14, x15
0128c833 xor x16, x17, x18
015a59b3 srl x19, x20, x21
418bdb33 sra x22, x23, x24
01bd6cb3 or x25, x26, x27
01eefe33 and x28, x29, x30
80008f9b addiw x31, x1, -2048
01f1109b slliw x1, x2, 31
0102519b srliw x3, x4, 16
41f3529b sraiw x5, x6, 31
003100bb addw x1, x2, x3
4062823b subw x4, x5, x6
009413bb sllw x7, x8, x9
00c5d53b srlw x10, x11, x12
40f756bb sraw x13, x14, x15
0330000f fence
00000073 ecall
00100073 ebreak
00000037 lui x0, 0
7ffff2b7 lui x5, 524287
fffff337 lui x6, -1
00001337 lui x6, 1
80000397 auipc x7, -524288
fffff397 auipc x7, -1
7ffff06f jal x0, 1048574
fffff16f jal x2, -2
000001ef jal x3, 0
0010026f jal x4, 2048
800802ef jal x5, -524288
003280e7 jalr x1, 3(x5)
80000067 jalr x0, -2048(x0)
7ff08067 jalr x0, 2047(x1)
00000063 beq x0, x0, 0
ffff3023 sd x31, -32(x30)
00950023 sb x9, 0(x10)
7ff43383 ld x7, 2047(x8)
00000013 addi x0, x0, 0
fff00f93 addi x31, x0, -1
00011093 slli x1, x2, 0
42035293 srai x5, x6, 32
4003529b sraiw x5, x6, 0
0000000f fence
8330000f fence
fff7878f fence
80000fb6 illegal
800000af illegal
fff342e7 illegal
0083d161 illegal
00a4e0f3 illegal
00047383 illegal
aaa77683 illegal
fe534fa3 illegal
43f11093 illegal
83f35293 illegal
023100b3 illegal
40629233 illegal
4128c833 illegal
03f1109b illegal
43f3529b illegal
0094a3bb illegal
0330100f illegal
00000173 illegal
00200073 illegal
00000000 illegal
ffffffff illegal";

#[test]
fn words_are_printed_as_instructions(rt: HostRuntime) -> Result<(), Fail> {
    let mut out = Line::new();
    let mut rows: usize = 0;
    for row in ROWS.split('\n') {
        let (digits, _) = row.split_once(' ').expect(&rt, "a row has two parts");
        let word = u32::from_str_radix(digits, 16).expect(&rt, "a row begins with a word");
        disasm_line(0x10078, word, &mut out);
        let want = format!(in rt.alloc(); "0000000000010078 {row}\n")?;
        assert!(rt; out.as_slice() == want.as_bytes(), "{row}");
        rows = rows.saturating_add(1);
    }
    assert_eq!(rt; rows, 99);
    disasm_line(0xFEDC_BA98_7654_3210, 0x13, &mut out);
    assert!(rt; out.as_slice() == b"fedcba9876543210 00000013 addi x0, x0, 0\n".as_slice());
    Ok(())
}

// Each row of extension M in the order of its table, and two words beside them that are no instruction.
const EXTENSION_ROWS: &str = "02b50533 mul x10, x10, x11
02209533 mulh x10, x1, x2
0241a533 mulhsu x10, x3, x4
0262b533 mulhu x10, x5, x6
02845fb3 divu x31, x8, x8
0283c533 div x10, x7, x8
02a4e533 rem x10, x9, x10
02c5f533 remu x10, x11, x12
02e6853b mulw x10, x13, x14
0307c53b divw x10, x15, x16
0328d53b divuw x10, x17, x18
0349e53b remw x10, x19, x20
036af53b remuw x10, x21, x22
02b5153b illegal
04b50533 illegal";

#[test]
fn words_of_extension_m_are_printed_where_it_is_asked_for(rt: HostRuntime) -> Result<(), Fail> {
    let mut out = Line::new();
    let mut rows: usize = 0;
    for row in EXTENSION_ROWS.split('\n') {
        let (digits, _) = row.split_once(' ').expect(&rt, "a row has two parts");
        let word = u32::from_str_radix(digits, 16).expect(&rt, "a row begins with a word");
        disasm_m_line(0x10078, word, &mut out);
        let want = format!(in rt.alloc(); "0000000000010078 {row}\n")?;
        assert!(rt; out.as_slice() == want.as_bytes(), "{row}");
        disasm_line(0x10078, word, &mut out);
        let plain = format!(in rt.alloc(); "0000000000010078 {digits} illegal\n")?;
        assert!(rt; out.as_slice() == plain.as_bytes(), "{row}");
        rows = rows.saturating_add(1);
    }
    assert_eq!(rt; rows, 15);
    disasm_m_line(0x10078, 0x13, &mut out);
    assert!(rt; out.as_slice() == b"0000000000010078 00000013 addi x0, x0, 0\n".as_slice());
    Ok(())
}
