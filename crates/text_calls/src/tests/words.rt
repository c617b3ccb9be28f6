//! Words as an assembler wrote them, against the fields in the assembly, and words that another disassembler refuses.

use rv_decode::{CaseRow, CaseTable, Format, Instr, Name, decode, encode, rv64i};
use std::test::Fail;

#[test]
fn decodes_assembled_words_and_encodes_them_again(rt: HostRuntime) -> Result<(), Fail> {
    // Each row of the table in its order, and then the edges of the immediates.
    let cases = [
        (0x8000_0FB7, Name::Lui, 31, 0, 0, -2147483648),
        (0x7FFF_F097, Name::Auipc, 1, 0, 0, 2147479552),
        (0x8000_00EF, Name::Jal, 1, 0, 0, -1048576),
        (0xFFF3_02E7, Name::Jalr, 5, 6, 0, -1),
        (0x8020_8063, Name::Beq, 0, 1, 2, -4096),
        (0x7E41_9FE3, Name::Bne, 0, 3, 4, 4094),
        (0xFE62_CFE3, Name::Blt, 0, 5, 6, -2),
        (0x0083_D163, Name::Bge, 0, 7, 8, 2),
        (0x00A4_E0E3, Name::Bltu, 0, 9, 10, 2048),
        (0x81EF_F0E3, Name::Bgeu, 0, 31, 30, -2048),
        (0x8001_0083, Name::Lb, 1, 2, 0, -2048),
        (0x7FF2_1183, Name::Lh, 3, 4, 0, 2047),
        (0xFFF3_2283, Name::Lw, 5, 6, 0, -1),
        (0x0004_3383, Name::Ld, 7, 8, 0, 0),
        (0x0015_4483, Name::Lbu, 9, 10, 0, 1),
        (0x5556_5583, Name::Lhu, 11, 12, 0, 1365),
        (0xAAA7_6683, Name::Lwu, 13, 14, 0, -1366),
        (0x8011_0023, Name::Sb, 0, 2, 1, -2048),
        (0x7E32_1FA3, Name::Sh, 0, 4, 3, 2047),
        (0xFE53_2FA3, Name::Sw, 0, 6, 5, -1),
        (0x0074_3FA3, Name::Sd, 0, 8, 7, 31),
        (0x8001_0093, Name::Addi, 1, 2, 0, -2048),
        (0x7FF2_2193, Name::Slti, 3, 4, 0, 2047),
        (0xFFF3_3293, Name::Sltiu, 5, 6, 0, -1),
        (0x0004_4393, Name::Xori, 7, 8, 0, 0),
        (0x5555_6493, Name::Ori, 9, 10, 0, 1365),
        (0xAAA6_7593, Name::Andi, 11, 12, 0, -1366),
        (0x03F1_1093, Name::Slli, 1, 2, 0, 63),
        (0x0202_5193, Name::Srli, 3, 4, 0, 32),
        (0x43F3_5293, Name::Srai, 5, 6, 0, 63),
        (0x0031_00B3, Name::Add, 1, 2, 3, 0),
        (0x4062_8233, Name::Sub, 4, 5, 6, 0),
        (0x0094_13B3, Name::Sll, 7, 8, 9, 0),
        (0x00C5_A533, Name::Slt, 10, 11, 12, 0),
        (0x00F7_36B3, Name::Sltu, 13, 14, 15, 0),
        (0x0128_C833, Name::Xor, 16, 17, 18, 0),
        (0x015A_59B3, Name::Srl, 19, 20, 21, 0),
        (0x418B_DB33, Name::Sra, 22, 23, 24, 0),
        (0x01BD_6CB3, Name::Or, 25, 26, 27, 0),
        (0x01EE_FE33, Name::And, 28, 29, 30, 0),
        (0x8000_8F9B, Name::Addiw, 31, 1, 0, -2048),
        (0x01F1_109B, Name::Slliw, 1, 2, 0, 31),
        (0x0102_519B, Name::Srliw, 3, 4, 0, 16),
        (0x41F3_529B, Name::Sraiw, 5, 6, 0, 31),
        (0x0031_00BB, Name::Addw, 1, 2, 3, 0),
        (0x4062_823B, Name::Subw, 4, 5, 6, 0),
        (0x0094_13BB, Name::Sllw, 7, 8, 9, 0),
        (0x00C5_D53B, Name::Srlw, 10, 11, 12, 0),
        (0x40F7_56BB, Name::Sraw, 13, 14, 15, 0),
        (0x0330_000F, Name::Fence, 0, 0, 0, 51),
        (0x0000_0073, Name::Ecall, 0, 0, 0, 0),
        (0x0010_0073, Name::Ebreak, 0, 0, 0, 0),
        (0x0000_0037, Name::Lui, 0, 0, 0, 0),
        (0x7FFF_F2B7, Name::Lui, 5, 0, 0, 2147479552),
        (0xFFFF_F337, Name::Lui, 6, 0, 0, -4096),
        (0x8000_0397, Name::Auipc, 7, 0, 0, -2147483648),
        (0x7FFF_F06F, Name::Jal, 0, 0, 0, 1048574),
        (0xFFFF_F16F, Name::Jal, 2, 0, 0, -2),
        (0x0000_01EF, Name::Jal, 3, 0, 0, 0),
        (0x0010_026F, Name::Jal, 4, 0, 0, 2048),
        (0x8008_02EF, Name::Jal, 5, 0, 0, -524288),
        (0x0000_0063, Name::Beq, 0, 0, 0, 0),
        (0xFFFF_3023, Name::Sd, 0, 30, 31, -32),
        (0x0095_0023, Name::Sb, 0, 10, 9, 0),
        (0x0000_0013, Name::Addi, 0, 0, 0, 0),
        (0x0001_1093, Name::Slli, 1, 2, 0, 0),
        (0x4003_529B, Name::Sraiw, 5, 6, 0, 0),
        (0x4203_5293, Name::Srai, 5, 6, 0, 32),
    ];
    for (word, name, rd, rs1, rs2, imm) in cases {
        let decoded = decode(word).ok_or("no instruction")?;
        assert_eq!(rt;
            decoded,
            Instr {
                name,
                rd,
                rs1,
                rs2,
                imm
            },
            "at {word:x}"
        );
        assert_eq!(rt; encode(&decoded), word, "at {word:x}");
    }
    Ok(())
}

#[test]
fn a_turned_bit_gives_another_instruction(rt: HostRuntime) -> Result<(), Fail> {
    let cases = [
        (0x7FFF_F0B7, Name::Lui),
        (0x8000_00E7, Name::Jalr),
        (0xFFF3_02E3, Name::Beq),
        (0x8020_8067, Name::Jalr),
        (0x8020_9063, Name::Bne),
        (0xFE62_DFE3, Name::Bge),
        (0xFE62_EFE3, Name::Bltu),
        (0x00A4_F0E3, Name::Bgeu),
        (0x81EF_E0E3, Name::Bltu),
        (0x8001_1083, Name::Lh),
        (0xFFF3_3283, Name::Ld),
        (0x0015_5483, Name::Lhu),
        (0xAAA7_4683, Name::Lbu),
        (0x7E32_0FA3, Name::Sb),
        (0xFE53_3FA3, Name::Sd),
        (0x0074_2FA3, Name::Sw),
        (0x8001_0097, Name::Auipc),
        (0x8001_009B, Name::Addiw),
        (0x7FF2_3193, Name::Sltiu),
        (0xFFF3_3297, Name::Auipc),
        (0xFFF3_7293, Name::Andi),
        (0x0004_4397, Name::Auipc),
        (0x0004_5393, Name::Srli),
        (0x5555_6497, Name::Auipc),
        (0xAAA6_6593, Name::Ori),
        (0x0202_5183, Name::Lhu),
        (0x43F3_4293, Name::Xori),
        (0x43F3_7293, Name::Andi),
        (0x0031_00A3, Name::Sb),
        (0x0031_0093, Name::Addi),
        (0x00C5_A537, Name::Lui),
        (0x00F7_26B3, Name::Slt),
        (0x418B_DB13, Name::Srai),
        (0x00C5_D51B, Name::Srliw),
        (0x0010_0033, Name::Add),
    ];
    for (word, name) in cases {
        let decoded = decode(word).ok_or("no instruction")?;
        assert_eq!(rt; decoded.name, name, "at {word:x}");
    }
    Ok(())
}

#[test]
fn words_outside_the_table_are_no_instruction(rt: HostRuntime) {
    // A bit turned in a word of each row, and words of other extensions: compressed, multiplication, floats, registers
    // of the machine.
    let words = [
        0x8000_0FB6,
        0x7FFF_F09F,
        0x8000_00AF,
        0xFFF3_42E7,
        0x7E41_9FE7,
        0x7E41_9FC3,
        0x0083_D161,
        0x0083_D167,
        0x00A4_E0F3,
        0x81EF_F0E7,
        0x8001_0082,
        0x7FF2_1187,
        0x7FF2_118B,
        0xFFF3_22C3,
        0x0004_3387,
        0x0004_7383,
        0x0015_4487,
        0x5556_5587,
        0x5556_55A3,
        0xAAA7_7683,
        0x8011_0021,
        0x8011_0027,
        0x7E32_1FB3,
        0xFE53_2FA7,
        0x0074_3FA2,
        0x7FF2_21D3,
        0x5555_64B3,
        0xAAA6_5593,
        0x03F1_1091,
        0x43F1_1093,
        0x0202_519B,
        0x4062_A233,
        0x4062_C233,
        0x0494_13B3,
        0x2094_13B3,
        0x20C5_A533,
        0x00F7_36B2,
        0x0128_C83B,
        0x0928_C833,
        0x015A_59B2,
        0x015A_59F3,
        0x418B_9B33,
        0x03BD_6CB3,
        0x09BD_6CB3,
        0x41EE_FE33,
        0x8000_8F9A,
        0x8000_9F9B,
        0x01F1_108B,
        0x01F1_309B,
        0x0102_419B,
        0x1102_519B,
        0x41F3_5299,
        0x43F3_529B,
        0x0031_00FB,
        0x1031_00BB,
        0x4462_823B,
        0xC062_823B,
        0x0094_13BF,
        0x8094_13BB,
        0x00C5_D52B,
        0x40F7_76BB,
        0x40F7_16BB,
        0x0330_000B,
        0x0330_100F,
        0x0000_0071,
        0x0040_0073,
        0x0210_0073,
        0x0000_0000,
        0xFFFF_FFFF,
        0x0000_4501,
        0x02B5_0533,
        0x0000_100F,
        0x3020_0073,
        0x1050_0073,
        0x0000_00F3,
        0x0010_8073,
        0x0000_2063,
        0x0000_7003,
        0x0000_4023,
        0x4000_1013,
        0x0800_1013,
        0x0200_501B,
        0x0000_201B,
        0x0000_0001,
        0x0000_0002,
    ];
    for word in words {
        assert_eq!(rt; decode(word), None, "at {word:x}");
    }
}

#[test]
fn the_table_finds_the_row_that_fits(rt: HostRuntime) {
    let table = rv64i();
    let cases = [
        (0x8000_0FB7, Some(0)), // lui x31, 0x80000
        (0x43F3_5293, Some(29)), // srai x5, x6, 63
        (0x01EE_FE33, Some(39)), // and x28, x29, x30
        (0x0010_0073, Some(51)), // ebreak
        (0x02B5_0533, None), // mul x10, x10, x11
    ];
    for (word, place) in cases {
        assert_eq!(rt; table.find(word), place, "at {word:x}");
    }
}

#[test]
fn a_small_table_finds_its_rows(rt: HostRuntime) {
    let table = CaseTable::new([
        CaseRow {
            mask: 0xFF,
            value: 0x01,
            format: Format::N,
            name: Name::Ecall,
        },
        CaseRow {
            mask: 0x0F,
            value: 0x02,
            format: Format::R,
            name: Name::Add,
        },
        CaseRow {
            mask: 0xFF,
            value: 0x33,
            format: Format::R,
            name: Name::Sub,
        },
    ]);
    for (word, place) in [
        (0x01, Some(0)),
        (0x12, Some(1)),
        (0x33, Some(2)),
        (0x21, None),
    ] {
        assert_eq!(rt; table.find(word), place, "at {word:x}");
    }
}
