//! A few lines of each refusal, and small programs with their words.

use super::*;
use elf_loader::read_image;
use std::alloc::{AllocError, Global};
use std::test::Fail;

// A row a line: a text, and what is refused of it.
const REFUSED: [(&[u8], AsmError); 32] = [
    (b"ecall\naddi x1, x2", AsmError::BadLine(2)),
    (b"addi x1, x2, 2048", AsmError::BadLine(1)),
    (b"addi x1, x2, +1", AsmError::BadLine(1)),
    (b"addi x1, x2, 0x1", AsmError::BadLine(1)),
    (b"addi x1, x2, 1180591620717411303424", AsmError::BadLine(1)),
    (b"addi x05, x2, 1", AsmError::BadLine(1)),
    (b"addi x32, x2, 1", AsmError::BadLine(1)),
    (b"addi x1 x2, 1", AsmError::BadLine(1)),
    (b"addi x1, x2, name", AsmError::BadLine(1)),
    (b"lw x1, 4 (x2)", AsmError::BadLine(1)),
    (b"lw x1, (x2)", AsmError::BadLine(1)),
    (b"slli x1, x2, 64", AsmError::BadLine(1)),
    (b"lui x1, 524288", AsmError::BadLine(1)),
    (b"jal x0, 3", AsmError::BadLine(1)),
    (b"beq x1, x2, 4096", AsmError::BadLine(1)),
    (b"fence rw, rw", AsmError::BadLine(1)),
    (b"mul x1, x2, x3", AsmError::BadLine(1)),
    (b"ECALL", AsmError::BadLine(1)),
    (b".word 4294967296", AsmError::BadLine(1)),
    (b".word -1", AsmError::BadLine(1)),
    (b"a: b: ecall", AsmError::BadLine(1)),
    (b"1a: ecall", AsmError::BadLine(1)),
    (
        b"a23456789012345678901234567890123: ecall",
        AsmError::BadLine(1),
    ),
    (b"ecall\r # so", AsmError::BadLine(1)),
    (b"ecall\0", AsmError::BadLine(1)),
    (b"a:\na: jal x0, b\nillegal", AsmError::BadLine(3)),
    (b"a: ecall\nb:\na: jal x0, c", AsmError::Twice(3)),
    (b"ecall\njal x0, c", AsmError::NoLabel(2)),
    (b"jal x0, x1\nx2:", AsmError::NoLabel(1)),
    (b"", AsmError::Empty),
    (b"# nothing\n\n  \t", AsmError::Empty),
    (b"a:\nb: # two labels", AsmError::Empty),
];

// A row a line: a text, and the words of its items.
const TAKEN: [(&[u8], &[u32]); 7] = [
    (
        b" \taddi\tx17 ,x0,93\r\naddi x10, x0, 007#\nout:ecall\n",
        &[0x05D0_0893, 0x0070_0513, 0x0000_0073],
    ),
    (
        b"here: bne x1, x0, there\n jal x0, here # back\nthere:\nfence",
        &[0x0000_9463, 0xFFDF_F06F, 0x0FF0_000F],
    ),
    (
        b"jal x0, end\necall\nend :\nalso:",
        &[0x0080_006F, 0x0000_0073],
    ),
    (b"x5: jal x5, x5", &[0x0000_02EF]),
    (
        b".word 4294967295\n.word 0x0fF\n.word 00",
        &[0xFFFF_FFFF, 0x0000_00FF, 0],
    ),
    (
        b"lui x1, -524288\nlw x5, -4(x2)\nsw x5, -0(x2)",
        &[0x8000_00B7, 0xFFC1_2283, 0x0051_2023],
    ),
    (
        b"beq x0, x0, -4096\nsrai x1, x2, 63\nebreak",
        &[0x8000_0063, 0x43F1_5093, 0x0010_0073],
    ),
];

// Loads 12 bytes of code from offset 120 to 0x10078, to read, to write and to execute, and begins there.
const FILE: [u8; 132] = [
    0x7F, 0x45, 0x4C, 0x46, 2, 1, 1, 0, 0, 0, 0, 0, 0, 0, 0, 0, // file identification
    2, 0, 0xF3, 0, 1, 0, 0, 0, 0x78, 0, 1, 0, 0, 0, 0, 0, // type, machine, version, entry
    0x40, 0, 0, 0, 0, 0, 0, 0, 0, 0, 0, 0, 0, 0, 0, 0, // table offset, section table offset
    0, 0, 0, 0, 0x40, 0, 0x38, 0, 1, 0, 0, 0, 0, 0, 0, 0, // flags, sizes and lengths
    1, 0, 0, 0, 7, 0, 0, 0, 120, 0, 0, 0, 0, 0, 0, 0, // kind, flags, offset
    0x78, 0, 1, 0, 0, 0, 0, 0, 0x78, 0, 1, 0, 0, 0, 0, 0, // address, physical address
    12, 0, 0, 0, 0, 0, 0, 0, 12, 0, 0, 0, 0, 0, 0, 0, // sizes in the file and in memory
    0, 0x10, 0, 0, 0, 0, 0, 0, // alignment
    0x93, 0x08, 0xD0, 0x05, 0x13, 0x05, 0x70, 0x00, 0x73, 0x00, 0x00, 0x00,
];

// So many times one line, and others behind it.
fn repeated(
    alloc: Global,
    line: &[u8],
    times: usize,
    others: &[u8],
) -> Result<Vec<u8>, AllocError> {
    let mut text = Vec::new(alloc);
    for _ in 0..times {
        text.extend_from_slice(line)?;
    }
    text.extend_from_slice(others)?;
    Ok(text)
}

// The bytes of words.
fn code_of(alloc: Global, words: &[u32]) -> Result<Vec<u8>, AllocError> {
    let mut code = Vec::new(alloc);
    for word in words {
        code.extend_from_slice(&word.to_le_bytes())?;
    }
    Ok(code)
}

// What a text is refused for, or none.
fn refusal(alloc: Global, text: &[u8]) -> Option<AsmError> {
    if text.len() > MOST_TEXT_BYTES {
        return Some(AsmError::Memory);
    }
    match assemble(alloc, text) {
        Ok(_) => None,
        Err(e) => Some(e),
    }
}

#[test]
fn each_refusal_has_its_line(rt: HostRuntime) -> Result<(), Fail> {
    for (text, error) in REFUSED {
        assert_eq!(rt; refusal(rt.alloc(), text), Some(error), "{text:?}");
    }
    Ok(())
}

#[test]
fn items_are_their_words(rt: HostRuntime) -> Result<(), Fail> {
    for (text, words) in TAKEN {
        assert_eq!(rt; refusal(rt.alloc(), text), None, "{text:?}");
        if text.len() <= MOST_TEXT_BYTES {
            let file = assemble(rt.alloc(), text).expect(&rt, "it is taken");
            let code = code_of(rt.alloc(), words)?;
            assert_eq!(rt; file.len().saturating_sub(120), code.len(), "{text:?}");
            assert!(rt; file.ends_with(code.as_slice()), "{text:?}");
        }
    }
    Ok(())
}

#[test]
fn the_file_is_as_an_assembler_makes_it(rt: HostRuntime) -> Result<(), Fail> {
    let file = assemble(rt.alloc(), b"addi x17, x0, 93\naddi x10, x0, 7\necall").expect(
        &rt,
        "it is taken",
    );
    assert!(rt; file.as_slice() == FILE.as_slice());
    assert!(rt; read_image(rt.alloc(), file.as_slice()).is_ok());
    Ok(())
}

#[test]
fn limits_are_met_and_passed(rt: HostRuntime) -> Result<(), Fail> {
    let alloc = rt.alloc();
    let most = repeated(alloc, b"ecall\n", 65536, b"")?;
    assert_eq!(rt; refusal(alloc, most.as_slice()), None);
    let more = repeated(alloc, b"ecall\n", 65536, b"end: ecall")?;
    assert_eq!(rt; refusal(alloc, more.as_slice()), Some(AsmError::TooMany));
    let mut near = repeated(alloc, b"a:\n", 1, b"")?;
    let items = repeated(alloc, b"ecall\n", 1024, b"beq x0, x0, a")?;
    near.extend_from_slice(items.as_slice())?;
    assert_eq!(rt; refusal(alloc, near.as_slice()), None);
    let mut far = repeated(alloc, b"a:\n", 1, b"")?;
    let items = repeated(alloc, b"ecall\n", 1025, b"beq x0, x0, a")?;
    far.extend_from_slice(items.as_slice())?;
    assert_eq!(rt;
        refusal(alloc, far.as_slice()),
        Some(AsmError::OutOfReach(1027))
    );
    Ok(())
}
