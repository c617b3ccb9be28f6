//! What is made of a seed: bytes as a generator gives them that was written apart from this one, and what they say.

use elf_loader::read_image;
use report_text::{Line, disasm_line};
use script_text::{line_count, parse};
use sizes::MOST_SCRIPT_BYTES;
use std::test::Fail;
use workload::make;

// The first lines of the script of the seed 1, with a command of each kind, and its last ones.
const FIRST: &str = "load gen.elf
set 1 x5 908834775
run 100000
speculate 1
run 20000
commit 6
run 20000
restore 4 c2
run 20000
discard 5
run 20000
fork 3
run 20000
commit 6
run 20000
checkpoint 2 c1
run 20000
restore 1 c1
run 20000
fork 1
run 20000
speculate 5
run 20000
commit 1
run 20000
restore 1 c2
run 20000
commit 5
run 20000
set 5 x5 2119158411
run 20000
fork 4
run 20000
promote 4 all
";

const LAST: &str = "discard 6
run 20000
speculate 4
run 20000
speculate 3
run 20000
compact
list
stats
";

// The file of each seed.
const FILE: [u8; 228] = [
    0x7F, 0x45, 0x4C, 0x46, 2, 1, 1, 0, 0, 0, 0, 0, 0, 0, 0, 0, // file identification
    2, 0, 0xF3, 0, 1, 0, 0, 0, 0xB0, 0, 1, 0, 0, 0, 0, 0, // type, machine, version, entry
    0x40, 0, 0, 0, 0, 0, 0, 0, 0, 0, 0, 0, 0, 0, 0, 0, // table offset, section table offset
    0, 0, 0, 0, 0x40, 0, 0x38, 0, 2, 0, 0, 0, 0, 0, 0, 0, // flags, sizes and lengths
    1, 0, 0, 0, 5, 0, 0, 0, 0xB0, 0, 0, 0, 0, 0, 0, 0, // the program: kind, flags, offset
    0xB0, 0, 1, 0, 0, 0, 0, 0, 0xB0, 0, 1, 0, 0, 0, 0, 0, // address, physical address
    0x34, 0, 0, 0, 0, 0, 0, 0, 0x34, 0, 0, 0, 0, 0, 0, 0, // sizes in the file and in memory
    0, 0x10, 0, 0, 0, 0, 0, 0, // alignment
    1, 0, 0, 0, 6, 0, 0, 0, 0, 0, 0, 0, 0, 0, 0, 0, // its data: kind, flags, offset
    0, 0, 2, 0, 0, 0, 0, 0, 0, 0, 2, 0, 0, 0, 0, 0, // address, physical address
    0, 0, 0, 0, 0, 0, 0, 0, 0, 0, 4, 0, 0, 0, 0, 0, // sizes in the file and in memory
    0, 0x10, 0, 0, 0, 0, 0, 0, // alignment
    0x37, 3, 2, 0, 0xB7, 3, 4, 0, 0x93, 0x83, 0x83, 0xFF, 0x13, 0x94, 0xD2, 0, 0xB3, 0xC2, 0x82, 0,
    0x13, 0xD4, 0x72, 0, 0xB3, 0xC2, 0x82, 0, 0x13, 0x94, 0x12, 1, 0xB3, 0xC2, 0x82, 0, 0xB3, 0xF4,
    0x72, 0, 0xB3, 0x84, 0x64, 0, 0x23, 0xB0, 0x54, 0, 0x6F, 0xF0, 0xDF, 0xFD,
];

// The words of its program, each with its text.
const PROGRAM: &str = "00020337 lui x6, 32
000403b7 lui x7, 64
ff838393 addi x7, x7, -8
00d29413 slli x8, x5, 13
0082c2b3 xor x5, x5, x8
0072d413 srli x8, x5, 7
0082c2b3 xor x5, x5, x8
01129413 slli x8, x5, 17
0082c2b3 xor x5, x5, x8
0072f4b3 and x9, x5, x7
006484b3 add x9, x9, x6
0054b023 sd x5, 0(x9)
fddff06f jal x0, -36";

#[test]
fn a_seed_makes_a_script_and_a_file(rt: HostRuntime) -> Result<(), Fail> {
    let made = make(rt.alloc(), 1)?;
    assert!(rt; made.script.as_slice().starts_with(FIRST.as_bytes()));
    assert!(rt; made.script.as_slice().ends_with(LAST.as_bytes()));
    assert!(rt; made.file.as_slice() == FILE.as_slice());
    Ok(())
}

#[test]
fn each_seed_makes_commands_and_an_image(rt: HostRuntime) -> Result<(), Fail> {
    for seed in [0, 1, 2, 3, 42, 1 << 31, 1 << 63, u64::MAX] {
        let made = make(rt.alloc(), seed)?;
        let script = made.script.as_slice();
        assert!(rt; script.len() <= MOST_SCRIPT_BYTES);
        assert_eq!(rt; line_count(script), 86, "{seed}");
        let commands = parse(rt.alloc(), script)?;
        assert_eq!(rt; commands.len(), 86, "{seed}");
        let image = read_image(rt.alloc(), made.file.as_slice())?;
        assert_eq!(rt; image.pages().len(), 65);
        assert_eq!(rt; image.entry(), 0x100B0);
    }
    Ok(())
}

#[test]
fn its_words_are_the_instructions_that_were_meant(rt: HostRuntime) -> Result<(), Fail> {
    let mut out = Line::new();
    let mut at: usize = 176;
    for row in PROGRAM.split('\n') {
        let (digits, _) = row.split_once(' ').expect(&rt, "a row has two parts");
        let word = u32::from_str_radix(digits, 16).expect(&rt, "a row begins with a word");
        assert!(rt; FILE.get(at..at.saturating_add(4)) == Some(word.to_le_bytes().as_slice()));
        disasm_line(0x10000, word, &mut out);
        let want = format!(in rt.alloc(); "0000000000010000 {row}\n")?;
        assert!(rt; out.as_slice() == want.as_bytes(), "{row}");
        at = at.saturating_add(4);
    }
    assert_eq!(rt; at, FILE.len());
    Ok(())
}
