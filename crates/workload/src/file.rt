ghost use Rattle.std.specs.Prelude.{◌≡◌, ◌++◌, IfOk, OnOk, flat_map};
ghost use Rattle.workload.specs.File.{field_bytes, made_file, program_header};

use sizes::PAGE_BYTES;
use std::alloc::{AllocError, Global};

/// A field of a file, with the names that ELF-64 has for its sizes: 1, 2, 4 and 8 bytes.
#[derive(Clone, Copy, Debug)]
enum Field {
    Byte(u8),
    Half(u16),
    Word(u32),
    Xword(u64),
}

/// The header of the file.
const FILE_HEADER: [Field; 22] = [
    // the four bytes that every ELF file begins with
    Field::Byte(0x7F),
    Field::Byte(b'E'),
    Field::Byte(b'L'),
    Field::Byte(b'F'),
    // 64 bits, low bytes first, the current version, no system's own rules, and room
    Field::Byte(2),
    Field::Byte(1),
    Field::Byte(1),
    Field::Byte(0),
    Field::Xword(0),
    // an executable, for RISC-V, by the current version
    Field::Half(2),
    Field::Half(243),
    Field::Word(1),
    // where the program begins, where the program headers stand, and that there are no section headers
    Field::Xword(0x100B0),
    Field::Xword(64),
    Field::Xword(0),
    // no flags; the sizes of this header and of a program header, and how many of those there are
    Field::Word(0),
    Field::Half(64),
    Field::Half(56),
    Field::Half(2),
    // no section headers
    Field::Half(0),
    Field::Half(0),
    Field::Half(0),
];

/// A segment that is loaded.
#[derive(Clone, Copy, Debug)]
struct Segment {
    /// 1 is to execute, 2 to write, 4 to read.
    flags: u32,
    /// Where its bytes stand in the file.
    offset: u64,
    address: u64,
    /// How many bytes it has in the file and in memory.
    file_size: u64,
    memory_size: u64,
}

/// The program, behind the headers.
const CODE: Segment = Segment {
    flags: 5,
    offset: 176,
    address: 0x100B0,
    file_size: 52,
    memory_size: 52,
};

/// The 64 pages that it stores to, which are zero at first.
const DATA: Segment = Segment {
    flags: 6,
    offset: 0,
    address: 0x20000,
    file_size: 0,
    memory_size: 0x40000,
};

/// Without end it mixes x5 by shifts and exclusive or, and stores it into one of the 64 pages.
const PROGRAM: [Field; 13] = [
    Field::Word(0x00020337), // lui x6, 32
    Field::Word(0x000403B7), // lui x7, 64
    Field::Word(0xFF838393), // addi x7, x7, -8
    Field::Word(0x00D29413), // slli x8, x5, 13
    Field::Word(0x0082C2B3), // xor x5, x5, x8
    Field::Word(0x0072D413), // srli x8, x5, 7
    Field::Word(0x0082C2B3), // xor x5, x5, x8
    Field::Word(0x01129413), // slli x8, x5, 17
    Field::Word(0x0082C2B3), // xor x5, x5, x8
    Field::Word(0x0072F4B3), // and x9, x5, x7
    Field::Word(0x006484B3), // add x9, x9, x6
    Field::Word(0x0054B023), // sd x5, 0(x9)
    Field::Word(0xFDDFF06F), // jal x0, -36
];

/// The program header of a segment.
fn program_header(segment: Segment) -> [Field; 8]
    ensures { result ≡ program_header segment }
{
    [
        Field::Word(1),
        Field::Word(segment.flags),
        Field::Xword(segment.offset),
        Field::Xword(segment.address),
        Field::Xword(segment.address),
        Field::Xword(segment.file_size),
        Field::Xword(segment.memory_size),
        Field::Xword(PAGE_BYTES as u64),
    ]
}

/// Puts a field behind what there is, from the low byte of its number on.
fn push_field(file: &mut Vec<u8>, field: Field) -> Result<(), AllocError>
    ensures { OnOk result (file.new.items ≡ file.old.items ++ field_bytes field) }
{
    match field {
        Field::Byte(number) => file.extend_from_slice(&number.to_le_bytes()),
        Field::Half(number) => file.extend_from_slice(&number.to_le_bytes()),
        Field::Word(number) => file.extend_from_slice(&number.to_le_bytes()),
        Field::Xword(number) => file.extend_from_slice(&number.to_le_bytes()),
    }
}

/// Puts fields behind what there is, in order.
fn push_fields(file: &mut Vec<u8>, fields: &[Field]) -> Result<(), AllocError>
    ensures { OnOk result (file.new.items ≡ file.old.items ++ flat_map field_bytes fields.now) }
{
    for field in fields {
        push_field(file, *field)?;
    }
    Ok(())
}

/// The file of a workload.
pub(crate) fn made_file(alloc: Global) -> Result<Vec<u8>, AllocError>
    ensures { IfOk result (λ file. file.items ≡ made_file) }
{
    let mut file = Vec::new(alloc);
    push_fields(&mut file, &FILE_HEADER)?;
    push_fields(&mut file, &program_header(CODE))?;
    push_fields(&mut file, &program_header(DATA))?;
    push_fields(&mut file, &PROGRAM)?;
    Ok(file)
}
