use std::alloc::{AllocError, Global};
use std::process::Abort;

mod images;
mod refusals;

// Loads 12 bytes of code from offset 120 to 0x10078, to read and to execute, and begins there.
const FILE: [u8; 132] = [
    0x7F, 0x45, 0x4C, 0x46, 2, 1, 1, 0, 0, 0, 0, 0, 0, 0, 0, 0, // file identification
    2, 0, 0xF3, 0, 1, 0, 0, 0, 0x78, 0, 1, 0, 0, 0, 0, 0, // type, machine, version, entry
    0x40, 0, 0, 0, 0, 0, 0, 0, 0, 0, 0, 0, 0, 0, 0, 0, // table offset, section table offset
    0, 0, 0, 0, 0x40, 0, 0x38, 0, 1, 0, 0, 0, 0, 0, 0, 0, // flags, sizes and lengths
    1, 0, 0, 0, 5, 0, 0, 0, 120, 0, 0, 0, 0, 0, 0, 0, // kind, flags, offset
    0x78, 0, 1, 0, 0, 0, 0, 0, 0x78, 0, 1, 0, 0, 0, 0, 0, // address, physical address
    12, 0, 0, 0, 0, 0, 0, 0, 12, 0, 0, 0, 0, 0, 0, 0, // sizes in the file and in memory
    0, 0x10, 0, 0, 0, 0, 0, 0, // alignment
    0x93, 0x08, 0xD0, 0x05, 0x13, 0x05, 0x70, 0x00, 0x73, 0x00, 0x00, 0x00,
];

// Where its fields of 8 bytes stand.
const ENTRY: usize = 24;

const TABLE_OFFSET: usize = 32;

const OFFSET: usize = 72;

const ADDRESS: usize = 80;

const FILE_SIZE: usize = 96;

const MEMORY_SIZE: usize = 104;

const LAST: u64 = 0xFFFFFFFFFFFFFFFF;

// A program header: kind, flags, offset, address, size in the file, size in memory.
type Row = (u32, u32, u64, u64, u64, u64);

// 16 bytes at offset 64 of the files that `file_of` makes, for segments to load.
const BYTES: [u8; 16] = [
    0xA0, 0xA1, 0xA2, 0xA3, 0xA4, 0xA5, 0xA6, 0xA7, 0xA8, 0xA9, 0xAA, 0xAB, 0xAC, 0xAD, 0xAE, 0xAF,
];

// A file with those bytes and these program headers behind them.
fn file_of(alloc: Global, rows: &[Row]) -> Result<Vec<u8>, AllocError> {
    let mut head = FILE;
    head[TABLE_OFFSET] = 80;
    head[56..58].copy_from_slice(&((rows.len() % 65536) as u16).to_le_bytes());
    let mut file = head[..64].to_vec(alloc)?;
    file.extend_from_slice(&BYTES)?;
    for &(kind, flags, offset, address, file_size, memory_size) in rows {
        file.extend_from_slice(&kind.to_le_bytes())?;
        file.extend_from_slice(&flags.to_le_bytes())?;
        for number in [offset, address, address, file_size, memory_size, 4096] {
            file.extend_from_slice(&number.to_le_bytes())?;
        }
    }
    Ok(file)
}

// The first file with other numbers in some fields of 8 bytes.
fn changed(rt: &impl Abort, numbers: &[(usize, u64)]) -> [u8; 132] {
    let mut file = FILE;
    for &(at, number) in numbers {
        assert!(rt; at <= 124);
        file[at..at + 8].copy_from_slice(&number.to_le_bytes());
    }
    file
}
