ghost use Rattle.std.specs.Prelude.{◌≡◌, ◌++◌, length, OnOk, IfOk};
ghost use Rattle.rv_asm.specs.File.{segment_header, file_with};

use std::alloc::{AllocError, Global};

/// The header of each file, of 64 bytes.
const FILE_HEADER: [u8; 64] = [
    0x7F, 0x45, 0x4C, 0x46, 2, 1, 1, 0, 0, 0, 0, 0, 0, 0, 0, 0, 2, 0, 0xF3, 0, 1, 0, 0, 0, 0x78, 0,
    1, 0, 0, 0, 0, 0, 0x40, 0, 0, 0, 0, 0, 0, 0, 0, 0, 0, 0, 0, 0, 0, 0, 0, 0, 0, 0, 0x40, 0, 0x38,
    0, 1, 0, 0, 0, 0, 0, 0, 0,
];

/// The program header's fields before the sizes: its kind, flags, offset and address, twice.
const SEGMENT_FRONT: [u8; 32] = [
    1, 0, 0, 0, 7, 0, 0, 0, 0x78, 0, 0, 0, 0, 0, 0, 0, 0x78, 0, 1, 0, 0, 0, 0, 0, 0x78, 0, 1, 0, 0,
    0, 0, 0,
];

/// The program header's field behind the sizes: that a segment begins at a page's start.
const SEGMENT_BACK: [u8; 8] = [0, 0x10, 0, 0, 0, 0, 0, 0];

/// The program header of a segment of so many bytes, behind what is there.
fn put_segment(file: &mut Vec<u8>, size: u64) -> Result<(), AllocError>
    ensures { OnOk result (file.new.items ≡ file.old.items ++ segment_header size) }
{
    file.extend_from_slice(&SEGMENT_FRONT)?;
    file.extend_from_slice(&size.to_le_bytes())?;
    file.extend_from_slice(&size.to_le_bytes())?;
    file.extend_from_slice(&SEGMENT_BACK)
}

/// The file of some code.
pub(crate) fn file_with(alloc: Global, code: &[u8]) -> Result<Vec<u8>, AllocError>
    ensures { IfOk result (λ file. file.items ≡ file_with (length code.now) code.now) }
{
    let mut file = Vec::with_capacity(alloc, code.len().saturating_add(120))?;
    file.extend_from_slice(&FILE_HEADER)?;
    put_segment(&mut file, code.len() as u64)?;
    file.extend_from_slice(code)?;
    Ok(file)
}
