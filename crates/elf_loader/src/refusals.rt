ghost use Rattle.std.specs.Prelude.{◌≡◌, ℕ, ◌+◌, ◌*◌, ◌≤◌, ◌==◌, ◌&&◌, ◌||◌, not, nat_lt, length, slice_index, IfOk};
ghost use Rattle.std.specs.List.{list_any};
ghost use Rattle.sizes.specs.declared.TheConstants.{STACK_ADDRESS};
ghost use Rattle.elf_loader.specs.Accepted.{HasTable, ends_behind, header_refusals, table_refusals, first_refusal};
ghost use Rattle.elf_loader.specs.Fields.{number_at, table_offset, table_length, headers_of, loads_of};

use crate::header::{HEADER_BYTES, ProgramHeader, u16_at, u32_at, u64_at};
use crate::image::ElfError;
use std::alloc::{AllocError, Global};

/// The bytes of the file header.
const FILE_HEADER_BYTES: usize = 64;

/// The first four bytes of each ELF file, 7F 45 4C 46, as a little-endian number.
const MAGIC: u32 = 0x464C_457F;

/// The number of program headers that stands for one that is kept elsewhere.
const ELSEWHERE: u16 = 65535;

/// Whether the first bytes are others than those of each ELF file.
fn has_bad_magic(file: &[u8]) -> bool
    requires { 64 ≤ length file.now }
    ensures { result ≡ (not (number_at file.now 0 4 == 0x464C457F)) }
{
    u32_at(file, 0) != MAGIC
}

/// Whether the class is another than that of 64 bits.
fn is_not_class_64(file: &[u8]) -> bool
    requires { 64 ≤ length file.now }
    ensures { result ≡ (not (slice_index file.now 4 == 2)) }
{
    file[4] != 2
}

/// Whether the order of bytes is another than little-endian.
fn is_not_little(file: &[u8]) -> bool
    requires { 64 ≤ length file.now }
    ensures { result ≡ (not (slice_index file.now 5 == 1)) }
{
    file[5] != 1
}

/// Whether the file says another version than the current one.
fn has_bad_version(file: &[u8]) -> bool
    requires { 64 ≤ length file.now }
    ensures { result ≡ (not (slice_index file.now 6 == 1) || not (number_at file.now 20 4 == 1)) }
{
    file[6] != 1 || u32_at(file, 20) != 1
}

/// Whether the file is anything but a static executable.
fn is_not_executable(file: &[u8]) -> bool
    requires { 64 ≤ length file.now }
    ensures { result ≡ (not (number_at file.now 16 2 == 2)) }
{
    u16_at(file, 16) != 2
}

/// Whether the file is for another machine than RISC-V.
fn is_not_riscv(file: &[u8]) -> bool
    requires { 64 ≤ length file.now }
    ensures { result ≡ (not (number_at file.now 18 2 == 243)) }
{
    u16_at(file, 18) != 243
}

/// Whether there are program headers, of another size than 56 bytes.
fn has_bad_entry_size(file: &[u8]) -> bool
    requires { 64 ≤ length file.now }
    ensures { result ≡ (not (table_length file.now == 0) && not (number_at file.now 54 2 == 56)) }
{
    u16_at(file, 56) != 0 && u16_at(file, 54) != 56
}

/// Whether the table of program headers isn't all in the file.
fn has_table_outside(file: &[u8]) -> bool
    requires { 64 ≤ length file.now }
    ensures { result ≡ ((table_length file.now == 65535)
        || ends_behind (length file.now) (table_offset file.now) (56 * table_length file.now)) }
{
    let count = u16_at(file, 56);
    let table = HEADER_BYTES as u64 * u64::from(count);
    let size = file.len() as u64;
    count == ELSEWHERE || count != 0 && (size < table || size - table < u64_at(file, 32))
}

/// The first refusal by the file header.
#[tactic(auto, unfolding(crate::specs::Accepted::header_refusals))]
pub(crate) fn header_refusal(file: &[u8]) -> Option<ElfError>
    ensures { result ≡ first_refusal (header_refusals file.now) }
{
    if file.len() < FILE_HEADER_BYTES {
        Some(ElfError::TooShort)
    } else if has_bad_magic(file) {
        Some(ElfError::BadMagic)
    } else if is_not_class_64(file) {
        Some(ElfError::NotClass64)
    } else if is_not_little(file) {
        Some(ElfError::NotLittle)
    } else if has_bad_version(file) {
        Some(ElfError::BadVersion)
    } else if is_not_executable(file) {
        Some(ElfError::NotExec)
    } else if is_not_riscv(file) {
        Some(ElfError::NotRiscv)
    } else if has_bad_entry_size(file) {
        Some(ElfError::BadEntrySize)
    } else if has_table_outside(file) {
        Some(ElfError::TableOutside)
    } else {
        None
    }
}

/// The segments to load, in the order of the table.
pub(crate) fn read_loads(alloc: Global, file: &[u8]) -> Result<Vec<ProgramHeader>, AllocError>
    requires long { 64 ≤ length file.now }
    requires in_file { HasTable file.now }
    ensures { IfOk result (λ loads. loads.items ≡ loads_of file.now) }
{
    let table = u64_at(file, 32) as usize;
    let count = u16_at(file, 56) as usize;
    let mut loads = Vec::new(alloc);
    for k in 0..count {
        let header = ProgramHeader::read(file, table + HEADER_BYTES * k);
        if header.kind == 1 {
            loads.push(header)?;
        }
    }
    Ok(loads)
}

/// Whether some program header names an interpreter.
fn needs_interpreter(file: &[u8]) -> bool
    requires long { 64 ≤ length file.now }
    requires in_file { HasTable file.now }
    ensures { result ≡ list_any (λ header. header.kind == 3) (headers_of file.now) }
{
    let table = u64_at(file, 32) as usize;
    let count = u16_at(file, 56) as usize;
    for k in 0..count {
        if u32_at(file, table + HEADER_BYTES * k) == 3 {
            return true;
        }
    }
    false
}

/// Whether some segment has more bytes in the file than in memory.
fn some_larger_in_file(loads: &[ProgramHeader]) -> bool
    ensures { result ≡ list_any (λ load. nat_lt load.memory_size load.file_size) loads.now }
{
    loads.iter().any(|header| header.is_larger_in_file())
}

/// Whether some segment has bytes that would lie behind the end of a file of so many bytes.
fn some_outside_file(loads: &[ProgramHeader], size: u64) -> bool
    ensures { result ≡ list_any (λ load. ends_behind size load.offset load.file_size) loads.now }
{
    loads.iter().any(|header| header.is_outside_file(size))
}

/// Whether some segment reaches above what an image may use.
fn some_too_high(loads: &[ProgramHeader]) -> bool
    ensures { result ≡ list_any (λ load. ends_behind STACK_ADDRESS load.address load.memory_size) loads.now }
{
    loads.iter().any(|header| header.is_too_high())
}

/// Whether some segment has bytes in memory.
fn some_memory(loads: &[ProgramHeader]) -> bool
    ensures { result ≡ list_any (λ load. nat_lt 0 load.memory_size) loads.now }
{
    loads.iter().any(|header| header.has_memory())
}

/// The first refusal by the program headers, of which `loads` are those to load.
#[tactic(auto, unfolding(crate::specs::Accepted::table_refusals))]
pub(crate) fn table_refusal(file: &[u8], loads: &[ProgramHeader]) -> Option<ElfError>
    requires long { 64 ≤ length file.now }
    requires in_file { HasTable file.now }
    requires loads { loads.now ≡ loads_of file.now }
    ensures { result ≡ first_refusal (table_refusals file.now) }
{
    if needs_interpreter(file) {
        Some(ElfError::NeedsInterpreter)
    } else if some_larger_in_file(loads) {
        Some(ElfError::FileLarger)
    } else if some_outside_file(loads, file.len() as u64) {
        Some(ElfError::SegmentOutside)
    } else if some_too_high(loads) {
        Some(ElfError::AddressOutside)
    } else if !some_memory(loads) {
        Some(ElfError::NothingToLoad)
    } else {
        None
    }
}
