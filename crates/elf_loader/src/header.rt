ghost use Rattle.std.specs.Prelude.{◌≡◌, ℕ, ◌+◌, ◌-◌, ◌*◌, ◌<◌, ◌≤◌, nat_lt, length, slice_index, if◌then◌else◌};
ghost use Rattle.sizes.specs.declared.TheConstants.{PAGE_BYTES, PAGE_END, STACK_ADDRESS};
ghost use Rattle.elf_loader.specs.Fields.{number_at, header_at};
ghost use Rattle.elf_loader.specs.Accepted.{ends_behind};
ghost use Rattle.elf_loader.specs.Reach.{IsAddressed, IsInFile};
ghost use Rattle.elf_loader.specs.Image.{file_holds, fills, perms_of};

use bitflags::Flags;
use byteorder::{ByteOrder, LittleEndian};
use ovl_io::Perms;
use sizes::{PAGE_BYTES, STACK_ADDRESS};

/// The bytes of a program header in the table.
pub(crate) const HEADER_BYTES: usize = 56;

/// A program header (ELF-64, "Program Header"): the fields that are read.
#[derive(Clone, Copy, Debug, PartialEq, Eq)]
pub struct ProgramHeader {
    /// p_type: 1 for a segment to load.
    pub kind: u32,
    /// p_flags: 1 to execute, 2 to write, 4 to read.
    pub flags: u32,
    /// p_offset: where the segment's bytes begin in the file.
    pub offset: u64,
    /// p_vaddr: the address of its first byte.
    pub address: u64,
    /// p_filesz: how many of its bytes are in the file.
    pub file_size: u64,
    /// p_memsz: how many bytes it has.
    pub memory_size: u64,
}

/// The 16-bit number at an offset.
pub(crate) fn u16_at(file: &[u8], offset: usize) -> u16
    requires { offset + 2 ≤ length file.now }
    ensures { result ≡ number_at file.now offset 2 }
{
    LittleEndian::read_u16(&file[offset..])
}

/// The 32-bit number at an offset.
pub(crate) fn u32_at(file: &[u8], offset: usize) -> u32
    requires { offset + 4 ≤ length file.now }
    ensures { result ≡ number_at file.now offset 4 }
{
    LittleEndian::read_u32(&file[offset..])
}

/// The 64-bit number at an offset.
pub(crate) fn u64_at(file: &[u8], offset: usize) -> u64
    requires { offset + 8 ≤ length file.now }
    ensures { result ≡ number_at file.now offset 8 }
{
    LittleEndian::read_u64(&file[offset..])
}

impl ProgramHeader {
    /// The program header that begins at an offset.
    pub(crate) fn read(file: &[u8], offset: usize) -> ProgramHeader
        requires { offset + 56 ≤ length file.now }
        ensures { result ≡ header_at file.now offset }
    {
        ProgramHeader {
            kind: u32_at(file, offset),
            flags: u32_at(file, offset + 4),
            offset: u64_at(file, offset + 8),
            address: u64_at(file, offset + 16),
            file_size: u64_at(file, offset + 32),
            memory_size: u64_at(file, offset + 40),
        }
    }

    /// Whether its part in the file is larger than it is in memory.
    pub(crate) fn is_larger_in_file(&self) -> bool
        ensures { result ≡ nat_lt self.now.memory_size self.now.file_size }
    {
        self.memory_size < self.file_size
    }

    /// Whether some of its bytes would lie behind the end of a file of so many bytes.
    pub(crate) fn is_outside_file(&self, size: u64) -> bool
        ensures { result ≡ ends_behind size self.now.offset self.now.file_size }
    {
        0 < self.file_size && (size < self.file_size || size - self.file_size < self.offset)
    }

    /// Whether it reaches above what an image may use.
    pub(crate) fn is_too_high(&self) -> bool
        ensures { result ≡ ends_behind STACK_ADDRESS self.now.address self.now.memory_size }
    {
        0 < self.memory_size
            && (STACK_ADDRESS < self.memory_size || STACK_ADDRESS - self.memory_size < self.address)
    }

    /// Whether it has bytes in memory.
    pub(crate) fn has_memory(&self) -> bool
        ensures { result ≡ nat_lt 0 self.now.memory_size }
    {
        0 < self.memory_size
    }

    /// The segment's permissions: what may be written may be read.
    pub(crate) fn perms(&self) -> Perms
        ensures { result ≡ record { 0 = perms_of self.now } }
    {
        let perms = Perms::from_bits_retain((self.flags & 7) as u8);
        if perms.contains(Perms::W) {
            perms.union(Perms::R)
        } else {
            perms
        }
    }

    /// Whether its bytes in the file fill a page.
    pub(crate) fn fills(&self, page: u64) -> bool
        requires { page < PAGE_END }
        ensures { result ≡ fills page self.now }
    {
        let base = page * PAGE_BYTES as u64;
        self.address <= base
            && PAGE_BYTES as u64 <= self.file_size
            && base - self.address <= self.file_size - PAGE_BYTES as u64
    }

    /// Puts the bytes of the segment that lie in a page at their places in it. The other bytes stay.
    pub(crate) fn lay(&self, file: &[u8], page: u64, out: &mut [u8; PAGE_BYTES])
        requires in_file { IsInFile file.now self.now }
        requires in_memory { IsAddressed self.now }
        requires is_page { page < PAGE_END }
        ensures { (i : ℕ) → i < PAGE_BYTES → slice_index out.new i
            ≡ (if file_holds self.now (PAGE_BYTES * page + i)
            then slice_index file.now (self.now.offset + (PAGE_BYTES * page + i - self.now.address))
            else slice_index out.old i) }
    {
        if self.file_size == 0 {
            return;
        }
        let base = page * PAGE_BYTES as u64;
        let start = base.max(self.address);
        let end = (base + PAGE_BYTES as u64).min(self.address + self.file_size);
        if start < end {
            let from = (self.offset + (start - self.address)) as usize;
            let at = (start - base) as usize;
            let n = (end - start) as usize;
            out[at..at + n].copy_from_slice(&file[from..from + n]);
        }
    }
}
