ghost use Rattle.std.specs.Prelude.{◌≡◌, ◌^◌, ◌<◌, Contains, map};
ghost use Rattle.elf_loader.specs.Image.{IsImageOf, ReadsImage, page_bytes};

use crate::header::{ProgramHeader, u64_at};
use crate::layers::{lay_all, layers_of, place_of};
use crate::refusals::{header_refusal, read_loads, table_refusal};
use crate::sweep::touched_pages;
use ovl_io::Perms;
use sizes::PAGE_BYTES;
use std::alloc::{AllocError, Global};
use std::marker::Model;

/// Why a file isn't taken (ELF-64, "ELF Header" and "Program Header"). The first that holds is the answer;
/// want of memory may come in its place. Sums don't wrap.
#[derive(Clone, Copy, Debug, PartialEq, Eq)]
pub enum ElfError {
    /// It has fewer than 64 bytes.
    TooShort,
    /// Bytes 0 to 3 aren't 7F 45 4C 46.
    BadMagic,
    /// Byte 4 isn't 2: the file isn't of the 64-bit class.
    NotClass64,
    /// Byte 5 isn't 1: its numbers aren't little-endian.
    NotLittle,
    /// Byte 6 isn't 1, or e_version isn't 1.
    BadVersion,
    /// e_type isn't 2: it isn't a static executable.
    NotExec,
    /// e_machine isn't 243.
    NotRiscv,
    /// It has program headers, and e_phentsize isn't 56.
    BadEntrySize,
    /// e_phnum is 65,535, or the table of program headers ends behind the file.
    TableOutside,
    /// Some program header has p_type 3: it asks for an interpreter.
    NeedsInterpreter,
    /// Some segment to load has more bytes in the file than in memory.
    FileLarger,
    /// Some segment to load has bytes in the file, and they end behind it.
    SegmentOutside,
    /// Some segment to load has bytes in memory, and they end above 2^38 - 65,536.
    AddressOutside,
    /// No segment to load has bytes in memory.
    NothingToLoad,
    /// The segments to load touch more than 65,536 different pages.
    TooManyPages,
    /// There is no memory for its image.
    Memory,
}

/// A page of an image: its number, its permissions, and whether the file has bytes of it.
#[derive(Clone, Copy, Debug, PartialEq, Eq)]
pub struct ImagePage {
    pub page: u64,
    pub perms: Perms,
    pub stored: bool,
}

/// The image of a file, without the file's bytes.
#[derive(Debug, Drop)]
pub struct Image {
    entry: u64,
    pages: Vec<ImagePage>,
    loads: Vec<ProgramHeader>,
    /// For each page the places of the segments that it takes its bytes from, the last one first.
    layers: Vec<Vec<usize>>,
}

impl Model for Image {
    ghost use Rattle.elf_loader.specs.Image.{KeptImage};

    ghost Value = { KeptImage };

    ghost view = { λ i. record { entry = i.entry; pages = i.pages.items; loads = i.loads.items } };

    ghost use Rattle.elf_loader.specs.Layers.{HasLayers};

    ghost invariant = { λ i. HasLayers i.loads.items i.pages.items i.layers.items };
}

impl Image {
    /// The address of the first instruction.
    pub fn entry(&self) -> u64
        ensures { result ≡ self.now.entry }
    {
        self.entry
    }

    /// The pages, ascending.
    pub fn pages(&self) -> &[ImagePage]
        ensures { result.now ≡ self.now.pages }
    {
        self.pages.as_slice()
    }

    /// The bytes of a page, from the file that the image was read from.
    pub fn fill_page(&self, file: &[u8], page: u64, out: &mut [u8; PAGE_BYTES])
        requires of_file { IsImageOf file.now self.now }
        requires is_there { Contains (map (λ p. p.page) self.now.pages) page }
        ensures { out.new ≡ page_bytes file.now page }
    {
        let place = place_of(self.pages.as_slice(), page);
        let layers = self.layers[place].as_slice();
        lay_all(self.loads.as_slice(), layers, file, page, out);
    }
}

/// ReadsImage the image of a file: where it is taken the image, else the first reason why it isn't. Takes
/// memory for a few words a page and none for the bytes.
pub fn read_image(alloc: Global, bytes: &[u8]) -> Result<Image, ElfError>
    ensures { ReadsImage bytes.now result }
{
    if let Some(error) = header_refusal(bytes) {
        return Err(error);
    }
    let loads = read_loads(alloc, bytes)?;
    if let Some(error) = table_refusal(bytes, loads.as_slice()) {
        return Err(error);
    }
    let pages = touched_pages(alloc, loads.as_slice())?;
    let layers = layers_of(alloc, loads.as_slice(), pages.as_slice())?;
    Ok(Image {
        entry: u64_at(bytes, 24),
        pages,
        loads,
        layers,
    })
}

impl From<AllocError> for ElfError {
    ghost use Rattle.elf_loader.specs.declared.image.ElfError.TheVariants.{Memory};

    ghost from_gives = { λ _ e. e ≡ Memory };

    fn from(_: AllocError) -> ElfError {
        ElfError::Memory
    }
}
