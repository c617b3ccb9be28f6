ghost use Rattle.std.specs.Prelude.{◌≡◌, ◌+◌, ◌-◌, ◌≤◌, ◌<◌, length, max, min, All, IfOk, MatchResult, if◌then◌else◌};
ghost use Rattle.std.specs.List.Sorted.{IsNonDecreasingBy, IsPermutation};
ghost use Rattle.sizes.specs.declared.TheConstants.{ADDRESS_END, MOST_IMAGE_PAGES};
ghost use Rattle.ovl_io.specs.Permissions.{readable, writable, executable};
ghost use Rattle.elf_loader.specs.Touched.{pages_in};
ghost use Rattle.elf_loader.specs.Image.{all_pages};
ghost use Rattle.elf_loader.specs.Reach.{pages_end, first_page, memory_end, file_end, end_with, page_at, Adds, reached, AreCounted, IsBelowStack, IsTooMany};

use crate::header::ProgramHeader;
use crate::image::{ElfError, ImagePage};
use bitflags::Flags;
use ovl_io::Perms;
use sizes::{MOST_IMAGE_PAGES, PAGE_BYTES, PAGE_END};
use std::alloc::{AllocError, Global};

/// How far some segments reach: the number of the page behind the last one that they touch, and of those
/// alone that may be read, written or executed, and that they touch by bytes of the file. Each is 0
/// where there is no such page.
#[derive(Clone, Copy, Debug, PartialEq, Eq)]
pub(crate) struct Reach {
    memory: u64,
    read: u64,
    write: u64,
    execute: u64,
    file: u64,
}

/// The number of the page behind the last one that a range touches, or 0 for an empty range.
pub(crate) fn pages_end(address: u64, size: u64) -> u64
    requires { 0 < size → address + size ≤ ADDRESS_END }
    ensures { result ≡ pages_end address size }
{
    if size == 0 {
        0
    } else {
        (address + size - 1) / PAGE_BYTES as u64 + 1
    }
}

/// The first page that a segment touches, or 0 where it touches none.
fn first_page(header: &ProgramHeader) -> u64
    ensures { result ≡ first_page header.now }
{
    if header.memory_size == 0 {
        0
    } else {
        header.address / PAGE_BYTES as u64
    }
}

/// The end of a segment that has a permission, else 0.
fn end_with(header: &ProgramHeader, need: Perms) -> u64
    requires { IsBelowStack header.now }
    ensures { result ≡ end_with need.0 header.now }
{
    if header.perms().contains(need) {
        pages_end(header.address, header.memory_size)
    } else {
        0
    }
}

/// The permission where it is there, else none.
fn perms_if(is_there: bool, perms: Perms) -> Perms
    ensures { result.0 ≡ (if is_there then perms.0 else 0) }
{
    if is_there { perms } else { Perms::empty() }
}

impl Reach {
    /// The reach of no segments.
    fn of_none() -> Reach
        ensures { result ≡ record { memory = 0; read = 0; write = 0; execute = 0; file = 0 } }
    {
        Reach {
            memory: 0,
            read: 0,
            write: 0,
            execute: 0,
            file: 0,
        }
    }

    /// The reach of one segment more.
    fn with(&self, header: &ProgramHeader) -> Reach
        requires { IsBelowStack header.now }
        ensures memory { result.memory ≡ max self.now.memory (memory_end header.now) }
        ensures read { result.read ≡ max self.now.read (end_with readable header.now) }
        ensures write { result.write ≡ max self.now.write (end_with writable header.now) }
        ensures execute { result.execute ≡ max self.now.execute (end_with executable header.now) }
        ensures file { result.file ≡ max self.now.file (file_end header.now) }
    {
        Reach {
            memory: self
                .memory
                .max(pages_end(header.address, header.memory_size)),
            read: self.read.max(end_with(header, Perms::R)),
            write: self.write.max(end_with(header, Perms::W)),
            execute: self.execute.max(end_with(header, Perms::X)),
            file: self.file.max(pages_end(header.address, header.file_size)),
        }
    }

    /// A page that the segments touch, where they all begin in it or before it.
    fn page(&self, page: u64) -> ImagePage
        ensures { result ≡ page_at self.now page }
    {
        let perms = perms_if(page < self.read, Perms::R)
            .union(perms_if(page < self.write, Perms::W))
            .union(perms_if(page < self.execute, Perms::X));
        ImagePage {
            page,
            perms,
            stored: page < self.file,
        }
    }

    /// Appends the pages from one number up to another.
    fn append(&self, pages: &mut Vec<ImagePage>, from: u64, end: u64) -> Result<(), AllocError>
        requires { from ≤ end }
        ensures { IfOk result (λ _. Adds self.now from (end - from) pages.old.items pages.new.items) }
    {
        for page in from..end {
            pages.push(self.page(page))?;
        }
        Ok(())
    }

    /// Appends the pages from one number up to another that the segments touch.
    fn fill(&self, pages: &mut Vec<ImagePage>, from: u64, to: u64) -> Result<(), ElfError>
        requires { length pages.old.items ≤ MOST_IMAGE_PAGES }
        ensures pages { IfOk result (λ _.
            Adds self.now from (reached self.now from to) pages.old.items pages.new.items) }
        ensures few { MatchResult result (λ _. length pages.new.items ≤ MOST_IMAGE_PAGES)
            (IsTooMany (length pages.old.items + reached self.now from to)) }
    {
        let end = to.min(self.memory);
        if end <= from {
            return Ok(());
        }
        if MOST_IMAGE_PAGES as u64 - (pages.len() as u64) < end - from {
            return Err(ElfError::TooManyPages);
        }
        self.append(pages, from, end)?;
        Ok(())
    }
}

/// The pages that segments touch, which are sorted by the first page of each.
fn sweep(alloc: Global, sorted: &[ProgramHeader]) -> Result<Vec<ImagePage>, ElfError>
    requires sorted { IsNonDecreasingBy first_page sorted.now }
    requires below { All IsBelowStack sorted.now }
    ensures pages { IfOk result (λ pages. pages.items ≡ all_pages sorted.now) }
    ensures few { AreCounted result (length (pages_in sorted.now)) }
{
    let mut pages = Vec::new(alloc);
    let mut reach = Reach::of_none();
    let mut at = 0;
    for header in sorted {
        let first = first_page(header);
        reach.fill(&mut pages, at, first)?;
        reach = reach.with(header);
        at = first;
    }
    reach.fill(&mut pages, at, PAGE_END)?;
    Ok(pages)
}

/// The segments in the order of their first pages.
fn by_first_page(alloc: Global, loads: &[ProgramHeader]) -> Result<Vec<ProgramHeader>, AllocError>
    ensures sorted { IfOk result (λ sorted. IsNonDecreasingBy first_page sorted.items) }
    ensures moved { IfOk result (λ sorted. IsPermutation loads.now sorted.items) }
{
    let mut sorted: Vec<ProgramHeader> = loads.iter().copied().collect(alloc)?;
    sorted.sort_unstable_by_key(|header| first_page(header));
    Ok(sorted)
}

/// The pages that the segments to load touch, ascending.
pub(crate) fn touched_pages(
    alloc: Global,
    loads: &[ProgramHeader],
) -> Result<Vec<ImagePage>, ElfError>
    requires { All IsBelowStack loads.now }
    ensures pages { IfOk result (λ pages. pages.items ≡ all_pages loads.now) }
    ensures few { AreCounted result (length (pages_in loads.now)) }
{
    let sorted = by_first_page(alloc, loads)?;
    sweep(alloc, sorted.as_slice())
}
