//! What a load makes of an image: its pages, and the stack.

ghost use Rattle.std.specs.Prelude.{◌≡◌, ℕ, ◌+◌, ◌*◌, ◌<◌, ◌≤◌, length, map, Contains, true, false, OnOk, OnErr, None};
ghost use Rattle.std.specs.FinMap as map;
ghost use Rattle.sizes.specs.declared.TheConstants.{FRAME_UNITS, LAST_SPACE, MOST_IMAGE_PAGES, MOST_SPACE_PAGES, PAGE_END, STACK_PAGE};
ghost use Rattle.elf_loader.specs.Image.{IsImageOf, page_bytes};
ghost use Rattle.ledger.specs.Units.{units};
ghost use Rattle.overlay_pages.specs.Changes.{AreAbsent, limit_of, units_of, with_zeros};
ghost use Rattle.overlay_pages.specs.State.{books};
ghost use Rattle.overlay_memory.specs.View.{NoneAwaits, state_of, translations_of};
ghost use Rattle.space_maps.specs.Spaces.{bare_space, holds_space, page_in, space_in};
ghost use Rattle.machine_core.specs.Load.{loaded_ledger, stored_count, stored_pages};
ghost use Rattle.machine_core.specs.Loading.{AreZeroPages, HasImage, HasStack, IsAdded, HasOpened, IsReady, HasPages, IsSpaceOf, IsUnseen, listed_at};

use bitflags::Flags;
use elf_loader::{Image, ImagePage};
use overlay_memory::{OverlayMemory, SpaceError};
use ovl_io::Perms;
use sizes::{PAGE_BYTES, STACK_PAGE, STACK_PAGES};
use std::alloc::AllocError;

/// How many of some pages are stored.
pub(crate) fn stored_in(pages: &[ImagePage]) -> u32
    requires { length pages.now ≤ MOST_IMAGE_PAGES }
    ensures count { result ≡ stored_count (map (λ page. page.stored) pages.now) }
    ensures few { result ≤ MOST_IMAGE_PAGES }
{
    let mut count = 0u32;
    'counting: for page in pages {
        if page.stored {
            count += 1;
        }
    }
    count
}

/// Places a page that isn't there in a frame of its own; the units for it are there. After want of memory the spaces are as
/// before.
fn place(
    memory: &mut OverlayMemory,
    p: u16,
    page: u64,
    perms: Perms,
    bytes: &[u8; PAGE_BYTES],
) -> Result<(), AllocError>
    requires ready { IsReady (state_of memory.old) p page }
    requires unseen { IsUnseen p (translations_of memory.old) }
    requires fits { units_of (state_of memory.old) + FRAME_UNITS ≤ limit_of (state_of memory.old) }
    ensures added { OnOk result (IsAdded (state_of memory.old) (state_of memory.new) p page
        (record { perms = perms.0; bytes = bytes.now }) true) }
    ensures kept { OnErr result (state_of memory.new ≡ state_of memory.old) }
    ensures lists { translations_of memory.new ≡ translations_of memory.old }
{
    match memory.place_page(p, page, perms, bytes) {
        Ok(()) => Ok(()),
        Err(SpaceError::Memory) => Err(AllocError),
        Err(SpaceError::Full(_, _)) => unreachable!(),
    }
}

/// Adds pages of zeros, one behind the other, which aren't there. After want of memory the spaces are as before.
fn add_zeros(
    memory: &mut OverlayMemory,
    p: u16,
    page: u64,
    n: u32,
    perms: Perms,
) -> Result<(), AllocError>
    requires there { holds_space (state_of memory.old) p ≡ true }
    requires none_awaits { NoneAwaits (state_of memory.old) p }
    requires absent { AreAbsent (state_of memory.old) p page n }
    requires low { page + n ≤ PAGE_END }
    requires few { map.len (space_in (state_of memory.old) p).pages + n ≤ MOST_SPACE_PAGES }
    requires unseen { IsUnseen p (translations_of memory.old) }
    ensures added { OnOk result
        (state_of memory.new ≡ with_zeros (state_of memory.old) p page n
        (record { perms = perms; frame = (state_of memory.old).zero_frame })) }
    ensures kept { OnErr result (state_of memory.new ≡ state_of memory.old) }
    ensures lists { translations_of memory.new ≡ translations_of memory.old }
{
    memory.map_zero(p, page, n, perms)
}

/// Adds a page of an image that is stored, and isn't there, in a frame of its own.
fn add_stored(
    memory: &mut OverlayMemory,
    p: u16,
    image: &Image,
    file: &[u8],
    image_page: ImagePage,
) -> Result<(), AllocError>
    requires ready { IsReady (state_of memory.old) p image_page.page }
    requires unseen { IsUnseen p (translations_of memory.old) }
    requires of_file { IsImageOf file.now image.now }
    requires there { Contains (map (λ p. p.page) image.now.pages) image_page.page }
    requires fits { units_of (state_of memory.old) + FRAME_UNITS ≤ limit_of (state_of memory.old) }
    ensures added { OnOk result (IsAdded (state_of memory.old) (state_of memory.new) p image_page.page
        (record { perms = image_page.perms.0; bytes = page_bytes file.now image_page.page }) true) }
    ensures kept { OnErr result (state_of memory.new ≡ state_of memory.old) }
    ensures lists { translations_of memory.new ≡ translations_of memory.old }
{
    let mut bytes = [0; PAGE_BYTES];
    image.fill_page(file, image_page.page, &mut bytes);
    place(memory, p, image_page.page, image_page.perms, &bytes)
}

/// How many pages of zeros there are from a place on, one behind the other with the permissions of the first one.
fn count_zeros(pages: &[ImagePage], at: usize) -> u32
    requires there { at < length pages.now }
    requires few { length pages.now ≤ MOST_IMAGE_PAGES }
    ensures zeros { AreZeroPages pages.now at result }
    ensures some { (listed_at pages.now at).stored ≡ false → 0 < result }
{
    let first = pages[at];
    let mut n = 0u32;
    'passing: while at + (n as usize) < pages.len() {
        let next = pages[at + n as usize];
        if next.stored || next.perms.bits() != first.perms.bits() {
            return n;
        }
        if next.page < first.page || next.page - first.page != u64::from(n) {
            return n;
        }
        n += 1;
    }
    n
}

/// Adds the pages of an image to a space that has none. The units for them are there.
fn add_image(
    memory: &mut OverlayMemory,
    p: u16,
    image: &Image,
    file: &[u8],
) -> Result<(), AllocError>
    requires of_file { IsImageOf file.now image.now }
    requires there { holds_space (state_of memory.old) p ≡ true }
    requires unseen { IsUnseen p (translations_of memory.old) }
    requires bare { space_in (state_of memory.old) p ≡ bare_space }
    requires fits { units_of (state_of memory.old) + FRAME_UNITS * stored_pages file.now
        ≤ limit_of (state_of memory.old) }
    ensures added { OnOk result (HasImage file.now p (state_of memory.old) (state_of memory.new)) }
    ensures open { HasOpened p (state_of memory.old) (state_of memory.new) }
    ensures lists { translations_of memory.new ≡ translations_of memory.old }
{
    let pages = image.pages();
    let mut at = 0;
    'adding: while at < pages.len() {
        let next = pages[at];
        if next.stored {
            add_stored(memory, p, image, file, next)?;
            at += 1;
        } else {
            let n = count_zeros(pages, at);
            add_zeros(memory, p, next.page, n, next.perms)?;
            at += n as usize;
        }
    }
    Ok(())
}

/// Adds the stack: zero pages.
fn add_stack(memory: &mut OverlayMemory, p: u16) -> Result<(), AllocError>
    requires there { holds_space (state_of memory.old) p ≡ true }
    requires unseen { IsUnseen p (translations_of memory.old) }
    requires none_awaits { NoneAwaits (state_of memory.old) p }
    requires few { map.len (space_in (state_of memory.old) p).pages ≤ MOST_IMAGE_PAGES }
    requires absent { (q : ℕ) → STACK_PAGE ≤ q → page_in (state_of memory.old) p q ≡ None }
    ensures added { OnOk result (HasStack p (state_of memory.old) (state_of memory.new)) }
    ensures open { HasOpened p (state_of memory.old) (state_of memory.new) }
    ensures lists { translations_of memory.new ≡ translations_of memory.old }
{
    add_zeros(
        memory,
        p,
        STACK_PAGE,
        STACK_PAGES as u32,
        Perms::R.union(Perms::W),
    )
}

/// Adds the pages of an image and the stack to a space that has no page. The units for them are there.
fn add_pages(
    memory: &mut OverlayMemory,
    p: u16,
    image: &Image,
    file: &[u8],
) -> Result<(), AllocError>
    requires of_file { IsImageOf file.now image.now }
    requires there { holds_space (state_of memory.old) p ≡ true }
    requires unseen { IsUnseen p (translations_of memory.old) }
    requires bare { space_in (state_of memory.old) p ≡ bare_space }
    requires fits { units_of (state_of memory.old) + FRAME_UNITS * stored_pages file.now
        ≤ limit_of (state_of memory.old) }
    ensures added { OnOk result (HasPages file.now p (state_of memory.old) (state_of memory.new)) }
    ensures open { HasOpened p (state_of memory.old) (state_of memory.new) }
    ensures lists { translations_of memory.new ≡ translations_of memory.old }
{
    add_image(memory, p, image, file)?;
    add_stack(memory, p)
}

/// Makes a space, of a number from 1 to 32767 that isn't there, with the pages of an image and the stack. The units for them are
/// there. After want of memory the spaces are as before.
pub(crate) fn load_space(
    memory: &mut OverlayMemory,
    p: u16,
    image: &Image,
    file: &[u8],
) -> Result<(), AllocError>
    requires some { 0 < p }
    requires last { p ≤ LAST_SPACE }
    requires absent { holds_space (state_of memory.old) p ≡ false }
    requires of_file { IsImageOf file.now image.now }
    requires fits { units (loaded_ledger p file.now (books (state_of memory.old)))
        ≤ limit_of (state_of memory.old) }
    ensures made { OnOk result (IsSpaceOf file.now p (state_of memory.old) (state_of memory.new)) }
    ensures kept { OnErr result (state_of memory.new ≡ state_of memory.old) }
    ensures lists { translations_of memory.new ≡ translations_of memory.old }
    ensures unseen { OnOk result (IsUnseen p (translations_of memory.old)) }
{
    memory.add_space(p)?;
    match add_pages(memory, p, image, file) {
        Ok(()) => Ok(()),
        Err(AllocError) => {
            memory.drop_space(p);
            Err(AllocError)
        }
    }
}
