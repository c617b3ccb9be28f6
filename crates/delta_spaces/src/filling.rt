//! The pages of a space that is made of a base and a delta.

ghost use Rattle.std.specs.Prelude.{◌≡◌, ◌<◌, ◌++◌, ◌∷◌, length, false, IsSome, OnOk};
ghost use Rattle.std.specs.FinMap as map;
ghost use Rattle.sizes.specs.declared.TheConstants.{LINE_BYTES, PAGE_LINES};
ghost use Rattle.overlay_memory.specs.Access.{FitsStored, IsStored, line_address};
ghost use Rattle.overlay_memory.specs.View.{NoneAwaits, state_of, translations_of};
ghost use Rattle.space_maps.specs.Spaces.{page_in, space_in};
ghost use Rattle.translation_cache.specs.Translations.{flushed};
ghost use Rattle.delta_spaces.specs.Built.{CanBegin, CanFill, CanMap, CanPut, HasBegun, HasPut, IsBeside, bare_pages, kept_pages};

use delta_image::DeltaPage;
use overlay_memory::OverlayMemory;
use std::alloc::AllocError;

/// Shares the pages that the base has, which await, the least first.
pub(crate) fn share_pages(mem: &mut OverlayMemory, base: u16, to: u16, pages: &[DeltaPage])
    requires ready { CanBegin (state_of mem.old) base to pages.now }
    ensures begun { HasBegun (state_of mem.old) (state_of mem.new) base to
        (kept_pages (state_of mem.old) base pages.now) }
    ensures awaiting { (space_in (state_of mem.new) to).awaiting ≡ map.empty }
    ensures translations { translations_of mem.new ≡ translations_of mem.old }
{
    'sharing: for page in pages {
        if mem.has_page(base, page.page) {
            mem.share_page(base, to, page.page);
        }
    }
}

/// Maps the pages that the base hasn't, without own lines. An error says that there was no memory; then some of them are there.
pub(crate) fn map_pages(
    mem: &mut OverlayMemory,
    base: u16,
    to: u16,
    pages: &[DeltaPage],
) -> Result<(), AllocError>
    requires ready { CanMap (state_of mem.old) base to pages.now }
    requires unseen { flushed to (translations_of mem.old) ≡ translations_of mem.old }
    ensures begun { OnOk result ((ready : CanMap (state_of mem.old) base to pages.now)
        → HasBegun ready.before (state_of mem.new) base to (bare_pages pages.now)) }
    ensures awaiting { (space_in (state_of mem.new) to).awaiting ≡ map.empty }
    ensures beside { (ready : CanMap (state_of mem.old) base to pages.now)
        → IsBeside ready.before (state_of mem.new) to }
    ensures translations { translations_of mem.new ≡ translations_of mem.old }
{
    'mapping: for page in pages {
        if !mem.has_page(base, page.page) {
            mem.map_zero(to, page.page, 1, page.perms)?;
        }
    }
    Ok(())
}

/// Puts a line in a page.
fn put_given(mem: &mut OverlayMemory, to: u16, page: u64, line: u8, bytes: &[u8; 64])
    requires there { IsSome (page_in (state_of mem.old) to page) }
    requires line { line < PAGE_LINES }
    requires settled { (space_in (state_of mem.old) to).speculating ≡ false }
    requires none_awaits { NoneAwaits (state_of mem.old) to }
    requires fits { FitsStored (state_of mem.old) to (line_address page line) LINE_BYTES }
    ensures stored { IsStored (state_of mem.old) (state_of mem.new) to
        (line_address page line) bytes.now }
    ensures whole { length bytes.now ≡ LINE_BYTES }
    ensures translations { translations_of mem.new ≡ translations_of mem.old }
{
    mem.put_line(to, page, line, bytes);
}

/// Puts the lines of a page in it, one after the other.
fn put_lines(mem: &mut OverlayMemory, to: u16, page: &DeltaPage)
    requires ready { CanPut (state_of mem.old) to page.now }
    ensures put { (ready : CanPut (state_of mem.old) to page.now) → HasPut ready.before
        (state_of mem.new) ready.base to (ready.front ++ page.now ∷ ready.back) }
    ensures translations { translations_of mem.new ≡ translations_of mem.old }
{
    let lines = page.lines.as_slice();
    'putting: for (line, bytes) in lines {
        put_given(mem, to, page.page, *line, bytes);
    }
}

/// Puts the lines of all pages in them.
pub(crate) fn put_pages(mem: &mut OverlayMemory, to: u16, pages: &[DeltaPage])
    requires ready { CanFill (state_of mem.old) to pages.now }
    ensures put { (ready : CanFill (state_of mem.old) to pages.now)
        → HasPut ready.before (state_of mem.new) ready.base to pages.now }
    ensures translations { translations_of mem.new ≡ translations_of mem.old }
{
    'filling: for page in pages {
        put_lines(mem, to, page);
    }
}
