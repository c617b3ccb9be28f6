//! Pages that are taken away.

ghost use Rattle.std.specs.Prelude.{◌≡◌, true};
ghost use Rattle.overlay_pages.specs.Calls.{AreMapped};
ghost use Rattle.overlay_pages.specs.View.{state_of};
ghost use Rattle.overlay_memory.specs.View.{NoneAwaits};
ghost use Rattle.overlay_memory.specs.Pieces.{IsEmptied};
ghost use Rattle.space_maps.specs.Spaces.{cut_pages, holds_space};

use overlay_pages::OverlayPages;

/// Takes away all pages of a space that is there, the least first.
pub(crate) fn remove_pages(pages: &mut OverlayPages, space: u16)
    requires there { holds_space (state_of pages.old) space ≡ true }
    requires none_awaits { NoneAwaits (state_of pages.old) space }
    ensures { IsEmptied (state_of pages.old) (state_of pages.new) space }
{
    'removing: while let Some(page) = pages.next_page(space, 0) {
        pages.remove_run(space, page, u32::MAX);
    }
}

/// Takes away pages that are all there, with their overlays.
pub(crate) fn unmap_pages(pages: &mut OverlayPages, space: u16, page: u64, n: u32)
    requires there { AreMapped (state_of pages.old) space page n }
    requires none_awaits { NoneAwaits (state_of pages.old) space }
    ensures { state_of pages.new ≡ cut_pages (state_of pages.old) space page n }
{
    let mut at = page;
    let mut left = n;
    'unmapping: while left > 0 {
        let gone = pages.remove_run(space, at, left);
        at += u64::from(gone);
        left -= gone;
    }
}
