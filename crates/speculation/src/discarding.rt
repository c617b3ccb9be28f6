//! The overlays of a space are given up.

ghost use Rattle.std.specs.Prelude.{◌≡◌, ◌<◌, true, IsSome};
ghost use Rattle.sizes.specs.declared.TheConstants.{PAGE_END};
ghost use Rattle.overlay_memory.specs.Translated.{KeepsOtherTranslations};
ghost use Rattle.overlay_memory.specs.View.{state_of};
ghost use Rattle.space_maps.specs.Spaces.{holds_space, page_in};
ghost use Rattle.speculation.specs.Speculated.{DiscardsAll, with_discarded};

use overlay_memory::OverlayMemory;

// The overlay of a page is given up, where it has one.
fn discard_one(mem: &mut OverlayMemory, space: u16, page: u64)
    requires there { IsSome (page_in (state_of mem.old) space page) }
    ensures discarded { state_of mem.new ≡ with_discarded (state_of mem.old) space page }
    ensures lists { KeepsOtherTranslations space mem.old mem.new }
    ensures low { page < PAGE_END }
{
    if mem.lines_of(space, page).len() == 0 {
        return;
    }
    mem.discard_page(space, page);
}

/// Gives up each overlay of a space. Takes no memory. Costs a few look-ups for each page with own lines.
pub(crate) fn discard_all(mem: &mut OverlayMemory, space: u16)
    requires there { holds_space (state_of mem.old) space ≡ true }
    ensures discarded { DiscardsAll (state_of mem.old) (state_of mem.new) space }
    ensures lists { KeepsOtherTranslations space mem.old mem.new }
{
    let mut from = 0;
    'discarding: while let Some(page) = mem.next_overlaid(space, from) {
        discard_one(mem, space, page);
        from = page + 1;
    }
}
