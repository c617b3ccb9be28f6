//! Committing: pages that are alone get their own lines into their frames, and those with many own lines get new frames.

ghost use Rattle.std.specs.Prelude.{◌≡◌, ◌<◌, true};
ghost use Rattle.sizes.specs.declared.TheConstants.{PAGE_END};
ghost use Rattle.ledger.specs.Changes.{has_own};
ghost use Rattle.overlay_pages.specs.State.{books};
ghost use Rattle.overlay_memory.specs.View.{NoneAwaits, state_of};
ghost use Rattle.overlay_memory.specs.Translated.{KeepsOtherTranslations};
ghost use Rattle.space_maps.specs.Spaces.{holds_space};
ghost use Rattle.promotion.specs.Settled.{CommitsPage, HasCommittedPages};

use overlay_memory::{LARGE_LINES, OverlayMemory};

// A page with own lines gets them into its frame where it is alone, and a new frame with its lines where it isn't, and has 32 of
// them or more. The units become no more.
fn commit_or_copy(mem: &mut OverlayMemory, space: u16, page: u64)
    requires own { has_own (books (state_of mem.old)) space page ≡ true }
    requires none_awaits { NoneAwaits (state_of mem.old) space }
    ensures committed { CommitsPage (state_of mem.old) (state_of mem.new) space page }
    ensures lists { KeepsOtherTranslations space mem.old mem.new }
    ensures low { page < PAGE_END }
{
    let own = mem.lines_of(space, page).len();
    if mem.is_alone(space, page) {
        mem.commit_page(space, page);
    } else if own >= LARGE_LINES {
        mem.copy_commit_page(space, page);
    }
}

/// The own lines of each page of a space that is alone go into its frame, each other page with 32 own lines or more gets a new frame
/// with its lines, and the others keep their overlays. No page of the space awaits. The units become no more. Takes no memory. Costs
/// a few look-ups for each page with own lines, a copy of each own line of those that are alone, and a page for each new frame.
pub fn commit_pages(mem: &mut OverlayMemory, space: u16)
    requires there { holds_space (state_of mem.old) space ≡ true }
    requires none_awaits { NoneAwaits (state_of mem.old) space }
    ensures committed { HasCommittedPages (state_of mem.old) (state_of mem.new) space }
    ensures lists { KeepsOtherTranslations space mem.old mem.new }
{
    mem.see_apart(space);
    let mut from = 0;
    'committing: while let Some(page) = mem.next_overlaid(space, from) {
        commit_or_copy(mem, space, page);
        from = page + 1;
    }
}
