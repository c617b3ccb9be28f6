//! Settling: each page with own lines gets them into its frame where it is alone, else into a new one.

ghost use Rattle.std.specs.Prelude.{◌≡◌, ◌<◌, true, IsSome};
ghost use Rattle.sizes.specs.declared.TheConstants.{PAGE_END};
ghost use Rattle.ledger.specs.Events.{Settle};
ghost use Rattle.overlay_memory.specs.View.{NoneAwaits, state_of};
ghost use Rattle.overlay_memory.specs.Room.{FitsAfter};
ghost use Rattle.overlay_memory.specs.Translated.{KeepsOtherTranslations};
ghost use Rattle.space_maps.specs.Spaces.{holds_space, page_in};
ghost use Rattle.promotion.specs.Settled.{CanCopyOwn, HasCommittedAlone, HasSettled, CopiesOwn, NoneAlone, Settles, with_committed};

use crate::units::units_settled;
use overlay_memory::{OverlayMemory, Shortage};

// The own lines of a page go into its frame, where it has any and is alone.
fn commit_one(mem: &mut OverlayMemory, space: u16, page: u64)
    requires there { IsSome (page_in (state_of mem.old) space page) }
    ensures committed { state_of mem.new ≡ with_committed (state_of mem.old) space page }
    ensures lists { KeepsOtherTranslations space mem.old mem.new }
    ensures low { page < PAGE_END }
{
    if mem.lines_of(space, page).len() == 0 {
        return;
    }
    if !mem.is_alone(space, page) {
        return;
    }
    mem.commit_page(space, page);
}

// The own lines of each page of a space that is alone go into its frame; the others stay. The units become no more. Costs a few
// look-ups for each page with own lines, and a copy of each own line of those that are alone.
fn commit_alone(mem: &mut OverlayMemory, space: u16)
    requires there { holds_space (state_of mem.old) space ≡ true }
    ensures committed { HasCommittedAlone (state_of mem.old) (state_of mem.new) space }
    ensures lists { KeepsOtherTranslations space mem.old mem.new }
{
    mem.see_apart(space);
    let mut from = 0;
    'committing: while let Some(page) = mem.next_overlaid(space, from) {
        commit_one(mem, space, page);
        from = page + 1;
    }
}

// A page gets a new frame, where it has own lines.
fn copy_one(mem: &mut OverlayMemory, space: u16, page: u64)
    requires there { IsSome (page_in (state_of mem.old) space page) }
    requires none_awaits { NoneAwaits (state_of mem.old) space }
    requires fits { CanCopyOwn (state_of mem.old) space page }
    ensures copied { CopiesOwn (state_of mem.old) (state_of mem.new) space page }
    ensures lists { KeepsOtherTranslations space mem.old mem.new }
    ensures low { page < PAGE_END }
{
    if mem.lines_of(space, page).len() == 0 {
        return;
    }
    mem.copy_commit_page(space, page);
}

// Each page with own lines, of which none is alone, gets a frame of its own. The units become no fewer with each page, and those
// after the last one are there.
fn copy_overlaid(mem: &mut OverlayMemory, space: u16)
    requires there { holds_space (state_of mem.old) space ≡ true }
    requires none_awaits { NoneAwaits (state_of mem.old) space }
    requires shared { NoneAlone (state_of mem.old) space }
    requires fits { FitsAfter (Settle space) (state_of mem.old) }
    ensures settled { HasSettled (state_of mem.old) (state_of mem.new) space }
    ensures lists { KeepsOtherTranslations space mem.old mem.new }
{
    mem.see_apart(space);
    let mut from = 0;
    'copying: while let Some(page) = mem.next_overlaid(space, from) {
        copy_one(mem, space, page);
        from = page + 1;
    }
}

/// Settles each page of a space that is there and of which no page awaits: the own lines of a page that is alone go into its frame,
/// any other page with own lines gets a new frame with its lines. Answers what is short where the units after it would exceed the
/// limit; then nothing is changed. Pages that are alone come first, so no state on the way needs more units than the greater of
/// those before and those after. Takes no memory. Costs a few look-ups for each page with own lines, a copy of each own line, and a
/// page for each new frame.
pub fn settle(mem: &mut OverlayMemory, space: u16) -> Result<(), Shortage>
    requires there { holds_space (state_of mem.old) space ≡ true }
    requires none_awaits { NoneAwaits (state_of mem.old) space }
    ensures settles { Settles mem.old mem.new space result }
    ensures lists { KeepsOtherTranslations space mem.old mem.new }
{
    mem.see_apart(space);
    let needed = units_settled(mem, space);
    if let Some(shortage) = mem.shortage(needed) {
        return Err(shortage);
    }
    commit_alone(mem, space);
    copy_overlaid(mem, space);
    Ok(())
}
