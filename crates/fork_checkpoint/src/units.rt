//! The units after a copy, before anything is changed.

ghost use Rattle.std.specs.Prelude.{◌≡◌, ◌≢◌, ◌+◌, ◌*◌, ◌<◌, ◌≤◌, true, IsSome};
ghost use Rattle.sizes.specs.declared.TheConstants.{FRAME_UNITS, PAGE_END};
ghost use Rattle.ledger.specs.Events.{Copy, Drop};
ghost use Rattle.overlay_pages.specs.Changes.{limit_of};
ghost use Rattle.overlay_memory.specs.View.{NoneAwaits, state_of};
ghost use Rattle.overlay_memory.specs.Room.{class_at, event_units};
ghost use Rattle.space_maps.specs.Spaces.{holds_space, page_in};
ghost use Rattle.fork_checkpoint.specs.Copied.{ArePagesLow, page_units, with_copies};

use overlay_memory::{OverlayMemory, class_of};
use sizes::FRAME_UNITS;

// The units with a copy of one more page's overlay.
fn with_segment(mem: &OverlayMemory, space: u16, page: u64, units: u32) -> u32
    requires there { IsSome (page_in (state_of mem.now) space page) }
    requires few { units ≤ limit_of (state_of mem.now) + FRAME_UNITS * page }
    ensures sum { result ≡ units + class_at (state_of mem.now) space page }
    ensures low { page < PAGE_END }
{
    units + class_of(mem.lines_of(space, page).len())
}

/// Units with a copy of the overlay of each page of a space; without the copies they are within the limit. Costs a few look-ups
/// for each page with own lines.
pub(crate) fn units_copied(mem: &OverlayMemory, space: u16, kept: u32) -> u32
    requires there { holds_space (state_of mem.now) space ≡ true }
    requires few { kept ≤ limit_of (state_of mem.now) }
    ensures sum { result ≡ with_copies kept (state_of mem.now) space }
    ensures low { ArePagesLow (state_of mem.now) space }
{
    let mut units = kept;
    let mut from = 0;
    'counting: while let Some(page) = mem.next_overlaid(space, from) {
        units = with_segment(mem, space, page, units);
        from = page + 1;
    }
    units
}

// The units without one more page of a space: its segment goes and, where it is alone, its frame.
fn without_page(mem: &OverlayMemory, space: u16, page: u64, units: u32) -> u32
    requires there { IsSome (page_in (state_of mem.now) space page) }
    requires enough { page_units (state_of mem.now) space page ≤ units }
    ensures sum { result + page_units (state_of mem.now) space page ≡ units }
    ensures low { page < PAGE_END }
{
    let left = units - class_of(mem.lines_of(space, page).len());
    if mem.is_alone(space, page) {
        return left - FRAME_UNITS;
    }
    left
}

// The units without the pages of a space, of which none awaits. Costs a few look-ups for each run of pages on the zero frame without
// own lines, which have none, and for each other page.
fn units_without(mem: &OverlayMemory, space: u16) -> u32
    requires there { holds_space (state_of mem.now) space ≡ true }
    requires none_awaits { NoneAwaits (state_of mem.now) space }
    ensures sum { result ≡ event_units (Drop space) (state_of mem.now) }
    ensures few { result ≤ limit_of (state_of mem.now) }
{
    mem.see_apart(space);
    let mut units = mem.units();
    let mut from = 0;
    'leaving: while let Some(page) = mem.next_page(space, from) {
        let zeros = mem.zeros_from(space, page);
        if zeros == 0 {
            units = without_page(mem, space, page, units);
            from = page + 1;
        } else {
            from = page + u64::from(zeros);
        }
    }
    units
}

/// The units after a space has the pages of another one in the place of its own; none of its own awaits. Costs a few look-ups for each
/// run of its pages on the zero frame without own lines, for each other page of it, and for each page with own lines of the other one.
pub(crate) fn units_restored(mem: &OverlayMemory, saved: u16, into: u16) -> u32
    requires differ { saved ≢ into }
    requires saved_there { holds_space (state_of mem.now) saved ≡ true }
    requires there { holds_space (state_of mem.now) into ≡ true }
    requires none_awaits { NoneAwaits (state_of mem.now) into }
    ensures sum { result ≡ event_units (Copy saved into) (state_of mem.now) }
    ensures low { ArePagesLow (state_of mem.now) saved }
{
    let left = units_without(mem, into);
    units_copied(mem, saved, left)
}
