//! The units after pages are settled, before any is.

ghost use Rattle.std.specs.Prelude.{◌≡◌, ◌+◌, ◌*◌, ◌<◌, ◌≤◌, true, IsSome};
ghost use Rattle.sizes.specs.declared.TheConstants.{FRAME_UNITS, PAGE_END};
ghost use Rattle.ledger.specs.Events.{Settle};
ghost use Rattle.overlay_pages.specs.Changes.{limit_of};
ghost use Rattle.overlay_memory.specs.View.{state_of};
ghost use Rattle.overlay_memory.specs.Room.{class_at, event_units};
ghost use Rattle.space_maps.specs.Spaces.{holds_space, page_in};
ghost use Rattle.promotion.specs.Counted.{AreUnitsWith};

use overlay_memory::{OverlayMemory, class_of};
use sizes::FRAME_UNITS;

// The units with one more page of a space settled: its segment goes, and it needs a frame where it has own lines and isn't alone.
fn with_settled(mem: &OverlayMemory, space: u16, page: u64, units: u32) -> u32
    requires there { IsSome (page_in (state_of mem.now) space page) }
    requires some { class_at (state_of mem.now) space page ≤ units }
    requires few { units ≤ limit_of (state_of mem.now) + FRAME_UNITS * page }
    ensures sum { AreUnitsWith (state_of mem.now) space page units result }
    ensures low { page < PAGE_END }
{
    let own = mem.lines_of(space, page).len();
    if own == 0 {
        return units;
    }
    if mem.is_alone(space, page) {
        return units - class_of(own);
    }
    units + FRAME_UNITS - class_of(own)
}

/// The units after each page of a space is settled. Costs a few look-ups for each page with own lines.
pub(crate) fn units_settled(mem: &OverlayMemory, space: u16) -> u32
    requires there { holds_space (state_of mem.now) space ≡ true }
    ensures { result ≡ event_units (Settle space) (state_of mem.now) }
{
    mem.see_apart(space);
    let mut units = mem.units();
    let mut from = 0;
    'counting: while let Some(page) = mem.next_overlaid(space, from) {
        units = with_settled(mem, space, page, units);
        from = page + 1;
    }
    units
}
