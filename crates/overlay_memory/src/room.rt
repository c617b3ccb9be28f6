//! Whether there are as many units as a change needs.

ghost use Rattle.std.specs.Prelude.{◌+◌, ◌*◌, ◌≤◌};
ghost use Rattle.sizes.specs.declared.TheConstants.{FRAME_UNITS};
ghost use Rattle.overlay_pages.specs.Changes.{limit_of, units_of};
ghost use Rattle.overlay_pages.specs.View.{state_of};
ghost use Rattle.overlay_memory.specs.Room.{FallsShort};

use crate::error::Shortage;
use overlay_pages::OverlayPages;

/// What is short where so many units are needed. None exactly where they are within the limit.
pub(crate) fn shortage_of(needed: u32, limit: u32) -> Option<Shortage>
    ensures { FallsShort needed limit result }
{
    if limit < needed {
        Some(Shortage { needed, limit })
    } else {
        None
    }
}

/// What is short where the units rise by as many, at most as by two frames. None exactly where they are within the limit then.
pub(crate) fn shortage_by(pages: &OverlayPages, rise: u32) -> Option<Shortage>
    requires few { rise ≤ 2 * FRAME_UNITS }
    ensures { FallsShort (units_of (state_of pages.now) + rise) (limit_of (state_of pages.now)) result }
{
    let limit = pages.limit();
    let needed = pages.units() + rise;
    shortage_of(needed, limit)
}
