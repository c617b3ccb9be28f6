//! How long the image of a delta is, before the delta is gathered.

ghost use Rattle.std.specs.Prelude.{◌≡◌, ◌*◌, ◌≤◌, length, true};
ghost use Rattle.std.specs.FinMap as map;
ghost use Rattle.sizes.specs.declared.TheConstants.{MOST_SPACE_PAGES, PAGE_LINES};
ghost use Rattle.overlay_pages.specs.State.{memory_of};
ghost use Rattle.overlay_memory.specs.View.{NoneAwaits, state_of};
ghost use Rattle.space_maps.specs.Spaces.{holds_space, space_in};
ghost use Rattle.delta_image.specs.Applied.{gathered};
ghost use Rattle.delta_image.specs.Image.{image_of};
ghost use Rattle.delta_image.specs.LengthLaws.{line_count};
ghost use Rattle.delta_spaces.specs.Gathered.{gathered_pages};

use crate::differing::{differing, zeros_of_both};
use delta_image::length_by;
use overlay_memory::OverlayMemory;
use ovl_io::ProcessState;
use rv_execute::Regs;

/// How many lines of a space differ from those of the base.
fn count_lines(mem: &OverlayMemory, saved: u16, base: u16) -> u64
    requires saved_there { holds_space (state_of mem.now) saved ≡ true }
    requires base_there { holds_space (state_of mem.now) base ≡ true }
    requires none_awaits { NoneAwaits (state_of mem.now) saved }
    requires base_none_awaits { NoneAwaits (state_of mem.now) base }
    ensures count { result ≡ line_count (gathered_pages (memory_of (state_of mem.now) saved)
        (memory_of (state_of mem.now) base)) }
    ensures few { result ≤ PAGE_LINES * map.len (space_in (state_of mem.now) saved).pages }
{
    let _here = mem.has_space(saved);
    let mut lines = 0;
    let mut at = 0;
    'counting: while let Some(page) = mem.next_page(saved, at) {
        let zeros = zeros_of_both(mem, saved, base, page);
        if zeros == 0 {
            lines += u64::from(differing(mem, saved, base, page).len());
            at = page + 1;
        } else {
            at = page + u64::from(zeros);
        }
    }
    lines
}

/// How many bytes the image of the delta of a space over a base has, which `gather` gives with the same state and registers: so it is
/// known before any memory is taken. The space has at most 131,072 pages. Costs some look-ups for each run of pages on the zero frame
/// and without own lines in both, and for each other page what `gather` costs.
pub fn image_length(
    mem: &OverlayMemory,
    saved: u16,
    base: u16,
    state: ProcessState,
    regs: &Regs,
) -> u32
    requires saved_there { holds_space (state_of mem.now) saved ≡ true }
    requires base_there { holds_space (state_of mem.now) base ≡ true }
    requires none_awaits { NoneAwaits (state_of mem.now) saved }
    requires base_none_awaits { NoneAwaits (state_of mem.now) base }
    requires few { map.len (space_in (state_of mem.now) saved).pages ≤ MOST_SPACE_PAGES }
    ensures { result ≡ length (image_of (gathered state regs.now
        (memory_of (state_of mem.now) saved) (memory_of (state_of mem.now) base))) }
{
    let lines = count_lines(mem, saved, base);
    length_by(state, regs, mem.pages(saved), lines) as u32
}
