//! The frames that pages of a space are on.

ghost use Rattle.std.specs.Prelude.{◌≡◌, ◌<◌, Bool, IfSome, Some};
ghost use Rattle.overlay_memory.specs.View.{state_of};
ghost use Rattle.overlay_pages.specs.State.{books};
ghost use Rattle.page_dedup.specs.Marked.{AreClear, AreMarks, is_marked, with_mark};
ghost use Rattle.sizes.specs.declared.TheConstants.{MOST_FRAMES};

use overlay_memory::OverlayMemory;
use sizes::MOST_FRAMES;

/// As many marks as there may be frames.
pub(crate) const MARKS: usize = MOST_FRAMES as usize;

/// Marks a frame, if there is one, or takes its mark away.
pub(crate) fn mark(marks: &mut [bool; MARKS], frame: Option<u32>, on: bool)
    requires { IfSome frame (λ f. f < MOST_FRAMES) }
    ensures { marks.new ≡ with_mark marks.old frame on }
{
    match frame {
        Some(frame) => marks[frame as usize] = on,
        None => {}
    }
}

/// Whether a frame is marked.
pub(crate) fn has_mark(marks: &[bool; MARKS], frame: u32) -> bool
    requires { frame < MOST_FRAMES }
    ensures { result ≡ is_marked marks.now frame }
{
    marks[frame as usize]
}

/// Marks the frames that pages of a space are on. Costs two look-ups for each page.
pub(crate) fn mark_frames(mem: &OverlayMemory, space: u16, marks: &mut [bool; MARKS])
    requires clear { AreClear marks.old }
    ensures { AreMarks (books (state_of mem.now)) space marks.new }
{
    let mut at = 0;
    'marking: while let Some(page) = mem.next_page(space, at) {
        mark(marks, mem.frame_of(space, page), true);
        at = page + 1;
    }
}
