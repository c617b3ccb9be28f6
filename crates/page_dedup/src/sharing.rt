//! One page, or all of a space.

ghost use Rattle.std.specs.Prelude.{◌≡◌, ◌+◌, ◌<◌, false, true, IfSome, IsSome, OnOk};
ghost use Rattle.sizes.specs.declared.TheConstants.{MOST_FRAMES, PAGE_END};
ghost use Rattle.std.specs.Option.{option_map};
ghost use Rattle.ledger.specs.Changes.{is_origin_here};
ghost use Rattle.ledger.specs.Ledger.{holding_at};
ghost use Rattle.overlay_memory.specs.Translated.{KeepsOtherTranslations};
ghost use Rattle.overlay_memory.specs.View.{NoneAwaits, state_of, translations_of};
ghost use Rattle.overlay_pages.specs.Changes.{frame_but_zero};
ghost use Rattle.overlay_pages.specs.Spots.{IsFoundPage};
ghost use Rattle.overlay_pages.specs.State.{books};
ghost use Rattle.page_dedup.specs.Deduplicated.{Deduplicates, HasShared, SharesOne, has_origin_at};
ghost use Rattle.page_dedup.specs.Marked.{AreMarks};
ghost use Rattle.space_maps.specs.Spaces.{holds_space, page_in, space_in};
ghost use Rattle.translation_cache.specs.Translations.{flushed};

use crate::error::DedupError;
use crate::marks::{MARKS, has_mark, mark, mark_frames};
use overlay_memory::{FoundPage, MOST_OWN, OverlayMemory};
use sizes::PAGE_LINES;

// Whether a page is on a frame, which isn't the zero frame.
fn is_on(mem: &OverlayMemory, space: u16, page: u64, frame: u32) -> bool
    requires there { IsSome (page_in (state_of mem.now) space page) }
    ensures on { result ≡ has_origin_at (books (state_of mem.now)) space page (frame + 1) }
    ensures low { page < PAGE_END }
{
    match mem.frame_of(space, page) {
        Some(found) => found == frame,
        None => false,
    }
}

// Whether some page of a space is on the frame of a page, which isn't the zero frame. Costs two look-ups for each page up to the first
// that is.
fn has_frame(mem: &OverlayMemory, space: u16, from: u16, other: u64, frame: u32) -> bool
    requires theirs { option_map (λ h. h.origin) (holding_at (books (state_of mem.now)) from other)
        ≡ Some (frame + 1) }
    ensures { result ≡ is_origin_here (books (state_of mem.now)) space from other }
{
    let mut at = 0;
    'looking: while let Some(page) = mem.next_page(space, at) {
        if is_on(mem, space, page, frame) {
            return true;
        }
        at = page + 1;
    }
    false
}

// Whether some page of a space is on the frame of a page of another one that was found, and that isn't the zero frame. A page that is alone
// shares its frame with none.
fn is_frame_here(mem: &OverlayMemory, space: u16, theirs: &FoundPage) -> bool
    requires theirs { IsFoundPage mem.now.pages.table theirs.now }
    requires settled { (space_in (state_of mem.now) theirs.now.space).speculating ≡ false }
    ensures { result ≡ is_origin_here (books (state_of mem.now)) space theirs.now.space theirs.now.page }
{
    match mem.frame_of_found(theirs) {
        Some(frame) => {
            if theirs.space != space && theirs.is_alone() {
                return false;
            }
            has_frame(mem, space, theirs.space, theirs.page, frame)
        }
        None => false,
    }
}

/// Puts a page on another one: it gives its frame up and comes onto that of the other page, and what differs there becomes its own. Both
/// pages are there, neither space is speculating, and no page of the first one awaits. NotAlone exactly where the page isn't alone; else
/// FrameHere exactly where the other page is on a frame other than the zero frame, and some page of the space is on it; else NotAlike
/// exactly where more than 31 lines are the other page's own or differ, with how many those are. After an error everything is as before.
/// No memory changes, and the units fall by at least 8. Takes no memory. Costs a look-up of both pages, and of
/// each page of the space where the other page's frame is shared, a comparison of each line, two copies of each line that becomes its own,
/// and moves that copy 60 lines at most.
pub fn deduplicate(
    mem: &mut OverlayMemory,
    space: u16,
    page: u64,
    from: u16,
    other: u64,
) -> Result<(), DedupError>
    requires there { IsSome (page_in (state_of mem.old) space page) }
    requires theirs { IsSome (page_in (state_of mem.old) from other) }
    requires settled { (space_in (state_of mem.old) space).speculating ≡ false }
    requires settled_from { (space_in (state_of mem.old) from).speculating ≡ false }
    requires none_awaits { NoneAwaits (state_of mem.old) space }
    ensures deduplicates { Deduplicates mem.old mem.new space page from other result }
    ensures translations { OnOk result
        (translations_of mem.new ≡ flushed space (translations_of mem.old)) }
{
    let found = mem.find_page(space, page);
    if !found.is_alone() {
        return Err(DedupError::NotAlone);
    }
    let theirs = mem.find_page(from, other);
    if is_frame_here(mem, space, &theirs) {
        return Err(DedupError::FrameHere);
    }
    match mem.rebase_found(&found, &theirs, PAGE_LINES as u32) {
        Some(lines) => Err(DedupError::NotAlike(lines)),
        None => Ok(()),
    }
}

// Whether the frame of a page of a space that is there, and has this frame unless it is the zero frame, is marked; the zero frame isn't.
fn is_marked(
    mem: &OverlayMemory,
    from: u16,
    page: u64,
    frame: Option<u32>,
    space: u16,
    marks: &[bool; MARKS],
) -> bool
    requires frame { option_map (λ x. frame_but_zero (state_of mem.now).zero_frame x.entry.frame)
        (page_in (state_of mem.now) from page) ≡ Some frame }
    requires low { IfSome frame (λ f. f < MOST_FRAMES) }
    requires marks { AreMarks (books (state_of mem.now)) space marks.now }
    ensures { result ≡ is_origin_here (books (state_of mem.now)) space from page }
{
    match frame {
        Some(frame) => has_mark(marks, frame),
        None => false,
    }
}

// Puts a page of a space on the page of the same number of another one, where that can be. The marks are those of the space's pages.
fn share_one(
    mem: &mut OverlayMemory,
    marks: &mut [bool; MARKS],
    space: u16,
    page: u64,
    from: u16,
) -> bool
    requires there { IsSome (page_in (state_of mem.old) space page) }
    requires settled { (space_in (state_of mem.old) space).speculating ≡ false }
    requires settled_from { (space_in (state_of mem.old) from).speculating ≡ false }
    requires none_awaits { NoneAwaits (state_of mem.old) space }
    requires marks { AreMarks (books (state_of mem.old)) space marks.old }
    ensures shares { SharesOne mem.old mem.new space page from result }
    ensures marks { AreMarks (books (state_of mem.new)) space marks.new }
    ensures lists { KeepsOtherTranslations space mem.old mem.new }
    ensures low { page < PAGE_END }
{
    let _here = mem.has_space(space);
    if !mem.has_page(from, page) {
        return false;
    }
    let found = mem.find_page(space, page);
    if !found.is_alone() {
        return false;
    }
    let theirs = mem.find_page(from, page);
    let frame = mem.frame_of_found(&theirs);
    if is_marked(mem, from, page, frame, space, marks) {
        return false;
    }
    let own = mem.frame_of_found(&found);
    match mem.rebase_found(&found, &theirs, MOST_OWN) {
        Some(_) => return false,
        None => {}
    }
    mark(marks, own, false);
    mark(marks, frame, true);
    true
}

/// Puts each page of a space that another one has too on the page of the same number there, ascending, where that can be by the ledger
/// at that point, and passes over the others, as `deduplicate` would refuse them. Both spaces are there and not speculating, and no page
/// of the first one awaits. Answers how many were put there. No memory changes, and the units fall by at least 8 for each of them. The
/// space has no translations any more. Takes no memory: the frames that pages of the space are on are marked in an array that lives as
/// long as the call. Costs a few look-ups for each page of the space, and what `deduplicate` costs for each that is alone in both, up to
/// the line that is too many.
pub fn deduplicate_all(mem: &mut OverlayMemory, space: u16, from: u16) -> u32
    requires there { holds_space (state_of mem.old) space ≡ true }
    requires theirs { holds_space (state_of mem.old) from ≡ true }
    requires settled { (space_in (state_of mem.old) space).speculating ≡ false }
    requires settled_from { (space_in (state_of mem.old) from).speculating ≡ false }
    requires none_awaits { NoneAwaits (state_of mem.old) space }
    ensures shared { HasShared (state_of mem.old) (state_of mem.new) space from result }
    ensures translations { translations_of mem.new ≡ flushed space (translations_of mem.old) }
{
    let mut marks = [false; MARKS];
    mark_frames(mem, space, &mut marks);
    let mut count = 0;
    let mut at = 0;
    'sharing: while let Some(page) = mem.next_page(space, at) {
        if share_one(mem, &mut marks, space, page, from) {
            count += 1;
        }
        at = page + 1;
    }
    mem.forget_translations(space);
    count
}
