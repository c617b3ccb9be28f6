//! Overlays that go into frames.

#![tactic(auto, using(crate::proofs::Needs::needs))]

ghost use Rattle.std.specs.Prelude.{◌≡◌, ℕ, IfSome, IsSome, Some, None, false, true};
ghost use Rattle.std.specs.FinMap as map;
ghost use Rattle.std.specs.Option.{option_map};
ghost use Rattle.ledger.specs.Ledger.{is_alone};
ghost use Rattle.space_maps.specs.Spaces.{page_in, space_in, altered_page};
ghost use Rattle.space_ledger.specs.View.{frame_at, ledger_of, overlay_at};
ghost use Rattle.overlay_pages.specs.Changes.{HasCopyRoom, IsPlaced, committed, copied};
ghost use Rattle.overlay_pages.specs.Calls.{MovesFewBeside};
ghost use Rattle.overlay_pages.specs.View.{IsJoined, state_of, view_of};

use crate::overlays::{end_overlay, take_up};
use crate::placing::{place_beside, place_composed};
use overlay_mapping_table::Entry;
use page_table::PageEntry;
use segment_store::SegmentStore;
use sizes::FRAME_ORDER;
use space_ledger::SpaceLedger;

/// As many own lines as make a segment as large as a frame.
pub const LARGE_LINES: u32 = 32;

/// The most own lines of a page in a space that isn't speculating: its segment is smaller than a frame.
pub const MOST_OWN: u32 = LARGE_LINES - 1;

/// The frame of a page that is there.
pub(crate) fn frame_of(ledger: &SpaceLedger, space: u16, page: u64) -> u32
    requires { IsSome (page_in ledger.now space page) }
    ensures { option_map (λ x. x.entry.frame) (page_in ledger.now space page) ≡ Some result }
{
    match ledger.entry(space, page) {
        Some(entry) => entry.frame,
        None => unreachable!(),
    }
}

/// The own lines of a page that is there and alone go into its frame.
pub(crate) fn commit(store: &mut SegmentStore, ledger: &mut SpaceLedger, space: u16, page: u64)
    requires joined { IsJoined (view_of store.old ledger.old) }
    requires there { IsSome (page_in ledger.old space page) }
    requires alone { is_alone (ledger_of ledger.old) space page ≡ true }
    ensures joined { IsJoined (view_of store.new ledger.new) }
    ensures state { state_of (view_of store.new ledger.new)
        ≡ altered_page committed (state_of (view_of store.old ledger.old)) space page }
    ensures few { MovesFewBeside space page ledger.old ledger.new }
{
    if let Some(overlay) = ledger.overlay(space, page) {
        let frame = frame_of(ledger, space, page);
        store.lay_in_frame(overlay.block, overlay.bits, frame);
        end_overlay(store, ledger, space, page, &overlay);
    }
}

/// A page that has an overlay, and isn't alone, gets a new frame with its lines. Where there is no room for it beside the overlay, the lines
/// of that wait in scratch. Answers the frame.
pub(crate) fn copy_commit(
    store: &mut SegmentStore,
    ledger: &mut SpaceLedger,
    space: u16,
    page: u64,
    entry: PageEntry,
    overlay: Entry,
) -> u32
    requires joined { IsJoined (view_of store.old ledger.old) }
    requires there { Some entry ≡ option_map (λ x. x.entry) (page_in ledger.old space page) }
    requires overlaid { overlay_at ledger.old space page ≡ Some overlay }
    requires shared { is_alone (ledger_of ledger.old) space page ≡ false }
    requires none_awaits { (space_in ledger.old space).awaiting ≡ map.empty }
    requires room { HasCopyRoom (state_of (view_of store.old ledger.old)) space page }
    ensures joined { IsJoined (view_of store.new ledger.new) }
    ensures placed { IfSome (page_in (state_of (view_of store.old ledger.old)) space page)
        (λ x. IsPlaced (state_of (view_of store.old ledger.old)) (state_of (view_of store.new ledger.new))
        space page (λ frame. copied frame x)) }
    ensures frame { frame_at ledger.new space page ≡ Some result }
    ensures few { MovesFewBeside space page ledger.old ledger.new }
{
    if store.has_room(FRAME_ORDER) {
        return place_beside(store, ledger, space, page, entry, overlay);
    }
    take_up(store, ledger, space, page, &overlay, FRAME_ORDER);
    place_composed(store, ledger, space, page, entry, overlay.bits)
}
