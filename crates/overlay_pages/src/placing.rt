//! Pages that come into new frames, and pages that go.

#![tactic(auto, using(crate::proofs::Needs::needs))]

ghost use Rattle.std.specs.Prelude.{◌≡◌, ◌+◌, ◌≤◌, IfSome, IsSome, None, Some, false, true};
ghost use Rattle.std.specs.FinMap as map;
ghost use Rattle.std.specs.Option.{option_map};
ghost use Rattle.sizes.specs.declared.TheConstants.{FRAME_UNITS, PAGE_BYTES};
ghost use Rattle.unit_map.specs.Changes.{HasRoom};
ghost use Rattle.ledger.specs.Ledger.{is_alone};
ghost use Rattle.segment_store.specs.Store.{composed_line};
ghost use Rattle.space_maps.specs.Spaces.{cut_page, cut_pages, holds_space, page_in, space_in};
ghost use Rattle.space_ledger.specs.Calls.{IsBareRun};
ghost use Rattle.space_ledger.specs.View.{frame_at, ledger_of, overlay_at};
ghost use Rattle.overlay_pages.specs.Lines.{lines_of_bytes, page_lines};
ghost use Rattle.overlay_pages.specs.Calls.{MovesFewBeside};
ghost use Rattle.overlay_pages.specs.Changes.{IsPlaced, copied, moved_to};
ghost use Rattle.overlay_pages.specs.Steps.{KeepsOtherOverlays};
ghost use Rattle.overlay_pages.specs.View.{IsJoined, state_of, view_of};

use crate::frames::fill_bytes;
use crate::overlays::end_overlay;
use overlay_bits::Bits;
use overlay_mapping_table::Entry;
use page_table::{PageEntry, PageRun};
use segment_store::SegmentStore;
use sizes::PAGE_BYTES;
use space_ledger::SpaceLedger;

/// A page that has no overlay goes, and its frame, where no page names it any more.
pub(crate) fn take_out(store: &mut SegmentStore, ledger: &mut SpaceLedger, space: u16, page: u64)
    requires joined { IsJoined (view_of store.old ledger.old) }
    requires there { IsSome (page_in ledger.old space page) }
    requires bare { overlay_at ledger.old space page ≡ None }
    ensures joined { IsJoined (view_of store.new ledger.new) }
    ensures state { state_of (view_of store.new ledger.new)
        ≡ cut_page (state_of (view_of store.old ledger.old)) space page }
{
    match ledger.remove_page(space, page) {
        Some(frame) => store.give_frame(frame),
        None => {}
    }
}

/// The pages of a run, which have no overlays, go, and those of their frames that no page names any more.
pub(crate) fn take_run_out(
    store: &mut SegmentStore,
    ledger: &mut SpaceLedger,
    space: u16,
    run: &PageRun,
)
    requires joined { IsJoined (view_of store.old ledger.old) }
    requires there { holds_space ledger.old space ≡ true }
    requires none_awaits { (space_in ledger.old space).awaiting ≡ map.empty }
    requires bare { IsBareRun ledger.old space run.now }
    ensures joined { IsJoined (view_of store.new ledger.new) }
    ensures state { state_of (view_of store.new ledger.new)
        ≡ cut_pages (state_of (view_of store.old ledger.old)) space run.now.page run.now.n }
{
    if ledger.remove_run(space, run) == 0 {
        return;
    }
    'giving: for i in 0..run.n {
        let entry = run.entry_at(i);
        if ledger.is_unused(entry.frame) {
            store.give_frame(entry.frame);
        }
    }
}

/// A page that has no overlay, and isn't alone, gets a new frame, for which there is room, with these bytes.
pub(crate) fn place_bytes(
    store: &mut SegmentStore,
    ledger: &mut SpaceLedger,
    space: u16,
    page: u64,
    bytes: &[u8; PAGE_BYTES],
)
    requires joined { IsJoined (view_of store.old ledger.old) }
    requires there { IsSome (page_in ledger.old space page) }
    requires bare { overlay_at ledger.old space page ≡ None }
    requires shared { is_alone (ledger_of ledger.old) space page ≡ false }
    requires none_awaits { (space_in ledger.old space).awaiting ≡ map.empty }
    requires room { HasRoom store.old.blocks 4 }
    ensures joined { IsJoined (view_of store.new ledger.new) }
    ensures placed { IfSome (page_in (state_of (view_of store.old ledger.old)) space page)
        (λ x. IsPlaced (state_of (view_of store.old ledger.old)) (state_of (view_of store.new ledger.new))
        space page (moved_to x (lines_of_bytes bytes.now))) }
{
    let frame = store.take_frame();
    fill_bytes(store, frame, bytes);
    ledger.set_frame(space, page, frame);
}

/// A page that has no overlay, and isn't alone, gets a new frame, for which there is room: with the lines of scratch that a set has,
/// and else with those of its own frame.
pub(crate) fn place_composed(
    store: &mut SegmentStore,
    ledger: &mut SpaceLedger,
    space: u16,
    page: u64,
    entry: PageEntry,
    bits: Bits,
) -> u32
    requires joined { IsJoined (view_of store.old ledger.old) }
    requires there { Some entry ≡ option_map (λ x. x.entry) (page_in ledger.old space page) }
    requires bare { overlay_at ledger.old space page ≡ None }
    requires shared { is_alone (ledger_of ledger.old) space page ≡ false }
    requires none_awaits { (space_in ledger.old space).awaiting ≡ map.empty }
    requires room { HasRoom store.old.blocks 4 }
    ensures joined { IsJoined (view_of store.new ledger.new) }
    ensures placed { IfSome (page_in (state_of (view_of store.old ledger.old)) space page)
        (λ x. IsPlaced (state_of (view_of store.old ledger.old)) (state_of (view_of store.new ledger.new))
        space page (moved_to x (page_lines (composed_line store.old entry.frame bits)))) }
    ensures frame { frame_at ledger.new space page ≡ Some result }
    ensures others { KeepsOtherOverlays space page ledger.old ledger.new }
{
    let frame = store.take_frame();
    store.compose_frame(entry.frame, bits, frame);
    ledger.replace_frame(space, page, entry, frame);
    frame
}

/// A page that has an overlay, and isn't alone, gets a new frame, for which there is room beside the overlay, with its lines, and its
/// overlay ends. So no line is copied twice.
pub(crate) fn place_beside(
    store: &mut SegmentStore,
    ledger: &mut SpaceLedger,
    space: u16,
    page: u64,
    entry: PageEntry,
    overlay: Entry,
) -> u32
    requires joined { IsJoined (view_of store.old ledger.old) }
    requires there { Some entry ≡ option_map (λ x. x.entry) (page_in ledger.old space page) }
    requires overlaid { overlay_at ledger.old space page ≡ Some overlay }
    requires shared { is_alone (ledger_of ledger.old) space page ≡ false }
    requires none_awaits { (space_in ledger.old space).awaiting ≡ map.empty }
    requires room { HasRoom store.old.blocks 4 }
    ensures joined { IsJoined (view_of store.new ledger.new) }
    ensures placed { IfSome (page_in (state_of (view_of store.old ledger.old)) space page)
        (λ x. IsPlaced (state_of (view_of store.old ledger.old)) (state_of (view_of store.new ledger.new))
        space page (λ frame. copied frame x)) }
    ensures frame { frame_at ledger.new space page ≡ Some result }
    ensures few { MovesFewBeside space page ledger.old ledger.new }
{
    let frame = store.take_frame();
    store.compose_frame(entry.frame, Bits::empty(), frame);
    store.lay_in_frame(overlay.block, overlay.bits, frame);
    ledger.replace_frame(space, page, entry, frame);
    end_overlay(store, ledger, space, page, &overlay);
    frame
}
