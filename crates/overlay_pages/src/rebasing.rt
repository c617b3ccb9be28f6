//! Pages that are put on the frames of other pages.

#![tactic(auto, using(crate::proofs::Needs::needs))]

ghost use Rattle.std.specs.Prelude.{◌≡◌, ◌+◌, ◌^◌, ◌<◌, ◌≤◌, IfSome, IsSome, Some, None, true, length};
ghost use Rattle.std.specs.FinMap as map;
ghost use Rattle.std.specs.Option.{option_map};
ghost use Rattle.sizes.specs.declared.TheConstants.{FRAME_UNITS, PAGE_LINES};
ghost use Rattle.ledger.specs.Ledger.{is_alone};
ghost use Rattle.ledger.specs.Units.{class};
ghost use Rattle.segment_store.specs.Kept.{IsStore};
ghost use Rattle.segment_store.specs.Pointers.{capacity_of};
ghost use Rattle.space_maps.specs.Spaces.{altered_page, page_in, space_in};
ghost use Rattle.space_ledger.specs.View.{frame_at, ledger_of, overlay_at};
ghost use Rattle.overlay_pages.specs.Changes.{IsAway, IsRebased, SeesFrame, limit_of, moved_to, units_of};
ghost use Rattle.overlay_pages.specs.State.{PageState};
ghost use Rattle.overlay_pages.specs.Spots.{IsFoundPage};
ghost use Rattle.overlay_pages.specs.Steps.{AreKept, IsLaid, by_rank, given_page};
ghost use Rattle.overlay_pages.specs.View.{IsJoined, state_of, view_of};
ghost use Rattle.overlay_pages.specs.declared.settling.TheConstants.{MOST_OWN};
ghost use Rattle.unit_map.specs.Changes.{HasRoom};

use crate::overlays::drop_overlay;
use crate::pages::OverlayPages;
use crate::settling::MOST_OWN;
use crate::spots::FoundPage;
use overlay_address::OverlayPage;
use overlay_bits::Bits;
use overlay_mapping_table::Entry;
use page_table::PageEntry;
use segment_store::SegmentStore;
use space_ledger::SpaceLedger;
use unit_map::Block;

/// Lines of a page, one behind the other: as many as may be its own where its segment is smaller than a frame.
type KeptLines = [[u8; 64]; MOST_OWN as usize];

/// Keeps lines of a page that was found, as it is seen.
pub(crate) fn keep_lines(pages: &OverlayPages, page: &FoundPage, bits: Bits, kept: &mut KeptLines)
    requires found { IsFoundPage pages.now.table page.now }
    requires few { length bits ≤ MOST_OWN }
    ensures { AreKept (state_of pages.now) page.now.space page.now.page bits kept.new }
{
    let mut at = 0;
    'keeping: for line in bits.iter() {
        kept[at] = *pages.line_at(page.line(line));
        at += 1;
    }
}

/// A page that has no overlay and is alone comes onto the frame of another page, and its own frame is given up.
fn change_frame(
    store: &mut SegmentStore,
    ledger: &mut SpaceLedger,
    space: u16,
    page: u64,
    entry: PageEntry,
    theirs: &FoundPage,
)
    requires joined { IsJoined (view_of store.old ledger.old) }
    requires there { Some entry ≡ option_map (λ x. x.entry) (page_in ledger.old space page) }
    requires bare { overlay_at ledger.old space page ≡ None }
    requires alone { is_alone (ledger_of ledger.old) space page ≡ true }
    requires none_awaits { (space_in ledger.old space).awaiting ≡ map.empty }
    requires frame { frame_at ledger.old theirs.now.space theirs.now.page ≡ Some theirs.now.frame }
    requires away { IsAway (state_of (view_of store.old ledger.old)) space theirs.now.space theirs.now.page }
    ensures joined { IsJoined (view_of store.new ledger.new) }
    ensures state { IfSome (page_in (state_of (view_of store.old ledger.old)) theirs.now.space theirs.now.page)
        (λ y. state_of (view_of store.new ledger.new)
        ≡ altered_page (λ x. moved_to x y.base y.entry.frame)
        (state_of (view_of store.old ledger.old)) space page) }
    ensures there { IsSome (page_in ledger.new space page) }
    ensures bare { overlay_at ledger.new space page ≡ None }
    ensures units { units_of (state_of (view_of store.new ledger.new)) + FRAME_UNITS
        ≡ units_of (state_of (view_of store.old ledger.old)) }
{
    match ledger.replace_frame(space, page, entry, theirs.frame) {
        Some(own) => store.give_frame(own),
        None => unreachable!(),
    }
}

/// The order of a segment for some lines, at most 64.
#[tactic(auto, unfolding(ledger::specs::Units::class))]
fn order_for(lines: u32) -> u8
    requires some { 0 < lines }
    requires few { lines ≤ PAGE_LINES }
    ensures order { result ≤ 4 }
    ensures size { 2 ^ result ≡ class lines }
    ensures fits { lines ≤ capacity_of result }
{
    if lines < 4 {
        0
    } else if lines < 8 {
        1
    } else if lines < 16 {
        2
    } else if lines < 32 {
        3
    } else {
        4
    }
}

/// Begins a segment, for which there is room, with lines that were kept.
fn begin_filled(
    store: &mut SegmentStore,
    owner: OverlayPage,
    order: u8,
    bits: Bits,
    kept: &KeptLines,
) -> Block
    requires store { IsStore store.old }
    requires order { order ≤ 4 }
    requires room { HasRoom store.old.blocks order }
    requires few { length bits ≤ MOST_OWN }
    requires fits { length bits ≤ capacity_of order }
    ensures laid { IsLaid store.old store.new owner result bits (by_rank bits kept.now) }
    ensures order { result.order ≡ order }
{
    let block = store.begin_segment(owner, order);
    let mut at = 0;
    'filling: for line in bits.iter() {
        store.insert(block, line, &kept[at]);
        at += 1;
    }
    block
}

/// A page that has no overlay gets one with lines that were kept, if there are any. The units after it are there.
fn give_lines(
    store: &mut SegmentStore,
    ledger: &mut SpaceLedger,
    space: u16,
    page: u64,
    bits: Bits,
    kept: &KeptLines,
)
    requires joined { IsJoined (view_of store.old ledger.old) }
    requires there { IsSome (page_in ledger.old space page) }
    requires bare { overlay_at ledger.old space page ≡ None }
    requires few { length bits ≤ MOST_OWN }
    requires fits { units_of (state_of (view_of store.old ledger.old)) + class (length bits)
        ≤ limit_of (state_of (view_of store.old ledger.old)) }
    ensures joined { IsJoined (view_of store.new ledger.new) }
    ensures state { state_of (view_of store.new ledger.new)
        ≡ altered_page (given_page bits (by_rank bits kept.now)) (state_of (view_of store.old ledger.old)) space page }
{
    let count = bits.len();
    if count == 0 {
        return;
    }
    let order = order_for(count);
    let block = begin_filled(store, OverlayPage::of(space, page), order, bits, kept);
    ledger.replace_overlay(space, page, None, Some(Entry { bits, block }));
}

/// A page that was found and is alone comes onto the frame of another one, on which no page of its space is unless it is the zero frame:
/// with these lines as its own, which were kept, and as it is seen. All others are in that frame already.
pub(crate) fn rebase(
    store: &mut SegmentStore,
    ledger: &mut SpaceLedger,
    page: &FoundPage,
    theirs: &FoundPage,
    bits: Bits,
    kept: &KeptLines,
)
    requires joined { IsJoined (view_of store.old ledger.old) }
    requires found { IsFoundPage ledger.old page.now }
    requires theirs { IsFoundPage ledger.old theirs.now }
    requires few { length bits ≤ MOST_OWN }
    requires kept { AreKept (state_of (view_of store.old ledger.old)) page.now.space page.now.page bits kept.now }
    requires alone { is_alone (ledger_of ledger.old) page.now.space page.now.page ≡ true }
    requires none_awaits { (space_in ledger.old page.now.space).awaiting ≡ map.empty }
    requires away { IsAway (state_of (view_of store.old ledger.old)) page.now.space
        theirs.now.space theirs.now.page }
    requires sees { (x y : PageState)
        → page_in (state_of (view_of store.old ledger.old)) page.now.space page.now.page ≡ Some x
        → page_in (state_of (view_of store.old ledger.old)) theirs.now.space theirs.now.page ≡ Some y
        → SeesFrame bits x y }
    ensures joined { IsJoined (view_of store.new ledger.new) }
    ensures state { IsRebased (state_of (view_of store.old ledger.old)) (state_of (view_of store.new ledger.new))
        page.now.space page.now.page theirs.now.space theirs.now.page bits }
{
    let space = page.space;
    let number = page.page;
    drop_overlay(store, ledger, space, number, page.overlay());
    change_frame(store, ledger, space, number, page.entry(), theirs);
    give_lines(store, ledger, space, number, bits, kept);
}
