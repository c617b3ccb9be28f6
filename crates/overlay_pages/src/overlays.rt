//! Lines that come into the overlay of a page, and overlays that end.

#![tactic(auto, using(crate::proofs::Needs::needs))]

ghost use Rattle.std.specs.Prelude.{◌≡◌, ℕ, ◌+◌, ◌^◌, ◌<◌, ◌≤◌, IfSome, IsSome, Some, None, [], ◌∷◌, true, false, length};
ghost use Rattle.sizes.specs.declared.TheConstants.{PAGE_LINES};
ghost use Rattle.unit_map.specs.Changes.{HasRoom};
ghost use Rattle.overlay_bits.specs.Lines.{has_line};
ghost use Rattle.ledger.specs.Units.{class};
ghost use Rattle.segment_store.specs.Pointers.{capacity_of};
ghost use Rattle.segment_store.specs.Store.{line_in, scratch_line};
ghost use Rattle.segment_store.specs.Changes.{KeepsFrames, KeepsScratch};
ghost use Rattle.space_maps.specs.Spaces.{page_in, altered_page};
ghost use Rattle.space_ledger.specs.View.{frame_at, lines_of, overlay_at};
ghost use Rattle.overlay_pages.specs.Changes.{Fits, brought, discarded, is_writable, limit_of, units_of, with_brought};
ghost use Rattle.overlay_pages.specs.Calls.{MovesFewBeside};
ghost use Rattle.overlay_pages.specs.Spots.{IsBroughtTo, IsFoundPage, KeepsPlacesBut};
ghost use Rattle.overlay_pages.specs.View.{IsJoined, state_of, view_of};
ghost use Rattle.overlay_pages.specs.Steps.{HasJoined, joins, laid};

use crate::moving::settle;
use crate::spots::FoundPage;
use overlay_address::OverlayPage;
use overlay_bits::Bits;
use overlay_mapping_table::Entry;
use segment_store::SegmentStore;
use space_ledger::SpaceLedger;
use unit_map::Block;

/// The most lines of a segment of an order.
fn capacity(order: u8) -> u32
    requires { order ≤ 4 }
    ensures { result ≡ capacity_of order }
{
    match order {
        0 => 3,
        1 => 7,
        2 => 15,
        3 => 31,
        4 => 64,
        _ => unreachable!(),
    }
}

/// The overlay of a page ends. Its segment ends, and the store is settled.
pub(crate) fn end_overlay(
    store: &mut SegmentStore,
    ledger: &mut SpaceLedger,
    space: u16,
    page: u64,
    overlay: &Entry,
)
    requires joined { IsJoined (view_of store.old ledger.old) }
    requires there { IsSome (page_in ledger.old space page) }
    requires overlaid { overlay_at ledger.old space page ≡ Some overlay.now }
    ensures joined { IsJoined (view_of store.new ledger.new) }
    ensures state { state_of (view_of store.new ledger.new)
        ≡ altered_page discarded (state_of (view_of store.old ledger.old)) space page }
    ensures there { IsSome (page_in ledger.new space page) }
    ensures bare { overlay_at ledger.new space page ≡ None }
    ensures scratch { KeepsScratch store.old store.new }
    ensures frames { KeepsFrames store.old store.new }
    ensures few { MovesFewBeside space page ledger.old ledger.new }
{
    store.end_segment(overlay.block);
    ledger.replace_overlay(space, page, Some(*overlay), None);
    settle(store, ledger);
}

/// The overlay of a page that is there ends, if it has one, which is known.
pub(crate) fn drop_overlay(
    store: &mut SegmentStore,
    ledger: &mut SpaceLedger,
    space: u16,
    page: u64,
    overlay: Option<Entry>,
)
    requires joined { IsJoined (view_of store.old ledger.old) }
    requires there { IsSome (page_in ledger.old space page) }
    requires overlay { overlay_at ledger.old space page ≡ overlay }
    ensures joined { IsJoined (view_of store.new ledger.new) }
    ensures state { state_of (view_of store.new ledger.new)
        ≡ altered_page discarded (state_of (view_of store.old ledger.old)) space page }
    ensures there { IsSome (page_in ledger.new space page) }
    ensures bare { overlay_at ledger.new space page ≡ None }
    ensures scratch { KeepsScratch store.old store.new }
    ensures frames { KeepsFrames store.old store.new }
    ensures few { MovesFewBeside space page ledger.old ledger.new }
{
    if let Some(entry) = overlay {
        end_overlay(store, ledger, space, page, &entry);
    }
}

/// The overlay of a page ends, with its lines in scratch, and there is room for a block of an order, for which the units are there then:
/// the store is settled.
pub(crate) fn take_up(
    store: &mut SegmentStore,
    ledger: &mut SpaceLedger,
    space: u16,
    page: u64,
    overlay: &Entry,
    order: u8,
)
    requires joined { IsJoined (view_of store.old ledger.old) }
    requires there { IsSome (page_in ledger.old space page) }
    requires overlaid { overlay_at ledger.old space page ≡ Some overlay.now }
    requires order { order ≤ 4 }
    requires enough { 2 ^ order + units_of (altered_page discarded (state_of (view_of store.old ledger.old)) space page)
        ≤ limit_of (state_of (view_of store.old ledger.old)) }
    ensures joined { IsJoined (view_of store.new ledger.new) }
    ensures state { state_of (view_of store.new ledger.new)
        ≡ altered_page discarded (state_of (view_of store.old ledger.old)) space page }
    ensures there { IsSome (page_in ledger.new space page) }
    ensures bare { overlay_at ledger.new space page ≡ None }
    ensures frames { KeepsFrames store.old store.new }
    ensures lines { (line : ℕ) → line < PAGE_LINES → has_line overlay.now.bits line ≡ true
        → scratch_line store.new line ≡ line_in store.old overlay.now.block line }
    ensures room { HasRoom store.new.blocks order }
    ensures few { MovesFewBeside space page ledger.old ledger.new }
{
    store.lift(overlay.block, overlay.bits);
    end_overlay(store, ledger, space, page, overlay);
}

/// A page that is there and has no overlay gets one, for which there is room: with these lines of scratch, and with one line more.
/// Answers its block.
#[inline(never)]
fn begin_overlay(
    store: &mut SegmentStore,
    ledger: &mut SpaceLedger,
    space: u16,
    page: u64,
    order: u8,
    bits: Bits,
    line: u8,
    bytes: &[u8; 64],
) -> Block
    requires joined { IsJoined (view_of store.old ledger.old) }
    requires there { IsSome (page_in ledger.old space page) }
    requires bare { overlay_at ledger.old space page ≡ None }
    requires order { order ≤ 4 }
    requires room { HasRoom store.old.blocks order }
    requires line { line < PAGE_LINES }
    requires absent { has_line bits line ≡ false }
    requires fits { length bits < capacity_of order }
    requires size { 2 ^ order ≡ class (length bits + 1) }
    ensures joined { IsJoined (view_of store.new ledger.new) }
    ensures state { state_of (view_of store.new ledger.new)
        ≡ altered_page (laid store.old bits line bytes.now)
        (state_of (view_of store.old ledger.old)) space page }
    ensures table { HasJoined ledger.old ledger.new space page bits line result }
    ensures places { KeepsPlacesBut space page
        (view_of store.old ledger.old) (view_of store.new ledger.new) }
{
    let block = store.begin_segment(OverlayPage::of(space, page), order);
    store.lay(block, bits);
    store.insert(block, line, bytes);
    let bits = bits.with(line);
    ledger.replace_overlay(space, page, None, Some(Entry { bits, block }));
    block
}

/// A line comes into the overlay of a page, where there is a place for it. Answers its block.
#[inline(always)]
fn insert_line(
    store: &mut SegmentStore,
    ledger: &mut SpaceLedger,
    space: u16,
    page: u64,
    entry: Entry,
    line: u8,
    bytes: &[u8; 64],
) -> Block
    requires joined { IsJoined (view_of store.old ledger.old) }
    requires there { IsSome (page_in ledger.old space page) }
    requires overlaid { overlay_at ledger.old space page ≡ Some entry }
    requires line { line < PAGE_LINES }
    requires absent { has_line entry.bits line ≡ false }
    requires fits { length entry.bits < capacity_of entry.block.order }
    ensures joined { IsJoined (view_of store.new ledger.new) }
    ensures state { state_of (view_of store.new ledger.new)
        ≡ altered_page (joins line bytes.now) (state_of (view_of store.old ledger.old)) space page }
    ensures table { HasJoined ledger.old ledger.new space page entry.bits line result }
    ensures places { KeepsPlacesBut space page
        (view_of store.old ledger.old) (view_of store.new ledger.new) }
{
    store.insert(entry.block, line, bytes);
    let bits = entry.bits.with(line);
    let block = entry.block;
    ledger.replace_overlay(space, page, Some(entry), Some(Entry { bits, block }));
    block
}

/// A line comes into the overlay of a page, which grows for it: its old segment ends before the new one begins.
#[cold]
#[inline(never)]
fn grow(
    store: &mut SegmentStore,
    ledger: &mut SpaceLedger,
    space: u16,
    page: u64,
    entry: Entry,
    line: u8,
    bytes: &[u8; 64],
)
    requires joined { IsJoined (view_of store.old ledger.old) }
    requires there { IsSome (page_in ledger.old space page) }
    requires overlaid { overlay_at ledger.old space page ≡ Some entry }
    requires line { line < PAGE_LINES }
    requires absent { has_line entry.bits line ≡ false }
    requires full { capacity_of entry.block.order ≤ length entry.bits }
    requires fits { Fits (altered_page (joins line bytes.now)
        (state_of (view_of store.old ledger.old)) space page) }
    ensures joined { IsJoined (view_of store.new ledger.new) }
    ensures state { state_of (view_of store.new ledger.new)
        ≡ altered_page (joins line bytes.now) (state_of (view_of store.old ledger.old)) space page }
{
    let order = entry.block.order + 1;
    take_up(store, ledger, space, page, &entry, order);
    begin_overlay(store, ledger, space, page, order, entry.bits, line, bytes);
}

/// The first line comes into the overlay of a page that has none. Answers its block.
fn begin_with(
    store: &mut SegmentStore,
    ledger: &mut SpaceLedger,
    space: u16,
    page: u64,
    line: u8,
    bytes: &[u8; 64],
) -> Block
    requires joined { IsJoined (view_of store.old ledger.old) }
    requires there { IsSome (page_in ledger.old space page) }
    requires bare { overlay_at ledger.old space page ≡ None }
    requires line { line < PAGE_LINES }
    requires fits { Fits (altered_page (joins line bytes.now)
        (state_of (view_of store.old ledger.old)) space page) }
    ensures joined { IsJoined (view_of store.new ledger.new) }
    ensures state { state_of (view_of store.new ledger.new)
        ≡ altered_page (joins line bytes.now) (state_of (view_of store.old ledger.old)) space page }
    ensures table { HasJoined ledger.old ledger.new space page [] line result }
    ensures places { KeepsPlacesBut space page
        (view_of store.old ledger.old) (view_of store.new ledger.new) }
{
    begin_overlay(store, ledger, space, page, 0, Bits::empty(), line, bytes)
}

/// A line comes into the overlay of a page, which begins where there is none, and grows where it has no place for it. Answers its block
/// where it doesn't grow.
#[inline(always)]
fn join(
    store: &mut SegmentStore,
    ledger: &mut SpaceLedger,
    space: u16,
    page: u64,
    overlay: Option<Entry>,
    line: u8,
    bytes: &[u8; 64],
) -> Option<Block>
    requires joined { IsJoined (view_of store.old ledger.old) }
    requires there { IsSome (page_in ledger.old space page) }
    requires overlay { overlay_at ledger.old space page ≡ overlay }
    requires line { line < PAGE_LINES }
    requires absent { has_line (lines_of overlay) line ≡ false }
    requires fits { Fits (altered_page (joins line bytes.now)
        (state_of (view_of store.old ledger.old)) space page) }
    ensures joined { IsJoined (view_of store.new ledger.new) }
    ensures state { state_of (view_of store.new ledger.new)
        ≡ altered_page (joins line bytes.now) (state_of (view_of store.old ledger.old)) space page }
    ensures stays { IfSome result (HasJoined ledger.old ledger.new space page (lines_of overlay) line) }
    ensures places { IfSome result (λ _. KeepsPlacesBut space page
        (view_of store.old ledger.old) (view_of store.new ledger.new)) }
{
    match overlay {
        Some(entry) => {
            if entry.bits.len() < capacity(entry.block.order) {
                Some(insert_line(store, ledger, space, page, entry, line, bytes))
            } else {
                grow(store, ledger, space, page, entry, line, bytes);
                None
            }
        }
        None => Some(begin_with(store, ledger, space, page, line, bytes)),
    }
}

/// Whether an overlay, if there is one, has a line.
fn has_own(overlay: &Option<Entry>, line: u8) -> bool
    requires { line < PAGE_LINES }
    ensures { result ≡ has_line (lines_of overlay.now) line }
{
    match overlay {
        Some(entry) => entry.bits.has(line),
        None => false,
    }
}

/// A line of a page that is to be written in its overlay is there: as the page's frame has it, where it wasn't there. Answers the block
/// where it came and no other overlay moved.
#[inline(always)]
fn bring_line(
    store: &mut SegmentStore,
    ledger: &mut SpaceLedger,
    space: u16,
    page: u64,
    frame: u32,
    overlay: Option<Entry>,
    line: u8,
) -> Option<Block>
    requires joined { IsJoined (view_of store.old ledger.old) }
    requires there { IsSome (page_in ledger.old space page) }
    requires frame { frame_at ledger.old space page ≡ Some frame }
    requires overlay { overlay_at ledger.old space page ≡ overlay }
    requires line { line < PAGE_LINES }
    requires fits { Fits (altered_page (brought (line ∷ []))
        (state_of (view_of store.old ledger.old)) space page) }
    ensures joined { IsJoined (view_of store.new ledger.new) }
    ensures state { state_of (view_of store.new ledger.new)
        ≡ altered_page (brought (line ∷ [])) (state_of (view_of store.old ledger.old)) space page }
    ensures stays { IfSome result (HasJoined ledger.old ledger.new space page (lines_of overlay) line) }
    ensures places { IfSome result (λ _. KeepsPlacesBut space page
        (view_of store.old ledger.old) (view_of store.new ledger.new)) }
{
    if has_own(&overlay, line) {
        return None;
    }
    let bytes = *store.frame_line(frame, line);
    join(store, ledger, space, page, overlay, line, &bytes)
}

/// A line of a page that was found, which can't be written where it stands, comes into its overlay, as the page's frame has it. Answers
/// the page as it is found then, where no other overlay moved.
#[inline(always)]
pub(crate) fn bring_found(
    store: &mut SegmentStore,
    ledger: &mut SpaceLedger,
    page: FoundPage,
    line: u8,
) -> Option<FoundPage>
    requires joined { IsJoined (view_of store.old ledger.old) }
    requires found { IsFoundPage ledger.old page }
    requires line { line < PAGE_LINES }
    requires apart { is_writable (state_of (view_of store.old ledger.old)) page.space page.page line ≡ false }
    requires fits { Fits (with_brought (state_of (view_of store.old ledger.old))
        page.space page.page (line ∷ [])) }
    ensures joined { IsJoined (view_of store.new ledger.new) }
    ensures state { state_of (view_of store.new ledger.new)
        ≡ with_brought (state_of (view_of store.old ledger.old)) page.space page.page (line ∷ []) }
    ensures found { IfSome result (IsBroughtTo ledger.old ledger.new page line) }
    ensures places { IfSome result (λ _. KeepsPlacesBut page.space page.page
        (view_of store.old ledger.old) (view_of store.new ledger.new)) }
{
    let space = page.space;
    let number = page.page;
    let frame = page.frame;
    let overlay = page.overlay();
    match bring_line(store, ledger, space, number, frame, overlay, line) {
        Some(block) => Some(page.with(line, block)),
        None => None,
    }
}

/// Lines of a page that are to be written in its overlay are there: as the page's frame has them, where they weren't there.
pub(crate) fn bring_lines(
    store: &mut SegmentStore,
    ledger: &mut SpaceLedger,
    space: u16,
    page: u64,
    frame: u32,
    lines: Bits,
)
    requires joined { IsJoined (view_of store.old ledger.old) }
    requires there { IsSome (page_in ledger.old space page) }
    requires frame { frame_at ledger.old space page ≡ Some frame }
    requires fits { Fits (altered_page (brought lines)
        (state_of (view_of store.old ledger.old)) space page) }
    ensures joined { IsJoined (view_of store.new ledger.new) }
    ensures state { state_of (view_of store.new ledger.new)
        ≡ altered_page (brought lines) (state_of (view_of store.old ledger.old)) space page }
{
    'bringing: for line in lines.iter() {
        let overlay = ledger.overlay(space, page);
        bring_line(store, ledger, space, page, frame, overlay, line);
    }
}
