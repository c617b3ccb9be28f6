//! Pages that are shared with another space.

#![tactic(auto, using(crate::proofs::Needs::needs))]

ghost use Rattle.std.specs.Prelude.{◌≡◌, ◌≢◌, IsSome, Some, None, true};
ghost use Rattle.page_table.specs.Table.{Pages};
ghost use Rattle.space_maps.specs.Spaces.{holds_space, page_in, space_in};
ghost use Rattle.space_ledger.specs.Space.{IsLeast};
ghost use Rattle.space_ledger.specs.View.{frame_at, frame_awaiting, overlay_at};
ghost use Rattle.overlay_pages.specs.Calls.{AreShared, AwaitBare, NoneAwaitsBelow};
ghost use Rattle.overlay_pages.specs.Changes.{HasShareRoom, with_shared};
ghost use Rattle.overlay_pages.specs.View.{IsJoined, state_of, view_of};

use overlay_address::OverlayPage;
use overlay_mapping_table::Entry;
use segment_store::SegmentStore;
use space_ledger::SpaceLedger;

/// A page that awaits in a space, and has no overlay where it is shared from, is shared.
fn share_bare(store: &SegmentStore, ledger: &mut SpaceLedger, from: u16, to: u16, page: u64)
    requires joined { IsJoined (view_of store.now ledger.old) }
    requires there { IsSome (page_in ledger.old from page) }
    requires space { holds_space ledger.old to ≡ true }
    requires least { IsLeast (space_in ledger.old to).awaiting page }
    requires frame { frame_awaiting ledger.old to page ≡ frame_at ledger.old from page }
    requires bare { overlay_at ledger.old from page ≡ None }
    ensures joined { IsJoined (view_of store.now ledger.new) }
    ensures state { state_of (view_of store.now ledger.new)
        ≡ with_shared (state_of (view_of store.now ledger.old)) from to page }
{
    ledger.share_found(from, to, page, None, None);
}

/// A page that awaits in a space, and has an overlay where it is shared from, is shared with a copy of the overlay.
fn share_overlaid(
    store: &mut SegmentStore,
    ledger: &mut SpaceLedger,
    from: u16,
    to: u16,
    page: u64,
    overlay: Entry,
)
    requires joined { IsJoined (view_of store.old ledger.old) }
    requires there { IsSome (page_in ledger.old from page) }
    requires space { holds_space ledger.old to ≡ true }
    requires least { IsLeast (space_in ledger.old to).awaiting page }
    requires frame { frame_awaiting ledger.old to page ≡ frame_at ledger.old from page }
    requires overlaid { overlay_at ledger.old from page ≡ Some overlay }
    requires room { HasShareRoom (state_of (view_of store.old ledger.old)) from page }
    ensures joined { IsJoined (view_of store.new ledger.new) }
    ensures state { state_of (view_of store.new ledger.new)
        ≡ with_shared (state_of (view_of store.old ledger.old)) from to page }
{
    let block = store.copy_segment(overlay.block, OverlayPage::of(to, page));
    ledger.share_found(from, to, page, Some(overlay), Some(block));
}

/// A page that awaits in a space as the least, with the frame that it has where it is shared from, is shared.
pub(crate) fn share(
    store: &mut SegmentStore,
    ledger: &mut SpaceLedger,
    from: u16,
    to: u16,
    page: u64,
)
    requires joined { IsJoined (view_of store.old ledger.old) }
    requires there { IsSome (page_in ledger.old from page) }
    requires space { holds_space ledger.old to ≡ true }
    requires least { IsLeast (space_in ledger.old to).awaiting page }
    requires frame { frame_awaiting ledger.old to page ≡ frame_at ledger.old from page }
    requires room { HasShareRoom (state_of (view_of store.old ledger.old)) from page }
    ensures joined { IsJoined (view_of store.new ledger.new) }
    ensures state { state_of (view_of store.new ledger.new)
        ≡ with_shared (state_of (view_of store.old ledger.old)) from to page }
{
    match ledger.overlay(from, page) {
        Some(overlay) => share_overlaid(store, ledger, from, to, page, overlay),
        None => share_bare(store, ledger, from, to, page),
    }
}

/// Each page below one that awaits in a space, with the frame that it has where it is shared from and without own lines there, is
/// shared.
pub(crate) fn share_below(
    store: &SegmentStore,
    ledger: &mut SpaceLedger,
    from: u16,
    to: u16,
    until: u64,
)
    requires joined { IsJoined (view_of store.now ledger.old) }
    requires differ { from ≢ to }
    requires space { holds_space ledger.old to ≡ true }
    requires bare { AwaitBare (state_of (view_of store.now ledger.old)) from to until }
    ensures joined { IsJoined (view_of store.now ledger.new) }
    ensures shared { AreShared from to until (state_of (view_of store.now ledger.old))
        (state_of (view_of store.now ledger.new)) }
    ensures none { NoneAwaitsBelow (state_of (view_of store.now ledger.new)) to until }
{
    ledger.share_bare(from, to, until);
}
