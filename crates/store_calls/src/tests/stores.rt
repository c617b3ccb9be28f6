//! What is there in a store, or the test fails.

ghost use Rattle.std.specs.Prelude.{◌≡◌, ◌≤◌, Some};
ghost use Rattle.segment_store.specs.Store.{IsSegment, lines_at, segment_at};

use overlay_address::OverlayPage;
use segment_store::{Segment, SegmentStore};
use std::process::Abort;
use unit_map::Block;

// The segment of a block, which has to be there.
pub(super) fn expect_segment(rt: &impl Abort, store: &SegmentStore, block: Block) -> Segment
    ensures there { IsSegment store.now block }
    ensures segment { segment_at store.now block.unit ≡ Some result }
    ensures lines { lines_at store.now block.unit ≡ result.bits }
    ensures order { block.order ≤ 4 }
{
    assert!(rt; block.order <= 4);
    match store.segment(block.unit) {
        Some(segment) => {
            assert!(rt; segment.order == block.order);
            segment
        }
        None => panic!(rt; "no segment at {}", block.unit),
    }
}

// The block of the segment of an owner among the first so many units, which has to be there with an order.
pub(super) fn block_of(
    rt: &impl Abort,
    store: &SegmentStore,
    units: u32,
    owner: OverlayPage,
    order: u8,
) -> Block {
    for unit in 0..units {
        if store.owner_at(unit) == Some(owner) {
            return Block { unit, order };
        }
    }
    panic!(rt; "no segment of {owner:?}")
}
