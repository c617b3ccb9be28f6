//! Frames that are filled.

ghost use Rattle.std.specs.Prelude.{◌≡◌, ℕ, ◌*◌, ◌<◌, IfSome, drop, take};
ghost use Rattle.sizes.specs.declared.TheConstants.{LINE_BYTES, MOST_FRAMES, PAGE_LINES};
ghost use Rattle.segment_store.specs.Kept.{IsStore};
ghost use Rattle.segment_store.specs.Store.{IsFrame, frame_line};
ghost use Rattle.segment_store.specs.Changes.{FillsFrame};
ghost use Rattle.overlay_pages.specs.Changes.{frame_but_zero};

use segment_store::SegmentStore;
use sizes::PAGE_BYTES;

/// A frame, where it isn't the zero frame.
pub(crate) fn frame_but(frame: u32, zero: u32) -> Option<u32>
    requires few { frame < MOST_FRAMES }
    ensures frame { result ≡ frame_but_zero zero frame }
    ensures low { IfSome result (λ f. f < MOST_FRAMES) }
{
    if frame == zero { None } else { Some(frame) }
}

/// The bytes of a frame, which is taken, become these.
pub(crate) fn fill_bytes(store: &mut SegmentStore, frame: u32, bytes: &[u8; PAGE_BYTES])
    requires store { IsStore store.old }
    requires frame { IsFrame store.old frame }
    ensures fills { FillsFrame store.old store.new frame }
    ensures lines { (i : ℕ) → i < PAGE_LINES
        → frame_line store.new frame i ≡ take LINE_BYTES (drop (LINE_BYTES * i) bytes.now) }
{
    let (lines, _) = bytes.as_chunks::<64>();
    store.put_frame(frame, lines);
}
