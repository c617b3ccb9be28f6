use super::segments::put;
use super::stores::expect_segment;
use overlay_address::OverlayPage;
use segment_store::SegmentStore;
use std::process::Abort;
use std::test::Fail;
use unit_map::Block;

// The lines that a segment gets, in this order.
const LINES: [u8; 3] = [63, 5, 9];

// Begins a segment of a page of space 1, with three lines.
fn begin(rt: &impl Abort, store: &mut SegmentStore, page: u8, order: u8) -> Block {
    assert!(rt; order <= 4);
    assert!(rt; store.has_room(order));
    let block = store.begin_segment(OverlayPage::of(1, u64::from(page)), order);
    for i in 0..3usize {
        put(rt, store, block, LINES[i], LINES[i]);
    }
    block
}

// A line of a segment, which has to be there, has this byte throughout.
fn expect_bytes(rt: &impl Abort, store: &SegmentStore, block: Block, line: u8, byte: u8) {
    let segment = expect_segment(rt, store, block);
    assert!(rt; line < 64);
    assert!(rt; segment.bits.has(line));
    assert_eq!(rt; *store.get(block, line), [byte; 64]);
}

// Writes a line of a segment, which has to be there.
fn write(rt: &impl Abort, store: &mut SegmentStore, block: Block, line: u8, byte: u8) {
    let segment = expect_segment(rt, store, block);
    assert!(rt; line < 64);
    assert!(rt; segment.bits.has(line));
    *store.get_mut(block, line) = [byte; 64];
}

// Copies a segment for space 2, and writes a line of the copy.
fn copy(rt: &impl Abort, store: &mut SegmentStore, page: u8, order: u8) {
    let block = begin(rt, store, page, order);
    expect_segment(rt, store, block);
    assert!(rt; store.has_room(block.order));
    let copy = store.copy_segment(block, OverlayPage::of(2, u64::from(page)));
    assert!(rt; copy.order == order && copy.unit != block.unit);
    let segment = expect_segment(rt, store, copy);
    assert_eq!(rt; segment.owner, OverlayPage::of(2, u64::from(page)));
    assert!(rt; segment.bits.len() == 3);
    write(rt, store, copy, 5, 77);
    expect_bytes(rt, store, copy, 5, 77);
    expect_bytes(rt, store, copy, 9, 9);
    expect_bytes(rt, store, copy, 63, 63);
    expect_bytes(rt, store, block, 5, 5);
    let first = expect_segment(rt, store, block);
    assert_eq!(rt; first.owner, OverlayPage::of(1, u64::from(page)));
}

#[test]
fn a_copied_segment_has_the_lines_of_the_other_and_is_apart(rt: HostRuntime) -> Result<(), Fail> {
    let mut store = SegmentStore::new(rt.alloc(), 4)?;
    for order in 0..5u8 {
        copy(&rt, &mut store, order, order);
    }
    Ok(())
}

// Takes a frame.
fn take(rt: &impl Abort, store: &mut SegmentStore) -> u32 {
    assert!(rt; store.has_room(4));
    store.take_frame()
}

// Writes a line of a frame, which has to be taken.
fn write_frame(rt: &impl Abort, store: &mut SegmentStore, frame: u32, line: u8, byte: u8) {
    assert!(rt; frame < 65_536 && line < 64);
    assert!(rt; store.is_taken(frame));
    *store.frame_line_mut(frame, line) = [byte; 64];
}

// Copies the lines of a segment, which has to be there, to scratch, and composes with them a page of a frame in another one.
fn compose(rt: &impl Abort, store: &mut SegmentStore, block: Block, from: u32, to: u32) {
    let segment = expect_segment(rt, store, block);
    store.lift(block, segment.bits);
    assert!(rt; to < 65_536 && from != to);
    assert!(rt; from < store.frames());
    assert!(rt; store.is_taken(to));
    let mut page = [[0; 64]; 64];
    store.compose_scratch(from, segment.bits, &mut page);
    store.compose_frame(from, segment.bits, to);
    for line in 0..64u8 {
        assert!(rt; to < store.frames());
        assert_eq!(rt; page[line as usize], *store.frame_line(to, line));
    }
}

// A line of a frame has this byte throughout.
fn expect_frame(rt: &impl Abort, store: &SegmentStore, frame: u32, line: u8, byte: u8) {
    assert!(rt; line < 64);
    assert!(rt; frame < store.frames());
    assert_eq!(rt; *store.frame_line(frame, line), [byte; 64]);
}

#[test]
fn a_composed_page_has_the_lines_of_scratch_over_those_of_the_frame(
    rt: HostRuntime,
) -> Result<(), Fail> {
    let mut store = SegmentStore::new(rt.alloc(), 4)?;
    let from = take(&rt, &mut store);
    let to = take(&rt, &mut store);
    for line in 0..64u8 {
        write_frame(&rt, &mut store, from, line, 100 + line);
        write_frame(&rt, &mut store, to, line, 200);
    }
    let block = begin(&rt, &mut store, 1, 0);
    compose(&rt, &mut store, block, from, to);
    for line in 0..64u8 {
        let own = line == 5 || line == 9 || line == 63;
        let byte = if own { line } else { 100 + line };
        expect_frame(&rt, &store, to, line, byte);
        expect_frame(&rt, &store, from, line, 100 + line);
    }
    Ok(())
}

// Lays the lines of a segment, which has to be there, in a frame.
fn lay_in(rt: &impl Abort, store: &mut SegmentStore, block: Block, frame: u32) {
    let segment = expect_segment(rt, store, block);
    assert!(rt; frame < 65_536);
    assert!(rt; store.is_taken(frame));
    store.lay_in_frame(block, segment.bits, frame);
}

#[test]
fn a_frame_in_which_a_segment_was_laid_has_its_lines(rt: HostRuntime) -> Result<(), Fail> {
    let mut store = SegmentStore::new(rt.alloc(), 4)?;
    let frame = take(&rt, &mut store);
    for line in 0..64u8 {
        write_frame(&rt, &mut store, frame, line, 100 + line);
    }
    for order in 0..5u8 {
        let block = begin(&rt, &mut store, order, order);
        lay_in(&rt, &mut store, block, frame);
        expect_bytes(&rt, &store, block, 9, 9);
        for line in 0..64u8 {
            let own = line == 5 || line == 9 || line == 63;
            let byte = if own { line } else { 100 + line };
            expect_frame(&rt, &store, frame, line, byte);
        }
    }
    Ok(())
}
