ghost use Rattle.std.specs.Prelude.{◌≡◌, ◌+◌, ◌≤◌};
ghost use Rattle.unit_map.specs.Pieces.{AreSettled};
ghost use Rattle.segment_store.specs.Changes.{moved_lines};
ghost use Rattle.segment_store.specs.Pointers.{capacity_of};

use super::stores::{block_of, expect_segment};
use arrayvec::ArrayVec;
use overlay_address::OverlayPage;
use segment_store::{SegmentStore, Steps};
use std::marker::Brand;
use std::process::Abort;
use std::sync::ledger::{Blank, Ledger};
use std::test::Fail;
use store_compaction::Move;
use unit_map::Block;

// The most lines that a segment of an order has.
fn capacity(order: u8) -> u32
    requires { order ≤ 4 }
    ensures { result ≡ capacity_of order }
{
    match order {
        0 => 3,
        1 => 7,
        2 => 15,
        3 => 31,
        4 => 64,
        _ => unreachable!(),
    }
}

// Puts a line of equal bytes into a segment, which lacks it and has a place for it.
pub(super) fn put(rt: &impl Abort, store: &mut SegmentStore, block: Block, line: u8, byte: u8)
    ensures settled { AreSettled store.old.blocks → AreSettled store.new.blocks }
{
    let segment = expect_segment(rt, store, block);
    assert!(rt; line < 64);
    assert!(rt; !segment.bits.has(line));
    assert!(rt; segment.bits.len() < capacity(block.order));
    store.insert(block, line, &[byte; 64]);
}

#[test]
fn line_63_alone_has_the_pointers_of_the_format(rt: HostRuntime) -> Result<(), Fail> {
    let mut store = SegmentStore::new(rt.alloc(), 1)?;
    assert!(rt; store.has_room(0));
    let block = store.begin_segment(OverlayPage::of(1, 16), 0);
    assert_eq!(rt; block, Block { unit: 0, order: 0 });
    put(&rt, &mut store, block, 63, 5);
    assert!(rt; store.frames() == 1);
    let mut expected = [0; 64];
    expected[39] = 0x08;
    expected[40] = 0x0C;
    assert_eq!(rt; *store.frame_line(0, 0), expected);
    assert_eq!(rt; *store.frame_line(0, 1), [5; 64]);
    Ok(())
}

// Begins a segment of order 2 in a settled store.
fn begin_quarter(rt: &impl Abort, store: &mut SegmentStore, unit: u32)
    requires settled { AreSettled store.old.blocks }
    ensures settled { AreSettled store.new.blocks }
{
    assert!(rt; store.has_room(2));
    let block = store.begin_segment(OverlayPage::of(1, u64::from(unit)), 2);
    assert_eq!(rt; block, Block { unit, order: 2 });
}

// Ends the segment at a unit of a settled store, which is settled again.
fn end_quarter<L: Ledger>(
    rt: &impl Abort,
    store: &mut SegmentStore,
    unit: u32,
    moves: &mut ArrayVec<Move, 4>,
    steps: &mut Steps<L>,
)
    requires settled { AreSettled store.old.blocks }
    ensures settled { AreSettled store.new.blocks }
    ensures steps { steps.new ≡ steps.old + moved_lines moves.new.items }
{
    match store.segment(unit) {
        Some(segment) => {
            let order = segment.order;
            store.end_segment(Block { unit, order });
            store.settle(moves, steps);
        }
        None => panic!(rt; "no segment at {unit}"),
    }
}

// Counts the lines that are copied where the first and the third of four quarters of a frame end.
fn settle_quarters<L: Ledger>(rt: &impl Abort, store: &mut SegmentStore, steps: &mut Steps<L>)
    requires settled { AreSettled store.old.blocks }
    ensures settled { AreSettled store.new.blocks }
    ensures steps { steps.new ≡ steps.old + 16 }
{
    begin_quarter(rt, store, 0);
    begin_quarter(rt, store, 4);
    begin_quarter(rt, store, 8);
    begin_quarter(rt, store, 12);
    let mut moves = ArrayVec::new();
    end_quarter(rt, store, 0, &mut moves, steps);
    assert!(rt; moves.is_empty());
    end_quarter(rt, store, 8, &mut moves, steps);
    assert!(rt; moves.len() == 1);
    assert!(rt; moves[0].order == 2);
    assert!(rt; store.has_room(3));
}

fn count_quarters<L: Ledger>(rt: &impl Abort, store: &mut SegmentStore, blank: Blank)
    requires name { blank.name ≡ L.name }
    requires parts { blank.parts ≡ L.parts }
    requires one { blank.parts ≡ 1 }
    requires settled { AreSettled store.old.blocks }
{
    let mut steps = Steps::<L>::new(blank);
    settle_quarters(rt, store, &mut steps);
}

#[test]
fn two_quarters_become_a_half(rt: HostRuntime) -> Result<(), Fail> {
    let mut store = SegmentStore::new(rt.alloc(), 1)?;
    count_quarters::<Brand>(&rt, &mut store, Blank::new(1));
    Ok(())
}

// How many units four frames have.
const UNITS: u32 = 64;

// The name of a page of space 1.
fn name(page: u8) -> OverlayPage {
    OverlayPage::of(1, 977 * u64::from(page))
}

// Begins a segment of a page with one line, if there is room for its order, and answers whether it did.
fn try_begin(rt: &impl Abort, store: &mut SegmentStore, page: u8, order: u8) -> bool
    requires settled { AreSettled store.old.blocks }
    ensures settled { AreSettled store.new.blocks }
{
    assert!(rt; order <= 4);
    let room = store.has_room(order);
    assert_eq!(rt; room, store.free_units() >= 1 << order);
    if room {
        let block = store.begin_segment(name(page), order);
        put(rt, store, block, page, page);
    }
    room
}

// Ends the segment of a page, and settles the store.
fn end<L: Ledger>(
    rt: &impl Abort,
    store: &mut SegmentStore,
    page: u8,
    order: u8,
    steps: &mut Steps<L>,
)
    requires settled { AreSettled store.old.blocks }
    ensures settled { AreSettled store.new.blocks }
{
    let block = block_of(rt, store, UNITS, name(page), order);
    expect_segment(rt, store, block);
    store.end_segment(block);
    let mut moves = ArrayVec::new();
    store.settle(&mut moves, steps);
}

// The segment of a page has its one line.
fn expect_line(rt: &impl Abort, store: &SegmentStore, page: u8, order: u8) {
    let block = block_of(rt, store, UNITS, name(page), order);
    let segment = expect_segment(rt, store, block);
    assert!(rt; page < 64);
    assert!(rt; segment.bits.len() == 1);
    assert!(rt; segment.bits.has(page));
    assert_eq!(rt; *store.get(block, page), [page; 64]);
}

// Begins the segment of a page, or ends it.
fn turn<L: Ledger>(
    rt: &impl Abort,
    store: &mut SegmentStore,
    orders: &mut [Option<u8>; 24],
    seed: u32,
    steps: &mut Steps<L>,
)
    requires settled { AreSettled store.old.blocks }
    ensures settled { AreSettled store.new.blocks }
{
    let page = (seed >> 16) as usize % 24;
    match orders[page] {
        Some(order) => {
            end(rt, store, page as u8, order, steps);
            orders[page] = None;
        }
        None => {
            let order = (seed >> 29) as u8 % 5;
            if try_begin(rt, store, page as u8, order) {
                orders[page] = Some(order);
            }
        }
    }
}

// Segments of 24 pages in four frames, beside a list of their orders.
fn segments_beside_a_list<L: Ledger>(rt: &impl Abort, store: &mut SegmentStore, blank: Blank)
    requires name { blank.name ≡ L.name }
    requires parts { blank.parts ≡ L.parts }
    requires one { blank.parts ≡ 1 }
    requires settled { AreSettled store.old.blocks }
{
    let mut steps = Steps::<L>::new(blank);
    let mut orders: [Option<u8>; 24] = [None; 24];
    let mut seed = 1u32;
    'turning: for _turn in 0..2000 {
        seed = seed.wrapping_mul(1_664_525).wrapping_add(1_013_904_223);
        turn(rt, store, &mut orders, seed, &mut steps);
        for page in 0..24usize {
            if let Some(order) = orders[page] {
                expect_line(rt, store, page as u8, order);
            }
        }
    }
}

#[test]
fn segments_stay_what_they_are_while_others_end(rt: HostRuntime) -> Result<(), Fail> {
    let mut store = SegmentStore::new(rt.alloc(), 4)?;
    segments_beside_a_list::<Brand>(&rt, &mut store, Blank::new(1));
    Ok(())
}
