ghost use Rattle.std.specs.Prelude.{◌≡◌, ◌+◌, ◌*◌, ◌^◌};
ghost use Rattle.unit_map.specs.Pieces.{AreSettled};
ghost use Rattle.segment_store.specs.Changes.{moved_lines};

mod run;

use super::stores::{block_of, expect_segment};
use arrayvec::ArrayVec;
use overlay_address::OverlayPage;
use run::RUN;
use segment_store::{SegmentStore, Steps};
use std::marker::Brand;
use std::process::Abort;
use std::sync::ledger::{Blank, Ledger};
use std::test::Fail;
use store_compaction::Move;

const FRAMES: u32 = 320;

const UNITS: u32 = 16 * FRAMES;

// There are 64 pages of each of three spaces.
const OWNERS: usize = 256;

// What happens to the overlay of a page.
#[derive(Clone, Copy)]
enum Change {
    Grow,
    End,
    Settle,
    Copy,
}

// A store in which a run is done again.
#[derive(Drop)]
struct Replay {
    store: SegmentStore,
    // by owner the order of its segment
    orders: [Option<u8>; OWNERS],
    change: Change,
    // of the first page of the process
    first: u8,
    // how many lines the last release copied, as long as nothing said how many they have to be
    copied: u32,
    // how many lines all releases copied together, and the one that copied most
    total: u32,
    most: u32,
}

fn name(owner: u8) -> OverlayPage {
    OverlayPage::of(1, u64::from(owner))
}

// So many lines, and those that a move copied.
fn add_lines(rt: &impl Abort, lines: u32, m: Move) -> u32
    ensures { result ≡ lines + 4 * 2 ^ m.order }
{
    assert!(rt; m.order < 4 && lines < 1000);
    lines + (4u32 << m.order)
}

// How many lines moves copied.
fn count_lines(rt: &impl Abort, moves: &mut ArrayVec<Move, 4>) -> u32
    ensures { result ≡ moved_lines moves.old.items }
{
    let mut lines = 0u32;
    'counting: while let Some(m) = moves.pop() {
        lines = add_lines(rt, lines, m);
    }
    lines
}

// Begins a segment.
fn begin(rt: &impl Abort, store: &mut SegmentStore, owner: u8, order: u8)
    requires settled { AreSettled store.old.blocks }
    ensures settled { AreSettled store.new.blocks }
{
    assert!(rt; order <= 4);
    assert!(rt; store.has_room(order));
    store.begin_segment(name(owner), order);
}

// Takes a frame.
fn take_frame(rt: &impl Abort, store: &mut SegmentStore)
    requires settled { AreSettled store.old.blocks }
    ensures settled { AreSettled store.new.blocks }
{
    assert!(rt; store.has_room(4));
    store.take_frame();
}

// Ends a segment, settles the store, and answers how many lines were copied.
fn release<L: Ledger>(
    rt: &impl Abort,
    store: &mut SegmentStore,
    owner: u8,
    order: u8,
    steps: &mut Steps<L>,
) -> u32
    requires settled { AreSettled store.old.blocks }
    ensures settled { AreSettled store.new.blocks }
    ensures steps { steps.new ≡ steps.old + result }
{
    let block = block_of(rt, store, UNITS, name(owner), order);
    expect_segment(rt, store, block);
    store.end_segment(block);
    let mut moves = ArrayVec::new();
    store.settle(&mut moves, steps);
    count_lines(rt, &mut moves)
}

// The order of the segment that comes after one of an order, or after none.
fn next_order(rt: &impl Abort, order: Option<u8>) -> u8 {
    match order {
        Some(order) => {
            assert!(rt; order < 4);
            order + 1
        }
        None => 0,
    }
}

// Begins a segment in the place of one of an order, or of none, and answers how many lines were copied.
fn grow<L: Ledger>(
    rt: &impl Abort,
    store: &mut SegmentStore,
    owner: u8,
    order: Option<u8>,
    steps: &mut Steps<L>,
) -> u32
    requires settled { AreSettled store.old.blocks }
    ensures settled { AreSettled store.new.blocks }
    ensures steps { steps.new ≡ steps.old + result }
{
    let lines = match order {
        Some(order) => release(rt, store, owner, order, steps),
        None => 0,
    };
    begin(rt, store, owner, next_order(rt, order));
    lines
}

// Ends a segment of an order, which has to be there, and answers how many lines were copied.
fn end<L: Ledger>(
    rt: &impl Abort,
    store: &mut SegmentStore,
    owner: u8,
    order: Option<u8>,
    steps: &mut Steps<L>,
) -> u32
    requires settled { AreSettled store.old.blocks }
    ensures settled { AreSettled store.new.blocks }
    ensures steps { steps.new ≡ steps.old + result }
{
    match order {
        Some(order) => release(rt, store, owner, order, steps),
        None => panic!(rt; "no segment of {owner}"),
    }
}

// Begins a segment like one that is there.
fn copy(rt: &impl Abort, store: &mut SegmentStore, owner: u8, order: Option<u8>)
    requires settled { AreSettled store.old.blocks }
    ensures settled { AreSettled store.new.blocks }
{
    match order {
        Some(order) => begin(rt, store, owner, order),
        None => panic!(rt; "no segment for {owner}"),
    }
}

// A page of the process gets what the last sign said, and how many lines were copied is answered.
fn make_change<L: Ledger>(
    rt: &impl Abort,
    replay: &mut Replay,
    page: u8,
    steps: &mut Steps<L>,
) -> u32
    requires settled { AreSettled replay.old.store.blocks }
    ensures settled { AreSettled replay.new.store.blocks }
    ensures steps { steps.new ≡ steps.old + result }
    ensures total { replay.new.total ≡ replay.old.total }
{
    assert!(rt; page < 64 && replay.first <= 64);
    let owner = replay.first + page;
    let order = replay.orders[usize::from(owner)];
    match replay.change {
        Change::Grow => {
            replay.orders[usize::from(owner)] = Some(next_order(rt, order));
            grow(rt, &mut replay.store, owner, order, steps)
        }
        Change::End => {
            replay.orders[usize::from(owner)] = None;
            end(rt, &mut replay.store, owner, order, steps)
        }
        Change::Settle => {
            replay.orders[usize::from(owner)] = None;
            let lines = end(rt, &mut replay.store, owner, order, steps);
            take_frame(rt, &mut replay.store);
            lines
        }
        Change::Copy => {
            replay.orders[usize::from(owner + 64)] = order;
            copy(rt, &mut replay.store, owner + 64, order);
            0
        }
    }
}

// The release before this copied so many lines.
fn expect_copied(rt: &impl Abort, replay: &mut Replay, lines: u32)
    ensures settled { AreSettled replay.old.store.blocks → AreSettled replay.new.store.blocks }
    ensures total { replay.new.total ≡ replay.old.total }
{
    assert_eq!(rt; replay.copied, lines);
    replay.copied = 0;
}

// A sign other than that of a page or of a count.
fn turn_to(replay: &mut Replay, sign: u8)
    ensures settled { AreSettled replay.old.store.blocks → AreSettled replay.new.store.blocks }
    ensures total { replay.new.total ≡ replay.old.total }
{
    match sign {
        b'+' => replay.change = Change::Grow,
        b'-' => replay.change = Change::End,
        b'*' => replay.change = Change::Settle,
        b'&' => replay.change = Change::Copy,
        b'/' => replay.first = if replay.first == 0 { 64 } else { 0 },
        _ => {}
    }
}

// Does what a sign says.
fn play<L: Ledger>(rt: &impl Abort, replay: &mut Replay, sign: u8, steps: &mut Steps<L>)
    requires settled { AreSettled replay.old.store.blocks }
    ensures settled { AreSettled replay.new.store.blocks }
    ensures steps { steps.new + replay.old.total ≡ steps.old + replay.new.total }
{
    if sign < b'0' {
        turn_to(replay, sign);
    } else if sign < b'?' {
        expect_copied(rt, replay, 4 * u32::from(sign - b'0'));
    } else {
        expect_copied(rt, replay, 0);
        let lines = make_change(rt, replay, sign - b'?', steps);
        assert!(rt; replay.total < 1_000_000 && lines <= 60);
        replay.copied = lines;
        replay.total += lines;
        replay.most = replay.most.max(lines);
    }
}

// Does a run again, and counts its steps.
fn count_run<L: Ledger>(rt: &impl Abort, replay: &mut Replay, blank: Blank)
    requires name { blank.name ≡ L.name }
    requires parts { blank.parts ≡ L.parts }
    requires one { blank.parts ≡ 1 }
    requires settled { AreSettled replay.old.store.blocks }
{
    let mut steps = Steps::<L>::new(blank);
    take_frame(rt, &mut replay.store);
    take_frame(rt, &mut replay.store);
    'playing: for &sign in RUN.as_bytes() {
        play(rt, replay, sign, &mut steps);
    }
    expect_copied(rt, replay, 0);
}

#[test]
fn releases_of_a_run_copy_as_many_lines_as_a_model_has_it(rt: HostRuntime) -> Result<(), Fail> {
    let mut replay = Replay {
        store: SegmentStore::new(rt.alloc(), FRAMES)?,
        orders: [None; OWNERS],
        change: Change::Grow,
        first: 0,
        copied: 0,
        total: 0,
        most: 0,
    };
    count_run::<Brand>(&rt, &mut replay, Blank::new(1));
    assert_eq!(rt; (replay.total, replay.most), (12_888, 56));
    Ok(())
}
