//! Moves of segments, which the tables follow.

#![tactic(auto, using(crate::proofs::Shifts::moved))]

ghost use Rattle.std.specs.Prelude.{◌≡◌, ◌+◌, ◌^◌, ◌<◌, ◌≤◌};
ghost use Rattle.unit_map.specs.Pieces.{CanSettle};
ghost use Rattle.segment_store.specs.Changes.{AreLow};
ghost use Rattle.segment_store.specs.Store.{segment_at};
ghost use Rattle.overlay_pages.specs.View.{IsJoinedWith, view_of};
ghost use Rattle.overlay_pages.specs.Steps.{Follows, FollowsAll, IsAhead, IsOfPage, Moved, MovesFew, relocated};

use arrayvec::ArrayVec;
use segment_store::{SegmentStore, Steps};
use space_ledger::SpaceLedger;
use std::marker::Brand;
use std::sync::ledger::{Blank, Ledger};
use store_compaction::Move;
use unit_map::Block;

/// The page whose segment starts at a unit, if one does, has its block there.
fn relocate_at(store: &SegmentStore, ledger: &mut SpaceLedger, unit: u32)
    requires { IsOfPage ledger.old (segment_at store.now unit) }
    ensures { ledger.new ≡ relocated ledger.old unit (segment_at store.now unit) }
{
    match store.segment(unit) {
        Some(segment) => {
            let order = segment.order;
            ledger.relocate(segment.owner, Block { unit, order });
        }
        None => {}
    }
}

/// The tables follow a move that was made in the store, maybe before others: the page of each segment that is where the move went
/// has its block there.
fn follow(store: &SegmentStore, ledger: &mut SpaceLedger, m: Move)
    requires low { m.order < 4 }
    requires inside { m.to + 2 ^ m.order ≤ 2 ^ 20 }
    requires ahead { IsAhead store.now ledger.old }
    ensures { Follows store.now ledger.old ledger.new m }
{
    'following: for i in 0..1u32 << m.order {
        relocate_at(store, ledger, m.to + i);
    }
}

/// The tables follow moves, in any order.
fn follow_all(store: &SegmentStore, ledger: &mut SpaceLedger, moves: &mut ArrayVec<Move, 4>)
    requires low { AreLow moves.old.items }
    requires ahead { IsAhead store.now ledger.old }
    ensures { FollowsAll store.now ledger.old ledger.new moves.old.items }
{
    'following: while let Some(m) = moves.pop() {
        follow(store, ledger, m);
    }
}

/// Settles the store after a segment ended in it, and counts the lines that are copied. The tables follow the moves.
fn settle_counted<L: Ledger>(store: &mut SegmentStore, ledger: &mut SpaceLedger, blank: Blank)
    requires name { blank.name ≡ L.name }
    requires parts { blank.parts ≡ L.parts }
    requires one { blank.parts ≡ 1 }
    requires joined { IsJoinedWith CanSettle (view_of store.old ledger.old) }
    ensures moved { Moved (view_of store.old ledger.old) (view_of store.new ledger.new) }
    ensures few { MovesFew ledger.old ledger.new }
{
    let mut moves = ArrayVec::new();
    let mut steps = Steps::<L>::new(blank);
    store.settle(&mut moves, &mut steps);
    follow_all(store, ledger, &mut moves);
}

/// Settles the store after a segment ended in it. The tables follow the moves.
pub(crate) fn settle(store: &mut SegmentStore, ledger: &mut SpaceLedger)
    requires joined { IsJoinedWith CanSettle (view_of store.old ledger.old) }
    ensures moved { Moved (view_of store.old ledger.old) (view_of store.new ledger.new) }
    ensures few { MovesFew ledger.old ledger.new }
{
    settle_counted::<Brand>(store, ledger, Blank::new(1));
}
