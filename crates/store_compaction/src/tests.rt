ghost use Rattle.std.specs.Prelude.{◌≡◌, ◌+◌, ◌^◌, ◌<◌, ◌≤◌};
ghost use Rattle.unit_map.specs.Pieces.{AreSettled, free_blocks, free_units};
ghost use Rattle.unit_map.specs.Changes.{HasRoom};

use crate::{Move, apply, next_move, room_for};
use std::process::Abort;
use std::test::Fail;
use unit_map::{Block, UnitMap};

// Makes moves until there is room for a block of an order, and answers how many.
fn make_room(map: &mut UnitMap, order: u8) -> u32
    requires order { order ≤ 4 }
    requires enough { 2 ^ order ≤ free_units map.old }
    ensures room { HasRoom map.new order }
    ensures free { free_units map.new ≡ free_units map.old }
    ensures few { result < free_blocks map.old }
{
    let mut moves = 0u32;
    'making: while let Some(m) = room_for(map, order) {
        apply(map, m);
        moves += 1;
    }
    moves
}

// Makes moves as long as there are any, and answers how many.
fn settle(map: &mut UnitMap) -> u32
    ensures settled { AreSettled map.new }
    ensures free { free_units map.new ≡ free_units map.old }
    ensures few { result + free_blocks map.new ≤ free_blocks map.old }
{
    let mut moves = 0u32;
    'settling: while let Some(m) = next_move(map) {
        apply(map, m);
        moves += 1;
    }
    moves
}

// Frees a block, which has to be taken.
fn give(rt: &impl Abort, map: &mut UnitMap, unit: u32, order: u8) {
    let block = Block { unit, order };
    assert!(rt; map.is_taken(block));
    map.give(block);
}

// Takes all units one by one, and gives back each that is a multiple of `step`.
fn scatter(rt: &impl Abort, map: &mut UnitMap, units: u32, step: u32) {
    for unit in 0..units {
        assert_eq!(rt; map.take(0), Some(Block { unit, order: 0 }));
    }
    for unit in 0..units {
        if unit.checked_rem(step) == Some(0) {
            give(rt, map, unit, 0);
        }
    }
}

#[test]
fn two_quarters_become_a_half(rt: HostRuntime) -> Result<(), Fail> {
    let mut map = UnitMap::new(rt.alloc(), 1)?;
    for unit in [0, 4, 8, 12] {
        assert_eq!(rt; map.take(2), Some(Block { unit, order: 2 }));
    }
    give(&rt, &mut map, 0, 2);
    give(&rt, &mut map, 8, 2);
    assert_eq!(rt; map.free_units(), 8);
    assert!(rt; !map.has_room(3));
    assert_eq!(rt; room_for(&map, 2), None);

    let found = room_for(&map, 3);
    assert_eq!(rt; found, next_move(&map));
    match found {
        Some(m) => {
            assert_eq!(rt; m.order, 2);
            apply(&mut map, m);
        }
        None => panic!(rt; "no move makes room"),
    }
    assert!(rt; map.has_room(3));
    assert_eq!(rt; map.free_units(), 8);
    assert_eq!(rt; room_for(&map, 3), None);
    assert_eq!(rt; next_move(&map), None);
    Ok(())
}

#[test]
fn scattered_units_become_room(rt: HostRuntime) -> Result<(), Fail> {
    for (order, moves) in [(0, 0), (1, 1), (2, 2), (3, 4), (4, 8)] {
        let mut map = UnitMap::new(rt.alloc(), 2)?;
        scatter(&rt, &mut map, 32, 2);
        assert!(rt; map.free_units() == 16);
        assert_eq!(rt; make_room(&mut map, order), moves);
        assert_eq!(rt; map.free_units(), 16);
        assert!(rt; map.has_room(order));
    }
    Ok(())
}

#[test]
fn a_map_is_settled(rt: HostRuntime) -> Result<(), Fail> {
    // 342 units are free, each alone: 21 frames, four units and two
    let mut map = UnitMap::new(rt.alloc(), 64)?;
    scatter(&rt, &mut map, 1024, 3);
    assert_eq!(rt; map.free_units(), 342);
    settle(&mut map);
    assert_eq!(rt; map.free_units(), 342);
    for order in [0, 1, 2, 3u8] {
        assert_eq!(rt; map.two_free(order), None, "order {order}");
    }
    for frame in 0..21 {
        assert!(rt; map.take(4).is_some(), "frame {frame}");
    }
    assert_eq!(rt; map.free_units(), 6);
    assert!(rt; map.take(2).is_some());
    assert!(rt; map.take(1).is_some());
    assert_eq!(rt; settle(&mut map), 0);
    Ok(())
}

// A map in which all is free or taken has no move.
#[test]
fn nothing_moves_where_nothing_is_apart(rt: HostRuntime) -> Result<(), Fail> {
    let mut map = UnitMap::new(rt.alloc(), 3)?;
    assert_eq!(rt; next_move(&map), None);
    assert!(rt; map.free_units() == 48);
    assert_eq!(rt; room_for(&map, 4), None);
    for _ in 0..3 {
        assert!(rt; map.take(4).is_some());
    }
    assert_eq!(rt; next_move(&map), None);
    Ok(())
}
