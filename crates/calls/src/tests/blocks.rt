use sizes::MOST_FRAMES;
use std::process::Abort;
use std::test::Fail;
use unit_map::{Block, UnitMap};

// Takes a block of an order, which there has to be, and asserts where it starts.
fn take_at(rt: &impl Abort, map: &mut UnitMap, order: u8, unit: u32) {
    assert!(rt; order <= 4);
    assert_eq!(rt; map.take(order), Some(Block { unit, order }));
}

// Frees a block, which has to be taken.
fn give(rt: &impl Abort, map: &mut UnitMap, unit: u32, order: u8) {
    let block = Block { unit, order };
    assert!(rt; map.is_taken(block));
    map.give(block);
}

#[test]
fn a_frame_is_taken_in_quarters(rt: HostRuntime) -> Result<(), Fail> {
    let mut map = UnitMap::new(rt.alloc(), 1)?;
    for unit in [0, 4, 8, 12] {
        take_at(&rt, &mut map, 2, unit);
    }
    assert_eq!(rt; map.take(0), None);
    assert_eq!(rt; map.free_units(), 0);
    give(&rt, &mut map, 0, 2);
    give(&rt, &mut map, 8, 2);
    assert_eq!(rt; map.free_units(), 8);
    assert!(rt; map.has_room(2));
    assert!(rt; !map.has_room(3));
    let lower = Block { unit: 0, order: 2 };
    let upper = Block { unit: 8, order: 2 };
    assert_eq!(rt; map.two_free(2), Some((lower, upper)));
    assert_eq!(rt; map.two_free(3), None);
    Ok(())
}

#[test]
fn all_frames_are_taken_and_given_one_by_one(rt: HostRuntime) -> Result<(), Fail> {
    let mut map = UnitMap::new(rt.alloc(), MOST_FRAMES)?;
    assert_eq!(rt; map.free_units(), 1_048_576);
    for frame in 0..MOST_FRAMES {
        take_at(&rt, &mut map, 4, 16 * frame);
    }
    assert_eq!(rt; map.free_units(), 0);
    assert_eq!(rt; map.take(0), None);
    for frame in 0..MOST_FRAMES {
        give(&rt, &mut map, 16 * frame, 4);
    }
    assert_eq!(rt; map.free_units(), 1_048_576);
    Ok(())
}

// Run with each allocation failing in turn (`rt try --test --fail-alloc N`), this goes the other way.
#[test]
fn a_map_is_whole_or_nothing(rt: HostRuntime) {
    match UnitMap::new(rt.alloc(), 3) {
        Ok(map) => assert_eq!(rt; map.free_units(), 48),
        Err(refused) => assert_eq!(rt; refused, std::alloc::AllocError),
    }
}
