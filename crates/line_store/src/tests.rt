use crate::Region;
use crate::lines::Lines;
use linked_list_allocator::LocalHeap;
use std::process::Abort;
use std::test::Fail;

// Asserts that each of these lines, which have to be there, has this byte at its ends.
fn assert_ends(rt: &impl Abort, region: &Region, rows: &[(u32, u8)]) {
    for &(at, byte) in rows {
        assert!(rt; at < region.lines());
        let line = region.line(at);
        assert_eq!(rt; (line[0], line[63]), (byte, byte), "line {at}");
    }
}

#[test]
fn the_largest_region_is_made(rt: HostRuntime) -> Result<(), Fail> {
    let mut region = Region::new(rt.alloc(), 65_537)?;
    assert_eq!(rt; region.lines(), 4_194_368);
    assert_ends(&rt, &region, &[(0, 0), (2_097_184, 0), (4_194_367, 0)]);

    assert!(rt; region.lines() == 4_194_368);
    region.put_line(1000, &[1; 64]);
    assert_ends(
        &rt,
        &region,
        &[(999, 0), (1000, 1), (1001, 0), (4_194_367, 0)],
    );
    Ok(())
}

// Run with each allocation failing in turn (`rt try --test --fail-alloc N`), this goes the other way.
#[test]
fn a_region_is_whole_or_nothing(rt: HostRuntime) {
    match Region::new(rt.alloc(), 3) {
        Ok(region) => assert_ends(&rt, &region, &[(0, 0), (191, 0)]),
        Err(refused) => assert_eq!(rt; refused, std::alloc::AllocError),
    }
}

#[test]
fn refused_memory_makes_nothing(rt: HostRuntime) -> Result<(), Fail> {
    let heap = LocalHeap::new(rt.alloc(), 63 * 64)?;
    let alloc = &heap;
    // one line more than there is memory for
    match Lines::new(&alloc, 64) {
        Ok((lines, lease)) => {
            lines.free(64, lease, &alloc);
            panic!(rt; "64 lines in the memory of 63");
        }
        Err(refused) => assert_eq!(rt; refused, std::alloc::AllocError),
    }
    assert_eq!(rt; heap.used(), 0);

    match Lines::new(&alloc, 63) {
        Ok((lines, lease)) => {
            assert_eq!(rt; heap.used(), 63 * 64);
            lines.free(63, lease, &alloc);
        }
        Err(_) => panic!(rt; "no memory for 63 lines"),
    }
    assert_eq!(rt; heap.used(), 0);
    Ok(())
}

#[test]
fn a_dropped_region_gives_its_memory_back(rt: HostRuntime) -> Result<(), Fail> {
    let heap = LocalHeap::new(rt.alloc(), 64 * 64)?;
    let alloc = &heap;
    for round in 0..3u8 {
        let mut region = Region::made(alloc, 1)?;
        assert_eq!(rt; heap.used(), 64 * 64, "round {round}");
        region.put_line(63, &[round; 64]);
        assert_eq!(rt; region.line(63)[0], round);
        drop(region);
        assert_eq!(rt; heap.used(), 0, "round {round}");
    }
    Ok(())
}
