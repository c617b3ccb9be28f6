ghost use Rattle.std.specs.Prelude.{◌<◌};

use page_set::PageSet;
use std::alloc::AllocError;
use std::process::Abort;
use std::test::Fail;

// The pages of the test below, ascending: those round the ends of chunks of 64, the last one, and some between.
const PAGES: [u64; 20] = [
    0,
    1,
    62,
    63,
    64,
    65,
    127,
    128,
    130,
    190,
    191,
    192,
    300,
    4095,
    4096,
    4097,
    1 << 36,
    (1 << 36) + 1,
    u64::MAX - 1,
    u64::MAX,
];

// Makes a page a member, with room for one chunk more, of 20 at most.
fn insert(rt: &impl Abort, set: &mut PageSet, page: u64) -> Result<(), AllocError> {
    assert!(rt; set.chunks() < 20);
    set.reserve(page, 1, 20)?;
    set.insert(page);
    Ok(())
}

// The first member from a place of the list on, as `next_from` answers it.
fn next_listed(members: &[bool; 20], at: usize) -> Option<u64> {
    for next in at..20 {
        if members[next] {
            return Some(PAGES[next]);
        }
    }
    None
}

// Takes the members below a page, from another one on, out of the list.
fn cut(members: &mut [bool; 20], from: u64, end: u64) {
    for at in 0..20usize {
        if from <= PAGES[at] && PAGES[at] < end {
            members[at] = false;
        }
    }
}

// Beside a list of which pages are members: most calls make one, some take one out, and some a run of up to 200 pages.
#[test]
fn a_set_answers_as_a_plain_list_does(rt: HostRuntime) -> Result<(), Fail> {
    let mut set = PageSet::new(rt.alloc());
    let mut members = [false; 20];
    let mut seed = 1u32;
    for call in 0..5000u32 {
        seed = seed.wrapping_mul(1_664_525).wrapping_add(1_013_904_223);
        let at = (seed >> 16) as usize % 20;
        let page = PAGES[at];
        let kind = (seed >> 8) % 8;
        if kind < 5 {
            insert(&rt, &mut set, page)?;
            members[at] = true;
        } else if kind < 7 {
            set.remove(page);
            members[at] = false;
        } else {
            let n = (seed >> 12) % 200;
            if page < 1 << 40 {
                set.remove_run(page, n);
                cut(&mut members, page, page + u64::from(n));
            }
        }
        assert_eq!(rt; set.next_from(0), next_listed(&members, 0), "call {call}");
        assert_eq!(rt;
            set.next_from(page),
            next_listed(&members, at),
            "call {call}"
        );
        assert_eq!(rt; set.has(page), members[at], "call {call}");
        if call % 100 == 0 {
            let copy = set.copy(20)?;
            for at in 0..20usize {
                assert_eq!(rt; copy.has(PAGES[at]), members[at], "call {call}");
            }
        }
    }
    Ok(())
}
