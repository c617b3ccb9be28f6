ghost use Rattle.std.specs.Prelude.{◌+◌, ◌^◌, ◌<◌, ◌≤◌, IsTrue};
ghost use Rattle.page_table.specs.Table.{IsFree, AreThere};

use ovl_io::Perms;
use page_table::{PageEntry, PageTable};
use sizes::TABLE_SLOTS;
use std::alloc::AllocError;
use std::process::Abort;
use std::test::Fail;

// 2^36 - 1
const LAST: u64 = 0xF_FFFF_FFFF;

const CODE: PageEntry = PageEntry {
    perms: Perms::X,
    frame: 7,
};

const DATA: PageEntry = PageEntry {
    perms: Perms::W,
    frame: 4_294_967_295,
};

// Whether none of the n pages from `from` on is there.
fn is_free(table: &PageTable, from: u64, n: u32) -> bool
    requires { from + n ≤ 2 ^ 36 }
    ensures { IsTrue result → IsFree table.now.pages from n }
{
    match table.next_from(from) {
        Some((found, _)) => from + u64::from(n) <= found,
        None => true,
    }
}

// Whether all n pages from `from` on are there.
fn is_there(table: &PageTable, from: u64, n: u32) -> bool
    requires { from + n ≤ 2 ^ 36 }
    ensures { IsTrue result → AreThere table.now.pages from n }
{
    'asking: for i in 0..n {
        if table.get(from + u64::from(i)).is_none() {
            return false;
        }
    }
    true
}

// Maps a few pages, which have to be free.
fn map_pages(
    rt: &impl Abort,
    table: &mut PageTable,
    from: u64,
    n: u32,
    entry: PageEntry,
) -> Result<(), AllocError> {
    assert!(rt; n < 1000 && table.len() < 1000);
    assert!(rt; from <= LAST + 1 - u64::from(n));
    assert!(rt; is_free(table, from, n));
    table.map_pages(from, n, entry.perms, entry.frame)
}

// Unmaps pages, which have to be there.
fn unmap(rt: &impl Abort, table: &mut PageTable, from: u64, n: u32) {
    assert!(rt; n < 1000 && from <= LAST + 1 - u64::from(n));
    assert!(rt; is_there(table, from, n));
    table.unmap(from, n);
}

// Gives a page, which has to be there, another entry.
fn set(rt: &impl Abort, table: &mut PageTable, page: u64, entry: PageEntry) {
    assert!(rt; table.get(page).is_some());
    table.set(page, entry);
}

// Says of a page, which has to be there, whether it is overlaid.
fn set_overlaid(rt: &impl Abort, table: &mut PageTable, page: u64, on: bool) {
    assert!(rt; table.get(page).is_some());
    table.set_overlaid(page, on);
}

// Says of a page that it isn't overlaid, whether it is there or not.
fn clear_overlaid(rt: &impl Abort, table: &mut PageTable, page: u64) {
    assert!(rt; page <= LAST);
    table.clear_overlaid(page, 1);
}

// Asserts how many pages there are, and what each of these has.
fn assert_pages(rt: &impl Abort, table: &PageTable, len: u32, rows: &[(u64, Option<PageEntry>)]) {
    assert_eq!(rt; table.len(), len);
    for &(page, entry) in rows {
        assert_eq!(rt; table.get(page), entry, "page {page}");
    }
}

// Run with each allocation failing in turn (`rt try --test --fail-alloc N`), this goes the other way.
#[test]
fn a_mapping_is_whole_or_nothing(rt: HostRuntime) -> Result<(), Fail> {
    let mut table = PageTable::new(rt.alloc());
    map_pages(&rt, &mut table, 10, 1, CODE)?;
    match map_pages(&rt, &mut table, 11, 100, DATA) {
        Ok(()) => {
            let rows = [(10, Some(CODE)), (11, Some(DATA)), (110, Some(DATA))];
            assert_pages(&rt, &table, 101, &rows);
        }
        Err(_) => {
            assert_pages(&rt, &table, 1, &[(10, Some(CODE)), (11, None), (60, None)]);
            assert_eq!(rt; table.next_from(11), None);
        }
    }
    Ok(())
}

// The pages of the test below: five pieces of eight pages, in the middle of each of which another digit changes, and the last pages.
const PIECE: usize = 8;

const PIECES: [u64; 5] = [508, (1 << 18) - 4, (1 << 27) - 4, (5 << 27) - 4, LAST - 7];

const PAGES: usize = PIECE * PIECES.len();

// The page at a place of the list.
fn page_at(at: usize) -> u64
    requires { at < PAGES }
{
    PIECES[at / PIECE] + (at % PIECE) as u64
}

// What a page of the list has: a map from pages to frames, by rising pages.
fn listed(frames: &[Option<u32>; PAGES], at: usize) -> Option<PageEntry>
    requires { at < PAGES }
{
    frames[at].map(|frame| PageEntry {
        perms: Perms::W,
        frame,
    })
}

// The first page of the list from `at` on, as `next_from` answers it.
fn next_listed(frames: &[Option<u32>; PAGES], at: usize) -> Option<(u64, PageEntry)> {
    for next in at..PAGES {
        if let Some(entry) = listed(frames, next) {
            return Some((page_at(next), entry));
        }
    }
    None
}

// The first overlaid page of the list from `at` on, as `next_overlaid` answers it.
fn overlaid_from(overlaid: &[bool; PAGES], at: usize) -> Option<u64> {
    for next in at..PAGES {
        if overlaid[next] {
            return Some(page_at(next));
        }
    }
    None
}

// How many pages of the list from `at` on, in its piece, are there, or aren't.
fn run_listed(frames: &[Option<u32>; PAGES], at: usize, there: bool) -> u32
    requires { at < PAGES }
{
    let end = PAGES.min(at + PIECE - at % PIECE);
    let mut n = 0;
    for next in at..end {
        if frames[next].is_some() != there {
            break;
        }
        n = (next - at) as u32 + 1;
    }
    n
}

// Writes a run of pages into the list.
fn list(frames: &mut [Option<u32>; PAGES], at: usize, n: u32, frame: Option<u32>)
    requires { at < PAGES }
{
    for next in at..PAGES {
        if next - at < n as usize {
            frames[next] = frame;
        }
    }
}

// Pages at all digits, of which some are overlaid, beside a list of which are: pages come and go one by one.
#[test]
fn a_table_keeps_which_pages_are_overlaid(rt: HostRuntime) -> Result<(), Fail> {
    let mut table = PageTable::new(rt.alloc());
    let mut there = [false; PAGES];
    let mut overlaid = [false; PAGES];
    let mut seed = 1u32;
    for call in 0..3000u32 {
        seed = seed.wrapping_mul(1_664_525).wrapping_add(1_013_904_223);
        let at = (seed >> 16) as usize % PAGES;
        let page = page_at(at);
        if !there[at] {
            map_pages(&rt, &mut table, page, 1, CODE)?;
            there[at] = true;
        } else if (seed >> 8) % 8 < 5 {
            let on = (seed >> 12) % 2 == 0;
            set_overlaid(&rt, &mut table, page, on);
            overlaid[at] = on;
        } else if (seed >> 8) % 8 < 7 {
            unmap(&rt, &mut table, page, 1);
            there[at] = false;
            overlaid[at] = false;
        } else {
            clear_overlaid(&rt, &mut table, page);
            overlaid[at] = false;
        }
        let copy = table.copy()?;
        assert_eq!(rt;
            table.next_overlaid(0),
            overlaid_from(&overlaid, 0),
            "call {call}"
        );
        assert_eq!(rt;
            copy.next_overlaid(page),
            overlaid_from(&overlaid, at),
            "call {call}"
        );
    }
    Ok(())
}

// What the path of a page leads to, from the first node on.
fn walked(rt: &impl Abort, table: &PageTable, page: u64) -> Option<PageEntry> {
    let mut node = 0;
    for shift in [27u32, 18, 9] {
        if node >= table.nodes() {
            return None;
        }
        node = table.child(node, ((page >> shift) % TABLE_SLOTS) as u16)?;
    }
    assert!(rt; node < table.nodes());
    table.leaf(node, (page % TABLE_SLOTS) as u16)
}

// Runs of pages at all digits, beside a list of the frames that they were given: first more come than go, then more go.
#[test]
fn a_table_answers_as_a_plain_list_does(rt: HostRuntime) -> Result<(), Fail> {
    let mut table = PageTable::new(rt.alloc());
    let mut frames: [Option<u32>; PAGES] = [None; PAGES];
    let mut seed = 1u32;
    for call in 0..10_000u32 {
        seed = seed.wrapping_mul(1_664_525).wrapping_add(1_013_904_223);
        let at = (seed >> 16) as usize % PAGES;
        let page = page_at(at);
        let entry = PageEntry {
            perms: Perms::W,
            frame: call,
        };
        if (seed >> 8) % 8 < if call / 300 % 2 == 0 { 6 } else { 2 } {
            let n = run_listed(&frames, at, false);
            map_pages(&rt, &mut table, page, n, entry)?;
            list(&mut frames, at, n, Some(call));
        } else {
            let n = run_listed(&frames, at, true);
            unmap(&rt, &mut table, page, n);
            list(&mut frames, at, n, None);
        }
        let at = (seed >> 24) as usize % PAGES;
        let page = page_at(at);
        if frames[at].is_some() {
            set(&rt, &mut table, page, entry);
            frames[at] = Some(call);
        }
        assert_eq!(rt; table.next_from(0), next_listed(&frames, 0), "call {call}");
        assert_eq!(rt;
            table.next_from(page),
            next_listed(&frames, at),
            "call {call}"
        );
        assert_eq!(rt;
            table.len() as usize,
            frames.iter().flatten().count(),
            "call {call}"
        );
        for at in 0..PAGES {
            assert_eq!(rt; table.get(page_at(at)), listed(&frames, at), "call {call}");
        }
        assert_eq!(rt;
            walked(&rt, &table, page),
            listed(&frames, at),
            "call {call}"
        );
        assert_eq!(rt; table.get(PIECES[0] - 1), None, "call {call}");
        assert_eq!(rt; table.get(1 << 18 | 512), None, "call {call}");
    }
    Ok(())
}

#[test]
fn a_path_of_four_nodes_leads_to_a_page(rt: HostRuntime) -> Result<(), Fail> {
    let mut table = PageTable::new(rt.alloc());
    assert_eq!(rt; table.nodes(), 0);
    assert_eq!(rt; walked(&rt, &table, 5), None);

    // two places, far from one another, each of which ends behind the leaf that it begins in
    map_pages(&rt, &mut table, 505, 17, CODE)?;
    map_pages(&rt, &mut table, LAST - 520, 17, DATA)?;
    assert_eq!(rt; table.nodes(), 9);
    for page in [
        504,
        505,
        511,
        512,
        521,
        522,
        LAST - 521,
        LAST - 520,
        LAST - 504,
        LAST - 503,
        LAST,
        1 << 27,
    ] {
        assert_eq!(rt; walked(&rt, &table, page), table.get(page), "page {page}");
    }
    assert_eq!(rt; walked(&rt, &table, 521), Some(CODE));

    // nodes stay where pages go, and are passed over, also by a copy
    unmap(&rt, &mut table, 505, 17);
    assert_eq!(rt; table.nodes(), 9);
    assert_eq!(rt; walked(&rt, &table, 511), None);
    assert_eq!(rt; table.next_from(0), Some((LAST - 520, DATA)));
    let copy = table.copy()?;
    assert_eq!(rt; copy.nodes(), 9);
    assert_eq!(rt; copy.next_from(0), Some((LAST - 520, DATA)));

    // pages that are mapped below the first one are found again
    map_pages(&rt, &mut table, 3, 1, CODE)?;
    assert_eq!(rt; table.next_from(0), Some((3, CODE)));
    assert_eq!(rt; copy.next_from(0), Some((LAST - 520, DATA)));
    Ok(())
}

// The runs of a table from a page on: where each begins, how many pages it has, and its first frame, and whether they rise.
fn assert_runs(rt: &impl Abort, table: &PageTable, rows: &[(u64, u32, u32, bool)]) {
    let mut from = 0;
    for &(page, n, frame, rising) in rows {
        match table.next_run(from) {
            Some(run) => {
                assert_eq!(rt; (run.page, run.n, run.entry.frame), (page, n, frame));
                assert!(rt;
                    run.n == 1 || run.rising == rising,
                    "the run at page {page}"
                );
                from = run.page.saturating_add(u64::from(run.n));
            }
            None => panic!(rt; "no run at page {page}"),
        }
    }
    assert!(rt; table.next_run(from).is_none(), "no run behind page {from}");
}

#[test]
fn pages_that_go_on_make_one_run(rt: HostRuntime) -> Result<(), Fail> {
    let mut table = PageTable::new(rt.alloc());
    map_pages(&rt, &mut table, 10, 10, CODE)?;
    assert_runs(&rt, &table, &[(10, 10, 7, false)]);

    // each page gets a frame of its own, the next one each time
    for i in 0..10u32 {
        let perms = CODE.perms;
        set(
            &rt,
            &mut table,
            10 + u64::from(i),
            PageEntry {
                perms,
                frame: 20 + i,
            },
        );
    }
    assert_runs(&rt, &table, &[(10, 10, 20, true)]);
    assert_eq!(rt;
        table
            .next_run(14)
            .map(|run| (run.page, run.n, run.entry.frame)),
        Some((14, 6, 24))
    );

    // a page in the middle, and back
    let middle = PageEntry {
        perms: CODE.perms,
        frame: 24,
    };
    set(&rt, &mut table, 14, DATA);
    assert_runs(
        &rt,
        &table,
        &[
            (10, 4, 20, true),
            (14, 1, 4_294_967_295, false),
            (15, 5, 25, true),
        ],
    );
    set(&rt, &mut table, 14, middle);
    assert_runs(&rt, &table, &[(10, 10, 20, true)]);

    // other permissions make another run, and so do frames that don't go on
    set(
        &rt,
        &mut table,
        14,
        PageEntry {
            perms: Perms::W,
            frame: 24,
        },
    );
    assert_runs(
        &rt,
        &table,
        &[(10, 4, 20, true), (14, 1, 24, true), (15, 5, 25, true)],
    );
    unmap(&rt, &mut table, 12, 4);
    assert_runs(&rt, &table, &[(10, 2, 20, true), (16, 4, 26, true)]);

    // pages that are mapped beside others of the same kind join them
    map_pages(&rt, &mut table, 31, 1, CODE)?;
    map_pages(&rt, &mut table, 30, 1, CODE)?;
    map_pages(&rt, &mut table, 32, 3, CODE)?;
    assert_runs(
        &rt,
        &table,
        &[(10, 2, 20, true), (16, 4, 26, true), (30, 5, 7, false)],
    );
    unmap(&rt, &mut table, 30, 5);
    let copy = table.copy()?;
    assert_runs(&rt, &copy, &[(10, 2, 20, true), (16, 4, 26, true)]);
    Ok(())
}
