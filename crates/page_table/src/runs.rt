//! Runs of pages in the order of their pages, and what changes them without changing the pages that they stand for.

ghost use Rattle.std.specs.Prelude.{◌≡◌, ◌+◌, ◌^◌, ◌<◌, ◌≤◌, ◌⊎◌, length, slice_set, IsSome, IsTrue, None};
ghost use Rattle.std.specs.FinMap as map;
ghost use Rattle.std.specs.List as list;
ghost use Rattle.std.specs.VecDeque.{deque_capacity};
ghost use Rattle.page_table.specs.Kept.{HaveSamePages, HasBegun, HasFilled, HasRest, HasRun, HasSet, HaveLost, IsRunPlace, ComeInOrder, plain_run, find_in, run_head, is_before, run_pages, run_at, run_tail, total};
ghost use Rattle.page_table.specs.Table.{AreThere, IsFree};

use crate::entry::PageEntry;
use crate::links::place_in;
use crate::nodes::{MANY, Nodes};
use crate::run::PageRun;
use sizes::TABLE_SLOTS;
use std::collections::VecDeque;

// Pages with one entry.
fn run_of(page: u64, n: u32, entry: PageEntry) -> PageRun
    ensures { result ≡ plain_run page n entry }
{
    PageRun {
        page,
        n,
        entry,
        rising: false,
    }
}

/// Whether a run lies before a page.
#[inline(always)]
fn lies_before(run: &PageRun, page: u64) -> bool
    ensures { result ≡ is_before page run.now }
{
    page.saturating_sub(run.page) >= u64::from(run.n)
}

/// Whether a run holds a page.
#[inline(always)]
fn holds(run: &PageRun, page: u64) -> bool
    ensures { IsTrue result → (run.now.page ≤ page) × (page < run.now.page + run.now.n) }
{
    run.page <= page && page - run.page < u64::from(run.n)
}

/// The place of the run that holds a page, or of the first one behind it. It may be that of a guess.
#[inline]
fn place_of(runs: &VecDeque<PageRun>, page: u64, guess: usize) -> usize
    requires { ComeInOrder 0 runs.now.items }
    ensures { IsRunPlace runs.now.items page result }
{
    if guess < runs.len() && holds(&runs[guess], page) {
        return guess;
    }
    search(runs, page, guess)
}

/// The same. Looks at a guess first, then further and further from it, and then in the middle of what is left.
fn search(runs: &VecDeque<PageRun>, page: u64, guess: usize) -> usize
    requires { ComeInOrder 0 runs.now.items }
    ensures { IsRunPlace runs.now.items page result }
{
    let mut low = 0;
    let mut high = runs.len();
    let mut guess = guess;
    let mut step: usize = 1;
    'looking: while low < high {
        let at = place_in(low, high, guess);
        if lies_before(&runs[at], page) {
            low = at + 1;
            guess = at.wrapping_add(step);
        } else {
            high = at;
            guess = at.wrapping_sub(step);
        }
        step = step.wrapping_add(step);
    }
    low
}

/// The run that holds a page, or the first one behind it.
#[inline]
pub(crate) fn run_from(runs: &VecDeque<PageRun>, page: u64, guess: usize) -> Option<PageRun>
    requires { ComeInOrder 0 runs.now.items }
    ensures { HasRun runs.now.items page result }
{
    runs.get(place_of(runs, page, guess)).copied()
}

/// The entry of a slot, if it has one.
#[inline]
pub(crate) fn entry_in(runs: &VecDeque<PageRun>, page: u64, guess: usize) -> Option<PageEntry>
    requires { ComeInOrder 0 runs.now.items }
    ensures { result ≡ map.get (run_pages runs.now.items) page }
{
    match run_from(runs, page, guess) {
        Some(run) => {
            if run.page <= page {
                Some(run.entry_at((page - run.page) as u32))
            } else {
                None
            }
        }
        None => None,
    }
}

/// The first slots not below one: as many as lie in one run.
#[inline]
pub(crate) fn next_slots(runs: &VecDeque<PageRun>, page: u64, guess: usize) -> Option<PageRun>
    requires { ComeInOrder 0 runs.now.items }
    ensures { HasRest (run_pages runs.now.items) page result }
{
    match run_from(runs, page, guess) {
        Some(run) => {
            if run.page < page {
                Some(run.tail((page - run.page) as u32))
            } else {
                Some(run)
            }
        }
        None => None,
    }
}

// The first place from one on, among a few, whose run doesn't lie before a slot.
#[inline]
fn passed(runs: &VecDeque<PageRun>, slot: u64, first: usize) -> usize {
    let mut at = first;
    'passing: for _ in 0..MANY {
        match runs.get(at) {
            Some(run) => {
                if !lies_before(run, slot) {
                    return at;
                }
            }
            None => return at,
        }
        at = at.wrapping_add(1);
    }
    at
}

/// Where the run of a slot may stand.
#[inline]
pub(crate) fn guess_of(runs: &VecDeque<PageRun>, nodes: &Nodes, slot: u64) -> usize {
    let rows = nodes.runs_of(slot / TABLE_SLOTS, runs.len());
    match rows.few() {
        Some(first) => passed(runs, slot, first),
        None => match runs.get(rows.first()) {
            Some(from) => match runs.get(rows.last()) {
                Some(to) => rows.between(slot, from.page, to.page),
                None => rows.first(),
            },
            None => rows.first(),
        },
    }
}

/// Makes two runs of one: its first n pages, and the others behind them. There is room for them.
fn cut(runs: &mut VecDeque<PageRun>, at: usize, n: u32)
    requires rise { ComeInOrder 0 runs.old.items }
    requires there { at < length runs.old.items }
    requires some { 0 < n }
    requires inside { n < (run_at runs.old.items at).n }
    requires room { total runs.old.items ≤ deque_capacity runs.old }
    ensures same { HaveSamePages runs.old.items runs.new.items }
    ensures cut { runs.new.items
        ≡ list.insert (slice_set runs.old.items at (run_tail (run_at runs.old.items at) n)) at
        (run_head (run_at runs.old.items at) n) }
    ensures room { deque_capacity runs.old ≤ deque_capacity runs.new }
{
    let run = runs[at];
    runs[at] = run.tail(n);
    match runs.insert(at, run.head(n)) {
        Ok(()) => {}
        Err(_) => unreachable!(),
    }
}

/// Makes a page that is there the first one of its run. Answers the place of the run.
fn begin(runs: &mut VecDeque<PageRun>, page: u64, guess: usize) -> usize
    requires rise { ComeInOrder 0 runs.old.items }
    requires there { IsSome (find_in runs.old.items page) }
    requires room { total runs.old.items ≤ deque_capacity runs.old }
    ensures begun { HasBegun runs.old.items page result runs.new.items }
    ensures room { deque_capacity runs.old ≤ deque_capacity runs.new }
{
    let at = place_of(runs, page, guess);
    let first = runs[at].page;
    if first == page {
        return at;
    }
    cut(runs, at, (page - first) as u32);
    at + 1
}

/// Makes a page that is there a run of its own. Answers the place of the run.
fn isolate(runs: &mut VecDeque<PageRun>, page: u64, guess: usize) -> usize
    requires rise { ComeInOrder 0 runs.old.items }
    requires there { IsSome (find_in runs.old.items page) }
    requires room { total runs.old.items ≤ deque_capacity runs.old }
    ensures begun { HasBegun runs.old.items page result runs.new.items }
    ensures one { (run_at runs.new.items result).n ≡ 1 }
    ensures room { deque_capacity runs.old ≤ deque_capacity runs.new }
{
    let at = begin(runs, page, guess);
    if runs[at].n > 1 {
        cut(runs, at, 1);
    }
    at
}

/// Makes one run of that at a place and the next one, where they are one.
fn join(runs: &mut VecDeque<PageRun>, at: usize)
    requires rise { ComeInOrder 0 runs.old.items }
    requires there { at < length runs.old.items }
    requires few { total runs.old.items < 2 ^ 32 }
    ensures same { HaveSamePages runs.old.items runs.new.items }
    ensures there { at < length runs.new.items }
    ensures room { deque_capacity runs.new ≡ deque_capacity runs.old }
{
    if runs.len() - at < 2 {
        return;
    }
    match runs[at].joined(&runs[at + 1]) {
        Some(run) => {
            runs[at] = run;
            runs.remove(at + 1);
        }
        None => {}
    }
}

/// Makes one run of that at a place and those round it, where they are one.
fn join_round(runs: &mut VecDeque<PageRun>, at: usize)
    requires rise { ComeInOrder 0 runs.old.items }
    requires there { at < length runs.old.items }
    requires few { total runs.old.items < 2 ^ 32 }
    ensures same { HaveSamePages runs.old.items runs.new.items }
    ensures room { deque_capacity runs.new ≡ deque_capacity runs.old }
{
    join(runs, at);
    if at > 0 {
        join(runs, at - 1);
    }
}

/// Gives a page that is there another entry.
pub(crate) fn set_page(runs: &mut VecDeque<PageRun>, page: u64, guess: usize, entry: PageEntry)
    requires rise { ComeInOrder 0 runs.old.items }
    requires there { IsSome (find_in runs.old.items page) }
    requires few { total runs.old.items < 2 ^ 32 }
    requires room { total runs.old.items ≤ deque_capacity runs.old }
    ensures set { HasSet runs.old.items page entry runs.new.items }
    ensures room { deque_capacity runs.old ≤ deque_capacity runs.new }
{
    let at = isolate(runs, page, guess);
    runs[at] = run_of(page, 1, entry);
    join_round(runs, at);
}

/// Gives n pages that aren't there an entry. There is room for them.
pub(crate) fn fill_pages(
    runs: &mut VecDeque<PageRun>,
    from: u64,
    n: u32,
    guess: usize,
    entry: PageEntry,
)
    requires rise { ComeInOrder 0 runs.old.items }
    requires free { IsFree (run_pages runs.old.items) from n }
    requires low { from + n ≤ 2 ^ 41 }
    requires few { total runs.old.items + n < 2 ^ 32 }
    requires room { total runs.old.items + n ≤ deque_capacity runs.old }
    ensures filled { HasFilled runs.old.items from n entry runs.new.items }
    ensures room { deque_capacity runs.old ≤ deque_capacity runs.new }
{
    if n == 0 {
        return;
    }
    let at = place_of(runs, from, guess);
    match runs.insert(at, run_of(from, n, entry)) {
        Ok(()) => join_round(runs, at),
        Err(_) => unreachable!(),
    }
}

/// Takes away a page that is there, and as many of those behind it in its run as are asked for. Answers how many went.
fn clear_run(runs: &mut VecDeque<PageRun>, page: u64, most: u32, guess: usize) -> u32
    requires rise { ComeInOrder 0 runs.old.items }
    requires there { IsSome (find_in runs.old.items page) }
    requires some { 0 < most }
    requires room { total runs.old.items ≤ deque_capacity runs.old }
    ensures lost { HaveLost runs.old.items page result runs.new.items }
    ensures some { 0 < result }
    ensures most { result ≤ most }
    ensures room { deque_capacity runs.old ≤ deque_capacity runs.new }
{
    let at = begin(runs, page, guess);
    let run = runs[at];
    if most < run.n {
        runs[at] = run.tail(most);
        most
    } else {
        runs.remove(at);
        run.n
    }
}

/// Takes away the n pages from `from` on, which are there, run by run.
pub(crate) fn clear_pages(runs: &mut VecDeque<PageRun>, from: u64, n: u32, guess: usize)
    requires rise { ComeInOrder 0 runs.old.items }
    requires there { AreThere (run_pages runs.old.items) from n }
    requires room { total runs.old.items ≤ deque_capacity runs.old }
    requires low { from + n < 2 ^ 64 }
    ensures lost { HaveLost runs.old.items from n runs.new.items }
    ensures room { deque_capacity runs.old ≤ deque_capacity runs.new }
{
    let mut at = from;
    let mut left = n;
    'clearing: while left > 0 {
        let gone = clear_run(runs, at, left, guess);
        at += u64::from(gone);
        left -= gone;
    }
}
