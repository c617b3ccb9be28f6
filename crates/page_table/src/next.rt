//! The next pages, leaf by leaf.

ghost use Rattle.std.specs.Prelude.{◌≡◌, ◌+◌, ◌*◌, ◌%◌, ◌/◌, ◌^◌, ◌<◌, ◌≤◌, ◌⊎◌, Some};
ghost use Rattle.sizes.specs.declared.TheConstants.{TABLE_SLOTS};
ghost use Rattle.page_table.specs.Nodes.{Links, node_at, pages_by};
ghost use Rattle.page_table.specs.Kept.{ComeInOrder, IsTree, moved_run, run_pages};
ghost use Rattle.page_table.specs.Next.{IsUpTo, NoneFrom};
ghost use Rattle.page_table.specs.Run.{IsNextRun};

use crate::links::LinkMap;
use crate::nodes::Nodes;
use crate::run::PageRun;
use crate::runs::{guess_of, next_slots};
use crate::tree::{TABLE_END, child_from};
use sizes::TABLE_SLOTS;
use std::collections::VecDeque;

/// The pages of slots, as many as lie in the leaf of the first.
fn moved(run: &PageRun, base: u64, begin: u64) -> PageRun
    requires from { base ≤ run.now.page }
    requires to { run.now.page < base + TABLE_SLOTS }
    requires base { base < 2 ^ 41 }
    requires begin { begin < 2 ^ 36 }
    ensures { result ≡ moved_run run.now base begin }
{
    let left = (base + TABLE_SLOTS - run.page) as u32;
    let n = if run.n < left { run.n } else { left };
    PageRun {
        page: begin + (run.page - base),
        n,
        entry: run.entry,
        rising: run.rising,
    }
}

/// The first pages not below one that lie in its leaf and in one run.
fn look_in(runs: &VecDeque<PageRun>, nodes: &Nodes, leaf: u32, page: u64) -> Option<PageRun>
    requires rise { ComeInOrder 0 runs.now.items }
    requires low { page < 2 ^ 36 }
    ensures { (links : Links) → node_at links 3 (page / TABLE_SLOTS) ≡ Some leaf
        → IsUpTo (pages_by links (run_pages runs.now.items)) page
        ((page / TABLE_SLOTS + 1) * TABLE_SLOTS) result }
{
    let base = TABLE_SLOTS * u64::from(leaf);
    let begin = page / TABLE_SLOTS * TABLE_SLOTS;
    let slot = base + page % TABLE_SLOTS;
    match next_slots(runs, slot, guess_of(runs, nodes, slot)) {
        Some(run) => {
            if run.page < base + TABLE_SLOTS {
                Some(moved(&run, base, begin))
            } else {
                None
            }
        }
        None => None,
    }
}

// The later of two pages.
#[inline]
pub(crate) fn later(page: u64, other: u64) -> u64
    ensures from { (page ≤ result) × (other ≤ result) }
    ensures one { (result ≡ page) ⊎ (result ≡ other) }
{
    if page < other { other } else { page }
}

// The first pages not below one that lie in one run and in the leaves of its third node.
fn look_third(
    links: &LinkMap,
    nodes: &Nodes,
    runs: &VecDeque<PageRun>,
    node: u32,
    page: u64,
) -> Option<PageRun>
    requires order { ComeInOrder 0 runs.now.items }
    requires low { page < 2 ^ 36 }
    requires node { node_at links.now.children 2 (page / TABLE_SLOTS / TABLE_SLOTS) ≡ Some node }
    ensures { IsUpTo (pages_by links.now.children (run_pages runs.now.items)) page
        ((page / TABLE_SLOTS / TABLE_SLOTS + 1) * TABLE_SLOTS * TABLE_SLOTS) result }
{
    let front = page / TABLE_SLOTS / TABLE_SLOTS * TABLE_SLOTS;
    let mut digit = page / TABLE_SLOTS % TABLE_SLOTS;
    'looking: while let Some((next, leaf)) = child_from(links, node, digit) {
        let from = later(page, (front + next) * TABLE_SLOTS);
        match look_in(runs, nodes, leaf, from) {
            Some(run) => return Some(run),
            None => {}
        }
        digit = next + 1;
    }
    None
}

// The same in the leaves below its second node.
fn look_second(
    links: &LinkMap,
    nodes: &Nodes,
    runs: &VecDeque<PageRun>,
    node: u32,
    page: u64,
) -> Option<PageRun>
    requires order { ComeInOrder 0 runs.now.items }
    requires low { page < 2 ^ 36 }
    requires node { node_at links.now.children 1 (page / TABLE_SLOTS / TABLE_SLOTS / TABLE_SLOTS) ≡ Some node }
    ensures { IsUpTo (pages_by links.now.children (run_pages runs.now.items)) page
        ((page / TABLE_SLOTS / TABLE_SLOTS / TABLE_SLOTS + 1) * TABLE_SLOTS * TABLE_SLOTS * TABLE_SLOTS) result }
{
    let front = page / TABLE_SLOTS / TABLE_SLOTS / TABLE_SLOTS * TABLE_SLOTS;
    let mut digit = page / TABLE_SLOTS / TABLE_SLOTS % TABLE_SLOTS;
    'looking: while let Some((next, third)) = child_from(links, node, digit) {
        let from = later(page, (front + next) * TABLE_SLOTS * TABLE_SLOTS);
        match look_third(links, nodes, runs, third, from) {
            Some(run) => return Some(run),
            None => {}
        }
        digit = next + 1;
    }
    None
}

// The same in all leaves.
fn look_first(
    links: &LinkMap,
    nodes: &Nodes,
    runs: &VecDeque<PageRun>,
    page: u64,
) -> Option<PageRun>
    requires order { ComeInOrder 0 runs.now.items }
    requires low { page < 2 ^ 36 }
    ensures { IsUpTo (pages_by links.now.children (run_pages runs.now.items)) page (2 ^ 36) result }
{
    let mut digit = page / TABLE_SLOTS / TABLE_SLOTS / TABLE_SLOTS;
    'looking: while let Some((next, second)) = child_from(links, 0, digit) {
        let from = later(page, next * TABLE_SLOTS * TABLE_SLOTS * TABLE_SLOTS);
        match look_second(links, nodes, runs, second, from) {
            Some(run) => return Some(run),
            None => {}
        }
        digit = next + 1;
    }
    None
}

/// The first pages not below one: as many as lie in one leaf and one run.
pub(crate) fn next_in(
    links: &LinkMap,
    nodes: &Nodes,
    runs: &VecDeque<PageRun>,
    page: u64,
) -> Option<PageRun>
    requires tree { IsTree links.now.children }
    requires rise { ComeInOrder 0 runs.now.items }
    ensures { IsNextRun (pages_by links.now.children (run_pages runs.now.items)) page result }
{
    if page >= TABLE_END {
        return None;
    }
    look_first(links, nodes, runs, page)
}

/// The first page, or where there is none a page below which there is none, as there is none below another.
pub(crate) fn least_in(links: &LinkMap, nodes: &Nodes, runs: &VecDeque<PageRun>, front: u64) -> u64
    requires tree { IsTree links.now.children }
    requires rise { ComeInOrder 0 runs.now.items }
    requires none { NoneFrom (pages_by links.now.children (run_pages runs.now.items)) 0 front }
    ensures { NoneFrom (pages_by links.now.children (run_pages runs.now.items)) 0 result }
{
    match next_in(links, nodes, runs, front) {
        Some(run) => run.page,
        None => front,
    }
}
