//! Changes of pages that go by the leaves of their paths.

ghost use Rattle.std.specs.Prelude.{◌≡◌, ◌+◌, ◌*◌, ◌%◌, ◌^◌, ◌<◌, ◌≤◌, IsSome};
ghost use Rattle.std.specs.FinMap as map;
ghost use Rattle.std.specs.VecDeque.{deque_capacity};
ghost use Rattle.sizes.specs.declared.TheConstants.{TABLE_SLOTS};
ghost use Rattle.page_table.specs.Nodes.{pages_by, page_slot};
ghost use Rattle.page_table.specs.Kept.{ComeInOrder, EndBy, HaveCleared, HaveFilled, HavePaths, IsTree, run_pages, total};
ghost use Rattle.page_table.specs.Table.{AreThere, IsFree};

use crate::entry::PageEntry;
use crate::links::LinkMap;
use crate::nodes::Nodes;
use crate::run::PageRun;
use crate::runs::{clear_pages, fill_pages, guess_of};
use crate::tree::slot_in;
use sizes::TABLE_SLOTS;
use std::collections::VecDeque;

/// How many of the `n` pages from one on lie in its leaf.
pub(crate) fn in_leaf(page: u64, n: u32) -> u32
    requires { 0 < n }
    ensures some { 0 < result }
    ensures most { result ≤ n }
    ensures inside { page % TABLE_SLOTS + result ≤ TABLE_SLOTS }
{
    let left = (TABLE_SLOTS - page % TABLE_SLOTS) as u32;
    if left < n { left } else { n }
}

/// Gives n pages that aren't there, but have paths, an entry. There is room for them.
pub(crate) fn fill_paths(
    links: &LinkMap,
    nodes: &mut Nodes,
    runs: &mut VecDeque<PageRun>,
    from: u64,
    n: u32,
    entry: PageEntry,
)
    requires tree { IsTree links.now.children }
    requires rise { ComeInOrder 0 runs.old.items }
    requires ends { EndBy (map.get (run_pages runs.old.items)) (TABLE_SLOTS * (map.len links.now.children + 1)) }
    requires paths { HavePaths links.now.children from n }
    requires free { IsFree (pages_by links.now.children (run_pages runs.old.items)) from n }
    requires low { from + n ≤ 2 ^ 36 }
    requires few { total runs.old.items + n < 2 ^ 32 }
    requires room { total runs.old.items + n ≤ deque_capacity runs.old }
    ensures filled { HaveFilled links.now.children runs.old.items from n entry runs.new.items }
    ensures room { deque_capacity runs.old ≤ deque_capacity runs.new }
{
    let mut done = 0;
    'filling: while done < n {
        let page = from + u64::from(done);
        let some = in_leaf(page, n - done);
        match slot_in(links, page) {
            Some(slot) => {
                let before = runs.len();
                fill_pages(runs, slot, some, guess_of(runs, nodes, slot), entry);
                nodes.move_runs(slot, before, runs.len());
            }
            None => unreachable!(),
        }
        done += some;
    }
}

/// Takes away the n pages from one on, which are there.
pub(crate) fn clear_paths(
    links: &LinkMap,
    nodes: &mut Nodes,
    runs: &mut VecDeque<PageRun>,
    from: u64,
    n: u32,
)
    requires tree { IsTree links.now.children }
    requires rise { ComeInOrder 0 runs.old.items }
    requires ends { EndBy (map.get (run_pages runs.old.items)) (TABLE_SLOTS * (map.len links.now.children + 1)) }
    requires there { AreThere (pages_by links.now.children (run_pages runs.old.items)) from n }
    requires low { from + n < 2 ^ 64 }
    requires room { total runs.old.items ≤ deque_capacity runs.old }
    ensures cleared { HaveCleared links.now.children runs.old.items from n runs.new.items }
    ensures room { deque_capacity runs.old ≤ deque_capacity runs.new }
{
    let mut done = 0;
    'clearing: while done < n {
        let page = from + u64::from(done);
        let some = in_leaf(page, n - done);
        match slot_in(links, page) {
            Some(slot) => {
                let before = runs.len();
                clear_pages(runs, slot, some, guess_of(runs, nodes, slot));
                nodes.move_runs(slot, before, runs.len());
            }
            None => unreachable!(),
        }
        done += some;
    }
}
