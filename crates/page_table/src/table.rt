ghost use Rattle.std.specs.Prelude.{◌≡◌, ◌+◌, ◌^◌, ◌<◌, ◌≤◌, ◌⊎◌, IfOk, IfSome, IsSome, OnOk, OnErr};
ghost use Rattle.std.specs.FinMap as map;
ghost use Rattle.sizes.specs.declared.TheConstants.{TABLE_SLOTS};
ghost use Rattle.page_set.specs.Sets.{AreTakenOut, IsNextMember, IsPut};
ghost use Rattle.page_table.specs.Nodes.{HasPaths, OverlaidAreThere, nodes_of, slot, with_overlaid};
ghost use Rattle.page_table.specs.Run.{IsNextRun};
ghost use Rattle.page_table.specs.Table.{IsFree, AreThere, IsMapped, IsUnmapped, IsNext};

use crate::entry::PageEntry;
use crate::links::LinkMap;
use crate::next::{later, least_in, next_in};
use crate::nodes::Nodes;
use crate::paths::{clear_paths, fill_paths};
use crate::run::PageRun;
use crate::runs::{entry_in, guess_of, set_page};
use crate::tree::{child_in, make_leaves, reserve_leaves, slot_in};
use ovl_io::Perms;
use page_set::PageSet;
use sizes::TABLE_SLOTS;
use std::alloc::{AllocError, Global};
use std::collections::VecDeque;
use std::marker::Model;

/// Entries by page number, below four levels of nodes. Pages are below 2^36, and fewer than 2^32.
#[derive(Debug, Drop)]
pub struct PageTable {
    // the children of slots: each node but the first has one link to it
    links: LinkMap,
    // the entries of slots, by rising slots, with room for as many as there are pages
    runs: VecDeque<PageRun>,
    // where the runs of each node may stand
    nodes: Nodes,
    count: u32,
    // no page is below this one
    front: u64,
    // of the pages those that are overlaid, with room for the chunks of all pages
    overlaid: PageSet,
}

// The sooner of two pages.
fn sooner(page: u64, other: u64) -> u64
    ensures page { result ≤ page }
    ensures other { result ≤ other }
{
    if other < page { other } else { page }
}

// A page below which there is none, after n pages from one on were taken away: there was none below another.
fn passed(least: u64, from: u64, n: u32) -> u64
    requires { from + n < 2 ^ 64 }
    ensures { (result ≡ least) ⊎ ((from ≡ least) × (result ≡ from + n)) }
{
    if from == least {
        from + u64::from(n)
    } else {
        least
    }
}

impl Model for PageTable {
    ghost use Rattle.page_table.specs.Nodes.{Table};
    ghost use Rattle.page_table.specs.Codes.{page_table_code};

    ghost Value = { Table };

    ghost coded = { page_table_code };

    ghost use Rattle.std.specs.VecDeque.{deque_capacity};
    ghost use Rattle.page_table.specs.Kept.{IsPageTable, seen_table};

    ghost view = { λ t. seen_table t.links.children t.runs.items t.overlaid.chunks };

    ghost invariant = { λ t. IsPageTable t.links.children t.runs.items t.count (deque_capacity t.runs) t.front t.overlaid };
}

impl PageTable {
    /// A table without a page. Takes no memory.
    pub fn new(alloc: Global) -> PageTable
        ensures pages { result.pages ≡ map.empty }
        ensures overlaid { result.overlaid ≡ map.empty }
    {
        PageTable {
            links: LinkMap::new(alloc),
            runs: VecDeque::new(alloc),
            nodes: Nodes::new(alloc),
            count: 0,
            front: 0,
            overlaid: PageSet::new(alloc),
        }
    }

    /// Gives each of the `n` pages from `from` on, which aren't there yet, an entry of these permissions
    /// and this frame. Pages end at 2^36, and afterwards there are fewer than 2^32. Makes the nodes of their paths first, where they
    /// aren't there yet. After want of memory the table is as before. Costs for each of their leaves a look-up, a step for each run
    /// that lies behind its pages, or before them where those are fewer, and for a new node some 32 steps and one for each link of
    /// those that came last.
    pub fn map_pages(
        &mut self,
        from: u64,
        n: u32,
        perms: Perms,
        frame: u32,
    ) -> Result<(), AllocError>
        requires free { IsFree self.old.pages from n }
        requires low { from + n ≤ 2 ^ 36 }
        requires few { map.len self.old.pages + n < 2 ^ 32 }
        ensures mapped { OnOk result (IsMapped self.old.pages from n
            (record { perms = perms; frame = frame }) self.new.pages) }
        ensures one { n ≡ 1 → OnOk result (self.new.pages
            ≡ map.insert self.old.pages from (record { perms = perms; frame = frame })) }
        ensures count { OnOk result (map.len self.new.pages ≡ map.len self.old.pages + n) }
        ensures kept { OnErr result (self.new ≡ self.old) }
        ensures overlaid { self.new.overlaid ≡ self.old.overlaid }
        ensures there { OverlaidAreThere self.old }
    {
        let count = self.count;
        if n == 0 {
            return Ok(());
        }
        let first = from / TABLE_SLOTS;
        let end = (from + u64::from(n) - 1) / TABLE_SLOTS + 1;
        reserve_leaves(&mut self.links, first, end)?;
        let spare = count as usize - self.runs.len();
        self.runs.reserve(spare + n as usize)?;
        self.overlaid.reserve(from, n, count + n)?;
        self.nodes.make_room(3 * (end - first) as usize)?;
        make_leaves(
            &mut self.links,
            &mut self.nodes,
            first,
            end,
            self.runs.len(),
        );
        fill_paths(
            &self.links,
            &mut self.nodes,
            &mut self.runs,
            from,
            n,
            PageEntry { perms, frame },
        );
        self.count += n;
        self.front = sooner(self.front, from);
        Ok(())
    }

    /// Gives a page that is there another entry. Takes no memory. Costs a look-up, and a step for each run of pages that lies behind
    /// it, or before it where those are fewer.
    pub fn set(&mut self, page: u64, e: PageEntry)
        requires { IsSome (map.get self.old.pages page) }
        ensures entry { self.new.pages ≡ map.insert self.old.pages page e }
        ensures overlaid { self.new.overlaid ≡ self.old.overlaid }
    {
        match slot_in(&self.links, page) {
            Some(slot) => {
                let before = self.runs.len();
                let guess = guess_of(&self.runs, &self.nodes, slot);
                set_page(&mut self.runs, slot, guess, e);
                self.nodes.move_runs(slot, before, self.runs.len());
            }
            None => unreachable!(),
        }
    }

    /// Takes away the `n` pages from `from` on, which are all there. Takes no memory, and may leave nodes without an entry. Costs for
    /// each of their runs and leaves a look-up, and a step for each run that lies behind it, or before it where those are fewer.
    pub fn unmap(&mut self, from: u64, n: u32)
        requires { AreThere self.old.pages from n }
        ensures unmapped { IsUnmapped self.old.pages from n self.new.pages }
        ensures one { n ≡ 1 → self.new.pages ≡ map.remove self.old.pages from }
        ensures count { map.len self.new.pages + n ≡ map.len self.old.pages }
        ensures overlaid { AreTakenOut self.old.overlaid from n self.new.overlaid }
    {
        let least = least_in(&self.links, &self.nodes, &self.runs, self.front);
        clear_paths(&self.links, &mut self.nodes, &mut self.runs, from, n);
        self.overlaid.remove_run(from, n);
        self.count -= n;
        self.front = passed(least, from, n);
    }

    /// The entry of a page, if it is there. Costs a look-up on each level: one look where the guess of its node is right, and else a
    /// search.
    #[inline]
    pub fn get(&self, page: u64) -> Option<PageEntry>
        ensures { result ≡ map.get self.now.pages page }
    {
        match slot_in(&self.links, page) {
            Some(slot) => entry_in(&self.runs, slot, guess_of(&self.runs, &self.nodes, slot)),
            None => None,
        }
    }

    /// The least page not below `page`, with its entry, if there is one: below 2^36. Costs as much as `next_run`.
    #[inline]
    pub fn next_from(&self, page: u64) -> Option<(u64, PageEntry)>
        ensures next { IsNext self.now.pages page result }
        ensures low { IfSome result (λ found. found.0 < 2 ^ 36) }
    {
        match self.next_run(page) {
            Some(run) => Some((run.page, run.entry)),
            None => None,
        }
    }

    /// The first pages not below `page`, if there are any: one or more that lie in one run. It may go on behind them, in the next
    /// leaf. Costs a look-up, and a step for each leaf without a page between `page` and them; those below the first page of the
    /// table are passed over at once.
    #[inline]
    pub fn next_run(&self, page: u64) -> Option<PageRun>
        ensures { IsNextRun self.now.pages page result }
    {
        let from = later(page, self.front);
        next_in(&self.links, &self.nodes, &self.runs, from)
    }

    /// How many pages there are.
    pub fn len(&self) -> u32
        ensures { result ≡ map.len self.now.pages }
    {
        self.count
    }

    /// A table with the same entries, nodes and overlaid pages, or want of memory. Costs a copy of 24 bytes for each run of pages, of 32
    /// for each node, and of 16 for each chunk of 64 pages with an overlaid one.
    pub fn copy(&self) -> Result<PageTable, AllocError>
        ensures { IfOk result (λ copy. copy ≡ self.now) }
    {
        let links = self.links.copy()?;
        let mut runs = self.runs.clone()?;
        runs.reserve(self.count as usize - runs.len())?;
        let overlaid = self.overlaid.copy(self.count)?;
        let nodes = self.nodes.copy()?;
        Ok(PageTable {
            links,
            runs,
            nodes,
            count: self.count,
            front: self.front,
            overlaid,
        })
    }

    /// Says of a page that is there whether it is overlaid. Takes no memory. Costs a look-up among the chunks of 64 pages that have an
    /// overlaid one, and for the first or the last of a chunk a step for each chunk behind it.
    pub fn set_overlaid(&mut self, page: u64, on: bool)
        requires { IsSome (map.get self.old.pages page) }
        ensures put { IsPut self.old.overlaid page on self.new.overlaid }
        ensures rest { self.new ≡ with_overlaid self.old self.new.overlaid }
    {
        if on {
            self.overlaid.insert(page);
        } else {
            self.overlaid.remove(page);
        }
    }

    /// Says of the `n` pages from `from` on that they aren't overlaid. Takes no memory. Costs at most two look-ups where none of them
    /// is, and else as many again for each that is.
    pub fn clear_overlaid(&mut self, from: u64, n: u32)
        requires { from + n < 2 ^ 64 }
        ensures cut { AreTakenOut self.old.overlaid from n self.new.overlaid }
        ensures rest { self.new ≡ with_overlaid self.old self.new.overlaid }
    {
        self.overlaid.remove_run(from, n)
    }

    /// The least page not below `page` that is overlaid, if there is one. Costs at most two look-ups.
    pub fn next_overlaid(&self, page: u64) -> Option<u64>
        ensures next { IsNextMember self.now.overlaid page result }
        ensures there { IfSome result (λ found. IsSome (map.get self.now.pages found)) }
    {
        self.overlaid.next_from(page)
    }

    /// How many nodes there are: none before a page was mapped, and else the root with the number 0 and those below it.
    pub fn nodes(&self) -> u32
        ensures count { result ≡ nodes_of self.now }
        ensures paths { HasPaths self.now }
    {
        let made = self.links.len() as u32;
        if made == 0 { 0 } else { made + 1 }
    }

    /// The child of a node at a digit: a node of the next level. None exactly where it has none there.
    pub fn child(&self, node: u32, digit: u16) -> Option<u32>
        requires node { node < nodes_of self.now }
        requires digit { digit < TABLE_SLOTS }
        ensures child { result ≡ map.get self.now.links (slot node digit) }
        ensures low { IfSome result (λ child. child < nodes_of self.now) }
    {
        child_in(&self.links, node, u64::from(digit))
    }

    /// The entry of a node at a digit. None exactly where it has none there.
    pub fn leaf(&self, node: u32, digit: u16) -> Option<PageEntry>
        requires node { node < nodes_of self.now }
        requires digit { digit < TABLE_SLOTS }
        ensures { result ≡ map.get self.now.leaves (slot node digit) }
    {
        let slot = TABLE_SLOTS * u64::from(node) + u64::from(digit);
        entry_in(&self.runs, slot, guess_of(&self.runs, &self.nodes, slot))
    }
}
