//! The pages of one space.

ghost use Rattle.std.specs.Prelude.{◌≡◌, ℕ, ◌+◌, ◌^◌, ◌<◌, ◌≤◌, IfOk, IsSome, OnOk, OnErr, None, Some, false};
ghost use Rattle.std.specs.FinMap as map;
ghost use Rattle.page_set.specs.Sets.{AreTakenOut, IsPut, holds};
ghost use Rattle.page_table.specs.Run.{IsNextRun, IsRunFrom};
ghost use Rattle.page_table.specs.Table.{AreThere, IsFree};
ghost use Rattle.space_ledger.specs.Space.{AreNotOverlaid, HasMapped, IsLeast, IsFirstPageFrom, IsLeastOverlaid, AwaitsRun, adopted, awaited, marked, run_awaited, with_entry, without_pages};

use crate::runs::cut;
use ovl_io::Perms;
use page_table::{PageEntry, PageRun, PageTable};
use std::alloc::{AllocError, Global};
use std::marker::Model;

// Beyond every page.
const ALL: u64 = u64::MAX;

/// The pages of a space, and those that await being shared. Both stand in one table: the pages below `end` are the space's,
/// the others await.
#[derive(Drop)]
pub(crate) struct Space {
    table: PageTable,
    end: u64,
    count: u32,
    speculating: bool,
}

impl Model for Space {
    ghost use Rattle.space_ledger.specs.Space.{OverlaidSpace};
    ghost use Rattle.space_ledger.specs.Codes.{overlaid_code};

    ghost Value = { OverlaidSpace };

    ghost coded = { overlaid_code };

    ghost use Rattle.space_ledger.specs.Space.{IsCounted, pages_below, pages_from};

    ghost view = { λ s. record {
      table = record { pages = pages_below s.table.pages s.end; awaiting = pages_from s.table.pages s.end; speculating = s.speculating };
      overlaid = s.table.overlaid;
    } };

    ghost invariant = { λ s. IsCounted s.table.pages s.end s.count };
}

#[tactic(auto, using(crate::proofs::Parts::parts))]
impl Space {
    /// A space without a page.
    pub(crate) fn new(alloc: Global) -> Space
        ensures pages { result.table.pages ≡ map.empty }
        ensures awaiting { result.table.awaiting ≡ map.empty }
        ensures mark { result.table.speculating ≡ false }
    {
        Space {
            table: PageTable::new(alloc),
            end: ALL,
            count: 0,
            speculating: false,
        }
    }

    /// The entry of a page. None exactly where it isn't there.
    #[inline]
    pub(crate) fn get(&self, page: u64) -> Option<PageEntry>
        ensures { result ≡ map.get self.now.table.pages page }
    {
        if page < self.end {
            self.table.get(page)
        } else {
            None
        }
    }

    /// The least page not below one. None exactly where none is.
    pub(crate) fn next(&self, page: u64) -> Option<u64>
        ensures { IsFirstPageFrom self.now.table.pages page result }
    {
        match self.table.next_from(page) {
            Some((found, _)) => { if found < self.end { Some(found) } else { None } }
            None => None,
        }
    }

    /// The first pages not below one, where none awaits: one or more that lie in one run, which may go on behind them. None exactly
    /// where none is.
    pub(crate) fn next_run(&self, page: u64) -> Option<PageRun>
        requires { self.now.table.awaiting ≡ map.empty }
        ensures { IsNextRun self.now.table.pages page result }
    {
        self.table.next_run(page)
    }

    /// How many pages there are.
    pub(crate) fn len(&self) -> u32
        ensures { result ≡ map.len self.now.table.pages }
    {
        self.count
    }

    /// Gives a page that is there another entry.
    pub(crate) fn set(&mut self, page: u64, entry: PageEntry)
        requires { IsSome (map.get self.old.table.pages page) }
        ensures table { self.new.table ≡ with_entry self.old.table page entry }
        ensures overlaid { self.new.overlaid ≡ self.old.overlaid }
    {
        self.table.set(page, entry);
    }

    /// Gives pages that aren't there an entry, where none awaits. After want of memory the space is as before.
    pub(crate) fn map(
        &mut self,
        from: u64,
        n: u32,
        perms: Perms,
        frame: u32,
    ) -> Result<(), AllocError>
        requires none_awaits { self.old.table.awaiting ≡ map.empty }
        requires free { IsFree self.old.table.pages from n }
        requires low { from + n ≤ 2 ^ 36 }
        requires few { map.len self.old.table.pages + n < 2 ^ 32 }
        ensures mapped { OnOk result (HasMapped self.old.table from n
            (record { perms = perms; frame = frame }) self.new.table) }
        ensures kept { OnErr result (self.new ≡ self.old) }
        ensures overlaid { self.new.overlaid ≡ self.old.overlaid }
        ensures bare { AreNotOverlaid self.old.overlaid from n }
    {
        match self.table.map_pages(from, n, perms, frame) {
            Ok(()) => {
                self.end = ALL;
                self.count += n;
                Ok(())
            }
            Err(_) => Err(AllocError),
        }
    }

    /// Takes away the `n` pages from `from` on, which are there.
    pub(crate) fn remove_pages(&mut self, from: u64, n: u32)
        requires { AreThere self.old.table.pages from n }
        ensures table { self.new.table ≡ without_pages self.old.table from n }
        ensures overlaid { AreTakenOut self.old.overlaid from n self.new.overlaid }
    {
        self.table.unmap(from, n);
        self.count -= n;
    }

    /// The first pages that await: as many as lie in one run and below `until`. None exactly where none below it awaits.
    pub(crate) fn next_run_awaiting(&self, until: u64) -> Option<PageRun>
        ensures { AwaitsRun self.now.table.awaiting until result }
    {
        match self.table.next_run(self.end) {
            Some(found) => cut(found, until),
            None => None,
        }
    }

    /// An equal table, where no page awaits, or want of memory.
    pub(crate) fn copy(&self) -> Result<PageTable, AllocError>
        requires { self.now.table.awaiting ≡ map.empty }
        ensures { IfOk result (λ table. table.pages ≡ self.now.table.pages) }
    {
        self.table.copy()
    }

    /// Takes a table in the place of that of a space that has no page: its pages await.
    pub(crate) fn adopt(&mut self, table: PageTable)
        requires empty { self.old.table.pages ≡ map.empty }
        requires none_awaits { self.old.table.awaiting ≡ map.empty }
        ensures { self.new.table ≡ adopted self.old.table table.pages }
    {
        self.table = table;
        self.end = 0;
    }

    /// The least page that awaits becomes one of the space's, overlaid or not. Answers its entry.
    pub(crate) fn share(&mut self, page: u64, over: bool) -> PageEntry
        requires least { IsLeast self.old.table.awaiting page }
        requires low { page < 2 ^ 36 }
        requires few { map.len self.old.table.pages + 1 < 2 ^ 32 }
        ensures entry { map.get self.old.table.awaiting page ≡ Some result }
        ensures apart { map.get self.old.table.pages page ≡ None }
        ensures shared { self.new.table ≡ awaited self.old.table page result }
        ensures overlaid { IsPut self.old.overlaid page over self.new.overlaid }
    {
        match self.table.get(page) {
            Some(entry) => {
                self.table.set_overlaid(page, over);
                self.end = page + 1;
                self.count += 1;
                entry
            }
            None => unreachable!(),
        }
    }

    /// The pages of a run, the first that await, become the space's. None of them is overlaid then.
    pub(crate) fn share_run(&mut self, run: &PageRun)
        requires first { IsRunFrom self.old.table.awaiting 0 run.now }
        requires few { map.len self.old.table.pages + run.now.n < 2 ^ 32 }
        ensures apart { (i : ℕ) → i < run.now.n → map.get self.old.table.pages (run.now.page + i) ≡ None }
        ensures shared { self.new.table ≡ run_awaited self.old.table run.now run.now.n }
        ensures overlaid { AreTakenOut self.old.overlaid run.now.page run.now.n self.new.overlaid }
    {
        self.table.clear_overlaid(run.page, run.n);
        self.end = run.page + u64::from(run.n);
        self.count += run.n;
    }

    /// Says of a page that is there whether it is overlaid, where it was or wasn't. Costs a step where that stays.
    pub(crate) fn set_overlaid(&mut self, page: u64, was: bool, on: bool)
        requires there { IsSome (map.get self.old.table.pages page) }
        requires was { holds self.old.overlaid page ≡ was }
        ensures table { self.new.table ≡ self.old.table }
        ensures overlaid { IsPut self.old.overlaid page on self.new.overlaid }
    {
        if was != on {
            self.table.set_overlaid(page, on);
        }
    }

    /// The least overlaid page not below one. None exactly where none is.
    pub(crate) fn next_overlaid(&self, page: u64) -> Option<u64>
        ensures { IsLeastOverlaid self.now page result }
    {
        match self.table.next_overlaid(page) {
            Some(found) => { if found < self.end { Some(found) } else { None } }
            None => None,
        }
    }

    #[inline]
    pub(crate) fn is_speculating(&self) -> bool
        ensures { result ≡ self.now.table.speculating }
    {
        self.speculating
    }

    pub(crate) fn set_speculating(&mut self, on: bool)
        ensures table { self.new.table ≡ marked self.old.table on }
        ensures overlaid { self.new.overlaid ≡ self.old.overlaid }
    {
        self.speculating = on;
    }
}
