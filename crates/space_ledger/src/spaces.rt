//! The space ledger.

ghost use Rattle.std.specs.Prelude.{◌≡◌, ℕ, ◌+◌, ◌-◌, ◌*◌, ◌==◌, ◌≢◌, ◌<◌, ◌≤◌, ◌⊎◌, ◌&&◌, cond, not, nat_lt, length, true, false, Some, None, [], ◌∷◌, IfOk, IfSome, IsSome, OnOk, OnErr};
ghost use Rattle.std.specs.FinMap as map;
ghost use Rattle.std.specs.Option.{is_some, option_and_then, option_map};
ghost use Rattle.sizes.specs.declared.TheConstants.{FRAME_UNITS, LAST_SPACE, MOST_FRAMES, MOST_SPACE_PAGES, PAGE_END, PAGE_LINES};
ghost use Rattle.ledger.specs.Ledger as book;
ghost use Rattle.ledger.specs.Units as count;
ghost use Rattle.ledger.specs.Units.{class, overlaid_pages, units};
ghost use Rattle.overlay_bits.specs.Lines.{AreLines, with_lines};
ghost use Rattle.ledger.specs.Changes.{has_own};
ghost use Rattle.ledger.specs.Events.{Store, ledger_after};
ghost use Rattle.overlay_address.specs.Names.{page_of, space_of};
ghost use Rattle.page_table.specs.Run.{IsRunFrom};
ghost use Rattle.space_maps.specs.Spaces.{AreMapped, bare_space, cut_page, cut_pages, cut_space, holds_space, page_in, put_awaiting, put_mark, put_space, space_in};
ghost use Rattle.space_ledger.specs.Space.{IsLeast};
ghost use Rattle.space_ledger.specs.View.{frame_at, frame_awaiting, ledger_of, lines_of, origin_of, overlay_at, with_block, with_frame, with_overlay, with_page_shared, with_run_shared, with_zero_pages};
ghost use Rattle.space_ledger.specs.Calls.{AreBareBelow, AreBareOnZero, ArePagesFree, AreSharedBare, GivesNothingUp, GivesUpAtLast, HasOverlayRoom, HasSpare, IsBareFrom, IsBareRun, IsFreeFor, IsNextOf, IsNextOwn, NamesOnce, RisesBeside, StoreRisesBy, entries_of, given_up, held_at};

use crate::frames::{class_of, hold, hold_run, is_only, release, release_run};
use crate::runs::{start_of, zeros_in};
use crate::tables::Tables;
use frame_pool::FramePool;
use overlay_address::OverlayPage;
use overlay_bits::Bits;
use overlay_mapping_table::Entry;
use ovl_io::Perms;
use page_table::{PageEntry, PageRun, PageTable};
use sizes::FRAME_UNITS;
use std::alloc::{AllocError, Global};
use std::marker::Model;
use unit_map::Block;

/// The tables of all spaces, the sharers of each frame, the own lines of each page, and the units. Spaces are numbered from 1
/// to 32,767, pages are below 2^26.
#[derive(Drop)]
pub struct SpaceLedger {
    tables: Tables,
    pool: FramePool,
    units: u32,
    lines: u32,
}

impl Model for SpaceLedger {
    ghost use Rattle.space_ledger.specs.View.{LedgerView};
    ghost use Rattle.space_ledger.specs.Codes.{view_code};

    ghost Value = { LedgerView };

    ghost coded = { view_code };

    ghost use Rattle.space_ledger.specs.Calls.{IsBooked};

    ghost view = { λ l. l.tables };

    ghost invariant = { λ l. IsBooked l.tables l.pool l.units l.lines };
}

#[tactic(auto, using(crate::proofs::Laws::kept, crate::proofs::Laws::fits))]
impl SpaceLedger {
    /// A ledger without a space, over 1 to 65,536 frames, of which one is the zero frame. Takes all the memory that frames
    /// and overlays ever need, or answers the want of it.
    pub fn new(alloc: Global, frames: u32, zero: u32) -> Result<SpaceLedger, AllocError>
        requires some { 0 < frames }
        requires few { frames ≤ MOST_FRAMES }
        requires zero_frame { zero < frames }
        ensures spaces { IfOk result (λ ledger. ledger.spaces ≡ map.empty) }
        ensures frames { IfOk result (λ ledger. ledger.frames ≡ frames) }
        ensures zero { IfOk result (λ ledger. ledger.zero_frame ≡ zero) }
    {
        let tables = match Tables::new(alloc, frames, zero) {
            Ok(tables) => tables,
            Err(_) => return Err(AllocError),
        };
        match FramePool::new(alloc, frames) {
            Ok(pool) => Ok(SpaceLedger {
                tables,
                pool,
                units: FRAME_UNITS,
                lines: 0,
            }),
            Err(_) => Err(AllocError),
        }
    }

    /// Whether a space is there. Costs a step.
    pub fn has_space(&self, space: u16) -> bool
        ensures { result ≡ holds_space self.now space }
    {
        self.tables.has(space)
    }

    /// Makes a space of a number from 1 to 32,767 that isn't there: without a page and without a mark. After want of memory the
    /// ledger is as before.
    pub fn add_space(&mut self, space: u16) -> Result<(), AllocError>
        requires number { (0 < space) × (space ≤ LAST_SPACE) }
        requires absent { holds_space self.old space ≡ false }
        ensures added { OnOk result (self.new ≡ put_space self.old space bare_space) }
        ensures kept { OnErr result (self.new ≡ self.old) }
    {
        self.tables.add(space)
    }

    /// Takes away a space that is there, has no page, and of which no page awaits. Takes no memory.
    pub fn end_space(&mut self, space: u16)
        requires there { holds_space self.old space ≡ true }
        requires empty { (space_in self.old space).pages ≡ map.empty }
        requires none_awaits { (space_in self.old space).awaiting ≡ map.empty }
        ensures { self.new ≡ cut_space self.old space }
    {
        self.tables.end(space);
    }

    /// Maps `n` pages from `page` on, which aren't there, on the zero frame and without own lines. No page of the space awaits,
    /// pages end at 2^26, and a space has at most 131,072 then. After want of memory the ledger is as before. Costs a look-up for
    /// each of the pages.
    pub fn map_zero(
        &mut self,
        space: u16,
        page: u64,
        n: u32,
        perms: Perms,
    ) -> Result<(), AllocError>
        requires there { holds_space self.old space ≡ true }
        requires none_awaits { (space_in self.old space).awaiting ≡ map.empty }
        requires free { ArePagesFree self.old space page n }
        requires low { page + n ≤ PAGE_END }
        requires few { map.len (space_in self.old space).pages + n ≤ MOST_SPACE_PAGES }
        ensures mapped { OnOk result (self.new ≡ with_zero_pages self.old space page n
            (record { perms = perms; frame = self.old.zero_frame })) }
        ensures kept { OnErr result (self.new ≡ self.old) }
    {
        let zero = self.tables.zero();
        self.tables.map(space, page, n, perms, zero)
    }

    /// The permissions and the frame of a page. None exactly where the page isn't there. Costs a look-up.
    #[inline]
    pub fn entry(&self, space: u16, page: u64) -> Option<PageEntry>
        ensures { result ≡ option_map (λ x. x.entry) (page_in self.now space page) }
    {
        self.tables.entry(space, page)
    }

    /// The lines and the block of the overlay of a page that is there. None exactly where it has no own lines. Costs a look-up.
    #[inline]
    pub fn overlay(&self, space: u16, page: u64) -> Option<Entry>
        requires { IsSome (page_in self.now space page) }
        ensures overlay { result ≡ overlay_at self.now space page }
        ensures own { is_some result ≡ has_own (ledger_of self.now) space page }
    {
        self.tables.overlay(space, page)
    }

    /// The least page of a space not below one. None exactly where none is. Costs a look-up.
    pub fn next_page(&self, space: u16, page: u64) -> Option<u64>
        ensures next { IsNextOf self.now space page result }
    {
        self.tables.next(space, page)
    }

    /// The least page of a space not below one that has own lines. None exactly where none has. Costs a look-up.
    pub fn next_overlaid(&self, space: u16, page: u64) -> Option<u64>
        requires { holds_space self.now space ≡ true }
        ensures { IsNextOwn (ledger_of self.now) space page result }
    {
        self.tables.next_overlaid(space, page)
    }

    /// How many pages a space has.
    pub fn pages(&self, space: u16) -> u32
        ensures count { result ≡ map.len (space_in self.now space).pages }
        ensures once { NamesOnce self.now.zero_frame (entries_of self.now space) }
    {
        self.tables.len(space)
    }

    /// Whether a page that is there is alone: its frame isn't the zero frame, and no other page of any space names it. Costs a
    /// look-up.
    #[inline]
    pub fn is_alone(&self, space: u16, page: u64) -> bool
        requires { IsSome (page_in self.now space page) }
        ensures { result ≡ book.is_alone (ledger_of self.now) space page }
    {
        match self.tables.entry(space, page) {
            Some(entry) => self.is_alone_frame(entry.frame),
            None => unreachable!(),
        }
    }

    /// Whether a page that names this frame is alone: the frame isn't the zero frame, and one page names it. Where none does, the
    /// answer tells nothing. Costs a step.
    #[inline]
    pub fn is_alone_frame(&self, frame: u32) -> bool
        requires { frame < self.now.frames }
        ensures { (space page : ℕ) → frame_at self.now space page ≡ Some frame
            → result ≡ book.is_alone (ledger_of self.now) space page }
    {
        is_only(&self.pool, self.tables.zero(), frame)
    }

    /// The zero frame.
    #[inline]
    pub fn zero_frame(&self) -> u32
        ensures { result ≡ self.now.zero_frame }
    {
        self.tables.zero()
    }

    /// How many frames there are.
    pub fn frames(&self) -> u32
        ensures { result ≡ self.now.frames }
    {
        self.tables.frames()
    }

    /// Sets or takes away the mark of a space. Takes no memory.
    pub fn set_speculating(&mut self, space: u16, on: bool)
        requires { holds_space self.old space ≡ true }
        ensures { self.new ≡ put_mark self.old space on }
    {
        self.tables.set_speculating(space, on);
    }

    /// Whether a space is marked as speculating.
    #[inline]
    pub fn is_speculating(&self, space: u16) -> bool
        ensures { result ≡ (space_in self.now space).speculating }
    {
        self.tables.is_speculating(space)
    }

    /// A table with the entries of a space's pages, of which none awaits, or want of memory. Costs a step for each page.
    pub fn copy_table(&self, space: u16) -> Result<PageTable, AllocError>
        requires there { holds_space self.now space ≡ true }
        requires none_awaits { (space_in self.now space).awaiting ≡ map.empty }
        ensures table { IfOk result (λ table. table.pages ≡ entries_of self.now space) }
        ensures once { IfOk result (λ table. NamesOnce self.now.zero_frame table.pages) }
    {
        self.tables.copy(space)
    }

    /// Gives a space that has no page, and of which none awaits, a table that names no frame but the zero frame twice. Its
    /// pages await `share_page`, and are in no ledger until then. Takes no memory.
    pub fn adopt_table(&mut self, to: u16, table: PageTable)
        requires there { holds_space self.old to ≡ true }
        requires empty { (space_in self.old to).pages ≡ map.empty }
        requires none_awaits { (space_in self.old to).awaiting ≡ map.empty }
        requires once { NamesOnce self.old.zero_frame table.pages }
        ensures { self.new ≡ put_awaiting self.old to table.pages }
    {
        self.tables.adopt(to, table);
    }

    /// The units: 16 for the zero frame, 16 for each other frame that some page names, and those of the segments of all
    /// overlays. Costs a step.
    #[inline]
    pub fn units(&self) -> u32
        ensures { result ≡ units (ledger_of self.now) }
    {
        self.units
    }

    /// How many own lines all pages have. Costs a step.
    #[inline]
    pub fn lines(&self) -> u32
        ensures { result ≡ count.own_lines (ledger_of self.now) }
    {
        self.lines
    }

    /// A page that is there names another frame: one in range that is the zero frame, or that no other page of the space names.
    /// No page of the space awaits. Answers the frame that the page named before, exactly where it isn't the zero frame and no
    /// page names it now. Takes no memory, and costs a look-up.
    pub fn set_frame(&mut self, space: u16, page: u64, frame: u32) -> Option<u32>
        requires there { IsSome (page_in self.old space page) }
        requires none_awaits { (space_in self.old space).awaiting ≡ map.empty }
        requires inside { frame < self.old.frames }
        requires free { IsFreeFor self.old space page frame }
        ensures framed { self.new ≡ with_frame self.old space page frame }
        ensures freed { result ≡ given_up self.new (page_in self.old space page) }
    {
        match self.tables.entry(space, page) {
            Some(old) => self.replace_frame(space, page, old, frame),
            None => unreachable!(),
        }
    }

    /// As `set_frame`, where the entry that the page has is known. Takes no memory, and costs no look-up but that of its place.
    pub fn replace_frame(
        &mut self,
        space: u16,
        page: u64,
        old: PageEntry,
        frame: u32,
    ) -> Option<u32>
        requires there { Some old ≡ option_map (λ x. x.entry) (page_in self.old space page) }
        requires none_awaits { (space_in self.old space).awaiting ≡ map.empty }
        requires inside { frame < self.old.frames }
        requires free { IsFreeFor self.old space page frame }
        ensures framed { self.new ≡ with_frame self.old space page frame }
        ensures freed { result ≡ given_up self.new (page_in self.old space page) }
    {
        let zero = self.tables.zero();
        let perms = old.perms;
        self.tables
            .set_entry(space, page, PageEntry { perms, frame });
        let freed = release(&mut self.pool, zero, old.frame);
        let added = hold(&mut self.pool, zero, frame);
        self.units = self.units - freed + added;
        other_frame(freed_frame(freed, old.frame), frame)
    }

    /// A page that is there has the lines and the block of an entry, which has a line, or no own lines any more. The overlay that it has, or
    /// that it has none, is known; where it has none, fewer than 16 pages for each frame are overlaid. Takes no memory, and costs a look-up
    /// where there is one.
    #[inline(always)]
    pub fn replace_overlay(
        &mut self,
        space: u16,
        page: u64,
        overlay: Option<Entry>,
        entry: Option<Entry>,
    )
        requires there { IsSome (page_in self.old space page) }
        requires overlay { overlay_at self.old space page ≡ overlay }
        requires lined { IfSome entry (λ e. 0 < length e.bits) }
        requires room { HasOverlayRoom self.old space page entry }
        ensures { self.new ≡ with_overlay self.old space page entry }
    {
        let before = lines_in(&overlay);
        let after = lines_in(&entry);
        self.tables
            .set_overlay(space, page, overlay.is_some(), entry);
        self.units = self.units - class_of(before) + class_of(after);
        self.lines = self.lines - before + after;
    }

    /// The block of an overlaid page is another one. Takes no memory, and costs a look-up.
    pub fn relocate(&mut self, owner: OverlayPage, to: Block)
        requires { IsSome (overlay_at self.old (space_of owner) (page_of owner)) }
        ensures { self.new ≡ with_block self.old (space_of owner) (page_of owner) to }
    {
        let space = owner.space();
        let page = owner.page();
        match self.tables.overlay(space, page) {
            Some(entry) => {
                let bits = entry.bits;
                self.tables
                    .set_overlay(space, page, true, Some(Entry { bits, block: to }));
            }
            None => unreachable!(),
        }
    }

    /// Takes away a page that is there and has no own lines. Answers its frame, exactly where it isn't the zero frame and no
    /// page names it now. Takes no memory, and costs a look-up.
    pub fn remove_page(&mut self, space: u16, page: u64) -> Option<u32>
        requires there { IsSome (page_in self.old space page) }
        requires bare { overlay_at self.old space page ≡ None }
        ensures gone { self.new ≡ cut_page self.old space page }
        ensures freed { result ≡ given_up self.new (page_in self.old space page) }
    {
        let zero = self.tables.zero();
        match self.tables.entry(space, page) {
            Some(old) => {
                self.tables.remove_pages(space, page, 1);
                let freed = release(&mut self.pool, zero, old.frame);
                self.units -= freed;
                freed_frame(freed, old.frame)
            }
            None => unreachable!(),
        }
    }

    /// How many pages from one on are there: none exactly where it isn't. It may tell fewer than there are. No page of the space
    /// awaits. Costs a look-up.
    pub fn pages_from(&self, space: u16, page: u64) -> u32
        requires { (space_in self.now space).awaiting ≡ map.empty }
        ensures there { AreMapped self.now space page result }
        ensures none { result ≡ 0 → page_in self.now space page ≡ None }
    {
        match self.tables.next_run(space, page) {
            Some(run) => { if run.page == page { run.n } else { 0 } }
            None => 0,
        }
    }

    /// How many pages from one on are there, on the zero frame and without own lines. It may tell fewer than there are. No page of the
    /// space awaits. Costs two look-ups.
    pub fn zeros_from(&self, space: u16, page: u64) -> u32
        requires there { holds_space self.now space ≡ true }
        requires none_awaits { (space_in self.now space).awaiting ≡ map.empty }
        ensures { AreBareOnZero self.now space page result }
    {
        match self.tables.next_run(space, page) {
            Some(run) => self.bare_from(space, page, zeros_in(&run, page, self.tables.zero())),
            None => 0,
        }
    }

    // How many of the `n` pages from one on come before one with own lines.
    fn bare_from(&self, space: u16, page: u64, n: u32) -> u32
        requires there { holds_space self.now space ≡ true }
        ensures few { result ≤ n }
        ensures bare { (i : ℕ) → i < result → overlay_at self.now space (page + i) ≡ None }
    {
        if n == 0 {
            return 0;
        }
        match self.tables.next_overlaid(space, page) {
            Some(overlaid) => {
                let left = overlaid - page;
                if left < u64::from(n) { left as u32 } else { n }
            }
            None => n,
        }
    }

    /// Some pages from one on that lie in one run and have no own lines, `most` at most. None where the page isn't there or has own
    /// lines. No page of the space awaits. Costs two look-ups.
    pub fn bare_run(&self, space: u16, page: u64, most: u32) -> Option<PageRun>
        requires there { holds_space self.now space ≡ true }
        requires none_awaits { (space_in self.now space).awaiting ≡ map.empty }
        ensures { IsBareFrom self.now space page most result }
    {
        match self.tables.next_run(space, page) {
            Some(run) => {
                let n = self.bare_from(space, page, run.n.min(most));
                start_of(&run, page, n)
            }
            None => None,
        }
    }

    /// Takes away the pages of a run, which are there and have no own lines. No page of the space awaits. Answers the units of the
    /// frames that no page names any more, as `is_unused` tells of each. Takes no memory. Costs a look-up for each of the space's runs
    /// that they lie in, and a step for each of them where they aren't on the zero frame.
    pub fn remove_run(&mut self, space: u16, run: &PageRun) -> u32
        requires there { holds_space self.old space ≡ true }
        requires none_awaits { (space_in self.old space).awaiting ≡ map.empty }
        requires bare { IsBareRun self.old space run.now }
        ensures gone { self.new ≡ cut_pages self.old space run.now.page run.now.n }
        ensures given { GivesUpAtLast self.old self.new space run.now }
        ensures freed { units (ledger_of self.old) ≡ units (ledger_of self.new) + result }
        ensures none { result ≡ 0 → GivesNothingUp self.old self.new space run.now }
    {
        let zero = self.tables.zero();
        self.tables.remove_pages(space, run.page, run.n);
        let freed = release_run(&mut self.pool, zero, run);
        self.units -= freed;
        freed
    }

    /// Whether a frame isn't the zero frame, and no page names it. Costs a step.
    #[inline]
    pub fn is_unused(&self, frame: u32) -> bool
        requires { frame < self.now.frames }
        ensures { result ≡ book.is_unused (ledger_of self.now) (origin_of self.now.zero_frame frame) }
    {
        frame != self.tables.zero() && self.pool.sharers(frame) == 0
    }

    /// Shares the page of a space with another one, where it awaits as the least and has the frame that it has in the first: it
    /// gets its origin and its own lines there, and keeps the permissions of the table that was adopted. A block is given exactly
    /// where it has own lines, and fewer than 16 pages for each frame are overlaid then. Takes no memory, and costs a look-up.
    pub fn share_page(&mut self, from: u16, to: u16, page: u64, block: Option<Block>)
        requires there { IsSome (page_in self.old from page) }
        requires space { holds_space self.old to ≡ true }
        requires least { IsLeast (space_in self.old to).awaiting page }
        requires frame { frame_awaiting self.old to page ≡ frame_at self.old from page }
        requires block { is_some block ≡ is_some (overlay_at self.old from page) }
        requires room { IfSome block (λ b. HasSpare self.old) }
        ensures shared { self.new ≡ with_page_shared self.old from to page block }
        ensures same { held_at self.new to page ≡ held_at self.old from page }
        ensures absent { page_in self.old to page ≡ None }
    {
        let overlay = self.tables.overlay(from, page);
        self.share_found(from, to, page, overlay, block);
    }

    /// As `share_page`, where the overlay that the page has, or that it has none, is known. Takes no memory, and costs a step, and an
    /// insertion where there is one.
    pub fn share_found(
        &mut self,
        from: u16,
        to: u16,
        page: u64,
        overlay: Option<Entry>,
        block: Option<Block>,
    )
        requires there { IsSome (page_in self.old from page) }
        requires space { holds_space self.old to ≡ true }
        requires least { IsLeast (space_in self.old to).awaiting page }
        requires frame { frame_awaiting self.old to page ≡ frame_at self.old from page }
        requires overlay { overlay_at self.old from page ≡ overlay }
        requires block { is_some block ≡ is_some overlay }
        requires room { IfSome block (λ b. HasSpare self.old) }
        ensures shared { self.new ≡ with_page_shared self.old from to page block }
        ensures same { held_at self.new to page ≡ held_at self.old from page }
        ensures absent { page_in self.old to page ≡ None }
    {
        let zero = self.tables.zero();
        let overlay = in_block(overlay, block);
        let lines = lines_in(&overlay);
        let entry = self.tables.share(to, page, overlay);
        let added = hold(&mut self.pool, zero, entry.frame);
        self.units = self.units + added + class_of(lines);
        self.lines += lines;
    }

    /// Shares each page below `until` that awaits in a space, with the frame that it has in another one and without own lines there:
    /// the least first, as by `share_page`. Takes no memory. Costs a look-up for each run of such pages, and a step for each page of
    /// a run that isn't on the zero frame.
    pub fn share_bare(&mut self, from: u16, to: u16, until: u64)
        requires differ { from ≢ to }
        requires space { holds_space self.old to ≡ true }
        requires bare { AreBareBelow self.old from to until }
        ensures shared { AreSharedBare from to until self.old self.new }
        ensures none { (page : ℕ) → page < until
            → map.get (space_in self.new to).awaiting page ≡ None }
    {
        'sharing: while let Some(found) = self.tables.next_run_awaiting(to, until) {
            self.share_run(from, to, &found);
        }
    }

    // The pages of a run, the first that await, become the space's.
    fn share_run(&mut self, from: u16, to: u16, run: &PageRun)
        requires differ { from ≢ to }
        requires space { holds_space self.old to ≡ true }
        requires first { IsRunFrom (space_in self.old to).awaiting 0 run.now }
        requires bare { AreBareBelow self.old from to (run.now.page + run.now.n) }
        ensures apart { (i : ℕ) → i < run.now.n → page_in self.old to (run.now.page + i) ≡ None }
        ensures shared { self.new ≡ with_run_shared self.old to run.now run.now.n }
    {
        let zero = self.tables.zero();
        self.tables.share_run(to, run);
        self.units += hold_run(&mut self.pool, zero, run);
    }

    /// By how many units a store rises that touches these lines of a page that is there. A store over two pages of a space
    /// rises by the sum of both answers. Costs a few look-ups.
    pub fn store_units(&self, space: u16, page: u64, lines: Bits) -> u32
        requires { IsSome (page_in self.now space page) }
        ensures rise { StoreRisesBy self.now space page lines result }
        ensures both { RisesBeside self.now space page lines result }
    {
        let is_alone = self.is_alone(space, page);
        let is_speculating = self.is_speculating(space);
        let own = bits_of(&self.tables.overlay(space, page));
        rise_of(is_speculating, is_alone, own, lines)
    }
}

/// The lines of an overlay with another block, where one is given.
#[inline(always)]
fn in_block(overlay: Option<Entry>, block: Option<Block>) -> Option<Entry>
    requires { is_some block ≡ is_some overlay }
    ensures { result ≡ option_map (λ b. record { bits = lines_of overlay; block = b }) block }
{
    match block {
        Some(block) => match overlay {
            Some(entry) => {
                let bits = entry.bits;
                Some(Entry { bits, block })
            }
            None => unreachable!(),
        },
        None => None,
    }
}

/// The lines of an overlay: none where there is none.
fn bits_of(overlay: &Option<Entry>) -> Bits
    ensures { result ≡ lines_of overlay.now }
{
    match overlay {
        Some(entry) => entry.bits,
        None => Bits::empty(),
    }
}

/// How many lines an overlay has: none where there is none.
#[inline(always)]
fn lines_in(overlay: &Option<Entry>) -> u32
    ensures count { result ≡ length (lines_of overlay.now) }
    ensures few { result ≤ PAGE_LINES }
{
    match overlay {
        Some(entry) => entry.bits.len(),
        None => 0,
    }
}

/// By how many units a page rises that has own lines, where further ones join them: not at all where its frame is written.
fn rise_of(is_speculating: bool, is_alone: bool, own: Bits, lines: Bits) -> u32
    ensures rise { result ≡ cond (not is_speculating && is_alone) 0
        (class (length (with_lines own lines)) - class (length own)) }
    ensures are { AreLines own × AreLines lines }
{
    let joined = own.union(lines);
    let before = class_of(own.len());
    let after = class_of(joined.len());
    if !is_speculating && is_alone {
        return 0;
    }
    after - before
}

/// The frame that was given up, where it freed units.
fn freed_frame(freed: u32, frame: u32) -> Option<u32>
    ensures { result ≡ cond (nat_lt 0 freed) (Some frame) None }
{
    if freed > 0 { Some(frame) } else { None }
}

/// The frame that was given up, where it isn't the one that is named now.
fn other_frame(freed: Option<u32>, now: u32) -> Option<u32>
    ensures { result ≡ option_and_then (λ frame. cond (now == frame) None (Some frame)) freed }
{
    match freed {
        Some(frame) => { if now == frame { None } else { Some(frame) } }
        None => None,
    }
}
