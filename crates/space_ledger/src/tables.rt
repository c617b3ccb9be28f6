//! The tables and overlays of all spaces.

ghost use Rattle.std.specs.Prelude.{◌≡◌, ℕ, ◌+◌, ◌*◌, ◌<◌, ◌≤◌, ◌⊎◌, ◌==◌, ◌&&◌, cond, nat_lt, length, true, false, None, Some, ◌^◌, IfOk, IfSome, IsSome, OnOk, OnErr};
ghost use Rattle.std.specs.FinMap as map;
ghost use Rattle.std.specs.Option.{is_some, option_and_then, option_map};
ghost use Rattle.sizes.specs.declared.TheConstants.{FRAME_UNITS, LAST_SPACE, MOST_FRAMES, PAGE_END, PAGE_LINES};
ghost use Rattle.ledger.specs.Units.{overlaid_pages};
ghost use Rattle.overlay_bits.specs.Lines.{AreLines};
ghost use Rattle.overlay_mapping_table.specs.Table.{HasRoomFor};
ghost use Rattle.page_table.specs.Run.{IsNextRun, IsRunFrom};
ghost use Rattle.space_maps.specs.Spaces.{bare_space, cut_page, cut_pages, cut_space, holds_space, page_in, put_awaiting, put_mark, put_shared, put_space, space_in, altered_page};
ghost use Rattle.space_ledger.specs.Kept.{put_over};
ghost use Rattle.space_ledger.specs.Space.{AwaitsRun, IsLeast};
ghost use Rattle.space_ledger.specs.View.{ledger_of, with_entry_at, with_overlay, with_run_shared, with_zero_pages};
ghost use Rattle.space_ledger.specs.Calls.{AreBare, ArePagesFree, HasOverlayRoom, HasSpare, IsLined, IsNextOf, IsNextOverlaid, IsSound, entries_of};

use crate::space::Space;
use by_number::ByNumber;
use overlay_address::OverlayPage;
use overlay_mapping_table::{Entry, MappingTable};
use ovl_io::Perms;
use page_table::{PageEntry, PageRun, PageTable};
use std::alloc::{AllocError, Global};
use std::marker::Model;

/// Spaces by number with their tables, and the overlays of their pages by name.
#[derive(Drop)]
pub(crate) struct Tables {
    alloc: Global,
    spaces: ByNumber<Space>,
    overlays: MappingTable,
    frames: u32,
    zero: u32,
}

impl Model for Tables {
    ghost use Rattle.space_ledger.specs.View.{LedgerView};
    ghost use Rattle.space_ledger.specs.Codes.{view_code};

    ghost Value = { LedgerView };

    ghost coded = { view_code };

    ghost use Rattle.space_ledger.specs.Kept.{AreTables, seen};

    ghost view = { seen };

    ghost invariant = { AreTables };
}

#[tactic(auto, using(crate::proofs::Answered::reads))]
impl Tables {
    /// No space, and room for 16 overlays a frame.
    pub(crate) fn new(alloc: Global, frames: u32, zero: u32) -> Result<Tables, AllocError>
        requires some { 0 < frames }
        requires few { frames ≤ MOST_FRAMES }
        ensures spaces { IfOk result (λ tables. tables.spaces ≡ map.empty) }
        ensures frames { IfOk result (λ tables. tables.frames ≡ frames) }
        ensures zero { IfOk result (λ tables. tables.zero_frame ≡ zero) }
    {
        match MappingTable::new(alloc, frames) {
            Ok(overlays) => Ok(Tables {
                alloc,
                spaces: ByNumber::new(alloc),
                overlays,
                frames,
                zero,
            }),
            Err(_) => Err(AllocError),
        }
    }

    /// The zero frame. What is true of every table stands here.
    #[inline(always)]
    pub(crate) fn zero(&self) -> u32
        ensures zero { result ≡ self.now.zero_frame }
        ensures sound { IsSound self.now }
    {
        self.zero
    }

    #[inline]
    pub(crate) fn has(&self, space: u16) -> bool
        ensures { result ≡ holds_space self.now space }
    {
        self.spaces.has(space)
    }

    /// The entry of a page. None exactly where it isn't there.
    #[inline]
    pub(crate) fn entry(&self, space: u16, page: u64) -> Option<PageEntry>
        ensures { result ≡ option_map (λ x. x.entry) (page_in self.now space page) }
    {
        match self.spaces.get(space) {
            Some(space) => space.get(page),
            None => None,
        }
    }

    /// The overlay of a page that is there. None exactly where it has none.
    #[inline]
    pub(crate) fn overlay(&self, space: u16, page: u64) -> Option<Entry>
        requires { IsSome (page_in self.now space page) }
        ensures overlay { result ≡ option_and_then (λ x. x.overlay) (page_in self.now space page) }
        ensures sound { IsSound self.now }
    {
        self.overlays.get(OverlayPage::of(space, page))
    }

    #[inline]
    pub(crate) fn is_speculating(&self, space: u16) -> bool
        ensures { result ≡ (space_in self.now space).speculating }
    {
        match self.spaces.get(space) {
            Some(space) => space.is_speculating(),
            None => false,
        }
    }

    /// Gives a page that is there another entry.
    pub(crate) fn set_entry(&mut self, space: u16, page: u64, entry: PageEntry)
        requires { IsSome (page_in self.old space page) }
        ensures { self.new ≡ with_entry_at self.old space page entry }
    {
        match self.spaces.get_mut(space) {
            Some(space) => space.set(page, entry),
            None => unreachable!(),
        }
    }

    /// The least page of a space not below one. None exactly where none is.
    pub(crate) fn next(&self, space: u16, page: u64) -> Option<u64>
        ensures { IsNextOf self.now space page result }
    {
        match self.spaces.get(space) {
            Some(space) => space.next(page),
            None => None,
        }
    }

    /// The first pages of a space not below one, where none awaits: one or more that lie in one run, which may go on behind them. None
    /// exactly where none is.
    pub(crate) fn next_run(&self, space: u16, page: u64) -> Option<PageRun>
        requires { (space_in self.now space).awaiting ≡ map.empty }
        ensures { IsNextRun (entries_of self.now space) page result }
    {
        match self.spaces.get(space) {
            Some(space) => space.next_run(page),
            None => None,
        }
    }

    /// The least page of a space not below one that has an overlay. None exactly where none has.
    pub(crate) fn next_overlaid(&self, space: u16, page: u64) -> Option<u64>
        requires { holds_space self.now space ≡ true }
        ensures next { IsNextOverlaid self.now space page result }
        ensures sound { IsSound self.now }
    {
        match self.spaces.get(space) {
            Some(space) => space.next_overlaid(page),
            None => None,
        }
    }

    /// The first pages of a space that await: as many as lie in one run and below `until`. None exactly where none below it awaits.
    pub(crate) fn next_run_awaiting(&self, space: u16, until: u64) -> Option<PageRun>
        ensures { AwaitsRun (space_in self.now space).awaiting until result }
    {
        match self.spaces.get(space) {
            Some(space) => space.next_run_awaiting(until),
            None => None,
        }
    }

    /// How many frames there are.
    pub(crate) fn frames(&self) -> u32
        ensures { result ≡ self.now.frames }
    {
        self.frames
    }

    /// How many pages a space has.
    pub(crate) fn len(&self, space: u16) -> u32
        ensures { result ≡ map.len (space_in self.now space).pages }
    {
        match self.spaces.get(space) {
            Some(space) => space.len(),
            None => 0,
        }
    }

    /// Makes a space without a page. After want of memory there is none.
    pub(crate) fn add(&mut self, space: u16) -> Result<(), AllocError>
        requires low { space ≤ LAST_SPACE }
        requires absent { holds_space self.old space ≡ false }
        ensures added { OnOk result (self.new ≡ put_space self.old space bare_space) }
        ensures kept { OnErr result (self.new ≡ self.old) }
    {
        self.spaces.insert(space, Space::new(self.alloc))
    }

    /// Takes away a space that has no page.
    pub(crate) fn end(&mut self, space: u16)
        requires there { holds_space self.old space ≡ true }
        requires empty { (space_in self.old space).pages ≡ map.empty }
        ensures { self.new ≡ cut_space self.old space }
    {
        self.spaces.remove(space);
    }

    /// Sets or takes away the mark of a space.
    pub(crate) fn set_speculating(&mut self, space: u16, on: bool)
        requires { holds_space self.old space ≡ true }
        ensures { self.new ≡ put_mark self.old space on }
    {
        match self.spaces.get_mut(space) {
            Some(space) => space.set_speculating(on),
            None => unreachable!(),
        }
    }

    /// Gives a page that is there another overlay, or none, where it had one or none.
    #[inline(always)]
    pub(crate) fn set_overlay(&mut self, space: u16, page: u64, had: bool, overlay: Option<Entry>)
        requires there { IsSome (page_in self.old space page) }
        requires had { had ≡ is_some (option_and_then (λ x. x.overlay) (page_in self.old space page)) }
        requires lined { IfSome overlay IsLined }
        requires room { HasOverlayRoom self.old space page overlay }
        ensures overlay { self.new ≡ with_overlay self.old space page overlay }
        ensures sound { IsSound self.old }
    {
        match self.spaces.get_mut(space) {
            Some(space) => space.set_overlaid(page, had, overlay.is_some()),
            None => unreachable!(),
        }
        put(
            &mut self.overlays,
            OverlayPage::of(space, page),
            had,
            overlay,
        );
    }

    /// Gives pages that aren't there an entry, in a space of which no page awaits. After want of memory nothing changed.
    pub(crate) fn map(
        &mut self,
        space: u16,
        from: u64,
        n: u32,
        perms: Perms,
        frame: u32,
    ) -> Result<(), AllocError>
        requires there { holds_space self.old space ≡ true }
        requires none_awaits { (space_in self.old space).awaiting ≡ map.empty }
        requires free { ArePagesFree self.old space from n }
        requires low { from + n ≤ PAGE_END }
        requires few { map.len (space_in self.old space).pages + n < 2 ^ 32 }
        ensures mapped { OnOk result (self.new ≡ with_zero_pages self.old space from n
            (record { perms = perms; frame = frame })) }
        ensures kept { OnErr result (self.new ≡ self.old) }
    {
        match self.spaces.get_mut(space) {
            Some(space) => space.map(from, n, perms, frame),
            None => unreachable!(),
        }
    }

    /// Takes away pages that lie one after the other and have no overlays.
    pub(crate) fn remove_pages(&mut self, space: u16, from: u64, n: u32)
        requires there { holds_space self.old space ≡ true }
        requires bare { AreBare self.old space from n }
        ensures { self.new ≡ cut_pages self.old space from n }
    {
        match self.spaces.get_mut(space) {
            Some(space) => space.remove_pages(from, n),
            None => unreachable!(),
        }
    }

    /// The table of a space of which no page awaits, or want of memory.
    pub(crate) fn copy(&self, space: u16) -> Result<PageTable, AllocError>
        requires there { holds_space self.now space ≡ true }
        requires none_awaits { (space_in self.now space).awaiting ≡ map.empty }
        ensures { IfOk result (λ table. table.pages ≡ entries_of self.now space) }
    {
        match self.spaces.get(space) {
            Some(space) => space.copy(),
            None => unreachable!(),
        }
    }

    /// Gives a space that has no page a table: its pages await.
    pub(crate) fn adopt(&mut self, space: u16, table: PageTable)
        requires there { holds_space self.old space ≡ true }
        requires empty { (space_in self.old space).pages ≡ map.empty }
        requires none_awaits { (space_in self.old space).awaiting ≡ map.empty }
        ensures { self.new ≡ put_awaiting self.old space table.pages }
    {
        match self.spaces.get_mut(space) {
            Some(space) => space.adopt(table),
            None => unreachable!(),
        }
    }

    /// The least page that awaits becomes one of the space's, with an overlay or none. Answers its entry.
    pub(crate) fn share(&mut self, space: u16, page: u64, overlay: Option<Entry>) -> PageEntry
        requires there { holds_space self.old space ≡ true }
        requires least { IsLeast (space_in self.old space).awaiting page }
        requires low { page < PAGE_END }
        requires lined { IfSome overlay IsLined }
        requires room { IfSome overlay (λ e. HasSpare self.old) }
        ensures entry { map.get (space_in self.old space).awaiting page ≡ Some result }
        ensures apart { page_in self.old space page ≡ None }
        ensures shared { self.new ≡ put_shared self.old space page
            (record { entry = result; overlay = overlay }) }
    {
        let entry = match self.spaces.get_mut(space) {
            Some(space) => space.share(page, overlay.is_some()),
            None => unreachable!(),
        };
        put(
            &mut self.overlays,
            OverlayPage::of(space, page),
            false,
            overlay,
        );
        entry
    }

    /// The pages of a run, the first that await, become the space's, without overlays.
    pub(crate) fn share_run(&mut self, space: u16, run: &PageRun)
        requires there { holds_space self.old space ≡ true }
        requires first { IsRunFrom (space_in self.old space).awaiting 0 run.now }
        requires low { run.now.page + run.now.n ≤ PAGE_END }
        ensures apart { (i : ℕ) → i < run.now.n → page_in self.old space (run.now.page + i) ≡ None }
        ensures shared { self.new ≡ with_run_shared self.old space run.now run.now.n }
    {
        match self.spaces.get_mut(space) {
            Some(space) => space.share_run(run),
            None => unreachable!(),
        }
    }
}

/// Gives a name another overlay, or none, where it had one or none.
#[inline(always)]
fn put(overlays: &mut MappingTable, name: OverlayPage, had: bool, overlay: Option<Entry>)
    requires had { had ≡ is_some (map.get overlays.old.entries name) }
    requires room { IfSome overlay (λ e. HasRoomFor overlays.old name) }
    ensures entries { overlays.new.entries ≡ put_over overlays.old.entries name overlay }
    ensures room { overlays.new.room ≡ overlays.old.room }
{
    match overlay {
        Some(entry) => overlays.insert(name, entry),
        None => {
            if had {
                overlays.remove(name);
            }
        }
    }
}
