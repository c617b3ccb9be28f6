//! The pages of all spaces.

ghost use Rattle.std.specs.Prelude.{◌≡◌, ◌≢◌, ℕ, ◌+◌, ◌*◌, ◌<◌, ◌≤◌, ◌&&◌, not, List, [], ◌∷◌, IfOk, IfSome, IsSome, OnOk, OnErr, Some, None, true, false, length, slice_index_or, unwrap_or};
ghost use Rattle.std.specs.Borrow.{Lends, sem, Array, u8 as byte};
ghost use Rattle.std.specs.FinMap as map;
ghost use Rattle.std.specs.Option.{is_some, option_and_then, option_map, option_map_or};
ghost use Rattle.sizes.specs.declared.TheConstants.{FRAME_UNITS, LAST_SPACE, LINE_BYTES, MOST_FRAMES, MOST_SPACE_PAGES, MOST_UNITS, PAGE_BYTES, PAGE_END, PAGE_LINES};
ghost use Rattle.overlay_bits.specs.Lines.{has_line};
ghost use Rattle.page_table.specs.Table.{Pages};
ghost use Rattle.ledger.specs.Ledger.{is_alone};
ghost use Rattle.ledger.specs.Units.{own_lines, units};
ghost use Rattle.ledger.specs.Ledger as book;
ghost use Rattle.space_maps.specs.Spaces.{bare_space, cut_page, cut_pages, cut_space, holds_space, page_in, put_awaiting, put_mark, put_space, space_in, altered_page};
ghost use Rattle.space_ledger.specs.View.{frame_at, ledger_of};
ghost use Rattle.space_ledger.specs.Space.{IsLeast};
ghost use Rattle.space_ledger.specs.Calls.{IsNextOwn, NamesOnce};
ghost use Rattle.overlay_pages.specs.Lines.{line_in_page, lines_of_bytes};
ghost use Rattle.overlay_pages.specs.State.{PageState, base_of, books, memory_of};
ghost use Rattle.overlay_pages.specs.Changes.{AreAbsent, Fits, HasCopyRoom, HasShareRoom, IsAway, IsPlaced, IsRebased, SeesFrame, brought, committed, copied, discarded, frame_but_zero, is_writable, limit_of, units_of, whole_page, with_brought, with_shared, with_written, with_zeros};
ghost use Rattle.overlay_pages.specs.View.{HasOwnPlace, IsJoined, place_at, state_of};
ghost use Rattle.overlay_pages.specs.Spots.{FindsLine, FindsPage, IsBroughtTo, IsFound, IsFoundPage, IsFoundPageAt, IsPlace, IsPutPlace, KeepsPlaces, KeepsPlacesBut};
ghost use Rattle.overlay_pages.specs.Calls.{AreMapped, AreShared, AreZeros, AwaitBare, AwaitsLike, HasSettledBlocks, IsEmptyState, IsNextPage, KeepsWholeBlocks, MovesFewBeside, NoneAwaitsBelow, RisesBy, entries_in, with_line_at_place};
ghost use Rattle.overlay_pages.specs.declared.settling.TheConstants.{MOST_OWN};
ghost use Rattle.overlay_pages.specs.contracts.pages.OverlayPages.{the_row};

use crate::frames::frame_but;
use crate::overlays::{bring_found, bring_lines, drop_overlay};
use crate::placing::{place_bytes, take_out, take_run_out};
use crate::rebasing::{keep_lines, rebase};
use crate::settling::{MOST_OWN, commit, copy_commit};
use crate::sharing::{share, share_below};
use crate::spots::{FoundLine, FoundPage, Spot, parts_of};
use overlay_bits::Bits;
use ovl_io::Perms;
use page_table::{PageEntry, PageTable};
use segment_store::SegmentStore;
use sizes::PAGE_BYTES;
use space_ledger::SpaceLedger;
use std::alloc::{AllocError, Global};
use std::marker::Model;

/// The pages of all spaces, with their lines. Spaces are numbered from 1 to 32,767, pages are below 2^26, and a page has 64
/// lines of 64 bytes.
#[derive(Drop)]
pub struct OverlayPages {
    store: SegmentStore,
    ledger: SpaceLedger,
}

impl Model for OverlayPages {
    ghost use Rattle.overlay_pages.specs.View.{MemoryView, IsJoined};
    ghost use Rattle.overlay_pages.specs.Codes.{memory_code};

    ghost Value = { MemoryView };

    ghost coded = { memory_code };

    ghost view = { λ m. record { store = m.store; table = m.ledger } };

    ghost invariant = { λ m. IsJoined (record { store = m.store; table = m.ledger }) };
}

#[tactic(auto, using(crate::proofs::Laws::reads, crate::proofs::Laws::answers))]
impl OverlayPages {
    /// No space, and 1 to 65,536 frames, of which one is the zero frame. Takes all the memory that frames, segments and overlays
    /// ever need, or answers the want of it.
    pub fn new(alloc: Global, frames: u32) -> Result<OverlayPages, AllocError>
        requires some { 0 < frames }
        requires few { frames ≤ MOST_FRAMES }
        ensures state { IfOk result (λ made. IsEmptyState frames (state_of made)) }
    {
        let mut store = SegmentStore::new(alloc, frames)?;
        let zero = store.take_frame();
        let ledger = SpaceLedger::new(alloc, frames, zero)?;
        Ok(OverlayPages { store, ledger })
    }

    /// Whether a space is there. Costs a step.
    pub fn has_space(&self, space: u16) -> bool
        ensures here { result ≡ holds_space (state_of self.now) space }
        ensures joined { IsJoined self.now }
    {
        self.ledger.has_space(space)
    }

    /// Makes a space of a number from 1 to 32,767 that isn't there: without a page and without a mark. After want of memory
    /// everything is as before.
    pub fn add_space(&mut self, space: u16) -> Result<(), AllocError>
        requires some { 0 < space }
        requires last { space ≤ LAST_SPACE }
        requires absent { holds_space (state_of self.old) space ≡ false }
        ensures added { OnOk result (state_of self.new ≡ put_space (state_of self.old) space bare_space) }
        ensures kept { OnErr result (self.new ≡ self.old) }
    {
        self.ledger.add_space(space)
    }

    /// Takes away a space that is there, has no page, and of which no page awaits. Takes no memory.
    pub fn end_space(&mut self, space: u16)
        requires there { holds_space (state_of self.old) space ≡ true }
        requires empty { (space_in (state_of self.old) space).pages ≡ map.empty }
        requires none_awaits { (space_in (state_of self.old) space).awaiting ≡ map.empty }
        ensures { state_of self.new ≡ cut_space (state_of self.old) space }
    {
        self.ledger.end_space(space);
    }

    /// Maps `n` pages from `page` on, which aren't there, on the zero frame and without own lines. After want of memory
    /// everything is as before. Costs a look-up for each of the pages.
    pub fn map_zero(
        &mut self,
        space: u16,
        page: u64,
        n: u32,
        perms: Perms,
    ) -> Result<(), AllocError>
        requires there { holds_space (state_of self.old) space ≡ true }
        requires none_awaits { (space_in (state_of self.old) space).awaiting ≡ map.empty }
        requires absent { AreAbsent (state_of self.old) space page n }
        requires low { page + n ≤ PAGE_END }
        requires few { map.len (space_in (state_of self.old) space).pages + n ≤ MOST_SPACE_PAGES }
        ensures mapped { OnOk result (state_of self.new ≡ with_zeros (state_of self.old) space page n
            (record { perms = perms; frame = (state_of self.old).zero_frame })) }
        ensures kept { OnErr result (self.new ≡ self.old) }
    {
        self.ledger.map_zero(space, page, n, perms)
    }

    /// Places a page that isn't there in a new frame, with these bytes. The units that it needs are there. After want of memory
    /// everything is as before. Costs a copy of the page.
    pub fn add_page(
        &mut self,
        space: u16,
        page: u64,
        perms: Perms,
        bytes: &[u8; PAGE_BYTES],
    ) -> Result<(), AllocError>
        requires there { holds_space (state_of self.old) space ≡ true }
        requires none_awaits { (space_in (state_of self.old) space).awaiting ≡ map.empty }
        requires absent { page_in (state_of self.old) space page ≡ None }
        requires low { page < PAGE_END }
        requires few { map.len (space_in (state_of self.old) space).pages < MOST_SPACE_PAGES }
        requires fits { units_of (state_of self.old) + FRAME_UNITS ≤ limit_of (state_of self.old) }
        ensures placed { OnOk result (IsPlaced (state_of self.old) (state_of self.new) space page
            (λ frame. whole_page (record { perms = perms; frame = frame }) (lines_of_bytes bytes.now))) }
        ensures units { OnOk result
            (units_of (state_of self.new) ≡ units_of (state_of self.old) + FRAME_UNITS) }
        ensures kept { OnErr result (state_of self.new ≡ state_of self.old) }
    {
        match self.ledger.map_zero(space, page, 1, perms) {
            Ok(()) => {
                place_bytes(&mut self.store, &mut self.ledger, space, page, bytes);
                Ok(())
            }
            Err(AllocError) => Err(AllocError),
        }
    }

    // Takes away a page that is there, with its overlay.
    fn remove_page(&mut self, space: u16, page: u64)
        requires there { IsSome (page_in (state_of self.old) space page) }
        requires none_awaits { (space_in (state_of self.old) space).awaiting ≡ map.empty }
        ensures gone { state_of self.new ≡ cut_page (state_of self.old) space page }
        ensures low { page < PAGE_END }
    {
        let overlay = self.ledger.overlay(space, page);
        drop_overlay(&mut self.store, &mut self.ledger, space, page, overlay);
        take_out(&mut self.store, &mut self.ledger, space, page);
    }

    /// How many pages from one on are there: none exactly where it isn't. It may tell fewer than there are. No page of the space
    /// awaits. Costs a look-up.
    pub fn pages_from(&self, space: u16, page: u64) -> u32
        requires { (space_in (state_of self.now) space).awaiting ≡ map.empty }
        ensures there { AreMapped (state_of self.now) space page result }
        ensures none { result ≡ 0 → page_in (state_of self.now) space page ≡ None }
        ensures low { 0 < result → page + result ≤ PAGE_END }
    {
        self.ledger.pages_from(space, page)
    }

    /// How many pages from one on are there, on the zero frame and without own lines. It may tell fewer than there are. No page of the
    /// space awaits. Costs two look-ups.
    pub fn zeros_from(&self, space: u16, page: u64) -> u32
        requires there { holds_space (state_of self.now) space ≡ true }
        requires none_awaits { (space_in (state_of self.now) space).awaiting ≡ map.empty }
        ensures zeros { AreZeros (state_of self.now) space page result }
        ensures low { 0 < result → page + result ≤ PAGE_END }
    {
        self.ledger.zeros_from(space, page)
    }

    /// Takes away a page that is there, with its overlay, and maybe pages behind it, `most` at most in all: where it has no own lines,
    /// those without own lines that lie in one run with it may go in the same step. Answers how many went. No page of the space
    /// awaits. Takes no memory. Costs a few look-ups, and for each page of a run, where it isn't on the zero frame, a step, and what
    /// giving a block costs where no other page names its frame.
    pub fn remove_run(&mut self, space: u16, page: u64, most: u32) -> u32
        requires space { holds_space (state_of self.old) space ≡ true }
        requires none_awaits { (space_in (state_of self.old) space).awaiting ≡ map.empty }
        requires there { IsSome (page_in (state_of self.old) space page) }
        requires room { 0 < most }
        ensures gone { state_of self.new ≡ cut_pages (state_of self.old) space page result }
        ensures some { 0 < result }
        ensures few { result ≤ most }
        ensures low { page + result ≤ PAGE_END }
    {
        match self.ledger.bare_run(space, page, most) {
            Some(run) => {
                take_run_out(&mut self.store, &mut self.ledger, space, &run);
                run.n
            }
            None => {
                self.remove_page(space, page);
                1
            }
        }
    }

    /// The permissions and the frame of a page. None exactly where the page isn't there. Costs a look-up.
    #[inline]
    pub fn entry(&self, space: u16, page: u64) -> Option<PageEntry>
        ensures entry { result ≡ option_map (λ x. x.entry) (page_in (state_of self.now) space page) }
        ensures joined { IsJoined self.now }
    {
        self.ledger.entry(space, page)
    }

    /// The frame of a page that is there. None exactly where it is the zero frame. Costs a look-up.
    pub fn frame_of(&self, space: u16, page: u64) -> Option<u32>
        requires there { IsSome (page_in (state_of self.now) space page) }
        ensures frame { option_map (λ x. frame_but_zero (state_of self.now).zero_frame x.entry.frame)
            (page_in (state_of self.now) space page) ≡ Some result }
        ensures low { IfSome result (λ frame. frame < MOST_FRAMES) }
        ensures joined { IsJoined self.now }
    {
        match self.ledger.entry(space, page) {
            Some(entry) => frame_but(entry.frame, self.ledger.zero_frame()),
            None => unreachable!(),
        }
    }

    /// The frame of a page that was found. None exactly where it is the zero frame. Costs a step.
    pub fn frame_of_found(&self, page: &FoundPage) -> Option<u32>
        requires found { IsFoundPage self.now.table page.now }
        ensures frame { option_map (λ x. frame_but_zero (state_of self.now).zero_frame x.entry.frame)
            (page_in (state_of self.now) page.now.space page.now.page) ≡ Some result }
        ensures low { IfSome result (λ frame. frame < MOST_FRAMES) }
    {
        frame_but(page.frame, self.ledger.zero_frame())
    }

    /// The permissions of a page that is there. Costs a look-up.
    pub fn perms_of(&self, space: u16, page: u64) -> Perms
        requires there { IsSome (page_in (state_of self.now) space page) }
        ensures perms { option_map (λ x. x.entry.perms) (page_in (state_of self.now) space page)
            ≡ Some result }
        ensures joined { IsJoined self.now }
    {
        match self.ledger.entry(space, page) {
            Some(entry) => entry.perms,
            None => unreachable!(),
        }
    }

    /// The own lines of a page that is there. Costs a look-up.
    #[inline]
    pub fn lines_of(&self, space: u16, page: u64) -> Bits
        requires there { IsSome (page_in (state_of self.now) space page) }
        ensures own { option_map (λ x. x.own) (page_in (state_of self.now) space page) ≡ Some result }
        ensures joined { IsJoined self.now }
    {
        match self.ledger.overlay(space, page) {
            Some(overlay) => overlay.bits,
            None => Bits::empty(),
        }
    }

    /// Whether a page that is there is alone: its frame isn't the zero frame, and no other page of any space names it. Costs a
    /// look-up.
    #[inline]
    pub fn is_alone(&self, space: u16, page: u64) -> bool
        requires there { IsSome (page_in (state_of self.now) space page) }
        ensures { result ≡ is_alone (books (state_of self.now)) space page }
    {
        self.ledger.is_alone(space, page)
    }

    /// The least page of a space not below one. None exactly where none is. Costs a look-up.
    pub fn next_page(&self, space: u16, page: u64) -> Option<u64>
        ensures { IsNextPage (state_of self.now) space page result }
    {
        self.ledger.next_page(space, page)
    }

    /// The least page of a space not below one that has own lines. None exactly where none has. Costs a look-up.
    pub fn next_overlaid(&self, space: u16, page: u64) -> Option<u64>
        requires { holds_space (state_of self.now) space ≡ true }
        ensures next { IsNextOwn (books (state_of self.now)) space page result }
        ensures joined { IsJoined self.now }
    {
        self.ledger.next_overlaid(space, page)
    }

    /// How many pages a space has.
    pub fn pages(&self, space: u16) -> u32
        ensures count { result ≡ map.len (space_in (state_of self.now) space).pages }
        ensures few { result ≤ PAGE_END }
        ensures once { NamesOnce (state_of self.now).zero_frame (entries_in (state_of self.now) space) }
    {
        self.ledger.pages(space)
    }

    /// The units of the ledger. Costs a step.
    #[inline]
    pub fn units(&self) -> u32
        ensures sum { result ≡ units_of (state_of self.now) }
        ensures fits { Fits (state_of self.now) }
        ensures few { result ≤ MOST_UNITS }
    {
        self.ledger.units()
    }

    /// The most units that there may be: 16 for each frame. Costs a step.
    #[inline]
    pub fn limit(&self) -> u32
        ensures limit { result ≡ limit_of (state_of self.now) }
        ensures few { result ≤ MOST_UNITS }
    {
        16 * self.ledger.frames()
    }

    /// How many own lines all pages have. Costs a step.
    #[inline]
    pub fn lines(&self) -> u32
        ensures { result ≡ own_lines (books (state_of self.now)) }
    {
        self.ledger.lines()
    }

    /// By how many units a store rises that touches these lines of a page that is there. A store over two pages of a space
    /// rises by the sum of both answers. Costs a few look-ups.
    pub fn store_units(&self, space: u16, page: u64, lines: Bits) -> u32
        requires there { IsSome (page_in (state_of self.now) space page) }
        ensures rise { RisesBy (state_of self.now) space page lines result }
        ensures few { result ≤ FRAME_UNITS }
    {
        self.ledger.store_units(space, page, lines)
    }

    /// Sets or takes away the mark of a space. Takes no memory.
    pub fn set_speculating(&mut self, space: u16, on: bool)
        requires there { holds_space (state_of self.old) space ≡ true }
        ensures { state_of self.new ≡ put_mark (state_of self.old) space on }
    {
        self.ledger.set_speculating(space, on);
    }

    /// Whether a space is marked as speculating.
    #[inline]
    pub fn is_speculating(&self, space: u16) -> bool
        ensures mark { result ≡ (space_in (state_of self.now) space).speculating }
        ensures joined { IsJoined self.now }
    {
        self.ledger.is_speculating(space)
    }

    /// Whether stores to pages of a space that name a frame go into it: the space isn't speculating, and one page names the frame, which
    /// isn't the zero frame. Where none does, the answer tells nothing. Costs a step.
    #[inline(always)]
    fn writes_frame(&self, space: u16, frame: u32) -> bool
        requires { frame < self.now.table.frames }
        ensures { (page : ℕ) → frame_at self.now.table space page ≡ Some frame
            → result ≡ (not (space_in self.now.table space).speculating && book.is_alone (ledger_of self.now.table) space page) }
    {
        !self.ledger.is_speculating(space) && self.ledger.is_alone_frame(frame)
    }

    /// Finds a page. None exactly where it isn't there. Costs a look-up of the page, and one of its overlay.
    pub fn find_page(&self, space: u16, page: u64) -> Option<FoundPage>
        ensures found { FindsPage self.now space page result }
        ensures joined { IsJoined self.now }
    {
        match self.ledger.entry(space, page) {
            Some(entry) => {
                let (own, block) = parts_of(self.ledger.overlay(space, page));
                Some(FoundPage {
                    space,
                    page,
                    perms: entry.perms,
                    frame: entry.frame,
                    own,
                    block,
                    in_frame: self.writes_frame(space, entry.frame),
                })
            }
            None => None,
        }
    }

    /// Finds a line of a page. None exactly where the page isn't there. Costs a look-up of the page, and one of its overlay.
    pub fn find(&self, space: u16, page: u64, line: u8) -> Option<FoundLine>
        requires line { line < PAGE_LINES }
        ensures found { FindsLine self.now space page line result }
        ensures joined { IsJoined self.now }
    {
        match self.find_page(space, page) {
            Some(found) => Some(found.line(line)),
            None => None,
        }
    }

    /// Lends a line that was found. Costs a step.
    #[inline]
    pub fn line_at(&self, found: FoundLine) -> &[u8; 64]
        requires found { IsFound self.now found }
        ensures value { option_map (λ x. line_in_page x.lines found.line)
            (page_in (state_of self.now) found.space found.page) ≡ Some result.now }
        ensures bytes { length result.now ≡ LINE_BYTES }
        ensures joined { IsJoined self.now }
    {
        match found.spot {
            Spot::Segment(block) => self.store.get(block, found.line),
            Spot::Frame(frame) => self.store.frame_line(frame, found.line),
        }
    }

    /// Lends a line that was found, and that can be written where it stands. What the borrower leaves is the region's line at
    /// the place, and nothing else of the region or of the tables changes. Costs a step.
    #[inline]
    pub fn line_at_mut(&mut self, found: FoundLine) -> &mut [u8; 64]
        requires found { IsFound self.old found }
        requires writable { is_writable (state_of self.old) found.space found.page found.line ≡ true }
        ensures* writes_back { sem 𝓛 (Lends the_row (Array byte 0) self.entry result
            (with_line_at_place self.old (place_at self.old found.space found.page found.line))) }
        ensures value { option_map (λ x. line_in_page x.lines found.line)
            (page_in (state_of self.old) found.space found.page) ≡ Some result.now }
        ensures state { (bytes : List ℕ) → state_of (with_line_at_place self.old
            (place_at self.old found.space found.page found.line) bytes)
            ≡ with_written (state_of self.old) found.space found.page found.line bytes }
        ensures places { (bytes : List ℕ) → KeepsPlaces self.old (with_line_at_place self.old
            (place_at self.old found.space found.page found.line) bytes) }
        ensures joined { IsJoined self.old }
    {
        match found.spot {
            Spot::Segment(block) => self.store.get_mut(block, found.line),
            Spot::Frame(frame) => self.store.frame_line_mut(frame, found.line),
        }
    }

    /// Where a line that was found stands: the number of its line in the region. Costs a step.
    pub fn place_of(&self, found: FoundLine) -> u32
        requires found { IsFound self.now found }
        ensures place { result ≡ place_at self.now found.space found.page found.line }
        ensures few { result < PAGE_LINES * MOST_FRAMES }
        ensures joined { IsJoined self.now }
    {
        match found.spot {
            Spot::Segment(block) => self.store.place(block, found.line),
            Spot::Frame(frame) => 64 * frame + u32::from(found.line),
        }
    }

    /// Lends the line at a place of the region, at which one of a page that is there stands. Costs a step.
    #[inline]
    pub fn line_at_place(&self, at: u32) -> &[u8; 64]
        requires place { IsPlace self.now at }
        ensures value { (is : IsPlace self.now at) → option_map (λ x. line_in_page x.lines is.line)
            (page_in (state_of self.now) is.space is.page) ≡ Some result.now }
        ensures bytes { length result.now ≡ LINE_BYTES }
        ensures joined { IsJoined self.now }
    {
        self.store.line(at)
    }

    /// Lends the line at a place of the region, at which one of a page that is there stands, and can be written. What the borrower leaves
    /// is the region's line there, and nothing else of the region or of the tables changes: every line stays where it stands. Costs a step.
    #[inline]
    pub fn line_at_place_mut(&mut self, at: u32) -> &mut [u8; 64]
        requires place { IsPutPlace self.old at }
        ensures* writes_back { sem 𝓛 (Lends the_row (Array byte 0) self.entry result
            (with_line_at_place self.old at)) }
        ensures value { (is : IsPutPlace self.old at) → option_map (λ x. line_in_page x.lines is.is.line)
            (page_in (state_of self.old) is.is.space is.is.page) ≡ Some result.now }
        ensures state { (is : IsPutPlace self.old at) (bytes : List ℕ)
            → state_of (with_line_at_place self.old at bytes)
            ≡ with_written (state_of self.old) is.is.space is.is.page is.is.line bytes }
        ensures places { (bytes : List ℕ) → KeepsPlaces self.old (with_line_at_place self.old at bytes) }
        ensures joined { IsJoined self.old }
    {
        self.store.line_mut(at)
    }

    /// Where a line of a page that is there stands: the number of its line in the region. Costs a look-up.
    pub fn place(&self, space: u16, page: u64, line: u8) -> u32
        requires there { IsSome (page_in (state_of self.now) space page) }
        requires line { line < PAGE_LINES }
        ensures place { result ≡ place_at self.now space page line }
        ensures own { HasOwnPlace self.now space page line }
        ensures inside { result < PAGE_LINES * (state_of self.now).frames }
        ensures joined { IsJoined self.now }
    {
        match self.find(space, page, line) {
            Some(found) => self.place_of(found),
            None => unreachable!(),
        }
    }

    /// Lends a line, that can be written where it stands, of a page that is there. What the borrower leaves is the region's line
    /// at the place, and nothing else of the region or of the tables changes. Costs a look-up.
    #[inline]
    pub fn line_mut(&mut self, space: u16, page: u64, line: u8) -> &mut [u8; 64]
        requires there { IsSome (page_in (state_of self.old) space page) }
        requires line { line < PAGE_LINES }
        requires writable { is_writable (state_of self.old) space page line ≡ true }
        ensures* writes_back { sem 𝓛 (Lends the_row (Array byte 0) self.entry result
            (with_line_at_place self.old (place_at self.old space page line))) }
        ensures value { option_map (λ x. line_in_page x.lines line) (page_in (state_of self.old) space page)
            ≡ Some result.now }
        ensures state { (bytes : List ℕ)
            → state_of (with_line_at_place self.old (place_at self.old space page line) bytes)
            ≡ with_written (state_of self.old) space page line bytes }
    {
        match self.find(space, page, line) {
            Some(found) => self.line_at_mut(found),
            None => unreachable!(),
        }
    }

    /// Makes lines of a page that is there such as can be written where they stand: unless its frame is written, those that
    /// aren't in its overlay are brought there from the frame. The units that this needs are there. Takes no memory. Costs a
    /// copy of each line that is brought and, each time that the overlay grows, of its lines and of 60 lines at most that move.
    pub fn bring(&mut self, space: u16, page: u64, lines: Bits)
        requires there { IsSome (page_in (state_of self.old) space page) }
        requires fits { Fits (with_brought (state_of self.old) space page lines) }
        ensures { state_of self.new ≡ with_brought (state_of self.old) space page lines }
    {
        match self.ledger.entry(space, page) {
            Some(entry) => {
                if self.writes_frame(space, entry.frame) {
                    return;
                }
                let (store, ledger) = (&mut self.store, &mut self.ledger);
                bring_lines(store, ledger, space, page, entry.frame, lines);
            }
            None => unreachable!(),
        }
    }

    /// How many units there are once a line of a page that was found is brought, which can't be written where it stands. Costs a few
    /// steps.
    #[inline(always)]
    pub fn units_with(&self, page: &FoundPage) -> u32
        requires found { IsFoundPage self.now.table page.now }
        ensures units { (line : ℕ) → line < PAGE_LINES
            → is_writable (state_of self.now) page.now.space page.now.page line ≡ false
            → units_of (with_brought (state_of self.now) page.now.space page.now.page (line ∷ [])) ≡ result }
        ensures joined { IsJoined self.now }
    {
        self.ledger.units() + page.rise()
    }

    /// Brings a line, below 64, of a page that was found, as `bring` does: one that can't be written where it stands. The units that this
    /// needs are there. Answers the page as it is found then, and all other pages are found as before, their lines where they were; or none
    /// where the overlay grew, so that others may have moved. Takes no memory. Costs an insertion and a copy of the line, and what `bring` costs where the overlay
    /// grows.
    #[inline(always)]
    pub fn bring_found(&mut self, page: FoundPage, line: u8) -> Option<FoundPage>
        requires found { IsFoundPage self.old.table page }
        requires line { line < PAGE_LINES }
        requires apart { is_writable (state_of self.old) page.space page.page line ≡ false }
        requires fits { Fits (with_brought (state_of self.old) page.space page.page (line ∷ [])) }
        ensures state { state_of self.new ≡ with_brought (state_of self.old) page.space page.page (line ∷ []) }
        ensures found { IfSome result (IsBroughtTo self.old.table self.new.table page line) }
        ensures places { IfSome result (λ _. KeepsPlacesBut page.space page.page self.old self.new) }
        ensures joined { IsJoined self.old }
    {
        bring_found(&mut self.store, &mut self.ledger, page, line)
    }

    /// The own lines of a page that is there and alone go into its frame. Takes no memory. Costs a copy of each own line, and
    /// moves that copy 60 lines at most.
    pub fn commit_page(&mut self, space: u16, page: u64)
        requires there { IsSome (page_in (state_of self.old) space page) }
        requires alone { is_alone (books (state_of self.old)) space page ≡ true }
        ensures state { state_of self.new ≡ altered_page committed (state_of self.old) space page }
        ensures few { MovesFewBeside space page self.old.table self.new.table }
    {
        commit(&mut self.store, &mut self.ledger, space, page);
    }

    /// A page that is overlaid, and isn't alone, gets a new frame with its lines, and has no own lines any more. The units after
    /// it are there. Takes no memory. Costs a copy of the page, and moves that copy 60 lines at most.
    pub fn copy_commit_page(&mut self, space: u16, page: u64)
        requires overlaid { IfSome (page_in (state_of self.old) space page) (λ x. 0 < length x.own) }
        requires there { IsSome (page_in (state_of self.old) space page) }
        requires shared { is_alone (books (state_of self.old)) space page ≡ false }
        requires none_awaits { (space_in (state_of self.old) space).awaiting ≡ map.empty }
        requires room { HasCopyRoom (state_of self.old) space page }
        ensures placed { IfSome (page_in (state_of self.old) space page)
            (λ x. IsPlaced (state_of self.old) (state_of self.new) space page (λ frame. copied frame x)) }
        ensures few { MovesFewBeside space page self.old.table self.new.table }
    {
        match self.find_page(space, page) {
            Some(found) => {
                self.settle_found(&found);
            }
            None => unreachable!(),
        }
    }

    /// As `copy_commit_page`, of a page that was found. Answers it as it is found then. Looks nothing up but what changes.
    pub fn settle_found(&mut self, page: &FoundPage) -> FoundPage
        requires found { IsFoundPage self.old.table page.now }
        requires overlaid { IfSome (page_in (state_of self.old) page.now.space page.now.page)
            (λ x. 0 < length x.own) }
        requires shared { is_alone (books (state_of self.old)) page.now.space page.now.page ≡ false }
        requires none_awaits { (space_in (state_of self.old) page.now.space).awaiting ≡ map.empty }
        requires room { HasCopyRoom (state_of self.old) page.now.space page.now.page }
        ensures placed { IfSome (page_in (state_of self.old) page.now.space page.now.page)
            (λ x. IsPlaced (state_of self.old) (state_of self.new) page.now.space page.now.page
            (λ frame. copied frame x)) }
        ensures found { IsFoundPageAt self.new page.now.space page.now.page result }
        ensures few { MovesFewBeside page.now.space page.now.page self.old.table self.new.table }
    {
        let (space, number) = (page.space, page.page);
        match page.overlay() {
            Some(overlay) => {
                let (store, ledger) = (&mut self.store, &mut self.ledger);
                let frame = copy_commit(store, ledger, space, number, page.entry(), overlay);
                page.on_frame(frame, self.writes_frame(space, frame))
            }
            None => unreachable!(),
        }
    }

    /// The overlay of a page that is there is given up. Takes no memory. Costs moves that copy 60 lines at most.
    pub fn discard_page(&mut self, space: u16, page: u64)
        requires there { IsSome (page_in (state_of self.old) space page) }
        ensures state { state_of self.new ≡ altered_page discarded (state_of self.old) space page }
        ensures few { MovesFewBeside space page self.old.table self.new.table }
    {
        let overlay = self.ledger.overlay(space, page);
        let store = &mut self.store;
        drop_overlay(store, &mut self.ledger, space, page, overlay);
    }

    /// A page that was found and is alone comes onto the frame of another one, on which no page of its space is unless it is the zero
    /// frame: with these lines as its own, at most 31, and as it is seen. All its other lines are in that frame already. No page of its
    /// space awaits. Takes no memory. Looks nothing up but what changes. Costs two copies of each of these lines, and moves that copy 60
    /// lines at most.
    pub fn rebase_found(&mut self, page: &FoundPage, theirs: &FoundPage, lines: Bits)
        requires found { IsFoundPage self.old.table page.now }
        requires theirs { IsFoundPage self.old.table theirs.now }
        requires few { length lines ≤ MOST_OWN }
        requires alone { is_alone (books (state_of self.old)) page.now.space page.now.page ≡ true }
        requires none_awaits { (space_in (state_of self.old) page.now.space).awaiting ≡ map.empty }
        requires away { IsAway (state_of self.old) page.now.space theirs.now.space theirs.now.page }
        requires sees { (x y : PageState) → page_in (state_of self.old) page.now.space page.now.page ≡ Some x
            → page_in (state_of self.old) theirs.now.space theirs.now.page ≡ Some y → SeesFrame lines x y }
        ensures { IsRebased (state_of self.old) (state_of self.new) page.now.space page.now.page
            theirs.now.space theirs.now.page lines }
    {
        let mut kept = [[0; 64]; MOST_OWN as usize];
        keep_lines(self, page, lines, &mut kept);
        rebase(
            &mut self.store,
            &mut self.ledger,
            page,
            theirs,
            lines,
            &kept,
        );
    }

    /// No two free blocks below a frame are equal in size: that holds between calls, so there is nothing to move. No page changes, and
    /// so no units do; frames and segments of 16 units stay where they are. Takes no memory. Costs a few steps.
    pub fn compact(&mut self)
        ensures state { state_of self.new ≡ state_of self.old }
        ensures settled { HasSettledBlocks self.new }
        ensures whole { KeepsWholeBlocks self.old self.new }
    {
        match self.store.compact_step() {
            Some(_) => unreachable!(),
            None => {}
        }
    }

    /// A table with the entries of a space's pages, of which none awaits, or want of memory. Costs a step for each page.
    pub fn copy_table(&self, space: u16) -> Result<PageTable, AllocError>
        requires there { holds_space (state_of self.now) space ≡ true }
        requires none_awaits { (space_in (state_of self.now) space).awaiting ≡ map.empty }
        ensures table { IfOk result (λ table. table.pages ≡ entries_in (state_of self.now) space) }
        ensures once { IfOk result (λ table. NamesOnce (state_of self.now).zero_frame table.pages) }
    {
        self.ledger.copy_table(space)
    }

    /// Gives a space that has no page, and of which none awaits, a table that names no frame but the zero frame twice. Its
    /// pages await `share_page`, and are in no ledger until then. Takes no memory.
    pub fn adopt_table(&mut self, to: u16, table: PageTable)
        requires there { holds_space (state_of self.old) to ≡ true }
        requires empty { (space_in (state_of self.old) to).pages ≡ map.empty }
        requires none_awaits { (space_in (state_of self.old) to).awaiting ≡ map.empty }
        requires once { NamesOnce (state_of self.old).zero_frame table.pages }
        ensures { state_of self.new ≡ put_awaiting (state_of self.old) to table.pages }
    {
        self.ledger.adopt_table(to, table);
    }

    /// Shares a page with a space in which it awaits as the least, with the frame that it has: it gets its lines, and an overlay
    /// of its own. The units after it are there. Takes no memory. Costs one copy of the overlay's block.
    pub fn share_page(&mut self, from: u16, to: u16, page: u64)
        requires there { IsSome (page_in (state_of self.old) from page) }
        requires space { holds_space (state_of self.old) to ≡ true }
        requires least { IsLeast (space_in (state_of self.old) to).awaiting page }
        requires frame { AwaitsLike (state_of self.old) from to page }
        requires room { HasShareRoom (state_of self.old) from page }
        ensures { state_of self.new ≡ with_shared (state_of self.old) from to page }
    {
        share(&mut self.store, &mut self.ledger, from, to, page);
    }

    /// Shares each page below one that awaits in another space, with the frame that it has there and without own lines: the least
    /// first. Takes no memory. Costs a step for each of them.
    pub fn share_bare(&mut self, from: u16, to: u16, until: u64)
        requires differ { from ≢ to }
        requires space { holds_space (state_of self.old) to ≡ true }
        requires bare { AwaitBare (state_of self.old) from to until }
        ensures shared { AreShared from to until (state_of self.old) (state_of self.new) }
        ensures none { NoneAwaitsBelow (state_of self.new) to until }
    {
        share_below(&self.store, &mut self.ledger, from, to, until);
    }
}
