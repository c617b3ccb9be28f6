//! The memories of all spaces.

ghost use Rattle.std.specs.Prelude.{◌≡◌, ◌≢◌, ℕ, ◌+◌, ◌*◌, ◌/◌, ◌%◌, ◌<◌, ◌≤◌, List, IfOk, IfSome, IsSome, OnOk, OnErr, Ok, None, true, false, length};
ghost use Rattle.std.specs.Borrow.{Lends, sem, Array, u8 as byte};
ghost use Rattle.std.specs.FinMap as map;
ghost use Rattle.std.specs.Option.{is_some, option_map};
ghost use Rattle.sizes.specs.declared.TheConstants.{LAST_SPACE, LINE_BYTES, MOST_FRAMES, MOST_SPACE_PAGES, MOST_UNITS, PAGE_BYTES, PAGE_END, PAGE_LINES};
ghost use Rattle.ovl_io.specs.Memory.{bytes_at};
ghost use Rattle.ovl_io.specs.PageBytes.{page_allows};
ghost use Rattle.ovl_io.specs.Permissions.{readable, writable};
ghost use Rattle.ledger.specs.Ledger.{is_alone};
ghost use Rattle.ledger.specs.LargeLaws.{NoneLarge};
ghost use Rattle.ledger.specs.Units.{own_lines};
ghost use Rattle.space_maps.specs.Spaces.{bare_space, cut_pages, cut_space, holds_space, page_in, put_awaiting, put_mark, put_space, space_in, altered_page};
ghost use Rattle.space_ledger.specs.Space.{IsLeast};
ghost use Rattle.space_ledger.specs.Calls.{IsNextOwn, NamesOnce};
ghost use Rattle.overlay_pages.specs.Lines.{line_in_page};
ghost use Rattle.overlay_pages.specs.State.{books, memory_of};
ghost use Rattle.overlay_pages.specs.Changes.{AreAbsent, Fits, HasCopyRoom, HasShareRoom, IsPlaced, committed, copied, discarded, frame_but_zero, is_writable, limit_of, units_of, with_shared, with_written, with_zeros};
ghost use Rattle.overlay_pages.specs.Spots.{IsFoundPage, IsFoundPageAt};
ghost use Rattle.overlay_pages.specs.View.{HasOwnPlace, IsJoined, place_at};
ghost use Rattle.overlay_pages.specs.Calls.{AreMapped, AreShared, AreZeros, AwaitBare, AwaitsLike, HasSettledBlocks, IsEmptyState, IsNextPage, KeepsWholeBlocks, MovesFewBeside, NoneAwaitsBelow, entries_in};
ghost use Rattle.overlay_memory.specs.ApartLaws.{ArePagesApart};
ghost use Rattle.overlay_memory.specs.Access.{FitsStored, IsFirstAbsent, IsStored, Places, Reads, Stores, line_address};
ghost use Rattle.overlay_memory.specs.Code.{IsFrontLine};
ghost use Rattle.overlay_memory.specs.Pieces.{emptied_space};
ghost use Rattle.overlay_memory.specs.Rebased.{CanCompare, CanRebase, HasRebased, RebasesAlike};
ghost use Rattle.overlay_memory.specs.Room.{FallsShort};
ghost use Rattle.overlay_memory.specs.Translated.{access_at, after_access};
ghost use Rattle.overlay_memory.specs.View.{AreOverlaysSmall, AreTrue, NoneAwaits, state_of, translations_of, with_region_line};
ghost use Rattle.translation_cache.specs.Bare.{bare};
ghost use Rattle.translation_cache.specs.Counted.{translated};
ghost use Rattle.translation_cache.specs.CountedLaws.{IsFront};
ghost use Rattle.translation_cache.specs.Formed.{IsFormed};
ghost use Rattle.translation_cache.specs.Translations.{flushed, no_translations, with_hits};
ghost use Rattle.overlay_pages.specs.declared.settling.TheConstants.{MOST_OWN};
ghost use Rattle.overlay_memory.specs.contracts.memory.OverlayMemory.{the_row};

use crate::comparing::lines_apart;
use crate::error::{MemoryError, Shortage, SpaceError, result_at};
use crate::fronts::Fronts;
use crate::reading::{is_in_line, line_of, load_front, load_line, read_bytes};
use crate::removing::{remove_pages, unmap_pages};
use crate::room::{shortage_by, shortage_of};
use crate::storing::{put_line, store_front, store_line, write_pages};
use crate::translating::{bring_seen, translate_access};
use bitflags::Flags;
use overlay_bits::Bits;
use overlay_pages::{FoundPage, MOST_OWN, OverlayPages};
use ovl_io::Perms;
use page_table::PageTable;
use sizes::{FRAME_UNITS, PAGE_BYTES, PAGE_LINES};
use std::alloc::{AllocError, Global};
use std::marker::Model;
use translation_cache::Cache;

/// The memories of all spaces. Spaces are numbered from 1 to 32,767, pages are below 2^26. A space that a call names is there,
/// and no page of it awaits `share_page`, where the call doesn't say otherwise.
#[derive(Drop)]
pub struct OverlayMemory {
    pages: OverlayPages,
    cache: Cache,
    fronts: Fronts,
}

impl Model for OverlayMemory {
    ghost use Rattle.overlay_memory.specs.View.{AreTranslated, TranslatedView};
    ghost use Rattle.overlay_memory.specs.Codes.{translated_code};
    ghost use Rattle.overlay_memory.specs.Fronts.{AreFronts};
    ghost use Rattle.translation_cache.specs.Bare.{bare};
    ghost use Rattle.overlay_pages.specs.View.{state_of};

    ghost Value = { TranslatedView };

    ghost coded = { translated_code };

    ghost view = { λ m. record { pages = m.pages; cache = m.cache } };

    ghost invariant = { λ m. AreTranslated (state_of m.pages) m.cache
        × AreFronts m.pages (bare m.cache) m.fronts };
}

impl OverlayMemory {
    /// No space, and 1 to 65,536 frames, of which one is the zero frame. Takes all the memory that frames, segments and overlays
    /// ever need, or answers the want of it.
    pub fn new(alloc: Global, frames: u32) -> Result<OverlayMemory, AllocError>
        requires some { 0 < frames }
        requires few { frames ≤ MOST_FRAMES }
        ensures state { IfOk result (λ made. IsEmptyState frames (state_of made)) }
        ensures translations { IfOk result (λ made. translations_of made ≡ no_translations) }
    {
        let pages = OverlayPages::new(alloc, frames)?;
        let fronts = Fronts::new(alloc)?;
        let cache = Cache::new();
        Ok(OverlayMemory {
            pages,
            cache,
            fronts,
        })
    }

    /// Whether a space is there. Costs a step.
    pub fn has_space(&self, space: u16) -> bool
        ensures here { result ≡ holds_space (state_of self.now) space }
        ensures joined { IsJoined self.now.pages }
    {
        self.pages.has_space(space)
    }

    /// Makes a space of a number from 1 to 32,767 that isn't there: without a page, without a mark, and without translations, of which
    /// there were none. After want of memory everything is as before.
    pub fn add_space(&mut self, space: u16) -> Result<(), AllocError>
        requires some { 0 < space }
        requires last { space ≤ LAST_SPACE }
        requires absent { holds_space (state_of self.old) space ≡ false }
        ensures added { OnOk result
            (state_of self.new ≡ put_space (state_of self.old) space bare_space) }
        ensures kept { OnErr result (self.new ≡ self.old) }
        ensures translations { translations_of self.new ≡ translations_of self.old }
        ensures unseen { OnOk result
            (flushed space (translations_of self.old) ≡ translations_of self.old) }
    {
        self.fronts.clear();
        match self.pages.add_space(space) {
            Ok(()) => {
                self.cache.flush(space);
                Ok(())
            }
            Err(AllocError) => Err(AllocError),
        }
    }

    /// Gives a space up, with its pages. Takes no memory. Costs a few look-ups for each run of pages without own lines, and for each
    /// page that has some; and for each page that isn't on the zero frame a step, and where no other page names its frame, what giving
    /// that back costs.
    pub fn drop_space(&mut self, space: u16)
        requires there { holds_space (state_of self.old) space ≡ true }
        requires none_awaits { NoneAwaits (state_of self.old) space }
        ensures state { state_of self.new ≡ cut_space (state_of self.old) space }
        ensures translations { translations_of self.new ≡ flushed space (translations_of self.old) }
        ensures none { (space_in (state_of self.old) space).pages ≡ map.empty
            → translations_of self.new ≡ translations_of self.old }
    {
        self.fronts.clear();
        remove_pages(&mut self.pages, space);
        self.pages.end_space(space);
        self.cache.flush(space);
    }

    /// Gives the pages of a space up, and not the space, whose mark stays. Takes no memory. Costs as much as `drop_space`.
    pub fn clear_space(&mut self, space: u16)
        requires there { holds_space (state_of self.old) space ≡ true }
        requires none_awaits { NoneAwaits (state_of self.old) space }
        ensures state { state_of self.new ≡ emptied_space (state_of self.old) space }
        ensures translations { translations_of self.new ≡ flushed space (translations_of self.old) }
    {
        self.fronts.clear();
        remove_pages(&mut self.pages, space);
        self.cache.flush(space);
    }

    /// Takes away the `n` pages from `page` on, which are all there, with their overlays. No page of the space awaits. Takes no memory.
    /// Costs for these pages what `drop_space` costs.
    pub fn unmap(&mut self, space: u16, page: u64, n: u32)
        requires there { AreMapped (state_of self.old) space page n }
        requires none_awaits { NoneAwaits (state_of self.old) space }
        ensures state { state_of self.new ≡ cut_pages (state_of self.old) space page n }
        ensures translations { translations_of self.new ≡ flushed space (translations_of self.old) }
    {
        self.fronts.clear();
        unmap_pages(&mut self.pages, space, page, n);
        self.cache.flush(space);
    }

    /// Maps `n` pages from `page` on, which aren't there, on the zero frame and without own lines. After want of memory
    /// everything is as before. Costs a look-up for each of the pages.
    pub fn map_zero(
        &mut self,
        space: u16,
        page: u64,
        n: u32,
        perms: Perms,
    ) -> Result<(), AllocError>
        requires there { holds_space (state_of self.old) space ≡ true }
        requires none_awaits { NoneAwaits (state_of self.old) space }
        requires absent { AreAbsent (state_of self.old) space page n }
        requires low { page + n ≤ PAGE_END }
        requires few { map.len (space_in (state_of self.old) space).pages + n ≤ MOST_SPACE_PAGES }
        ensures mapped { OnOk result
            (state_of self.new ≡ with_zeros (state_of self.old) space page n
            (record { perms = perms; frame = (state_of self.old).zero_frame })) }
        ensures kept { OnErr result (self.new ≡ self.old) }
        ensures translations { OnOk result
            (translations_of self.new ≡ flushed space (translations_of self.old)) }
    {
        self.fronts.clear();
        match self.pages.map_zero(space, page, n, perms) {
            Ok(()) => {
                self.cache.flush(space);
                Ok(())
            }
            Err(AllocError) => Err(AllocError),
        }
    }

    /// Places a page that isn't there in a frame of its own, with these bytes. Full exactly where the units after it would exceed
    /// the limit. After want of memory everything is as before.
    pub fn place_page(
        &mut self,
        space: u16,
        page: u64,
        perms: Perms,
        bytes: &[u8; PAGE_BYTES],
    ) -> Result<(), SpaceError>
        requires there { holds_space (state_of self.old) space ≡ true }
        requires none_awaits { NoneAwaits (state_of self.old) space }
        requires absent { page_in (state_of self.old) space page ≡ None }
        requires low { page < PAGE_END }
        requires few { map.len (space_in (state_of self.old) space).pages < MOST_SPACE_PAGES }
        ensures places { Places self.old.pages self.new.pages space page
            (λ frame. record { perms = perms; frame = frame }) bytes.now result }
        ensures translations { translations_of self.new ≡ translations_of self.old }
    {
        if let Some(shortage) = shortage_by(&self.pages, FRAME_UNITS) {
            return Err(SpaceError::Full(shortage.needed, shortage.limit));
        }
        self.fronts.clear();
        match self.pages.add_page(space, page, perms, bytes) {
            Ok(()) => Ok(()),
            Err(_) => Err(SpaceError::Memory),
        }
    }

    /// Fills `into` with the bytes from an address on, whatever the permissions. Unmapped exactly at the first byte whose page
    /// isn't there; no other error comes.
    pub fn read(&self, space: u16, address: u64, into: &mut [u8]) -> Result<(), MemoryError>
        requires there { holds_space (state_of self.now) space ≡ true }
        ensures access { Reads (state_of self.now) space 0 address (length into.old) result }
        ensures bytes { OnOk result (into.new
            ≡ bytes_at (memory_of (state_of self.now) space) address (length into.old)) }
        ensures kept { length into.new ≡ length into.old }
    {
        read_bytes(&self.pages, space, address, into, Perms::empty())
    }

    /// Stores at most 4096 bytes from an address on. Unmapped or Forbidden exactly at the first byte whose page isn't there or may
    /// not be written; else Full exactly where the units after the store would exceed the limit. After an error everything is as
    /// before. Takes no memory.
    pub fn write(&mut self, space: u16, address: u64, bytes: &[u8]) -> Result<(), MemoryError>
        requires there { holds_space (state_of self.old) space ≡ true }
        requires none_awaits { NoneAwaits (state_of self.old) space }
        requires few { length bytes.now ≤ PAGE_BYTES }
        ensures stores { Stores self.old.pages self.new.pages space address bytes.now result }
        ensures kept { OnErr result (self.new ≡ self.old) }
        ensures translations { translations_of self.new ≡ translations_of self.old }
        ensures small { AreOverlaysSmall (state_of self.new) }
    {
        self.fronts.clear();
        write_pages(&mut self.pages, &mut self.cache, space, address, bytes)
    }

    /// A line of a page that is there becomes these bytes, as by a store of them, whatever the permissions. The units after it are there.
    /// The space isn't speculating, and no page of it awaits. Takes no memory. Costs what `write` costs.
    pub fn put_line(&mut self, space: u16, page: u64, line: u8, bytes: &[u8; 64])
        requires there { IsSome (page_in (state_of self.old) space page) }
        requires line { line < PAGE_LINES }
        requires settled { (space_in (state_of self.old) space).speculating ≡ false }
        requires none_awaits { NoneAwaits (state_of self.old) space }
        requires fits { FitsStored (state_of self.old) space (line_address page line) LINE_BYTES }
        ensures stored { IsStored (state_of self.old) (state_of self.new) space
            (line_address page line) bytes.now }
        ensures small { AreOverlaysSmall (state_of self.new) }
        ensures translations { translations_of self.new ≡ translations_of self.old }
    {
        self.fronts.clear();
        put_line(&mut self.pages, &mut self.cache, space, page, line, bytes);
    }

    /// Fills `into` with the bytes from an address on, for which each page needs the permission: X for a fetch, R for a load.
    /// Unmapped or Forbidden exactly at the first byte whose page isn't there or lacks it; Full never.
    #[inline]
    pub fn load(
        &mut self,
        space: u16,
        address: u64,
        into: &mut [u8],
        need: Perms,
    ) -> Result<(), MemoryError>
        requires there { holds_space (state_of self.old) space ≡ true }
        ensures access { Reads (state_of self.old) space need.0 address (length into.old) result }
        ensures bytes { OnOk result (into.new
            ≡ bytes_at (memory_of (state_of self.old) space) address (length into.old)) }
        ensures kept { length into.new ≡ length into.old }
        ensures same { self.new.pages ≡ self.old.pages }
        ensures translations { translations_of self.new
            ≡ after_access self.old space (access_at need.0 address (length into.old)) }
    {
        if is_in_line(address, into.len()) {
            let came = load_line(
                &self.pages,
                &mut self.cache,
                &mut self.fronts,
                space,
                address,
                into,
                need,
            );
            return result_at(address, came);
        }
        translate_access(
            &self.pages,
            &mut self.cache,
            &mut self.fronts,
            space,
            address,
            into.len(),
            need,
        );
        read_bytes(&self.pages, space, address, into, need)
    }

    /// The line with the byte at an address, where its page may be used so and is known to be at the front of its list. None says
    /// nothing. It counts nothing, and costs a few steps.
    #[inline(always)]
    pub fn front_line(&self, space: u16, address: u64, need: Perms) -> Option<&[u8; 64]>
        ensures { IfSome result (λ line. IsFrontLine self.now space need.0 address line.now) }
    {
        match self.fronts.page(space, address / PAGE_BYTES as u64) {
            Some(known) => {
                if known.found.perms.contains(need) {
                    Some(self.pages.line_at(known.found.line(line_of(address))))
                } else {
                    None
                }
            }
            None => None,
        }
    }

    /// Brings a page that is known since it was found to the front of its list, as an access to it does, where it may be used so.
    /// Answers whether it did; where not, nothing has changed. Costs what a look in its list costs.
    pub fn bring_front(&mut self, space: u16, address: u64, need: Perms) -> bool
        ensures same { self.new.pages ≡ self.old.pages }
        ensures may { result ≡ true → page_allows (memory_of (state_of self.old) space) need.0
            (address / PAGE_BYTES) ≡ true }
        ensures front { result ≡ true
            → IsFront space (address / PAGE_BYTES) (translations_of self.new) }
        ensures translations { result ≡ true → translations_of self.new
            ≡ translated space (memory_of (state_of self.old) space) (address / PAGE_BYTES)
            (translations_of self.old) }
        ensures kept { result ≡ false → self.new ≡ self.old }
    {
        match self.fronts.seen(space, address / PAGE_BYTES as u64) {
            Some(known) => {
                let found = known.found;
                if !found.perms.contains(need) {
                    return false;
                }
                bring_seen(&self.pages, &mut self.cache, &mut self.fronts, &found);
                true
            }
            None => false,
        }
    }

    /// Counts so many accesses to pages that are at the front of their lists.
    #[inline]
    pub fn count_fronts(&mut self, n: u64)
        ensures same { self.new.pages ≡ self.old.pages }
        ensures translations { translations_of self.new ≡ with_hits n (translations_of self.old) }
    {
        self.cache.count_hits(n);
    }

    /// As `load` of bytes in one line that need R, where its page is known to be at the front of its list. Answers whether it was done; where
    /// not, nothing has changed. Costs a few steps.
    #[inline(always)]
    pub fn load_front(&mut self, space: u16, address: u64, into: &mut [u8]) -> bool
        requires some { 0 < length into.old }
        requires one_line { address % LINE_BYTES + length into.old ≤ LINE_BYTES }
        ensures access { result ≡ true
            → Reads (state_of self.old) space readable address (length into.old) (Ok tt) }
        ensures bytes { result ≡ true
            → into.new ≡ bytes_at (memory_of (state_of self.old) space) address (length into.old) }
        ensures kept { length into.new ≡ length into.old }
        ensures same { self.new.pages ≡ self.old.pages }
        ensures front { result ≡ true
            → IsFront space (address / PAGE_BYTES) (translations_of self.old) }
        ensures translations { result ≡ true
            → translations_of self.new ≡ with_hits 1 (translations_of self.old) }
        ensures unmoved { result ≡ false → self.new ≡ self.old }
    {
        load_front(
            &self.pages,
            &mut self.cache,
            &mut self.fronts,
            space,
            address,
            into,
        )
    }

    /// As `store`, of bytes in one line, where that can be written where it stands and its page is known to be at the front of its list.
    /// Answers whether it was done; where not, nothing has changed. Costs a few steps.
    #[inline(always)]
    pub fn store_front(&mut self, space: u16, address: u64, bytes: &[u8]) -> bool
        requires some { 0 < length bytes.now }
        requires one_line { address % LINE_BYTES + length bytes.now ≤ LINE_BYTES }
        ensures stores { result ≡ true
            → Stores self.old.pages self.new.pages space address bytes.now (Ok tt) }
        ensures front { result ≡ true
            → IsFront space (address / PAGE_BYTES) (translations_of self.old) }
        ensures translations { result ≡ true
            → translations_of self.new ≡ with_hits 1 (translations_of self.old) }
        ensures kept { result ≡ false → self.new ≡ self.old }
        ensures small { AreOverlaysSmall (state_of self.new) }
    {
        store_front(
            &mut self.pages,
            &mut self.cache,
            &mut self.fronts,
            space,
            address,
            bytes,
        )
    }

    /// As `write`, for an instruction.
    #[inline]
    pub fn store(&mut self, space: u16, address: u64, bytes: &[u8]) -> Result<(), MemoryError>
        requires there { holds_space (state_of self.old) space ≡ true }
        requires none_awaits { NoneAwaits (state_of self.old) space }
        requires few { length bytes.now ≤ PAGE_BYTES }
        ensures stores { Stores self.old.pages self.new.pages space address bytes.now result }
        ensures translations { translations_of self.new
            ≡ after_access self.old space (access_at writable address (length bytes.now)) }
        ensures small { AreOverlaysSmall (state_of self.new) }
    {
        if is_in_line(address, bytes.len()) {
            let came = store_line(
                &mut self.pages,
                &mut self.cache,
                &mut self.fronts,
                space,
                address,
                bytes,
            );
            return result_at(address, came);
        }
        translate_access(
            &self.pages,
            &mut self.cache,
            &mut self.fronts,
            space,
            address,
            bytes.len(),
            Perms::W,
        );
        self.fronts.clear();
        write_pages(&mut self.pages, &mut self.cache, space, address, bytes)
    }

    /// Whether a page that is there is alone: its frame isn't the zero frame, and no other page of any space names it. Costs a
    /// look-up.
    #[inline]
    pub fn is_alone(&self, space: u16, page: u64) -> bool
        requires there { IsSome (page_in (state_of self.now) space page) }
        ensures { result ≡ is_alone (books (state_of self.now)) space page }
    {
        self.pages.is_alone(space, page)
    }

    /// The number of the frame of a page that is there. None exactly where it is on the zero frame. Costs a look-up.
    pub fn frame_of(&self, space: u16, page: u64) -> Option<u32>
        requires there { IsSome (page_in (state_of self.now) space page) }
        ensures frame { option_map (λ x. frame_but_zero (state_of self.now).zero_frame x.entry.frame)
            (page_in (state_of self.now) space page) ≡ Some result }
        ensures low { IfSome result (λ frame. frame < MOST_FRAMES) }
        ensures joined { IsJoined self.now.pages }
    {
        self.pages.frame_of(space, page)
    }

    /// A page that is there, with all that `rebase_found` has to know. Costs a look-up of the page, and one of its overlay.
    pub fn find_page(&self, space: u16, page: u64) -> FoundPage
        requires there { IsSome (page_in (state_of self.now) space page) }
        ensures found { IsFoundPageAt self.now.pages space page result }
    {
        match self.pages.find_page(space, page) {
            Some(found) => found,
            None => unreachable!(),
        }
    }

    /// The number of the frame of a page that was found. None exactly where it is on the zero frame. Costs a step.
    pub fn frame_of_found(&self, page: &FoundPage) -> Option<u32>
        requires { IsFoundPage self.now.pages.table page.now }
        ensures frame { option_map (λ x. frame_but_zero (state_of self.now).zero_frame x.entry.frame)
            (page_in (state_of self.now) page.now.space page.now.page) ≡ Some result }
        ensures low { IfSome result (λ frame. frame < MOST_FRAMES) }
    {
        self.pages.frame_of_found(page)
    }

    /// The permissions of a page that is there. Costs a look-up.
    pub fn perms_of(&self, space: u16, page: u64) -> Perms
        requires there { IsSome (page_in (state_of self.now) space page) }
        ensures perms { option_map (λ x. x.entry.perms) (page_in (state_of self.now) space page)
            ≡ Some result }
        ensures joined { IsJoined self.now.pages }
    {
        self.pages.perms_of(space, page)
    }

    /// The own lines of a page that is there. Costs a look-up.
    #[inline]
    pub fn lines_of(&self, space: u16, page: u64) -> Bits
        requires there { IsSome (page_in (state_of self.now) space page) }
        ensures own { option_map (λ x. x.own) (page_in (state_of self.now) space page)
            ≡ Some result }
        ensures joined { IsJoined self.now.pages }
    {
        self.pages.lines_of(space, page)
    }

    /// The own lines of a page that is there and alone go into its frame. Takes no memory. Costs a copy of each own line, and
    /// moves that copy 60 lines at most.
    pub fn commit_page(&mut self, space: u16, page: u64)
        requires there { IsSome (page_in (state_of self.old) space page) }
        requires alone { is_alone (books (state_of self.old)) space page ≡ true }
        ensures state { state_of self.new ≡ altered_page committed (state_of self.old) space page }
        ensures few { MovesFewBeside space page self.old.pages.table self.new.pages.table }
        ensures translations { translations_of self.new ≡ flushed space (translations_of self.old) }
    {
        self.fronts.clear();
        self.pages.commit_page(space, page);
        self.cache.flush(space);
    }

    /// A page that is overlaid, and isn't alone, gets a new frame with its lines, and has no own lines any more. The units after
    /// it are there. Takes no memory. Costs a copy of the page, and moves that copy 60 lines at most.
    pub fn copy_commit_page(&mut self, space: u16, page: u64)
        requires overlaid { IfSome (page_in (state_of self.old) space page)
            (λ x. 0 < length x.own) }
        requires there { IsSome (page_in (state_of self.old) space page) }
        requires shared { is_alone (books (state_of self.old)) space page ≡ false }
        requires none_awaits { NoneAwaits (state_of self.old) space }
        requires room { HasCopyRoom (state_of self.old) space page }
        ensures copied { IfSome (page_in (state_of self.old) space page)
            (λ x. IsPlaced (state_of self.old) (state_of self.new) space page
            (λ frame. copied frame x)) }
        ensures few { MovesFewBeside space page self.old.pages.table self.new.pages.table }
        ensures translations { translations_of self.new ≡ flushed space (translations_of self.old) }
    {
        self.fronts.clear();
        self.pages.copy_commit_page(space, page);
        self.cache.flush(space);
    }

    /// The overlay of a page that is there is given up. Takes no memory. Costs moves that copy 60 lines at most.
    pub fn discard_page(&mut self, space: u16, page: u64)
        requires there { IsSome (page_in (state_of self.old) space page) }
        ensures state { state_of self.new ≡ altered_page discarded (state_of self.old) space page }
        ensures few { MovesFewBeside space page self.old.pages.table self.new.pages.table }
        ensures translations { translations_of self.new ≡ flushed space (translations_of self.old) }
    {
        self.fronts.clear();
        self.pages.discard_page(space, page);
        self.cache.flush(space);
    }

    /// A page that is alone comes onto the frame of another page, and gives its own up: what differs there becomes its own lines. No page
    /// of its space is on that frame, unless it is the zero frame, and at most 31 lines are apart. Neither space is speculating, and no
    /// page of the first one awaits. Every memory stays. Takes no memory. Costs a comparison of each line, two copies of each line that
    /// is apart, and moves that copy 60 lines at most.
    pub fn rebase_page(&mut self, space: u16, page: u64, from: u16, other: u64)
        requires there { IsSome (page_in (state_of self.old) space page) }
        requires theirs { IsSome (page_in (state_of self.old) from other) }
        requires settled { (space_in (state_of self.old) space).speculating ≡ false }
        requires settled_from { (space_in (state_of self.old) from).speculating ≡ false }
        requires none_awaits { NoneAwaits (state_of self.old) space }
        requires can { CanRebase (state_of self.old) space page from other }
        ensures rebased { HasRebased (state_of self.old) (state_of self.new) space page from other }
        ensures translations { translations_of self.new ≡ flushed space (translations_of self.old) }
    {
        let found = self.find_page(space, page);
        let theirs = self.find_page(from, other);
        match self.rebase_found(&found, &theirs, PAGE_LINES as u32) {
            None => {}
            Some(_) => unreachable!(),
        }
    }

    /// As `rebase_page`, of pages that were found, where it isn't known how many lines are apart: None where it is done. Else how many they
    /// are, which are more than 31; of more than `most`, at least 31, it may tell fewer, and more than `most`. The comparison ends there.
    /// Looks no page up.
    pub fn rebase_found(&mut self, page: &FoundPage, theirs: &FoundPage, most: u32) -> Option<u32>
        requires found { IsFoundPage self.old.pages.table page.now }
        requires theirs { IsFoundPage self.old.pages.table theirs.now }
        requires asked { CanCompare (state_of self.old) page.now.space page.now.page
            theirs.now.space theirs.now.page }
        requires most { MOST_OWN ≤ most }
        ensures { RebasesAlike self.old self.new page.now.space page.now.page
            theirs.now.space theirs.now.page most result }
    {
        let lines = lines_apart(&self.pages, page, theirs, most);
        if lines.len() > MOST_OWN {
            return Some(lines.len());
        }
        self.fronts.clear();
        self.pages.rebase_found(page, theirs, lines);
        self.cache.flush(page.space);
        None
    }

    /// Shares a page with a space in which it awaits as the least, with the frame that it has: it gets its lines, and an overlay
    /// of its own. The units after it are there, and the space that has it isn't speculating. Takes no memory. Costs a copy of each own line.
    pub fn share_page(&mut self, from: u16, to: u16, page: u64)
        requires there { IsSome (page_in (state_of self.old) from page) }
        requires settled { (space_in (state_of self.old) from).speculating ≡ false }
        requires space { holds_space (state_of self.old) to ≡ true }
        requires least { IsLeast (space_in (state_of self.old) to).awaiting page }
        requires frame { AwaitsLike (state_of self.old) from to page }
        requires room { HasShareRoom (state_of self.old) from page }
        ensures state { state_of self.new ≡ with_shared (state_of self.old) from to page }
        ensures translations { translations_of self.new ≡ translations_of self.old }
    {
        self.fronts.clear();
        self.pages.share_page(from, to, page);
    }

    /// Shares each page below one that awaits in another space, with the frame that it has there and without own lines: the least
    /// first. Takes no memory. Costs a step for each of them.
    pub fn share_bare(&mut self, from: u16, to: u16, until: u64)
        requires differ { from ≢ to }
        requires space { holds_space (state_of self.old) to ≡ true }
        requires bare { AwaitBare (state_of self.old) from to until }
        ensures shared { AreShared from to until (state_of self.old) (state_of self.new) }
        ensures none { NoneAwaitsBelow (state_of self.new) to until }
        ensures translations { translations_of self.new ≡ translations_of self.old }
    {
        self.fronts.clear();
        self.pages.share_bare(from, to, until);
    }

    /// No two free blocks below a frame are equal in size: that holds between calls, so there is nothing to move. No view and no units
    /// change; frames and segments of 4 KiB stay where they are. Takes no memory. Costs a few steps.
    pub fn compact(&mut self)
        ensures state { state_of self.new ≡ state_of self.old }
        ensures settled { HasSettledBlocks self.new.pages }
        ensures whole { KeepsWholeBlocks self.old.pages self.new.pages }
        ensures translations { translations_of self.new ≡ translations_of self.old }
    {
        self.fronts.clear();
        self.pages.compact();
    }

    /// A table with the entries of a space's pages, of which none awaits, or want of memory. Costs a step for each page.
    pub fn copy_table(&mut self, from: u16, to: u16) -> Result<PageTable, AllocError>
        requires there { holds_space (state_of self.old) from ≡ true }
        requires none_awaits { NoneAwaits (state_of self.old) from }
        requires space { holds_space (state_of self.old) to ≡ true }
        ensures table { IfOk result (λ table. table.pages ≡ entries_in (state_of self.old) from) }
        ensures once { IfOk result (λ table. NamesOnce (state_of self.old).zero_frame table.pages) }
        ensures same { self.new ≡ self.old }
    {
        self.pages.copy_table(from)
    }

    /// Gives a space that has no page, and of which none awaits, a table that names no frame but the zero frame twice. Its
    /// pages await `share_page`, and are in no ledger until then. Takes no memory.
    pub fn adopt_table(&mut self, to: u16, table: PageTable)
        requires there { holds_space (state_of self.old) to ≡ true }
        requires empty { (space_in (state_of self.old) to).pages ≡ map.empty }
        requires none_awaits { NoneAwaits (state_of self.old) to }
        requires once { NamesOnce (state_of self.old).zero_frame table.pages }
        ensures state { state_of self.new ≡ put_awaiting (state_of self.old) to table.pages }
        ensures translations { translations_of self.new ≡ translations_of self.old }
    {
        self.fronts.clear();
        self.pages.adopt_table(to, table);
    }

    /// How many pages a space has.
    pub fn pages(&self, space: u16) -> u32
        ensures count { result ≡ map.len (space_in (state_of self.now) space).pages }
        ensures few { result ≤ PAGE_END }
    {
        self.pages.pages(space)
    }

    /// No two pages of a space have one frame, but for the zero frame. It does nothing but say so.
    pub fn see_apart(&self, space: u16)
        ensures { ArePagesApart (state_of self.now) space }
    {
        let _pages = self.pages.pages(space);
    }

    /// The least page of a space not below one. None exactly where none is. Costs a look-up.
    pub fn next_page(&self, space: u16, page: u64) -> Option<u64>
        ensures { IsNextPage (state_of self.now) space page result }
    {
        self.pages.next_page(space, page)
    }

    /// The least of the `n` pages from one on that isn't there. None exactly where all are. Pages end at 2^26, and no page of the space
    /// awaits. Costs a look-up for each run of pages.
    pub fn first_absent(&self, space: u16, page: u64, n: u32) -> Option<u64>
        requires none_awaits { NoneAwaits (state_of self.now) space }
        requires low { page + n ≤ PAGE_END }
        ensures { IsFirstAbsent (state_of self.now) space page n result }
    {
        let end = page + u64::from(n);
        let mut at = page;
        'going: while at < end {
            let there = self.pages.pages_from(space, at);
            if there == 0 {
                return Some(at);
            }
            at += u64::from(there);
        }
        None
    }

    /// How many pages from one on are there, on the zero frame and without own lines. It may tell fewer than there are. No page of the
    /// space awaits. Costs two look-ups.
    pub fn zeros_from(&self, space: u16, page: u64) -> u32
        requires there { holds_space (state_of self.now) space ≡ true }
        requires none_awaits { NoneAwaits (state_of self.now) space }
        ensures zeros { AreZeros (state_of self.now) space page result }
        ensures low { 0 < result → page + result ≤ PAGE_END }
    {
        self.pages.zeros_from(space, page)
    }

    /// Whether a page is there. Costs a look-up.
    pub fn has_page(&self, space: u16, page: u64) -> bool
        ensures there { result ≡ is_some (page_in (state_of self.now) space page) }
    {
        match self.pages.next_page(space, page) {
            Some(found) => found == page,
            None => false,
        }
    }

    /// The least page of a space not below one that has own lines. None exactly where none has. Costs a look-up.
    pub fn next_overlaid(&self, space: u16, page: u64) -> Option<u64>
        requires there { holds_space (state_of self.now) space ≡ true }
        ensures next { IsNextOwn (books (state_of self.now)) space page result }
        ensures joined { IsJoined self.now.pages }
    {
        self.pages.next_overlaid(space, page)
    }

    /// Sets or takes away the mark of a space: away only where none of its pages has 32 own lines or more. Takes no memory.
    pub fn set_speculating(&mut self, space: u16, on: bool)
        requires there { holds_space (state_of self.old) space ≡ true }
        requires small { on ≡ false → NoneLarge (books (state_of self.old)) space }
        ensures state { state_of self.new ≡ put_mark (state_of self.old) space on }
        ensures small { AreOverlaysSmall (state_of self.new) }
        ensures translations { translations_of self.new ≡ flushed space (translations_of self.old) }
    {
        self.fronts.clear();
        self.pages.set_speculating(space, on);
        self.cache.flush(space);
    }

    /// Whether a space is marked as speculating. Where it isn't, each of its pages has at most 31 own lines.
    #[inline]
    pub fn is_speculating(&self, space: u16) -> bool
        ensures mark { result ≡ (space_in (state_of self.now) space).speculating }
        ensures small { result ≡ false → NoneLarge (books (state_of self.now)) space }
        ensures joined { IsJoined self.now.pages }
    {
        self.pages.is_speculating(space)
    }

    /// Where a line of a page that is there stands: the number of its line in the region. Costs a look-up.
    pub fn place(&self, space: u16, page: u64, line: u8) -> u32
        requires there { IsSome (page_in (state_of self.now) space page) }
        requires line { line < PAGE_LINES }
        ensures place { result ≡ place_at self.now.pages space page line }
        ensures own { HasOwnPlace self.now.pages space page line }
        ensures inside { result < PAGE_LINES * (state_of self.now).frames }
        ensures joined { IsJoined self.now.pages }
    {
        self.pages.place(space, page, line)
    }

    /// Lends a line, that can be written where it stands, of a page that is there. What the borrower leaves is the region's line
    /// at the place, and nothing else of the region or of the tables changes. Costs a look-up.
    #[inline]
    pub fn line_mut(&mut self, space: u16, page: u64, line: u8) -> &mut [u8; 64]
        requires there { IsSome (page_in (state_of self.old) space page) }
        requires line { line < PAGE_LINES }
        requires writable { is_writable (state_of self.old) space page line ≡ true }
        ensures* writes_back { sem 𝓛 (Lends the_row (Array byte 0) self.entry result
            (with_region_line self.old (place_at self.old.pages space page line))) }
        ensures value { option_map (λ x. line_in_page x.lines line)
            (page_in (state_of self.old) space page) ≡ Some result.now }
        ensures state { (bytes : List ℕ)
            → state_of (with_region_line self.old (place_at self.old.pages space page line) bytes)
            ≡ with_written (state_of self.old) space page line bytes }
    {
        self.fronts.clear();
        self.pages.line_mut(space, page, line)
    }

    /// Removes the translations of a space. Costs a look at each entry.
    pub fn forget_translations(&mut self, space: u16)
        ensures pages { self.new.pages ≡ self.old.pages }
        ensures translations { translations_of self.new ≡ flushed space (translations_of self.old) }
    {
        self.fronts.clear();
        self.cache.flush(space);
    }

    /// How many pages accesses found the entry of. It stays at 2^64 - 1.
    pub fn hits(&self) -> u64
        ensures hits { result ≡ (translations_of self.now).hits }
        ensures formed { IsFormed (translations_of self.now) }
        ensures held { AreTrue (state_of self.now) self.now.cache }
    {
        self.cache.hits()
    }

    /// How many they didn't. It stays at 2^64 - 1.
    pub fn misses(&self) -> u64
        ensures misses { result ≡ (translations_of self.now).misses }
        ensures formed { IsFormed (translations_of self.now) }
        ensures held { AreTrue (state_of self.now) self.now.cache }
    {
        self.cache.misses()
    }

    /// The units of the ledger. Costs a step.
    #[inline]
    pub fn units(&self) -> u32
        ensures sum { result ≡ units_of (state_of self.now) }
        ensures fits { Fits (state_of self.now) }
        ensures few { result ≤ MOST_UNITS }
    {
        self.pages.units()
    }

    /// The most units that there may be: 16 for each frame. Costs a step.
    #[inline]
    pub fn limit(&self) -> u32
        ensures limit { result ≡ limit_of (state_of self.now) }
        ensures few { result ≤ MOST_UNITS }
    {
        self.pages.limit()
    }

    /// What is short where so many units are needed. None exactly where they are within the limit. Costs a step.
    pub fn shortage(&self, needed: u32) -> Option<Shortage>
        ensures { FallsShort needed (limit_of (state_of self.now)) result }
    {
        shortage_of(needed, self.pages.limit())
    }

    /// How many own lines all pages have. Costs a step.
    #[inline]
    pub fn lines(&self) -> u32
        ensures { result ≡ own_lines (books (state_of self.now)) }
    {
        self.pages.lines()
    }
}
