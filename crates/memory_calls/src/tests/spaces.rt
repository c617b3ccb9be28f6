//! A memory in which no page awaits: whatever a call asks for is tried first.

ghost use Rattle.std.specs.Prelude.{◌≡◌, ◌+◌, ◌<◌, ◌≤◌, IfSome, IsTrue, IsSome, None, false, length, true};
ghost use Rattle.sizes.specs.declared.TheConstants.{PAGE_END, PAGE_LINES};
ghost use Rattle.overlay_pages.specs.Changes.{AreAbsent, HasCopyRoom, is_writable};
ghost use Rattle.overlay_memory.specs.View.{state_of};
ghost use Rattle.ledger.specs.LargeLaws.{NoneLarge};
ghost use Rattle.overlay_pages.specs.State.{books};
ghost use Rattle.space_maps.specs.Spaces.{holds_space, page_in, space_in};

use bitflags::Flags;
use fork_checkpoint::{fork_space, restore_space};
use overlay_memory::{MemoryError, OverlayMemory, SpaceError};
use ovl_io::Perms;
use page_dedup::{DedupError, deduplicate, deduplicate_all};
use page_table::PageTable;
use sizes::PAGE_BYTES;
use space_ledger::class_of;
use std::alloc::{AllocError, Global};
use std::marker::Model;
use std::process::Abort;

// A page that may be read and written.
pub(super) fn open() -> Perms {
    Perms::R.union(Perms::W)
}

// Whether no page of a space that is there has 32 own lines or more.
fn is_small(memory: &OverlayMemory, space: u16) -> bool
    requires { holds_space (state_of memory.now) space ≡ true }
    ensures { IsTrue result → NoneLarge (books (state_of memory.now)) space }
{
    let mut from = 0;
    'looking: while let Some(page) = memory.next_overlaid(space, from) {
        if memory.lines_of(space, page).len() >= 32 {
            return false;
        }
        from = page + 1;
    }
    true
}

// A memory in which no page of any space awaits.
#[derive(Drop)]
pub(super) struct Spaces {
    pub(super) memory: OverlayMemory,
}

impl Model for Spaces {
    ghost use Rattle.std.specs.Prelude.{ℕ};
    ghost use Rattle.overlay_memory.specs.View.{NoneAwaits, TranslatedView, state_of};
    ghost use Rattle.overlay_memory.specs.Codes.{translated_code};

    ghost Value = { TranslatedView };

    ghost coded = { translated_code };

    ghost view = { λ m. m.memory };

    ghost invariant = { λ m. (q : ℕ) → NoneAwaits (state_of m.memory) q };
}

impl Spaces {
    pub(super) fn new(rt: &impl Abort, alloc: Global, frames: u32) -> Result<Spaces, AllocError> {
        assert!(rt; 0 < frames && frames < 1000);
        Ok(Spaces {
            memory: OverlayMemory::new(alloc, frames)?,
        })
    }

    // Whether a page is there.
    fn has_page(&self, space: u16, page: u64) -> bool
        ensures { IsTrue result → IsSome (page_in (state_of self.now) space page) }
    {
        match self.memory.next_page(space, page) {
            Some(found) => found == page,
            None => false,
        }
    }

    // Whether none of the n pages from `from` on is there.
    fn is_free(&self, space: u16, from: u64, n: u32) -> bool
        requires { from + n ≤ PAGE_END }
        ensures { IsTrue result → AreAbsent (state_of self.now) space from n }
    {
        match self.memory.next_page(space, from) {
            Some(found) => from + u64::from(n) <= found,
            None => true,
        }
    }

    // Whether a page isn't there.
    fn is_absent(&self, space: u16, page: u64) -> bool
        ensures { IsTrue result → page_in (state_of self.now) space page ≡ None }
    {
        match self.memory.next_page(space, page) {
            Some(found) => page < found,
            None => true,
        }
    }

    // Whether a line of a page that is there can be written where it stands.
    fn is_writable(&self, space: u16, page: u64, line: u8) -> bool
        requires there { IsSome (page_in (state_of self.now) space page) }
        requires line { line < PAGE_LINES }
        ensures { result ≡ is_writable (state_of self.now) space page line }
    {
        if self.memory.lines_of(space, page).has(line) {
            true
        } else {
            !self.memory.is_speculating(space) && self.memory.is_alone(space, page)
        }
    }

    // Makes a space that isn't there.
    pub(super) fn add_space(&mut self, rt: &impl Abort, space: u16) -> Result<(), AllocError> {
        assert!(rt; 0 < space && space < 32_768 && !self.memory.has_space(space));
        self.memory.add_space(space)
    }

    // Maps n pages, which aren't there, on the zero frame.
    pub(super) fn map_zero(
        &mut self,
        rt: &impl Abort,
        space: u16,
        page: u64,
        n: u32,
        perms: Perms,
    ) -> Result<(), AllocError> {
        assert!(rt; self.memory.has_space(space) && self.memory.pages(space) < 1000);
        assert!(rt; page < 1000 && n < 1000 && self.is_free(space, page, n));
        self.memory.map_zero(space, page, n, perms)
    }

    // The first of n pages from one on that isn't there.
    pub(super) fn first_absent(
        &self,
        rt: &impl Abort,
        space: u16,
        page: u64,
        n: u32,
    ) -> Option<u64> {
        assert!(rt; page < 1000 && n < 1000);
        self.memory.first_absent(space, page, n)
    }

    // Takes away n pages that are there.
    pub(super) fn unmap(&mut self, rt: &impl Abort, space: u16, page: u64, n: u32) {
        assert!(rt; page < 1000 && n < 1000);
        match self.memory.first_absent(space, page, n) {
            Some(_) => panic!(rt; "page {page} and those behind it are there"),
            None => self.memory.unmap(space, page, n),
        }
    }

    // Moves segments until no two free blocks below a frame are equal in size.
    pub(super) fn compact(&mut self) {
        self.memory.compact();
    }

    // Places a page that isn't there.
    pub(super) fn place_page(
        &mut self,
        rt: &impl Abort,
        space: u16,
        page: u64,
        perms: Perms,
        bytes: &[u8; PAGE_BYTES],
    ) -> Result<(), SpaceError> {
        assert!(rt; self.memory.has_space(space) && self.memory.pages(space) < 1000);
        assert!(rt; page < 1000 && self.is_absent(space, page));
        self.memory.place_page(space, page, perms, bytes)
    }

    // Stores at most 4096 bytes in a space that is there.
    pub(super) fn write(
        &mut self,
        rt: &impl Abort,
        space: u16,
        address: u64,
        bytes: &[u8],
    ) -> Result<(), MemoryError> {
        assert!(rt; self.memory.has_space(space) && bytes.len() <= PAGE_BYTES);
        self.memory.write(space, address, bytes)
    }

    // Reads bytes of a space that is there.
    pub(super) fn read(
        &self,
        rt: &impl Abort,
        space: u16,
        address: u64,
        into: &mut [u8],
    ) -> Result<(), MemoryError> {
        assert!(rt; self.memory.has_space(space));
        self.memory.read(space, address, into)
    }

    // Byte 1 of the line that is lent becomes this one. The line can be written where it stands.
    pub(super) fn set_byte_1(
        &mut self,
        rt: &impl Abort,
        space: u16,
        page: u64,
        line: u8,
        byte: u8,
    ) {
        assert!(rt; line < 64 && self.has_page(space, page));
        assert!(rt; self.is_writable(space, page, line));
        self.memory.line_mut(space, page, line)[1] = byte;
    }

    // The own lines of a page that is there are given up.
    pub(super) fn discard_page(&mut self, rt: &impl Abort, space: u16, page: u64) {
        assert!(rt; self.has_page(space, page));
        self.memory.discard_page(space, page);
    }

    // The own lines of a page that is there and alone go into its frame.
    pub(super) fn commit_page(&mut self, rt: &impl Abort, space: u16, page: u64) {
        assert!(rt; self.has_page(space, page) && self.memory.is_alone(space, page));
        self.memory.commit_page(space, page);
    }

    // Whether a page that is there has own lines, and the units suffice for a copy of it.
    fn has_copy_room(&self, space: u16, page: u64) -> bool
        requires { IsSome (page_in (state_of self.now) space page) }
        ensures overlaid { IsTrue result
            → IfSome (page_in (state_of self.now) space page) (λ x. 0 < length x.own) }
        ensures room { IsTrue result → HasCopyRoom (state_of self.now) space page }
        ensures there { IsSome (page_in (state_of self.now) space page) }
    {
        let own = self.memory.lines_of(space, page).len();
        let class = class_of(own);
        own > 0 && class <= 16 && self.memory.units() + 16 <= self.memory.limit() + class
    }

    // The same, of a page that has to be there.
    pub(super) fn can_copy(&self, rt: &impl Abort, space: u16, page: u64) -> bool {
        assert!(rt; self.has_page(space, page));
        self.has_copy_room(space, page)
    }

    // The own lines of a page that is there and not alone go into a new frame, for which there is room.
    pub(super) fn copy_commit_page(&mut self, rt: &impl Abort, space: u16, page: u64) {
        assert!(rt; self.has_page(space, page) && !self.memory.is_alone(space, page));
        assert!(rt; self.has_copy_room(space, page));
        self.memory.copy_commit_page(space, page);
    }

    // Gives up a space that is there, with its pages.
    pub(super) fn drop_space(&mut self, rt: &impl Abort, space: u16) {
        assert!(rt; self.memory.has_space(space));
        self.memory.drop_space(space);
    }

    // Sets the mark of a space that is there, or takes it away where no page has 32 own lines or more.
    pub(super) fn set_speculating(&mut self, rt: &impl Abort, space: u16, on: bool) {
        assert!(rt; self.memory.has_space(space));
        assert!(rt; on || is_small(&self.memory, space));
        self.memory.set_speculating(space, on);
    }

    // The entries of a space that is there, or want of memory.
    pub(super) fn copy_table(
        &mut self,
        rt: &impl Abort,
        space: u16,
    ) -> Result<PageTable, AllocError> {
        assert!(rt; self.memory.has_space(space));
        self.memory.copy_table(space, space)
    }

    // Makes a space with the pages of another one, which isn't speculating.
    pub(super) fn fork(&mut self, rt: &impl Abort, from: u16, to: u16) -> Result<(), SpaceError> {
        assert!(rt; self.memory.has_space(from) && !self.memory.is_speculating(from));
        assert!(rt; 0 < to && to < 32_768 && !self.memory.has_space(to));
        fork_space(&mut self.memory, from, to)
    }

    // Gives a space the pages of another one in the place of its own. Neither is speculating.
    pub(super) fn restore(
        &mut self,
        rt: &impl Abort,
        saved: u16,
        into: u16,
    ) -> Result<(), SpaceError> {
        assert!(rt; saved != into);
        assert!(rt; self.memory.has_space(saved) && !self.memory.is_speculating(saved));
        assert!(rt; self.memory.has_space(into) && !self.memory.is_speculating(into));
        restore_space(&mut self.memory, saved, into)
    }

    // Whether a space is there and isn't speculating.
    fn is_settled(&self, space: u16) -> bool
        ensures there { IsTrue result → holds_space (state_of self.now) space ≡ true }
        ensures settled { IsTrue result → (space_in (state_of self.now) space).speculating ≡ false }
    {
        self.memory.has_space(space) && !self.memory.is_speculating(space)
    }

    // The frame of a page that is there, which may be the zero frame.
    pub(super) fn frame_of(&self, rt: &impl Abort, space: u16, page: u64) -> Option<u32> {
        assert!(rt; self.has_page(space, page));
        self.memory.frame_of(space, page)
    }

    // The permissions of a page that is there.
    pub(super) fn perms_of(&self, rt: &impl Abort, space: u16, page: u64) -> Perms {
        assert!(rt; self.has_page(space, page));
        self.memory.perms_of(space, page)
    }

    // The bytes of a line of a page that is there become this one. Its space isn't speculating, and 16 units are left.
    #[tactic(auto, using(overlay_memory::specs::PutLaws::put_fits))]
    pub(super) fn put_line(&mut self, rt: &impl Abort, space: u16, page: u64, line: u8, byte: u8) {
        assert!(rt; line < 64 && self.has_page(space, page) && self.is_settled(space));
        assert!(rt; self.memory.units() + 16 <= self.memory.limit());
        self.memory.put_line(space, page, line, &[byte; 64]);
    }

    // Puts a page on another one. Both are there, and their spaces aren't speculating.
    pub(super) fn deduplicate(
        &mut self,
        rt: &impl Abort,
        space: u16,
        page: u64,
        from: u16,
        other: u64,
    ) -> Result<(), DedupError> {
        assert!(rt; self.has_page(space, page) && self.has_page(from, other));
        assert!(rt; self.is_settled(space) && self.is_settled(from));
        deduplicate(&mut self.memory, space, page, from, other)
    }

    // Puts the pages of a space on those of another one. Neither is speculating.
    pub(super) fn deduplicate_all(&mut self, rt: &impl Abort, space: u16, from: u16) -> u32 {
        assert!(rt; self.is_settled(space) && self.is_settled(from));
        deduplicate_all(&mut self.memory, space, from)
    }
}
