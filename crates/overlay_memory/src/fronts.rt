//! What is known of pages, as the tables have them: those that were found before, with the places of their lines, and of each list of
//! translations the page at its front.

ghost use Rattle.std.specs.Prelude.{◌≡◌, ◌<◌, IfOk, IfSome};
ghost use Rattle.sizes.specs.declared.TheConstants.{PAGE_LINES};
ghost use Rattle.overlay_memory.specs.Epochs.{known_at, known_first};
ghost use Rattle.overlay_memory.specs.Fronts.{IsClear, TellsNone, with_brought, with_found, with_read_at, with_write_at};
ghost use Rattle.overlay_pages.specs.declared.spots.TheConstants.{NO_PAGE};

use crate::epochs::{KnownPage, SeenPages};
use overlay_pages::FoundPage;
use std::alloc::{AllocError, Global};

/// What is known of pages. It changes no answer, and no count: an access to a line of a page at the front of its list looks at no table, and at
/// nothing but the line's place where that is known; and one to another page that was found looks at its list alone.
#[derive(Drop)]
pub(crate) struct Fronts {
    seen: SeenPages,
    // false only where nothing is known, so that what is forgotten a page at a time is cleared once
    any: bool,
}

impl Fronts {
    /// Nothing is known. Takes all the memory that it ever needs, or answers the want of it.
    pub(crate) fn new(alloc: Global) -> Result<Fronts, AllocError>
        ensures { IfOk result (λ made. IsClear made) }
    {
        let seen = SeenPages::new(alloc)?;
        Ok(Fronts { seen, any: false })
    }

    /// Forgets all pages.
    #[inline]
    pub(crate) fn clear(&mut self)
        requires { TellsNone self.old }
        ensures { IsClear self.new }
    {
        if self.any {
            self.seen.clear();
            self.any = false;
        }
    }

    /// A page, where it is known to be at the front of its list.
    #[inline(always)]
    pub(crate) fn page(&self, space: u16, page: u64) -> Option<&KnownPage>
        ensures { IfSome result (λ known. (known.now.found.space ≡ space) × (known.now.found.page ≡ page)
            × (known_first self.now.seen page ≡ known.now)) }
    {
        self.seen.front(space, page)
    }

    /// A page, where it is known since it was found, wherever it is in its list.
    #[inline(always)]
    pub(crate) fn seen(&self, space: u16, page: u64) -> Option<&KnownPage>
        ensures { IfSome result (λ known. (known.now.found.space ≡ space) × (known.now.found.page ≡ page)
            × (known_at self.now.seen space page ≡ known.now)) }
    {
        self.seen.page(space, page)
    }

    /// Puts what was found of a page, or what stands for no page. It is at the front of its list now.
    pub(crate) fn put(&mut self, space: u16, page: u64, found: FoundPage)
        ensures { self.new ≡ with_found space page found self.old }
    {
        self.seen.put(space, page, found);
        self.any = true;
    }

    /// A page that is known is at the front of its list now.
    #[inline(always)]
    pub(crate) fn bring(&mut self, space: u16, page: u64)
        requires { (known_at self.old.seen space page).found.page < NO_PAGE }
        ensures { self.new ≡ with_brought space page self.old }
    {
        self.seen.bring(space, page);
    }

    /// Puts where a line, below 64, of a page that is known is read.
    pub(crate) fn put_read(&mut self, space: u16, page: u64, line: u8, at: u32)
        requires known { (known_at self.old.seen space page).found.page < NO_PAGE }
        requires line { line < PAGE_LINES }
        ensures { self.new ≡ with_read_at space page line at self.old }
    {
        self.seen.put_read(space, page, line, at);
    }

    /// Puts where it is written.
    pub(crate) fn put_write(&mut self, space: u16, page: u64, line: u8, at: u32)
        requires known { (known_at self.old.seen space page).found.page < NO_PAGE }
        requires line { line < PAGE_LINES }
        ensures { self.new ≡ with_write_at space page line at self.old }
    {
        self.seen.put_write(space, page, line, at);
    }
}
