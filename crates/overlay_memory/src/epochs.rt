//! Pages that were found before, with where their lines stand, and which of them are at the front of their lists: all forgotten in one step.

ghost use Rattle.std.specs.Prelude.{◌≡◌, ℕ, ◌%◌, ◌<◌, replicate, slice_set, IfOk, IfSome};
ghost use Rattle.sizes.specs.declared.TheConstants.{PAGE_LINES};
ghost use Rattle.overlay_memory.specs.Epochs.{bare_page, known_at, known_first, nothing_put, nothing_seen, place_of, with_front, with_page, with_read, with_write};
ghost use Rattle.overlay_memory.specs.declared.epochs.TheConstants.{NO_PLACE, SEEN_PAGES};
ghost use Rattle.overlay_pages.specs.declared.spots.TheConstants.{NO_PAGE};
ghost use Rattle.translation_cache.specs.declared.TheConstants.{SETS};

use overlay_pages::FoundPage;
use sizes::PAGE_LINES;
use std::alloc::{AllocError, Global};
use std::marker::Model;
use translation_cache::SETS;

/// How many places there are for pages that were found.
pub(crate) const SEEN_PAGES: usize = 1024;

/// How far apart a page of one space and that of the next one stand, so that the same few pages of a hundred spaces have places of their own.
pub(crate) const SEEN_STEP: u64 = 67;

/// One place more, at which no page ever stands: that of a list at whose front none is known.
const ALL_PLACES: usize = SEEN_PAGES + 1;

/// The number of no line of the region, which has fewer than 2^23.
pub(crate) const NO_PLACE: u32 = u32::MAX;

/// A page that was found, and the numbers in the region of those of its lines that were read and written where they stand: each that of no line
/// where it isn't known that the page may be used so, and that the line can be written there. What has the number of no page says nothing.
#[derive(Clone, Copy)]
pub(crate) struct KnownPage {
    pub(crate) found: FoundPage,
    pub(crate) reads: [u32; PAGE_LINES],
    pub(crate) writes: [u32; PAGE_LINES],
}

/// What was put at a place, and in which epoch. It is known in that epoch alone.
#[derive(Clone, Copy)]
pub(crate) struct Known {
    page: KnownPage,
    epoch: u32,
}

/// What is known of pages that were found, a place for each remainder of their numbers and spaces, and of each list of translations the place
/// of the page at its front. All is forgotten where an epoch ends.
#[derive(Drop)]
pub(crate) struct SeenPages {
    places: Vec<Known>,
    heads: [u32; SETS],
    epoch: u32,
}

impl Model for SeenPages {
    ghost use Rattle.overlay_memory.specs.Epochs.{AreKept, Seen, known_pages};

    ghost Value = { Seen };

    ghost view = { λ s. record { pages = known_pages s.epoch s.places.items; heads = s.heads } };

    ghost invariant = { λ s. AreKept s.epoch s.places.items s.heads };
}

/// The place of a page.
#[inline(always)]
fn place_of(space: u16, page: u64) -> usize
    ensures place { result ≡ place_of space page }
    ensures inside { result < SEEN_PAGES }
{
    ((page % SEEN_PAGES as u64 + SEEN_STEP * u64::from(space)) % SEEN_PAGES as u64) as usize
}

/// The list of a page.
#[inline(always)]
fn set_of(page: u64) -> usize
    ensures set { result ≡ page % SETS }
    ensures inside { result < SETS }
{
    (page % SETS as u64) as usize
}

impl KnownPage {
    /// A page that was found, while it isn't known where a line of it stands.
    #[inline(always)]
    fn bare(found: FoundPage) -> KnownPage
        ensures { result ≡ bare_page found }
    {
        KnownPage {
            found,
            reads: [NO_PLACE; PAGE_LINES],
            writes: [NO_PLACE; PAGE_LINES],
        }
    }

    /// It, where it is the page of this number and space.
    #[inline(always)]
    fn if_same(&self, space: u16, page: u64) -> Option<&KnownPage>
        ensures { IfSome result (λ known. (known.now.found.space ≡ space) × (known.now.found.page ≡ page)
            × (self.now ≡ known.now)) }
    {
        if self.found.page == page && self.found.space == space {
            Some(self)
        } else {
            None
        }
    }
}

/// So many places at which nothing is known.
fn places_alike(alloc: Global, count: usize) -> Result<Vec<Known>, AllocError>
    ensures { IfOk result (λ places. places.items ≡ replicate count nothing_put) }
{
    let mut places = Vec::with_capacity(alloc, count)?;
    'making: while places.len() < count {
        places.push(Known {
            page: KnownPage::bare(FoundPage::none()),
            epoch: 0,
        })?;
    }
    Ok(places)
}

impl SeenPages {
    /// Nothing is known. Takes all the memory that it ever needs, or answers the want of it.
    pub(crate) fn new(alloc: Global) -> Result<SeenPages, AllocError>
        ensures { IfOk result (λ made. made ≡ nothing_seen) }
    {
        let places = places_alike(alloc, ALL_PLACES)?;
        Ok(SeenPages {
            places,
            heads: [SEEN_PAGES as u32; SETS],
            epoch: 0,
        })
    }

    /// A page, where it is known to be at the front of its list.
    #[inline(always)]
    pub(crate) fn front(&self, space: u16, page: u64) -> Option<&KnownPage>
        ensures { IfSome result (λ known. (known.now.found.space ≡ space) × (known.now.found.page ≡ page)
            × (known_first self.now page ≡ known.now)) }
    {
        let place = self.heads[set_of(page)] as usize;
        self.places[place].page.if_same(space, page)
    }

    /// A page, where it is known, wherever it is in its list.
    #[inline(always)]
    pub(crate) fn page(&self, space: u16, page: u64) -> Option<&KnownPage>
        ensures { IfSome result (λ known. (known.now.found.space ≡ space) × (known.now.found.page ≡ page)
            × (known_at self.now space page ≡ known.now)) }
    {
        let known = &self.places[place_of(space, page)];
        if known.epoch != self.epoch {
            return None;
        }
        known.page.if_same(space, page)
    }

    /// Puts what was found of a page, or what stands for no page. It is at the front of its list.
    #[inline]
    pub(crate) fn put(&mut self, space: u16, page: u64, found: FoundPage)
        ensures { self.new ≡ with_front space page (with_page space page (bare_page found) self.old) }
    {
        let place = place_of(space, page);
        self.places[place] = Known {
            page: KnownPage::bare(found),
            epoch: self.epoch,
        };
        self.heads[set_of(page)] = place as u32;
    }

    /// A page that is known comes to the front of its list.
    #[inline(always)]
    pub(crate) fn bring(&mut self, space: u16, page: u64)
        requires { (known_at self.old space page).found.page < NO_PAGE }
        ensures { self.new ≡ with_front space page self.old }
    {
        self.heads[set_of(page)] = place_of(space, page) as u32;
    }

    /// Puts where a line, below 64, of a page that is known is read.
    pub(crate) fn put_read(&mut self, space: u16, page: u64, line: u8, at: u32)
        requires known { (known_at self.old space page).found.page < NO_PAGE }
        requires line { line < PAGE_LINES }
        ensures { self.new ≡ with_page space page
            (with_read line at (known_at self.old space page)) self.old }
    {
        self.places[place_of(space, page)].page.reads[usize::from(line)] = at;
    }

    /// Puts where it is written.
    pub(crate) fn put_write(&mut self, space: u16, page: u64, line: u8, at: u32)
        requires known { (known_at self.old space page).found.page < NO_PAGE }
        requires line { line < PAGE_LINES }
        ensures { self.new ≡ with_page space page
            (with_write line at (known_at self.old space page)) self.old }
    {
        self.places[place_of(space, page)].page.writes[usize::from(line)] = at;
    }

    /// Forgets all pages: the next epoch begins. Behind the last epoch all places are written, and the first one begins again.
    #[inline]
    pub(crate) fn clear(&mut self)
        ensures { self.new ≡ nothing_seen }
    {
        self.heads = [SEEN_PAGES as u32; SETS];
        if self.epoch == u32::MAX {
            self.begin_again();
            return;
        }
        self.epoch += 1;
    }

    /// Forgets all pages, and the first epoch begins. No page is at the front of a list.
    #[cold]
    #[inline(never)]
    fn begin_again(&mut self)
        requires { self.old.heads ≡ replicate SETS SEEN_PAGES }
        ensures { self.new ≡ nothing_seen }
    {
        self.places.fill(Known {
            page: KnownPage::bare(FoundPage::none()),
            epoch: 0,
        });
        self.epoch = 0;
    }
}
