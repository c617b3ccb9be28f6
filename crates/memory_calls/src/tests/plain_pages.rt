//! Pages of three spaces in a plain array, each with the byte that stands first in each of its lines: what a memory in which overlays
//! hold lines has to show, and how many units it has to count.

ghost use Rattle.std.specs.Prelude.{◌<◌, ◌≤◌};

use overlay_memory::{MemoryError, SpaceError};

/// How many spaces there are, how many pages each of them may have, and how many that are.
pub(super) const SPACES: usize = 3;

pub(super) const PAGES: usize = 6;

pub(super) const ALL: usize = 18;

// How many lines a page has.
const LINES: usize = 64;

/// A page.
#[derive(Clone, Copy)]
pub(super) struct PlainPage {
    // the number of its frame; that of the zero frame is 0
    frame: u32,
    // which lines are its own
    own: [bool; LINES],
    // the first byte of each line, as a process sees it
    pub(super) seen: [u8; LINES],
    // and as the frame has it
    base: [u8; LINES],
}

type Pages = [Option<PlainPage>; ALL];

/// The pages, those of a space side by side.
#[derive(Drop)]
pub(super) struct Plain {
    pub(super) pages: Pages,
    // how many units there may be
    limit: u32,
    // how many frames were numbered
    frames: u32,
}

// A page without own lines.
fn whole(frame: u32, seen: [u8; LINES]) -> PlainPage {
    PlainPage {
        frame,
        own: [false; LINES],
        seen,
        base: seen,
    }
}

// How many own lines a page has.
fn own_lines(page: &PlainPage) -> u32 {
    let mut lines = 0u32;
    for own in page.own {
        if own {
            lines = lines.saturating_add(1);
        }
    }
    lines
}

// How many units so many own lines take.
fn class(lines: u32) -> u32 {
    match lines {
        0 => 0,
        1..=3 => 1,
        4..=7 => 2,
        8..=15 => 4,
        16..=31 => 8,
        _ => 16,
    }
}

// How many pages in front of one name a frame.
fn named_before(pages: &Pages, end: usize, frame: u32) -> u32
    requires { end ≤ ALL }
{
    let mut named = 0u32;
    for at in 0..end {
        if let Some(page) = pages[at] {
            if page.frame == frame {
                named = named.saturating_add(1);
            }
        }
    }
    named
}

// How many units a page takes that isn't the first with its frame, or that is.
fn page_units(pages: &Pages, at: usize) -> u32
    requires { at < ALL }
{
    match pages[at] {
        Some(page) => {
            let own = class(own_lines(&page));
            if page.frame == 0 || named_before(pages, at, page.frame) > 0 {
                own
            } else {
                own.saturating_add(16)
            }
        }
        None => 0,
    }
}

// How many units all pages take, with the zero frame.
fn units_of(pages: &Pages) -> u32 {
    let mut units = 16u32;
    for at in 0..ALL {
        units = units.saturating_add(page_units(pages, at));
    }
    units
}

// Lines of a page from one on get a byte at their front, each in the frame, or in the overlay.
fn write_lines(page: &mut PlainPage, line: usize, end: usize, byte: u8, in_frame: bool)
    requires { end ≤ LINES }
{
    for at in line..end {
        page.seen[at] = byte;
        if in_frame && !page.own[at] {
            page.base[at] = byte;
        } else {
            page.own[at] = true;
        }
    }
}

impl Plain {
    /// No page, and so many units.
    pub(super) fn new(limit: u32) -> Plain {
        Plain {
            pages: [None; ALL],
            limit,
            frames: 0,
        }
    }

    /// How many units all pages take.
    pub(super) fn units(&self) -> u32 {
        units_of(&self.pages)
    }

    /// How many own lines all pages have.
    pub(super) fn lines(&self) -> u32 {
        let mut lines = 0u32;
        for page in self.pages.iter().flatten() {
            lines = lines.saturating_add(own_lines(page));
        }
        lines
    }

    /// Whether a page is alone in its frame.
    pub(super) fn is_alone(&self, page: &PlainPage) -> bool {
        page.frame != 0 && named_before(&self.pages, ALL, page.frame) == 1
    }

    /// Whether a page has own lines.
    pub(super) fn is_overlaid(&self, page: &PlainPage) -> bool {
        own_lines(page) > 0
    }

    /// Whether its own lines take as many units as a frame.
    pub(super) fn is_large(&self, page: &PlainPage) -> bool {
        own_lines(page) >= 32
    }

    // A number that no frame had.
    fn new_frame(&mut self) -> u32 {
        self.frames = self.frames.saturating_add(1);
        self.frames
    }

    // There are these pages, if the units suffice for them; else as many units would be needed as are answered.
    fn set(&mut self, pages: Pages) -> Result<(), u32> {
        let units = units_of(&pages);
        if units > self.limit {
            return Err(units);
        }
        self.pages = pages;
        Ok(())
    }

    // The same, of one page.
    fn set_page(&mut self, at: usize, page: PlainPage) -> Result<(), u32>
        requires { at < ALL }
    {
        let mut pages = self.pages;
        pages[at] = Some(page);
        self.set(pages)
    }

    /// Places a page whose bytes are all equal.
    pub(super) fn place(&mut self, at: usize, byte: u8) -> Result<(), SpaceError>
        requires { at < ALL }
    {
        let frame = self.new_frame();
        match self.set_page(at, whole(frame, [byte; LINES])) {
            Ok(()) => Ok(()),
            Err(units) => Err(SpaceError::Full(units, self.limit)),
        }
    }

    /// Maps a page on the zero frame.
    pub(super) fn map_zero(&mut self, at: usize)
        requires { at < ALL }
    {
        self.pages[at] = Some(whole(0, [0; LINES]));
    }

    /// Lines of a page from one on get a byte at their front. Where 32 or more are its own then, and its space isn't speculating, it gets
    /// a frame of its own.
    pub(super) fn write(
        &mut self,
        at: usize,
        page: PlainPage,
        speculating: bool,
        line: usize,
        end: usize,
        byte: u8,
    ) -> Result<(), MemoryError>
        requires at { at < ALL }
        requires end { end ≤ LINES }
    {
        let mut written = page;
        let in_frame = !speculating && self.is_alone(&page);
        write_lines(&mut written, line, end, byte, in_frame);
        if !speculating && !in_frame && self.is_large(&written) {
            written = whole(self.new_frame(), written.seen);
        }
        match self.set_page(at, written) {
            Ok(()) => Ok(()),
            Err(units) => Err(MemoryError::Full(units, self.limit)),
        }
    }

    /// A page's own lines are given up.
    pub(super) fn discard(&mut self, at: usize, page: PlainPage)
        requires { at < ALL }
    {
        self.pages[at] = Some(whole(page.frame, page.base));
    }

    /// A page's own lines go into its frame.
    pub(super) fn commit(&mut self, at: usize, page: PlainPage)
        requires { at < ALL }
    {
        self.pages[at] = Some(whole(page.frame, page.seen));
    }

    /// A page gets a frame of its own, if the units suffice.
    pub(super) fn copy_commit(&mut self, at: usize, page: PlainPage) -> bool
        requires { at < ALL }
    {
        let frame = self.new_frame();
        self.set_page(at, whole(frame, page.seen)).is_ok()
    }

    /// A space gets the pages of another one.
    pub(super) fn fork(&mut self, from: usize, to: usize) -> Result<(), SpaceError>
        requires from { from < SPACES }
        requires to { to < SPACES }
    {
        let mut pages = self.pages;
        for i in 0..PAGES {
            pages[PAGES * to + i] = pages[PAGES * from + i];
        }
        match self.set(pages) {
            Ok(()) => Ok(()),
            Err(units) => Err(SpaceError::Full(units, self.limit)),
        }
    }

    /// A space has no page any more.
    pub(super) fn clear(&mut self, space: usize)
        requires { space < SPACES }
    {
        for i in 0..PAGES {
            self.pages[PAGES * space + i] = None;
        }
    }
}
