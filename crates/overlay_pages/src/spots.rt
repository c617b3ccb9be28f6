//! Pages and their lines as they were found, and where lines stand.

#![tactic(auto, using(crate::proofs::FoundLines::finds))]

ghost use Rattle.std.specs.Prelude.{◌≡◌, ℕ, ◌+◌, ◌<◌, ◌≤◌, Some, [], ◌∷◌, false};
ghost use Rattle.sizes.specs.declared.TheConstants.{FRAME_UNITS, PAGE_LINES};
ghost use Rattle.overlay_bits.specs.Lines.{with_line};
ghost use Rattle.overlay_mapping_table.specs.declared.entry.Entry.{Entry};
ghost use Rattle.std.specs.Option.{option_map};
ghost use Rattle.ledger.specs.Ledger.{is_alone};
ghost use Rattle.overlay_pages.specs.State.{books};
ghost use Rattle.space_maps.specs.Spaces.{page_in, space_in};
ghost use Rattle.space_ledger.specs.View.{lines_of, overlay_at};
ghost use Rattle.overlay_pages.specs.Changes.{is_writable, units_of, with_brought};
ghost use Rattle.overlay_pages.specs.Spots.{IsFoundAt, IsFoundPage, no_page};
ghost use Rattle.overlay_pages.specs.View.{IsJoined, MemoryView, state_of};

use bitflags::Flags;
use overlay_bits::Bits;
use overlay_mapping_table::Entry;
use ovl_io::Perms;
use page_table::PageEntry;
use space_ledger::class_of;
use unit_map::Block;

/// The number of no page: an address has a page below 2^52.
pub const NO_PAGE: u64 = u64::MAX;

/// Where a line of a page stands.
#[derive(Clone, Copy, Debug, PartialEq, Eq)]
pub(crate) enum Spot {
    /// in the segment of the page's overlay
    Segment(Block),
    /// in the page's frame
    Frame(u32),
}

/// A line of a page, as it was found: with the permissions of the page, and with where the line stands.
#[derive(Clone, Copy, Debug, PartialEq, Eq)]
pub struct FoundLine {
    pub page: u64,
    pub(crate) spot: Spot,
    pub space: u16,
    pub line: u8,
    pub perms: Perms,
}

/// A page, as it was found, with all that an access to it has to know.
#[derive(Clone, Copy, Debug, PartialEq, Eq)]
pub struct FoundPage {
    pub page: u64,
    /// its own lines
    pub own: Bits,
    // where they stand, where it has some
    pub(crate) block: Block,
    pub frame: u32,
    pub space: u16,
    pub perms: Perms,
    // whether stores to it go into its frame
    pub(crate) in_frame: bool,
}

impl FoundPage {
    /// What stands for no page.
    #[inline(always)]
    pub fn none() -> FoundPage
        ensures { result ≡ no_page }
    {
        FoundPage {
            space: 0,
            page: NO_PAGE,
            perms: Perms::empty(),
            frame: 0,
            own: Bits::empty(),
            block: Block { unit: 0, order: 0 },
            in_frame: false,
        }
    }

    /// A line of it, below 64. Costs a step.
    #[inline]
    pub fn line(self, line: u8) -> FoundLine
        requires { line < PAGE_LINES }
        ensures { (view : MemoryView) → IsFoundPage view.table self
            → IsFoundAt view self.space self.page line result }
    {
        let spot = if self.own.has(line) {
            Spot::Segment(self.block)
        } else {
            Spot::Frame(self.frame)
        };
        FoundLine {
            space: self.space,
            page: self.page,
            line,
            perms: self.perms,
            spot,
        }
    }

    /// Whether a line, below 64, can be written where it stands: it is in the overlay, or else the space isn't speculating and the
    /// frame is the page's alone. Costs a step.
    #[inline]
    pub fn is_writable(self, line: u8) -> bool
        requires { line < PAGE_LINES }
        ensures { (view : MemoryView) → IsFoundPage view.table self
            → result ≡ is_writable (state_of view) self.space self.page line }
    {
        self.own.has(line) || self.in_frame
    }

    /// Whether it is alone, where its space isn't speculating: its frame isn't the zero frame, and no other page of any space names it.
    /// Costs a step.
    #[inline]
    pub fn is_alone(&self) -> bool
        ensures { (view : MemoryView) → IsFoundPage view.table self.now
            → (space_in (state_of view) self.now.space).speculating ≡ false
            → result ≡ is_alone (books (state_of view)) self.now.space self.now.page }
    {
        self.in_frame
    }

    /// By how many units all pages rise where a line of it that can't be written where it stands is brought. Costs a step.
    #[inline(always)]
    pub(crate) fn rise(&self) -> u32
        ensures rise { (view : MemoryView) (line : ℕ) → IsFoundPage view.table self.now → line < PAGE_LINES
            → is_writable (state_of view) self.now.space self.now.page line ≡ false
            → units_of (with_brought (state_of view) self.now.space self.now.page (line ∷ []))
            ≡ units_of (state_of view) + result }
        ensures few { result ≤ FRAME_UNITS }
    {
        let own = self.own.len();
        class_of(own + 1) - class_of(own)
    }

    /// Its overlay: none where it has no own lines.
    #[inline(always)]
    pub(crate) fn overlay(&self) -> Option<Entry>
        ensures { (view : MemoryView) → IsJoined view → IsFoundPage view.table self.now
            → overlay_at view.table self.now.space self.now.page ≡ result }
    {
        if self.own.len() == 0 {
            None
        } else {
            Some(Entry {
                bits: self.own,
                block: self.block,
            })
        }
    }

    /// Its permissions and its frame.
    #[inline]
    pub(crate) fn entry(&self) -> PageEntry
        ensures { (view : MemoryView) → IsFoundPage view.table self.now
            → Some result ≡ option_map (λ x. x.entry) (page_in view.table self.now.space self.now.page) }
    {
        PageEntry {
            perms: self.perms,
            frame: self.frame,
        }
    }

    /// It on another frame, without own lines.
    #[inline]
    pub(crate) fn on_frame(&self, frame: u32, in_frame: bool) -> FoundPage
        ensures { result ≡ record {
          space = self.now.space;
          page = self.now.page;
          perms = self.now.perms;
          frame = frame;
          own = [];
          block = self.now.block;
          in_frame = in_frame;
        } }
    {
        FoundPage {
            space: self.space,
            page: self.page,
            perms: self.perms,
            frame,
            own: Bits::empty(),
            block: self.block,
            in_frame,
        }
    }

    /// It with another line of its own, in an overlay at a block.
    #[inline(always)]
    pub(crate) fn with(self, line: u8, block: Block) -> FoundPage
        requires { line < PAGE_LINES }
        ensures { result ≡ record {
          space = self.space;
          page = self.page;
          perms = self.perms;
          frame = self.frame;
          own = with_line self.own line;
          block = block;
          in_frame = self.in_frame;
        } }
    {
        FoundPage {
            space: self.space,
            page: self.page,
            perms: self.perms,
            frame: self.frame,
            own: self.own.with(line),
            block,
            in_frame: self.in_frame,
        }
    }
}

/// The lines of an overlay, and where they stand: none, and anywhere, where there is no overlay.
#[inline]
pub(crate) fn parts_of(overlay: Option<Entry>) -> (Bits, Block)
    ensures lines { result.0 ≡ lines_of overlay }
    ensures block { (e : Entry) → overlay ≡ Some e → e.block ≡ result.1 }
{
    match overlay {
        Some(entry) => (entry.bits, entry.block),
        None => (Bits::empty(), Block { unit: 0, order: 0 }),
    }
}
