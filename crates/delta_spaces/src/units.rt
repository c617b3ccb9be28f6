//! The units after a space is made, before anything is changed.

ghost use Rattle.std.specs.Prelude.{◌≡◌, ◌≤◌, [], length};
ghost use Rattle.sizes.specs.declared.TheConstants.{FRAME_UNITS, MOST_SPACE_PAGES, PAGE_LINES};
ghost use Rattle.overlay_bits.specs.Lines.{Rise};
ghost use Rattle.ledger.specs.Changes.{imported, with_lines};
ghost use Rattle.ledger.specs.Units.{class};
ghost use Rattle.overlay_pages.specs.State.{books};
ghost use Rattle.overlay_memory.specs.View.{state_of};
ghost use Rattle.delta_image.specs.Fine.{Ascend, IsPlain};
ghost use Rattle.delta_image.specs.Line.{numbers_of};
ghost use Rattle.delta_spaces.specs.Built.{built_units};

use delta_image::DeltaPage;
use overlay_bits::Bits;
use overlay_memory::{OverlayMemory, class_of};

/// The own lines of a page of the base; none where it isn't there.
fn base_lines(mem: &OverlayMemory, base: u16, page: u64) -> Bits
    ensures { result ≡ (imported (books (state_of mem.now)) base page []).own }
{
    if mem.has_page(base, page) {
        mem.lines_of(base, page)
    } else {
        Bits::empty()
    }
}

/// The own lines of a page of the base, joined with those that are given.
fn joined_lines(own: Bits, lines: &[(u8, [u8; 64])]) -> Bits
    requires lines { Rise 0 (numbers_of lines.now) PAGE_LINES }
    ensures { result ≡ with_lines own (numbers_of lines.now) }
{
    let mut joined = own;
    'joining: for (line, _) in lines {
        joined = joined.with(*line);
    }
    joined
}

/// The units of a page's segment, which are those of a frame where it is settled.
fn page_units(mem: &OverlayMemory, base: u16, page: &DeltaPage) -> u32
    requires plain { IsPlain page.now }
    ensures sum { result ≡ class (length (imported (books (state_of mem.now)) base page.now.page
        (numbers_of page.now.lines)).own) }
    ensures few { result ≤ FRAME_UNITS }
{
    let own = base_lines(mem, base, page.page);
    class_of(joined_lines(own, page.lines.as_slice()).len())
}

/// The units after a space is made of a base and these pages. Costs some look-ups for each page, and a step for each line.
pub(crate) fn units_built(mem: &OverlayMemory, base: u16, pages: &[DeltaPage]) -> u32
    requires few { length pages.now ≤ MOST_SPACE_PAGES }
    requires pages { Ascend IsPlain 0 pages.now }
    ensures { result ≡ built_units (state_of mem.now) base pages.now }
{
    let mut units = mem.units();
    'counting: for page in pages {
        units += page_units(mem, base, page);
    }
    units
}
