//! Pages that are compared line by line.

ghost use Rattle.std.specs.Prelude.{◌≡◌, ◌<◌, ◌≤◌, Some, length, true};
ghost use Rattle.sizes.specs.declared.TheConstants.{PAGE_LINES};
ghost use Rattle.overlay_pages.specs.Lines.{line_in_page};
ghost use Rattle.overlay_pages.specs.Spots.{IsFoundPage};
ghost use Rattle.overlay_pages.specs.State.{PageState, memory_of};
ghost use Rattle.overlay_pages.specs.View.{IsJoined, state_of};
ghost use Rattle.overlay_memory.specs.Rebased.{AreAlikeBut, TellsApart, apart_in, is_same_line};
ghost use Rattle.space_maps.specs.Spaces.{page_in};

use overlay_bits::Bits;
use overlay_pages::{FoundPage, OverlayPages};
use sizes::PAGE_LINES;

/// Whether two pages that were found have the same bytes in a line.
fn is_same_line(pages: &OverlayPages, page: &FoundPage, other: &FoundPage, line: u8) -> bool
    requires found { IsFoundPage pages.now.table page.now }
    requires theirs { IsFoundPage pages.now.table other.now }
    requires line { line < PAGE_LINES }
    ensures same { result ≡ is_same_line (memory_of (state_of pages.now) page.now.space) page.now.page
        (memory_of (state_of pages.now) other.now.space) other.now.page line }
    ensures seen { result ≡ true → (x y : PageState)
        → page_in (state_of pages.now) page.now.space page.now.page ≡ Some x
        → page_in (state_of pages.now) other.now.space other.now.page ≡ Some y
        → line_in_page x.lines line ≡ line_in_page y.lines line }
    ensures joined { IsJoined pages.now }
{
    *pages.line_at(page.line(line)) == *pages.line_at(other.line(line))
}

/// Of pages that were found, the lines that are the other one's own, or in which they differ: all of them, or more than `most` where there
/// are more.
pub(crate) fn lines_apart(
    pages: &OverlayPages,
    page: &FoundPage,
    other: &FoundPage,
    most: u32,
) -> Bits
    requires found { IsFoundPage pages.now.table page.now }
    requires theirs { IsFoundPage pages.now.table other.now }
    ensures apart { TellsApart (apart_in (state_of pages.now) page.now.space page.now.page
        other.now.space other.now.page) most result }
    ensures alike { length result ≤ most → (x y : PageState)
        → page_in (state_of pages.now) page.now.space page.now.page ≡ Some x
        → page_in (state_of pages.now) other.now.space other.now.page ≡ Some y → AreAlikeBut result x y }
{
    let _count = other.own.len();
    let mut apart = other.own;
    'comparing: for line in 0..PAGE_LINES as u8 {
        if !is_same_line(pages, page, other, line) {
            apart = apart.with(line);
            if apart.len() > most {
                return apart;
            }
        }
    }
    apart
}
