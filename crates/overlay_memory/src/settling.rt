//! Pages that are settled after a store, since their overlays would take as many units as a frame.

ghost use Rattle.std.specs.Prelude.{◌≡◌, ◌<◌, IfSome, IsTrue, false, length};
ghost use Rattle.ledger.specs.Ledger.{is_alone};
ghost use Rattle.overlay_memory.specs.Pieces.{ComesToBeLarge, Settles, is_to_settle};
ghost use Rattle.overlay_memory.specs.View.{AreTrue, NoneAwaits};
ghost use Rattle.overlay_pages.specs.Changes.{HasCopyRoom, IsPlaced, copied};
ghost use Rattle.overlay_pages.specs.Spots.{IsFoundPage, IsFoundPageAt};
ghost use Rattle.overlay_pages.specs.State.{books};
ghost use Rattle.overlay_pages.specs.View.{IsJoined, state_of};
ghost use Rattle.space_maps.specs.Spaces.{page_in, space_in};
ghost use Rattle.translation_cache.specs.Bare.{bare};

use crate::translating::cached_of;
use overlay_bits::Bits;
use overlay_pages::{FoundPage, LARGE_LINES, MOST_OWN, OverlayPages};
use translation_cache::Cache;

/// Whether a page that was found, and was stored to, is settled: it has 32 own lines or more, its space isn't speculating, and it isn't
/// alone.
fn is_to_settle(pages: &OverlayPages, page: &FoundPage) -> bool
    requires found { IsFoundPage pages.now.table page.now }
    ensures settles { result ≡ is_to_settle (state_of pages.now) page.now.space page.now.page }
    ensures joined { IsJoined pages.now }
{
    let mark = pages.is_speculating(page.space);
    if page.own.len() < LARGE_LINES {
        return false;
    }
    if mark {
        return false;
    }
    !page.is_alone()
}

/// Whether a page that was found and has own lines has 32 or more once these join them, and is settled then: its space isn't speculating,
/// and it isn't alone.
pub(crate) fn comes_to_be_large(pages: &OverlayPages, page: &FoundPage, lines: Bits) -> bool
    requires found { IsFoundPage pages.now.table page.now }
    ensures { IsTrue result → ComesToBeLarge (state_of pages.now) page.now.space page.now.page lines }
{
    let own = page.own;
    if own.len() == 0 {
        return false;
    }
    if own.union(lines).len() < LARGE_LINES {
        return false;
    }
    if pages.is_speculating(page.space) {
        return false;
    }
    !page.is_alone()
}

/// Whether an overlay with these lines stays one where a line joins them: there are at most 31 then, or its space is speculating.
#[inline(always)]
pub(crate) fn stays_overlay(pages: &OverlayPages, space: u16, own: Bits) -> bool
    ensures { IsTrue result → (space_in (state_of pages.now) space).speculating ≡ false
        → length own < 31 }
{
    own.len() < MOST_OWN || pages.is_speculating(space)
}

/// A page that was found, has own lines and isn't alone gets a new frame with its lines, and its entry names that. Answers it as it is
/// found then. The units after it are there.
#[cold]
#[inline(never)]
pub(crate) fn settle(pages: &mut OverlayPages, cache: &mut Cache, page: &FoundPage) -> FoundPage
    requires found { IsFoundPage pages.old.table page.now }
    requires overlaid { IfSome (page_in (state_of pages.old) page.now.space page.now.page)
        (λ x. 0 < length x.own) }
    requires shared { is_alone (books (state_of pages.old)) page.now.space page.now.page ≡ false }
    requires room { HasCopyRoom (state_of pages.old) page.now.space page.now.page }
    requires none_awaits { NoneAwaits (state_of pages.old) page.now.space }
    requires held { AreTrue (state_of pages.old) cache.old }
    ensures placed { IfSome (page_in (state_of pages.old) page.now.space page.now.page)
        (λ x. IsPlaced (state_of pages.old) (state_of pages.new) page.now.space page.now.page
        (λ frame. copied frame x)) }
    ensures found { IsFoundPageAt pages.new page.now.space page.now.page result }
    ensures held { AreTrue (state_of pages.new) cache.new }
    ensures lists { bare cache.new ≡ bare cache.old }
{
    let settled = pages.settle_found(page);
    cache.replace(page.space, page.page, cached_of(&settled));
    settled
}

/// A page that was found, and was stored to, is settled where it has to be: the units of its overlay are those of its frame then. Answers
/// it as it is found then.
pub(crate) fn settle_if_large(
    pages: &mut OverlayPages,
    cache: &mut Cache,
    page: &FoundPage,
) -> FoundPage
    requires found { IsFoundPage pages.old.table page.now }
    requires none_awaits { NoneAwaits (state_of pages.old) page.now.space }
    requires held { AreTrue (state_of pages.old) cache.old }
    ensures settles { Settles (state_of pages.old) (state_of pages.new) page.now.space page.now.page }
    ensures found { IsFoundPageAt pages.new page.now.space page.now.page result }
    ensures held { AreTrue (state_of pages.new) cache.new }
    ensures lists { bare cache.new ≡ bare cache.old }
{
    if is_to_settle(pages, page) {
        settle(pages, cache, page)
    } else {
        *page
    }
}
