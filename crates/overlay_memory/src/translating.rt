//! Translations: pages that accesses go through, and what entries hold of them.

ghost use Rattle.std.specs.Prelude.{◌≡◌, ℕ, ◌/◌, ◌<◌, IfSome, IsSome, List, None, Some, [], ◌∷◌, false, length};
ghost use Rattle.std.specs.List.{fold};
ghost use Rattle.sizes.specs.declared.TheConstants.{PAGE_BYTES, PAGE_LINES};
ghost use Rattle.ovl_io.specs.PageBytes.{page_allows};
ghost use Rattle.overlay_bits.specs.Lines.{AreLines};
ghost use Rattle.overlay_pages.specs.Changes.{Fits, is_writable, with_brought, writes_frame};
ghost use Rattle.overlay_pages.specs.State.{memory_of};
ghost use Rattle.overlay_pages.specs.Spots.{FindsPage, IsBroughtTo, IsFoundPage, KeepsPlacesBut};
ghost use Rattle.overlay_pages.specs.View.{IsJoined, state_of};
ghost use Rattle.overlay_pages.specs.declared.spots.TheConstants.{NO_PAGE};
ghost use Rattle.overlay_memory.specs.Translated.{access_at};
ghost use Rattle.overlay_memory.specs.Epochs.{known_at};
ghost use Rattle.overlay_memory.specs.Fronts.{AreFronts, held_of};
ghost use Rattle.overlay_memory.specs.View.{AreTrue, cached_in};
ghost use Rattle.space_maps.specs.Spaces.{page_in};
ghost use Rattle.translation_cache.specs.Bare.{bare};
ghost use Rattle.translation_cache.specs.Counted.{access_translated, translated};
ghost use Rattle.translation_cache.specs.CountedLaws.{IsFront};
ghost use Rattle.translation_cache.specs.Formed.{IsFormed};
ghost use Rattle.translation_cache.specs.Translations.{with_bit};

use crate::fronts::Fronts;
use bitflags::Flags;
use overlay_bits::Bits;
use overlay_pages::{FoundPage, OverlayPages};
use ovl_io::Perms;
use sizes::PAGE_BYTES;
use translation_cache::{Cache, Cached};

/// What was found of a page, as its entry holds it.
pub(crate) fn cached_of(found: &FoundPage) -> Cached
    ensures { result ≡ held_of found.now }
{
    Cached {
        perms: found.perms,
        frame: found.frame,
        bits: found.own,
    }
}

/// As `translate`, of a page that isn't known to be at the front of its list.
#[inline(always)]
pub(crate) fn translate_anew(
    pages: &OverlayPages,
    cache: &mut Cache,
    fronts: &mut Fronts,
    space: u16,
    page: u64,
) -> Option<FoundPage>
    requires low { page < NO_PAGE }
    requires held { AreTrue (state_of pages.now) cache.old }
    requires fronts { AreFronts pages.now (bare cache.old) fronts.old }
    ensures found { FindsPage pages.now space page result }
    ensures front { IfSome result (λ found. IsFront found.space found.page (bare cache.new)) }
    ensures translated { bare cache.new
        ≡ translated space (memory_of (state_of pages.now) space) page (bare cache.old) }
    ensures held { AreTrue (state_of pages.now) cache.new }
    ensures fronts { AreFronts pages.now (bare cache.new) fronts.new }
{
    if let Some(known) = fronts.seen(space, page) {
        let found = known.found;
        bring_seen(pages, cache, fronts, &found);
        return Some(found);
    }
    match pages.find_page(space, page) {
        Some(found) => {
            look_up(pages, cache, space, page, cached_of(&found));
            fronts.put(space, page, found);
            Some(found)
        }
        None => {
            look_in_vain(pages, cache, space, page);
            fronts.put(space, page, FoundPage::none());
            None
        }
    }
}

/// Translates a page that is known since it was found, which then is known to be at the front of its list.
#[inline(always)]
pub(crate) fn bring_seen(
    pages: &OverlayPages,
    cache: &mut Cache,
    fronts: &mut Fronts,
    found: &FoundPage,
)
    requires low { found.now.page < NO_PAGE }
    requires known { (known_at fronts.old.seen found.now.space found.now.page).found ≡ found.now }
    requires held { AreTrue (state_of pages.now) cache.old }
    requires fronts { AreFronts pages.now (bare cache.old) fronts.old }
    ensures front { IsFront found.now.space found.now.page (bare cache.new) }
    ensures translated { bare cache.new ≡ translated found.now.space
        (memory_of (state_of pages.now) found.now.space) found.now.page (bare cache.old) }
    ensures held { AreTrue (state_of pages.now) cache.new }
    ensures fronts { AreFronts pages.now (bare cache.new) fronts.new }
{
    look_up(pages, cache, found.space, found.page, cached_of(found));
    fronts.bring(found.space, found.page);
}

/// Counts the look-up of a page that is there, and enters what is there to be held of it where its entry isn't there.
#[inline(always)]
fn look_up(pages: &OverlayPages, cache: &mut Cache, space: u16, page: u64, there: Cached)
    requires held { AreTrue (state_of pages.now) cache.old }
    requires there { Some there ≡ cached_in (state_of pages.now) space page }
    ensures translated { bare cache.new
        ≡ translated space (memory_of (state_of pages.now) space) page (bare cache.old) }
    ensures held { AreTrue (state_of pages.now) cache.new }
    ensures formed { IsFormed cache.old }
{
    match cache.look(space, page) {
        Some(_) => {}
        None => cache.enter(space, page, there),
    }
}

/// Counts the look-up of a page that isn't there.
fn look_in_vain(pages: &OverlayPages, cache: &mut Cache, space: u16, page: u64)
    requires held { AreTrue (state_of pages.now) cache.old }
    requires absent { page_in (state_of pages.now) space page ≡ None }
    ensures translated { bare cache.new
        ≡ translated space (memory_of (state_of pages.now) space) page (bare cache.old) }
    ensures held { AreTrue (state_of pages.now) cache.new }
    ensures formed { IsFormed cache.old }
{
    let _ = cache.look(space, page);
}

/// Translates a page: counts the look-up, and enters the page where its entry isn't there and it is. Answers what was found of it: of
/// a page that is known to be at the front of its list, without a look at a table.
fn translate(
    pages: &OverlayPages,
    cache: &mut Cache,
    fronts: &mut Fronts,
    space: u16,
    page: u64,
) -> Option<FoundPage>
    requires low { page < NO_PAGE }
    requires held { AreTrue (state_of pages.now) cache.old }
    requires fronts { AreFronts pages.now (bare cache.old) fronts.old }
    ensures found { FindsPage pages.now space page result }
    ensures front { IfSome result (λ found. IsFront found.space found.page (bare cache.new)) }
    ensures translated { bare cache.new
        ≡ translated space (memory_of (state_of pages.now) space) page (bare cache.old) }
    ensures held { AreTrue (state_of pages.now) cache.new }
    ensures fronts { AreFronts pages.now (bare cache.new) fronts.new }
{
    match fronts.page(space, page) {
        Some(known) => {
            cache.count_hit();
            Some(known.found)
        }
        None => translate_anew(pages, cache, fronts, space, page),
    }
}

/// Translates a page of an access, and answers whether it may be used so.
fn translate_for(
    pages: &OverlayPages,
    cache: &mut Cache,
    fronts: &mut Fronts,
    space: u16,
    page: u64,
    need: Perms,
) -> bool
    requires low { page < NO_PAGE }
    requires held { AreTrue (state_of pages.now) cache.old }
    requires fronts { AreFronts pages.now (bare cache.old) fronts.old }
    ensures allowed { result ≡ page_allows (memory_of (state_of pages.now) space) need.0 page }
    ensures translated { bare cache.new
        ≡ translated space (memory_of (state_of pages.now) space) page (bare cache.old) }
    ensures held { AreTrue (state_of pages.now) cache.new }
    ensures fronts { AreFronts pages.now (bare cache.new) fronts.new }
{
    match translate(pages, cache, fronts, space, page) {
        Some(found) => found.perms.contains(need),
        None => false,
    }
}

/// Translates the pages of an access, up to the first that isn't there or lacks the need.
#[cold]
#[inline(never)]
pub(crate) fn translate_access(
    pages: &OverlayPages,
    cache: &mut Cache,
    fronts: &mut Fronts,
    space: u16,
    address: u64,
    count: usize,
    need: Perms,
)
    requires held { AreTrue (state_of pages.now) cache.old }
    requires fronts { AreFronts pages.now (bare cache.old) fronts.old }
    ensures translated { bare cache.new ≡ access_translated space (memory_of (state_of pages.now) space)
        (access_at need.0 address count) (bare cache.old) }
    ensures held { AreTrue (state_of pages.now) cache.new }
    ensures fronts { AreFronts pages.now (bare cache.new) fronts.new }
{
    if count == 0 {
        return;
    }
    let first = address / PAGE_BYTES as u64;
    let last = (count - 1) as u64;
    let more = last / PAGE_BYTES as u64
        + (address % PAGE_BYTES as u64 + last % PAGE_BYTES as u64) / PAGE_BYTES as u64;
    'translating: for i in 0..more + 1 {
        if !translate_for(pages, cache, fronts, space, first + i, need) {
            return;
        }
    }
}

/// Adds lines to what the entry of a page holds, where it is there.
fn note_lines(cache: &mut Cache, space: u16, page: u64, lines: Bits)
    ensures noted { cache.new ≡ fold (λ t line. with_bit space page line t) cache.old lines }
    ensures formed { IsFormed cache.old }
    ensures are { AreLines lines }
{
    let _hits = cache.hits();
    'noting: for line in lines.iter() {
        cache.set_bit(space, page, line);
    }
}

/// Whether stores to a page that is there go into its frame.
fn writes_frame(pages: &OverlayPages, space: u16, page: u64) -> bool
    requires { IsSome (page_in (state_of pages.now) space page) }
    ensures frame { result ≡ writes_frame (state_of pages.now) space page }
    ensures joined { IsJoined pages.now }
{
    !pages.is_speculating(space) && pages.is_alone(space, page)
}

/// Brings a line of a page that was found, which can't be written where it stands, as `bring_found` of pages does, and adds it to what
/// the entry of the page holds.
#[inline(always)]
pub(crate) fn bring_line(
    pages: &mut OverlayPages,
    cache: &mut Cache,
    page: FoundPage,
    line: u8,
) -> Option<FoundPage>
    requires found { IsFoundPage pages.old.table page }
    requires line { line < PAGE_LINES }
    requires apart { is_writable (state_of pages.old) page.space page.page line ≡ false }
    requires fits { Fits (with_brought (state_of pages.old) page.space page.page (line ∷ [])) }
    requires held { AreTrue (state_of pages.old) cache.old }
    ensures brought { state_of pages.new ≡ with_brought (state_of pages.old) page.space page.page (line ∷ []) }
    ensures found { IfSome result (IsBroughtTo pages.old.table pages.new.table page line) }
    ensures places { IfSome result (λ _. KeepsPlacesBut page.space page.page pages.old pages.new) }
    ensures held { AreTrue (state_of pages.new) cache.new }
    ensures lists { bare cache.new ≡ bare cache.old }
{
    cache.set_bit(page.space, page.page, line);
    pages.bring_found(page, line)
}

/// Makes lines of a page that is there such as can be written where they stand, as `bring` of pages does, and adds them to what the
/// entry of the page holds, where they were brought.
pub(crate) fn bring_lines(
    pages: &mut OverlayPages,
    cache: &mut Cache,
    space: u16,
    page: u64,
    lines: Bits,
)
    requires there { IsSome (page_in (state_of pages.old) space page) }
    requires fits { Fits (with_brought (state_of pages.old) space page lines) }
    requires held { AreTrue (state_of pages.old) cache.old }
    ensures brought { state_of pages.new ≡ with_brought (state_of pages.old) space page lines }
    ensures held { AreTrue (state_of pages.new) cache.new }
    ensures lists { bare cache.new ≡ bare cache.old }
{
    let in_frame = writes_frame(pages, space, page);
    pages.bring(space, page, lines);
    if in_frame {
        return;
    }
    note_lines(cache, space, page, lines);
}
