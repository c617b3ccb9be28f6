//! Bytes into the lines of pages, and what a store needs first.

ghost use Rattle.std.specs.Prelude.{◌≡◌, ◌+◌, ◌-◌, ◌*◌, ◌/◌, ◌%◌, ◌<◌, ◌≤◌, IfSome, IsSome, Ok, OnErr, length, true, false};
ghost use Rattle.sizes.specs.declared.TheConstants.{LINE_BYTES, PAGE_BYTES, PAGE_LINES};
ghost use Rattle.ovl_io.specs.Permissions.{permits, writable};
ghost use Rattle.overlay_pages.specs.Changes.{is_writable};
ghost use Rattle.overlay_pages.specs.State.{memory_of};
ghost use Rattle.overlay_pages.specs.View.{IsJoined, state_of};
ghost use Rattle.overlay_pages.specs.Spots.{IsBroughtTo, IsFound, IsFoundPage, IsFoundPageAt, KeepsPlaces, KeepsPlacesBut};
ghost use Rattle.overlay_memory.specs.Access.{FitsStored, IsStored, Stores, line_address};
ghost use Rattle.overlay_memory.specs.Fronts.{AreFronts};
ghost use Rattle.overlay_memory.specs.Pieces.{AreWritable, IsFilled, Permits, lines_under, result_at};
ghost use Rattle.overlay_memory.specs.View.{AreOverlaysSmall, AreTrue, NoneAwaits};
ghost use Rattle.overlay_pages.specs.declared.settling.TheConstants.{MOST_OWN};
ghost use Rattle.space_maps.specs.Spaces.{page_in, space_in};
ghost use Rattle.translation_cache.specs.Bare.{bare};
ghost use Rattle.translation_cache.specs.Counted.{translated};
ghost use Rattle.translation_cache.specs.CountedLaws.{IsFront};
ghost use Rattle.translation_cache.specs.Translations.{Translations, with_hits};
ghost use Rattle.translation_cache.specs.declared.cached.Cached.{Cached};

use crate::epochs::NO_PLACE;
use crate::error::{Came, MemoryError, came_of};
use crate::fronts::Fronts;
use crate::places::write_place;
use crate::reading::{line_of, permit};
use crate::room::{shortage_by, shortage_of};
use crate::settling::{comes_to_be_large, settle, settle_if_large, stays_overlay};
use crate::translating::{bring_line, bring_lines, translate_anew};
use bitflags::Flags;
use overlay_bits::Bits;
use overlay_pages::{FoundLine, FoundPage, OverlayPages};
use ovl_io::Perms;
use sizes::{LINE_BYTES, PAGE_BYTES, PAGE_LINES};
use translation_cache::Cache;

/// Whether the byte at an address may be written.
#[inline]
fn permit_store(pages: &OverlayPages, space: u16, address: u64) -> Result<(), MemoryError>
    ensures { Permits pages.now space writable address result }
{
    permit(pages, space, address, Perms::W)
}

/// The lines of a page in which some of its bytes lie.
fn lines_at(at: usize, count: usize) -> Bits
    requires some { 0 < count }
    requires one_page { at + count ≤ PAGE_BYTES }
    ensures { result ≡ lines_under at count }
{
    let first = (at / LINE_BYTES) as u8;
    let last = ((at + count - 1) / LINE_BYTES) as u8;
    Bits::range(first, last + 1)
}

/// Replaces some bytes of a line that was found and can be written.
#[inline(always)]
fn put(pages: &mut OverlayPages, found: FoundLine, at: usize, bytes: &[u8])
    requires found { IsFound pages.old found }
    requires some { 0 < length bytes.now }
    requires fits { at + length bytes.now ≤ LINE_BYTES }
    requires writable { is_writable (state_of pages.old) found.space found.page found.line ≡ true }
    ensures filled { IsFilled (state_of pages.old) (state_of pages.new) found.space
        (PAGE_BYTES * found.page + (LINE_BYTES * found.line + at)) bytes.now }
    ensures table { pages.new.table ≡ pages.old.table }
    ensures places { KeepsPlaces pages.old pages.new }
    ensures joined { IsJoined pages.old }
{
    pages.line_at_mut(found)[at..at + bytes.len()].copy_from_slice(bytes);
}

/// Replaces some bytes of a line of a page that is there, where the line can be written.
fn fill_line(pages: &mut OverlayPages, space: u16, page: u64, line: u8, at: usize, bytes: &[u8])
    requires there { IsSome (page_in (state_of pages.old) space page) }
    requires line { line < PAGE_LINES }
    requires some { 0 < length bytes.now }
    requires fits { at + length bytes.now ≤ LINE_BYTES }
    requires writable { is_writable (state_of pages.old) space page line ≡ true }
    ensures { IsFilled (state_of pages.old) (state_of pages.new) space
        (PAGE_BYTES * page + (LINE_BYTES * line + at)) bytes.now }
{
    match pages.find(space, page, line) {
        Some(found) => put(pages, found, at, bytes),
        None => unreachable!(),
    }
}

/// Replaces some bytes of a line of a page that was found, where the line can be written.
fn fill_found(pages: &mut OverlayPages, page: &FoundPage, line: u8, at: usize, bytes: &[u8])
    requires found { IsFoundPage pages.old.table page.now }
    requires line { line < PAGE_LINES }
    requires some { 0 < length bytes.now }
    requires fits { at + length bytes.now ≤ LINE_BYTES }
    requires writable { is_writable (state_of pages.old) page.now.space page.now.page line ≡ true }
    ensures filled { IsFilled (state_of pages.old) (state_of pages.new) page.now.space
        (PAGE_BYTES * page.now.page + (LINE_BYTES * line + at)) bytes.now }
    ensures table { pages.new.table ≡ pages.old.table }
{
    put(pages, page.line(line), at, bytes);
}

/// Puts bytes, some and all in one line of a page that was found, whatever its permissions, where that line can be written where it
/// stands. Answers whether that was done.
#[inline(always)]
fn put_where_it_stands(
    pages: &mut OverlayPages,
    space: u16,
    page: &FoundPage,
    address: u64,
    bytes: &[u8],
) -> bool
    requires found { IsFoundPageAt pages.old space (address / PAGE_BYTES) page.now }
    requires some { 0 < length bytes.now }
    requires one_line { address % LINE_BYTES + length bytes.now ≤ LINE_BYTES }
    requires small { AreOverlaysSmall (state_of pages.old) }
    ensures stored { result ≡ true
        → IsStored (state_of pages.old) (state_of pages.new) space address bytes.now }
    ensures entries { (t : Translations Cached) → AreTrue (state_of pages.old) t
        → AreTrue (state_of pages.new) t }
    ensures table { pages.new.table ≡ pages.old.table }
    ensures places { KeepsPlaces pages.old pages.new }
    ensures joined { result ≡ true → IsJoined pages.old }
    ensures kept { result ≡ false → pages.new ≡ pages.old }
    ensures apart { result ≡ false → is_writable (state_of pages.old) page.now.space page.now.page
        (address / LINE_BYTES % PAGE_LINES) ≡ false }
{
    let line = line_of(address);
    if page.is_writable(line) {
        put(
            pages,
            page.line(line),
            (address % LINE_BYTES as u64) as usize,
            bytes,
        );
        return true;
    }
    false
}

/// Replaces bytes of a page that was found, where the lines in which they lie can be written.
fn fill_page(pages: &mut OverlayPages, page: &FoundPage, at: usize, bytes: &[u8])
    requires found { IsFoundPage pages.old.table page.now }
    requires one_page { at + length bytes.now ≤ PAGE_BYTES }
    requires writable { AreWritable (state_of pages.old) page.now.space page.now.page at (length bytes.now) }
    ensures filled { IsFilled (state_of pages.old) (state_of pages.new) page.now.space
        (PAGE_BYTES * page.now.page + at) bytes.now }
    ensures table { pages.new.table ≡ pages.old.table }
{
    let mut done = 0;
    'filling: while done < bytes.len() {
        let line = ((at + done) / LINE_BYTES) as u8;
        let from = (at + done) % LINE_BYTES;
        let n = (LINE_BYTES - from).min(bytes.len() - done);
        fill_found(pages, page, line, from, &bytes[done..done + n]);
        done += n;
    }
}

/// Puts bytes, some and all in one page that was found, whatever its permissions: first the lines in which they lie are made such as can
/// be written where they stand, then the bytes are put, and then the page is settled where it has to be. A page that has own lines is
/// settled before that, so that they aren't moved twice. The units after it are there. Answers the page as it is found then.
fn put_in_found(
    pages: &mut OverlayPages,
    cache: &mut Cache,
    space: u16,
    page: &FoundPage,
    address: u64,
    lines: Bits,
    bytes: &[u8],
) -> FoundPage
    requires found { IsFoundPageAt pages.old space (address / PAGE_BYTES) page.now }
    requires some { 0 < length bytes.now }
    requires one_page { address % PAGE_BYTES + length bytes.now ≤ PAGE_BYTES }
    requires under { lines ≡ lines_under (address % PAGE_BYTES) (length bytes.now) }
    requires fits { FitsStored (state_of pages.old) space address (length bytes.now) }
    requires none_awaits { NoneAwaits (state_of pages.old) space }
    requires held { AreTrue (state_of pages.old) cache.old }
    ensures stored { IsStored (state_of pages.old) (state_of pages.new) space address bytes.now }
    ensures found { IsFoundPageAt pages.new space (address / PAGE_BYTES) result }
    ensures held { AreTrue (state_of pages.new) cache.new }
    ensures lists { bare cache.new ≡ bare cache.old }
{
    let at = (address % PAGE_BYTES as u64) as usize;
    if comes_to_be_large(pages, page, lines) {
        let settled = settle(pages, cache, page);
        fill_page(pages, &settled, at, bytes);
        return settled;
    }
    let number = address / PAGE_BYTES as u64;
    bring_lines(pages, cache, space, number, lines);
    match pages.find_page(space, number) {
        Some(brought) => {
            fill_page(pages, &brought, at, bytes);
            settle_if_large(pages, cache, &brought)
        }
        None => unreachable!(),
    }
}

/// As `put_in_found`, of a page that is there.
fn put_in_page(
    pages: &mut OverlayPages,
    cache: &mut Cache,
    space: u16,
    address: u64,
    lines: Bits,
    bytes: &[u8],
)
    requires there { IsSome (page_in (state_of pages.old) space (address / PAGE_BYTES)) }
    requires some { 0 < length bytes.now }
    requires one_page { address % PAGE_BYTES + length bytes.now ≤ PAGE_BYTES }
    requires under { lines ≡ lines_under (address % PAGE_BYTES) (length bytes.now) }
    requires fits { FitsStored (state_of pages.old) space address (length bytes.now) }
    requires none_awaits { NoneAwaits (state_of pages.old) space }
    requires held { AreTrue (state_of pages.old) cache.old }
    ensures stored { IsStored (state_of pages.old) (state_of pages.new) space address bytes.now }
    ensures held { AreTrue (state_of pages.new) cache.new }
    ensures lists { bare cache.new ≡ bare cache.old }
{
    match pages.find_page(space, address / PAGE_BYTES as u64) {
        Some(page) => {
            put_in_found(pages, cache, space, &page, address, lines, bytes);
        }
        None => unreachable!(),
    }
}

/// Puts bytes, some and all in one line, of a page that was found, where the line can't be written where it stands and the page stays
/// overlaid: the line is brought, and then the bytes are put. The units after it are there. Answers the page as it is found then, unless
/// the overlay grew: no page is looked up but then.
#[inline(always)]
fn put_brought(
    pages: &mut OverlayPages,
    cache: &mut Cache,
    space: u16,
    page: FoundPage,
    address: u64,
    bytes: &[u8],
) -> Option<FoundPage>
    requires found { IsFoundPageAt pages.old space (address / PAGE_BYTES) page }
    requires apart { is_writable (state_of pages.old) page.space page.page
        (address / LINE_BYTES % PAGE_LINES) ≡ false }
    requires stays { (space_in (state_of pages.old) space).speculating ≡ false
        → length page.own < MOST_OWN }
    requires some { 0 < length bytes.now }
    requires one_line { address % LINE_BYTES + length bytes.now ≤ LINE_BYTES }
    requires fits { FitsStored (state_of pages.old) space address (length bytes.now) }
    requires joined { IsJoined pages.old }
    requires held { AreTrue (state_of pages.old) cache.old }
    ensures stored { IsStored (state_of pages.old) (state_of pages.new) space address bytes.now }
    ensures found { IfSome result (IsBroughtTo pages.old.table pages.new.table page
        (address / LINE_BYTES % PAGE_LINES)) }
    ensures places { IfSome result (λ _. KeepsPlacesBut page.space page.page pages.old pages.new) }
    ensures held { AreTrue (state_of pages.new) cache.new }
    ensures lists { bare cache.new ≡ bare cache.old }
{
    let line = line_of(address);
    let at = (address % LINE_BYTES as u64) as usize;
    match &bring_line(pages, cache, page, line) {
        Some(found) => {
            put(pages, found.line(line), at, bytes);
            Some(*found)
        }
        None => {
            fill_line(pages, space, address / PAGE_BYTES as u64, line, at, bytes);
            None
        }
    }
}

/// As `put_in_found`, of bytes in one line: where that can be written where it stands, or is brought alone, no page is looked up.
fn put_in_line(
    pages: &mut OverlayPages,
    cache: &mut Cache,
    space: u16,
    page: &FoundPage,
    address: u64,
    bytes: &[u8],
)
    requires found { IsFoundPageAt pages.old space (address / PAGE_BYTES) page.now }
    requires some { 0 < length bytes.now }
    requires one_line { address % LINE_BYTES + length bytes.now ≤ LINE_BYTES }
    requires fits { FitsStored (state_of pages.old) space address (length bytes.now) }
    requires none_awaits { NoneAwaits (state_of pages.old) space }
    requires joined { IsJoined pages.old }
    requires small { AreOverlaysSmall (state_of pages.old) }
    requires held { AreTrue (state_of pages.old) cache.old }
    ensures stored { IsStored (state_of pages.old) (state_of pages.new) space address bytes.now }
    ensures held { AreTrue (state_of pages.new) cache.new }
    ensures lists { bare cache.new ≡ bare cache.old }
{
    if put_where_it_stands(pages, space, page, address, bytes) {
        return;
    }
    if stays_overlay(pages, space, page.own) {
        put_brought(pages, cache, space, *page, address, bytes);
        return;
    }
    let lines = lines_at((address % PAGE_BYTES as u64) as usize, bytes.len());
    put_in_found(pages, cache, space, page, address, lines, bytes);
}

/// A line of a page that is there becomes these bytes, as by a store of them, whatever the permissions. The units after it are there.
pub(crate) fn put_line(
    pages: &mut OverlayPages,
    cache: &mut Cache,
    space: u16,
    page: u64,
    line: u8,
    bytes: &[u8; 64],
)
    requires there { IsSome (page_in (state_of pages.old) space page) }
    requires line { line < PAGE_LINES }
    requires fits { FitsStored (state_of pages.old) space (line_address page line) LINE_BYTES }
    requires none_awaits { NoneAwaits (state_of pages.old) space }
    requires small { AreOverlaysSmall (state_of pages.old) }
    requires held { AreTrue (state_of pages.old) cache.old }
    ensures stored { IsStored (state_of pages.old) (state_of pages.new) space
        (line_address page line) bytes.now }
    ensures held { AreTrue (state_of pages.new) cache.new }
    ensures lists { bare cache.new ≡ bare cache.old }
{
    match pages.find_page(space, page) {
        Some(found) => {
            let address = PAGE_BYTES as u64 * page + LINE_BYTES as u64 * u64::from(line);
            put_in_line(pages, cache, space, &found, address, bytes);
        }
        None => unreachable!(),
    }
}

/// Stores bytes, some and all in one page: permission first, then units, then the bytes with their lines.
fn write_in_page(
    pages: &mut OverlayPages,
    cache: &mut Cache,
    space: u16,
    address: u64,
    bytes: &[u8],
) -> Result<(), MemoryError>
    requires some { 0 < length bytes.now }
    requires one_page { address % PAGE_BYTES + length bytes.now ≤ PAGE_BYTES }
    requires none_awaits { NoneAwaits (state_of pages.old) space }
    requires held { AreTrue (state_of pages.old) cache.old }
    ensures stores { Stores pages.old pages.new space address bytes.now result }
    ensures held { AreTrue (state_of pages.new) cache.new }
    ensures lists { bare cache.new ≡ bare cache.old }
    ensures kept { OnErr result (cache.new ≡ cache.old) }
{
    match permit_store(pages, space, address) {
        Ok(()) => {}
        Err(error) => return Err(error),
    }
    let touched = lines_at((address % PAGE_BYTES as u64) as usize, bytes.len());
    let rise = pages.store_units(space, address / PAGE_BYTES as u64, touched);
    if let Some(shortage) = shortage_by(pages, rise) {
        return Err(MemoryError::Full(shortage.needed, shortage.limit));
    }
    put_in_page(pages, cache, space, address, touched, bytes);
    Ok(())
}

/// Stores bytes that lie in two pages, the first of them in as many as `front`.
fn write_in_two(
    pages: &mut OverlayPages,
    cache: &mut Cache,
    space: u16,
    address: u64,
    front: usize,
    bytes: &[u8],
) -> Result<(), MemoryError>
    requires front { address % PAGE_BYTES + front ≡ PAGE_BYTES }
    requires over { front < length bytes.now }
    requires two_pages { length bytes.now ≤ PAGE_BYTES }
    requires none_awaits { NoneAwaits (state_of pages.old) space }
    requires held { AreTrue (state_of pages.old) cache.old }
    ensures stores { Stores pages.old pages.new space address bytes.now result }
    ensures held { AreTrue (state_of pages.new) cache.new }
    ensures lists { bare cache.new ≡ bare cache.old }
    ensures kept { OnErr result (cache.new ≡ cache.old) }
{
    match permit_store(pages, space, address) {
        Ok(()) => {}
        Err(error) => return Err(error),
    }
    let next = address + front as u64;
    match permit_store(pages, space, next) {
        Ok(()) => {}
        Err(error) => return Err(error),
    }
    let page = address / PAGE_BYTES as u64;
    let lines = lines_at((address % PAGE_BYTES as u64) as usize, front);
    let more = lines_at(0, bytes.len() - front);
    // A frame is named by one page of a space, so the first page's may change and the other one is alone as before.
    let _pages = pages.pages(space);
    let one = pages.store_units(space, page, lines);
    let two = pages.store_units(space, page + 1, more);
    if let Some(shortage) = shortage_by(pages, one + two) {
        return Err(MemoryError::Full(shortage.needed, shortage.limit));
    }
    put_in_page(pages, cache, space, address, lines, &bytes[..front]);
    put_in_page(pages, cache, space, next, more, &bytes[front..]);
    Ok(())
}

/// Stores at most as many bytes as a page has.
#[cold]
#[inline(never)]
pub(crate) fn write_pages(
    pages: &mut OverlayPages,
    cache: &mut Cache,
    space: u16,
    address: u64,
    bytes: &[u8],
) -> Result<(), MemoryError>
    requires few { length bytes.now ≤ PAGE_BYTES }
    requires none_awaits { NoneAwaits (state_of pages.old) space }
    requires held { AreTrue (state_of pages.old) cache.old }
    ensures stores { Stores pages.old pages.new space address bytes.now result }
    ensures held { AreTrue (state_of pages.new) cache.new }
    ensures lists { bare cache.new ≡ bare cache.old }
    ensures kept { OnErr result (cache.new ≡ cache.old) }
{
    if bytes.is_empty() {
        return Ok(());
    }
    let front = PAGE_BYTES - (address % PAGE_BYTES as u64) as usize;
    if bytes.len() <= front {
        write_in_page(pages, cache, space, address, bytes)
    } else {
        write_in_two(pages, cache, space, address, front, bytes)
    }
}

/// Stores bytes, some and all in one line, of a page that was found, may be written and is at the front of its list, where the line
/// can't be written where it stands: units first, then the line, then the bytes. No page is looked up unless the overlay grew, or comes to
/// be as large as a page.
#[inline(always)]
fn store_brought(
    pages: &mut OverlayPages,
    cache: &mut Cache,
    fronts: &mut Fronts,
    space: u16,
    page: FoundPage,
    address: u64,
    bytes: &[u8],
) -> Came
    requires found { IsFoundPageAt pages.old space (address / PAGE_BYTES) page }
    requires front { IsFront page.space page.page (bare cache.old) }
    requires may { permits page.perms.0 writable ≡ true }
    requires apart { is_writable (state_of pages.old) page.space page.page
        (address / LINE_BYTES % PAGE_LINES) ≡ false }
    requires some { 0 < length bytes.now }
    requires one_line { address % LINE_BYTES + length bytes.now ≤ LINE_BYTES }
    requires none_awaits { NoneAwaits (state_of pages.old) space }
    requires held { AreTrue (state_of pages.old) cache.old }
    requires fronts { AreFronts pages.old (bare cache.old) fronts.old }
    ensures stores { Stores pages.old pages.new space address bytes.now (result_at address result) }
    ensures held { AreTrue (state_of pages.new) cache.new }
    ensures lists { bare cache.new ≡ bare cache.old }
    ensures fronts { AreFronts pages.new (bare cache.new) fronts.new }
{
    if let Some(shortage) = shortage_of(pages.units_with(&page), pages.limit()) {
        return Came::Full(shortage.needed, shortage.limit);
    }
    let number = address / PAGE_BYTES as u64;
    if !stays_overlay(pages, space, page.own) {
        fronts.clear();
        let lines = lines_at((address % PAGE_BYTES as u64) as usize, bytes.len());
        let settled = put_in_found(pages, cache, space, &page, address, lines, bytes);
        fronts.put(space, number, settled);
        return Came::Done;
    }
    match &put_brought(pages, cache, space, page, address, bytes) {
        Some(found) => fronts.put(space, number, *found),
        None => fronts.clear(),
    }
    Came::Done
}

/// Stores bytes, some and all in one line, that aren't written where they stand. A page that isn't known to be at the front of its list is
/// looked up anew, and nothing is known of any list then.
#[cold]
#[inline(never)]
fn store_apart(
    pages: &mut OverlayPages,
    cache: &mut Cache,
    fronts: &mut Fronts,
    space: u16,
    address: u64,
    bytes: &[u8],
) -> Came
    requires some { 0 < length bytes.now }
    requires one_line { address % LINE_BYTES + length bytes.now ≤ LINE_BYTES }
    requires none_awaits { NoneAwaits (state_of pages.old) space }
    requires held { AreTrue (state_of pages.old) cache.old }
    requires fronts { AreFronts pages.old (bare cache.old) fronts.old }
    ensures stores { Stores pages.old pages.new space address bytes.now (result_at address result) }
    ensures held { AreTrue (state_of pages.new) cache.new }
    ensures lists { bare cache.new ≡ bare cache.old }
    ensures fronts { AreFronts pages.new (bare cache.new) fronts.new }
{
    match fronts.page(space, address / PAGE_BYTES as u64) {
        Some(known) => {
            let page = known.found;
            if !page.perms.contains(Perms::W) {
                return Came::Forbidden;
            }
            if !page.is_writable(line_of(address)) {
                return store_brought(pages, cache, fronts, space, page, address, bytes);
            }
        }
        None => {}
    }
    fronts.clear();
    came_of(write_in_page(pages, cache, space, address, bytes))
}

/// As `store_front` of `OverlayMemory`.
#[inline(always)]
pub(crate) fn store_front(
    pages: &mut OverlayPages,
    cache: &mut Cache,
    fronts: &mut Fronts,
    space: u16,
    address: u64,
    bytes: &[u8],
) -> bool
    requires some { 0 < length bytes.now }
    requires one_line { address % LINE_BYTES + length bytes.now ≤ LINE_BYTES }
    requires held { AreTrue (state_of pages.old) cache.old }
    requires fronts { AreFronts pages.old (bare cache.old) fronts.old }
    requires small { AreOverlaysSmall (state_of pages.old) }
    ensures stores { result ≡ true → Stores pages.old pages.new space address bytes.now (Ok tt) }
    ensures front { result ≡ true → IsFront space (address / PAGE_BYTES) (bare cache.old) }
    ensures hits { result ≡ true → bare cache.new ≡ with_hits 1 (bare cache.old) }
    ensures kept { result ≡ false → (pages.new ≡ pages.old) × (cache.new ≡ cache.old) }
    ensures held { AreTrue (state_of pages.new) cache.new }
    ensures fronts { AreFronts pages.new (bare cache.new) fronts.new }
{
    let place = write_place(pages, fronts, space, address);
    if place == NO_PLACE {
        return false;
    }
    let at = (address % LINE_BYTES as u64) as usize;
    pages.line_at_place_mut(place)[at..at + bytes.len()].copy_from_slice(bytes);
    cache.count_hit();
    true
}

/// Stores bytes, some and all in one line of a page that was found. Where that can be written it takes no units.
#[inline(always)]
fn store_found(
    pages: &mut OverlayPages,
    cache: &mut Cache,
    fronts: &mut Fronts,
    space: u16,
    page: FoundPage,
    address: u64,
    bytes: &[u8],
) -> Came
    requires found { IsFoundPageAt pages.old space (address / PAGE_BYTES) page }
    requires some { 0 < length bytes.now }
    requires one_line { address % LINE_BYTES + length bytes.now ≤ LINE_BYTES }
    requires none_awaits { NoneAwaits (state_of pages.old) space }
    requires held { AreTrue (state_of pages.old) cache.old }
    requires fronts { AreFronts pages.old (bare cache.old) fronts.old }
    requires small { AreOverlaysSmall (state_of pages.old) }
    ensures stores { Stores pages.old pages.new space address bytes.now (result_at address result) }
    ensures held { AreTrue (state_of pages.new) cache.new }
    ensures lists { bare cache.new ≡ bare cache.old }
    ensures fronts { AreFronts pages.new (bare cache.new) fronts.new }
{
    if page.perms.contains(Perms::W) && put_where_it_stands(pages, space, &page, address, bytes) {
        return Came::Done;
    }
    store_apart(pages, cache, fronts, space, address, bytes)
}

/// As `store_line`, of a page that isn't known to be at the front of its list.
#[inline(always)]
fn store_anew(
    pages: &mut OverlayPages,
    cache: &mut Cache,
    fronts: &mut Fronts,
    space: u16,
    address: u64,
    bytes: &[u8],
) -> Came
    requires some { 0 < length bytes.now }
    requires one_line { address % LINE_BYTES + length bytes.now ≤ LINE_BYTES }
    requires none_awaits { NoneAwaits (state_of pages.old) space }
    requires held { AreTrue (state_of pages.old) cache.old }
    requires fronts { AreFronts pages.old (bare cache.old) fronts.old }
    requires small { AreOverlaysSmall (state_of pages.old) }
    ensures stores { Stores pages.old pages.new space address bytes.now (result_at address result) }
    ensures held { AreTrue (state_of pages.new) cache.new }
    ensures translated { bare cache.new
        ≡ translated space (memory_of (state_of pages.old) space) (address / PAGE_BYTES) (bare cache.old) }
    ensures fronts { AreFronts pages.new (bare cache.new) fronts.new }
{
    match translate_anew(pages, cache, fronts, space, address / PAGE_BYTES as u64) {
        Some(page) => store_found(pages, cache, fronts, space, page, address, bytes),
        None => store_apart(pages, cache, fronts, space, address, bytes),
    }
}

/// As `store` of `OverlayMemory`, of some bytes all in one line.
#[inline(always)]
pub(crate) fn store_line(
    pages: &mut OverlayPages,
    cache: &mut Cache,
    fronts: &mut Fronts,
    space: u16,
    address: u64,
    bytes: &[u8],
) -> Came
    requires some { 0 < length bytes.now }
    requires one_line { address % LINE_BYTES + length bytes.now ≤ LINE_BYTES }
    requires none_awaits { NoneAwaits (state_of pages.old) space }
    requires held { AreTrue (state_of pages.old) cache.old }
    requires fronts { AreFronts pages.old (bare cache.old) fronts.old }
    requires small { AreOverlaysSmall (state_of pages.old) }
    ensures stores { Stores pages.old pages.new space address bytes.now (result_at address result) }
    ensures held { AreTrue (state_of pages.new) cache.new }
    ensures translated { bare cache.new
        ≡ translated space (memory_of (state_of pages.old) space) (address / PAGE_BYTES) (bare cache.old) }
    ensures fronts { AreFronts pages.new (bare cache.new) fronts.new }
{
    match fronts.page(space, address / PAGE_BYTES as u64) {
        Some(known) => {
            let page = known.found;
            cache.count_hit();
            store_found(pages, cache, fronts, space, page, address, bytes)
        }
        None => store_anew(pages, cache, fronts, space, address, bytes),
    }
}
