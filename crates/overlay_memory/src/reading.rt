//! Bytes out of the lines of pages.

ghost use Rattle.std.specs.Prelude.{◌≡◌, ◌+◌, ◌/◌, ◌%◌, ◌<◌, ◌≤◌, length, Ok, OnOk, true, false};
ghost use Rattle.sizes.specs.declared.TheConstants.{ADDRESS_END, LINE_BYTES, PAGE_BYTES, PAGE_LINES};
ghost use Rattle.ovl_io.specs.Memory.{bytes_at};
ghost use Rattle.ovl_io.specs.Permissions.{readable};
ghost use Rattle.overlay_pages.specs.State.{memory_of};
ghost use Rattle.overlay_pages.specs.View.{IsJoined, state_of};
ghost use Rattle.overlay_memory.specs.Access.{FindsIn, IsFoundIn, Reads};
ghost use Rattle.overlay_memory.specs.Fronts.{AreFronts};
ghost use Rattle.overlay_memory.specs.Pieces.{Finds, Permits, result_at};
ghost use Rattle.overlay_memory.specs.View.{AreTrue};
ghost use Rattle.translation_cache.specs.Bare.{bare};
ghost use Rattle.translation_cache.specs.Counted.{translated};
ghost use Rattle.translation_cache.specs.CountedLaws.{IsFront};
ghost use Rattle.translation_cache.specs.Translations.{with_hits};

use crate::epochs::NO_PLACE;
use crate::error::{Came, MemoryError, result_at};
use crate::fronts::Fronts;
use crate::places::read_place;
use crate::translating::translate_anew;
use bitflags::Flags;
use overlay_pages::{FoundLine, OverlayPages};
use ovl_io::Perms;
use sizes::{LINE_BYTES, PAGE_BYTES, PAGE_LINES};
use translation_cache::Cache;

/// The number of the line of its page that an address lies in.
#[inline(always)]
pub(crate) fn line_of(address: u64) -> u8
    ensures line { result ≡ address / LINE_BYTES % PAGE_LINES }
    ensures low { result < PAGE_LINES }
{
    (address / LINE_BYTES as u64 % PAGE_LINES as u64) as u8
}

/// Whether some bytes from an address on all lie in one line.
#[inline(always)]
pub(crate) fn is_in_line(address: u64, count: usize) -> bool
    ensures { result ≡ true → (0 < count) × (address % LINE_BYTES + count ≤ LINE_BYTES) }
{
    0 < count && count <= LINE_BYTES - (address % LINE_BYTES as u64) as usize
}

/// Finds the line with the byte at an address. None exactly where its page isn't there.
pub(crate) fn find_line(pages: &OverlayPages, space: u16, address: u64) -> Option<FoundLine>
    ensures found { FindsIn pages.now space address result }
    ensures joined { IsJoined pages.now }
{
    pages.find(space, address / PAGE_BYTES as u64, line_of(address))
}

/// Finds the line with the byte at an address, which may be used so: its page is there and has the permission.
pub(crate) fn find(
    pages: &OverlayPages,
    space: u16,
    address: u64,
    need: Perms,
) -> Result<FoundLine, MemoryError>
    ensures { Finds pages.now space need.0 address result }
{
    match find_line(pages, space, address) {
        Some(found) => {
            if found.perms.contains(need) {
                Ok(found)
            } else {
                Err(MemoryError::Forbidden(address))
            }
        }
        None => Err(MemoryError::Unmapped(address)),
    }
}

/// Whether the byte at an address may be used so.
pub(crate) fn permit(
    pages: &OverlayPages,
    space: u16,
    address: u64,
    need: Perms,
) -> Result<(), MemoryError>
    ensures { Permits pages.now space need.0 address result }
{
    match find(pages, space, address, need) {
        Ok(_) => Ok(()),
        Err(error) => Err(error),
    }
}

/// Fills `into`, of some bytes, with those from an address on, all in a line that was found.
#[inline(always)]
pub(crate) fn read_found(
    pages: &OverlayPages,
    found: FoundLine,
    address: u64,
    into: &mut [u8],
    need: Perms,
) -> Came
    requires found { IsFoundIn pages.now found.space address found }
    requires some { 0 < length into.old }
    requires one_line { address % LINE_BYTES + length into.old ≤ LINE_BYTES }
    ensures access { Reads (state_of pages.now) found.space need.0 address (length into.old)
        (result_at address result) }
    ensures bytes { OnOk (result_at address result) (into.new
        ≡ bytes_at (memory_of (state_of pages.now) found.space) address (length into.old)) }
    ensures kept { length into.new ≡ length into.old }
    ensures low { OnOk (result_at address result) (address < ADDRESS_END) }
{
    let at = (address % LINE_BYTES as u64) as usize;
    let bytes = pages.line_at(found);
    if found.perms.contains(need) {
        into.copy_from_slice(&bytes[at..at + into.len()]);
        Came::Done
    } else {
        Came::Forbidden
    }
}

/// Fills `into`, of some bytes, with those from an address on, all in one line.
fn read_line(
    pages: &OverlayPages,
    space: u16,
    address: u64,
    into: &mut [u8],
    need: Perms,
) -> Result<(), MemoryError>
    requires some { 0 < length into.old }
    requires one_line { address % LINE_BYTES + length into.old ≤ LINE_BYTES }
    ensures access { Reads (state_of pages.now) space need.0 address (length into.old) result }
    ensures bytes { OnOk result (into.new
        ≡ bytes_at (memory_of (state_of pages.now) space) address (length into.old)) }
    ensures kept { length into.new ≡ length into.old }
    ensures low { OnOk result (address < ADDRESS_END) }
{
    match find_line(pages, space, address) {
        Some(found) => result_at(address, read_found(pages, found, address, into, need)),
        None => Err(MemoryError::Unmapped(address)),
    }
}

/// Fills `into` with the bytes from an address on, line by line.
#[cold]
#[inline(never)]
fn read_lines(
    pages: &OverlayPages,
    space: u16,
    address: u64,
    into: &mut [u8],
    need: Perms,
) -> Result<(), MemoryError>
    ensures access { Reads (state_of pages.now) space need.0 address (length into.old) result }
    ensures bytes { OnOk result (into.new
        ≡ bytes_at (memory_of (state_of pages.now) space) address (length into.old)) }
    ensures kept { length into.new ≡ length into.old }
{
    let mut done = 0;
    'reading: while done < into.len() {
        let from = address + done as u64;
        let room = LINE_BYTES - (from % LINE_BYTES as u64) as usize;
        let n = room.min(into.len() - done);
        match read_line(pages, space, from, &mut into[done..done + n], need) {
            Ok(()) => done += n,
            Err(error) => return Err(error),
        }
    }
    Ok(())
}

/// Fills `into` with the bytes from an address on, for which each page needs the permission.
pub(crate) fn read_bytes(
    pages: &OverlayPages,
    space: u16,
    address: u64,
    into: &mut [u8],
    need: Perms,
) -> Result<(), MemoryError>
    ensures access { Reads (state_of pages.now) space need.0 address (length into.old) result }
    ensures bytes { OnOk result (into.new
        ≡ bytes_at (memory_of (state_of pages.now) space) address (length into.old)) }
    ensures kept { length into.new ≡ length into.old }
{
    if is_in_line(address, into.len()) {
        return read_line(pages, space, address, into, need);
    }
    read_lines(pages, space, address, into, need)
}

/// As `load_line`, of a page that isn't known to be at the front of its list.
#[inline(always)]
fn load_anew(
    pages: &OverlayPages,
    cache: &mut Cache,
    fronts: &mut Fronts,
    space: u16,
    address: u64,
    into: &mut [u8],
    need: Perms,
) -> Came
    requires some { 0 < length into.old }
    requires one_line { address % LINE_BYTES + length into.old ≤ LINE_BYTES }
    requires held { AreTrue (state_of pages.now) cache.old }
    requires fronts { AreFronts pages.now (bare cache.old) fronts.old }
    ensures access { Reads (state_of pages.now) space need.0 address (length into.old)
        (result_at address result) }
    ensures bytes { OnOk (result_at address result) (into.new
        ≡ bytes_at (memory_of (state_of pages.now) space) address (length into.old)) }
    ensures kept { length into.new ≡ length into.old }
    ensures translated { bare cache.new
        ≡ translated space (memory_of (state_of pages.now) space) (address / PAGE_BYTES) (bare cache.old) }
    ensures held { AreTrue (state_of pages.now) cache.new }
    ensures fronts { AreFronts pages.now (bare cache.new) fronts.new }
{
    match translate_anew(pages, cache, fronts, space, address / PAGE_BYTES as u64) {
        Some(page) => read_found(pages, page.line(line_of(address)), address, into, need),
        None => Came::Unmapped,
    }
}

/// As `load` of `OverlayMemory`, of some bytes all in one line.
#[inline(always)]
pub(crate) fn load_line(
    pages: &OverlayPages,
    cache: &mut Cache,
    fronts: &mut Fronts,
    space: u16,
    address: u64,
    into: &mut [u8],
    need: Perms,
) -> Came
    requires some { 0 < length into.old }
    requires one_line { address % LINE_BYTES + length into.old ≤ LINE_BYTES }
    requires held { AreTrue (state_of pages.now) cache.old }
    requires fronts { AreFronts pages.now (bare cache.old) fronts.old }
    ensures access { Reads (state_of pages.now) space need.0 address (length into.old)
        (result_at address result) }
    ensures bytes { OnOk (result_at address result) (into.new
        ≡ bytes_at (memory_of (state_of pages.now) space) address (length into.old)) }
    ensures kept { length into.new ≡ length into.old }
    ensures translated { bare cache.new
        ≡ translated space (memory_of (state_of pages.now) space) (address / PAGE_BYTES) (bare cache.old) }
    ensures held { AreTrue (state_of pages.now) cache.new }
    ensures fronts { AreFronts pages.now (bare cache.new) fronts.new }
{
    match fronts.page(space, address / PAGE_BYTES as u64) {
        Some(known) => {
            cache.count_hit();
            read_found(
                pages,
                known.found.line(line_of(address)),
                address,
                into,
                need,
            )
        }
        None => load_anew(pages, cache, fronts, space, address, into, need),
    }
}

/// As `load_front` of `OverlayMemory`.
#[inline(always)]
pub(crate) fn load_front(
    pages: &OverlayPages,
    cache: &mut Cache,
    fronts: &mut Fronts,
    space: u16,
    address: u64,
    into: &mut [u8],
) -> bool
    requires some { 0 < length into.old }
    requires one_line { address % LINE_BYTES + length into.old ≤ LINE_BYTES }
    requires held { AreTrue (state_of pages.now) cache.old }
    requires fronts { AreFronts pages.now (bare cache.old) fronts.old }
    ensures access { result ≡ true
        → Reads (state_of pages.now) space readable address (length into.old) (Ok tt) }
    ensures bytes { result ≡ true
        → into.new ≡ bytes_at (memory_of (state_of pages.now) space) address (length into.old) }
    ensures kept { length into.new ≡ length into.old }
    ensures front { result ≡ true → IsFront space (address / PAGE_BYTES) (bare cache.old) }
    ensures hits { result ≡ true → bare cache.new ≡ with_hits 1 (bare cache.old) }
    ensures unmoved { result ≡ false → cache.new ≡ cache.old }
    ensures held { AreTrue (state_of pages.now) cache.new }
    ensures fronts { AreFronts pages.now (bare cache.new) fronts.new }
{
    let place = read_place(pages, fronts, space, address);
    if place == NO_PLACE {
        return false;
    }
    let at = (address % LINE_BYTES as u64) as usize;
    let line = pages.line_at_place(place);
    into.copy_from_slice(&line[at..at + into.len()]);
    cache.count_hit();
    true
}
