ghost use Rattle.std.specs.Prelude.{◌<◌};

use super::plain_pages::{ALL, PAGES, Plain, PlainPage, SPACES};
use super::spaces::{Spaces, open};
use overlay_memory::MemoryError;
use sizes::PAGE_BYTES;
use std::process::Abort;
use std::test::Fail;

// So few frames that what is asked for is often full.
const FRAMES: u32 = 10;

// A memory, and the plain pages beside it.
#[derive(Drop)]
struct Both {
    spaces: Spaces,
    plain: Plain,
}

// The space of a page, and its number there.
fn space_of(at: usize) -> u16
    requires { at < ALL }
{
    (at / PAGES) as u16 + 1
}

fn page_of(at: usize) -> u64
    requires { at < ALL }
    ensures { result < PAGES }
{
    (at % PAGES) as u64
}

// The page at a place isn't there, and comes.
fn bring_page(rt: &impl Abort, both: &mut Both, at: usize, seed: u32) -> Result<(), Fail>
    requires { at < ALL }
{
    let byte = (seed % 256) as u8;
    if byte < 128 {
        both.spaces
            .map_zero(rt, space_of(at), page_of(at), 1, open())?;
        both.plain.map_zero(at);
    } else {
        let expected = both.plain.place(at, byte);
        let bytes = [byte; PAGE_BYTES];
        let placed = both
            .spaces
            .place_page(rt, space_of(at), page_of(at), open(), &bytes);
        assert_eq!(rt; placed, expected);
    }
    Ok(())
}

// Up to 12 lines of a page get a byte at their front.
fn write_page(rt: &impl Abort, both: &mut Both, at: usize, page: PlainPage, seed: u32)
    requires { at < ALL }
{
    let byte = (seed % 256) as u8;
    let line = (seed >> 8) as usize % 64;
    let end = 64.min(line + 1 + ((seed >> 14) as usize % 12));
    let speculating = both.spaces.memory.is_speculating(space_of(at));
    let expected = both.plain.write(at, page, speculating, line, end, byte);
    assert!(rt; line < end);
    let length = 64 * (end - line) - 63;
    assert!(rt; length <= PAGE_BYTES);
    let bytes = [byte; PAGE_BYTES];
    let address = 4096 * page_of(at) + 64 * line as u64;
    let written = both
        .spaces
        .write(rt, space_of(at), address, &bytes[..length]);
    assert_eq!(rt; written, expected);
}

// The own lines of a page go into its frame, or into a new one.
fn settle_page(rt: &impl Abort, both: &mut Both, at: usize, page: PlainPage)
    requires { at < ALL }
{
    if both.plain.is_alone(&page) {
        both.plain.commit(at, page);
        both.spaces.commit_page(rt, space_of(at), page_of(at));
    } else if both.plain.is_overlaid(&page) {
        if both.plain.copy_commit(at, page) {
            both.spaces.copy_commit_page(rt, space_of(at), page_of(at));
        } else {
            assert!(rt; !both.spaces.can_copy(rt, space_of(at), page_of(at)));
        }
    }
}

// Something happens to a page that is there.
fn change_page(rt: &impl Abort, both: &mut Both, at: usize, page: PlainPage, seed: u32)
    requires { at < ALL }
{
    match (seed >> 20) % 16 {
        0 => {
            both.plain.pages[at] = None;
            both.spaces.unmap(rt, space_of(at), page_of(at), 1);
        }
        1 => {
            both.plain.discard(at, page);
            both.spaces.discard_page(rt, space_of(at), page_of(at));
        }
        2 | 3 => settle_page(rt, both, at, page),
        _ => write_page(rt, both, at, page, seed),
    }
}

// A space comes, with no page or those of another one.
fn bring_space(rt: &impl Abort, both: &mut Both, to: usize, from: usize) -> Result<(), Fail>
    requires to { to < SPACES }
    requires from { from < SPACES }
{
    let (source, target) = (from as u16 + 1, to as u16 + 1);
    if both.spaces.memory.has_space(source) && !both.spaces.memory.is_speculating(source) {
        let expected = both.plain.fork(from, to);
        assert_eq!(rt; both.spaces.fork(rt, source, target), expected);
    } else {
        both.spaces.add_space(rt, target)?;
    }
    Ok(())
}

// The large pages of a space are settled, as they are before its mark is taken away.
fn settle_large(rt: &impl Abort, both: &mut Both, space: usize)
    requires { space < SPACES }
{
    'settling: for i in 0..PAGES {
        let at = PAGES * space + i;
        if let Some(page) = both.plain.pages[at] {
            if both.plain.is_large(&page) {
                settle_page(rt, both, at, page);
            }
        }
    }
}

// A space goes, or is marked or unmarked.
fn turn_space(rt: &impl Abort, both: &mut Both, space: usize, seed: u32)
    requires { space < SPACES }
{
    let number = space as u16 + 1;
    if seed % 2 == 0 {
        both.plain.clear(space);
        both.spaces.drop_space(rt, number);
    } else {
        let on = !both.spaces.memory.is_speculating(number);
        if !on {
            settle_large(rt, both, space);
        }
        both.spaces.set_speculating(rt, number, on);
    }
}

// A call of some kind.
fn call(rt: &impl Abort, both: &mut Both, seed: u32) -> Result<(), Fail> {
    let at = (seed >> 24) as usize % ALL;
    let space = at / PAGES;
    if !both.spaces.memory.has_space(space_of(at)) {
        return bring_space(rt, both, space, seed as usize % SPACES);
    }
    if (seed >> 3) % 16 == 0 {
        turn_space(rt, both, space, seed >> 8);
        return Ok(());
    }
    match both.plain.pages[at] {
        Some(page) => {
            change_page(rt, both, at, page, seed);
            Ok(())
        }
        None => bring_page(rt, both, at, seed),
    }
}

// A page is there with what the plain one has, or neither is.
fn assert_page(rt: &impl Abort, both: &Both, at: usize)
    requires { at < ALL }
{
    let mut bytes = [0; PAGE_BYTES];
    let address = 4096 * page_of(at);
    let read = both.spaces.read(rt, space_of(at), address, &mut bytes);
    match both.plain.pages[at] {
        Some(page) => {
            assert_eq!(rt; read, Ok(()));
            for line in 0..64 {
                assert_eq!(rt; bytes[64 * line], page.seen[line], "line {line} of {at}");
            }
        }
        None => assert_eq!(rt; read, Err(MemoryError::Unmapped(address))),
    }
}

// As many units and lines are counted as the plain pages have.
fn assert_counts(rt: &impl Abort, both: &Both) {
    assert_eq!(rt; both.spaces.memory.units(), both.plain.units());
    assert_eq!(rt; both.spaces.memory.lines(), both.plain.lines());
}

// All pages are as the plain ones.
fn assert_pages(rt: &impl Abort, both: &Both) {
    for at in 0..ALL {
        if both.spaces.memory.has_space(space_of(at)) {
            assert_page(rt, both, at);
        }
    }
}

#[test]
fn a_memory_shows_what_plain_pages_have(rt: HostRuntime) -> Result<(), Fail> {
    let mut both = Both {
        spaces: Spaces::new(&rt, rt.alloc(), FRAMES)?,
        plain: Plain::new(16 * FRAMES),
    };
    let mut seed = 1u32;
    for number in 0..4000 {
        seed ^= seed << 13;
        seed ^= seed >> 17;
        seed ^= seed << 5;
        call(&rt, &mut both, seed)?;
        assert_counts(&rt, &both);
        if number % 16 == 0 {
            assert_pages(&rt, &both);
        }
    }
    Ok(())
}
