//! The lines in which a page of a space differs from the base's.

ghost use Rattle.std.specs.Prelude.{◌≡◌, ◌+◌, ◌<◌, ◌≤◌, IsSome, is_some, true};
ghost use Rattle.sizes.specs.declared.TheConstants.{PAGE_END, PAGE_LINES};
ghost use Rattle.overlay_bits.specs.Lines.{AreLines, lines_where};
ghost use Rattle.overlay_pages.specs.State.{memory_of};
ghost use Rattle.overlay_pages.specs.Calls.{AreZeros};
ghost use Rattle.overlay_memory.specs.View.{NoneAwaits, state_of};
ghost use Rattle.space_maps.specs.Spaces.{holds_space, page_in};
ghost use Rattle.delta_image.specs.Applied.{base_bytes, line_in};
ghost use Rattle.delta_spaces.specs.Gathered.{AreSameBeside, differs};

use overlay_bits::Bits;
use overlay_memory::OverlayMemory;
use sizes::{LINE_BYTES, PAGE_BYTES, PAGE_LINES};

/// How many pages from one on are on the zero frame and without own lines in both spaces. It may tell fewer than there are. Costs some
/// look-ups.
pub(crate) fn zeros_of_both(mem: &OverlayMemory, saved: u16, base: u16, page: u64) -> u32
    requires saved_there { holds_space (state_of mem.now) saved ≡ true }
    requires base_there { holds_space (state_of mem.now) base ≡ true }
    requires none_awaits { NoneAwaits (state_of mem.now) saved }
    requires base_none_awaits { NoneAwaits (state_of mem.now) base }
    ensures zeros { AreZeros (state_of mem.now) saved page result }
    ensures base_zeros { AreZeros (state_of mem.now) base page result }
    ensures low { 0 < result → page + result ≤ PAGE_END }
{
    let zeros = mem.zeros_from(saved, page);
    if zeros == 0 {
        return 0;
    }
    mem.zeros_from(base, page).min(zeros)
}

/// A line of a page that is there. Costs a look-up, and a copy of the line.
pub(crate) fn line_of(mem: &OverlayMemory, space: u16, page: u64, line: u8) -> [u8; 64]
    requires space { holds_space (state_of mem.now) space ≡ true }
    requires there { IsSome (page_in (state_of mem.now) space page) }
    requires low { page < PAGE_END }
    requires line { line < PAGE_LINES }
    ensures { result ≡ line_in (base_bytes (memory_of (state_of mem.now) space) page) line }
{
    let mut bytes = [0; 64];
    let address = PAGE_BYTES as u64 * page + LINE_BYTES as u64 * u64::from(line);
    match mem.read(space, address, &mut bytes) {
        Ok(()) => bytes,
        Err(_) => unreachable!(),
    }
}

/// A line of a page, zero where that isn't there.
fn line_or_zero(mem: &OverlayMemory, space: u16, page: u64, line: u8, there: bool) -> [u8; 64]
    requires space { holds_space (state_of mem.now) space ≡ true }
    requires there { there ≡ is_some (page_in (state_of mem.now) space page) }
    requires low { page < PAGE_END }
    requires line { line < PAGE_LINES }
    ensures { result ≡ line_in (base_bytes (memory_of (state_of mem.now) space) page) line }
{
    if there {
        line_of(mem, space, page, line)
    } else {
        [0; 64]
    }
}

/// Whether a line of a page that is there differs from the base's, which may be there.
fn is_different(
    mem: &OverlayMemory,
    saved: u16,
    base: u16,
    page: u64,
    line: u8,
    based: bool,
) -> bool
    requires saved_there { holds_space (state_of mem.now) saved ≡ true }
    requires base_there { holds_space (state_of mem.now) base ≡ true }
    requires there { IsSome (page_in (state_of mem.now) saved page) }
    requires based { based ≡ is_some (page_in (state_of mem.now) base page) }
    requires low { page < PAGE_END }
    requires line { line < PAGE_LINES }
    ensures { result ≡ differs (memory_of (state_of mem.now) saved)
        (memory_of (state_of mem.now) base) page line }
{
    line_of(mem, saved, page, line) != line_or_zero(mem, base, page, line, based)
}

/// The lines in which a page that is there and the base's, which may be there, may differ: on one frame the own lines of both. Costs some
/// look-ups.
fn may_differ(mem: &OverlayMemory, saved: u16, base: u16, page: u64, based: bool) -> Bits
    requires there { IsSome (page_in (state_of mem.now) saved page) }
    requires based { based ≡ is_some (page_in (state_of mem.now) base page) }
    ensures same { AreSameBeside (state_of mem.now) saved base page result }
    ensures are { AreLines result }
{
    if based && mem.frame_of(saved, page) == mem.frame_of(base, page) {
        mem.lines_of(saved, page).union(mem.lines_of(base, page))
    } else {
        Bits::range(0, PAGE_LINES as u8)
    }
}

/// Of some lines of a page that is there those that differ from the base's, which may be there.
fn those_apart(
    mem: &OverlayMemory,
    saved: u16,
    base: u16,
    page: u64,
    based: bool,
    may: Bits,
) -> Bits
    requires saved_there { holds_space (state_of mem.now) saved ≡ true }
    requires base_there { holds_space (state_of mem.now) base ≡ true }
    requires there { IsSome (page_in (state_of mem.now) saved page) }
    requires based { based ≡ is_some (page_in (state_of mem.now) base page) }
    requires low { page < PAGE_END }
    requires same { AreSameBeside (state_of mem.now) saved base page may }
    ensures lines { result ≡ lines_where (differs (memory_of (state_of mem.now) saved)
        (memory_of (state_of mem.now) base) page) }
    ensures are { AreLines result }
{
    let mut lines = Bits::empty();
    'looking: for line in may.iter() {
        if is_different(mem, saved, base, page, line, based) {
            lines = lines.with(line);
        }
    }
    lines
}

/// The lines in which a page that is there differs from the base's, or from zero where the base has no such page. On one frame
/// the own lines of both are looked at alone, and no other byte.
pub(crate) fn differing(mem: &OverlayMemory, saved: u16, base: u16, page: u64) -> Bits
    requires saved_there { holds_space (state_of mem.now) saved ≡ true }
    requires base_there { holds_space (state_of mem.now) base ≡ true }
    requires there { IsSome (page_in (state_of mem.now) saved page) }
    requires low { page < PAGE_END }
    ensures lines { result ≡ lines_where (differs (memory_of (state_of mem.now) saved)
        (memory_of (state_of mem.now) base) page) }
    ensures are { AreLines result }
{
    let based = mem.has_page(base, page);
    let may = may_differ(mem, saved, base, page, based);
    those_apart(mem, saved, base, page, based, may)
}
