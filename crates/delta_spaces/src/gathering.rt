//! The delta of a space over a base.

ghost use Rattle.std.specs.Prelude.{◌≡◌, ◌+◌, ◌<◌, ◌≤◌, length, map, IfOk, IsSome, OnOk, true};
ghost use Rattle.sizes.specs.declared.TheConstants.{MOST_SPACE_PAGES, PAGE_END};
ghost use Rattle.overlay_pages.specs.State.{memory_of};
ghost use Rattle.overlay_pages.specs.Calls.{AreZeros};
ghost use Rattle.overlay_memory.specs.View.{NoneAwaits, state_of};
ghost use Rattle.space_maps.specs.Spaces.{holds_space, page_in};
ghost use Rattle.delta_image.specs.Applied.{applied, base_bytes, gathered, line_in};
ghost use Rattle.delta_image.specs.Fine.{Ascend, IsPlain};
ghost use Rattle.delta_spaces.specs.Gathered.{HasFitPages, IsGatheredPage, IsWalking, gathered_pages};

use crate::differing::{differing, line_of, zeros_of_both};
use delta_image::{Delta, DeltaLines, DeltaPage, DeltaPages};
use overlay_bits::Bits;
use overlay_memory::OverlayMemory;
use ovl_io::ProcessState;
use rv_execute::Regs;
use std::alloc::{AllocError, Global};

/// Some lines of a page that is there, each with its number.
fn gather_lines(
    alloc: Global,
    mem: &OverlayMemory,
    saved: u16,
    page: u64,
    numbers: Bits,
) -> Result<Vec<(u8, [u8; 64])>, AllocError>
    requires space { holds_space (state_of mem.now) saved ≡ true }
    requires there { IsSome (page_in (state_of mem.now) saved page) }
    requires low { page < PAGE_END }
    ensures { IfOk result (λ lines. lines.items ≡ map (λ i.
        (i, line_in (base_bytes (memory_of (state_of mem.now) saved) page) i)) numbers) }
{
    let mut lines = Vec::with_capacity(alloc, numbers.len() as usize)?;
    'gathering: for line in numbers.iter() {
        lines.push((line, line_of(mem, saved, page, line)))?;
    }
    Ok(lines)
}

/// A page that is there, with the lines in which it differs from the base's.
fn gather_page(
    alloc: Global,
    mem: &OverlayMemory,
    saved: u16,
    base: u16,
    page: u64,
) -> Result<DeltaPage, AllocError>
    requires saved_there { holds_space (state_of mem.now) saved ≡ true }
    requires base_there { holds_space (state_of mem.now) base ≡ true }
    requires there { IsSome (page_in (state_of mem.now) saved page) }
    requires low { page < PAGE_END }
    ensures { IfOk result (λ made. IsGatheredPage (memory_of (state_of mem.now) saved)
        (memory_of (state_of mem.now) base) page made) }
{
    let perms = mem.perms_of(saved, page);
    let lines = gather_lines(alloc, mem, saved, page, differing(mem, saved, base, page))?;
    Ok(DeltaPage {
        page,
        perms,
        lines: DeltaLines::new(lines),
    })
}

/// Gathers so many pages from one on, which are on the zero frame and without own lines in both spaces.
fn gather_zeros(
    alloc: Global,
    mem: &OverlayMemory,
    saved: u16,
    base: u16,
    page: u64,
    n: u32,
    pages: &mut Vec<DeltaPage>,
) -> Result<(), AllocError>
    requires zeros { AreZeros (state_of mem.now) saved page n }
    requires base_zeros { AreZeros (state_of mem.now) base page n }
    requires low { page + n ≤ PAGE_END }
    requires walking { IsWalking (memory_of (state_of mem.now) saved)
        (memory_of (state_of mem.now) base) pages.old.items page }
    ensures walking { OnOk result (IsWalking (memory_of (state_of mem.now) saved)
        (memory_of (state_of mem.now) base) pages.new.items (page + n)) }
{
    'gathering: for i in 0..n {
        let number = page + u64::from(i);
        let perms = mem.perms_of(saved, number);
        let lines = DeltaLines::new(Vec::new(alloc));
        pages.push(DeltaPage {
            page: number,
            perms,
            lines,
        })?;
    }
    Ok(())
}

/// Gathers a page that is there, or as many from it on as are on the zero frame and without own lines in both spaces. Answers the number
/// behind them.
fn gather_from(
    alloc: Global,
    mem: &OverlayMemory,
    saved: u16,
    base: u16,
    page: u64,
    pages: &mut Vec<DeltaPage>,
) -> Result<u64, AllocError>
    requires saved_there { holds_space (state_of mem.now) saved ≡ true }
    requires base_there { holds_space (state_of mem.now) base ≡ true }
    requires none_awaits { NoneAwaits (state_of mem.now) saved }
    requires base_none_awaits { NoneAwaits (state_of mem.now) base }
    requires there { IsSome (page_in (state_of mem.now) saved page) }
    requires low { page < PAGE_END }
    requires walking { IsWalking (memory_of (state_of mem.now) saved)
        (memory_of (state_of mem.now) base) pages.old.items page }
    ensures walking { IfOk result (λ at. IsWalking (memory_of (state_of mem.now) saved)
        (memory_of (state_of mem.now) base) pages.new.items at) }
    ensures ahead { IfOk result (λ at. page < at) }
{
    let n = zeros_of_both(mem, saved, base, page);
    if n == 0 {
        pages.push(gather_page(alloc, mem, saved, base, page)?)?;
        return Ok(page + 1);
    }
    gather_zeros(alloc, mem, saved, base, page, n, pages)?;
    Ok(page + u64::from(n))
}

/// The pages of a space, each with the lines in which it differs from the base's.
fn gather_pages(
    alloc: Global,
    mem: &OverlayMemory,
    saved: u16,
    base: u16,
) -> Result<Vec<DeltaPage>, AllocError>
    requires saved_there { holds_space (state_of mem.now) saved ≡ true }
    requires base_there { holds_space (state_of mem.now) base ≡ true }
    requires none_awaits { NoneAwaits (state_of mem.now) saved }
    requires base_none_awaits { NoneAwaits (state_of mem.now) base }
    ensures { IfOk result (λ pages. pages.items
        ≡ gathered_pages (memory_of (state_of mem.now) saved)
        (memory_of (state_of mem.now) base)) }
{
    let _here = mem.has_space(saved);
    let mut pages = Vec::with_capacity(alloc, mem.pages(saved) as usize)?;
    let mut at = 0;
    'gathering: while let Some(page) = mem.next_page(saved, at) {
        at = gather_from(alloc, mem, saved, base, page, &mut pages)?;
    }
    Ok(pages)
}

/// The delta of a space over a base, both of which are there and of which no page awaits, with a state and registers: each page of the
/// space with its permissions and the lines in which it differs from the base's page, or from zero where the base has no such page. An
/// error says that there was no memory for it. Costs a look-up for each page that is on the zero frame and without own lines in both; some
/// look-ups for each other page, two for each own line of one that has the frame of the base's, and for each line of any other one.
pub fn gather(
    alloc: Global,
    mem: &OverlayMemory,
    saved: u16,
    base: u16,
    state: ProcessState,
    regs: &Regs,
) -> Result<Delta, AllocError>
    requires saved_there { holds_space (state_of mem.now) saved ≡ true }
    requires base_there { holds_space (state_of mem.now) base ≡ true }
    requires none_awaits { NoneAwaits (state_of mem.now) saved }
    requires base_none_awaits { NoneAwaits (state_of mem.now) base }
    ensures gathers { IfOk result (λ delta. delta ≡ gathered state regs.now
        (memory_of (state_of mem.now) saved) (memory_of (state_of mem.now) base)) }
    ensures back { IfOk result (λ delta. applied delta (memory_of (state_of mem.now) base)
        ≡ memory_of (state_of mem.now) saved) }
    ensures few { IfOk result (λ delta. HasFitPages (memory_of (state_of mem.now) saved)
        → length delta.pages ≤ MOST_SPACE_PAGES) }
    ensures pages { IfOk result (λ delta. HasFitPages (memory_of (state_of mem.now) saved)
        → Ascend IsPlain 0 delta.pages) }
{
    let _here = mem.has_space(saved);
    let pages = gather_pages(alloc, mem, saved, base)?;
    Ok(Delta {
        state,
        regs: *regs,
        pages: DeltaPages::new(pages),
    })
}
