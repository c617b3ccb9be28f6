//! Where the lines of segments stand in the region, and how they get their places.
ghost use Rattle.std.specs.Prelude.{◌≡◌, ◌+◌, ◌-◌, ◌*◌, ◌^◌, ◌<◌, ◌≤◌, cond, length, nat_eq};
ghost use Rattle.sizes.specs.declared.TheConstants.{PAGE_LINES};
ghost use Rattle.overlay_bits.specs.Lines.{AreLines};
ghost use Rattle.segment_store.specs.Pointers.{capacity_of, slot_of};
ghost use Rattle.segment_store.specs.Store.{place_in};
ghost use Rattle.segment_store.specs.Places.{BeginsLines, HasBlock, HasFreeSlot, HasNoLine, IsApartFrom, LieIn, Reserves, LiftsLines, LaysLines, LaysOver, CopiesPage};

use crate::lines::StoreLines;
use crate::pointers;
use overlay_bits::Bits;
use unit_map::Block;

/// Where a line of the segment at a block stands, by the first line of the block, which below order 4 is the line of
/// pointers.
#[inline(always)]
fn place_by(pointers: &[u8; 64], block: Block, line: u8) -> u32
    requires line { line < 64 }
    requires low { 4 * block.unit + 64 < 2 ^ 32 }
    ensures { result ≡ 4 * block.unit + cond (nat_eq block.order 4) line (slot_of pointers.now line) }
{
    let first = 4 * block.unit;
    if block.order == 4 {
        return first + u32::from(line);
    }
    first + u32::from(pointers::slot(pointers, line))
}

/// Where a line of the segment at a block stands.
#[inline]
pub(crate) fn place(region: &StoreLines, block: Block, line: u8) -> u32
    requires line { line < 64 }
    requires block { HasBlock region.now block }
    ensures { result ≡ place_in region.now block.unit block.order line }
{
    place_by(region.line(4 * block.unit), block, line)
}

/// Begins an empty segment at a block: below order 4 with a line of pointers.
pub(crate) fn begin(region: &mut StoreLines, block: Block)
    requires block { HasBlock region.old block }
    ensures begins { BeginsLines region.old region.new block }
{
    if block.order < 4 {
        region.put_line(4 * block.unit, &pointers::empty(block.order));
    }
}

/// Gives an absent line of the segment at a block a place, and answers it. Below order 4 it is the lowest
/// free slot.
#[inline]
pub(crate) fn reserve(region: &mut StoreLines, block: Block, line: u8) -> u32
    requires line { line < 64 }
    requires block { HasBlock region.old block }
    requires free { HasFreeSlot region.old block }
    ensures place { result ≡ place_in region.new block.unit block.order line }
    ensures reserves { Reserves region.old region.new block line }
{
    let first = 4 * block.unit;
    let whole = block.order == 4;
    if whole {
        return first + u32::from(line);
    }
    let slot = pointers::insert(region.line_mut(first), line);
    first + u32::from(slot)
}

/// Copies the lines of the segment at a block to their own places in scratch.
pub(crate) fn lift(region: &mut StoreLines, block: Block, bits: Bits)
    requires block { HasBlock region.old block }
    requires lie { LieIn region.old block bits }
    ensures are { AreLines bits }
    ensures lifts { LiftsLines (length region.old - PAGE_LINES) block bits region.old region.new }
{
    let pointers = *region.line(4 * block.unit);
    'lifting: for line in bits.iter() {
        let at = place_by(&pointers, block, line);
        region.lift_line(at, line);
    }
}

/// Copies the lines of the segment at a block to their own places in a page, which lies before scratch and apart from the block.
pub(crate) fn lay_in_page(region: &mut StoreLines, block: Block, bits: Bits, first: u32)
    requires block { HasBlock region.old block }
    requires lie { LieIn region.old block bits }
    requires inside { first + 2 * PAGE_LINES ≤ length region.old }
    requires apart { IsApartFrom block first }
    ensures are { AreLines bits }
    ensures lifts { LiftsLines first block bits region.old region.new }
{
    let pointers = *region.line(4 * block.unit);
    'laying: for line in bits.iter() {
        let at = place_by(&pointers, block, line);
        region.copy_line(at, first + u32::from(line));
    }
}

/// Takes lines from their own places in scratch into the segment at a block, which has none.
pub(crate) fn lay(region: &mut StoreLines, block: Block, bits: Bits)
    requires block { HasBlock region.old block }
    requires empty { HasNoLine region.old block }
    requires room { length bits ≤ capacity_of block.order }
    ensures are { AreLines bits }
    ensures lays { LaysLines (length region.old - PAGE_LINES) block bits bits region.old region.new }
{
    'laying: for line in bits.iter() {
        let at = reserve(region, block, line);
        region.lay_line(line, at);
    }
}

/// Copies lines of scratch over those of the same numbers in a page, which lies before scratch.
pub(crate) fn lay_over(region: &mut StoreLines, first: u32, bits: Bits)
    requires inside { first + 2 * PAGE_LINES ≤ length region.old }
    requires few { length region.old ≤ 2 ^ 23 }
    ensures { LaysOver (length region.old - PAGE_LINES) first bits region.old region.new }
{
    'laying: for line in bits.iter() {
        region.lay_line(line, first + u32::from(line));
    }
}

/// Makes the lines of a frame those of a frame, maybe of the same. Both lie before scratch.
pub(crate) fn copy_page(region: &mut StoreLines, from: u32, to: u32)
    requires source { PAGE_LINES * from + 2 * PAGE_LINES ≤ length region.old }
    requires target { PAGE_LINES * to + 2 * PAGE_LINES ≤ length region.old }
    requires few { length region.old ≤ 2 ^ 23 }
    ensures { CopiesPage (PAGE_LINES * from) (PAGE_LINES * to) region.old region.new }
{
    if from != to {
        region.copy_lines(64 * from, 64 * to, 64);
    }
}
