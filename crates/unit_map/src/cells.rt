//! What is done to the table: a byte a unit, which says what starts there.
ghost use Rattle.std.specs.Prelude.{◌≡◌, ◌+◌, ◌*◌, ◌/◌, ◌^◌, ◌<◌, ◌≤◌, ◌⊎◌, ℕ, true, false, length, get_or};
ghost use Rattle.mark_levels.specs.Levels.{AreMarks};
ghost use Rattle.unit_map.specs.Changes.{CanMove};
ghost use Rattle.unit_map.specs.Cells.{code, pieces_of, with_free, CanClear, AreHalves, AreInside, AreSameBut, IsCleared, IsBlockOrHalf, IsIn, IsMerged, IsRange, IsSplit, IsTable, IsWiped};
ghost use Rattle.unit_map.specs.Counted.{AreCounts, CanCount, GoAlong};
ghost use Rattle.unit_map.specs.Moves.{IsCarried};

use crate::Block;
use crate::orders::{self, Counts};
use mark_levels::{Bytes, Level};
use sizes::{FRAME_ORDER, FRAME_UNITS};

/// No block starts at the unit.
pub const INSIDE: u8 = 0;

/// A free block of an order from 0 to 4 starts at the unit.
pub fn free(order: u8) -> u8
    requires { order ≤ 4 }
    ensures { result ≡ code true order }
{
    1 << order
}

/// A taken block of an order from 0 to 4 starts at the unit.
pub fn taken(order: u8) -> u8
    requires { order ≤ 4 }
    ensures { result ≡ code false order }
{
    32 * (order + 1)
}

/// Takes the lowest block of an order out of a free one of the order `from`, and frees the rest.
pub fn split(cells: &mut Bytes, unit: u32, from: u8, order: u8)
    requires low { order ≤ from }
    requires range { IsRange cells.old unit from }
    requires inside { AreInside cells.old (unit + 1) (unit + 2 ^ from) }
    ensures { IsSplit cells.old cells.new unit from order from }
{
    cells.set(unit, taken(order));
    'splitting: for below in order..from {
        cells.set(unit + (1u32 << below), free(below));
    }
}

/// Makes one free block of all that fills the range of a block, and merges it with its other half as long as that is
/// free too.
pub fn clear(cells: &mut Bytes, counts: &mut Counts, block: Block)
    requires table { IsTable cells.old }
    requires held { IsBlockOrHalf cells.old block.unit block.order }
    requires counts { CanCount counts.old (with_free cells.old block.unit block.order) }
    ensures table { IsTable cells.new }
    ensures cleared { IsCleared cells.old block.unit block.order (16 * (block.unit / 16)) 4 cells.new }
    ensures counts { GoAlong counts.old (with_free cells.old block.unit block.order) counts.new (pieces_of cells.new) }
{
    let frame = Block {
        unit: FRAME_UNITS * (block.unit / FRAME_UNITS),
        order: FRAME_ORDER,
    };
    clear_in(cells, counts, frame, block);
}

/// Lets what fills the range of a block of an order, whose other half is free, go to a free block of it. Of the range a free
/// block becomes, which is merged as one that was given.
pub fn carry(
    cells: &mut Bytes,
    marks: &mut Level,
    counts: &mut Counts,
    from: u32,
    to: u32,
    order: u8,
)
    requires table { IsTable cells.old }
    requires marks { AreMarks cells.old marks.old }
    requires can { CanMove (pieces_of cells.old) from to order }
    requires counts { AreCounts counts.old (pieces_of cells.old) }
    ensures carried { IsCarried cells.old from to order cells.new }
    ensures marks { AreMarks cells.new marks.new }
    ensures counts { AreCounts counts.new (pieces_of cells.new) }
{
    let part = lift(cells, from, order);
    counts[order as usize] += 1;
    clear(cells, counts, Block { unit: from, order });
    marks.mark(cells, from / FRAME_UNITS);
    lay(cells, to, order, part);
    marks.mark(cells, to / FRAME_UNITS);
    counts[order as usize] -= 1;
}

// The same within a larger block.
fn clear_in(cells: &mut Bytes, counts: &mut Counts, within: Block, block: Block)
    requires can { CanClear cells.old block.unit block.order within.unit within.order }
    requires counts { CanCount counts.old (with_free cells.old block.unit block.order) }
    ensures cleared { IsCleared cells.old block.unit block.order within.unit within.order cells.new }
    ensures counts { GoAlong counts.old (with_free cells.old block.unit block.order) counts.new (pieces_of cells.new) }
{
    if within.order == block.order {
        wipe(cells, block);
        return;
    }
    let half = half_with(within, block);
    clear_in(cells, counts, half, block);
    join(
        cells,
        counts,
        Block {
            unit: within.unit,
            order: half.order,
        },
    );
}

// The half of a block that a smaller block lies in.
fn half_with(within: Block, block: Block) -> Block
    requires place { IsIn block.unit block.order within.unit within.order }
    requires smaller { within.order ≡ block.order → ⊥ }
    requires few { within.unit + 2 ^ within.order ≤ 2 ^ 20 }
    ensures order { result.order + 1 ≡ within.order }
    ensures place { IsIn block.unit block.order result.unit result.order }
    ensures half { (result.unit ≡ within.unit) ⊎ (result.unit ≡ within.unit + 2 ^ result.order) }
{
    let order = within.order - 1;
    let upper = within.unit + (1u32 << order);
    let unit = if block.unit < upper {
        within.unit
    } else {
        upper
    };
    Block { unit, order }
}

// Makes one free block of the range of a block.
fn wipe(cells: &mut Bytes, block: Block)
    requires { IsRange cells.old block.unit block.order }
    ensures { IsWiped cells.old block.unit block.order cells.new }
{
    let end = block.unit + (1u32 << block.order);
    'wiping: for at in block.unit + 1..end {
        cells.set(at, INSIDE);
    }
    cells.set(block.unit, free(block.order));
}

// Makes one free block of two that are halves of it, the lower one of an order at a unit, if both are free.
fn join(cells: &mut Bytes, counts: &mut Counts, lower: Block)
    requires halves { AreHalves cells.old lower.unit lower.order }
    requires counts { CanCount counts.old (pieces_of cells.old) }
    ensures joined { IsMerged cells.old lower.unit lower.order cells.new }
    ensures counts { GoAlong counts.old (pieces_of cells.old) counts.new (pieces_of cells.new) }
{
    let upper = lower.unit + (1u32 << lower.order);
    let byte = free(lower.order);
    if cells.get(lower.unit) == byte && cells.get(upper) == byte {
        cells.set(upper, INSIDE);
        cells.set(lower.unit, free(lower.order + 1));
        orders::join(counts, lower.order);
    }
}

// The bytes of the range of a block below a frame.
fn lift(cells: &Bytes, from: u32, order: u8) -> [u8; 8]
    requires low { order < 4 }
    requires range { IsRange cells.now from order }
    ensures { (i : ℕ) → i < 2 ^ order → get_or result i 0 ≡ get_or cells.now (from + i) 0 }
{
    let mut part = [INSIDE; 8];
    'lifting: for i in 0..1u32 << order {
        part[i as usize] = cells.get(from + i);
    }
    part
}

// Puts bytes into the range of a block below a frame.
fn lay(cells: &mut Bytes, to: u32, order: u8, part: [u8; 8])
    requires low { order < 4 }
    requires range { IsRange cells.old to order }
    ensures same { AreSameBut to (2 ^ order) cells.old cells.new }
    ensures part { (i : ℕ) → i < 2 ^ order → get_or cells.new (to + i) 0 ≡ get_or part i 0 }
{
    'laying: for i in 0..1u32 << order {
        cells.set(to + i, part[i as usize]);
    }
}
