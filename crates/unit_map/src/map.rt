ghost use Rattle.std.specs.Prelude.{◌≡◌, ◌↔◌, ◌+◌, ◌*◌, ◌^◌, ◌<◌, ◌≤◌, IfOk, IfSome, IsTrue, None, false, replicate};
ghost use Rattle.sizes.specs.declared.TheConstants.{MOST_FRAMES};
ghost use Rattle.mark_levels.specs.Levels.{AreMarks};
ghost use Rattle.unit_map.specs.Pieces.{ArePieces, AreSettled, AreSettledBut, IsPiece, AreBlocksApart, free_blocks, free_by_order, free_frames, free_units, taken_at, units_in};
ghost use Rattle.unit_map.specs.Changes.{HasRoom, IsFull, Gives, CanMove, Relocates, KeepsTaken, KeepsOthers, KeepsOutside, MovesInside, OnlyTakes, OnlyGives, OnlyMoves};
ghost use Rattle.unit_map.specs.Cells.{IsTable, pieces_of};
ghost use Rattle.unit_map.specs.Blocks.{AreTwoBlocks, IsTakenBlock, IsWithin, LosesUnits, OverlapsNone, TakesAsked};

use crate::orders::{self, Counts};
use crate::{Block, cells};
use mark_levels::{Bytes, End, Level};
use sizes::{FRAME_ORDER, FRAME_UNITS};
use std::alloc::{AllocError, Global};
use std::marker::Model;

/// Which blocks of a memory are free, and which are taken.
#[derive(Drop)]
pub struct UnitMap {
    // a byte a unit, which says what starts there
    cells: Bytes,
    // a mark a frame, with the bits that its bytes have
    marks: Level,
    // how many free blocks there are of each order
    counts: Counts,
    // how many units are free
    free: u32,
}

impl Model for UnitMap {
    ghost use Rattle.std.specs.Prelude.{List};
    ghost use Rattle.unit_map.specs.Pieces.{Piece};
    ghost use Rattle.unit_map.specs.Cells.{pieces_of};
    ghost use Rattle.unit_map.specs.Maps.{IsMap};

    ghost Value = { List Piece };

    ghost view = { λ m. pieces_of m.cells };

    ghost invariant = { λ m. IsMap m.cells m.marks m.counts m.free };
}

impl UnitMap {
    /// A map of 1 to 65,536 frames: one free block of order 4 for each. Takes all the memory that the map
    /// ever needs, or answers the want of it.
    pub fn new(alloc: Global, frames: u32) -> Result<UnitMap, AllocError>
        requires some { 0 < frames }
        requires few { frames ≤ MOST_FRAMES }
        ensures free { IfOk result (λ map. map ≡ free_frames 0 frames) }
        ensures pieces { IfOk result (λ map. ArePieces map) }
    {
        let mut cells = Bytes::new(alloc, frames)?;
        let mut marks = Level::marks(alloc, frames)?;
        free_all(&mut cells, &mut marks, frames);
        Ok(UnitMap {
            cells,
            marks,
            counts: [0, 0, 0, 0, frames],
            free: FRAME_UNITS * frames,
        })
    }

    /// Takes a block of an order from 0 to 4 out of a free block of the least order that is enough, which is
    /// split as needed. None, and nothing changes, where no free block has that order or above.
    /// Takes no memory. Costs a few steps for each of at most five levels of bytes and marks.
    pub fn take(&mut self, order: u8) -> Option<Block>
        requires { order ≤ 4 }
        ensures none { result ≡ None → IsFull self.old order × (self.new ≡ self.old) }
        ensures pieces { ArePieces self.new }
        ensures some { IfSome result (TakesAsked self.old order self.new) }
        ensures taken { IfSome result (IsTakenBlock self.new) }
        ensures others { KeepsTaken self.old self.new }
        ensures only { IfSome result (λ block. OnlyTakes self.old block.unit block.order self.new) }
        ensures units { units_in self.new ≡ units_in self.old }
        ensures free { IfSome result (LosesUnits self.old self.new) }
        ensures within { IfSome result (IsWithin self.old) }
        ensures apart { IfSome result (OverlapsNone self.old) }
        ensures settled { AreSettled self.old → AreSettled self.new }
    {
        let from = self.marks.least_below(order, FRAME_ORDER + 1)?;
        let unit = self.marks.nearest_below(&self.cells, from, End::Low)?;
        cells::split(&mut self.cells, unit, from, order);
        self.marks.mark(&self.cells, unit / FRAME_UNITS);
        orders::split(&mut self.counts, from, order);
        self.free -= 1u32 << order;
        Some(Block { unit, order })
    }

    /// Frees a block that is taken, and merges free halves of one block until no two are left.
    /// Takes no memory. Costs a few steps for each of at most five levels of bytes and marks.
    pub fn give(&mut self, block: Block)
        requires { IsPiece self.old (taken_at block.unit block.order) }
        ensures gives { Gives self.old block.unit block.order self.new }
        ensures others { KeepsOthers self.old block.unit self.new }
        ensures only { OnlyGives self.old block.unit self.new }
        ensures units { units_in self.new ≡ units_in self.old }
        ensures free { free_units self.new ≡ free_units self.old + 2 ^ block.order }
        ensures pieces { ArePieces self.new }
        ensures settled { AreSettled self.old → AreSettledBut self.new block.order }
    {
        self.counts[block.order as usize] += 1;
        cells::clear(&mut self.cells, &mut self.counts, block);
        self.marks.mark(&self.cells, block.unit / FRAME_UNITS);
        self.free += 1u32 << block.order;
    }

    /// How many units are free. Costs a step.
    pub fn free_units(&self) -> u32
        ensures sum { result ≡ free_units self.now }
        ensures orders { result ≡ free_by_order self.now }
        ensures pieces { ArePieces self.now }
    {
        self.free
    }

    /// Whether a block of an order from 0 to 4 can be taken. Costs a step for each order.
    pub fn has_room(&self, order: u8) -> bool
        requires { order ≤ 4 }
        ensures room { IsTrue result → HasRoom self.now order }
        ensures full { result ≡ false → IsFull self.now order }
        ensures settled { AreSettled self.now → IsTrue result ↔ (2 ^ order ≤ free_units self.now) }
        ensures pieces { ArePieces self.now }
    {
        match self.marks.least_below(order, FRAME_ORDER + 1) {
            None => false,
            Some(_) => true,
        }
    }

    /// Two free blocks of an order from 0 to 4, the lower one first. None where there are fewer than two.
    /// Costs a few steps for each of at most five levels of bytes and marks where there are two, and else one step.
    pub fn two_free(&self, order: u8) -> Option<(Block, Block)>
        requires { order ≤ 4 }
        ensures two { AreTwoBlocks self.now order result }
        ensures pieces { ArePieces self.now }
    {
        if self.counts[order as usize] < 2 {
            return None;
        }
        let lower = self.marks.nearest_below(&self.cells, order, End::Low)?;
        let upper = self.marks.nearest_below(&self.cells, order, End::High)?;
        Some((Block { unit: lower, order }, Block { unit: upper, order }))
    }

    /// Lets the blocks inside the block of an order at `from` go to the free block of that order at `to`, and merges
    /// free halves until no two are left. The order is below 4. The other half of the block at `from` has to be free
    /// too, and another block than that at `to`.
    /// Takes no memory. Costs a few steps for each unit that goes, and for each of at most five levels of bytes and marks.
    pub fn relocate(&mut self, from: u32, to: u32, order: u8)
        requires { CanMove self.old from to order }
        ensures relocates { Relocates self.old from to order self.new }
        ensures inside { MovesInside self.old from to order self.new }
        ensures outside { KeepsOutside self.old from order self.new }
        ensures only { OnlyMoves self.old from to order self.new }
        ensures pieces { ArePieces self.new }
        ensures free { free_units self.new ≡ free_units self.old }
        ensures fewer { free_blocks self.new < free_blocks self.old }
        ensures units { units_in self.new ≡ units_in self.old }
        ensures within { from + 2 ^ order ≤ units_in self.old }
        ensures apart { AreBlocksApart from order to order }
    {
        let (cells, marks) = (&mut self.cells, &mut self.marks);
        cells::carry(cells, marks, &mut self.counts, from, to, order);
    }

    /// Whether a block is one of those that are taken, so that it can be given. Costs a few steps.
    pub fn is_taken(&self, block: Block) -> bool
        ensures is { IsTrue result → IsPiece self.now (taken_at block.unit block.order) }
        ensures other { result ≡ false → IsPiece self.now (taken_at block.unit block.order) → ⊥ }
    {
        let byte = self.cells.get(block.unit);
        if block.order > FRAME_ORDER {
            return false;
        }
        byte == cells::taken(block.order)
    }
}

// Frees each frame of a table that has no block yet, and marks it.
fn free_all(cells: &mut Bytes, marks: &mut Level, frames: u32)
    requires few { frames ≤ MOST_FRAMES }
    requires empty { cells.old ≡ replicate (16 * frames) 0 }
    requires marks { AreMarks cells.old marks.old }
    ensures table { IsTable cells.new }
    ensures marks { AreMarks cells.new marks.new }
    ensures pieces { pieces_of cells.new ≡ free_frames 0 frames }
{
    'freeing: for frame in 0..frames {
        cells.set(FRAME_UNITS * frame, cells::free(FRAME_ORDER));
        marks.mark(cells, frame);
    }
}
