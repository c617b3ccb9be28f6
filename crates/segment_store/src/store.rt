ghost use Rattle.std.specs.Prelude.{◌≡◌, ◌≢◌, ◌↔◌, ◌+◌, ◌-◌, ◌*◌, ◌^◌, ◌<◌, ◌≤◌, ◌++◌, IfOk, IfSome, IsTrue, None, Some, [], ℕ, cond, false, true, length, option_map};
ghost use Rattle.std.specs.Option.{option_to_list};
ghost use Rattle.std.specs.Borrow.{Lends, sem, Array, u8 as byte};
ghost use Rattle.arrayvec.specs.ArrayVec.{array_vec_len};
ghost use Rattle.sizes.specs.declared.TheConstants.{FRAME_UNITS, LINE_BYTES, MOST_FRAMES, PAGE_LINES};
ghost use Rattle.line_store.specs.Lines.{line_of};
ghost use Rattle.unit_map.specs.Pieces.{AreSettled, AreSettledBut, CanSettle, free_units, units_in};
ghost use Rattle.unit_map.specs.Changes.{CanMove, HasRoom, IsFull, Gives, OnlyGives, OnlyTakes, TakesBlock};
ghost use Rattle.store_compaction.specs.Runs.{HasPair};
ghost use Rattle.store_compaction.specs.Next.{Ascend, IsPairMove, IsRoomMove, RunsShort};
ghost use Rattle.overlay_bits.specs.Composed.{composed};
ghost use Rattle.overlay_bits.specs.Lines.{has_line};
ghost use Rattle.segment_store.specs.contracts.store.SegmentStore.{the_row};
ghost use Rattle.segment_store.specs.Pointers.{capacity_of};
ghost use Rattle.segment_store.specs.Store.{segment_at, lines_at, place_of, line_in, frame_place, frame_line, frame_page, composed_line, scratch_place, scratch_page, with_frame_line, with_line_at, with_segment_line, lines_with, HoldsLine, IsFrame, IsSegment};
ghost use Rattle.segment_store.specs.Kept.{IsStore};
ghost use Rattle.segment_store.specs.Places.{BeginsLines};
ghost use Rattle.segment_store.specs.Changes.{IsEmptyStore, BeginsSegment, CopiesSegment, EndsSegment, FillsFrame, HasLinesNow, Inserts, IsKept, Lays, Lifts, KeepsSegments, KeepsOtherSegments, KeepsFrames, KeepsOtherFrames, KeepsScratch, MakesMove, MakesMoves, SegmentsOutsideStay, WholeSegmentsStay, moved_lines};

use crate::lines::StoreLines;
use crate::places;
use crate::segment::Segment;
use crate::slots::{self, Slots};
use crate::steps::Steps;
use arrayvec::ArrayVec;
use filled_list::Filled;
use overlay_address::OverlayPage;
use overlay_bits::{Bits, compose};
use std::alloc::{AllocError, Global};
use std::marker::Model;
use std::sync::ledger::Ledger;
use store_compaction::{Move, apply, move_of, next_move, room_for};
use unit_map::{Block, UnitMap};

/// Frames, and segments of 1, 2, 4, 8 or 16 units with the lines of overlays, in the units of one region.
/// Behind them lies one frame more, scratch.
#[derive(Drop)]
pub struct SegmentStore {
    region: StoreLines,
    map: UnitMap,
    slots: Slots,
}

impl Model for SegmentStore {
    ghost use Rattle.segment_store.specs.Store.{Store};
    ghost use Rattle.segment_store.specs.Kept.{IsStore};

    ghost Value = { Store };

    ghost view = { λ s. record { lines = s.region; blocks = s.map; segments = s.slots } };

    ghost invariant = { λ s. IsStore (record { lines = s.region; blocks = s.map; segments = s.slots }) };
}

impl SegmentStore {
    /// A store of 1 to 65,536 frames, all free, and scratch. Takes all the memory that the store ever needs,
    /// or answers the want of it.
    pub fn new(alloc: Global, frames: u32) -> Result<SegmentStore, AllocError>
        requires some { 0 < frames }
        requires few { frames ≤ MOST_FRAMES }
        ensures empty { IfOk result (IsEmptyStore frames) }
        ensures settled { IfOk result (λ store. AreSettled store.blocks) }
        ensures store { IfOk result IsStore }
    {
        let region = StoreLines::new(alloc, frames)?;
        let map = UnitMap::new(alloc, frames)?;
        let slots = Filled::new(alloc, None, 16 * frames as usize)?;
        Ok(SegmentStore { region, map, slots })
    }

    /// How many units are free. Costs a step.
    pub fn free_units(&self) -> u32
        ensures sum { result ≡ free_units self.now.blocks }
        ensures store { IsStore self.now }
    {
        self.map.free_units()
    }

    /// Whether there is room for a block of an order from 0 to 4. Costs a step for each order.
    pub fn has_room(&self, order: u8) -> bool
        requires { order ≤ 4 }
        ensures room { IsTrue result → HasRoom self.now.blocks order }
        ensures full { result ≡ false → IsFull self.now.blocks order }
        ensures settled { AreSettled self.now.blocks
            → IsTrue result ↔ (2 ^ order ≤ free_units self.now.blocks) }
        ensures store { IsStore self.now }
    {
        self.map.has_room(order)
    }

    /// The segment that starts at a unit. None exactly where none does. Costs a step.
    pub fn segment(&self, unit: u32) -> Option<Segment>
        ensures segment { result ≡ segment_at self.now unit }
        ensures store { IsStore self.now }
    {
        slots::at(&self.slots, unit)
    }

    /// The owner of the segment that starts at a unit. None exactly where none does. Costs a step.
    pub fn owner_at(&self, unit: u32) -> Option<OverlayPage>
        ensures owner { result ≡ option_map (λ s. s.owner) (segment_at self.now unit) }
        ensures store { IsStore self.now }
    {
        match slots::at(&self.slots, unit) {
            Some(segment) => Some(segment.owner),
            None => None,
        }
    }

    /// Where a line of a segment stands: the number of its line in the region. The segment has to be there,
    /// with the line. Costs a step: two bytes are read.
    pub fn place(&self, block: Block, line: u8) -> u32
        requires there { IsSegment self.now block }
        requires line { has_line (lines_at self.now block.unit) line ≡ true }
        ensures place { result ≡ place_of self.now block line }
        ensures store { IsStore self.now }
    {
        places::place(&self.region, block, line)
    }

    /// Lends a line of a segment, which has to be there, with the line. Costs a step.
    pub fn get(&self, block: Block, line: u8) -> &[u8; 64]
        requires there { IsSegment self.now block }
        requires line { has_line (lines_at self.now block.unit) line ≡ true }
        ensures value { result.now ≡ line_in self.now block line }
        ensures bytes { length (line_in self.now block line) ≡ LINE_BYTES }
        ensures store { IsStore self.now }
    {
        self.region.line(places::place(&self.region, block, line))
    }

    /// Lends a line of a segment, which has to be there, with the line, for writing. What the borrower leaves
    /// is the line, and nothing else changes. Costs a step.
    pub fn get_mut(&mut self, block: Block, line: u8) -> &mut [u8; 64]
        requires there { IsSegment self.old block }
        requires line { has_line (lines_at self.old block.unit) line ≡ true }
        ensures* writes_back { sem 𝓛
            (Lends the_row (Array byte 0) self.entry result (with_segment_line self.old block line)) }
        ensures value { result.now ≡ line_in self.old block line }
        ensures store { IsStore self.old }
    {
        let at = places::place(&self.region, block, line);
        self.region.line_mut(at)
    }

    /// Lends the line at a place of the region, before scratch. Costs a step.
    #[inline]
    pub fn line(&self, at: u32) -> &[u8; 64]
        requires before_scratch { at < scratch_place self.now }
        ensures value { result.now ≡ line_of self.now.lines at }
        ensures bytes { length (line_of self.now.lines at) ≡ LINE_BYTES }
        ensures store { IsStore self.now }
    {
        self.region.line(at)
    }

    /// Lends the line at a place of the region, at which a line of a segment or of a taken frame has to stand, for writing. What the
    /// borrower leaves is the line, and nothing else changes. Costs a step.
    #[inline]
    pub fn line_mut(&mut self, at: u32) -> &mut [u8; 64]
        requires holds { HoldsLine self.old at }
        ensures* writes_back { sem 𝓛
            (Lends the_row (Array byte 0) self.entry result (with_line_at self.old at)) }
        ensures value { result.now ≡ line_of self.old.lines at }
        ensures store { IsStore self.old }
    {
        self.region.line_mut(at)
    }

    /// Takes a frame, for which there has to be room, and answers its number. Its lines stay what they are.
    /// Costs what taking a block costs.
    pub fn take_frame(&mut self) -> u32
        requires room { HasRoom self.old.blocks 4 }
        ensures frame { IsFrame self.new result }
        ensures fresh { IsFrame self.old result → ⊥ }
        ensures lines { self.new.lines ≡ self.old.lines }
        ensures same { self.new.segments ≡ self.old.segments }
        ensures blocks { TakesBlock self.old.blocks 4 (FRAME_UNITS * result) self.new.blocks }
        ensures only { OnlyTakes self.old.blocks (FRAME_UNITS * result) 4 self.new.blocks }
        ensures segments { KeepsSegments self.old self.new }
        ensures frames { KeepsFrames self.old self.new }
        ensures scratch { KeepsScratch self.old self.new }
        ensures free { free_units self.new.blocks + FRAME_UNITS ≡ free_units self.old.blocks }
        ensures units { units_in self.new.blocks ≡ units_in self.old.blocks }
        ensures settled { AreSettled self.old.blocks → AreSettled self.new.blocks }
        ensures store { IsStore self.new }
    {
        match self.map.take(4) {
            Some(block) => block.unit / 16,
            None => unreachable!(),
        }
    }

    /// Frees a frame, which has to be taken. Costs what giving a block costs.
    pub fn give_frame(&mut self, frame: u32)
        requires { IsFrame self.old frame }
        ensures lines { self.new.lines ≡ self.old.lines }
        ensures same { self.new.segments ≡ self.old.segments }
        ensures blocks { Gives self.old.blocks (FRAME_UNITS * frame) 4 self.new.blocks }
        ensures only { OnlyGives self.old.blocks (FRAME_UNITS * frame) self.new.blocks }
        ensures segments { KeepsSegments self.old self.new }
        ensures frames { KeepsOtherFrames self.old frame self.new }
        ensures gone { IsFrame self.new frame → ⊥ }
        ensures scratch { KeepsScratch self.old self.new }
        ensures free { free_units self.new.blocks ≡ free_units self.old.blocks + FRAME_UNITS }
        ensures units { units_in self.new.blocks ≡ units_in self.old.blocks }
        ensures settled { AreSettled self.old.blocks → AreSettled self.new.blocks }
        ensures store { IsStore self.new }
    {
        self.map.give(Block {
            unit: 16 * frame,
            order: 4,
        });
    }

    /// How many frames there are, scratch aside. Costs a step.
    pub fn frames(&self) -> u32
        ensures frames { FRAME_UNITS * result ≡ units_in self.now.blocks }
        ensures store { IsStore self.now }
    {
        self.region.before_scratch() / 64
    }

    /// Whether a frame, below 65,536, is taken, so that it can be given. Costs a few steps.
    pub fn is_taken(&self, frame: u32) -> bool
        requires { frame < MOST_FRAMES }
        ensures is { IsTrue result → IsFrame self.now frame }
        ensures other { result ≡ false → IsFrame self.now frame → ⊥ }
        ensures store { IsStore self.now }
    {
        let unit = 16 * frame;
        let taken = self.map.is_taken(Block { unit, order: 4 });
        taken && slots::at(&self.slots, unit).is_none()
    }

    /// Lends a line of a frame. The frame is one of the store's, and the line is below 64. Costs a step.
    pub fn frame_line(&self, frame: u32, line: u8) -> &[u8; 64]
        requires frame { FRAME_UNITS * frame + FRAME_UNITS ≤ units_in self.now.blocks }
        requires line { line < PAGE_LINES }
        ensures value { result.now ≡ frame_line self.now frame line }
        ensures bytes { length (frame_line self.now frame line) ≡ LINE_BYTES }
        ensures store { IsStore self.now }
    {
        self.region.line(64 * frame + u32::from(line))
    }

    /// Lends a line, below 64, of a frame, which has to be taken, for writing. What the borrower leaves is
    /// the line, and nothing else changes. Costs a step.
    pub fn frame_line_mut(&mut self, frame: u32, line: u8) -> &mut [u8; 64]
        requires frame { IsFrame self.old frame }
        requires line { line < PAGE_LINES }
        ensures* writes_back { sem 𝓛
            (Lends the_row (Array byte 0) self.entry result (with_frame_line self.old frame line)) }
        ensures value { result.now ≡ frame_line self.old frame line }
        ensures store { IsStore self.old }
    {
        self.region.line_mut(64 * frame + u32::from(line))
    }

    /// Puts 64 lines into a frame, which has to be taken. Nothing else changes. Costs one copy.
    pub fn put_frame(&mut self, frame: u32, lines: &[[u8; 64]])
        requires frame { IsFrame self.old frame }
        requires lines { length lines.now ≡ PAGE_LINES }
        ensures fills { FillsFrame self.old self.new frame }
        ensures lines { (line : ℕ) → line < PAGE_LINES → frame_line self.new frame line ≡ line_of lines.now line }
    {
        self.region.put_lines(64 * frame, lines);
    }

    /// Begins an empty segment of an order from 0 to 4, for which there has to be room, in a block of a free
    /// block of the least order that is enough, and answers its block. Below order 4 the block's first line
    /// becomes its line of pointers. No other line changes. Costs what taking a block costs.
    pub fn begin_segment(&mut self, owner: OverlayPage, order: u8) -> Block
        requires order { order ≤ 4 }
        requires room { HasRoom self.old.blocks order }
        ensures begins { BeginsSegment self.old self.new owner order [] result }
        ensures lines { BeginsLines self.old.lines self.new.lines result }
    {
        match self.map.take(order) {
            Some(block) => {
                places::begin(&mut self.region, block);
                let bits = Bits::empty();
                slots::put(
                    &mut self.slots,
                    block.unit,
                    Some(Segment { owner, order, bits }),
                );
                block
            }
            None => unreachable!(),
        }
    }

    /// Copies a segment, which has to be there, for another owner into a block of the same order, for which there has to be room, and
    /// answers its block. Each line stands in it where it stands in the other. No other line changes. Costs what taking a block costs, and
    /// one copy of the block.
    pub fn copy_segment(&mut self, from: Block, owner: OverlayPage) -> Block
        requires there { IsSegment self.old from }
        requires room { HasRoom self.old.blocks from.order }
        ensures begins { BeginsSegment self.old self.new owner from.order (lines_at self.old from.unit) result }
        ensures copies { CopiesSegment self.old self.new from result }
    {
        match self.map.take(from.order) {
            Some(to) => {
                self.region
                    .copy_lines(4 * from.unit, 4 * to.unit, 4u32 << from.order);
                slots::copy(&mut self.slots, from.unit, to.unit, owner);
                to
            }
            None => unreachable!(),
        }
    }

    /// Ends a segment, which has to be there: its block is free. Costs what giving a block costs.
    pub fn end_segment(&mut self, block: Block)
        requires { IsSegment self.old block }
        ensures ends { EndsSegment self.old self.new block }
        ensures only { OnlyGives self.old.blocks block.unit self.new.blocks }
        ensures segments { KeepsOtherSegments self.old block.unit self.new }
        ensures frames { KeepsFrames self.old self.new }
        ensures scratch { KeepsScratch self.old self.new }
        ensures free { free_units self.new.blocks ≡ free_units self.old.blocks + 2 ^ block.order }
        ensures units { units_in self.new.blocks ≡ units_in self.old.blocks }
        ensures settles { AreSettled self.old.blocks → CanSettle self.new.blocks }
        ensures store { IsStore self.new }
    {
        slots::put(&mut self.slots, block.unit, None);
        self.map.give(block);
    }

    /// Puts a line, which is below 64 and absent, into a segment, which has to be there with fewer lines than
    /// it has places. Below order 4 it goes into the lowest free slot. Costs a few steps.
    #[inline(always)]
    pub fn insert(&mut self, block: Block, line: u8, bytes: &[u8; 64])
        requires there { IsSegment self.old block }
        requires line { line < PAGE_LINES }
        requires absent { has_line (lines_at self.old block.unit) line ≡ false }
        requires room { length (lines_at self.old block.unit) < capacity_of block.order }
        ensures inserts { Inserts self.old self.new block line bytes.now }
        ensures lines { HasLinesNow self.old self.new block (lines_with self.old block line) }
        ensures segments { KeepsOtherSegments self.old block.unit self.new }
        ensures frames { KeepsFrames self.old self.new }
        ensures scratch { KeepsScratch self.old self.new }
        ensures store { IsStore self.new }
    {
        let at = places::reserve(&mut self.region, block, line);
        self.region.put_line(at, bytes);
        slots::add_line(&mut self.slots, block.unit, line);
    }

    /// Copies each line of a segment, which has to be there with just these lines, to its own place in
    /// scratch. Costs a copy for each line.
    pub fn lift(&mut self, block: Block, bits: Bits)
        requires there { IsSegment self.old block }
        requires lines { lines_at self.old block.unit ≡ bits }
        ensures lifts { Lifts self.old self.new block bits }
        ensures segments { KeepsSegments self.old self.new }
        ensures frames { KeepsFrames self.old self.new }
        ensures store { IsStore self.new }
    {
        places::lift(&mut self.region, block, bits);
    }

    /// Takes these lines from scratch into a segment, which has to be there, without a line, and with a place
    /// for each. Below order 4 they go into the slots 1, 2, 3 and so on, in ascending order. Costs a copy for
    /// each line.
    pub fn lay(&mut self, block: Block, bits: Bits)
        requires there { IsSegment self.old block }
        requires empty { lines_at self.old block.unit ≡ [] }
        requires room { length bits ≤ capacity_of block.order }
        ensures lays { Lays self.old self.new block bits }
        ensures lines { HasLinesNow self.old self.new block bits }
        ensures segments { KeepsOtherSegments self.old block.unit self.new }
        ensures frames { KeepsFrames self.old self.new }
        ensures scratch { KeepsScratch self.old self.new }
        ensures store { IsStore self.new }
    {
        places::lay(&mut self.region, block, bits);
        slots::set_lines(&mut self.slots, block.unit, bits);
    }

    /// Composes a page of a frame, which is one of the store's, and scratch: each line of the set is that of scratch, any other
    /// one that of the frame. Costs a copy for each line.
    pub fn compose_scratch(&self, frame: u32, bits: Bits, out: &mut [[u8; 64]; 64])
        requires { FRAME_UNITS * frame + FRAME_UNITS ≤ units_in self.now.blocks }
        ensures { out.new ≡ composed (frame_page self.now frame) (scratch_page self.now) bits }
    {
        compose(
            self.region.page(64 * frame),
            self.region.scratch(),
            bits,
            out,
        );
    }

    /// Composes a page of a frame, which is one of the store's, and scratch, in a frame that is taken, maybe the same: each line of the
    /// set is that of scratch, any other one that of the frame. Nothing else changes. Costs a copy for each line of the set, and where
    /// the frames differ one copy of 64 lines.
    pub fn compose_frame(&mut self, from: u32, bits: Bits, to: u32)
        requires from { FRAME_UNITS * from + FRAME_UNITS ≤ units_in self.old.blocks }
        requires to { IsFrame self.old to }
        ensures fills { FillsFrame self.old self.new to }
        ensures lines { (line : ℕ) → line < PAGE_LINES
            → frame_line self.new to line ≡ composed_line self.old from bits line }
    {
        places::copy_page(&mut self.region, from, to);
        places::lay_over(&mut self.region, 64 * to, bits);
    }

    /// Copies each line of a segment, which has to be there with just these lines, to its own place in a frame, which is taken. Nothing
    /// else changes. Costs a copy for each line.
    pub fn lay_in_frame(&mut self, block: Block, bits: Bits, frame: u32)
        requires there { IsSegment self.old block }
        requires bits { lines_at self.old block.unit ≡ bits }
        requires frame { IsFrame self.old frame }
        ensures fills { FillsFrame self.old self.new frame }
        ensures lines { (line : ℕ) → line < PAGE_LINES → frame_line self.new frame line
            ≡ cond (has_line bits line) (line_in self.old block line) (frame_line self.old frame line) }
    {
        places::lay_in_page(&mut self.region, block, bits, 64 * frame);
    }

    /// Makes a move on the way to room for a block of an order from 0 to 4, and answers it. At least 2^order
    /// units have to be free. None, and nothing changes, exactly where there is room. So at most as many
    /// calls answer a move as there are free blocks, and then there is room. Costs what the move copies.
    pub fn room_step(&mut self, order: u8) -> Option<Move>
        requires order { order ≤ 4 }
        requires enough { 2 ^ order ≤ free_units self.old.blocks }
        ensures none { result ≡ None → HasRoom self.old.blocks order × (self.new ≡ self.old) }
        ensures some { IfSome result (IsRoomMove self.old.blocks order) }
        ensures moves { IfSome result (MakesMove self.old self.new) }
        ensures whole { WholeSegmentsStay self.old self.new }
        ensures frames { KeepsFrames self.old self.new }
        ensures scratch { KeepsScratch self.old self.new }
        ensures packing { IsFull self.old.blocks order → HasPair self.old.blocks order }
        ensures run { RunsShort self.old.blocks order }
        ensures free { free_units self.new.blocks ≡ free_units self.old.blocks }
        ensures units { units_in self.new.blocks ≡ units_in self.old.blocks }
        ensures store { IsStore self.new }
    {
        match room_for(&self.map, order) {
            None => None,
            Some(m) => {
                self.make(m);
                Some(m)
            }
        }
    }

    /// Makes a move on the way to a store in which no two free blocks below a frame are equal in size, and
    /// answers it. None, and nothing changes, exactly where the store is so. Costs what the move copies.
    pub fn compact_step(&mut self) -> Option<Move>
        ensures none { result ≡ None → AreSettled self.old.blocks × (self.new ≡ self.old) }
        ensures some { IfSome result (IsPairMove self.old.blocks) }
        ensures moves { IfSome result (MakesMove self.old self.new) }
        ensures whole { WholeSegmentsStay self.old self.new }
        ensures frames { KeepsFrames self.old self.new }
        ensures scratch { KeepsScratch self.old self.new }
        ensures free { free_units self.new.blocks ≡ free_units self.old.blocks }
        ensures units { units_in self.new.blocks ≡ units_in self.old.blocks }
        ensures store { IsStore self.new }
    {
        match next_move(&self.map) {
            None => None,
            Some(m) => {
                self.make(m);
                Some(m)
            }
        }
    }

    /// Makes moves until no two free blocks below a frame are equal in size, at most one of each order below 4, and lists them in
    /// their order. At most one free block aside, no two may be equal in size before. Each line that is copied is a step. Costs a few
    /// steps for each order, and what the moves copy: at most 60 lines.
    pub fn settle<L: Ledger>(&mut self, moves: &mut ArrayVec<Move, 4>, steps: &mut Steps<L>)
        requires { CanSettle self.old.blocks }
        ensures settled { AreSettled self.new.blocks }
        ensures moves { MakesMoves self.old moves.new.items self.new }
        ensures ascend { Ascend 0 4 moves.new.items }
        ensures steps { steps.new ≡ steps.old + moved_lines moves.new.items }
        ensures few { moved_lines moves.new.items ≤ 60 }
        ensures outside { SegmentsOutsideStay self.old self.new moves.new.items }
        ensures kept { IsKept self.old self.new }
    {
        let _ = &self.region;
        moves.clear();
        'settling: for order in 0..4u8 {
            let made = self.settle_order(order, steps);
            list(moves, made);
        }
    }

    // Makes the move of an order below 4 if two free blocks have it, below which no two are equal in size.
    fn settle_order<L: Ledger>(&mut self, order: u8, steps: &mut Steps<L>) -> Option<Move>
        requires low { order < 4 }
        requires but { AreSettledBut self.old.blocks order }
        ensures but { AreSettledBut self.new.blocks (order + 1) }
        ensures made { MakesMoves self.old (option_to_list result) self.new }
        ensures order { IfSome result (λ m. m.order ≡ order) }
        ensures steps { steps.new ≡ steps.old + moved_lines (option_to_list result) }
    {
        match move_of(&self.map, order) {
            None => None,
            Some(m) => {
                self.make(m);
                steps.add(4u32 << order);
                Some(m)
            }
        }
    }

    // Makes a move that can be made: the lines, the owners and the sets of lines go with the blocks.
    fn make(&mut self, m: Move)
        requires { CanMove self.old.blocks m.from m.to m.order }
        ensures moves { MakesMove self.old self.new m }
        ensures whole { WholeSegmentsStay self.old self.new }
        ensures frames { KeepsFrames self.old self.new }
        ensures scratch { KeepsScratch self.old self.new }
        ensures free { free_units self.new.blocks ≡ free_units self.old.blocks }
        ensures units { units_in self.new.blocks ≡ units_in self.old.blocks }
        ensures store { IsStore self.new }
    {
        apply(&mut self.map, m);
        self.region
            .copy_lines(4 * m.from, 4 * m.to, 4u32 << m.order);
        slots::carry(&mut self.slots, m.from, m.to, 1u32 << m.order);
    }
}

// Adds a move to a list, if one was made.
fn list(moves: &mut ArrayVec<Move, 4>, made: Option<Move>)
    requires { array_vec_len moves.old < 4 }
    ensures { moves.new.items ≡ moves.old.items ++ option_to_list made }
{
    match made {
        Some(m) => moves.push(m),
        None => {}
    }
}
