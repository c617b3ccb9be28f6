//! The lines of the units, and those of scratch.
ghost use Rattle.std.specs.Prelude.{◌≡◌, ◌+◌, ◌-◌, ◌*◌, ◌≤◌, ◌<◌, ◌⊎◌, IfOk, length, take, drop, slice_set};
ghost use Rattle.std.specs.Borrow.{Lends, sem, Array, u8 as byte};
ghost use Rattle.sizes.specs.declared.TheConstants.{LINE_BYTES, MOST_FRAMES, PAGE_LINES};
ghost use Rattle.line_store.specs.Lines.{line_of, with_copied, with_put, zero_lines};
ghost use Rattle.segment_store.specs.contracts.lines.StoreLines.{the_row};

use line_store::Region;
use std::alloc::{AllocError, Global};
use std::marker::Model;

/// The lines of the units, and behind them the 64 of scratch. Scratch is a piece of memory of its own, so that its lines
/// are written without the lines before them.
#[derive(Drop)]
pub(crate) struct StoreLines {
    units: Region,
    scratch: Region,
}

impl Model for StoreLines {
    ghost use Rattle.std.specs.Prelude.{List, ℕ, ◌≡◌, ◌≤◌, ◌++◌, length};
    ghost use Rattle.sizes.specs.declared.TheConstants.{MOST_REGION_LINES, PAGE_LINES};

    ghost Value = { List (List ℕ) };

    ghost view = { λ l. l.units ++ l.scratch };

    ghost invariant = { λ l. (length l.scratch ≡ PAGE_LINES) × (length l.units ≤ MOST_REGION_LINES) };
}

impl StoreLines {
    /// The lines of 1 to 65,536 frames, and of scratch. All are zero.
    pub(crate) fn new(alloc: Global, frames: u32) -> Result<StoreLines, AllocError>
        requires some { 0 < frames }
        requires few { frames ≤ MOST_FRAMES }
        ensures zero { IfOk result (λ lines. lines ≡ zero_lines (64 * (frames + 1))) }
        ensures count { IfOk result (λ lines. length lines ≡ 64 * (frames + 1)) }
    {
        let units = Region::new(alloc, frames)?;
        let scratch = Region::new(alloc, 1)?;
        Ok(StoreLines { units, scratch })
    }

    /// How many lines stand before scratch.
    #[inline]
    pub(crate) fn before_scratch(&self) -> u32
        ensures { result + PAGE_LINES ≡ length self.now }
    {
        self.units.lines()
    }

    /// Lends a line before scratch.
    #[inline]
    pub(crate) fn line(&self, at: u32) -> &[u8; 64]
        requires there { at + PAGE_LINES < length self.now }
        ensures value { result.now ≡ line_of self.now at }
        ensures bytes { length (line_of self.now at) ≡ LINE_BYTES }
    {
        self.units.line(at)
    }

    /// Lends a line before scratch, for writing.
    #[inline]
    pub(crate) fn line_mut(&mut self, at: u32) -> &mut [u8; 64]
        requires there { at + PAGE_LINES < length self.old }
        ensures* writes_back { sem 𝓛
            (Lends the_row (Array byte 0) self.entry result (slice_set self.old at)) }
        ensures value { result.now ≡ line_of self.old at }
    {
        self.units.line_mut(at)
    }

    /// Puts 64 bytes into a line before scratch.
    #[inline]
    pub(crate) fn put_line(&mut self, at: u32, bytes: &[u8; 64])
        requires there { at + PAGE_LINES < length self.old }
        ensures { self.new ≡ slice_set self.old at bytes.now }
    {
        self.units.put_line(at, bytes);
    }

    /// Puts lines into those before scratch from one on.
    pub(crate) fn put_lines(&mut self, at: u32, lines: &[[u8; 64]])
        requires there { at + length lines.now + PAGE_LINES ≤ length self.old }
        ensures put { self.new ≡ with_put self.old at lines.now (length lines.now) }
        ensures count { length self.new ≡ length self.old }
    {
        self.units.put_lines(at, lines);
    }

    /// Lends the 64 lines from `at` on, which lie before scratch.
    pub(crate) fn page(&self, at: u32) -> &[[u8; 64]; 64]
        requires there { at + 2 * PAGE_LINES ≤ length self.now }
        ensures { result.now ≡ take PAGE_LINES (drop at self.now) }
    {
        self.units.page(at)
    }

    /// Lends the lines of scratch.
    pub(crate) fn scratch(&self) -> &[[u8; 64]; 64]
        ensures { result.now ≡ take PAGE_LINES (drop (length self.now - PAGE_LINES) self.now) }
    {
        self.scratch.page(0)
    }

    /// Copies lines before scratch to others there, which may not overlap them.
    pub(crate) fn copy_lines(&mut self, from: u32, to: u32, n: u32)
        requires source { from + n + PAGE_LINES ≤ length self.old }
        requires target { to + n + PAGE_LINES ≤ length self.old }
        requires apart { (from + n ≤ to) ⊎ (to + n ≤ from) }
        ensures copied { self.new ≡ with_copied self.old from to n }
        ensures count { length self.new ≡ length self.old }
    {
        self.units.copy_lines(from, to, n);
    }

    /// Copies a line before scratch to another one there.
    #[inline]
    pub(crate) fn copy_line(&mut self, from: u32, to: u32)
        requires source { from + PAGE_LINES < length self.old }
        requires target { to + PAGE_LINES < length self.old }
        requires other { (from < to) ⊎ (to < from) }
        ensures { self.new ≡ slice_set self.old to (line_of self.old from) }
    {
        self.units.copy_lines(from, to, 1);
    }

    /// Copies a line before scratch to a line of scratch.
    #[inline]
    pub(crate) fn lift_line(&mut self, from: u32, line: u8)
        requires there { from + PAGE_LINES < length self.old }
        requires line { line < PAGE_LINES }
        ensures { self.new ≡ slice_set self.old (length self.old - PAGE_LINES + line) (line_of self.old from) }
    {
        self.scratch
            .put_line(u32::from(line), self.units.line(from));
    }

    /// Copies a line of scratch to a line before it.
    #[inline]
    pub(crate) fn lay_line(&mut self, line: u8, to: u32)
        requires line { line < PAGE_LINES }
        requires there { to + PAGE_LINES < length self.old }
        ensures { self.new ≡ slice_set self.old to (line_of self.old (length self.old - PAGE_LINES + line)) }
    {
        self.units.put_line(to, self.scratch.line(u32::from(line)));
    }
}
