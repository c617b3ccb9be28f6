ghost use Rattle.std.specs.Prelude.{◌≡◌, ◌+◌, ◌-◌, ◌*◌, ◌≤◌, ◌<◌, ◌⊎◌, ◌++◌, IfOk, take, drop, length, replicate, slice_set};
ghost use Rattle.std.specs.Borrow.{Lends, sem, Array, u8 as byte};
ghost use Rattle.sizes.specs.declared.TheConstants.{LINE_BYTES, MOST_REGION_FRAMES, MOST_REGION_LINES};
ghost use Rattle.line_store.specs.contracts.region.Region.{the_row};
ghost use Rattle.line_store.specs.Lines.{zero_lines, line_of, with_copied, with_put};
ghost use Rattle.line_store.specs.Kept.{kept_lines, AreLinesKept};

use crate::lines::{Lease, Lines};
use std::alloc::{AllocError, Allocator, Global};
use std::marker::Model;

/// Lines of 64 bytes by number, from 0 on: 64 for each of 1 to 65,537 frames. All are zero at first. Room
/// for all is one piece of raw memory, which is given back when the region is dropped, but lines more than
/// 64 behind the last one that was written, or copied, aren't touched: where the host gives memory on the
/// first touch they cost none.
pub struct Region<A: Allocator = Global> {
    // the first lines; those behind them are zero, and there is room for them
    lines: Lines,
    count: u32,
    // where their memory goes back to
    alloc: A,
    lease: Lease<A>,
}

impl<A: Allocator> Model for Region<A> {
    ghost use Rattle.std.specs.Prelude.{List, ℕ, ◌≡◌};
    ghost use Rattle.line_store.specs.Kept.{kept_lines, AreLinesKept};

    ghost Value = { List (List ℕ) };

    ghost view = { λ region. kept_lines region.lines.items region.count };

    ghost invariant = { λ region. AreLinesKept region.lines.items region.count × (region.lines.room ≡ region.count) × (region.lease.at ≡ region.lines.at) × (region.lease.room ≡ region.count) × (region.lease.alloc ≡ region.alloc) };
}

// Gives the memory back.
impl<A: Allocator> Drop for Region<A> {
    fn drop(self) {
        let Region {
            lines,
            count,
            alloc,
            lease,
        } = self;
        lines.free(count as usize, lease, &alloc);
    }
}

impl Region {
    /// 64 zero lines for each of `frames` frames: 1 to 65,537. Costs one allocation of 4096 bytes a frame,
    /// of which nothing is touched. Without memory for it nothing is made.
    pub fn new(alloc: Global, frames: u32) -> Result<Region, AllocError>
        requires some { 1 ≤ frames }
        requires few { frames ≤ MOST_REGION_FRAMES }
        ensures zero { IfOk result (λ region. region ≡ zero_lines (64 * frames)) }
        ensures count { IfOk result (λ region. length region ≡ 64 * frames) }
    {
        Region::made(alloc, frames)
    }
}

impl<A: Allocator> Region<A> {
    // The same over any allocator.
    pub(crate) fn made(alloc: A, frames: u32) -> Result<Region<A>, AllocError>
        requires some { 1 ≤ frames }
        requires few { frames ≤ MOST_REGION_FRAMES }
        ensures zero { IfOk result (λ region. region ≡ zero_lines (64 * frames)) }
        ensures count { IfOk result (λ region. length region ≡ 64 * frames) }
    {
        let count = 64 * frames;
        let (lines, lease) = Lines::new(&alloc, count as usize)?;
        Ok(Region {
            lines,
            count,
            alloc,
            lease,
        })
    }

    /// How many lines there are: 64 to 4,194,368.
    pub fn lines(&self) -> u32
        ensures count { result ≡ length self.now }
    {
        self.count
    }

    /// Lends line `at`, which has to be there.
    pub fn line(&self, at: u32) -> &[u8; 64]
        requires there { at < length self.now }
        ensures value { result.now ≡ line_of self.now at }
        ensures bytes { length (line_of self.now at) ≡ LINE_BYTES }
    {
        let kept = self.lines.as_slice();
        if kept.len() <= at as usize {
            return zero_line();
        }
        let line = &kept[at as usize];
        // a line that is read has the bytes of its type
        let _first = line[0];
        line
    }

    /// Lends the 64 lines from `at` on, which have to be there.
    pub fn page(&self, at: u32) -> &[[u8; 64]; 64]
        requires there { at + 64 ≤ length self.now }
        ensures value { result.now ≡ take 64 (drop at self.now) }
    {
        let kept = self.lines.as_slice();
        if kept.len() < at as usize + 64 {
            return zero_page();
        }
        match kept[at as usize..].first_chunk() {
            Some(page) => page,
            None => unreachable!(),
        }
    }

    /// Puts 64 bytes into line `at`, which has to be there. No other line changes.
    pub fn put_line(&mut self, at: u32, bytes: &[u8; 64])
        requires there { at < length self.old }
        ensures put { self.new ≡ slice_set self.old at bytes.now }
        ensures count { length self.new ≡ length self.old }
    {
        // The line is looked up before the bytes are read, so that they go straight into it.
        let line = self.line_mut(at);
        *line = *bytes;
    }

    /// Lends line `at`, which has to be there, for writing. What the borrower leaves is the line, and no
    /// other line changes. Takes no memory beyond the region's, but touches the lines before it.
    pub fn line_mut(&mut self, at: u32) -> &mut [u8; 64]
        requires there { at < length self.old }
        ensures* writes_back { sem 𝓛
            (Lends (the_row A.row A.Allocator) (Array byte 0) self.entry result (slice_set self.old at)) }
        ensures value { result.now ≡ line_of self.old at }
    {
        reach(&mut self.lines, self.count, at + 1);
        self.lines.line_mut(at as usize)
    }

    /// Puts lines into those from `at` on, which have to be there. No other line changes. Costs one copy.
    pub fn put_lines(&mut self, at: u32, lines: &[[u8; 64]])
        requires there { at + length lines.now ≤ length self.old }
        ensures put { self.new ≡ with_put self.old at lines.now (length lines.now) }
        ensures count { length self.new ≡ length self.old }
    {
        let first = at as usize;
        let end = first + lines.len();
        reach(&mut self.lines, self.count, end as u32);
        self.lines.as_mut_slice()[first..end].copy_from_slice(lines);
    }

    /// Makes the `n` lines from `to` on the `n` lines from `from` on. Both have to be there, and may not
    /// overlap. No other line changes.
    #[inline]
    pub fn copy_lines(&mut self, from: u32, to: u32, n: u32)
        requires source { from + n ≤ length self.old }
        requires target { to + n ≤ length self.old }
        requires apart { (from + n ≤ to) ⊎ (to + n ≤ from) }
        ensures copied { self.new ≡ with_copied self.old from to n }
        ensures count { length self.new ≡ length self.old }
    {
        reach(&mut self.lines, self.count, from.max(to) + n);
        copy_apart(
            self.lines.as_mut_slice(),
            from as usize,
            to as usize,
            n as usize,
        );
    }
}

// Makes the `n` lines from `to` on the `n` lines from `from` on, which they don't overlap. A loop, since it is taken in where
// one line is copied.
#[inline]
fn copy_apart(lines: &mut [[u8; 64]], from: usize, to: usize, n: usize)
    requires source { from + n ≤ length lines.old }
    requires target { to + n ≤ length lines.old }
    requires apart { (from + n ≤ to) ⊎ (to + n ≤ from) }
    ensures { lines.new ≡ with_copied lines.old from to n }
{
    'copying: for i in 0..n {
        lines[to + i] = lines[from + i];
    }
}

// A line that is lent in place of one that isn't kept.
fn zero_line() -> &'static [u8; 64]
    ensures { result.now ≡ replicate 64 0 }
{
    const ZERO_LINE: [u8; 64] = [0; 64];
    &ZERO_LINE
}

// A page that is lent in place of one that isn't kept whole.
fn zero_page() -> &'static [[u8; 64]; 64]
    ensures { result.now ≡ zero_lines 64 }
{
    const ZERO_PAGE: [[u8; 64]; 64] = [[0; 64]; 64];
    &ZERO_PAGE
}

// Keeps the lines before `end` and 64 more, where there are so many. So a page that isn't kept whole
// lies among those 64 and behind them, and is zero.
fn reach(lines: &mut Lines, count: u32, end: u32)
    requires few { count ≤ MOST_REGION_LINES }
    requires inside { end ≤ count }
    requires room { lines.old.room ≡ count }
    ensures same { kept_lines lines.new.items count ≡ kept_lines lines.old.items count }
    ensures kept { AreLinesKept lines.old.items count → AreLinesKept lines.new.items count }
    ensures reached { (length lines.new.items ≡ count) ⊎ (end + 64 ≤ length lines.new.items) }
    ensures piece { (lines.new.at ≡ lines.old.at) × (lines.new.room ≡ lines.old.room) }
{
    // mostly they are kept already
    if lines.as_slice().len() < end as usize + 64 {
        lines.grow((end + 64).min(count) as usize);
    }
}
