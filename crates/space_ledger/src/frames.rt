//! The sharers of a frame, and what they cost.

ghost use Rattle.std.specs.Prelude.{◌≡◌, ℕ, ◌+◌, ◌-◌, ◌^◌, ◌==◌, ◌<◌, ◌≤◌, ◌⊎◌, ◌&&◌, not, length, true};
ghost use Rattle.sizes.specs.declared.TheConstants.{PAGE_END};
ghost use Rattle.frame_pool.specs.Counts.{sharers_of};
ghost use Rattle.ledger.specs.Units.{class};
ghost use Rattle.page_table.specs.Run.{entry_at};
ghost use Rattle.space_ledger.specs.Frames.{frame_units, held_by, held_run, released_by, released_run, run_freed, run_units};

use frame_pool::FramePool;
use page_table::PageRun;
use sizes::FRAME_UNITS;

/// Whether a frame has one sharer, and isn't the zero frame.
#[inline]
pub(crate) fn is_only(pool: &FramePool, zero: u32, frame: u32) -> bool
    requires { frame < length pool.now }
    ensures { result ≡ (not (frame == zero) && (sharers_of pool.now frame == 1)) }
{
    frame != zero && pool.sharers(frame) == 1
}

/// One more page names a frame: no count where it is the zero frame. Answers the units that it costs.
#[inline(always)]
#[tactic(auto, unfolding(crate::specs::Frames::held_by, crate::specs::Frames::frame_units))]
pub(crate) fn hold(pool: &mut FramePool, zero: u32, frame: u32) -> u32
    requires there { frame < length pool.old }
    requires few { (frame ≡ zero) ⊎ (sharers_of pool.old frame < 2 ^ 32 - 1) }
    ensures held { pool.new ≡ held_by zero pool.old frame }
    ensures units { result ≡ frame_units zero pool.old frame }
{
    if frame == zero {
        return 0;
    }
    let is_first = pool.sharers(frame) == 0;
    pool.hold(frame);
    if is_first { FRAME_UNITS } else { 0 }
}

/// Each page of a run names its frame, as by `hold`. Answers the units that they cost. Costs a step for each page, and one in all
/// where each is on the zero frame.
pub(crate) fn hold_run(pool: &mut FramePool, zero: u32, run: &PageRun) -> u32
    requires there { (i : ℕ) → i < run.now.n → (entry_at run.now i).frame < length pool.old }
    requires few { (i : ℕ) → i < run.now.n → ((entry_at run.now i).frame ≡ zero)
        ⊎ (sharers_of (held_run zero pool.old run.now i) (entry_at run.now i).frame < 2 ^ 32 - 1) }
    requires fits { run.now.rising ≡ true → run.now.entry.frame + run.now.n ≤ 2 ^ 32 }
    requires short { run.now.n ≤ PAGE_END }
    ensures held { pool.new ≡ held_run zero pool.old run.now run.now.n }
    ensures units { result ≡ run_units zero pool.old run.now run.now.n }
{
    if !run.rising && run.entry.frame == zero {
        return 0;
    }
    let mut units = 0;
    'holding: for i in 0..run.n {
        let entry = run.entry_at(i);
        units += hold(pool, zero, entry.frame);
    }
    units
}

/// One page fewer names a frame: no count where it is the zero frame. Answers the units that it frees.
#[inline(always)]
#[tactic(auto, unfolding(crate::specs::Frames::released_by, crate::specs::Frames::frame_units))]
pub(crate) fn release(pool: &mut FramePool, zero: u32, frame: u32) -> u32
    requires there { frame < length pool.old }
    requires some { (frame ≡ zero) ⊎ (0 < sharers_of pool.old frame) }
    ensures released { pool.new ≡ released_by zero pool.old frame }
    ensures units { result ≡ frame_units zero pool.new frame }
{
    if zero == frame {
        return 0;
    }
    if pool.release(frame) { FRAME_UNITS } else { 0 }
}

/// The frame of each page of a run is named by one page fewer, as by `release`. Answers the units that they free. Costs a step for each
/// page, and one in all where each is on the zero frame.
pub(crate) fn release_run(pool: &mut FramePool, zero: u32, run: &PageRun) -> u32
    requires there { (i : ℕ) → i < run.now.n → (entry_at run.now i).frame < length pool.old }
    requires some { (i : ℕ) → i < run.now.n → ((entry_at run.now i).frame ≡ zero)
        ⊎ (0 < sharers_of (released_run zero pool.old run.now i) (entry_at run.now i).frame) }
    requires fits { run.now.rising ≡ true → run.now.entry.frame + run.now.n ≤ 2 ^ 32 }
    requires short { run.now.n ≤ PAGE_END }
    ensures released { pool.new ≡ released_run zero pool.old run.now run.now.n }
    ensures units { result ≡ run_freed zero pool.old run.now run.now.n }
{
    if !run.rising && run.entry.frame == zero {
        return 0;
    }
    let mut units = 0;
    'releasing: for i in 0..run.n {
        let entry = run.entry_at(i);
        units += release(pool, zero, entry.frame);
    }
    units
}

/// The units of a segment for as many lines: 0 to 16.
#[inline]
#[tactic(auto, unfolding(ledger::specs::Units::class))]
pub fn class_of(lines: u32) -> u32
    ensures { result ≡ class lines }
{
    if lines == 0 {
        0
    } else if lines < 4 {
        1
    } else if lines < 8 {
        2
    } else if lines < 16 {
        4
    } else if lines < 32 {
        8
    } else {
        16
    }
}
