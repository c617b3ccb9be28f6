ghost use Rattle.std.specs.Prelude.{◌≡◌, ◌+◌, ◌-◌, ◌^◌, ◌<◌, ◌≤◌, IfOk, length, nat_eq};
ghost use Rattle.sizes.specs.declared.TheConstants.{MOST_FRAMES};
ghost use Rattle.frame_pool.specs.Counts.{held, none_shared, released, sharers_of};

use std::alloc::{AllocError, Global};
use std::marker::Model;

/// How many pages name each frame.
#[derive(Debug, Drop)]
pub struct FramePool {
    counts: Vec<u32>,
}

impl Model for FramePool {
    ghost use Rattle.std.specs.Prelude.{ℕ, List};

    ghost Value = { List ℕ };

    ghost view = { λ pool. pool.counts.items };
}

impl FramePool {
    /// The counts of 1 to 65,536 frames, of which no page names any. Takes all the memory that the pool ever needs,
    /// or answers the want of it: four bytes a frame.
    pub fn new(alloc: Global, frames: u32) -> Result<FramePool, AllocError>
        requires some { 0 < frames }
        requires few { frames ≤ MOST_FRAMES }
        ensures none { IfOk result (λ pool. pool ≡ none_shared frames) }
        ensures count { IfOk result (λ pool. length pool ≡ frames) }
    {
        let counts = vec![in alloc; 0u32; frames as usize]?;
        Ok(FramePool { counts })
    }

    /// One more page names a frame, which is there. Before that fewer than 2^32 - 1 pages name it. Every other count
    /// stays. Takes no memory, and costs a step.
    #[inline(always)]
    pub fn hold(&mut self, f: u32)
        requires there { f < length self.old }
        requires few { sharers_of self.old f < 2 ^ 32 - 1 }
        ensures held { self.new ≡ held self.old f }
        ensures count { length self.new ≡ length self.old }
    {
        self.counts[f as usize] += 1;
    }

    /// One page fewer names a frame, which is there and which a page names. Every other count stays. True exactly
    /// where no page names it now. Takes no memory, and costs a step.
    #[inline(always)]
    pub fn release(&mut self, f: u32) -> bool
        requires there { f < length self.old }
        requires some { 0 < sharers_of self.old f }
        ensures released { self.new ≡ released self.old f }
        ensures free { result ≡ nat_eq (sharers_of self.new f) 0 }
        ensures last { result ≡ nat_eq (sharers_of self.old f) 1 }
        ensures count { length self.new ≡ length self.old }
    {
        self.counts[f as usize] -= 1;
        self.counts[f as usize] == 0
    }

    /// How many pages name a frame, which is there. Costs a step.
    #[inline(always)]
    pub fn sharers(&self, f: u32) -> u32
        requires { f < length self.now }
        ensures { result ≡ sharers_of self.now f }
    {
        self.counts[f as usize]
    }
}
