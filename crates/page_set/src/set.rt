ghost use Rattle.std.specs.Prelude.{◌≡◌, ◌+◌, ◌^◌, ◌<◌, ◌≤◌, ◌⊎◌, IfOk, OnOk, true, false};
ghost use Rattle.std.specs.FinMap as map;
ghost use Rattle.page_set.specs.Sets.{AreChunks, AreTakenOut, CanInsert, IsNextMember, IsPut, chunks_in, holds};

use crate::CHUNK_PAGES;
use crate::rows::{Row, bits_of, next_in, put_in, take_out, take_run};
use std::alloc::{AllocError, Global};
use std::marker::Model;

// The fewer of two numbers of chunks.
fn fewer(room: usize, most: u32) -> usize
    ensures one { (result ≡ room) ⊎ (result ≡ most) }
{
    let most = most as usize;
    if most < room { most } else { room }
}

/// A set of pages, by number. Takes memory in `reserve` and `copy` alone.
#[derive(Debug, Drop)]
pub struct PageSet {
    // the bits of each chunk of 64 pages that has a member, by rising chunks
    rows: Vec<Row>,
}

impl Model for PageSet {
    ghost use Rattle.page_set.specs.Sets.{Members};
    ghost use Rattle.page_set.specs.Codes.{members_code};

    ghost Value = { Members };

    ghost coded = { members_code };

    ghost use Rattle.std.specs.Vec.{vec_capacity};
    ghost use Rattle.number_maps.specs.Rows.{map_of};
    ghost use Rattle.page_set.specs.Kept.{AreSetRows};

    ghost view = { λ s. record { chunks = map_of s.rows.items; room = vec_capacity s.rows } };

    ghost invariant = { λ s. AreSetRows s.rows.items };
}

impl PageSet {
    /// The empty set. Takes no memory.
    pub fn new(alloc: Global) -> PageSet
        ensures { result.chunks ≡ map.empty }
    {
        PageSet {
            rows: Vec::new(alloc),
        }
    }

    /// Whether a page is a member. Costs a look-up.
    pub fn has(&self, page: u64) -> bool
        ensures { result ≡ holds self.now.chunks page }
    {
        bits_of(&self.rows, page / CHUNK_PAGES).has((page % CHUNK_PAGES) as u8)
    }

    /// How many chunks have a member: at most as many as there is room for. Costs a step.
    pub fn chunks(&self) -> usize
        ensures count { result ≡ map.len self.now.chunks }
        ensures few { result ≤ self.now.room }
    {
        self.rows.len()
    }

    /// The least member not below a page. None exactly where there is none. Costs two look-ups at most.
    pub fn next_from(&self, page: u64) -> Option<u64>
        ensures { IsNextMember self.now.chunks page result }
    {
        next_in(&self.rows, page)
    }

    /// Makes a page a member. Its chunk has one, or there is room for one more. Takes no memory. Costs a look-up, and for the first
    /// member of a chunk a step for each chunk behind it.
    pub fn insert(&mut self, page: u64)
        requires { CanInsert self.old page }
        ensures put { IsPut self.old.chunks page true self.new.chunks }
        ensures room { self.old.room ≤ self.new.room }
        ensures are { AreChunks self.new.chunks }
    {
        put_in(&mut self.rows, page);
    }

    /// Makes a page no member. Costs a look-up, and for the last member of a chunk a step for each chunk behind it.
    pub fn remove(&mut self, page: u64)
        ensures put { IsPut self.old.chunks page false self.new.chunks }
        ensures room { self.new.room ≡ self.old.room }
        ensures are { AreChunks self.new.chunks }
    {
        take_out(&mut self.rows, page);
    }

    /// Makes the `n` pages from `from` on no members. Costs as much as `next_from`, and for each member that goes as much as `remove`
    /// too.
    pub fn remove_run(&mut self, from: u64, n: u32)
        requires { from + n < 2 ^ 64 }
        ensures cut { AreTakenOut self.old.chunks from n self.new.chunks }
        ensures room { self.new.room ≡ self.old.room }
        ensures are { AreChunks self.new.chunks }
    {
        take_run(&mut self.rows, from, n);
    }

    /// Makes room for the chunks of the `n` pages from `from` on beside as many as there is room for, or for `most` chunks where that is
    /// fewer, or answers want of memory. The members stay.
    pub fn reserve(&mut self, from: u64, n: u32, most: u32) -> Result<(), AllocError>
        ensures chunks { self.new.chunks ≡ self.old.chunks }
        ensures room { OnOk result ((most ≤ self.new.room) ⊎ (self.old.room + chunks_in from n ≤ self.new.room)) }
        ensures more { self.old.room ≤ self.new.room }
        ensures are { AreChunks self.new.chunks }
    {
        let more = (from % CHUNK_PAGES + u64::from(n) + (CHUNK_PAGES - 1)) / CHUNK_PAGES;
        let room = fewer(self.rows.capacity().saturating_add(more as usize), most);
        self.rows.reserve(room.saturating_sub(self.rows.len()))?;
        Ok(())
    }

    /// A set with the same members and as much room, or with room for `most` chunks where that is fewer; or want of memory. Costs a
    /// copy of 16 bytes for each chunk.
    pub fn copy(&self, most: u32) -> Result<PageSet, AllocError>
        ensures chunks { IfOk result (λ copy. copy.chunks ≡ self.now.chunks) }
        ensures room { IfOk result (λ copy. (most ≤ copy.room) ⊎ (self.now.room ≤ copy.room)) }
        ensures are { AreChunks self.now.chunks }
    {
        let room = fewer(self.rows.capacity(), most);
        let mut rows = self.rows.clone()?;
        rows.reserve(room.saturating_sub(rows.len()))?;
        Ok(PageSet { rows })
    }
}
