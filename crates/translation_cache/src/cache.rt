//! The lists and the counts.
ghost use Rattle.std.specs.Prelude.{◌≡◌, ℕ, ◌-◌, ◌%◌, ◌^◌, ◌<◌, None, map};
ghost use Rattle.sizes.specs.declared.TheConstants.{PAGE_LINES};
ghost use Rattle.translation_cache.specs.Formed.{IsFormed};
ghost use Rattle.translation_cache.specs.Translations.{entered, flushed, found, looked, no_translations, with_bit, with_cached, with_hits, without_space};

use crate::SETS;
use crate::cached::Cached;
use crate::entries::Entries;
use std::array;
use std::marker::Model;

/// The translations that are kept.
#[derive(Debug, Drop)]
pub struct Cache {
    sets: [Entries; SETS],
    hits: u64,
    misses: u64,
}

impl Model for Cache {
    ghost use Rattle.translation_cache.specs.Translations.{Translations};
    ghost use Rattle.translation_cache.specs.Formed.{IsFormed};
    ghost use Rattle.translation_cache.specs.declared.cached.Cached.{Cached};

    ghost Value = { Translations Cached };

    ghost view = { λ c. record { sets = c.sets; hits = c.hits; misses = c.misses } };

    ghost invariant = { λ c. IsFormed (record { sets = c.sets; hits = c.hits; misses = c.misses }) };
}

impl Cache {
    /// No entry, and nothing was counted. Takes no memory.
    pub fn new() -> Cache
        ensures { result ≡ no_translations }
    {
        Cache {
            sets: array::from_fn(|_| Entries::new()),
            hits: 0,
            misses: 0,
        }
    }

    /// Looks up a page of a space. None exactly where its entry isn't there, with a miss counted; else a hit is counted, and the
    /// entry goes to the front. Costs a step where it is at the front, and else as many as a set has entries.
    #[inline]
    pub fn look(&mut self, space: u16, page: u64) -> Option<Cached>
        ensures found { result ≡ found space page self.old }
        ensures looked { self.new ≡ looked space page self.old }
        ensures formed { IsFormed self.old }
    {
        let entries = &mut self.sets[set_of(page)];
        match entries.look(space, page) {
            Some(held) => {
                self.hits = self.hits.saturating_add(1);
                Some(held)
            }
            None => {
                self.misses = self.misses.saturating_add(1);
                None
            }
        }
    }

    /// Enters a page of a space that isn't there, at the front; a fifth entry of its set is dropped.
    pub fn enter(&mut self, space: u16, page: u64, cached: Cached)
        requires absent { found space page self.old ≡ None }
        ensures { self.new ≡ entered space page cached self.old }
    {
        let entries = &mut self.sets[set_of(page)];
        entries.put_first(space, page, cached);
    }

    /// Adds an own line, below 64, to what the entry of a page of a space holds, where it is there. The order stays.
    pub fn set_bit(&mut self, space: u16, page: u64, line: u8)
        requires { line < PAGE_LINES }
        ensures bit { self.new ≡ with_bit space page line self.old }
        ensures formed { IsFormed self.old }
    {
        let entries = &mut self.sets[set_of(page)];
        entries.set_bit(space, page, line);
    }

    /// Puts something in the place of what the entry of a page of a space holds, where it is there. The order, all other entries
    /// and the counts stay.
    pub fn replace(&mut self, space: u16, page: u64, cached: Cached)
        ensures replaced { self.new ≡ with_cached space page cached self.old }
        ensures formed { IsFormed self.old }
    {
        let entries = &mut self.sets[set_of(page)];
        entries.replace(space, page, cached);
    }

    /// Removes the entries of a space, which changes nothing where it has none. Costs a step for each entry.
    pub fn flush(&mut self, space: u16)
        ensures flushed { self.new ≡ flushed space self.old }
        ensures unseen { ((page : ℕ) → found space page self.old ≡ None) → self.new ≡ self.old }
        ensures formed { IsFormed self.old }
    {
        flush_all(&mut self.sets, space);
    }

    /// Counts so many hits, as that many look-ups of a page whose entry is at the front do.
    #[inline]
    pub fn count_hits(&mut self, n: u64)
        ensures { self.new ≡ with_hits n self.old }
    {
        self.hits = self.hits.saturating_add(n);
    }

    /// Counts one hit, as a look-up of a page whose entry is at the front does.
    #[inline(always)]
    pub fn count_hit(&mut self)
        ensures { self.new ≡ with_hits 1 self.old }
    {
        self.hits = self.hits.wrapping_add(1);
        if self.hits == 0 {
            fill(&mut self.hits);
        }
    }

    /// How many look-ups found the entry of their page. It stays at 2^64 - 1.
    pub fn hits(&self) -> u64
        ensures hits { result ≡ self.now.hits }
        ensures formed { IsFormed self.now }
    {
        self.hits
    }

    /// How many look-ups didn't. It stays at 2^64 - 1.
    pub fn misses(&self) -> u64
        ensures misses { result ≡ self.now.misses }
        ensures formed { IsFormed self.now }
    {
        self.misses
    }
}

/// Has as many as there may be. It is rare and stands apart, so that counting one is no more than adding it.
#[cold]
#[inline(never)]
fn fill(count: &mut u64)
    ensures { count.new ≡ 2 ^ 64 - 1 }
{
    *count = u64::MAX;
}

/// The set of a page.
#[inline]
fn set_of(page: u64) -> usize
    ensures set { result ≡ page % SETS }
    ensures inside { result < SETS }
{
    (page % SETS as u64) as usize
}

/// Removes the entries of a space from each list.
fn flush_all(sets: &mut [Entries], space: u16)
    ensures { sets.new ≡ map (without_space space) sets.old }
{
    'flushing: for set in sets.iter_mut() {
        set.flush(space);
    }
}
