ghost use Rattle.std.specs.Prelude.{◌≡◌, ℕ, ◌<◌, ◌≤◌, [], false, true, length, OnOk};
ghost use Rattle.std.specs.List.{insert, remove};
ghost use Rattle.std.specs.List.Sorted.{IsStrictlyIncreasing};
ghost use Rattle.ascending_numbers.specs.Numbers.{IsListed, IsPlaceOf, is_in};

use crate::shifts::{put_at, take_at};
use std::alloc::{AllocError, Global};
use std::marker::Model;

/// Numbers that ascend, one behind the other. What is put in or taken out moves those before it or those behind it, whichever are fewer.
#[derive(Drop)]
pub struct AscendingNumbers {
    numbers: Vec<u16>,
    // where the first one stands: what is before it is room
    from: usize,
}

impl Model for AscendingNumbers {
    ghost use Rattle.std.specs.Prelude.{◌≤◌, length, drop};
    ghost use Rattle.std.specs.List.Sorted.{IsStrictlyIncreasing};
    ghost use Rattle.std.specs.Vec.{vec_capacity};
    ghost use Rattle.ascending_numbers.specs.Numbers.{Numbers};

    ghost Value = { Numbers };

    ghost view = { λ a. record { items = drop a.from a.numbers.items; room = vec_capacity a.numbers } };

    ghost invariant = { λ a. (a.from ≤ length a.numbers.items) × IsStrictlyIncreasing (drop a.from a.numbers.items) };
}

impl AscendingNumbers {
    /// None. Takes no memory.
    pub fn new(alloc: Global) -> AscendingNumbers
        ensures { result.items ≡ [] }
    {
        AscendingNumbers {
            numbers: Vec::new(alloc),
            from: 0,
        }
    }

    /// All of them, ascending.
    #[inline]
    pub fn as_slice(&self) -> &[u16]
        ensures items { result.now ≡ self.now.items }
        ensures ascending { IsStrictlyIncreasing self.now.items }
    {
        &self.numbers[self.from..]
    }

    /// Makes room for so many numbers in all, or answers the want of memory. Takes at most four bytes for each, or eight where it grows.
    pub fn reserve(&mut self, count: u32) -> Result<(), AllocError>
        ensures items { self.new.items ≡ self.old.items }
        ensures more { self.old.room ≤ self.new.room }
        ensures room { OnOk result (count ≤ self.new.room) }
    {
        // as much again is room to put numbers in and take them out at the front
        let wanted = 2 * count as usize;
        if self.numbers.len() < wanted {
            self.numbers.reserve(wanted - self.numbers.len())?;
        }
        Ok(())
    }

    /// Where a number stands, or where it would.
    fn place(&self, p: u16) -> Result<usize, usize>
        ensures place { IsPlaceOf self.now.items p result }
        ensures ascending { IsStrictlyIncreasing self.now.items }
    {
        self.as_slice().binary_search(&p)
    }

    /// Puts a number in, where it isn't there yet. All of them, and that one, are below the count for which there is room, so that it
    /// takes no memory. Costs a search, and a move of the numbers before it or of those behind it, whichever are fewer.
    pub fn put(&mut self, p: u16)
        requires below { p < self.old.room }
        requires all_below { (q : ℕ) → is_in self.old.items q ≡ true → q < self.old.room }
        ensures listed { IsListed p true self.old.items self.new.items }
        ensures room { self.old.room ≤ self.new.room }
    {
        match self.place(p) {
            Ok(_) => (),
            Err(at) => self.insert(at, p),
        }
    }

    /// Takes a number out, where it is there. Costs a search, and a move of the numbers before it or of those behind it, whichever are
    /// fewer.
    pub fn take(&mut self, p: u16)
        ensures listed { IsListed p false self.old.items self.new.items }
        ensures room { self.new.room ≡ self.old.room }
    {
        match self.place(p) {
            Ok(at) => self.remove(at),
            Err(_) => (),
        }
    }

    /// Puts a number in its place.
    fn insert(&mut self, at: usize, p: u16)
        requires place { IsPlaceOf self.old.items p (Err at) }
        requires room { length self.old.items < self.old.room }
        ensures items { self.new.items ≡ insert self.old.items at p }
        ensures room { self.old.room ≤ self.new.room }
    {
        self.from = put_at(&mut self.numbers, self.from, at, p);
    }

    /// Takes out the number at a place.
    fn remove(&mut self, at: usize)
        requires { at < length self.old.items }
        ensures items { self.new.items ≡ remove self.old.items at }
        ensures room { self.new.room ≡ self.old.room }
    {
        self.from = take_at(&mut self.numbers, self.from, at);
    }
}
