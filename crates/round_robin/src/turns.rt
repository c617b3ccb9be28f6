ghost use Rattle.std.specs.Prelude.{◌≡◌, ◌+◌, ◌<◌, ◌≤◌, ◌↔◌, None, IfOk, length, slice_get};
ghost use Rattle.std.specs.List.Sorted.{IsBinarySearchResult, IsSearchInRange, IsStrictlyIncreasing};
ghost use Rattle.std.specs.List.{HoldsAt};
ghost use Rattle.std.specs.Ordering.{nat_cmp};
ghost use Rattle.std.specs.declared.cmp.Ordering.TheVariants as Ordering;
ghost use Rattle.std.specs.Option.{option_map, option_or};
ghost use Rattle.round_robin.specs.Turns.{Turns, next_number, after_turn_of, after_turns_of, had_before, left_for, with_turns};

use std::marker::Model;

/// The number of the last turn, and how many turns it has had since it was last chosen anew.
#[derive(Clone, Copy, Debug)]
struct Last {
    number: u16,
    had: u32,
}

/// Whose turn it is, of numbers that take turns: each has a quantum of turns, and then the next above has one.
#[derive(Debug, Drop)]
pub struct RoundRobin {
    quantum: u32,
    last: Option<Last>,
    /// Where the last number may stand among those that are running: looked at before a search.
    guess: usize,
}

impl Model for RoundRobin {
    ghost use Rattle.std.specs.Prelude.{◌≤◌};
    ghost use Rattle.std.specs.Option.{option_map};
    ghost use Rattle.round_robin.specs.Turns.{Turns};

    ghost Value = { Turns };

    ghost view = { λ r. record { quantum = r.quantum; last = option_map (λ l. record { number = l.number; had = l.had }) r.last } };

    ghost invariant = { λ r. 1 ≤ r.quantum };
}

/// The element at a place, or else the first.
fn at_or_first(running: &[u16], place: usize) -> Option<u16>
    ensures { result ≡ option_or (slice_get running.now place) (slice_get running.now 0) }
{
    match running.get(place) {
        Some(p) => Some(*p),
        None => running.first().copied(),
    }
}

/// The place of a number among numbers that rise, or where it would be.
#[inline(never)]
fn search(running: &[u16], number: u16) -> Result<usize, usize>
    ensures bound { IsSearchInRange result (length running.now) }
    ensures ok { IfOk result (HoldsAt (λ y. nat_cmp y number ≡ Ordering.Equal) running.now) }
    ensures position { IsBinarySearchResult (λ y. nat_cmp y number) running.now result }
{
    running.binary_search(&number)
}

/// The same. A guess that holds spares the search.
#[inline]
fn place_of(running: &[u16], number: u16, guess: usize) -> Result<usize, usize>
    ensures bound { IsSearchInRange result (length running.now) }
    ensures ok { IfOk result (HoldsAt (λ y. nat_cmp y number ≡ Ordering.Equal) running.now) }
    ensures position { IsBinarySearchResult (λ y. nat_cmp y number) running.now result }
{
    if let Some(p) = running.get(guess) {
        if *p == number {
            return Ok(guess);
        }
    }
    search(running, number)
}

impl RoundRobin {
    /// The start: no turn was taken yet. The quantum is in turns.
    pub fn new(quantum: u32) -> RoundRobin
        requires { 1 ≤ quantum }
        ensures { result ≡ record { quantum = quantum; last = None } }
    {
        RoundRobin {
            quantum,
            last: None,
            guess: 0,
        }
    }

    /// The number whose turn is next, of those that are running, ascending; none exactly where none is running.
    /// It takes one step where none began or ended to run since the last turn, and else as many as a binary search.
    pub fn next(&self, running: &[u16]) -> Option<u16>
        requires { IsStrictlyIncreasing running.now }
        ensures number { result ≡ next_number self.now running.now }
        ensures none { result ≡ None ↔ length running.now ≡ 0 }
    {
        let last = match &self.last {
            Some(last) => *last,
            None => return running.first().copied(),
        };
        match place_of(running, last.number, self.guess) {
            Ok(i) => {
                if last.had < self.quantum {
                    Some(last.number)
                } else {
                    at_or_first(running, i + 1)
                }
            }
            Err(i) => at_or_first(running, i),
        }
    }

    /// Takes note of a turn of `p`, which `next` gave.
    pub fn took(&mut self, p: u16)
        ensures { self.new ≡ after_turn_of p self.old }
    {
        let before = self.had_before(p);
        self.add(p, before, 1);
    }

    /// How many turns `p`, whose turn is next, has until another number's may be: at least 1.
    pub fn left_for(&self, p: u16) -> u32
        ensures left { result ≡ left_for p self.now }
        ensures some { 1 ≤ result }
    {
        self.quantum - self.had_before(p)
    }

    /// Takes note of `n` turns of `p`, which `next` gave: at least 1, and at most as many as it had left.
    pub fn took_turns(&mut self, p: u16, n: u32)
        requires some { 1 ≤ n }
        requires left { n ≤ left_for p self.old }
        ensures { self.new ≡ after_turns_of n p self.old }
    {
        let before = self.had_before(p);
        self.add(p, before, n);
    }

    /// So many turns of `p` more, behind those that it has had before.
    #[inline]
    fn add(&mut self, p: u16, before: u32, n: u32)
        requires { before + n ≤ self.old.quantum }
        ensures { self.new ≡ with_turns p (before + n) self.old }
    {
        if before == 0 {
            self.guess = self.guess_of(p);
        }
        self.last = Some(Last {
            number: p,
            had: before + n,
        });
    }

    /// How many turns `p`, whose turn is next, has had since it was last chosen anew.
    fn had_before(&self, p: u16) -> u32
        ensures had { result ≡ had_before self.now.quantum self.now.last p }
        ensures below { result < self.now.quantum }
    {
        match &self.last {
            Some(last) => {
                if p == last.number && last.had < self.quantum {
                    last.had
                } else {
                    0
                }
            }
            None => 0,
        }
    }

    /// Where `p`, whose turn it was, may stand: behind the last number, where it is above that, or else first.
    fn guess_of(&self, p: u16) -> usize {
        match &self.last {
            None => 0,
            Some(last) => {
                if p == last.number {
                    self.guess
                } else if p > last.number {
                    self.guess.saturating_add(1)
                } else {
                    0
                }
            }
        }
    }
}
