//! The links of a table: which slot has which child.
//!
//! They stand in two lists by rising slots, a long one and a short one of those that came last, so that few links move where one is
//! put in. Where the short one has grown, both are made one.

ghost use Rattle.std.specs.Prelude.{◌≡◌, ◌+◌, ◌<◌, ◌≤◌, IfOk, IfErr, None, OnOk};
ghost use Rattle.std.specs.FinMap as map;
ghost use Rattle.number_maps.specs.Rows.{IsAt, IsGap, IsNextOne, RowsRise, map_of};
ghost use Rattle.page_table.specs.Links.{AreApart, AreMerged, HasStep, IsStart};

use crate::nodes::{add_link, count_links, rows_of};
use sizes::TABLE_SLOTS;
use std::alloc::{AllocError, Global};
use std::marker::Model;

/// A slot that has a child, with its number.
pub(crate) type Link = (u64, u32);

// After a mapping one link may be recent for so many that are settled.
const SETTLED_PART: usize = 32;

// A place from one on and before another: a guess, where it is one, and else the middle.
#[inline]
pub(crate) fn place_in(low: usize, high: usize, guess: usize) -> usize
    requires some { low < high }
    ensures low { low ≤ result }
    ensures high { result < high }
{
    if guess >= low && guess < high {
        guess
    } else {
        low + (high - low) / 2
    }
}

// Where the link of a slot stands, or would stand. Looks at a guess first, then further and further from it, and then in the middle
// of what is left; where the guess is no place, in the middle at once.
#[cold]
#[inline(never)]
fn search(links: &[Link], slot: u64, guess: usize) -> Result<usize, usize>
    requires { RowsRise 0 links.now }
    ensures there { IfOk result (IsAt links.now slot) }
    ensures gap { IfErr result (IsGap links.now slot) }
{
    let mut low = 0;
    let mut high = links.len();
    let mut guess = guess;
    let mut step = if guess < high { 1 } else { high };
    'looking: while low < high {
        let at = place_in(low, high, guess);
        let key = links[at].0;
        if key == slot {
            return Ok(at);
        }
        if key < slot {
            low = at + 1;
            guess = at.wrapping_add(step);
        } else {
            high = at;
            guess = at.wrapping_sub(step);
        }
        step = step.wrapping_add(step);
    }
    Err(low)
}

// Where the link of a node's slot may stand.
#[inline]
fn guess_of(links: &[Link], before: &[usize], slot: u64) -> usize {
    let rows = rows_of(before, slot / TABLE_SLOTS, links.len());
    match rows.few() {
        Some(first) => first,
        None => match links.get(rows.first()) {
            Some(from) => match links.get(rows.last()) {
                Some(to) => rows.between(slot, from.0, to.0),
                None => rows.first(),
            },
            None => rows.first(),
        },
    }
}

// Where the link of a slot stands if each slot between it and the one at a place has a child.
#[inline]
fn beside(at: usize, key: u64, slot: u64) -> usize {
    at.wrapping_add(slot.wrapping_sub(key) as usize)
}

// Where the link of a slot stands, or would stand: at a guess, or else by a search.
#[inline]
fn place_of(links: &[Link], slot: u64, guess: usize) -> Result<usize, usize>
    requires { RowsRise 0 links.now }
    ensures there { IfOk result (IsAt links.now slot) }
    ensures gap { IfErr result (IsGap links.now slot) }
{
    if guess < links.len() && links[guess].0 == slot {
        return Ok(guess);
    }
    search(links, slot, guess)
}

// The child of a slot.
fn child_of(links: &[Link], slot: u64, guess: usize) -> Option<u32>
    requires { RowsRise 0 links.now }
    ensures { result ≡ map.get (map_of links.now) slot }
{
    match search(links, slot, guess) {
        Ok(at) => Some(links[at].1),
        Err(_) => None,
    }
}

// The place of the first link from a slot on.
#[inline]
fn start_of(links: &[Link], slot: u64, guess: usize) -> usize
    requires { RowsRise 0 links.now }
    ensures { IsStart links.now slot result }
{
    match place_of(links, slot, guess) {
        Ok(at) => at,
        Err(at) => at,
    }
}

// Of the links from two places on the first one, with the places behind it.
#[inline]
fn step(settled: &[Link], recent: &[Link], at: usize, other: usize) -> Option<(Link, usize, usize)>
    ensures { HasStep settled.now recent.now at other result }
{
    if at >= settled.len() {
        if other >= recent.len() {
            return None;
        }
        return Some((recent[other], at, other + 1));
    }
    if other < recent.len() && recent[other].0 < settled[at].0 {
        return Some((recent[other], at, other + 1));
    }
    Some((settled[at], at + 1, other))
}

// One list of two, by rising slots.
fn merged(alloc: Global, settled: &[Link], recent: &[Link]) -> Result<Vec<Link>, AllocError>
    requires settled { RowsRise 0 settled.now }
    requires recent { RowsRise 0 recent.now }
    requires apart { AreApart settled.now recent.now }
    ensures { IfOk result (λ rows. AreMerged settled.now recent.now rows.items) }
{
    let mut rows = Vec::new(alloc);
    rows.reserve(settled.len().wrapping_add(recent.len()))?;
    let mut at = 0;
    let mut other = 0;
    'merging: while let Some((link, next, next_other)) = step(settled, recent, at, other) {
        rows.push(link)?;
        at = next;
        other = next_other;
    }
    Ok(rows)
}

/// The children of slots, and room for more.
#[derive(Debug, Drop)]
pub(crate) struct LinkMap {
    // two lists of links by rising slots: a long one, and a short one of those that came last
    settled: Vec<Link>,
    recent: Vec<Link>,
    // how many links may stand before those of each node, in the list where they are: those of a node that was made since the lists
    // were made one are recent
    before: Vec<usize>,
    // so many nodes were there then
    known: usize,
}

impl Model for LinkMap {
    ghost use Rattle.page_table.specs.Links.{Linked};
    ghost use Rattle.page_table.specs.Codes.{linked_code};

    ghost Value = { Linked };

    ghost coded = { linked_code };

    ghost use Rattle.std.specs.Vec.{vec_capacity};
    ghost use Rattle.page_table.specs.Links.{AreLinks, seen_links};

    ghost view = { λ l. seen_links l.settled.items l.recent.items (vec_capacity l.recent) };

    ghost invariant = { λ l. AreLinks l.settled.items l.recent.items };
}

impl LinkMap {
    /// No link. Takes no memory.
    pub(crate) fn new(alloc: Global) -> LinkMap
        ensures { result.children ≡ map.empty }
    {
        LinkMap {
            settled: Vec::new(alloc),
            recent: Vec::new(alloc),
            before: Vec::new(alloc),
            known: 0,
        }
    }

    // Whether the node of a slot was made since the lists were made one.
    #[inline]
    fn is_new(&self, slot: u64) -> bool {
        slot / TABLE_SLOTS >= self.known as u64
    }

    // Where the link of a slot may stand among those that are settled: the last of them, for a new node.
    #[inline]
    fn settled_guess(&self, slot: u64, guess: usize) -> usize {
        if self.is_new(slot) {
            self.settled.len().wrapping_sub(1)
        } else {
            guess
        }
    }

    // Where the link of a slot may stand among those that are recent: there is no guess for a node that was there before.
    #[inline]
    fn recent_guess(&self, slot: u64) -> usize {
        if self.is_new(slot) {
            guess_of(&self.recent, &self.before, slot)
        } else {
            usize::MAX
        }
    }

    /// The child of a slot.
    #[inline(always)]
    pub(crate) fn get(&self, slot: u64) -> Option<u32>
        ensures { result ≡ map.get self.now.children slot }
    {
        let links: &[Link] = &self.settled;
        let guess = guess_of(links, &self.before, slot);
        if guess < links.len() {
            let key = links[guess].0;
            if key == slot {
                return Some(links[guess].1);
            }
            let other = beside(guess, key, slot);
            if other < links.len() && links[other].0 == slot {
                return Some(links[other].1);
            }
        }
        self.search_both(slot, guess)
    }

    // The same, where the guess for settled links isn't right.
    #[cold]
    #[inline(never)]
    fn search_both(&self, slot: u64, guess: usize) -> Option<u32>
        ensures { result ≡ map.get self.now.children slot }
    {
        if self.is_new(slot) {
            match child_of(&self.recent, slot, self.recent_guess(slot)) {
                Some(child) => Some(child),
                None => child_of(&self.settled, slot, self.settled.len().wrapping_sub(1)),
            }
        } else {
            match child_of(&self.settled, slot, guess) {
                Some(child) => Some(child),
                None => child_of(&self.recent, slot, usize::MAX),
            }
        }
    }

    /// The first slot not below one that has a child, with its child.
    #[inline]
    pub(crate) fn next_from(&self, slot: u64) -> Option<Link>
        ensures { IsNextOne self.now.children slot result }
    {
        let links: &[Link] = &self.settled;
        let guess = guess_of(links, &self.before, slot);
        if guess < links.len() && links[guess].0 == slot {
            return Some(links[guess]);
        }
        self.next_of_both(slot, guess)
    }

    // The same, where the guess for settled links isn't right.
    fn next_of_both(&self, slot: u64, guess: usize) -> Option<Link>
        ensures { IsNextOne self.now.children slot result }
    {
        let at = start_of(&self.settled, slot, self.settled_guess(slot, guess));
        let other = start_of(&self.recent, slot, self.recent_guess(slot));
        match step(&self.settled, &self.recent, at, other) {
            Some((link, _, _)) => Some(link),
            None => None,
        }
    }

    /// How many links there are.
    pub(crate) fn len(&self) -> usize
        ensures { result ≡ map.len self.now.children }
    {
        self.settled.len() + self.recent.len()
    }

    /// Room for so many links more.
    pub(crate) fn reserve(&mut self, n: usize) -> Result<(), AllocError>
        ensures children { self.new.children ≡ self.old.children }
        ensures room { OnOk result (n ≤ self.new.room) }
    {
        self.recent.reserve(n)?;
        self.before.reserve(n.wrapping_add(1))?;
        Ok(())
    }

    /// Gives a slot without a child one. There is room for the link.
    pub(crate) fn insert(&mut self, slot: u64, child: u32)
        requires free { map.get self.old.children slot ≡ None }
        requires room { 0 < self.old.room }
        ensures children { self.new.children ≡ map.insert self.old.children slot child }
        ensures room { self.old.room ≤ self.new.room + 1 }
    {
        let guess = self.recent_guess(slot);
        let at = start_of(&self.recent, slot, guess);
        match self.recent.insert(at, (slot, child)) {
            Ok(()) => {
                let links = self.recent.len();
                add_link(&mut self.before, self.known, slot / TABLE_SLOTS, links);
            }
            Err(_) => unreachable!(),
        }
    }

    /// Makes one list of both, where many links are recent. For want of memory they stay two.
    pub(crate) fn settle(&mut self)
        ensures { self.new.children ≡ self.old.children }
    {
        if self.recent.len() <= self.settled.len() / SETTLED_PART {
            return;
        }
        let alloc = *self.recent.allocator();
        match merged(alloc, &self.settled, &self.recent) {
            Ok(rows) => {
                self.settled = rows;
                self.recent = Vec::new(alloc);
                self.known = self.settled.len().wrapping_add(1);
                count_links(&mut self.before, &self.settled, self.known);
            }
            Err(_) => {}
        }
    }

    /// The same links, or want of memory.
    pub(crate) fn copy(&self) -> Result<LinkMap, AllocError>
        ensures { IfOk result (λ copy. copy.children ≡ self.now.children) }
    {
        let settled = self.settled.clone()?;
        let recent = self.recent.clone()?;
        let before = self.before.clone()?;
        Ok(LinkMap {
            settled,
            recent,
            before,
            known: self.known,
        })
    }
}
