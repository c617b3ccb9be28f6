//! The list.

ghost use Rattle.std.specs.Prelude.{◌≡◌, ◌<◌, ◌≤◌, ◌+◌, ◌-◌, ◌++◌, length, get_or, slice_set, replicate, IfOk};
ghost use Rattle.filled_list.specs.Copied.{AreCopied};
ghost use Rattle.std.specs.Vec.{vec_capacity};

use std::alloc::{AllocError, Global};
use std::marker::Model;

/// A list of fixed length. Up to the last element that was written they are kept, and all behind it are alike: so it costs next to
/// nothing to make, and memory that isn't met isn't touched.
#[derive(Debug, Drop)]
pub struct Filled<T> {
    items: Vec<T>,
    rest: T,
    len: usize,
}

impl<T> Model for Filled<T> {
    ghost use Rattle.std.specs.Prelude.{◌≤◌, ◌-◌, ◌++◌, List, length, replicate};
    ghost use Rattle.std.specs.Vec.{vec_capacity};

    ghost Value = { List T };

    ghost view = { λ f. f.items.items ++ replicate (f.len - length f.items.items) f.rest };

    ghost invariant = { λ f. (length f.items.items ≤ f.len) × (f.len ≤ vec_capacity f.items) };
}

impl<T: Copy> Filled<T> {
    /// So many elements, which are alike. Takes all the memory that the list ever needs, or answers the want of it, and writes none of it.
    pub fn new(alloc: Global, rest: T, len: usize) -> Result<Filled<T>, AllocError>
        ensures { IfOk result (λ f. f ≡ replicate len rest) }
    {
        let items = Vec::with_capacity(alloc, len)?;
        Ok(Filled { items, rest, len })
    }

    /// How many elements there are. Costs a step.
    pub fn len(&self) -> usize
        ensures { result ≡ length self.now }
    {
        self.len
    }

    /// An element, which has to be there. Costs a step.
    #[inline(always)]
    pub fn at(&self, at: usize) -> T
        requires { at < length self.now }
        ensures { result ≡ get_or self.now at result }
    {
        if at < self.items.len() {
            self.items[at]
        } else {
            self.rest
        }
    }

    /// Writes an element, which has to be there, and all before it that were alike so far. Takes no memory.
    #[inline(always)]
    pub fn set(&mut self, at: usize, x: T)
        requires { at < length self.old }
        ensures { self.new ≡ slice_set self.old at x }
    {
        if at < self.items.len() {
            self.items[at] = x;
        } else {
            reach(&mut self.items, self.rest, at);
            self.items[at] = x;
        }
    }

    /// Writes so many elements from one place on to another one, as a block. The two may lie over each other. Takes no memory.
    pub fn copy(&mut self, from: usize, to: usize, n: usize)
        requires some { 0 < n }
        requires from { from + n ≤ length self.old }
        requires to { to + n ≤ length self.old }
        ensures { AreCopied self.old self.new from to n }
    {
        reach(&mut self.items, self.rest, from.max(to) + n - 1);
        self.items.copy_within(from..from + n, to);
    }
}

/// Makes a list as long as needed for a place.
#[inline(never)]
fn reach<T: Copy>(items: &mut Vec<T>, rest: T, at: usize)
    requires { at < vec_capacity items.old }
    ensures items { items.new.items ≡ items.old.items ++ replicate (at + 1 - length items.old.items) rest }
    ensures capacity { vec_capacity items.old ≤ vec_capacity items.new }
{
    'reaching: while items.len() <= at {
        match items.push(rest) {
            Ok(()) => {}
            Err(_) => unreachable!(),
        }
    }
}
