//! The nodes of a table by number: how many rows stand before those of each, as a guess that spares a search.
//!
//! No contract speaks of them. Who goes by a guess looks whether it is so, and where it isn't, looks on.

use crate::links::Link;
use sizes::TABLE_SLOTS;
use std::alloc::{AllocError, Global};

/// A node with so many rows is searched by what they begin and end with; fewer are gone over.
pub(crate) const MANY: usize = 5;

// Where rows move, so many guesses are put right; behind those they stay as they are.
const MOST_MOVED: usize = 1 << 13;

/// Where the rows of a node may stand: from a place on, so many.
#[derive(Clone, Copy)]
pub(crate) struct Rows {
    first: usize,
    n: usize,
}

impl Rows {
    fn new(first: usize, end: usize) -> Rows {
        Rows {
            first,
            n: end.wrapping_sub(first),
        }
    }

    /// The first place, where there are only a few; else none.
    #[inline]
    pub(crate) fn few(&self) -> Option<usize> {
        if self.n < MANY {
            Some(self.first)
        } else {
            None
        }
    }

    pub(crate) fn first(&self) -> usize {
        self.first
    }

    pub(crate) fn last(&self) -> usize {
        self.first.wrapping_add(self.n).wrapping_sub(1)
    }

    /// The place of a slot, where the slots of the first row and of the last one are these, and those between lie evenly.
    #[inline]
    pub(crate) fn between(&self, slot: u64, from: u64, to: u64) -> usize {
        if slot <= from || to <= from {
            return self.first;
        }
        let n = self.n as u64;
        let part = if to - from < n {
            slot - from
        } else {
            (slot - from).wrapping_mul(n.wrapping_sub(1)) / (to - from)
        };
        self.first.wrapping_add(part as usize)
    }
}

/// The rows of a node, by how many may stand before those of each: so many in all.
#[inline]
pub(crate) fn rows_of(before: &[usize], node: u64, len: usize) -> Rows {
    match before.get(node as usize) {
        Some(&first) => match before.get((node as usize).wrapping_add(1)) {
            Some(&end) => Rows::new(first, end),
            None => Rows::new(first, len),
        },
        None => Rows::new(0, len),
    }
}

// So many rows more stand before those of each node behind one.
fn move_rows(before: &mut [usize], node: u64, more: usize) {
    let first = (node as usize).wrapping_add(1);
    let end = before.len().min(first.saturating_add(MOST_MOVED));
    'moving: for at in first..end {
        before[at] = before[at].wrapping_add(more);
    }
}

// There is room, or else the node has no guess.
fn push(before: &mut Vec<usize>, rows: usize) {
    match before.push(rows) {
        Ok(()) => {}
        Err(_) => {}
    }
}

/// A node has one link more, to a new node, in a list that then has so many. The guesses of nodes from `known` on are of that list.
pub(crate) fn add_link(before: &mut Vec<usize>, known: usize, parent: u64, links: usize) {
    if before.len() == 0 {
        push(before, 0);
    }
    let first = (parent as usize).wrapping_add(1).max(known);
    'moving: for at in first..before.len() {
        before[at] = before[at].wrapping_add(1);
    }
    push(before, links);
}

/// Counts the links before those of each of so many nodes anew.
pub(crate) fn count_links(before: &mut Vec<usize>, links: &[Link], nodes: usize) {
    before.clear();
    'counting: for at in 0..links.len() {
        let node = links[at].0 / TABLE_SLOTS;
        'filling: for _ in before.len() as u64..node.wrapping_add(1) {
            push(before, at);
        }
    }
    'ending: for _ in before.len()..nodes {
        push(before, links.len());
    }
}

/// The nodes of a table, by number: how many runs may stand before those of each.
#[derive(Debug, Drop)]
pub(crate) struct Nodes {
    runs: Vec<usize>,
}

impl Nodes {
    pub(crate) fn new(alloc: Global) -> Nodes {
        Nodes {
            runs: Vec::new(alloc),
        }
    }

    /// Where the runs of a node may stand, among so many.
    #[inline]
    pub(crate) fn runs_of(&self, node: u64, len: usize) -> Rows {
        rows_of(&self.runs, node, len)
    }

    /// Room for n nodes more, and the first one.
    pub(crate) fn make_room(&mut self, n: usize) -> Result<(), AllocError> {
        self.runs.reserve(n.wrapping_add(1))?;
        Ok(())
    }

    /// There is a new node behind so many runs.
    pub(crate) fn add(&mut self, runs: usize) {
        if self.runs.len() == 0 {
            push(&mut self.runs, 0);
        }
        push(&mut self.runs, runs);
    }

    /// The runs of the node of a slot were so many in all, and are so many now.
    pub(crate) fn move_runs(&mut self, slot: u64, before: usize, now: usize) {
        if before != now {
            move_rows(&mut self.runs, slot / TABLE_SLOTS, now.wrapping_sub(before));
        }
    }

    pub(crate) fn copy(&self) -> Result<Nodes, AllocError> {
        let runs = self.runs.clone()?;
        Ok(Nodes { runs })
    }
}
