ghost use Rattle.std.specs.Prelude.{◌≤◌};
ghost use Rattle.std.specs.Int.{IsPowerOfTwo};

use crate::places::{home, way};
use filled_list::Filled;
use overlay_address::OverlayPage;
use std::alloc::{AllocError, Global};

// How many homes side by side share a guess.
const HOMES: usize = 4;

// Where a search looks first. Nothing rests on what it answers: a wrong guess costs a few more steps.
#[derive(Debug, Drop)]
pub(crate) struct Guesses {
    // by homes: how far behind its home the row stood that was put in or taken out there last
    steps: Filled<u32>,
    // where the rows ended among which that was
    end: usize,
    // the homes of the last change, and how many rows have been put in or taken out before those that lie further on
    last: usize,
    more: u32,
    fewer: u32,
}

impl Guesses {
    // None, for so many slots.
    pub fn new(alloc: Global, n: usize) -> Result<Guesses, AllocError> {
        let steps = Filled::new(alloc, 0, n.div_ceil(HOMES))?;
        Ok(Guesses {
            steps,
            end: 0,
            last: 0,
            more: 0,
            fewer: 0,
        })
    }

    // How many steps behind a home its rows stand, by its slot and the place that is meant.
    #[inline(always)]
    pub fn steps(&self, home: usize, place: usize) -> u32 {
        let at = home / HOMES;
        if self.steps.len() <= at {
            return 0;
        }
        let steps = self.steps.at(at);
        if at <= self.last || self.end <= place {
            return steps;
        }
        steps.saturating_add(self.more).saturating_sub(self.fewer)
    }

    // Where the rows end that stand behind their homes.
    pub fn end(&self) -> usize {
        self.end
    }

    // A row was put in or taken out at a place, and the rows behind it end at another one.
    #[inline(never)]
    pub fn keep(&mut self, p: OverlayPage, place: usize, n: usize, end: usize)
        requires power { IsPowerOfTwo n }
        requires behind { n ≤ place }
    {
        let at = home(p, n) / HOMES;
        if at < self.steps.len() {
            let steps = u32::try_from(way(p, place, n)).unwrap_or(0);
            let before = self.steps.at(at);
            if at != self.last {
                self.more = steps.saturating_sub(before);
                self.fewer = before.saturating_sub(steps);
            }
            self.last = at;
            self.steps.set(at, steps);
        }
        self.end = end;
    }
}
