ghost use Rattle.std.specs.Prelude.{◌≡◌, ◌+◌, ◌≤◌, ◌<◌, ◌*◌, ◌↔◌, true, length, IfOk, IfErr};
ghost use Rattle.overlay_mapping_table.specs.Probes.{AreSound, IsBefore, IsBeyond, WouldStandAt, IsPassed, StandsAt};

use crate::guesses::Guesses;
use crate::places::{home, middle, way, wrap};
use crate::slots::Slots;
use overlay_address::OverlayPage;

// The slot in which a name stands, or else the place where it would stand, counted on from the number of slots.
#[inline(always)]
pub(crate) fn place_of(slots: &Slots, guesses: &Guesses, p: OverlayPage) -> Result<usize, usize>
    requires { AreSound slots.now }
    ensures there { IfOk result (StandsAt slots.now p) }
    ensures gap { IfErr result (WouldStandAt slots.now p) }
{
    let slot = home(p, slots.len());
    if slots.number_at(slot) == p.address(0) {
        return Ok(slot);
    }
    search(slots, guesses, p)
}

// The same, of a name that seldom stands at its home.
#[inline(never)]
fn search(slots: &Slots, guesses: &Guesses, p: OverlayPage) -> Result<usize, usize>
    requires { AreSound slots.now }
    ensures there { IfOk result (StandsAt slots.now p) }
    ensures gap { IfErr result (WouldStandAt slots.now p) }
{
    let n = slots.len();
    let name = p.address(0);
    let slot = home(p, n);
    if slots.number_at(slot) == name {
        return Ok(slot);
    }
    let home = n + slot;
    match slots.name_at(slot) {
        None => return Err(home),
        Some(_) => {}
    }
    let mut place = beyond(slots, home, home + guesses.steps(slot, home) as usize);
    'probing: loop {
        let at = wrap(place, n);
        if slots.number_at(at) == name {
            return Ok(at);
        }
        if !is_before(slots, place, home + 1) {
            return Err(place);
        }
        place += 1;
    }
}

// The first place from one on that has no row of a home before it. Rows stand by rising homes, so what is found at one
// place tells of all on one side of it: a right guess takes two looks, and one that is off by some steps the logarithm.
pub(crate) fn beyond(slots: &Slots, from: usize, guess: usize) -> usize
    requires sound { AreSound slots.now }
    requires behind { length slots.now ≤ from }
    requires near { from < 6 * length slots.now }
    ensures { IsBeyond (length slots.now) slots.now from result }
{
    let end = from + slots.len();
    let first = guess.max(from).min(end - 1);
    if is_before(slots, first, from) {
        between(slots, from, first + 1, end, true)
    } else {
        between(slots, from, from, first, false)
    }
}

// The same, between two places: all before the lower one are passed, and the upper one isn't. The steps begin at one of
// them, and double.
fn between(slots: &Slots, from: usize, low: usize, high: usize, upwards: bool) -> usize
    requires sound { AreSound slots.now }
    requires behind { length slots.now ≤ from }
    requires near { from < 6 * length slots.now }
    requires passed { IsPassed (length slots.now) slots.now from low }
    requires order { low ≤ high }
    requires round { high ≤ from + length slots.now }
    requires stops { IsBefore (length slots.now) slots.now from high → ⊥ }
    ensures { IsBeyond (length slots.now) slots.now from result }
{
    let mut low = low;
    let mut high = high;
    let mut step = 0;
    'halving: while low < high {
        let steps = step.min((high - low) / 2);
        let middle = middle(low, high, steps, upwards);
        if is_before(slots, middle, from) {
            low = middle + 1;
        } else {
            high = middle;
        }
        step = 2 * steps + 1;
    }
    low
}

// Whether a place has a row whose home lies before a bound.
#[inline(always)]
pub(crate) fn is_before(slots: &Slots, place: usize, bound: usize) -> bool
    requires sound { AreSound slots.now }
    requires behind { length slots.now ≤ place }
    requires near { bound < 8 * length slots.now }
    ensures { (result ≡ true) ↔ IsBefore (length slots.now) slots.now bound place }
{
    let n = slots.len();
    match slots.name_at(wrap(place, n)) {
        None => false,
        Some(p) => place < bound + way(p, place, n),
    }
}
