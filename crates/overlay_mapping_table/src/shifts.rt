ghost use Rattle.std.specs.Prelude.{◌≡◌, ◌≤◌, ◌<◌, ◌+◌, ◌*◌, ◌^◌, ℕ, None, length};
ghost use Rattle.std.specs.Int.{IsPowerOfTwo};
ghost use Rattle.std.specs.FinMap.{insert};
ghost use Rattle.overlay_mapping_table.specs.Rows.{map_of_slots, ring, StandOnce};
ghost use Rattle.overlay_mapping_table.specs.Probes.{AreNow, AreSound, IsBeyond, WouldStandAt, IsTakenOut, StandsAt};
ghost use Rattle.overlay_mapping_table.specs.Shifts.{AreLowered, AreRaised, IsEnd, HaveRows, IsLastRow};

use crate::entry::Entry;
use crate::full::Full;
use crate::guesses::Guesses;
use crate::places::wrap;
use crate::probes::{beyond, is_before};
use crate::slots::Slots;
use overlay_address::OverlayPage;

// Puts a row in at the place where its name would stand. Those from there up to the next empty slot go up by one.
// Answers where all of these stand then.
#[inline(never)]
pub(crate) fn put_in(
    slots: &mut Slots,
    guesses: &Guesses,
    full: Full,
    place: usize,
    p: OverlayPage,
    e: Entry,
) -> Full
    requires sound { AreSound slots.old }
    requires full { HaveRows slots.old full }
    requires gap { WouldStandAt slots.old p place }
    ensures now { AreNow slots.old slots.new (insert (map_of_slots slots.old) p e) }
    ensures full { HaveRows slots.new result }
{
    let end = end_from(slots, guesses, full, place);
    raise(slots, place, end);
    let at = wrap(place, slots.len());
    slots.put(at, p, e);
    Full {
        from: place,
        end: end + 1,
    }
}

// Takes the row of a slot out. Those behind it go down by one, up to an empty slot or a row at its home. Answers where
// they end then.
pub(crate) fn take_out(slots: &mut Slots, guesses: &Guesses, at: usize) -> usize
    requires sound { AreSound slots.old }
    requires there { (name : ℕ) × StandsAt slots.old name at }
    ensures { IsTakenOut slots.old slots.new at }
{
    let hole = slots.len() + at;
    let last = last_from(slots, guesses, hole);
    slots.clear(at);
    lower(slots, hole, last);
    last
}

// The first place from one on whose slot is empty.
fn end_from(slots: &Slots, guesses: &Guesses, full: Full, place: usize) -> usize
    requires sound { AreSound slots.now }
    requires full { HaveRows slots.now full }
    requires behind { length slots.now ≤ place }
    requires near { place < 3 * length slots.now }
    ensures { IsEnd (length slots.now) slots.now place result }
{
    let n = slots.len();
    let mut end = full.behind(place);
    'passing: while slots.name_at(wrap(end, n)).is_some() {
        end = pass(slots, guesses, end + 1);
    }
    end
}

// The last place from one on behind which a slot is empty or has a row at its home.
fn last_from(slots: &Slots, guesses: &Guesses, hole: usize) -> usize
    requires sound { AreSound slots.now }
    requires behind { length slots.now ≤ hole }
    requires near { hole < 2 * length slots.now }
    requires there { ring (length slots.now) slots.now hole ≡ None → ⊥ }
    ensures { IsLastRow (length slots.now) slots.now hole result }
{
    let mut next = hole + 1;
    'passing: while is_before(slots, next, next) {
        next = pass(slots, guesses, next);
    }
    next - 1
}

// The first place from one on that has no row of a home before it. That is mostly where the rows end that were moved
// last: then one look at the last of them tells that all are passed.
fn pass(slots: &Slots, guesses: &Guesses, from: usize) -> usize
    requires sound { AreSound slots.now }
    requires behind { length slots.now ≤ from }
    requires near { from < 6 * length slots.now }
    ensures { IsBeyond (length slots.now) slots.now from result }
{
    let end = guesses.end();
    if from < end && is_before(slots, end - 1, from) {
        beyond(slots, from, end)
    } else {
        let steps = guesses.steps(wrap(from, slots.len()), from);
        beyond(slots, from, from + steps as usize)
    }
}

// Moves the rows from a place up to an empty one up by one.
fn raise(slots: &mut Slots, place: usize, end: usize)
    requires power { IsPowerOfTwo (length slots.old) }
    requires apart { StandOnce slots.old }
    requires few { end < 2 ^ 30 }
    requires end { IsEnd (length slots.old) slots.old place end }
    ensures { AreRaised (length slots.old) slots.old slots.new place end }
{
    let n = slots.len();
    let from = wrap(place, n);
    if place < end && from + (end - place) < n {
        slots.move_up(from, from + (end - place));
    } else {
        let mut hole = end;
        'raising: while place < hole {
            slots.carry(wrap(hole - 1, n), wrap(hole, n));
            hole -= 1;
        }
    }
}

// Moves the rows behind an empty place down by one, up to the last one.
fn lower(slots: &mut Slots, hole: usize, last: usize)
    requires power { IsPowerOfTwo (length slots.old) }
    requires apart { StandOnce slots.old }
    requires bare { ring (length slots.old) slots.old hole ≡ None }
    requires order { hole ≤ last }
    requires near { last + 1 < hole + length slots.old }
    requires few { last < 2 ^ 30 }
    ensures { AreLowered (length slots.old) slots.old slots.new hole last }
{
    let n = slots.len();
    let to = wrap(hole, n);
    if hole < last && to + (last - hole) < n {
        slots.move_down(to, to + (last - hole));
    } else {
        let mut gap = hole;
        'lowering: while gap < last {
            slots.carry(wrap(gap + 1, n), wrap(gap, n));
            gap += 1;
        }
    }
}
