//! A slot for each number, which has a value or is empty.

ghost use Rattle.std.specs.Prelude.{◌≡◌, ℕ, ◌+◌, ◌^◌, ◌<◌, ◌≤◌, length, max, Some, None, true, IfOk, OnOk, OnErr};
ghost use Rattle.std.specs.Option.{is_some, option_copied};
ghost use Rattle.std.specs.Borrow.{Lends, sem};
ghost use Rattle.by_number.specs.Values.{IsNextValue};
ghost use Rattle.by_number.specs.Slots.{IsEdited, slot_at, slot_with, value_at, value_of};

use std::alloc::{AllocError, Global};

/// Room for a value.
#[derive(Drop)]
pub(crate) enum Slot<T> {
    Empty,
    Full(Box<T>),
}

impl<T> Slot<T> {
    ghost use Rattle.by_number.specs.contracts.slots.Slot.{the_row};

    /// The value of a slot that has one, lent.
    #[inline]
    pub(crate) fn value_mut(&mut self) -> &mut T
        requires { is_some (value_of self.old) ≡ true }
        ensures* writes_back { sem 𝓛 (Lends (the_row T.row) T.row self.entry result (slot_with self.old)) }
        ensures value { value_of self.old ≡ Some result.now }
    {
        match self {
            Slot::Full(value) => value.as_mut(),
            Slot::Empty => unreachable!(),
        }
    }
}

/// The value of a number.
#[inline]
pub(crate) fn value_in<T>(slots: &Vec<Slot<T>>, number: u16) -> Option<&T>
    ensures { option_copied result ≡ value_at slots.now.items number }
{
    match slots.get(number as usize) {
        Some(Slot::Full(value)) => Some(&**value),
        Some(Slot::Empty) => None,
        None => None,
    }
}

/// Whether a number has a value.
#[inline]
pub(crate) fn has_in<T>(slots: &Vec<Slot<T>>, number: usize) -> bool
    ensures { result ≡ is_some (value_at slots.now.items number) }
{
    match slots.get(number) {
        Some(Slot::Full(_)) => true,
        Some(Slot::Empty) => false,
        None => false,
    }
}

/// A slot with a value.
fn new_slot<T: Drop>(alloc: Global, value: T) -> Result<Slot<T>, AllocError>
    ensures { IfOk result (λ slot. value_of slot ≡ Some value) }
{
    match Box::new(alloc, value) {
        Ok(slot) => Ok(Slot::Full(slot)),
        Err(_) => Err(AllocError),
    }
}

/// Makes room for so many slots.
fn grow<T: Drop>(slots: &mut Vec<Slot<T>>, count: usize) -> Result<(), AllocError>
    ensures same { (q : ℕ) → slot_at slots.new.items q ≡ slot_at slots.old.items q }
    ensures enough { OnOk result (count ≤ length slots.new.items) }
    ensures bound { length slots.new.items ≤ max (length slots.old.items) count }
{
    'growing: while slots.len() < count {
        slots.push(Slot::Empty)?;
    }
    Ok(())
}

/// Puts a slot in its place, for which there is room.
fn fill<T: Drop>(slots: &mut Vec<Slot<T>>, number: u16, slot: Slot<T>)
    requires { number < length slots.old.items }
    ensures filled { IsEdited slots.old.items slots.new.items number (value_of slot) }
    ensures length { length slots.new.items ≡ length slots.old.items }
{
    match slots.get_mut(number as usize) {
        Some(place) => *place = slot,
        None => unreachable!(),
    }
}

/// Gives a number a value. After want of memory each number is as it was.
pub(crate) fn insert_in<T: Drop>(
    slots: &mut Vec<Slot<T>>,
    number: u16,
    value: T,
) -> Result<(), AllocError>
    ensures inserted { OnOk result (IsEdited slots.old.items slots.new.items number (Some value)) }
    ensures kept { OnErr result
        ((q : ℕ) → slot_at slots.new.items q ≡ slot_at slots.old.items q) }
    ensures bound { length slots.new.items ≤ max (length slots.old.items) (number + 1) }
{
    let slot = new_slot(*slots.allocator(), value)?;
    grow(slots, number as usize + 1)?;
    fill(slots, number, slot);
    Ok(())
}

/// Takes away the value of a number.
pub(crate) fn remove_in<T: Drop>(slots: &mut Vec<Slot<T>>, number: u16)
    ensures removed { IsEdited slots.old.items slots.new.items number None }
    ensures length { length slots.new.items ≡ length slots.old.items }
{
    match slots.get_mut(number as usize) {
        Some(slot) => *slot = Slot::Empty,
        None => (),
    }
}

/// The least number that has a value, of those not below one.
pub(crate) fn next_in<T>(slots: &Vec<Slot<T>>, from: u16) -> Option<u16>
    requires { length slots.now.items ≤ 2 ^ 16 }
    ensures { IsNextValue (value_at slots.now.items) from result }
{
    let mut number = from as usize;
    'looking: while number < slots.len() {
        if has_in(slots, number) {
            return Some(number as u16);
        }
        number += 1;
    }
    None
}
