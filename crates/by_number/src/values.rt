//! Values by number.

ghost use Rattle.std.specs.Prelude.{◌≡◌, true, Some, OnOk, OnErr};
ghost use Rattle.std.specs.FinMap as map;
ghost use Rattle.std.specs.Option.{is_some, option_copied, option_copied_mut};
ghost use Rattle.std.specs.Borrow.{sem};
ghost use Rattle.by_number.specs.Values.{IsNextNumber};

use crate::slots::{Slot, has_in, insert_in, next_in, remove_in, value_in};
use std::alloc::{AllocError, Global};
use std::marker::Model;

/// A value for each number from 0 to 65,535 that has one, found in one step.
#[derive(Drop)]
pub struct ByNumber<T> {
    slots: Vec<Slot<T>>,
}

impl<T> Model for ByNumber<T> {
    ghost use Rattle.std.specs.Prelude.{◌^◌, ◌≤◌, length};
    ghost use Rattle.std.specs.Coded.{coded_ℕ};
    ghost use Rattle.std.specs.Ordering.{nat_cmp};
    ghost use Rattle.std.specs.FinMap.{FinMap, code};

    ghost Value = { FinMap nat_cmp T };

    ghost coded = { code coded_ℕ T.code };

    ghost use Rattle.by_number.specs.Slots.{values};

    ghost view = { λ v. values v.slots.items };

    ghost invariant = { λ v. length v.slots.items ≤ 2 ^ 16 };
}

impl<T> ByNumber<T> {
    ghost use Rattle.by_number.specs.Lends.{lends_number, lends_value};

    /// No number has a value. Takes no memory.
    pub fn new(alloc: Global) -> ByNumber<T>
        ensures { result ≡ map.empty }
    {
        ByNumber {
            slots: Vec::new(alloc),
        }
    }

    /// Whether a number has a value.
    #[inline]
    pub fn has(&self, number: u16) -> bool
        ensures { result ≡ is_some (map.get self.now number) }
    {
        has_in(&self.slots, number as usize)
    }

    /// The value of a number; none exactly where it has none.
    #[inline]
    pub fn get(&self, number: u16) -> Option<&T>
        ensures { option_copied result ≡ map.get self.now number }
    {
        value_in(&self.slots, number)
    }

    /// The value of a number, lent to be written; none exactly where it has none.
    #[inline]
    pub fn get_mut(&mut self, number: u16) -> Option<&mut T>
        ensures* writes_back { sem 𝓛 (lends_number T.row self.entry number result) }
        ensures value { option_copied_mut result ≡ map.get self.old number }
    {
        if self.has(number) {
            Some(self.value_mut(number))
        } else {
            None
        }
    }

    /// The value of a number that has one, lent to be written.
    #[inline]
    fn value_mut(&mut self, number: u16) -> &mut T
        requires { is_some (map.get self.old number) ≡ true }
        ensures* writes_back { sem 𝓛 (lends_value T.row self.entry number result) }
        ensures value { map.get self.old number ≡ Some result.now }
    {
        self.slots[number as usize].value_mut()
    }

    /// Gives a number a value, in the place of the one that it has. Takes memory for the value, and for a slot of each number up to
    /// this one that never had one. After want of memory each number has what it had.
    pub fn insert(&mut self, number: u16, value: T) -> Result<(), AllocError>
    where
        T: Drop,
        ensures inserted { OnOk result (self.new ≡ map.insert self.old number value) }
        ensures kept { OnErr result (self.new ≡ self.old) }
    {
        insert_in(&mut self.slots, number, value)
    }

    /// Takes away the value of a number, where it has one. Takes no memory, and gives back that of the value alone.
    pub fn remove(&mut self, number: u16)
    where
        T: Drop,
        ensures { self.new ≡ map.remove self.old number }
    {
        remove_in(&mut self.slots, number);
    }

    /// The least number that has a value, of those that aren't below `number`; none exactly where there is none. Looks at the
    /// numbers from there on, one after the other.
    pub fn next_from(&self, number: u16) -> Option<u16>
        ensures { IsNextNumber self.now number result }
    {
        next_in(&self.slots, number)
    }
}
