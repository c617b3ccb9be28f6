//! Values by name, in the order in which they were entered.

ghost use Rattle.std.specs.Prelude.{◌≡◌, [], ◌∷◌, ◌++◌, nat_eq, slice_get, None, OnOk, OnErr};
ghost use Rattle.std.specs.Map.{lookup, remove_entry};
ghost use Rattle.std.specs.Map.Iter.{deref_pair};
ghost use Rattle.std.specs.Option.{option_copied, option_map};
ghost use lib.Pointwise.{pointwise};
ghost use Rattle.named_list.specs.Places.{IsPlaceNamed};

use crate::rows::{Entry, Row, new_entry, place_of};
use indexmap::IndexMap;
use std::alloc::{AllocError, Global};
use std::collections::VecDeque;
use std::marker::Model;

/// Values, each under a name of bytes that no other one has, in the order in which they were entered.
#[derive(Drop)]
pub struct NamedList<V> {
    // the number of the entry of each name
    numbers: IndexMap<Vec<u8>, u64>,
    // the entries, each behind its number
    rows: VecDeque<Row<V>>,
    // the number of the next entry
    next: u64,
}

impl<V> Model for NamedList<V> {
    ghost use Rattle.std.specs.Prelude.{ℕ, List};
    ghost use Rattle.named_list.specs.Listed.{IsListed, entries_of, name_in, value_in};

    ghost Value = { List (List ℕ × V) };

    ghost view = { λ l. entries_of name_in value_in l.rows.items };

    ghost invariant = { λ l.
        IsListed name_in (λ key. key.items) l.numbers.entries l.rows.items l.next };
}

impl<V> NamedList<V> {
    /// No values. Takes no memory.
    pub fn new(alloc: Global) -> NamedList<V>
        ensures { result ≡ [] }
    {
        NamedList {
            numbers: IndexMap::new(alloc),
            rows: VecDeque::new(alloc),
            next: 0,
        }
    }

    /// The value of a name; none exactly where no entry has it. Looks the name up by its hash, and its entry by halves.
    pub fn get(&self, name: &[u8]) -> Option<&V>
        ensures { option_copied result ≡ lookup (pointwise nat_eq name.now) self.now }
    {
        match self.place(name) {
            Some(place) => match self.rows.get(place) {
                Some((_, entry)) => Some(&entry.value),
                None => unreachable!(),
            },
            None => None,
        }
    }

    /// The entry of a place, of which the first is 0: its name and its value; none exactly past the last. Takes one step.
    pub fn at(&self, index: usize) -> Option<(&[u8], &V)>
        ensures { option_map deref_pair result ≡ slice_get self.now index }
    {
        match self.rows.get(index) {
            Some((_, entry)) => Some((entry.name.as_slice(), &entry.value)),
            None => None,
        }
    }

    /// Enters a value, the last of all, under a name that none has. Takes memory for the value, twice for the name, and for the
    /// numbers of names. After want of memory everything is as before, and the value is dropped.
    pub fn enter(&mut self, alloc: Global, name: &[u8], value: V) -> Result<(), AllocError>
    where
        V: Drop,
        requires absent { lookup (pointwise nat_eq name.now) self.old ≡ None }
        ensures entered { OnOk result (self.new ≡ self.old ++ (name.now, value) ∷ []) }
        ensures kept { OnErr result (self.new ≡ self.old) }
    {
        let number = self.next;
        if number == u64::MAX {
            // no number is given twice, and so many aren't given in the life of a machine
            return Err(AllocError);
        }
        let entry = new_entry(alloc, name, value)?;
        let key = Vec::from_slice(alloc, name)?;
        self.rows.reserve(1)?;
        match self.numbers.insert(key, number) {
            Ok(_) => {}
            Err(_) => return Err(AllocError),
        }
        self.rows.push_back_reserved((number, entry));
        self.next = number + 1;
        Ok(())
    }

    /// Takes away the entry of a name, and answers its value; none exactly where no entry has the name. The others keep their order.
    /// Takes no memory. Beside the look-up it moves the places of the entries before it or of those behind it, whichever are fewer.
    pub fn remove(&mut self, name: &[u8]) -> Option<V>
        ensures removed { result ≡ lookup (pointwise nat_eq name.now) self.old }
        ensures others { self.new ≡ remove_entry (pointwise nat_eq name.now) self.old }
    {
        match self.place(name) {
            Some(place) => {
                let _ = self.numbers.swap_remove(name);
                match self.rows.remove(place) {
                    Some((_, entry)) => Some(Box::into_inner(entry).value),
                    None => unreachable!(),
                }
            }
            None => None,
        }
    }

    // The place of the entry of a name; none exactly where no entry has it.
    fn place(&self, name: &[u8]) -> Option<usize>
        ensures { IsPlaceNamed name.now self.now result }
    {
        match self.numbers.get(name) {
            Some(number) => match place_of(&self.rows, *number) {
                Ok(place) => Some(place),
                Err(_) => unreachable!(),
            },
            None => None,
        }
    }
}
