ghost use Rattle.std.specs.Prelude.{◌≡◌, ◌<◌, length, get_or, slice_set, None, Some, IfOk};
ghost use Rattle.std.specs.Option.{option_map};
ghost use Rattle.overlay_mapping_table.specs.Rows.{name_in, no_rows};
ghost use Rattle.overlay_mapping_table.specs.Shifts.{AreOneUp};

use crate::entry::Entry;
use crate::gaps::{Gap, read, spot};
use crate::moves::{move_down, move_up, nothing, room_from, settle};
use filled_list::Filled;
use overlay_address::OverlayPage;
use std::alloc::{AllocError, Global};
use std::marker::Model;

// Slots for rows of a name and an entry. The names stand apart, so that a probe reads 8 bytes a slot.
#[derive(Debug, Drop)]
pub(crate) struct Slots {
    // 0 in an empty slot, which is no name
    names: Filled<u64>,
    // beside each name its entry, and beside 0 any
    entries: Filled<Entry>,
    // of both lists
    gap: Gap,
}

impl Model for Slots {
    ghost use Rattle.std.specs.Prelude.{ℕ, List, Option};
    ghost use Rattle.overlay_mapping_table.specs.declared.entry.Entry.{Entry};
    ghost use Rattle.overlay_mapping_table.specs.Rows.{nothing, slots_of};
    ghost use Rattle.overlay_mapping_table.specs.Gaps.{seen_slots, AreLaid};

    ghost Value = { List (Option (ℕ × Entry)) };

    ghost view = { λ s. slots_of (seen_slots s.names 0 s.gap) (seen_slots s.entries nothing s.gap) };

    ghost invariant = { λ s. AreLaid s.names s.entries s.gap };
}

impl Slots {
    // So many slots, each of them empty.
    pub fn new(alloc: Global, n: usize) -> Result<Slots, AllocError>
        ensures { IfOk result (λ slots. slots ≡ no_rows n) }
    {
        let names = Filled::new(alloc, 0, n)?;
        let entries = Filled::new(alloc, nothing(), n)?;
        let gap = Gap::none();
        Ok(Slots {
            names,
            entries,
            gap,
        })
    }

    // How many slots there are.
    pub fn len(&self) -> usize
        ensures { result ≡ length self.now }
    {
        self.names.len()
    }

    // The name in a slot, as a number: 0 where it is empty.
    #[inline(always)]
    pub fn number_at(&self, at: usize) -> u64
        requires { at < length self.now }
        ensures { result ≡ name_in (get_or self.now at None) }
    {
        read(&self.names, 0, self.gap, at)
    }

    // The name in a slot. None exactly where it is empty.
    #[inline(always)]
    pub fn name_at(&self, at: usize) -> Option<OverlayPage>
        requires { at < length self.now }
        ensures { result ≡ option_map (λ row. row.0) (get_or self.now at None) }
    {
        match OverlayPage::from_address(read(&self.names, 0, self.gap, at)) {
            Some((name, _)) => Some(name),
            None => None,
        }
    }

    // The entry in a slot. None exactly where it is empty.
    #[inline(always)]
    pub fn entry_at(&self, at: usize) -> Option<Entry>
        requires { at < length self.now }
        ensures { result ≡ option_map (λ row. row.1) (get_or self.now at None) }
    {
        if read(&self.names, 0, self.gap, at) == 0 {
            None
        } else {
            Some(read(&self.entries, nothing(), self.gap, at))
        }
    }

    // Writes a row into a slot.
    #[inline(always)]
    pub fn put(&mut self, at: usize, p: OverlayPage, e: Entry)
        requires { at < length self.old }
        ensures { self.new ≡ slice_set self.old at (Some (p, e)) }
    {
        self.gap = settle(&mut self.names, &mut self.entries, self.gap, at);
        let place = spot(self.gap, self.names.len(), at);
        self.names.set(place, p.address(0));
        self.entries.set(place, e);
    }

    // Empties a slot.
    pub fn clear(&mut self, at: usize)
        requires { at < length self.old }
        ensures { self.new ≡ slice_set self.old at None }
    {
        self.gap = settle(&mut self.names, &mut self.entries, self.gap, at);
        let place = spot(self.gap, self.names.len(), at);
        self.names.set(place, 0);
    }

    // Moves what one slot has into another one.
    pub fn carry(&mut self, from: usize, to: usize)
        requires from { from < length self.old }
        requires to { to < length self.old }
        ensures { self.new ≡ slice_set (slice_set self.old to (get_or self.old from None)) from None }
    {
        match self.name_at(from) {
            Some(name) => {
                let entry = self.entry_at(from).unwrap_or(nothing());
                self.put(to, name, entry);
                self.clear(from);
            }
            None => {
                self.clear(to);
                self.clear(from);
            }
        }
    }

    // Moves the rows of the slots up to another one up by one.
    pub fn move_up(&mut self, from: usize, end: usize)
        requires order { from < end }
        requires end { end < length self.old }
        ensures rows { AreOneUp self.old self.new from end }
        ensures bare { get_or self.new from None ≡ None }
    {
        let room = room_from(&self.names, self.gap, from, end);
        self.gap = move_up(
            &mut self.names,
            &mut self.entries,
            self.gap,
            from,
            end,
            room,
        );
    }

    // Moves the rows of the slots behind one, up to another one, down by one.
    pub fn move_down(&mut self, to: usize, last: usize)
        requires order { to < last }
        requires last { last < length self.old }
        ensures rows { AreOneUp self.new self.old to last }
        ensures bare { get_or self.new last None ≡ None }
    {
        self.gap = move_down(&mut self.names, &mut self.entries, self.gap, to, last);
    }
}
