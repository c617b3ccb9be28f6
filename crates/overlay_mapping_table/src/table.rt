ghost use Rattle.std.specs.Prelude.{◌≡◌, ◌*◌, ◌<◌, ◌≤◌, length, get_or, None, IfOk};
ghost use Rattle.std.specs.Int.{IsNextPowerOfTwo};
ghost use Rattle.std.specs.FinMap as map;
ghost use Rattle.sizes.specs.declared.TheConstants.{FRAME_UNITS, MOST_FRAMES};
ghost use Rattle.overlay_mapping_table.specs.Table.{HasRoomFor, AreThoseOf, NoneIsEmptyBefore};

use crate::entry::Entry;
use crate::full::Full;
use crate::guesses::Guesses;
use crate::probes::place_of;
use crate::shifts::{put_in, take_out};
use crate::slots::Slots;
use overlay_address::OverlayPage;
use sizes::FRAME_UNITS;
use std::alloc::{AllocError, Global};
use std::marker::Model;

/// The overlays by name: of each its lines and its block. There is room for 16 for each frame.
#[derive(Debug, Drop)]
pub struct MappingTable {
    // a row stands at its name's home, or behind rows whose homes lie no further on
    slots: Slots,
    // where the next look-up begins
    guesses: Guesses,
    // where the rows stand that the last one was put among
    full: Full,
    count: u32,
    room: u32,
}

impl Model for MappingTable {
    ghost use Rattle.overlay_mapping_table.specs.Table.{NamedEntries};
    ghost use Rattle.overlay_mapping_table.specs.Codes.{mapping_table_code};

    ghost Value = { NamedEntries };

    ghost coded = { mapping_table_code };

    ghost use Rattle.overlay_mapping_table.specs.Rows.{map_of_slots};
    ghost use Rattle.overlay_mapping_table.specs.Kept.{AreTableSlots, names_of};

    ghost view = { λ t. record { entries = map_of_slots t.slots; room = t.room; slots = names_of t.slots } };

    ghost use Rattle.overlay_mapping_table.specs.Shifts.{HaveRows};

    ghost invariant = { λ t. AreTableSlots t.slots t.count t.room × HaveRows t.slots t.full };
}

impl MappingTable {
    /// A table without an entry, of a machine of 1 to 65,536 frames: room for 16 entries for each. Takes all the
    /// memory that the table ever needs, or answers the want of it. Writes none of it: what an `insert` first writes
    /// behind all slots that were written before has the slots up to there cleared.
    pub fn new(alloc: Global, frames: u32) -> Result<MappingTable, AllocError>
        requires some { 0 < frames }
        requires few { frames ≤ MOST_FRAMES }
        ensures entries { IfOk result (λ table. table.entries ≡ map.empty) }
        ensures room { IfOk result (λ table. table.room ≡ FRAME_UNITS * frames) }
    {
        let room = FRAME_UNITS * frames;
        let slots = Slots::new(alloc, (2 * room as usize).next_power_of_two())?;
        let guesses = Guesses::new(alloc, slots.len())?;
        Ok(MappingTable {
            slots,
            guesses,
            full: Full::none(),
            count: 0,
            room,
        })
    }

    /// The entry of an overlay. None exactly where it has none. Costs a few steps, and in a run of slots without an empty
    /// one the logarithm of its length and a step for each overlay with the same home.
    #[inline]
    pub fn get(&self, p: OverlayPage) -> Option<Entry>
        ensures { result ≡ map.get self.now.entries p }
    {
        match place_of(&self.slots, &self.guesses, p) {
            Ok(at) => self.slots.entry_at(at),
            Err(_) => None,
        }
    }

    /// Gives an overlay an entry, in place of the one that it has. It has one, or there are fewer entries than there
    /// is room for. Every other overlay keeps its entry. Takes no memory. Costs a look-up, and where it has none a step
    /// for each slot of the run in which it is put, at most: overlays that are put in one behind the other cost the slots
    /// between them.
    #[inline(always)]
    pub fn insert(&mut self, p: OverlayPage, e: Entry)
        requires room { HasRoomFor self.old p }
        ensures entries { self.new.entries ≡ map.insert self.old.entries p e }
        ensures room { self.new.room ≡ self.old.room }
    {
        match place_of(&self.slots, &self.guesses, p) {
            Ok(at) => self.slots.put(at, p, e),
            Err(place) => {
                let n = self.slots.len();
                let full = put_in(&mut self.slots, &self.guesses, self.full, place, p, e);
                self.full = full;
                self.guesses.keep(p, place, n, full.end);
                self.count += 1;
            }
        }
    }

    /// Takes away the entry of an overlay, and answers it. None exactly where it has none, and then nothing changes.
    /// Every other overlay keeps its entry. Takes no memory. Costs a look-up and a step for each slot of its run, at most:
    /// overlays that are taken out one behind the other cost the slots between them.
    pub fn remove(&mut self, p: OverlayPage) -> Option<Entry>
        ensures entries { self.new.entries ≡ map.remove self.old.entries p }
        ensures room { self.new.room ≡ self.old.room }
        ensures result { result ≡ map.get self.old.entries p }
    {
        match place_of(&self.slots, &self.guesses, p) {
            Ok(at) => {
                let entry = self.slots.entry_at(at);
                let n = self.slots.len();
                let end = take_out(&mut self.slots, &self.guesses, at);
                self.full = Full::none();
                self.guesses.keep(p, n + at, n, end);
                self.count -= 1;
                entry
            }
            Err(_) => None,
        }
    }

    /// How many entries there are: at most as many as there is room for. Costs a step.
    pub fn len(&self) -> u32
        ensures count { result ≡ map.len self.now.entries }
        ensures few { result ≤ self.now.room }
    {
        self.count
    }

    /// How many slots there are: the least power of two that is at least twice the room. From the home of an overlay
    /// upwards to its slot, with slot 0 after the last one, no slot is empty. Costs a step.
    pub fn slots(&self) -> u32
        ensures count { result ≡ length self.now.slots }
        ensures size { IsNextPowerOfTwo (2 * self.now.room) result }
        ensures names { AreThoseOf self.now.slots self.now.entries }
        ensures ways { NoneIsEmptyBefore self.now.slots }
    {
        self.slots.len() as u32
    }

    /// The overlay in a slot. None exactly where the slot is empty. Costs a step.
    pub fn slot(&self, at: u32) -> Option<OverlayPage>
        requires { at < length self.now.slots }
        ensures { result ≡ get_or self.now.slots at None }
    {
        self.slots.name_at(at as usize)
    }
}
