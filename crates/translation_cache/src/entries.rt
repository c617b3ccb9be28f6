//! One list.

ghost use Rattle.std.specs.Prelude.{◌≡◌, ◌<◌, ◌≤◌, ◌+◌, ◌++◌, [], length, ◌∷◌, take, drop};
ghost use Rattle.sizes.specs.declared.TheConstants.{PAGE_LINES};
ghost use Rattle.translation_cache.specs.Cuts.{FindsPlace};
ghost use Rattle.translation_cache.specs.Translations.{cached_with, changed, entry_of, found_in, raised, without_space};

use crate::SET_ENTRIES;
use crate::cached::Cached;
use arrayvec::ArrayVec;
use bitflags::Flags;
use overlay_bits::Bits;
use ovl_io::Perms;
use std::marker::Model;

/// The entry of a page of a space.
#[derive(Clone, Copy, Debug)]
struct Entry {
    space: u16,
    page: u64,
    held: Cached,
}

impl Model for Entry {
    ghost use Rattle.translation_cache.specs.Translations.{Entry};
    ghost use Rattle.translation_cache.specs.declared.cached.Cached.{Cached};

    ghost Value = { Entry Cached };

    ghost view = { λ e. record { space = e.space; page = e.page; held = e.held } };

    ghost inverse = { λ e. record { space = e.space; page = e.page; held = e.held } };
}

impl Default for Entry {
    fn default() -> Entry {
        Entry {
            space: 0,
            page: 0,
            held: Cached {
                perms: Perms::empty(),
                frame: 0,
                bits: Bits::empty(),
            },
        }
    }
}

/// The entries of one set, the one that was used last first: at most four.
#[derive(Debug, Drop)]
pub(crate) struct Entries {
    list: ArrayVec<Entry, SET_ENTRIES>,
}

impl Model for Entries {
    ghost use Rattle.std.specs.Prelude.{List};
    ghost use Rattle.translation_cache.specs.Translations.{Entry};
    ghost use Rattle.translation_cache.specs.declared.cached.Cached.{Cached};

    ghost Value = { List (Entry Cached) };

    ghost view = { λ e. e.list.items };
}

impl Entries {
    /// No entry.
    pub(crate) fn new() -> Entries
        ensures { result ≡ [] }
    {
        Entries {
            list: ArrayVec::new(),
        }
    }

    /// The place of the entry of a page. None exactly where it isn't there.
    #[inline]
    fn place(&self, space: u16, page: u64) -> Option<usize>
        ensures place { FindsPlace space page self.now result }
        ensures few { length self.now ≤ SET_ENTRIES }
    {
        'looking: for (at, entry) in self.list.as_slice().iter().enumerate() {
            if entry.space == space && entry.page == page {
                return Some(at);
            }
        }
        None
    }

    /// Looks a page up: where its entry is there, that goes to the front, and what it holds is answered.
    #[inline]
    pub(crate) fn look(&mut self, space: u16, page: u64) -> Option<Cached>
        ensures found { result ≡ found_in space page self.old }
        ensures raised { self.new ≡ raised space page self.old }
    {
        match self.place(space, page) {
            Some(at) => {
                if at == 0 {
                    let first = self.list.as_slice()[0];
                    return Some(first.held);
                }
                let list = self.list.as_mut_slice();
                let entry = list[at];
                shift_in(list, at, entry);
                Some(entry.held)
            }
            None => None,
        }
    }

    /// Puts an entry at the front, and drops a fifth one.
    pub(crate) fn put_first(&mut self, space: u16, page: u64, held: Cached)
        ensures { self.new ≡ take SET_ENTRIES (entry_of space page held ∷ self.old) }
    {
        let entry = Entry { space, page, held };
        let count = self.list.len();
        if count < SET_ENTRIES {
            self.list.push(entry);
            shift_in(self.list.as_mut_slice(), count, entry);
        } else {
            shift_in(self.list.as_mut_slice(), SET_ENTRIES - 1, entry);
        }
    }

    /// Adds an own line, below 64, to what the entry of a page holds, where it is there.
    pub(crate) fn set_bit(&mut self, space: u16, page: u64, line: u8)
        requires { line < PAGE_LINES }
        ensures { self.new ≡ changed (cached_with line) space page self.old }
    {
        match self.place(space, page) {
            Some(at) => {
                let entry = &mut self.list.as_mut_slice()[at];
                entry.held.bits = entry.held.bits.with(line);
            }
            None => {}
        }
    }

    /// Puts something in the place of what the entry of a page holds, where it is there.
    pub(crate) fn replace(&mut self, space: u16, page: u64, held: Cached)
        ensures { self.new ≡ changed (λ _. held) space page self.old }
    {
        match self.place(space, page) {
            Some(at) => {
                let entry = &mut self.list.as_mut_slice()[at];
                entry.held = held;
            }
            None => {}
        }
    }

    /// Removes the entries of a space.
    pub(crate) fn flush(&mut self, space: u16)
        ensures { self.new ≡ without_space space self.old }
    {
        self.list.retain(|entry| entry.space != space);
    }
}

/// Puts an entry at the front of a list: those before a place move one place back, over what stands there.
#[inline]
fn shift_in(list: &mut [Entry], at: usize, entry: Entry)
    requires { at < length list.old }
    ensures { list.new ≡ entry ∷ (take at list.old ++ drop (at + 1) list.old) }
{
    let mut k = at;
    'shifting: while k > 0 {
        list[k] = list[k - 1];
        k -= 1;
    }
    list[0] = entry;
}
