ghost use Rattle.std.specs.Prelude.{◌≡◌, ◌≢◌, ℕ, ◌≤◌, List, Option, length, IfOk, IsTrue, vec_len};
ghost use Rattle.std.specs.Option.{option_copied};
ghost use Rattle.ovl_io.specs.Outside.{Rose, HasName, IsFetched, fetch_refused_by};
ghost use Rattle.ovl_io.specs.Forms.{is_among, one_call_more, one_fault_more, file_named, never_refused};
ghost use Rattle.sizes.specs.declared.TheConstants.{MOST_FILE_BYTES};
ghost use Rattle.ovl_io.specs.declared.shelf.ShelfError.TheVariants.{Failed, Missing};

use crate::bytes::Bytes;
use crate::shelf::{Refusal, Shelf, ShelfError, copy_of};
use std::alloc::Global;
use std::marker::Model;

/// A shelf of files in memory, whose fetches fail as they are told to.
#[derive(Debug, Drop)]
pub struct MemoryShelf {
    files: Vec<(Bytes, Bytes)>,
    fails: Vec<u32>,
    calls: u32,
    faults: u64,
    refused: Option<Refusal>,
}

impl Model for MemoryShelf {
    ghost use Rattle.std.specs.Prelude.{map};
    ghost use Rattle.ovl_io.specs.Forms.{ShelfInMemory};

    ghost Value = { ShelfInMemory };

    ghost view = { λ s. record {
      files = s.files.items;
      fails = s.fails.items;
      calls = s.calls;
      faults = s.faults;
      refused = s.refused;
    } };
}

impl MemoryShelf {
    /// Has these files, each a name and what the file holds; the first of a name counts. The fetches
    /// whose numbers, from 0, are in `fails` fail.
    pub fn new(files: Vec<(Bytes, Bytes)>, fails: Vec<u32>) -> MemoryShelf
        ensures files { result.files ≡ files.items }
        ensures fails { result.fails ≡ fails.items }
        ensures fresh { (result.calls ≡ 0) × (result.faults ≡ 0) }
        ensures unrefused { result.refused ≡ never_refused }
    {
        MemoryShelf {
            files,
            fails,
            calls: 0,
            faults: 0,
            refused: None,
        }
    }
}

/// The file of a name.
fn find<'a>(files: &'a [(Bytes, Bytes)], name: &[u8]) -> Option<&'a Bytes>
    ensures { option_copied result ≡ file_named files.now name.now }
{
    for (known, file) in files {
        if known.as_slice() == name {
            return Some(file);
        }
    }
    None
}

impl Shelf for MemoryShelf {
    ghost tells = { Unit {0} };

    ghost files = { λ s name. file_named s.files name };

    ghost faults = { λ s. s.faults };

    ghost refused = { λ s. s.refused };

    ghost fetched = { λ old _ new. new.calls ≡ one_call_more old.calls };

    fn fetch(&mut self, alloc: Global, name: &[u8]) -> Result<Vec<u8>, ShelfError>
        requires { HasName name.now }
        ensures answer { Unit {0} →
            IsFetched (λ file. file.items) (file_named self.old.files name.now) result }
        ensures small { IfOk result (λ file. vec_len file ≤ MOST_FILE_BYTES) }
        ensures kept { Unit {0} → (other : List ℕ) →
            file_named self.new.files other ≡ file_named self.old.files other }
        ensures cause { result ≡ Err Failed → Rose self.old.faults self.new.faults }
        ensures no_fault { result ≢ Err Failed → self.new.faults ≡ self.old.faults }
        ensures counted { self.old.faults ≤ self.new.faults }
        ensures refused { self.new.refused ≡ fetch_refused_by name.now result }
        ensures fetched { self.new.calls ≡ one_call_more self.old.calls }

        // A fetch fails exactly where its number is among those that fail.
        ensures listed { IsTrue (is_among self.old.fails self.old.calls) → result ≡ Err Failed }
        ensures fails { result ≡ Err Failed → IsTrue (is_among self.old.fails self.old.calls) }
        ensures faults { result ≡ Err Failed → self.new.faults ≡ one_fault_more self.old.faults }
        ensures settings { (self.new.files ≡ self.old.files) × (self.new.fails ≡ self.old.fails) }
    {
        let call = self.calls;
        self.calls = call.saturating_add(1);
        if self.fails.contains(&call) {
            self.faults = self.faults.saturating_add(1);
            self.refused = Some(Refusal::new(name, ShelfError::Failed));
            return Err(ShelfError::Failed);
        }
        self.refused = None;
        match find(self.files.as_slice(), name) {
            Some(file) => copy_of(alloc, file.as_slice()),
            None => {
                self.refused = Some(Refusal::new(name, ShelfError::Missing));
                Err(ShelfError::Missing)
            }
        }
    }

    fn refused(&self) -> Option<&Refusal> {
        self.refused.as_ref()
    }
}
