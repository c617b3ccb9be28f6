ghost use Rattle.std.specs.Prelude.{◌≡◌, ℕ, ◌≤◌, ◌≢◌, List, Some, IfOk, vec_len};
ghost use Rattle.ovl_io.specs.Outside.{Rose, HasName, IsFetched, fetch_refused_by};
ghost use Rattle.ovl_io.specs.Forms.{no_faults, never_refused};
ghost use Rattle.sizes.specs.declared.TheConstants.{MOST_FILE_BYTES};
ghost use Rattle.ovl_io.specs.declared.shelf.ShelfError.TheVariants.{Failed, Missing};

use crate::shelf::{Refusal, Shelf, ShelfError, copy_of};
use std::alloc::Global;
use std::marker::Model;

/// A shelf that gives one file under every name, and never fails.
#[derive(Debug, Drop)]
pub struct OneFileShelf {
    file: Vec<u8>,
}

impl Model for OneFileShelf {
    ghost use Rattle.std.specs.Prelude.{List, ℕ};

    ghost Value = { List ℕ };

    ghost view = { λ s. s.file.items };
}

impl OneFileShelf {
    pub fn new(file: Vec<u8>) -> OneFileShelf
        ensures { result ≡ file.items }
    {
        OneFileShelf { file }
    }
}

impl Shelf for OneFileShelf {
    ghost tells = { Unit {0} };

    ghost files = { λ s _. Some s };

    ghost faults = { λ _. no_faults };

    ghost refused = { λ _. never_refused };

    ghost fetched = { λ old _ new. new ≡ old };

    fn fetch(&mut self, alloc: Global, name: &[u8]) -> Result<Vec<u8>, ShelfError>
        requires { HasName name.now }
        ensures answer { Unit {0} → IsFetched (λ file. file.items) (Some self.old) result }
        ensures small { IfOk result (λ file. vec_len file ≤ MOST_FILE_BYTES) }
        ensures kept { Unit {0} → (other : List ℕ) → Some self.new ≡ Some self.old }
        ensures cause { result ≡ Err Failed → Rose no_faults no_faults }
        ensures no_fault { result ≢ Err Failed → no_faults ≡ no_faults }
        ensures counted { no_faults ≤ no_faults }
        ensures refused { never_refused ≡ fetch_refused_by name.now result }
        ensures fetched { self.new ≡ self.old }

        // It never fails.
        ensures sure { (result ≢ Err Failed) × (result ≢ Err Missing) }
    {
        let _ = name;
        copy_of(alloc, self.file.as_slice())
    }

    fn refused(&self) -> Option<&Refusal> {
        None
    }
}
