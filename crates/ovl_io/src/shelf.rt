ghost use Rattle.std.specs.Prelude.{◌≡◌, ◌≢◌, ℕ, ◌≤◌, List, Option, length, IfOk, OnErr, vec_len};
ghost use Rattle.std.specs.Option.{option_copied};
ghost use Rattle.ovl_io.specs.Outside.{Rose, HasName, IsFetched, FetchRefused, fetch_refused_by};
ghost use Rattle.ovl_io.specs.declared.shelf.ShelfError.TheVariants.{Failed, Missing};
ghost use Rattle.sizes.specs.declared.TheConstants.{MOST_FILE_BYTES, MOST_FILE_NAME};

use arrayvec::ArrayVec;
use sizes::{MOST_FILE_BYTES, MOST_FILE_NAME};
use std::alloc::Global;
use std::marker::Model;

/// Why a file wasn't given.
#[derive(Clone, Copy, Debug, PartialEq, Eq)]
pub enum ShelfError {
    /// The fetch failed.
    Failed,
    /// No file has the name.
    Missing,
    /// The file has more than 16 MiB.
    TooLong,
    /// There is no memory for it.
    Memory,
}

/// What a shelf's last fetch was refused: the name, and the answer, which is `Failed` or `Missing`.
#[derive(Debug, Drop)]
pub struct Refusal {
    name: ArrayVec<u8, MOST_FILE_NAME>,
    answer: ShelfError,
}

impl Model for Refusal {
    ghost use Rattle.ovl_io.specs.Outside.{FetchRefused};

    ghost Value = { FetchRefused };

    ghost view = { λ r. record { name = r.name.items; answer = r.answer } };
}

impl Refusal {
    pub(crate) fn new(name: &[u8], answer: ShelfError) -> Refusal
        requires { length name.now ≤ MOST_FILE_NAME }
        ensures { result ≡ record { name = name.now; answer = answer } }
    {
        let mut kept = ArrayVec::new();
        let _ = kept.try_extend_from_slice(name);
        Refusal { name: kept, answer }
    }

    /// The name that was asked for, of 1 to 255 bytes.
    pub fn name(&self) -> &[u8]
        ensures { result.now ≡ self.now.name }
    {
        self.name.as_slice()
    }

    /// `Failed` or `Missing`.
    pub fn answer(&self) -> ShelfError
        ensures { result ≡ self.now.answer }
    {
        self.answer
    }
}

/// Where files come from, by name.
pub trait Shelf {
    /// Holds where the object tells its files.
    ghost tells: { Type 0 };

    /// The file of a name, where there is one.
    ghost files: { Self → List ℕ → Option (List ℕ) };

    /// How many fetches have failed.
    ghost faults: { Self → ℕ };

    /// The name and the answer of the last fetch, where that answered `Failed` or `Missing`.
    ghost refused: { Self → Option FetchRefused };

    /// What a fetch of a name makes of the shelf: from it to what it is afterwards. It holds of the calls
    /// that were made and, as far as a caller over any shelf can show, of nothing else.
    ghost fetched: { Self → List ℕ → Self → Type 0 };

    /// The whole file of a name of 1 to 255 bytes. The files stay as they are.
    fn fetch(&mut self, alloc: Global, name: &[u8]) -> Result<Vec<u8>, ShelfError>
        requires { HasName name.now }
        ensures answer { tells → IsFetched (λ file. file.items) (files self.old name.now) result }
        ensures small { IfOk result (λ file. vec_len file ≤ MOST_FILE_BYTES) }
        ensures kept { tells → (other : List ℕ) → files self.new other ≡ files self.old other }
        ensures cause { result ≡ Err Failed → Rose (faults self.old) (faults self.new) }
        ensures no_fault { result ≢ Err Failed → faults self.new ≡ faults self.old }
        ensures counted { faults self.old ≤ faults self.new }
        ensures refused { refused self.new ≡ fetch_refused_by name.now result }
        ensures fetched { fetched self.old name.now self.new };

    /// What the last fetch was refused, if it failed or found no file.
    fn refused(&self) -> Option<&Refusal>
        ensures { option_copied result ≡ refused self.now };
}

/// A copy of a file that a shelf in memory has.
pub(crate) fn copy_of(alloc: Global, file: &[u8]) -> Result<Vec<u8>, ShelfError>
    ensures answer { IsFetched (λ copy. copy.items) (Some file.now) result }
    ensures small { IfOk result (λ file. vec_len file ≤ MOST_FILE_BYTES) }
    ensures not_failed { result ≢ Err Failed }
    ensures not_missing { result ≢ Err Missing }
{
    if file.len() > MOST_FILE_BYTES {
        return Err(ShelfError::TooLong);
    }
    match Vec::from_slice(alloc, file) {
        Ok(copy) => Ok(copy),
        Err(_) => Err(ShelfError::Memory),
    }
}
