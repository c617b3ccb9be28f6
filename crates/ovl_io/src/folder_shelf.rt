ghost use Rattle.std.specs.Prelude.{◌≡◌, ◌≢◌, ◌≤◌, Err, IfOk, IfSome, None, vec_len};
ghost use Rattle.std.specs.Option.{option_copied};
ghost use Rattle.std.specs.Str.{IsUtf8};
ghost use Rattle.ovl_io.specs.Outside.{Rose, HasName, fetch_refused_by};
ghost use Rattle.ovl_io.specs.Forms.{one_fault_more};
ghost use Rattle.ovl_io.specs.declared.shelf.ShelfError.TheVariants.{Failed, Missing};
ghost use Rattle.ovl_io.specs.Adapters.{IsReadWhole, fetch_faults, fetch_refused, opening_answer, reading_answer};
ghost use Rattle.sizes.specs.declared.TheConstants.{MOST_FILE_BYTES};

use crate::shelf::{Refusal, Shelf, ShelfError};
use sizes::MOST_FILE_BYTES;
use std::alloc::Global;
use std::fs::File;
use std::io::{ErrorKind, Read};
use std::rt::Files;
use std::str;

/// A shelf of the files of the system, by names relative to the working folder. It tells no files.
#[derive(Drop)]
pub struct FolderShelf<R> {
    rt: R,
    faults: u64,
    refused: Option<Refusal>,
}

impl<R> FolderShelf<R> {
    /// The files that this runtime reaches.
    pub fn new(rt: R) -> FolderShelf<R>
        ensures faults { fetch_faults result ≡ 0 }
        ensures unrefused { fetch_refused result ≡ None }
    {
        FolderShelf {
            rt,
            faults: 0,
            refused: None,
        }
    }
}

/// What a failure to open a file says of it.
fn opening(kind: ErrorKind) -> ShelfError
    ensures { result ≡ opening_answer kind }
{
    match kind {
        ErrorKind::NotFound => ShelfError::Missing,
        ErrorKind::OutOfMemory => ShelfError::Memory,
        _ => ShelfError::Failed,
    }
}

/// What a failure to read an open file says of it.
fn reading(kind: ErrorKind) -> ShelfError
    ensures { result ≡ reading_answer kind }
{
    match kind {
        ErrorKind::OutOfMemory => ShelfError::Memory,
        _ => ShelfError::Failed,
    }
}

/// All that a reader has left, of at most 16 MiB. Reads one byte more, to see that there is none.
fn read_whole<R: Read + Drop>(alloc: Global, reader: R) -> Result<Vec<u8>, ShelfError>
    ensures small { IfOk result (λ file. vec_len file ≤ MOST_FILE_BYTES) }
    ensures whole { IfSome (R.remaining reader) (λ bytes. IsReadWhole (λ file. file.items) bytes result) }
    ensures there { result ≢ Err Missing }
{
    let mut bytes = Vec::new(alloc);
    match reader
        .take(MOST_FILE_BYTES as u64 + 1)
        .read_to_end(&mut bytes)
    {
        Ok(_) if bytes.len() <= MOST_FILE_BYTES => Ok(bytes),
        Ok(_) => Err(ShelfError::TooLong),
        Err(error) => Err(reading(error.kind())),
    }
}

/// The whole file of a name that is text.
fn read_file<R: Files>(rt: &R, alloc: Global, name: &str) -> Result<Vec<u8>, ShelfError>
    ensures { IfOk result (λ file. vec_len file ≤ MOST_FILE_BYTES) }
{
    match File::open(rt, name) {
        Ok(file) => read_whole(alloc, file),
        Err(error) => Err(opening(error.kind())),
    }
}

impl<R: Files> FolderShelf<R> {
    fn read_named(&self, alloc: Global, name: &[u8]) -> Result<Vec<u8>, ShelfError>
        ensures small { IfOk result (λ file. vec_len file ≤ MOST_FILE_BYTES) }
        ensures text { ¬ (IsUtf8 name.now) → result ≡ Err Failed }
    {
        match str::from_utf8(name) {
            Ok(name) => read_file(&self.rt, alloc, name),
            Err(_) => Err(ShelfError::Failed),
        }
    }
}

impl<R: Files> Shelf for FolderShelf<R> {
    ghost tells = { ⊥ };

    ghost files = { λ _ _. None };

    ghost faults = { λ s. fetch_faults s };

    ghost refused = { λ s. fetch_refused s };

    ghost fetched = { λ old _ new. fetch_faults old ≤ fetch_faults new };

    fn fetch(&mut self, alloc: Global, name: &[u8]) -> Result<Vec<u8>, ShelfError>
        requires { HasName name.now }
        ensures small { IfOk result (λ file. vec_len file ≤ MOST_FILE_BYTES) }
        ensures cause { result ≡ Err Failed → Rose (fetch_faults self.old) (fetch_faults self.new) }
        ensures no_fault { result ≢ Err Failed → fetch_faults self.new ≡ fetch_faults self.old }
        ensures counted { fetch_faults self.old ≤ fetch_faults self.new }
        ensures refused { fetch_refused self.new ≡ fetch_refused_by name.now result }
        ensures fetched { fetch_faults self.old ≤ fetch_faults self.new }

        // A failed answer is one fault more, and a name that isn't text fails.
        ensures faults { result ≡ Err Failed →
            fetch_faults self.new ≡ one_fault_more (fetch_faults self.old) }
        ensures text { ¬ (IsUtf8 name.now) → result ≡ Err Failed }
    {
        let outcome = self.read_named(alloc, name);
        self.refused = None;
        if let Err(error) = &outcome {
            match error {
                ShelfError::Failed => {
                    self.faults = self.faults.saturating_add(1);
                    self.refused = Some(Refusal::new(name, ShelfError::Failed));
                }
                ShelfError::Missing => {
                    self.refused = Some(Refusal::new(name, ShelfError::Missing));
                }
                ShelfError::TooLong | ShelfError::Memory => {}
            }
        }
        outcome
    }

    fn refused(&self) -> Option<&Refusal> {
        self.refused.as_ref()
    }
}

#[cfg(test)]
mod tests;
