ghost use Rattle.std.specs.Prelude.{◌≡◌, ℕ, ◌≤◌, length, IfOk, OnErr, OnOk};
ghost use Rattle.std.specs.Io.KnownBytes.{ReadConsumes};
ghost use Rattle.ovl_io.specs.Outside.{Rose};
ghost use Rattle.ovl_io.specs.Forms.{untold, one_fault_more};
ghost use Rattle.ovl_io.specs.Adapters.{read_faults, reader_of};

use crate::source::{Failed, Source};
use std::io::Read;

/// A source over a reader, as standard input. It tells no bytes.
#[derive(Drop)]
pub struct ReaderSource<R> {
    reader: R,
    faults: u64,
}

impl<R> ReaderSource<R> {
    pub fn new(reader: R) -> ReaderSource<R>
        ensures { read_faults result ≡ 0 }
    {
        ReaderSource { reader, faults: 0 }
    }
}

impl<R: Read> Source for ReaderSource<R> {
    ghost tells = { ⊥ };

    ghost left = { λ _. untold };

    ghost faults = { λ s. read_faults s };

    fn read(&mut self, into: &mut [u8]) -> Result<usize, Failed>
        ensures within { IfOk result (λ n. n ≤ length into.old) }
        ensures cause { OnErr result (Rose (read_faults self.old) (read_faults self.new)) }
        ensures no_fault { OnOk result (read_faults self.new ≡ read_faults self.old) }
        ensures counted { read_faults self.old ≤ read_faults self.new }

        // A failed answer is one fault more, and where the reader's bytes are known it gives those.
        ensures faults { OnErr result (read_faults self.new ≡ one_fault_more (read_faults self.old)) }
        ensures bytes { ReadConsumes (R.remaining (reader_of self.old))
            (R.remaining (reader_of self.new)) result into.new }
    {
        match self.reader.read(into) {
            Ok(n) => Ok(n),
            Err(_) => {
                self.faults = self.faults.saturating_add(1);
                Err(Failed)
            }
        }
    }
}

#[cfg(test)]
mod tests;
