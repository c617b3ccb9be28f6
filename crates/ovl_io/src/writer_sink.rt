ghost use Rattle.std.specs.Prelude.{◌≡◌, ◌<◌, ◌≤◌, length, IfOk, OnErr, OnOk};
ghost use Rattle.std.specs.Io.KnownBytes.{WriteAppends};
ghost use Rattle.ovl_io.specs.Outside.{Rose};
ghost use Rattle.ovl_io.specs.Forms.{untold, one_fault_more};
ghost use Rattle.ovl_io.specs.Adapters.{write_faults, writer_of};

use crate::sink::Sink;
use crate::source::Failed;
use std::io::Write;

/// A sink over a writer, as standard output. It tells no bytes.
#[derive(Drop)]
pub struct WriterSink<W> {
    writer: W,
    faults: u64,
}

impl<W> WriterSink<W> {
    pub fn new(writer: W) -> WriterSink<W>
        ensures { write_faults result ≡ 0 }
    {
        WriterSink { writer, faults: 0 }
    }
}

impl<W: Write> Sink for WriterSink<W> {
    ghost tells = { ⊥ };

    ghost taken = { λ _. untold };

    ghost faults = { λ s. write_faults s };

    fn write(&mut self, piece: &[u8]) -> Result<usize, Failed>
        ensures within { IfOk result (λ n. n ≤ length piece.now) }
        ensures moves { 0 < length piece.now → IfOk result (λ n. 0 < n) }
        ensures cause { OnErr result (Rose (write_faults self.old) (write_faults self.new)) }
        ensures no_fault { OnOk result (write_faults self.new ≡ write_faults self.old) }
        ensures counted { write_faults self.old ≤ write_faults self.new }

        // A failed answer is one fault more, and where the writer's bytes are known it gets those.
        ensures faults { OnErr result (write_faults self.new ≡ one_fault_more (write_faults self.old)) }
        ensures bytes { WriteAppends (W.contents (writer_of self.old))
            (W.contents (writer_of self.new)) result piece.now }
    {
        match self.writer.write(piece) {
            Ok(n) if n > 0 || piece.is_empty() => Ok(n),
            _ => {
                self.faults = self.faults.saturating_add(1);
                Err(Failed)
            }
        }
    }
}

#[cfg(test)]
mod tests;
