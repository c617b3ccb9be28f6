ghost use Rattle.std.specs.Prelude.{◌≡◌, ℕ, ◌<◌, ◌≤◌, List, ◌++◌, take, length, IfOk, OnErr, OnOk};
ghost use Rattle.ovl_io.specs.Outside.{Rose};

use crate::source::Failed;

/// Where bytes go, as standard output.
pub trait Sink {
    /// Holds where the object tells its bytes.
    ghost tells: { Type 0 };

    /// The bytes that it took.
    ghost taken: { Self → List ℕ };

    /// How many writes have failed.
    ghost faults: { Self → ℕ };

    /// Takes the first bytes of the piece, and answers how many: at least one of a piece that isn't
    /// empty. `Failed` takes nothing.
    fn write(&mut self, piece: &[u8]) -> Result<usize, Failed>
        ensures within { IfOk result (λ n. n ≤ length piece.now) }
        ensures moves { 0 < length piece.now → IfOk result (λ n. 0 < n) }
        ensures taken { tells → IfOk result (λ n. taken self.new ≡ taken self.old ++ take n piece.now) }
        ensures kept { tells → OnErr result (taken self.new ≡ taken self.old) }
        ensures cause { OnErr result (Rose (faults self.old) (faults self.new)) }
        ensures no_fault { OnOk result (faults self.new ≡ faults self.old) }
        ensures counted { faults self.old ≤ faults self.new };
}
