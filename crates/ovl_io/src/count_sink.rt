ghost use Rattle.std.specs.Prelude.{◌≡◌, ℕ, ◌+◌, ◌-◌, ◌^◌, ◌<◌, ◌≤◌, ◌++◌, take, min, length, IfOk, IsOk, OnErr, OnOk};
ghost use Rattle.ovl_io.specs.Outside.{Rose};
ghost use Rattle.ovl_io.specs.Forms.{no_faults, untold};

use crate::sink::Sink;
use crate::source::Failed;
use std::marker::Model;

/// A sink that takes everything and keeps only how many bytes it took.
#[derive(Debug, Drop)]
pub struct CountSink {
    count: u64,
}

impl Model for CountSink {
    ghost use Rattle.std.specs.Prelude.{ℕ};

    ghost Value = { ℕ };

    ghost view = { λ s. s.count };

    ghost inverse = { λ n. record { count = n } };
}

impl CountSink {
    pub fn new() -> CountSink
        ensures { result ≡ 0 }
    {
        CountSink { count: 0 }
    }

    /// How many bytes it took; it stands still at 2^64 - 1.
    pub fn count(&self) -> u64
        ensures { result ≡ self.now }
    {
        self.count
    }
}

impl Sink for CountSink {
    ghost tells = { ⊥ };

    ghost taken = { λ _. untold };

    ghost faults = { λ _. no_faults };

    fn write(&mut self, piece: &[u8]) -> Result<usize, Failed>
        ensures within { IfOk result (λ n. n ≤ length piece.now) }
        ensures moves { 0 < length piece.now → IfOk result (λ n. 0 < n) }
        ensures taken { ⊥ → IfOk result (λ n. untold ≡ untold ++ take n piece.now) }
        ensures kept { ⊥ → OnErr result (untold ≡ untold) }
        ensures cause { OnErr result (Rose no_faults no_faults) }
        ensures no_fault { OnOk result (no_faults ≡ no_faults) }
        ensures counted { no_faults ≤ no_faults }

        // It always takes the whole piece.
        ensures sure { IsOk result }
        ensures amount { IfOk result (λ n. n ≡ length piece.now) }
        ensures count { self.new ≡ min (self.old + length piece.now) (2 ^ 64 - 1) }
    {
        self.count = self.count.saturating_add(piece.len() as u64);
        Ok(piece.len())
    }
}
