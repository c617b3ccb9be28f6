ghost use Rattle.std.specs.Prelude.{◌≡◌, ◌↔◌, ℕ, ◌<◌, ◌≤◌, List, [], ◌++◌, take, length, IfOk, OnErr, OnOk};
ghost use Rattle.ovl_io.specs.Outside.{Rose};

/// A read or a write failed.
#[derive(Clone, Copy, Debug, PartialEq, Eq)]
pub struct Failed;

/// Where bytes come from, as standard input.
pub trait Source {
    /// Holds where the object tells its bytes.
    ghost tells: { Type 0 };

    /// The bytes that are left.
    ghost left: { Self → List ℕ };

    /// How many reads have failed.
    ghost faults: { Self → ℕ };

    /// Takes the next bytes into the front of `into`, and answers how many. It answers 0, for an `into`
    /// that isn't empty, exactly at the end of input. `Failed` takes nothing.
    fn read(&mut self, into: &mut [u8]) -> Result<usize, Failed>
        ensures within { IfOk result (λ n. n ≤ length into.old) }
        ensures taken { tells → IfOk result (λ n. left self.old ≡ take n into.new ++ left self.new) }
        ensures ended { tells → 0 < length into.old → IfOk result (λ n. (n ≡ 0) ↔ (left self.old ≡ [])) }
        ensures kept { tells → OnErr result (left self.new ≡ left self.old) }
        ensures cause { OnErr result (Rose (faults self.old) (faults self.new)) }
        ensures no_fault { OnOk result (faults self.new ≡ faults self.old) }
        ensures counted { faults self.old ≤ faults self.new };
}
