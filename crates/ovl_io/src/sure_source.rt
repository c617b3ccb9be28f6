ghost use Rattle.std.specs.Prelude.{◌≡◌, ◌↔◌, ℕ, ◌<◌, ◌≤◌, List, [], ◌++◌, take, drop, min, length, IfOk, IsOk, OnErr, OnOk};
ghost use Rattle.ovl_io.specs.Outside.{Rose};
ghost use Rattle.ovl_io.specs.Forms.{no_faults};

use crate::memory_source::give;
use crate::source::{Failed, Source};
use std::marker::Model;

/// A source over bytes in memory that never fails.
#[derive(Debug, Drop)]
pub struct SureSource {
    bytes: Vec<u8>,
    taken: usize,
    most: usize,
}

impl Model for SureSource {
    ghost use Rattle.std.specs.Prelude.{◌<◌, ◌≤◌, drop, length};
    ghost use Rattle.ovl_io.specs.Forms.{PlainSource};

    ghost Value = { PlainSource };

    ghost view = { λ s. record { left = drop s.taken s.bytes.items; most = s.most } };

    ghost invariant = { λ s. (s.taken ≤ length s.bytes.items) × (0 < s.most) };
}

impl SureSource {
    /// Gives these bytes, at most `most` a call.
    pub fn new(bytes: Vec<u8>, most: usize) -> SureSource
        requires { 0 < most }
        ensures left { result.left ≡ bytes.items }
        ensures most { result.most ≡ most }
    {
        SureSource {
            bytes,
            taken: 0,
            most,
        }
    }
}

impl Source for SureSource {
    ghost tells = { Unit {0} };

    ghost left = { λ s. s.left };

    ghost faults = { λ _. no_faults };

    #[tactic(auto, using(crate::proofs::Lists::front_and_rest))]
    fn read(&mut self, into: &mut [u8]) -> Result<usize, Failed>
        ensures within { IfOk result (λ n. n ≤ length into.old) }
        ensures taken { Unit {0} → IfOk result (λ n. self.old.left ≡ take n into.new ++ self.new.left) }
        ensures ended { Unit {0} → 0 < length into.old → IfOk result (λ n. (n ≡ 0) ↔ (self.old.left ≡ [])) }
        ensures kept { Unit {0} → OnErr result (self.new.left ≡ self.old.left) }
        ensures cause { OnErr result (Rose no_faults no_faults) }
        ensures no_fault { OnOk result (no_faults ≡ no_faults) }
        ensures counted { no_faults ≤ no_faults }

        // It always answers, and gives as much as there is, as fits and as one call may give.
        ensures sure { IsOk result }
        ensures amount { IfOk result (λ n.
            n ≡ min self.old.most (min (length into.old) (length self.old.left))) }
        ensures most { self.new.most ≡ self.old.most }
    {
        let n = give(self.bytes.as_slice(), self.taken, self.most, into);
        self.taken += n;
        Ok(n)
    }
}
