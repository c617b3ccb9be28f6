ghost use Rattle.std.specs.Prelude.{◌≡◌, ◌↔◌, ℕ, ◌+◌, ◌-◌, ◌<◌, ◌≤◌, List, [], ◌++◌, take, drop, min, length, IfOk, IsErr, IsTrue, OnErr, OnOk};
ghost use Rattle.ovl_io.specs.Outside.{Rose};
ghost use Rattle.ovl_io.specs.Forms.{is_among, one_call_more, one_fault_more};

use crate::source::{Failed, Source};
use std::marker::Model;

/// A source over bytes in memory, whose calls fail as they are told to.
#[derive(Debug, Drop)]
pub struct MemorySource {
    bytes: Vec<u8>,
    taken: usize,
    most: usize,
    fails: Vec<u32>,
    calls: u32,
    faults: u64,
}

impl Model for MemorySource {
    ghost use Rattle.std.specs.Prelude.{◌<◌, ◌≤◌, drop, length};
    ghost use Rattle.ovl_io.specs.Forms.{SourceInMemory};

    ghost Value = { SourceInMemory };

    ghost view = { λ s. record {
      left = drop s.taken s.bytes.items;
      most = s.most;
      fails = s.fails.items;
      calls = s.calls;
      faults = s.faults;
    } };

    ghost invariant = { λ s. (s.taken ≤ length s.bytes.items) × (0 < s.most) };
}

impl MemorySource {
    /// Gives these bytes, at most `most` a call. The calls whose numbers, from 0, are in `fails` fail.
    pub fn new(bytes: Vec<u8>, most: usize, fails: Vec<u32>) -> MemorySource
        requires { 0 < most }
        ensures left { result.left ≡ bytes.items }
        ensures most { result.most ≡ most }
        ensures fails { result.fails ≡ fails.items }
        ensures fresh { (result.calls ≡ 0) × (result.faults ≡ 0) }
    {
        MemorySource {
            bytes,
            taken: 0,
            most,
            fails,
            calls: 0,
            faults: 0,
        }
    }
}

impl Source for MemorySource {
    ghost tells = { Unit {0} };

    ghost left = { λ s. s.left };

    ghost faults = { λ s. s.faults };

    #[tactic(auto, using(crate::proofs::Lists::front_and_rest))]
    fn read(&mut self, into: &mut [u8]) -> Result<usize, Failed>
        ensures within { IfOk result (λ n. n ≤ length into.old) }
        ensures taken { Unit {0} → IfOk result (λ n. self.old.left ≡ take n into.new ++ self.new.left) }
        ensures ended { Unit {0} → 0 < length into.old → IfOk result (λ n. (n ≡ 0) ↔ (self.old.left ≡ [])) }
        ensures kept { Unit {0} → OnErr result (self.new.left ≡ self.old.left) }
        ensures cause { OnErr result (Rose self.old.faults self.new.faults) }
        ensures no_fault { OnOk result (self.new.faults ≡ self.old.faults) }
        ensures counted { self.old.faults ≤ self.new.faults }

        // A call fails exactly where its number is among those that fail.
        ensures fails { IsErr result ↔ IsTrue (is_among self.old.fails self.old.calls) }
        ensures calls { self.new.calls ≡ one_call_more self.old.calls }
        ensures faults { OnErr result (self.new.faults ≡ one_fault_more self.old.faults) }
        ensures settings { (self.new.most ≡ self.old.most) × (self.new.fails ≡ self.old.fails) }
        // Else it gives as much as there is, as fits and as one call may give.
        ensures amount { IfOk result (λ n.
            n ≡ min self.old.most (min (length into.old) (length self.old.left))) }
    {
        let call = self.calls;
        self.calls = call.saturating_add(1);
        if self.fails.contains(&call) {
            self.faults = self.faults.saturating_add(1);
            return Err(Failed);
        }
        let n = give(self.bytes.as_slice(), self.taken, self.most, into);
        self.taken += n;
        Ok(n)
    }
}

/// Copies the bytes from `from` on into the front of `into`, at most `most` of them; answers how many.
pub(crate) fn give(bytes: &[u8], from: usize, most: usize, into: &mut [u8]) -> usize
    requires { from ≤ length bytes.now }
    ensures amount { result ≡ min most (min (length into.old) (length bytes.now - from)) }
    ensures copied { take result into.new ≡ take result (drop from bytes.now) }
{
    let n = most.min(into.len().min(bytes.len() - from));
    into[..n].copy_from_slice(&bytes[from..from + n]);
    n
}
