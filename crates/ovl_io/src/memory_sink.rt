ghost use Rattle.std.specs.Prelude.{◌≡◌, ℕ, ◌-◌, ◌<◌, ◌≤◌, ◌⊎◌, List, [], ◌++◌, take, min, length, IfOk, IsErr, IsTrue, OnErr, OnOk};
ghost use Rattle.ovl_io.specs.Outside.{Rose};
ghost use Rattle.ovl_io.specs.Forms.{is_among, one_call_more, one_fault_more};

use crate::sink::Sink;
use crate::source::Failed;
use std::alloc::{AllocError, Global};
use std::marker::Model;

/// A sink in memory that keeps what it takes, and whose calls fail as they are told to.
#[derive(Debug, Drop)]
pub struct MemorySink {
    bytes: Vec<u8>,
    room: usize,
    most: usize,
    fails: Vec<u32>,
    calls: u32,
    faults: u64,
}

impl Model for MemorySink {
    ghost use Rattle.std.specs.Prelude.{◌<◌, ◌≤◌, length, vec_capacity};
    ghost use Rattle.ovl_io.specs.Forms.{SinkInMemory};

    ghost Value = { SinkInMemory };

    ghost view = { λ s. record {
      taken = s.bytes.items;
      room = s.room;
      most = s.most;
      fails = s.fails.items;
      calls = s.calls;
      faults = s.faults;
    } };

    ghost invariant = { λ s. (length s.bytes.items ≤ s.room) × (s.room ≤ vec_capacity s.bytes) × (0 < s.most) };
}

impl MemorySink {
    /// Takes its room, in bytes, at once, and then at most `most` bytes a call. The calls whose numbers,
    /// from 0, are in `fails` fail, and so does a call with a piece that isn't empty once no room is left.
    pub fn new(
        alloc: Global,
        room: usize,
        most: usize,
        fails: Vec<u32>,
    ) -> Result<MemorySink, AllocError>
        requires { 0 < most }
        ensures taken { IfOk result (λ s. s.taken ≡ []) }
        ensures settings { IfOk result (λ s. (s.room ≡ room) × (s.most ≡ most) × (s.fails ≡ fails.items)) }
        ensures fresh { IfOk result (λ s. (s.calls ≡ 0) × (s.faults ≡ 0)) }
    {
        let bytes = Vec::with_capacity(alloc, room)?;
        Ok(MemorySink {
            bytes,
            room,
            most,
            fails,
            calls: 0,
            faults: 0,
        })
    }

    /// What it took.
    pub fn taken(&self) -> &[u8]
        ensures { result.now ≡ self.now.taken }
    {
        self.bytes.as_slice()
    }

    fn fail(&mut self) -> Result<usize, Failed>
        ensures fails { IsErr result }
        ensures after { self.new ≡ record self.old { faults = one_fault_more self.old.faults } }
    {
        self.faults = self.faults.saturating_add(1);
        Err(Failed)
    }
}

impl Sink for MemorySink {
    ghost tells = { Unit {0} };

    ghost taken = { λ s. s.taken };

    ghost faults = { λ s. s.faults };

    fn write(&mut self, piece: &[u8]) -> Result<usize, Failed>
        ensures within { IfOk result (λ n. n ≤ length piece.now) }
        ensures moves { 0 < length piece.now → IfOk result (λ n. 0 < n) }
        ensures taken { Unit {0} → IfOk result (λ n. self.new.taken ≡ self.old.taken ++ take n piece.now) }
        ensures kept { Unit {0} → OnErr result (self.new.taken ≡ self.old.taken) }
        ensures cause { OnErr result (Rose self.old.faults self.new.faults) }
        ensures no_fault { OnOk result (self.new.faults ≡ self.old.faults) }
        ensures counted { self.old.faults ≤ self.new.faults }

        // A call fails exactly where its number is among those that fail, or the piece isn't empty and
        // no room is left.
        ensures listed { IsTrue (is_among self.old.fails self.old.calls) → IsErr result }
        ensures no_room { 0 < length piece.now → self.old.room ≤ length self.old.taken → IsErr result }
        ensures fails { OnErr result (IsTrue (is_among self.old.fails self.old.calls)
            ⊎ ((0 < length piece.now) × (self.old.room ≤ length self.old.taken))) }
        ensures calls { self.new.calls ≡ one_call_more self.old.calls }
        ensures faults { OnErr result (self.new.faults ≡ one_fault_more self.old.faults) }
        ensures settings { (self.new.room ≡ self.old.room) × (self.new.most ≡ self.old.most)
            × (self.new.fails ≡ self.old.fails) }
        // Else it takes as much as the piece has, as fits and as one call may take.
        ensures amount { IfOk result (λ n.
            n ≡ min self.old.most (min (length piece.now) (self.old.room - length self.old.taken))) }
    {
        let call = self.calls;
        self.calls = call.saturating_add(1);
        let room = self.room - self.bytes.len();
        if self.fails.contains(&call) {
            return self.fail();
        }
        if !piece.is_empty() && room == 0 {
            return self.fail();
        }
        let n = self.most.min(piece.len().min(room));
        match self.bytes.extend_from_slice(&piece[..n]) {
            Ok(()) => Ok(n),
            Err(_) => unreachable!(),
        }
    }
}
