//! Sets of addresses by the numbers of processes.

ghost use Rattle.std.specs.Prelude.{◌≡◌, None, true, IsOk, OnOk, OnErr};
ghost use Rattle.std.specs.FinMap as map;
ghost use Rattle.std.specs.Option.{option_copied};
ghost use Rattle.breakpoints.specs.Breakpoints.{has_break, with_break, without_break};

use crate::Addresses;
use by_number::ByNumber;
use std::alloc::{AllocError, Global};
use std::marker::Model;

/// For each process that ever had a breakpoint, the addresses of those that it has, by its number.
#[derive(Drop)]
pub struct Breakpoints {
    alloc: Global,
    by_process: ByNumber<Addresses>,
}

impl Model for Breakpoints {
    ghost use Rattle.std.specs.Coded.{coded_ℕ};
    ghost use Rattle.std.specs.FinMap.{code as map_code};
    ghost use Rattle.std.specs.FinSet.{code as set_code};
    ghost use Rattle.breakpoints.specs.Breakpoints.{Breaks};

    ghost Value = { Breaks };

    ghost coded = { map_code coded_ℕ (set_code coded_ℕ) };

    ghost view = { λ b. b.by_process };
}

impl Breakpoints {
    /// No process has a breakpoint. Takes no memory.
    pub fn new(alloc: Global) -> Breakpoints
        ensures { result ≡ map.empty }
    {
        Breakpoints {
            alloc,
            by_process: ByNumber::new(alloc),
        }
    }

    /// The addresses of a process's breakpoints; none where it never had one.
    #[inline]
    pub fn of(&self, p: u16) -> Option<&Addresses>
        ensures { option_copied result ≡ map.get self.now p }
    {
        self.by_process.get(p)
    }

    /// Adds a breakpoint of a process. One that is there stays, and takes no memory. After want of memory everything is as before.
    pub fn add(&mut self, p: u16, address: u64) -> Result<(), AllocError>
        ensures added { OnOk result (self.new ≡ with_break self.old p address) }
        ensures kept { OnErr result (self.new ≡ self.old) }
        ensures there { has_break self.old p address ≡ true → IsOk result }
    {
        match self.by_process.get_mut(p) {
            Some(addresses) => addresses.add(address),
            None => self.add_first(p, address),
        }
    }

    /// Gives a process that never had a breakpoint its first one. After want of memory everything is as before.
    fn add_first(&mut self, p: u16, address: u64) -> Result<(), AllocError>
        requires { map.get self.old p ≡ None }
        ensures added { OnOk result (self.new ≡ with_break self.old p address) }
        ensures kept { OnErr result (self.new ≡ self.old) }
    {
        let mut addresses = Addresses::new(self.alloc);
        addresses.add(address)?;
        self.by_process.insert(p, addresses)
    }

    /// Takes away a breakpoint of a process, where it is there. Takes no memory.
    pub fn remove(&mut self, p: u16, address: u64)
        ensures { self.new ≡ without_break self.old p address }
    {
        match self.by_process.get_mut(p) {
            Some(addresses) => addresses.remove(address),
            None => {}
        }
    }

    /// Takes away all breakpoints of a process. Takes no memory.
    pub fn clear(&mut self, p: u16)
        ensures { self.new ≡ map.remove self.old p }
    {
        self.by_process.remove(p);
    }
}
