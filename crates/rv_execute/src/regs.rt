//! The registers of a process.

ghost use Rattle.std.specs.Prelude.{◌≡◌, ◌<◌, length, slice_index, Ok};
ghost use Rattle.rv_execute.specs.Registers.{first_registers, register, with_pc, with_register};

use std::alloc::AllocError;
use std::marker::Model;

/// The pc and x0 to x31, each of 64 bits, of which x0 is always 0 (RISC-V Unprivileged ISA, "Programmers' Model for Base
/// Integer ISA"). Copied freely; it takes no memory.
#[derive(Debug)]
pub struct Regs {
    pc: u64,
    x: [u64; 32],
}

impl Model for Regs {
    ghost use Rattle.std.specs.Prelude.{◌≡◌, slice_index};
    ghost use Rattle.rv_execute.specs.Registers.{Registers};

    ghost Value = { Registers };

    ghost view = { λ r. record { pc = r.pc; x = r.x } };

    ghost invariant = { λ r. slice_index r.x 0 ≡ 0 };

    ghost inverse = { λ v. record { pc = v.pc; x = v.x } };
}

impl Copy for Regs {}

impl Clone for Regs {
    /// A copy; it takes no memory.
    fn clone(&self) -> Result<Regs, AllocError>
        ensures { result ≡ Ok self.now }
    {
        Ok(*self)
    }
}

impl Regs {
    /// At the start of a program: `pc` is its entry, x2 is the stack pointer, and every other register is 0.
    #[tactic(auto, unfolding(crate::specs::Registers::first_registers))]
    pub fn new(pc: u64, sp: u64) -> Regs
        ensures { result ≡ first_registers pc sp }
    {
        let mut x = [0; 32];
        x[2] = sp;
        Regs { pc, x }
    }

    /// The value of register `i`, from 0 to 31; that of x0 is 0.
    #[inline]
    pub fn get(&self, i: u8) -> u64
        requires { i < 32 }
        ensures value { result ≡ register self.now i }
        ensures zero { i ≡ 0 → result ≡ 0 }
    {
        self.x[i as usize]
    }

    /// Writes register `i`, from 0 to 31; a value for x0 is dropped.
    #[inline]
    pub fn set(&mut self, i: u8, v: u64)
        requires { i < 32 }
        ensures { self.new ≡ with_register self.old i v }
    {
        // without a test, which costs more than the store that puts x0 right
        self.x[i as usize] = v;
        self.x[0] = 0;
    }

    /// x0 to x31 in their order, of which x0 is 0.
    #[inline]
    pub fn x(&self) -> &[u64; 32]
        ensures values { result.now ≡ self.now.x }
        ensures count { length result.now ≡ 32 }
        ensures zero { slice_index result.now 0 ≡ 0 }
    {
        &self.x
    }

    /// The address of the instruction.
    #[inline]
    pub fn pc(&self) -> u64
        ensures { result ≡ self.now.pc }
    {
        self.pc
    }

    /// Goes to an address, whatever it is: one that isn't a multiple of 4 faults at the next `execute`.
    #[inline]
    pub fn set_pc(&mut self, v: u64)
        ensures { self.new ≡ with_pc self.old v }
    {
        self.pc = v;
    }
}
