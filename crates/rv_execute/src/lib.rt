//! The executor of RV64I: what one instruction does to the registers of a process and to its memory.
//!
//! The model is the execution of one instruction as a function of the registers and a whole memory, a finite map from
//! page numbers to pages. It gives the registers and the memory afterwards, what came of the instruction, and the calls
//! of the memory in their order. What each row of the instruction table does is one line of it, read beside the RISC-V
//! Unprivileged ISA manual.
//!
//! The memory itself is the caller's, by the trait `GuestMemory`. Its ghost member `memory` is the memory that accesses
//! see; `fetched`, `loaded` and `stored` say what a call makes of the object beyond that, as of its counts. So `execute`
//! promises of any such object that it was asked for exactly the accesses of the instruction.
//!
//! A request to the machine (ECALL) is left to the caller, who finds pc behind it.
//!
//! | Module | What it has |
//! |---|---|
//! | `regs` | `Regs`: pc and the registers x0 to x31 |
//! | `arithmetic` | signed comparison, sign extension and shifts of 64 bits |
//! | `action` | `Action`: what an instruction does once its operands are known |
//! | `rows` | the action of each of the 52 names of RV64I |
//! | `memory` | `GuestMemory`, the trait of a memory, and how it refuses: `Denied` and `Refused` |
//! | `outcome` | `Outcome`: what came of an instruction |
//! | `instruction` | `execute`: fetch, decode, and the action done; `execute_word`, what is behind the fetch; and `action_on` and `perform`, its last two parts, for a word that is decoded already |
#![tactic(auto)]

mod action;
mod arithmetic;
mod instruction;
mod memory;
mod outcome;
mod regs;
mod rows;
#[cfg(test)]
mod tests;

pub use action::{Action, Extension, Size};
pub use arithmetic::extended_word;
pub use instruction::{action_on, execute, execute_word, perform};
pub use memory::{Denied, GuestMemory, Refused};
pub use outcome::Outcome;
pub use regs::Regs;
