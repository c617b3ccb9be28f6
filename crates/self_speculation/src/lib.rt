//! Turns of processes that may speculate by themselves: by ECALL a process begins a speculation of its own, commits it or discards it.
//!
//! The model is that of `machine_core`: a copying machine, and a step of one of its processes, which may change what is kept of it.
//!
//! - `requests`: what the three requests do to a process
//! - `turns`: what a process asked for, and one turn
#![tactic(auto)]

mod requests;
mod turns;

pub use turns::{answer, event};

/// What a0 says of a request that isn't done: -1.
pub const NOT_DONE: u64 = 0xffff_ffff_ffff_ffff;

/// The word of ECALL (RISC-V Unprivileged ISA, "RV32I Base Integer Instruction Set", section "Environment Call and Breakpoints").
pub(crate) const ECALL: u32 = 0x0000_0073;
