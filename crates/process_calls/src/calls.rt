//! The requests, and the registers behind them.

ghost use Rattle.std.specs.Prelude.{◌≡◌};
ghost use Rattle.process_calls.specs.Calls.{call_at, gone_on, kept, numbered};

use rv_execute::Regs;

/// The word of ECALL (RISC-V Unprivileged ISA, "RV32I Base Integer Instruction Set", section "Environment Call and Breakpoints").
const REQUEST: u32 = 0x0000_0073;

/// The numbers of the requests, in a7.
const SPECULATE: u64 = 1025;

const COMMIT: u64 = 1026;

const DISCARD: u64 = 1027;

/// The registers of the number of a request, and of its answer: a7 and a0 (RISC-V ABIs Specification, "Integer Register Convention").
const A7: u8 = 17;

const A0: u8 = 10;

/// What a process asks of its own speculation.
#[derive(Clone, Copy, Debug, PartialEq, Eq)]
pub enum ProcessCall {
    /// begin one
    Speculate,
    /// end it, and keep what was done in it
    Commit,
    /// end it, and go back to where it began
    Discard,
}

/// The request of a number in a7.
fn numbered(number: u64) -> Option<ProcessCall>
    ensures { result ≡ numbered number }
{
    match number {
        SPECULATE => Some(ProcessCall::Speculate),
        COMMIT => Some(ProcessCall::Commit),
        DISCARD => Some(ProcessCall::Discard),
        _ => None,
    }
}

/// What a process asks of its own speculation at a word that it is about to execute. None exactly where the word isn't ECALL, or a7 is
/// the number of none of the three requests.
#[inline]
pub fn call_at(regs: &Regs, word: u32) -> Option<ProcessCall>
    ensures { result ≡ call_at regs.now word }
{
    if word != REQUEST {
        return None;
    }
    numbered(regs.get(A7))
}

/// The registers that go on behind a request, with its answer in a0.
pub fn gone_on(regs: &Regs, a0: u64) -> Regs
    ensures { result ≡ gone_on regs.now a0 }
{
    let mut after = *regs;
    after.set_pc(regs.pc().wrapping_add(4));
    after.set(A0, a0);
    after
}

/// The registers that are kept where a speculation begins: discarded, the process goes on behind the request, with 1 in a0.
pub fn kept(regs: &Regs) -> Regs
    ensures { result ≡ kept regs.now }
{
    gone_on(regs, 1)
}
