//! One instruction of RV64I or of extension M.

ghost use Rattle.std.specs.Prelude.{◌≡◌, ◌%◌};
ghost use Rattle.rv_execute.specs.Calls.{Performs};
ghost use Rattle.rv_execute.specs.Execution.{Executed, full_in, word_effect};
ghost use Rattle.rv_mul.specs.Tables.{execution_m, rv64im};

use crate::effects::multiply;
use crate::words::decode_m;
use ovl_io::FaultKind;
use rv_execute::{Action, GuestMemory, Outcome, Regs, execute_word, perform};

/// What `execute_m` does once its fetch has given this word.
#[inline(always)]
fn execute_word_m<M: GuestMemory>(regs: &mut Regs, mem: &mut M, word: u32) -> Outcome
    requires aligned { regs.old.pc % 4 ≡ 0 }
    requires ready { M.ready mem.old }
    ensures ready { M.ready mem.new }
    ensures done { Executed (word_effect rv64im word)
        regs.old (M.memory mem.old) regs.new (M.memory mem.new) result }
    ensures made { Performs M.fetched M.loaded M.stored
        (word_effect rv64im word regs.old (M.memory mem.old)).calls mem.old (full_in result) mem.new }
{
    match decode_m(word) {
        Some(i) => {
            let value = multiply(i.name, regs.get(i.rs1), regs.get(i.rs2));
            perform(Action::Write(value), i.rd, regs, mem)
        }
        None => execute_word(regs, mem, word),
    }
}

/// `execute` of `rv_execute` where the rows of extension M are there beside those of RV64I: the faults, their order and the accesses
/// are the same, and of these there is at most one fetch. Takes no memory.
pub fn execute_m<M: GuestMemory>(regs: &mut Regs, mem: &mut M) -> Outcome
    requires { M.ready mem.old }
    ensures ready { M.ready mem.new }
    ensures done { Executed execution_m
        regs.old (M.memory mem.old) regs.new (M.memory mem.new) result }
    ensures made { Performs M.fetched M.loaded M.stored
        (execution_m regs.old (M.memory mem.old)).calls mem.old (full_in result) mem.new }
{
    let pc = regs.pc();
    if pc % 4 != 0 {
        return Outcome::Fault(FaultKind::Align, pc);
    }
    match mem.fetch(pc) {
        Ok(word) => execute_word_m(regs, mem, word),
        Err(denied) => Outcome::Fault(FaultKind::Fetch, denied.address),
    }
}
