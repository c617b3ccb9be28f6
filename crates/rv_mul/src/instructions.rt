//! The instructions of RV64I, with those of extension M beside them or without.

ghost use Rattle.std.specs.Prelude.{◌≡◌, ◌<◌};
ghost use Rattle.rv_decode.specs.Table.{is_multiplication};
ghost use Rattle.rv_execute.specs.Calls.{Performs};
ghost use Rattle.rv_execute.specs.Execution.{Executed, action_by, execution_by, full_in};
ghost use Rattle.rv_mul.specs.Tables.{rv64im, table_of};

use crate::effects::multiply;
use crate::execute::execute_m;
use crate::words::Rv64im;
use rv_decode::{Decoder, Instr, Name, Rv64i};
use rv_execute::{Action, GuestMemory, Outcome, Regs, action_on, execute};

/// The table of RV64I, and with it that of extension M where `EXTENSION` is true: `Rv64i` or `Rv64im` by a constant, for what is compiled
/// once for each.
pub struct Instructions<const EXTENSION: bool>;

impl<const EXTENSION: bool> Decoder for Instructions<EXTENSION> {
    ghost has = { (table_of EXTENSION).has };

    #[inline(always)]
    fn decode(word: u32) -> Option<Instr> {
        if EXTENSION {
            Rv64im::decode(word)
        } else {
            Rv64i::decode(word)
        }
    }
}

/// Whether a name is one of extension M.
#[inline(always)]
fn is_multiplication(name: Name) -> bool
    ensures { result ≡ is_multiplication name }
{
    match name {
        Name::Mul => true,
        Name::Mulh => true,
        Name::Mulhsu => true,
        Name::Mulhu => true,
        Name::Div => true,
        Name::Divu => true,
        Name::Rem => true,
        Name::Remu => true,
        Name::Mulw => true,
        Name::Divw => true,
        Name::Divuw => true,
        Name::Remw => true,
        Name::Remuw => true,
        _ => false,
    }
}

/// What an instruction of RV64I or of extension M does on these registers.
#[inline(always)]
fn action_m(i: &Instr, regs: &Regs) -> Action
    requires rs1 { i.now.rs1 < 32 }
    requires rs2 { i.now.rs2 < 32 }
    ensures { result ≡ action_by rv64im i.now regs.now }
{
    if is_multiplication(i.name) {
        Action::Write(multiply(i.name, regs.get(i.rs1), regs.get(i.rs2)))
    } else {
        action_on(i, regs)
    }
}

impl<const EXTENSION: bool> Instructions<EXTENSION> {
    /// What an instruction does on these registers. `rs1` and `rs2` are below 32.
    #[inline(always)]
    pub fn action_on(i: &Instr, regs: &Regs) -> Action
        requires rs1 { i.now.rs1 < 32 }
        requires rs2 { i.now.rs2 < 32 }
        ensures { result ≡ action_by (table_of EXTENSION) i.now regs.now }
    {
        if EXTENSION {
            action_m(i, regs)
        } else {
            action_on(i, regs)
        }
    }

    /// `execute` of `rv_execute`, or `execute_m`. Takes no memory.
    #[inline(always)]
    pub fn execute<M: GuestMemory>(regs: &mut Regs, mem: &mut M) -> Outcome
        requires { M.ready mem.old }
        ensures ready { M.ready mem.new }
        ensures done { Executed (execution_by (table_of EXTENSION))
            regs.old (M.memory mem.old) regs.new (M.memory mem.new) result }
        ensures made { Performs M.fetched M.loaded M.stored
            (execution_by (table_of EXTENSION) regs.old (M.memory mem.old)).calls
            mem.old (full_in result) mem.new }
    {
        if EXTENSION {
            execute_m(regs, mem)
        } else {
            execute(regs, mem)
        }
    }
}
