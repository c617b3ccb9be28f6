//! One instruction over registers and a memory.

ghost use Rattle.std.specs.Prelude.{◌≡◌, ◌<◌, ◌≤◌, ◌%◌, ℕ, IsTrue, None};
ghost use Rattle.ovl_io.specs.Memory.{Memory};
ghost use Rattle.rv_execute.specs.Registers.{next, with_register};
ghost use Rattle.rv_execute.specs.Calls.{is_count, Performs};
ghost use Rattle.rv_execute.specs.Execution.{action_on, count_of, effect, execution, Executed, extended, full_in, ReadsNumber, rv64i, word_effect};

use crate::action::{Action, Extension, Size};
use crate::arithmetic::extended_word;
use crate::memory::{Denied, GuestMemory, Refused};
use crate::outcome::Outcome;
use crate::regs::Regs;
use crate::rows::action_of;
use byteorder::{ByteOrder, LittleEndian};
use ovl_io::FaultKind;
use rv_decode::{Instr, decode};

// Numbers of two bytes are below this.
const HALF_END: u64 = 1 << 16;

/// A loaded number of so many bytes as 64 bits.
#[inline(always)]
fn extended(extension: Extension, size: Size, n: u64) -> u64
    ensures { result ≡ extended extension size n }
{
    match extension {
        Extension::Zero => n,
        Extension::Sign => match size {
            Size::Byte => i64::from(((n % 256) as u8).cast_signed()).cast_unsigned(),
            Size::Half => i64::from(((n % HALF_END) as u16).cast_signed()).cast_unsigned(),
            Size::Word => extended_word(n),
            Size::Double => n,
        },
    }
}

/// Goes on behind the instruction.
#[inline(always)]
fn next(regs: &mut Regs)
    ensures { regs.new ≡ next regs.old }
{
    regs.set_pc(regs.pc().wrapping_add(4));
}

/// Writes a result and goes on behind the instruction.
#[inline(always)]
fn write(regs: &mut Regs, rd: u8, value: u64) -> Outcome
    requires { rd < 32 }
    ensures value { regs.new ≡ next (with_register regs.old rd value) }
    ensures outcome { result ≡ Outcome.Stepped }
{
    regs.set(rd, value);
    next(regs);
    Outcome::Stepped
}

/// The number of a byte.
#[inline(always)]
fn read_byte<M: GuestMemory>(mem: &mut M, address: u64) -> Result<u64, Denied>
    requires { M.ready mem.old }
    ensures ready { M.ready mem.new }
    ensures answer { ReadsNumber (M.memory mem.old) address Size.Byte Extension.Zero result }
    ensures kept { M.memory mem.new ≡ M.memory mem.old }
    ensures made { M.loaded mem.old address (count_of Size.Byte) mem.new }
{
    let mut buffer = [0; 1];
    mem.load(address, &mut buffer)?;
    Ok(u64::from(buffer[0]))
}

/// That of two bytes.
#[inline(always)]
fn read_half<M: GuestMemory>(mem: &mut M, address: u64) -> Result<u64, Denied>
    requires { M.ready mem.old }
    ensures ready { M.ready mem.new }
    ensures answer { ReadsNumber (M.memory mem.old) address Size.Half Extension.Zero result }
    ensures kept { M.memory mem.new ≡ M.memory mem.old }
    ensures made { M.loaded mem.old address (count_of Size.Half) mem.new }
{
    let mut buffer = [0; 2];
    mem.load(address, &mut buffer)?;
    Ok(u64::from(LittleEndian::read_u16(&buffer)))
}

/// That of four.
#[inline(always)]
fn read_word<M: GuestMemory>(mem: &mut M, address: u64) -> Result<u64, Denied>
    requires { M.ready mem.old }
    ensures ready { M.ready mem.new }
    ensures answer { ReadsNumber (M.memory mem.old) address Size.Word Extension.Zero result }
    ensures kept { M.memory mem.new ≡ M.memory mem.old }
    ensures made { M.loaded mem.old address (count_of Size.Word) mem.new }
{
    let mut buffer = [0; 4];
    mem.load(address, &mut buffer)?;
    Ok(u64::from(LittleEndian::read_u32(&buffer)))
}

/// That of eight.
#[inline(always)]
fn read_double<M: GuestMemory>(mem: &mut M, address: u64) -> Result<u64, Denied>
    requires { M.ready mem.old }
    ensures ready { M.ready mem.new }
    ensures answer { ReadsNumber (M.memory mem.old) address Size.Double Extension.Zero result }
    ensures kept { M.memory mem.new ≡ M.memory mem.old }
    ensures made { M.loaded mem.old address (count_of Size.Double) mem.new }
{
    let mut buffer = [0; 8];
    mem.load(address, &mut buffer)?;
    Ok(LittleEndian::read_u64(&buffer))
}

/// That of a signed byte. What compilers seldom write is taken apart, so that the others stay short.
#[inline(never)]
fn read_signed_byte<M: GuestMemory>(mem: &mut M, address: u64) -> Result<u64, Denied>
    requires { M.ready mem.old }
    ensures ready { M.ready mem.new }
    ensures answer { ReadsNumber (M.memory mem.old) address Size.Byte Extension.Sign result }
    ensures kept { M.memory mem.new ≡ M.memory mem.old }
    ensures made { M.loaded mem.old address (count_of Size.Byte) mem.new }
{
    Ok(extended(Extension::Sign, Size::Byte, read_byte(mem, address)?))
}

/// That of two signed bytes.
#[inline(never)]
fn read_signed_half<M: GuestMemory>(mem: &mut M, address: u64) -> Result<u64, Denied>
    requires { M.ready mem.old }
    ensures ready { M.ready mem.new }
    ensures answer { ReadsNumber (M.memory mem.old) address Size.Half Extension.Sign result }
    ensures kept { M.memory mem.new ≡ M.memory mem.old }
    ensures made { M.loaded mem.old address (count_of Size.Half) mem.new }
{
    Ok(extended(Extension::Sign, Size::Half, read_half(mem, address)?))
}

/// That of two bytes without a sign.
#[inline(never)]
fn read_unsigned_half<M: GuestMemory>(mem: &mut M, address: u64) -> Result<u64, Denied>
    requires { M.ready mem.old }
    ensures ready { M.ready mem.new }
    ensures answer { ReadsNumber (M.memory mem.old) address Size.Half Extension.Zero result }
    ensures kept { M.memory mem.new ≡ M.memory mem.old }
    ensures made { M.loaded mem.old address (count_of Size.Half) mem.new }
{
    read_half(mem, address)
}

/// That of four bytes without a sign.
#[inline(never)]
fn read_unsigned_word<M: GuestMemory>(mem: &mut M, address: u64) -> Result<u64, Denied>
    requires { M.ready mem.old }
    ensures ready { M.ready mem.new }
    ensures answer { ReadsNumber (M.memory mem.old) address Size.Word Extension.Zero result }
    ensures kept { M.memory mem.new ≡ M.memory mem.old }
    ensures made { M.loaded mem.old address (count_of Size.Word) mem.new }
{
    read_word(mem, address)
}

/// That of four bytes with a sign.
#[inline(always)]
fn read_signed_word<M: GuestMemory>(mem: &mut M, address: u64) -> Result<u64, Denied>
    requires { M.ready mem.old }
    ensures ready { M.ready mem.new }
    ensures answer { ReadsNumber (M.memory mem.old) address Size.Word Extension.Sign result }
    ensures kept { M.memory mem.new ≡ M.memory mem.old }
    ensures made { M.loaded mem.old address (count_of Size.Word) mem.new }
{
    Ok(extended(Extension::Sign, Size::Word, read_word(mem, address)?))
}

/// The number of a load, with its extension. Each that compilers write often has an arm of its own, since what the memory does with bytes whose
/// number is known when it is compiled is short.
#[inline(always)]
fn read<M: GuestMemory>(
    mem: &mut M,
    address: u64,
    size: Size,
    extension: Extension,
) -> Result<u64, Denied>
    requires { M.ready mem.old }
    ensures ready { M.ready mem.new }
    ensures answer { ReadsNumber (M.memory mem.old) address size extension result }
    ensures kept { M.memory mem.new ≡ M.memory mem.old }
    ensures made { M.loaded mem.old address (count_of size) mem.new }
{
    let n = match extension {
        Extension::Zero => match size {
            Size::Byte => read_byte(mem, address)?,
            Size::Half => read_unsigned_half(mem, address)?,
            Size::Word => read_unsigned_word(mem, address)?,
            Size::Double => read_double(mem, address)?,
        },
        Extension::Sign => match size {
            Size::Byte => read_signed_byte(mem, address)?,
            Size::Half => read_signed_half(mem, address)?,
            Size::Word => read_signed_word(mem, address)?,
            Size::Double => read_double(mem, address)?,
        },
    };
    Ok(n)
}

/// Loads a number into a register.
#[inline(always)]
fn load<M: GuestMemory>(
    regs: &mut Regs,
    mem: &mut M,
    rd: u8,
    address: u64,
    size: Size,
    extension: Extension,
) -> Outcome
    requires rd { rd < 32 }
    requires ready { M.ready mem.old }
    ensures ready { M.ready mem.new }
    ensures done { Executed (effect (Action.Load address size extension) rd)
        regs.old (M.memory mem.old) regs.new (M.memory mem.new) result }
    ensures made { Performs M.fetched M.loaded M.stored
        (effect (Action.Load address size extension) rd regs.old (M.memory mem.old)).calls
        mem.old (full_in result) mem.new }
{
    match read(mem, address, size, extension) {
        Ok(value) => write(regs, rd, value),
        Err(denied) => Outcome::Fault(FaultKind::Load, denied.address),
    }
}

/// Stores the low bytes of a value.
#[inline(always)]
fn store<M: GuestMemory>(
    regs: &mut Regs,
    mem: &mut M,
    address: u64,
    size: Size,
    value: u64,
) -> Outcome
    requires { M.ready mem.old }
    ensures ready { M.ready mem.new }
    ensures done { (rd : ℕ) → Executed (effect (Action.Store address size value) rd)
        regs.old (M.memory mem.old) regs.new (M.memory mem.new) result }
    ensures made { (rd : ℕ) → Performs M.fetched M.loaded M.stored
        (effect (Action.Store address size value) rd regs.old (M.memory mem.old)).calls
        mem.old (full_in result) mem.new }
{
    let bytes = value.to_le_bytes();
    let answer = match size {
        Size::Byte => mem.store(address, &bytes[..1]),
        Size::Half => mem.store(address, &bytes[..2]),
        Size::Word => mem.store(address, &bytes[..4]),
        Size::Double => mem.store(address, &bytes),
    };
    match answer {
        Ok(()) => {
            next(regs);
            Outcome::Stepped
        }
        Err(Refused::At(at)) => Outcome::Fault(FaultKind::Store, at),
        Err(Refused::Full(units, limit)) => Outcome::Full(units, limit),
    }
}

/// Jumps to a target, and writes the address behind the instruction to a register; nothing of this where the target
/// isn't a multiple of 4.
#[inline(always)]
fn link(regs: &mut Regs, rd: u8, target: u64) -> Outcome
    requires { rd < 32 }
    ensures done { (memory : Memory) →
        Executed (effect (Action.Link target) rd) regs.old memory regs.new memory result }
    ensures not_full { full_in result ≡ None }
{
    let behind = regs.pc().wrapping_add(4);
    if target % 4 != 0 {
        return Outcome::Fault(FaultKind::Align, target);
    }
    regs.set(rd, behind);
    regs.set_pc(target);
    Outcome::Stepped
}

/// Jumps to a target, where that is a multiple of 4.
#[inline(always)]
fn go_to(regs: &mut Regs, target: u64) -> Outcome
    ensures done { (memory : Memory) (rd : ℕ) →
        Executed (effect (Action.Goto target) rd) regs.old memory regs.new memory result }
    ensures not_full { full_in result ≡ None }
{
    if target % 4 != 0 {
        return Outcome::Fault(FaultKind::Align, target);
    }
    regs.set_pc(target);
    Outcome::Stepped
}

/// What an instruction of RV64I does on these registers. `rs1` and `rs2` are below 32.
#[inline(always)]
pub fn action_on(i: &Instr, regs: &Regs) -> Action
    requires rs1 { i.now.rs1 < 32 }
    requires rs2 { i.now.rs2 < 32 }
    ensures { result ≡ action_on i.now regs.now }
{
    let a = regs.get(i.rs1);
    let b = regs.get(i.rs2);
    action_of(i.name, a, b, i.imm.cast_unsigned(), regs.pc())
}

/// Does an action, as what the instruction at pc does, where `rd`, below 32, is the register that gets its result. This is `execute` where
/// the word at pc means that instruction, but that the memory is asked for no fetch. Takes no memory.
#[inline(always)]
pub fn perform<M: GuestMemory>(action: Action, rd: u8, regs: &mut Regs, mem: &mut M) -> Outcome
    requires rd { rd < 32 }
    requires ready { M.ready mem.old }
    ensures ready { M.ready mem.new }
    ensures done { Executed (effect action rd)
        regs.old (M.memory mem.old) regs.new (M.memory mem.new) result }
    ensures made { Performs M.fetched M.loaded M.stored
        (effect action rd regs.old (M.memory mem.old)).calls
        mem.old (full_in result) mem.new }
{
    match action {
        Action::Write(value) => write(regs, rd, value),
        Action::Link(target) => link(regs, rd, target),
        Action::Goto(target) => go_to(regs, target),
        Action::Load(address, size, extension) => load(regs, mem, rd, address, size, extension),
        Action::Store(address, size, value) => store(regs, mem, address, size, value),
        Action::Next => {
            next(regs);
            Outcome::Stepped
        }
        Action::Ask => {
            next(regs);
            Outcome::Asked
        }
        Action::Stop => Outcome::Fault(FaultKind::Break, regs.pc()),
    }
}

/// One instruction of a process: the word at its pc, decoded and done as RV64I has it (RISC-V Unprivileged ISA, chapters
/// "RV32I Base Integer Instruction Set" and "RV64I Base Integer Instruction Set"). The faults, in the order in which they
/// are looked for:
///
/// | Kind | Where | Address |
/// |---|---|---|
/// | `Align` | pc isn't a multiple of 4 | pc |
/// | `Fetch` | the page of pc isn't there or may not be executed | pc |
/// | `Illegal` | no row of the instruction table fits the word | pc |
/// | `Align` | the target of a jump or a taken branch isn't a multiple of 4; rd is not written | the target |
/// | `Load`, `Store` | a byte lies in a page that isn't there or may not be read, written | the first such byte |
/// | `Break` | EBREAK | pc |
///
/// `Full` comes exactly where the memory's `store` answered it, with its two numbers. After `Fault` and `Full` registers
/// and memory are as before; after `Asked` pc is behind the ECALL, and nothing else has changed. The memory is asked for
/// the accesses of the instruction, each once and in order, and for nothing else. Takes no memory.
pub fn execute<M: GuestMemory>(regs: &mut Regs, mem: &mut M) -> Outcome
    requires { M.ready mem.old }
    ensures ready { M.ready mem.new }
    ensures done { Executed execution
        regs.old (M.memory mem.old) regs.new (M.memory mem.new) result }
    ensures made { Performs M.fetched M.loaded M.stored
        (execution regs.old (M.memory mem.old)).calls mem.old (full_in result) mem.new }
{
    let pc = regs.pc();
    if pc % 4 != 0 {
        return Outcome::Fault(FaultKind::Align, pc);
    }
    let word = match mem.fetch(pc) {
        Ok(word) => word,
        Err(denied) => return Outcome::Fault(FaultKind::Fetch, denied.address),
    };
    execute_word(regs, mem, word)
}

/// What `execute` does once its fetch has given this word. pc is a multiple of 4. The memory is asked for no fetch. Takes no memory.
#[inline(always)]
pub fn execute_word<M: GuestMemory>(regs: &mut Regs, mem: &mut M, word: u32) -> Outcome
    requires aligned { regs.old.pc % 4 ≡ 0 }
    requires ready { M.ready mem.old }
    ensures ready { M.ready mem.new }
    ensures done { Executed (word_effect rv64i word)
        regs.old (M.memory mem.old) regs.new (M.memory mem.new) result }
    ensures made { Performs M.fetched M.loaded M.stored
        (word_effect rv64i word regs.old (M.memory mem.old)).calls mem.old (full_in result) mem.new }
{
    match decode(word) {
        Some(i) => {
            let action = action_on(&i, regs);
            perform(action, i.rd, regs, mem)
        }
        None => Outcome::Fault(FaultKind::Illegal, regs.pc()),
    }
}
