ghost use Rattle.std.specs.Prelude.{◌≡◌};
ghost use Rattle.std.specs.Option.{option_copied};
ghost use Rattle.script_text.specs.Given.{asks};

use ovl_io::{Bytes, Perms};
use std::alloc::{AllocError, AllocFailed};

/// A command of a script. Processes are given by number, names and files as their bytes, addresses and
/// lengths in bytes.
#[derive(Debug, Drop)]
pub enum Command {
    /// Loads a file and gives its process so many turns.
    Exec(Bytes, u32),
    /// Makes a running process from a file.
    Load(Bytes),
    /// Assembles a file's text, and makes a running process from it.
    Asm(Bytes),
    /// Makes a running process with a process's registers and memory.
    Fork(u16),
    /// So many turns, by round robin.
    Run(u32),
    /// So many turns of one process.
    Step(u16, u32),
    /// Keeps a process's registers, state and memory under a name.
    Checkpoint(u16, Bytes),
    /// Gives a process what was kept under a name.
    Restore(u16, Bytes),
    /// Gives up what was kept under a name.
    Forget(Bytes),
    /// Prints what was kept under a name as lines that differ from what was kept under another.
    Export(Bytes, Bytes),
    /// Keeps under a name what such lines of a file make of what was kept under another: the name, the other one,
    /// and the file.
    Import(Bytes, Bytes, Bytes),
    /// Begins a speculation of a process.
    Speculate(u16),
    /// Ends it, and keeps what was done.
    Commit(u16),
    /// Ends it, and goes back to where it began.
    Discard(u16),
    /// Promotes the page of an address.
    Promote(u16, u64),
    /// Promotes each page of a process.
    PromoteAll(u16),
    /// Puts a process's page of an address on the frame of the page of another address, of another process or of
    /// the same.
    Dedup(u16, u64, u16, u64),
    /// Puts each page of a process that another has too on that one's frame, where that may be done.
    DedupAll(u16, u16),
    /// Moves segments until free units lie together.
    Compact,
    /// Adds so many zero pages from an address on, with these permissions.
    Map(u16, u64, u32, Perms),
    /// Gives up so many pages from an address on.
    Unmap(u16, u64, u32),
    /// Gives up a process.
    Drop(u16),
    /// Prints a process's registers.
    Regs(u16),
    /// Prints so many bytes from an address on.
    Dump(u16, u64, u32),
    /// Stores bytes at an address.
    Poke(u16, u64, Bytes),
    /// Sets a register, by its number, or the pc, as number 32.
    Set(u16, u8, u64),
    /// Adds a breakpoint at an address.
    Break(u16, u64),
    /// Removes it.
    Unbreak(u16, u64),
    /// Prints so many words from an address on as instructions.
    Disasm(u16, u64, u32),
    /// Prints processes and checkpoints.
    List,
    /// Prints counts.
    Stats,
}

impl Command {
    /// The name of the file that it asks for, if it asks for one.
    pub fn file(&self) -> Option<&Bytes>
        ensures { option_copied result ≡ asks self.now }
    {
        match self {
            Command::Exec(name, _) => Some(name),
            Command::Load(name) => Some(name),
            Command::Asm(name) => Some(name),
            Command::Import(_, _, file) => Some(file),
            Command::Run(_)
            | Command::Step(_, _)
            | Command::List
            | Command::Stats
            | Command::Regs(_)
            | Command::Dump(_, _, _)
            | Command::Disasm(_, _, _)
            | Command::Fork(_)
            | Command::Checkpoint(_, _)
            | Command::Restore(_, _)
            | Command::Forget(_)
            | Command::Export(_, _)
            | Command::Speculate(_)
            | Command::Commit(_)
            | Command::Discard(_)
            | Command::Promote(_, _)
            | Command::PromoteAll(_)
            | Command::Dedup(_, _, _, _)
            | Command::DedupAll(_, _)
            | Command::Compact
            | Command::Map(_, _, _, _)
            | Command::Unmap(_, _, _)
            | Command::Drop(_)
            | Command::Poke(_, _, _)
            | Command::Set(_, _, _)
            | Command::Break(_, _)
            | Command::Unbreak(_, _) => None,
        }
    }
}

/// Why a script has no commands.
#[derive(Clone, Copy, Debug, PartialEq, Eq)]
pub enum ScriptError {
    /// The first line that is outside the grammar, from 1.
    Line(u32),
    /// There is no memory for them.
    Memory,
}

impl From<AllocError> for ScriptError {
    ghost use Rattle.script_text.specs.declared.command.ScriptError.TheVariants.{Memory};

    ghost from_gives = { λ _ e. e ≡ Memory };

    fn from(_: AllocError) -> ScriptError {
        ScriptError::Memory
    }
}

impl<T: Drop> From<AllocFailed<T>> for ScriptError {
    ghost use Rattle.script_text.specs.declared.command.ScriptError.TheVariants.{Memory};

    ghost from_gives = { λ _ e. e ≡ Memory };

    fn from(_: AllocFailed<T>) -> ScriptError {
        ScriptError::Memory
    }
}

/// What a line is: a command, no command, or outside the grammar.
#[derive(Debug, Drop)]
pub(crate) enum Meaning {
    Does(Command),
    Nothing,
    Outside,
}
