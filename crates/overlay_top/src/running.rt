ghost use Rattle.std.specs.Prelude.{◌≡◌, ◌≤◌, ℕ, List, Err, [], ◌∷◌, map, vec_len, IfOk, OnOk};
ghost use Rattle.std.specs.List.{All};
ghost use Rattle.ovl_io.specs.Outside.{AsksFor, HasName};
ghost use Rattle.sizes.specs.declared.TheConstants.{MOST_FILE_BYTES};
ghost use Rattle.script_text.specs.Given.{IsGiven, asks};
ghost use Rattle.command_core.specs.Commands.{asked_by, file_asked};
ghost use Rattle.overlay_top.specs.Outcome.{command_done, named, run_all};
ghost use Rattle.overlay_top.specs.Outside.{FetchedFor, ShelfBy, SinkBy};
ghost use Rattle.overlay_top.specs.Words.{AreInRange};
ghost use Rattle.overlay_top.specs.Running.{AsksInOrder, FailedFor, FetchesFor, GivesAll, GivesFile, LacksMemory, LeavesOn, RunEnds, SendsOn, WasGiven};

use crate::commands::do_command;
use crate::sending::Report;
use crate::words::Settings;
use command_core::Session;
use ovl_io::{Failed, Shelf, ShelfError, Sink};
use script_text::Command;
use std::alloc::{AllocError, Global};

/// Why a command isn't done.
#[derive(Clone, Copy, Debug, PartialEq, Eq)]
pub enum Halt {
    /// The file that it names isn't there.
    Missing,
    /// The fetch of the file failed.
    FetchFailed,
    /// The file has more bytes than a file may have.
    TooLong,
    /// There is no memory.
    Memory,
    /// The sink failed.
    SendFailed,
}

/// Fetches the file that a command names.
fn fetch<H: Shelf>(alloc: Global, name: &[u8], shelf: &mut H) -> Result<Vec<u8>, Halt>
    requires { HasName name.now }
    ensures gives { H.tells → GivesFile (λ file. file.items) (asked_by (H.files shelf.old name.now)) result }
    ensures faults { ShelfBy H.Shelf shelf.old shelf.new result }
    ensures refused { FetchedFor H.Shelf shelf.new name.now result }
    ensures kept { H.tells → (other : List ℕ) → H.files shelf.new other ≡ H.files shelf.old other }
    ensures fetched { H.fetched shelf.old name.now shelf.new }
    ensures small { IfOk result (λ file. vec_len file ≤ MOST_FILE_BYTES) }
{
    match shelf.fetch(alloc, name) {
        Ok(file) => Ok(file),
        Err(ShelfError::Failed) => Err(Halt::FetchFailed),
        Err(ShelfError::Missing) => Err(Halt::Missing),
        Err(ShelfError::TooLong) => Err(Halt::TooLong),
        Err(ShelfError::Memory) => Err(Halt::Memory),
    }
}

impl From<Failed> for Halt {
    ghost use Rattle.overlay_top.specs.declared.running.Halt.TheVariants.{SendFailed};

    ghost from_gives = { λ _ e. e ≡ SendFailed };

    fn from(_: Failed) -> Halt {
        Halt::SendFailed
    }
}

impl From<AllocError> for Halt {
    ghost use Rattle.overlay_top.specs.declared.running.Halt.TheVariants.{Memory};

    ghost from_gives = { λ _ e. e ≡ Memory };

    fn from(_: AllocError) -> Halt {
        Halt::Memory
    }
}

/// Fetches the file that a command asks for; one that asks for none gets no bytes.
fn fetch_for<H: Shelf>(alloc: Global, command: &Command, shelf: &mut H) -> Result<Vec<u8>, Halt>
    requires { IsGiven command.now }
    ensures given { H.tells →
        GivesAll (λ file. file.items) (file_asked (H.files shelf.old) command.now) result }
    ensures faults { ShelfBy H.Shelf shelf.old shelf.new result }
    ensures failed { FetchesFor H.Shelf shelf.new (asks command.now) result }
    ensures kept { H.tells → (other : List ℕ) → H.files shelf.new other ≡ H.files shelf.old other }
    ensures fetched { AsksFor H.fetched (named (asks command.now ∷ [])) shelf.old shelf.new }
    ensures small { IfOk result (λ file. vec_len file ≤ MOST_FILE_BYTES) }
{
    match command.file() {
        Some(name) => fetch(alloc, name.as_slice(), shelf),
        None => Ok(Vec::new(alloc)),
    }
}

/// Does one command.
fn perform<H: Shelf, K: Sink>(
    alloc: Global,
    session: &mut Session,
    command: &Command,
    shelf: &mut H,
    report: &mut Report<K>,
) -> Result<(), Halt>
    requires given { IsGiven command.now }
    ensures given { H.tells → WasGiven (file_asked (H.files shelf.old) command.now) result }
    ensures sends { H.tells → SendsOn K.Sink report.old.sink.now
        (command_done session.old.modes (H.files shelf.old) command.now session.old.state).text report.new.sink.now result }
    ensures after { H.tells →
        LeavesOn (command_done session.old.modes (H.files shelf.old) command.now session.old.state) session.new result }
    ensures modes { session.new.modes ≡ session.old.modes }
    ensures shelf { ShelfBy H.Shelf shelf.old shelf.new result }
    ensures sink { SinkBy K.Sink report.old.sink.now report.new.sink.now result }
    ensures same { report.new.sink.ghost_name ≡ report.old.sink.ghost_name }
    ensures failed { FailedFor H.Shelf shelf.new (asks command.now) result }
    ensures lacks { H.tells → LacksMemory (file_asked (H.files shelf.old) command.now)
        (command_done session.old.modes (H.files shelf.old) command.now session.old.state) result }
    ensures kept { H.tells → (other : List ℕ) → H.files shelf.new other ≡ H.files shelf.old other }
    ensures fetched { AsksFor H.fetched (named (asks command.now ∷ [])) shelf.old shelf.new }
{
    let file = fetch_for(alloc, command, shelf)?;
    do_command(session, command, file.as_slice(), report)
}

/// Does the commands in order, from a machine without a process. Each line is sent as it arises.
pub(crate) fn run<H: Shelf, K: Sink>(
    alloc: Global,
    settings: Settings,
    commands: &[Command],
    shelf: &mut H,
    report: &mut Report<K>,
) -> Result<(), Halt>
    requires set { AreInRange settings }
    requires given { All IsGiven commands.now }
    ensures ends { H.tells →
        RunEnds H.Shelf K.Sink (run_all settings commands.now (H.files shelf.old))
        (map asks commands.now) shelf.old shelf.new report.old.sink.now report.new.sink.now result }
    ensures asked { AsksInOrder H.Shelf (map asks commands.now) shelf.old shelf.new }
    ensures shelf { ShelfBy H.Shelf shelf.old shelf.new result }
    ensures sink { SinkBy K.Sink report.old.sink.now report.new.sink.now result }
    ensures same { report.new.sink.ghost_name ≡ report.old.sink.ghost_name }
{
    let mut session = Session::new(alloc, settings.frames, settings.quantum)?;
    session.set_extension(settings.extension);
    session.set_calls(settings.calls);
    'running: for command in commands {
        perform(alloc, &mut session, command, shelf, report)?;
    }
    Ok(())
}
