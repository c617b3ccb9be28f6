ghost use Rattle.std.specs.Prelude.{◌≡◌, ◌≢◌, ◌⊎◌, ◌≤◌, true, IsSome, None, map, string_bytes};
ghost use Rattle.workload.specs.Script.{made_script};
ghost use Rattle.workload.specs.File.{made_file};
ghost use Rattle.overlay_top.specs.Outcome.{asking_of, chosen_files, chosen_script, names_asked, run_asking, run_outcome, said, said_outcome};
ghost use Rattle.overlay_top.specs.InOrder.{is_in_order};
ghost use Rattle.overlay_top.specs.Unbounded.{EndsUnbounded};
ghost use Rattle.overlay_top.specs.Words.{AreInRange, seed_set, settings_of};
ghost use Rattle.overlay_top.specs.Status.{code_of};
ghost use Rattle.overlay_top.specs.Running.{AsksAs, AsksInOrder};
ghost use Rattle.overlay_top.specs.Outside.{ShelfSound, SinkRose, SinkSound, SourceSound};
ghost use Rattle.overlay_top.specs.Ends.{Ends, EndsAs, EndsMade, EndsWith, IsCompleteWith, IsTold, NoFault, ReadCaused, Refuses, SaysAt, SaysWith, TakesAs, TakesAt, TakesWith, status_of, world_of};

use crate::making::made_outside;
use crate::reading::{ReadError, read_script};
use crate::running::{Halt, run};
use crate::sending::Report;
use crate::status::Status;
use crate::words::{Settings, WordsError, read_words};
use ovl_io::{Shelf, Sink, Source};
use report_text::{Line, bad_line};
use script_text::{ScriptError, line_count, parse};
use sizes::MOST_SCRIPT_LINES;
use std::alloc::Global;

/// The status of a command that isn't done.
fn status_of(halt: Halt) -> Status
    ensures { result ≡ status_of halt }
{
    match halt {
        Halt::Missing | Halt::FetchFailed => Status::ReadFailed,
        Halt::TooLong => Status::TooLong,
        Halt::Memory => Status::NoMemory,
        Halt::SendFailed => Status::WriteFailed,
    }
}

/// Reports why a script has no commands.
fn refuse<K: Sink>(error: ScriptError, report: &mut Report<K>) -> Status
    ensures refuses { Refuses K.Sink error report.old.sink.now report.new.sink.now result }
    ensures same { report.new.sink.ghost_name ≡ report.old.sink.ghost_name }
{
    let k = match error {
        ScriptError::Line(k) => k,
        ScriptError::Memory => return Status::NoMemory,
    };
    bad_line(k, &mut report.line);
    match report.send() {
        Ok(()) => Status::BadLine,
        Err(_) => Status::WriteFailed,
    }
}

/// Reads a script, parses it whole, and does its commands.
fn run_script<S: Source, H: Shelf, K: Sink>(
    alloc: Global,
    settings: Settings,
    script: &mut S,
    shelf: &mut H,
    sink: &mut K,
) -> Status
    requires { AreInRange settings }
    ensures ends { S.tells → H.tells → Ends S.Source H.Shelf K.Sink
        (said_outcome settings (said (S.left script.old)) (H.files shelf.old)) (names_asked (S.left script.old))
        (world_of script.old shelf.old sink.old) (world_of script.new shelf.new sink.new) result }
    ensures takes { S.tells → TakesAt S.Source H.Shelf
        (world_of script.old shelf.old sink.old) (world_of script.new shelf.new sink.new) result }
    ensures says { S.tells → SaysAt K.Sink (S.left script.old) sink.old sink.new result }
    ensures asked { S.tells → AsksInOrder H.Shelf (names_asked (S.left script.old)) shelf.old shelf.new }
    ensures unasked { result ≡ Status.BadLine → shelf.new ≡ shelf.old }
    ensures other { result ≢ Status.BadWords }
    ensures read_caused { result ≡ Status.ReadFailed → ReadCaused S.Source H.Shelf
        (world_of script.old shelf.old sink.old) (world_of script.new shelf.new sink.new) }
    ensures write_caused { result ≡ Status.WriteFailed → SinkRose K.Sink sink.old sink.new }
    ensures source_sound { result ≢ Status.ReadFailed → SourceSound S.Source script.old script.new }
    ensures shelf_sound { result ≢ Status.ReadFailed → ShelfSound H.Shelf shelf.old shelf.new }
    ensures sink_sound { result ≢ Status.WriteFailed → SinkSound K.Sink sink.old sink.new }
{
    let bytes = match read_script(alloc, script) {
        Ok(bytes) => bytes,
        Err(ReadError::Failed) => return Status::ReadFailed,
        Err(ReadError::TooLong) => return Status::TooLong,
        Err(ReadError::Memory) => return Status::NoMemory,
    };
    let bytes = bytes.as_slice();
    if line_count(bytes) > MOST_SCRIPT_LINES {
        return Status::TooLong;
    }
    let mut report = Report {
        sink,
        line: Line::new(),
    };
    let commands = match parse(alloc, bytes) {
        Ok(commands) => commands,
        Err(error) => return refuse(error, &mut report),
    };
    match run(alloc, settings, commands.as_slice(), shelf, &mut report) {
        Ok(()) => Status::Done,
        Err(halt) => status_of(halt),
    }
}

/// Runs what is made of a seed.
fn run_made<K: Sink>(alloc: Global, settings: Settings, seed: u64, sink: &mut K) -> Status
    requires { AreInRange settings }
    ensures ends { EndsMade K.Sink
        (said_outcome settings (said (made_script seed)) (λ _. Some made_file)) sink.old sink.new result }
    ensures says { SaysAt K.Sink (made_script seed) sink.old sink.new result }
    ensures read { result ≢ Status.ReadFailed }
    ensures other { result ≢ Status.BadWords }
    ensures write_caused { result ≡ Status.WriteFailed → SinkRose K.Sink sink.old sink.new }
    ensures sink_sound { result ≢ Status.WriteFailed → SinkSound K.Sink sink.old sink.new }
{
    match made_outside(alloc, seed) {
        Ok((mut script, mut shelf)) => run_script(alloc, settings, &mut script, &mut shelf, sink),
        Err(_) => Status::NoMemory,
    }
}

/// Runs what is made of the seed, where one is set, and asks nothing of the outside; else the script of the source.
fn run_chosen<S: Source, H: Shelf, K: Sink>(
    alloc: Global,
    settings: Settings,
    script: &mut S,
    shelf: &mut H,
    sink: &mut K,
) -> Status
    requires { AreInRange settings }
    ensures ends { IsTold settings.seed S.tells H.tells → EndsAs S.Source H.Shelf K.Sink
        (said_outcome settings (said (chosen_script settings.seed (S.left script.old)))
        (chosen_files settings.seed (H.files shelf.old)))
        (asking_of settings.seed (S.left script.old))
        (world_of script.old shelf.old sink.old) (world_of script.new shelf.new sink.new) result }
    ensures takes { S.tells → TakesAs S.Source H.Shelf (asking_of settings.seed (S.left script.old))
        (world_of script.old shelf.old sink.old) (world_of script.new shelf.new sink.new) result }
    ensures says { S.tells →
        SaysAt K.Sink (chosen_script settings.seed (S.left script.old)) sink.old sink.new result }
    ensures asked { S.tells →
        AsksAs H.Shelf (asking_of settings.seed (S.left script.old)) shelf.old shelf.new }
    ensures unasked { result ≡ Status.BadLine → shelf.new ≡ shelf.old }
    ensures read { IsSome settings.seed → result ≢ Status.ReadFailed }
    ensures other { result ≢ Status.BadWords }
    ensures read_caused { result ≡ Status.ReadFailed → ReadCaused S.Source H.Shelf
        (world_of script.old shelf.old sink.old) (world_of script.new shelf.new sink.new) }
    ensures write_caused { result ≡ Status.WriteFailed → SinkRose K.Sink sink.old sink.new }
    ensures source_sound { result ≢ Status.ReadFailed → SourceSound S.Source script.old script.new }
    ensures shelf_sound { result ≢ Status.ReadFailed → ShelfSound H.Shelf shelf.old shelf.new }
    ensures sink_sound { result ≢ Status.WriteFailed → SinkSound K.Sink sink.old sink.new }
{
    let seed = settings.seed;
    match seed {
        Some(seed) => run_made(alloc, settings, seed, sink),
        None => run_script(alloc, settings, script, shelf, sink),
    }
}

/// All that the program does.
///
/// `words` are the arguments without the program's name: `--frames N`, how many frames of 4,096 bytes the
/// machine has, `--quantum Q`, how many turns a process takes before the next one does, and `--make SEED`,
/// out of which the script and the file that it loads are made. Each comes at most once, in any order, also
/// as `--frames=N`; a number is spelled as `parse` of a `u32`, or for the seed of a `u64`, takes it.
///
/// | Word | Range | Where it isn't given |
/// |---|---|---|
/// | `--frames N` | 1 to 65,536 | 1,024 |
/// | `--quantum Q` | 1 to 1,000,000 | 100 |
/// | `--make SEED` | 0 to 2^64 - 1 | script and files are those of the source and the shelf |
///
/// With a seed neither the source nor the shelf is asked, and the status is never 3.
///
/// The script is read to its end, or to one byte above 1,048,576, may have 65,536 lines, and is parsed whole
/// before a command is done. A command's file is fetched by its name, of 1 to 255 bytes, and may have up to 16 MiB. Each line
/// is written as it arises. Answers the status:
///
/// | Status | |
/// |---|---|
/// | 0 | all commands are done |
/// | 1 | want of memory |
/// | 2 | the words aren't the command's: nothing was read or written |
/// | 3 | a file isn't there; the source or the shelf failed |
/// | 4 | the sink failed |
/// | 5 | a line of the script is outside the grammar |
/// | 6 | the script or a file is too long |
pub fn run_program<S: Source, H: Shelf, K: Sink>(
    alloc: Global,
    words: &[String],
    script: &mut S,
    shelf: &mut H,
    sink: &mut K,
) -> u8
    ensures headline { S.tells → H.tells → EndsWith S.Source H.Shelf K.Sink
        (run_outcome (map string_bytes words.now) (S.left script.old) (H.files shelf.old))
        (run_asking (map string_bytes words.now) (S.left script.old))
        (world_of script.old shelf.old sink.old) (world_of script.new shelf.new sink.new) result }

    // Where no line says `full`, also with the outcome of the unbounded machine, which copies and has no ledger.
    ensures unbounded { S.tells → H.tells → EndsUnbounded S.Source H.Shelf K.Sink
        (map string_bytes words.now) (S.left script.old) (H.files shelf.old)
        (run_asking (map string_bytes words.now) (S.left script.old))
        (world_of script.old shelf.old sink.old) (world_of script.new shelf.new sink.new) result }

    // With a seed that holds whatever source and shelf tell.
    ensures made { IsSome (seed_set (map string_bytes words.now)) → EndsWith S.Source H.Shelf K.Sink
        (run_outcome (map string_bytes words.now) (S.left script.old) (H.files shelf.old))
        (run_asking (map string_bytes words.now) (S.left script.old))
        (world_of script.old shelf.old sink.old) (world_of script.new shelf.new sink.new) result }
    ensures made_unread { IsSome (seed_set (map string_bytes words.now)) → result ≢ 3 }

    ensures words { result ≡ 2 → settings_of (map string_bytes words.now) ≡ None }
    ensures refused { settings_of (map string_bytes words.now) ≡ None → ((result ≡ 2) ⊎ (result ≡ 1))
        × (world_of script.new shelf.new sink.new ≡ world_of script.old shelf.old sink.old) }
    ensures untouched { result ≡ 2 →
        world_of script.new shelf.new sink.new ≡ world_of script.old shelf.old sink.old }
    ensures takes { S.tells → TakesWith S.Source H.Shelf
        (run_asking (map string_bytes words.now) (S.left script.old))
        (world_of script.old shelf.old sink.old) (world_of script.new shelf.new sink.new) result }
    ensures says { S.tells → SaysWith K.Sink
        (chosen_script (seed_set (map string_bytes words.now)) (S.left script.old)) sink.old sink.new result }
    ensures asked { S.tells →
        AsksAs H.Shelf (run_asking (map string_bytes words.now) (S.left script.old)) shelf.old shelf.new }
    ensures unasked { result ≡ 5 → shelf.new ≡ shelf.old }
    ensures status3 { result ≡ 3 → ReadCaused S.Source H.Shelf
        (world_of script.old shelf.old sink.old) (world_of script.new shelf.new sink.new) }
    ensures status4 { result ≡ 4 → SinkRose K.Sink sink.old sink.new }
    ensures source_sound { result ≢ 3 → SourceSound S.Source script.old script.new }
    ensures shelf_sound { result ≢ 3 → ShelfSound H.Shelf shelf.old shelf.new }
    ensures sink_sound { result ≢ 4 → SinkSound K.Sink sink.old sink.new }
    ensures known { result ≤ 6 }
    ensures complete { S.tells → H.tells
        → (run_outcome (map string_bytes words.now) (S.left script.old) (H.files shelf.old)).status ≡ Status.Done
        → NoFault S.Source H.Shelf K.Sink (world_of script.old shelf.old sink.old) (world_of script.new shelf.new sink.new)
        → IsCompleteWith K.Sink (run_outcome (map string_bytes words.now) (S.left script.old) (H.files shelf.old)) sink.old sink.new result }

    // That status is 0 exactly where all is in order with the words, the script and the files.
    ensures in_order { S.tells → H.tells
        → is_in_order (map string_bytes words.now) (S.left script.old) (H.files shelf.old) ≡ true
        → NoFault S.Source H.Shelf K.Sink (world_of script.old shelf.old sink.old) (world_of script.new shelf.new sink.new)
        → IsCompleteWith K.Sink (run_outcome (map string_bytes words.now) (S.left script.old) (H.files shelf.old)) sink.old sink.new result }
    ensures status0 { S.tells → H.tells → result ≡ 0
        → is_in_order (map string_bytes words.now) (S.left script.old) (H.files shelf.old) ≡ true }
{
    match read_words(alloc, words) {
        Ok(settings) => run_chosen(alloc, settings, script, shelf, sink).code(),
        Err(WordsError::Refused) => Status::BadWords.code(),
        Err(WordsError::Memory) => Status::NoMemory.code(),
    }
}
