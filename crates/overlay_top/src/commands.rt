ghost use Rattle.std.specs.Prelude.{◌≡◌, ◌<◌, ◌≤◌, [], None, length};
ghost use Rattle.std.specs.FinMap.{entries};
ghost use Rattle.script_text.specs.Given.{IsGiven, asks};
ghost use Rattle.script_text.specs.declared.TheConstants.{MOST_WORDS};
ghost use Rattle.sizes.specs.declared.TheConstants.{MOST_FILE_BYTES};
ghost use Rattle.report_text.specs.Answers.{HasAnswerLine, IsCheckpointName, answer_text};
ghost use Rattle.command_core.specs.Changes.{CanBeTold, row_in};
ghost use Rattle.command_core.specs.State.{registry_of};
ghost use Rattle.command_core.specs.Commands.{RunsLoaded, asm_told, checkpoints_text, disasm_done, dump_done, exec_done, exec_turns, export_done, import_told, list_text, load_told, performed_in, processes_text, registers_text, regs_done, row_told, rules, run_done, stats_text, step_done, takes_left, tells_exec, register_value};
ghost use Rattle.overlay_top.specs.Sending.{SendsText};
ghost use Rattle.overlay_top.specs.Printing.{answer_unexported, view_text};
ghost use Rattle.overlay_top.specs.Running.{DoesCommand, TakesOn, TellsAnswer};

use crate::printing::{send_bytes, send_image, send_words};
use crate::running::Halt;
use crate::sending::Report;
use command_core::{ExportError, ProcessView, Running, Session, WORD_BYTES};
use ovl_io::{Bytes, Failed, Sink};
use report_text::{
    Answer, answer_line, checkpoint_line, list_line, process_line, register_line, regs_line,
    stats_line, stop_line,
};
use rv_execute::Regs;
use script_text::Command;

/// Sends the line of an answer.
fn send_answer<K: Sink>(answer: &Answer, report: &mut Report<K>) -> Result<(), Failed>
    requires { HasAnswerLine answer.now }
    ensures sends { SendsText K.Sink report.old.sink.now (answer_text answer.now) report.new.sink.now result }
    ensures same { report.new.sink.ghost_name ≡ report.old.sink.ghost_name }
{
    answer_line(answer, &mut report.line);
    report.send()
}

/// Sends the line of what came of a change. For want of memory there is none.
fn tell<K: Sink>(answer: &Answer, report: &mut Report<K>) -> Result<(), Halt>
    requires { CanBeTold answer.now }
    ensures tells { TellsAnswer K.Sink answer.now report.old.sink.now report.new.sink.now result }
    ensures same { report.new.sink.ghost_name ≡ report.old.sink.ghost_name }
{
    if let Answer::Memory = answer {
        return Err(Halt::Memory);
    }
    match send_answer(answer, report) {
        Ok(()) => Ok(()),
        Err(_) => Err(Halt::SendFailed),
    }
}

/// Takes the turns that are left of a run, and sends each line as it arises, with the last one.
fn take_turns<K: Sink>(
    session: &mut Session,
    running: &mut Running,
    report: &mut Report<K>,
) -> Result<(), Failed>
    ensures takes { TakesOn K.Sink report.old.sink.now report.new.sink.now
        (takes_left running.old session.old.state) session.old session.new result }
    ensures same { report.new.sink.ghost_name ≡ report.old.sink.ghost_name }
{
    'turns: while session.turn_line(running, &mut report.line) {
        report.send()?;
    }
    match running.stop() {
        Some(stop) => stop_line(running.taken(), &stop, &mut report.line),
        None => unreachable!(),
    }
    report.send()
}

/// Makes a process of a file.
fn load<K: Sink>(session: &mut Session, file: &[u8], report: &mut Report<K>) -> Result<(), Halt>
    ensures does { DoesCommand K.Sink report.old.sink.now report.new.sink.now
        (load_told rules file.now session.old.state) session.old session.new result }
    ensures same { report.new.sink.ghost_name ≡ report.old.sink.ghost_name }
{
    let answer = session.load(file);
    tell(&answer, report)
}

/// Assembles a text, and makes a process of its file.
fn asm<K: Sink>(session: &mut Session, text: &[u8], report: &mut Report<K>) -> Result<(), Halt>
    requires { length text.now ≤ MOST_FILE_BYTES }
    ensures does { DoesCommand K.Sink report.old.sink.now report.new.sink.now
        (asm_told rules text.now session.old.state) session.old session.new result }
    ensures same { report.new.sink.ghost_name ≡ report.old.sink.ghost_name }
{
    let answer = session.assemble(text);
    tell(&answer, report)
}

/// Makes a checkpoint of a file that says an image over another one.
fn import<K: Sink>(
    session: &mut Session,
    name: &Bytes,
    base: &Bytes,
    file: &[u8],
    report: &mut Report<K>,
) -> Result<(), Halt>
    requires named { IsCheckpointName name.now }
    requires based { IsCheckpointName base.now }
    requires small { length file.now ≤ MOST_FILE_BYTES }
    ensures does { DoesCommand K.Sink report.old.sink.now report.new.sink.now
        (import_told rules name.now base.now file.now session.old.state) session.old session.new result }
    ensures same { report.new.sink.ghost_name ≡ report.old.sink.ghost_name }
{
    let answer = session.import(name, base, file);
    tell(&answer, report)
}

/// What is told where a checkpoint isn't exported.
fn not_exported(error: ExportError) -> Answer
    ensures { result ≡ answer_unexported error }
{
    match error {
        ExportError::Refused(code) => Answer::Refused(code),
        ExportError::Memory => Answer::Memory,
    }
}

/// Prints the image of a checkpoint over another one.
fn export<K: Sink>(
    session: &Session,
    name: &Bytes,
    base: &Bytes,
    report: &mut Report<K>,
) -> Result<(), Halt>
    requires named { IsCheckpointName name.now }
    requires based { IsCheckpointName base.now }
    ensures does { DoesCommand K.Sink report.old.sink.now report.new.sink.now
        (export_done rules name.now base.now session.now.state) session.now session.now result }
    ensures same { report.new.sink.ghost_name ≡ report.old.sink.ghost_name }
{
    match session.export(name, base) {
        Ok(image) => match send_image(name, base, image.as_slice(), report) {
            Ok(()) => Ok(()),
            Err(_) => Err(Halt::SendFailed),
        },
        Err(error) => tell(&not_exported(error), report),
    }
}

/// Gives a process that was just made so many turns; nothing follows a load that made none.
fn turns_of_loaded<K: Sink>(
    session: &mut Session,
    answer: &Answer,
    turns: u32,
    report: &mut Report<K>,
) -> Result<(), Failed>
    requires { RunsLoaded answer.now session.old.state }
    ensures takes { TakesOn K.Sink report.old.sink.now report.new.sink.now
        (exec_turns rules session.old.modes.calls turns answer.now session.old.state) session.old session.new result }
    ensures same { report.new.sink.ghost_name ≡ report.old.sink.ghost_name }
{
    match answer {
        Answer::Loaded(p, _, _) => match session.begin_step(*p, turns) {
            Ok(running) => {
                let mut running = running;
                take_turns(session, &mut running, report)
            }
            Err(_) => unreachable!(),
        },
        Answer::Done => Ok(()),
        Answer::Forked(_, _) => Ok(()),
        Answer::Saved(_, _, _) => Ok(()),
        Answer::Imported(_, _, _) => Ok(()),
        Answer::Shared(_) => Ok(()),
        Answer::Refused(_) => Ok(()),
        Answer::Full(_, _) => Ok(()),
        Answer::Memory => Ok(()),
    }
}

/// Sends the line of a load's answer, and gives the process that it made so many turns.
fn tell_loaded<K: Sink>(
    session: &mut Session,
    answer: &Answer,
    turns: u32,
    report: &mut Report<K>,
) -> Result<(), Failed>
    requires told { HasAnswerLine answer.now }
    requires runs { RunsLoaded answer.now session.old.state }
    ensures takes { TakesOn K.Sink report.old.sink.now report.new.sink.now
        (tells_exec rules session.old.modes.calls turns answer.now session.old.state) session.old session.new result }
    ensures same { report.new.sink.ghost_name ≡ report.old.sink.ghost_name }
{
    match send_answer(answer, report) {
        Ok(()) => turns_of_loaded(session, answer, turns, report),
        Err(failed) => Err(failed),
    }
}

/// Makes a process of a file, and gives it so many turns.
fn exec<K: Sink>(
    session: &mut Session,
    file: &[u8],
    turns: u32,
    report: &mut Report<K>,
) -> Result<(), Halt>
    ensures does { DoesCommand K.Sink report.old.sink.now report.new.sink.now
        (exec_done rules session.old.modes.calls file.now turns session.old.state) session.old session.new result }
    ensures same { report.new.sink.ghost_name ≡ report.old.sink.ghost_name }
{
    let answer = session.load(file);
    if let Answer::Memory = answer {
        return Err(Halt::Memory);
    }
    match tell_loaded(session, &answer, turns, report) {
        Ok(()) => Ok(()),
        Err(_) => Err(Halt::SendFailed),
    }
}

/// Gives one process so many turns, where it is there and runs.
fn step<K: Sink>(
    session: &mut Session,
    p: u16,
    turns: u32,
    report: &mut Report<K>,
) -> Result<(), Failed>
    ensures takes { TakesOn K.Sink report.old.sink.now report.new.sink.now
        (step_done rules session.old.modes.calls p turns session.old.state) session.old session.new result }
    ensures same { report.new.sink.ghost_name ≡ report.old.sink.ghost_name }
{
    match session.begin_step(p, turns) {
        Ok(running) => {
            let mut running = running;
            take_turns(session, &mut running, report)
        }
        Err(code) => send_answer(&Answer::Refused(code), report),
    }
}

/// Gives processes so many turns, by round robin.
fn run_all<K: Sink>(session: &mut Session, turns: u32, report: &mut Report<K>) -> Result<(), Failed>
    ensures takes { TakesOn K.Sink report.old.sink.now report.new.sink.now
        (run_done rules session.old.modes.quantum session.old.modes.calls turns session.old.state) session.old session.new result }
    ensures same { report.new.sink.ghost_name ≡ report.old.sink.ghost_name }
{
    let mut running = session.begin_run(turns);
    take_turns(session, &mut running, report)
}

/// Does a change, and sends the line of its answer.
fn change<K: Sink>(
    session: &mut Session,
    command: &Command,
    report: &mut Report<K>,
) -> Result<(), Halt>
    requires asks { asks command.now ≡ None }
    requires given { IsGiven command.now }
    ensures does { DoesCommand K.Sink report.old.sink.now report.new.sink.now
        (row_told rules (row_in [] command.now session.old.state) session.old.state)
        session.old session.new result }
    ensures same { report.new.sink.ghost_name ≡ report.old.sink.ghost_name }
{
    let answer = session.change(command);
    tell(&answer, report)
}

/// How many processes there are.
fn count_processes(session: &Session) -> u32
    ensures { result ≡ length (entries session.now.state.wholes.processes) }
{
    let mut count = 0u32;
    let mut from = 0u16;
    'counting: while let Some(p) = session.next_process(from) {
        count += 1;
        from = p + 1;
    }
    count
}

/// Sends the lines of all processes, by number.
fn list_processes<K: Sink>(session: &Session, report: &mut Report<K>) -> Result<(), Failed>
    ensures sends { SendsText K.Sink report.old.sink.now
        (processes_text (registry_of session.now.state)) report.new.sink.now result }
    ensures same { report.new.sink.ghost_name ≡ report.old.sink.ghost_name }
{
    let mut from = 0u16;
    'listing: while let Some(p) = session.next_process(from) {
        match session.look_process(p) {
            Ok(view) => process_line(
                p,
                &view.state,
                view.speculating,
                view.pages,
                &mut report.line,
            ),
            Err(_) => unreachable!(),
        }
        report.send()?;
        from = p + 1;
    }
    Ok(())
}

/// How many checkpoints there are.
fn count_checkpoints(session: &Session) -> u32
    ensures { result ≡ length session.now.state.checkpoints }
{
    let mut count = 0u32;
    'counting: while let Some(_) = session.checkpoint_at(count as usize) {
        count += 1;
    }
    count
}

/// Sends the lines of all checkpoints, in the order of making.
fn list_checkpoints<K: Sink>(session: &Session, report: &mut Report<K>) -> Result<(), Failed>
    ensures sends { SendsText K.Sink report.old.sink.now
        (checkpoints_text (registry_of session.now.state)) report.new.sink.now result }
    ensures same { report.new.sink.ghost_name ≡ report.old.sink.ghost_name }
{
    let mut index = 0usize;
    'listing: while let Some(view) = session.checkpoint_at(index) {
        checkpoint_line(view.name, view.space, view.pages, &mut report.line);
        report.send()?;
        index += 1;
    }
    Ok(())
}

/// Lists the processes and the checkpoints.
fn list<K: Sink>(session: &Session, report: &mut Report<K>) -> Result<(), Failed>
    ensures sends { SendsText K.Sink report.old.sink.now (list_text (registry_of session.now.state))
        report.new.sink.now result }
    ensures same { report.new.sink.ghost_name ≡ report.old.sink.ghost_name }
{
    list_line(
        count_processes(session),
        count_checkpoints(session),
        &mut report.line,
    );
    report.send()?;
    list_processes(session, report)?;
    list_checkpoints(session, report)
}

/// The value of a register, by its number; of the pc, for 0.
fn register_value(regs: &Regs, i: u8) -> u64
    requires { i < 32 }
    ensures { result ≡ register_value regs.now i }
{
    if i == 0 { regs.pc() } else { regs.get(i) }
}

/// Sends the lines of the pc, and of x1 to x31.
fn send_registers<K: Sink>(regs: &Regs, report: &mut Report<K>) -> Result<(), Failed>
    ensures sends { SendsText K.Sink report.old.sink.now (registers_text regs.now)
        report.new.sink.now result }
    ensures same { report.new.sink.ghost_name ≡ report.old.sink.ghost_name }
{
    let mut i = 0u8;
    'sending: while i < 32 {
        register_line(i, register_value(regs, i), &mut report.line);
        report.send()?;
        i += 1;
    }
    Ok(())
}

/// Sends the lines of the state and the registers of a process that was looked up.
fn send_process<K: Sink>(p: u16, view: &ProcessView, report: &mut Report<K>) -> Result<(), Failed>
    ensures sends { SendsText K.Sink report.old.sink.now (view_text p view.now)
        report.new.sink.now result }
    ensures same { report.new.sink.ghost_name ≡ report.old.sink.ghost_name }
{
    regs_line(p, &view.state, view.speculating, &mut report.line);
    report.send()?;
    send_registers(&view.regs, report)
}

/// Prints the state and the registers of a process.
fn regs<K: Sink>(session: &Session, p: u16, report: &mut Report<K>) -> Result<(), Failed>
    ensures sends { SendsText K.Sink report.old.sink.now (regs_done rules p session.now.state).text
        report.new.sink.now result }
    ensures same { report.new.sink.ghost_name ≡ report.old.sink.ghost_name }
{
    match session.look_process(p) {
        Ok(view) => send_process(p, &view, report),
        Err(code) => send_answer(&Answer::Refused(code), report),
    }
}

/// Prints bytes of a process, where all are there.
fn dump<K: Sink>(
    session: &Session,
    p: u16,
    address: u64,
    count: u32,
    report: &mut Report<K>,
) -> Result<(), Failed>
    ensures sends { SendsText K.Sink report.old.sink.now
        (dump_done rules p address count session.now.state).text report.new.sink.now result }
    ensures same { report.new.sink.ghost_name ≡ report.old.sink.ghost_name }
{
    match session.can_read(p, address, count) {
        Ok(()) => send_bytes(session, p, address, count, report),
        Err(code) => send_answer(&Answer::Refused(code), report),
    }
}

/// Prints words of a process as instructions, where all their bytes are there.
fn disasm<K: Sink>(
    session: &Session,
    p: u16,
    address: u64,
    words: u32,
    report: &mut Report<K>,
) -> Result<(), Failed>
    requires { words ≤ MOST_WORDS }
    ensures sends { SendsText K.Sink report.old.sink.now
        (disasm_done rules session.now.modes.extension p address words session.now.state).text report.new.sink.now result }
    ensures same { report.new.sink.ghost_name ≡ report.old.sink.ghost_name }
{
    match session.can_read(p, address, WORD_BYTES as u32 * words) {
        Ok(()) => send_words(session, p, address, words, report),
        Err(code) => send_answer(&Answer::Refused(code), report),
    }
}

/// Prints the counts.
fn stats<K: Sink>(session: &Session, report: &mut Report<K>) -> Result<(), Failed>
    ensures sends { SendsText K.Sink report.old.sink.now (stats_text session.now.state)
        report.new.sink.now result }
    ensures same { report.new.sink.ghost_name ≡ report.old.sink.ghost_name }
{
    let counts = session.counts();
    stats_line(
        counts.units,
        counts.limit,
        counts.lines,
        counts.hits,
        counts.misses,
        &mut report.line,
    );
    report.send()
}

/// Does one command, with the file that it asks for.
pub(crate) fn do_command<K: Sink>(
    session: &mut Session,
    command: &Command,
    file: &[u8],
    report: &mut Report<K>,
) -> Result<(), Halt>
    requires given { IsGiven command.now }
    requires small { length file.now ≤ MOST_FILE_BYTES }
    ensures does { DoesCommand K.Sink report.old.sink.now report.new.sink.now
        (performed_in session.old file.now command.now) session.old session.new result }
    ensures same { report.new.sink.ghost_name ≡ report.old.sink.ghost_name }
{
    let sent = match command {
        Command::Exec(_, turns) => return exec(session, file, *turns, report),
        Command::Load(_) => return load(session, file, report),
        Command::Asm(_) => return asm(session, file, report),
        Command::Import(name, base, _) => return import(session, name, base, file, report),
        Command::Export(name, base) => return export(session, name, base, report),
        Command::Run(turns) => run_all(session, *turns, report),
        Command::Step(p, turns) => step(session, *p, *turns, report),
        Command::List => list(session, report),
        Command::Stats => stats(session, report),
        Command::Regs(p) => regs(session, *p, report),
        Command::Dump(p, address, count) => dump(session, *p, *address, *count, report),
        Command::Disasm(p, address, words) => disasm(session, *p, *address, *words, report),
        Command::Fork(_)
        | Command::Checkpoint(_, _)
        | Command::Restore(_, _)
        | Command::Forget(_)
        | Command::Speculate(_)
        | Command::Commit(_)
        | Command::Discard(_)
        | Command::Promote(_, _)
        | Command::PromoteAll(_)
        | Command::Dedup(_, _, _, _)
        | Command::DedupAll(_, _)
        | Command::Compact
        | Command::Map(_, _, _, _)
        | Command::Unmap(_, _, _)
        | Command::Drop(_)
        | Command::Poke(_, _, _)
        | Command::Set(_, _, _)
        | Command::Break(_, _)
        | Command::Unbreak(_, _) => return change(session, command, report),
    };
    match sent {
        Ok(()) => Ok(()),
        Err(Failed) => Err(Halt::SendFailed),
    }
}
