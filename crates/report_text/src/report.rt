ghost use Rattle.std.specs.Prelude.{◌≡◌, ◌<◌, ◌≤◌, length};
ghost use Rattle.report_text.specs.Lines.{bad_line, list_line, process_line, checkpoint_line, stats_line, exported_line, regs_line, register_line, dump_line, disasm_line, disasm_line_by};
ghost use Rattle.sizes.specs.declared.TheConstants.{LINE_BYTES, MOST_WRITTEN};
ghost use Rattle.ovl_io.specs.declared.turn.Turn.TheVariants as turn;
ghost use Rattle.image_lines.specs.Lines.{image_line, printed};
ghost use Rattle.report_text.specs.declared.TheConstants.{BLOCK_BYTES};
ghost use Rattle.rv_mul.specs.Tables.{is_any};
ghost use Rattle.report_text.specs.Answers.{HasAnswerLine, HasPort, IsCheckpointName, answer_text, turn_text, has_turn_line, stop_text};

use crate::lines::{
    put_bad, put_break, put_checkpoint, put_disasm, put_dump, put_exited, put_exported,
    put_faulted, put_forked, put_full, put_full_turn, put_image, put_image_lines, put_imported,
    put_list, put_loaded, put_process, put_ran, put_refused, put_register, put_regs, put_saved,
    put_shared, put_stats, put_wrote,
};
use crate::push::push_text;
use crate::{Answer, Line, ROW_BYTES, Stop};
use ovl_io::{Bytes, ProcessState, Turn};
use rv_decode::Rv64i;
use rv_mul::Rv64im;

/// The line of an answer. Want of memory has none, and a checkpoint's name has 1 to 32 bytes.
pub fn answer_line(a: &Answer, out: &mut Line)
    requires { HasAnswerLine a.now }
    ensures { out.new.items ≡ answer_text a.now }
{
    out.clear();
    match a {
        Answer::Done => push_text(out, b"ok\n"),
        Answer::Loaded(p, pages, entry) => put_loaded(out, *p, *pages, *entry),
        Answer::Forked(p, new) => put_forked(out, *p, *new),
        Answer::Saved(p, name, space) => put_saved(out, *p, name.as_slice(), *space),
        Answer::Imported(name, space, pages) => put_imported(out, name.as_slice(), *space, *pages),
        Answer::Shared(pages) => put_shared(out, *pages),
        Answer::Refused(code) => put_refused(out, *code),
        Answer::Full(units, limit) => put_full(out, *units, *limit),
        Answer::Memory => unreachable!(),
    }
}

/// The line of a turn of process `p`, and whether it has one: a step has none. What was written went to
/// port 1 or 2.
pub fn turn_line(p: u16, t: &Turn, out: &mut Line) -> bool
    requires { HasPort t.now }
    ensures text { out.new.items ≡ turn_text p t.now }
    ensures has { result ≡ has_turn_line t.now }
{
    out.clear();
    match t {
        Turn::Stepped => return false,
        Turn::Wrote(written) => put_wrote(out, p, written.port, written.bytes.as_slice()),
        Turn::Exited(code) => put_exited(out, p, *code),
        Turn::Faulted(kind, address) => put_faulted(out, p, *kind, *address),
        Turn::Full(units, limit) => put_full_turn(out, p, *units, *limit),
    }
    true
}

/// The line of what process `p` wrote to port 1 or 2, as of a turn that wrote it. It takes the bytes from where they stand: a turn has
/// room for all that a process may write, so it is dear to make.
pub fn wrote_line(p: u16, port: u8, bytes: &[u8], out: &mut Line)
    requires few { length bytes.now ≤ MOST_WRITTEN }
    requires port { HasPort (turn.Wrote (port, bytes.now)) }
    ensures { out.new.items ≡ turn_text p (turn.Wrote (port, bytes.now)) }
{
    out.clear();
    put_wrote(out, p, port, bytes);
}

/// The line at the end of turns, of which so many were counted; at a breakpoint the line for it before that.
pub fn stop_line(taken: u32, s: &Stop, out: &mut Line)
    ensures { out.new.items ≡ stop_text taken s.now }
{
    out.clear();
    match s {
        Stop::Break(p, address) => put_break(out, *p, *address),
        Stop::Limit | Stop::Idle | Stop::Ended | Stop::Full => {}
    }
    put_ran(out, taken, s);
}

/// The line that names the first line of a script that is outside, from 1.
pub fn bad_line(k: u32, out: &mut Line)
    ensures { out.new.items ≡ bad_line k }
{
    out.clear();
    put_bad(out, k);
}

/// The first line of a list: how many processes and checkpoints there are.
pub fn list_line(processes: u32, checkpoints: u32, out: &mut Line)
    ensures { out.new.items ≡ list_line processes checkpoints }
{
    out.clear();
    put_list(out, processes, checkpoints);
}

/// A process in a list, and its pages.
pub fn process_line(p: u16, state: &ProcessState, speculating: bool, pages: u32, out: &mut Line)
    ensures { out.new.items ≡ process_line p state.now speculating pages }
{
    out.clear();
    put_process(out, p, state, speculating, pages);
}

/// A checkpoint in a list, its space and its pages. Its name has 1 to 32 bytes.
pub fn checkpoint_line(name: &Bytes, space: u16, pages: u32, out: &mut Line)
    requires { IsCheckpointName name.now }
    ensures { out.new.items ≡ checkpoint_line name.now space pages }
{
    out.clear();
    put_checkpoint(out, name.as_slice(), space, pages);
}

/// The counts: the units of all pages and how many there may be, their own lines, and the translations that were
/// there and that weren't.
pub fn stats_line(units: u32, limit: u32, lines: u32, hits: u64, misses: u64, out: &mut Line)
    ensures { out.new.items ≡ stats_line units limit lines hits misses }
{
    out.clear();
    put_stats(out, units, limit, lines, hits, misses);
}

/// The first line of an image: whose it is, over which other checkpoint's, and how many bytes it has. Names
/// have 1 to 32 bytes.
pub fn exported_line(name: &Bytes, base: &Bytes, length: u32, out: &mut Line)
    requires named { IsCheckpointName name.now }
    requires based { IsCheckpointName base.now }
    ensures { out.new.items ≡ exported_line name.now base.now length }
{
    out.clear();
    put_exported(out, name.as_slice(), base.as_slice(), length);
}

/// Bytes of an image, 64 but on its last line, which may have fewer: a line as a file of an image has it.
pub fn image_line(bytes: &[u8], out: &mut Line)
    requires { length bytes.now ≤ LINE_BYTES }
    ensures { out.new.items ≡ image_line bytes.now }
{
    out.clear();
    put_image(out, bytes);
}

/// So many bytes of an image, at most 2,048, with those behind them on lines of their own: their lines, one behind the other.
pub fn image_lines(bytes: &[u8], out: &mut Line)
    requires { length bytes.now ≤ BLOCK_BYTES }
    ensures { out.new.items ≡ printed bytes.now }
{
    out.clear();
    put_image_lines(out, bytes);
}

/// The first line of a process's registers: its state.
pub fn regs_line(p: u16, state: &ProcessState, speculating: bool, out: &mut Line)
    ensures { out.new.items ≡ regs_line p state.now speculating }
{
    out.clear();
    put_regs(out, p, state, speculating);
}

/// A register, by its number, at most 31; 0 is the pc.
pub fn register_line(i: u8, v: u64, out: &mut Line)
    requires { i < 32 }
    ensures { out.new.items ≡ register_line i v }
{
    out.clear();
    put_register(out, i, v);
}

/// Bytes of memory, at most `ROW_BYTES`, and the address of the first.
pub fn dump_line(address: u64, bytes: &[u8], out: &mut Line)
    requires { length bytes.now ≤ ROW_BYTES }
    ensures { out.new.items ≡ dump_line address bytes.now }
{
    out.clear();
    put_dump(out, address, bytes);
}

/// A word of memory at an address, and what it means as an instruction of RV64I.
pub fn disasm_line(address: u64, word: u32, out: &mut Line)
    ensures { out.new.items ≡ disasm_line address word }
{
    out.clear();
    put_disasm::<Rv64i>(out, address, word);
}

/// The same of RV64I and its extension M.
pub fn disasm_m_line(address: u64, word: u32, out: &mut Line)
    ensures { out.new.items ≡ disasm_line_by is_any address word }
{
    out.clear();
    put_disasm::<Rv64im>(out, address, word);
}
