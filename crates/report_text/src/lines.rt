ghost use Rattle.std.specs.Prelude.{◌≡◌, ◌+◌, ◌*◌, ◌==◌, ◌||◌, ◌≤◌, ◌++◌, codes, length, IsTrue, if◌then◌else◌};
ghost use Rattle.arrayvec.specs.ArrayVec.{array_vec_len};
ghost use Rattle.report_text.specs.Digits.{address_text, in_decimal};
ghost use Rattle.report_text.specs.Lines.{bad_line, ran_line, list_line, process_line, checkpoint_line, stats_line, exported_line, regs_line, register_line, dump_line, disasm_line_by};
ghost use Rattle.sizes.specs.declared.TheConstants.{LINE_BYTES};
ghost use Rattle.image_lines.specs.Lines.{image_line, printed};
ghost use Rattle.report_text.specs.declared.answer.Answer.TheVariants as answer;
ghost use Rattle.ovl_io.specs.declared.turn.Turn.TheVariants as turn;
ghost use Rattle.report_text.specs.Answers.{IsCheckpointName, HasCodeLine, answer_text, turn_text};

use crate::instructions::push_instruction;
use crate::names::{kind_text, port_text, push_code, push_pages, push_state, stop_word};
use crate::push::{
    push_address, push_bytes, push_decimal, push_dumped, push_hex, push_short_word, push_text,
    push_word,
};
use crate::{Code, LINE_ROOM, Line, ROW_BYTES, Stop};
use ovl_io::{FaultKind, ProcessState};
use rv_decode::Decoder;
use sizes::LINE_BYTES;

// One function a line, in the order of their definitions. Each puts its line at the end of `line`.

/// A load.
pub(crate) fn put_loaded(line: &mut Line, p: u16, pages: u32, entry: u64)
    requires { array_vec_len line.old + 256 ≤ LINE_ROOM }
    ensures text { line.new.items ≡ line.old.items ++ answer_text (answer.Loaded p pages entry) }
    ensures len { array_vec_len line.new ≤ array_vec_len line.old + 256 }
{
    push_text(line, b"loaded ");
    push_decimal(line, u64::from(p));
    push_pages(line, pages);
    push_text(line, b" entry ");
    push_address(line, entry);
    push_text(line, b"\n");
}

/// A fork.
pub(crate) fn put_forked(line: &mut Line, p: u16, new: u16)
    requires { array_vec_len line.old + 256 ≤ LINE_ROOM }
    ensures text { line.new.items ≡ line.old.items ++ answer_text (answer.Forked p new) }
    ensures len { array_vec_len line.new ≤ array_vec_len line.old + 256 }
{
    push_text(line, b"forked ");
    push_decimal(line, u64::from(p));
    push_text(line, b" ");
    push_decimal(line, u64::from(new));
    push_text(line, b"\n");
}

/// A checkpoint.
pub(crate) fn put_saved(line: &mut Line, p: u16, name: &[u8], space: u16)
    requires room { array_vec_len line.old + 256 ≤ LINE_ROOM }
    requires named { IsCheckpointName name.now }
    ensures text { line.new.items ≡ line.old.items ++ answer_text (answer.Saved p name.now space) }
    ensures len { array_vec_len line.new ≤ array_vec_len line.old + 256 }
{
    push_text(line, b"saved ");
    push_decimal(line, u64::from(p));
    push_text(line, b" ");
    push_text(line, name);
    push_text(line, b" ");
    push_decimal(line, u64::from(space));
    push_text(line, b"\n");
}

/// A checkpoint that was made of an image.
pub(crate) fn put_imported(line: &mut Line, name: &[u8], space: u16, pages: u32)
    requires room { array_vec_len line.old + 256 ≤ LINE_ROOM }
    requires named { IsCheckpointName name.now }
    ensures text { line.new.items ≡ line.old.items
        ++ answer_text (answer.Imported name.now space pages) }
    ensures len { array_vec_len line.new ≤ array_vec_len line.old + 256 }
{
    push_text(line, b"imported ");
    push_text(line, name);
    push_text(line, b" ");
    push_decimal(line, u64::from(space));
    push_pages(line, pages);
    push_text(line, b"\n");
}

/// Pages that were put on the frames of others.
pub(crate) fn put_shared(line: &mut Line, pages: u32)
    requires { array_vec_len line.old + 256 ≤ LINE_ROOM }
    ensures text { line.new.items ≡ line.old.items ++ answer_text (answer.Shared pages) }
    ensures len { array_vec_len line.new ≤ array_vec_len line.old + 256 }
{
    push_text(line, b"shared ");
    push_decimal(line, u64::from(pages));
    push_text(line, b"\n");
}

/// A refusal.
pub(crate) fn put_refused(line: &mut Line, code: Code)
    requires room { array_vec_len line.old + 256 ≤ LINE_ROOM }
    requires has { HasCodeLine code }
    ensures text { line.new.items ≡ line.old.items ++ answer_text (answer.Refused code) }
    ensures len { array_vec_len line.new ≤ array_vec_len line.old + 256 }
{
    push_text(line, b"refused ");
    push_code(line, code);
    push_text(line, b"\n");
}

/// A command that is refused units.
pub(crate) fn put_full(line: &mut Line, units: u32, limit: u32)
    requires { array_vec_len line.old + 256 ≤ LINE_ROOM }
    ensures text { line.new.items ≡ line.old.items ++ answer_text (answer.Full units limit) }
    ensures len { array_vec_len line.new ≤ array_vec_len line.old + 256 }
{
    push_text(line, b"full ");
    push_decimal(line, u64::from(units));
    push_text(line, b" ");
    push_decimal(line, u64::from(limit));
    push_text(line, b"\n");
}

/// The first line of a script that is outside.
pub(crate) fn put_bad(line: &mut Line, k: u32)
    requires { array_vec_len line.old + 256 ≤ LINE_ROOM }
    ensures text { line.new.items ≡ line.old.items ++ bad_line k }
    ensures len { array_vec_len line.new ≤ array_vec_len line.old + 256 }
{
    push_text(line, b"bad line ");
    push_decimal(line, u64::from(k));
    push_text(line, b"\n");
}

/// What a process wrote to a port.
pub(crate) fn put_wrote(line: &mut Line, p: u16, port: u8, bytes: &[u8])
    requires room { array_vec_len line.old + 3 * length bytes.now + 256 ≤ LINE_ROOM }
    requires port { IsTrue (port == 1 || port == 2) }
    ensures { line.new.items ≡ line.old.items ++ turn_text p (turn.Wrote (port, bytes.now)) }
{
    push_text(line, port_text(port));
    push_decimal(line, u64::from(p));
    push_text(line, b" ");
    push_bytes(line, bytes);
    push_text(line, b"\n");
}

/// An exit.
pub(crate) fn put_exited(line: &mut Line, p: u16, code: u8)
    requires { array_vec_len line.old + 256 ≤ LINE_ROOM }
    ensures text { line.new.items ≡ line.old.items ++ turn_text p (turn.Exited code) }
    ensures len { array_vec_len line.new ≤ array_vec_len line.old + 256 }
{
    push_text(line, b"exited ");
    push_decimal(line, u64::from(p));
    push_text(line, b" ");
    push_decimal(line, u64::from(code));
    push_text(line, b"\n");
}

/// A fault.
pub(crate) fn put_faulted(line: &mut Line, p: u16, kind: FaultKind, address: u64)
    requires { array_vec_len line.old + 256 ≤ LINE_ROOM }
    ensures text { line.new.items ≡ line.old.items ++ turn_text p (turn.Faulted kind address) }
    ensures len { array_vec_len line.new ≤ array_vec_len line.old + 256 }
{
    push_text(line, b"faulted ");
    push_decimal(line, u64::from(p));
    push_text(line, b" ");
    push_text(line, kind_text(kind));
    push_text(line, b" ");
    push_address(line, address);
    push_text(line, b"\n");
}

/// An instruction that is refused units.
pub(crate) fn put_full_turn(line: &mut Line, p: u16, units: u32, limit: u32)
    requires { array_vec_len line.old + 256 ≤ LINE_ROOM }
    ensures text { line.new.items ≡ line.old.items ++ turn_text p (turn.Full units limit) }
    ensures len { array_vec_len line.new ≤ array_vec_len line.old + 256 }
{
    push_text(line, b"full ");
    push_decimal(line, u64::from(p));
    push_text(line, b" ");
    push_decimal(line, u64::from(units));
    push_text(line, b" ");
    push_decimal(line, u64::from(limit));
    push_text(line, b"\n");
}

/// A breakpoint that was reached.
pub(crate) fn put_break(line: &mut Line, p: u16, address: u64)
    requires { array_vec_len line.old + 256 ≤ LINE_ROOM }
    ensures text { line.new.items ≡ line.old.items ++ codes "break " ++ in_decimal p ++ codes " "
        ++ address_text address ++ codes "\n" }
    ensures len { array_vec_len line.new ≤ array_vec_len line.old + 256 }
{
    push_text(line, b"break ");
    push_decimal(line, u64::from(p));
    push_text(line, b" ");
    push_address(line, address);
    push_text(line, b"\n");
}

/// The end of turns.
pub(crate) fn put_ran(line: &mut Line, taken: u32, stop: &Stop)
    requires { array_vec_len line.old + 256 ≤ LINE_ROOM }
    ensures text { line.new.items ≡ line.old.items ++ ran_line taken stop.now }
    ensures len { array_vec_len line.new ≤ array_vec_len line.old + 256 }
{
    push_text(line, b"ran ");
    push_decimal(line, u64::from(taken));
    push_text(line, b" ");
    push_text(line, stop_word(stop));
    push_text(line, b"\n");
}

/// The first line of a list.
pub(crate) fn put_list(line: &mut Line, processes: u32, checkpoints: u32)
    requires { array_vec_len line.old + 256 ≤ LINE_ROOM }
    ensures text { line.new.items ≡ line.old.items ++ list_line processes checkpoints }
    ensures len { array_vec_len line.new ≤ array_vec_len line.old + 256 }
{
    push_text(line, b"list ");
    push_decimal(line, u64::from(processes));
    push_text(line, b" ");
    push_decimal(line, u64::from(checkpoints));
    push_text(line, b"\n");
}

/// A process in a list.
pub(crate) fn put_process(
    line: &mut Line,
    p: u16,
    state: &ProcessState,
    speculating: bool,
    pages: u32,
)
    requires { array_vec_len line.old + 256 ≤ LINE_ROOM }
    ensures text { line.new.items ≡ line.old.items ++ process_line p state.now speculating pages }
    ensures len { array_vec_len line.new ≤ array_vec_len line.old + 256 }
{
    push_text(line, b"process ");
    push_decimal(line, u64::from(p));
    push_text(line, b" ");
    push_state(line, state, speculating);
    push_pages(line, pages);
    push_text(line, b"\n");
}

/// A checkpoint in a list.
pub(crate) fn put_checkpoint(line: &mut Line, name: &[u8], space: u16, pages: u32)
    requires room { array_vec_len line.old + 256 ≤ LINE_ROOM }
    requires named { IsCheckpointName name.now }
    ensures text { line.new.items ≡ line.old.items ++ checkpoint_line name.now space pages }
    ensures len { array_vec_len line.new ≤ array_vec_len line.old + 256 }
{
    push_text(line, b"checkpoint ");
    push_text(line, name);
    push_text(line, b" ");
    push_decimal(line, u64::from(space));
    push_pages(line, pages);
    push_text(line, b"\n");
}

/// The counts.
pub(crate) fn put_stats(line: &mut Line, units: u32, limit: u32, lines: u32, hits: u64, misses: u64)
    requires { array_vec_len line.old + 256 ≤ LINE_ROOM }
    ensures text { line.new.items ≡ line.old.items ++ stats_line units limit lines hits misses }
    ensures len { array_vec_len line.new ≤ array_vec_len line.old + 256 }
{
    push_text(line, b"units ");
    push_decimal(line, u64::from(units));
    push_text(line, b" of ");
    push_decimal(line, u64::from(limit));
    push_text(line, b" lines ");
    push_decimal(line, u64::from(lines));
    push_text(line, b" hits ");
    push_decimal(line, hits);
    push_text(line, b" misses ");
    push_decimal(line, misses);
    push_text(line, b"\n");
}

/// The first line of an image.
pub(crate) fn put_exported(line: &mut Line, name: &[u8], base: &[u8], length: u32)
    requires room { array_vec_len line.old + 256 ≤ LINE_ROOM }
    requires named { IsCheckpointName name.now }
    requires based { IsCheckpointName base.now }
    ensures text { line.new.items ≡ line.old.items ++ exported_line name.now base.now length }
    ensures len { array_vec_len line.new ≤ array_vec_len line.old + 256 }
{
    push_text(line, b"exported ");
    push_text(line, name);
    push_text(line, b" ");
    push_text(line, base);
    push_text(line, b" ");
    push_decimal(line, u64::from(length));
    push_text(line, b"\n");
}

/// Bytes of an image.
#[tactic(auto, unfolding(image_lines::specs::Lines::image_line))]
pub(crate) fn put_image(line: &mut Line, bytes: &[u8])
    requires room { array_vec_len line.old + 256 ≤ LINE_ROOM }
    requires few { length bytes.now ≤ LINE_BYTES }
    ensures text { line.new.items ≡ line.old.items ++ image_line bytes.now }
    ensures len { array_vec_len line.new ≤ array_vec_len line.old + 256 }
{
    push_text(line, b"image ");
    push_hex(line, bytes);
    push_text(line, b"\n");
}

/// Bytes of an image, line by line.
pub(crate) fn put_image_lines(line: &mut Line, bytes: &[u8])
    requires { array_vec_len line.old + 4 * length bytes.now + 256 ≤ LINE_ROOM }
    ensures { line.new.items ≡ line.old.items ++ printed bytes.now }
{
    let mut rest = bytes;
    'putting: while LINE_BYTES < rest.len() {
        let (front, behind) = rest.split_at(LINE_BYTES);
        put_image(line, front);
        rest = behind;
    }
    put_image(line, rest);
}

/// The first line of a process's registers.
pub(crate) fn put_regs(line: &mut Line, p: u16, state: &ProcessState, speculating: bool)
    requires { array_vec_len line.old + 256 ≤ LINE_ROOM }
    ensures text { line.new.items ≡ line.old.items ++ regs_line p state.now speculating }
    ensures len { array_vec_len line.new ≤ array_vec_len line.old + 256 }
{
    push_text(line, b"regs ");
    push_decimal(line, u64::from(p));
    push_text(line, b" ");
    push_state(line, state, speculating);
    push_text(line, b"\n");
}

/// The name of a register, or of the pc.
fn put_name(line: &mut Line, i: u8)
    requires { array_vec_len line.old + 32 ≤ LINE_ROOM }
    ensures text { line.new.items ≡ line.old.items ++ (if i == 0 then codes "pc" else codes "x" ++ in_decimal i) }
    ensures len { array_vec_len line.new ≤ array_vec_len line.old + 32 }
{
    if i == 0 {
        push_text(line, b"pc");
    } else {
        push_text(line, b"x");
        push_decimal(line, u64::from(i));
    }
}

/// A register, or the pc.
pub(crate) fn put_register(line: &mut Line, i: u8, value: u64)
    requires { array_vec_len line.old + 256 ≤ LINE_ROOM }
    ensures text { line.new.items ≡ line.old.items ++ register_line i value }
    ensures len { array_vec_len line.new ≤ array_vec_len line.old + 256 }
{
    put_name(line, i);
    push_text(line, b" ");
    push_word(line, value);
    push_text(line, b"\n");
}

/// Bytes of memory.
pub(crate) fn put_dump(line: &mut Line, address: u64, bytes: &[u8])
    requires room { array_vec_len line.old + 256 ≤ LINE_ROOM }
    requires row { length bytes.now ≤ ROW_BYTES }
    ensures text { line.new.items ≡ line.old.items ++ dump_line address bytes.now }
    ensures len { array_vec_len line.new ≤ array_vec_len line.old + 256 }
{
    push_word(line, address);
    push_dumped(line, bytes);
    push_text(line, b"\n");
}

/// A word of memory as an instruction, by a table.
pub(crate) fn put_disasm<D: Decoder>(line: &mut Line, address: u64, word: u32)
    requires { array_vec_len line.old + 256 ≤ LINE_ROOM }
    ensures text { line.new.items ≡ line.old.items ++ disasm_line_by D.has address word }
    ensures len { array_vec_len line.new ≤ array_vec_len line.old + 256 }
{
    push_word(line, address);
    push_text(line, b" ");
    push_short_word(line, word);
    push_text(line, b" ");
    push_instruction::<D>(line, word);
    push_text(line, b"\n");
}
