//! Bytes as lines: of a process's memory, and of an image.

ghost use Rattle.std.specs.Prelude.{◌≡◌, ◌+◌, ◌*◌, ◌/◌, ◌%◌, ◌<◌, ◌≤◌, ◌^◌, length};
ghost use Rattle.sizes.specs.declared.TheConstants.{ADDRESS_END};
ghost use Rattle.image_lines.specs.Lines.{printed};
ghost use Rattle.ovl_io.specs.Memory.{Memory, bytes_at};
ghost use Rattle.report_text.specs.Answers.{IsCheckpointName};
ghost use Rattle.report_text.specs.Lines.{disasm_line_by, exported_text};
ghost use Rattle.rv_mul.specs.Tables.{table_of};
ghost use Rattle.command_core.specs.declared.TheConstants.{WORD_BYTES};
ghost use Rattle.command_core.specs.Commands.{disasm_text, dump_text};
ghost use Rattle.overlay_top.specs.Sending.{SendsText};
ghost use Rattle.overlay_top.specs.Printing.{SeesBytes, SeesWords, bytes_dumped, memory_in, words_text};

use crate::sending::Report;
use byteorder::{ByteOrder, LittleEndian};
use command_core::{Session, WORD_BYTES};
use ovl_io::{Bytes, Failed, Sink};
use report_text::{
    BLOCK_BYTES, Line, ROW_BYTES, disasm_line, disasm_m_line, dump_line, exported_line, image_lines,
};

/// How many bytes of a process are read at once: whole rows, and whole words.
const READ_BYTES: usize = 256;

/// Reads bytes of a process that were looked at.
fn read_seen(session: &Session, p: u16, address: u64, into: &mut [u8])
    requires sees { SeesBytes p address (length into.old) session.now.state }
    ensures bytes { into.new ≡ bytes_at (memory_in p session.now.state) address (length into.old) }
    ensures kept { length into.new ≡ length into.old }
{
    match session.read(p, address, into) {
        Ok(()) => {}
        Err(_) => unreachable!(),
    }
}

/// Sends the lines of bytes that lie from an address on.
fn send_rows<K: Sink>(address: u64, bytes: &[u8], report: &mut Report<K>) -> Result<(), Failed>
    requires low { 0 < length bytes.now → address + length bytes.now ≤ ADDRESS_END }
    ensures sends { (memory : Memory) → bytes.now ≡ bytes_at memory address (length bytes.now)
        → SendsText K.Sink report.old.sink.now (dump_text memory address (length bytes.now))
        report.new.sink.now result }
    ensures same { report.new.sink.ghost_name ≡ report.old.sink.ghost_name }
{
    let mut at = address;
    let mut rest = bytes;
    'sending: while !rest.is_empty() {
        let n = rest.len().min(ROW_BYTES);
        let (row, behind) = rest.split_at(n);
        dump_line(at, row, &mut report.line);
        report.send()?;
        at += n as u64;
        rest = behind;
    }
    Ok(())
}

/// Sends the lines of bytes of a process from an address on; they were looked at.
pub(crate) fn send_bytes<K: Sink>(
    session: &Session,
    p: u16,
    address: u64,
    count: u32,
    report: &mut Report<K>,
) -> Result<(), Failed>
    requires sees { SeesBytes p address count session.now.state }
    ensures sends { SendsText K.Sink report.old.sink.now (bytes_dumped p address count session.now.state)
        report.new.sink.now result }
    ensures same { report.new.sink.ghost_name ≡ report.old.sink.ghost_name }
{
    let mut block = [0; READ_BYTES];
    let mut at = address;
    let mut left = count;
    'sending: while left > 0 {
        let n = left.min(READ_BYTES as u32);
        let bytes = &mut block[..n as usize];
        read_seen(session, p, at, bytes);
        send_rows(at, bytes, report)?;
        at += u64::from(n);
        left -= n;
    }
    Ok(())
}

/// Makes the line of a word at an address, as the instruction that it is in the session.
fn instruction_line(session: &Session, address: u64, word: u32, line: &mut Line)
    ensures { line.new.items ≡ disasm_line_by (table_of session.now.modes.extension).has address word }
{
    if session.has_extension() {
        disasm_m_line(address, word, line);
    } else {
        disasm_line(address, word, line);
    }
}

/// Sends the lines of words that lie from an address on, one behind the other.
fn send_instructions<K: Sink>(
    session: &Session,
    address: u64,
    bytes: &[u8],
    report: &mut Report<K>,
) -> Result<(), Failed>
    requires low { 0 < length bytes.now → address + length bytes.now ≤ ADDRESS_END }
    requires whole { length bytes.now % WORD_BYTES ≡ 0 }
    ensures sends { (memory : Memory) → bytes.now ≡ bytes_at memory address (length bytes.now)
        → SendsText K.Sink report.old.sink.now
        (disasm_text session.now.modes.extension memory address (length bytes.now / WORD_BYTES))
        report.new.sink.now result }
    ensures same { report.new.sink.ghost_name ≡ report.old.sink.ghost_name }
{
    let mut at = address;
    let mut rest = bytes;
    'sending: while !rest.is_empty() {
        let (word, behind) = rest.split_at(WORD_BYTES as usize);
        instruction_line(session, at, LittleEndian::read_u32(word), &mut report.line);
        report.send()?;
        at += WORD_BYTES;
        rest = behind;
    }
    Ok(())
}

/// Sends the lines of words of a process from an address on; their bytes were looked at.
pub(crate) fn send_words<K: Sink>(
    session: &Session,
    p: u16,
    address: u64,
    words: u32,
    report: &mut Report<K>,
) -> Result<(), Failed>
    requires sees { SeesWords p address words session.now.state }
    ensures sends { SendsText K.Sink report.old.sink.now (words_text
        session.now.modes.extension p address words session.now.state)
        report.new.sink.now result }
    ensures same { report.new.sink.ghost_name ≡ report.old.sink.ghost_name }
{
    let mut block = [0; READ_BYTES];
    let mut at = address;
    let mut left = words;
    'sending: while left > 0 {
        let n = left.min(READ_BYTES as u32 / WORD_BYTES as u32);
        let bytes = &mut block[..WORD_BYTES as usize * n as usize];
        read_seen(session, p, at, bytes);
        send_instructions(session, at, bytes, report)?;
        at += WORD_BYTES * u64::from(n);
        left -= n;
    }
    Ok(())
}

/// Sends the lines of an image's bytes, as many at once as a line of the report has room for.
fn send_image_lines<K: Sink>(image: &[u8], report: &mut Report<K>) -> Result<(), Failed>
    ensures sends { SendsText K.Sink report.old.sink.now (printed image.now) report.new.sink.now result }
    ensures same { report.new.sink.ghost_name ≡ report.old.sink.ghost_name }
{
    let mut rest = image;
    'sending: while BLOCK_BYTES < rest.len() {
        let (front, behind) = rest.split_at(BLOCK_BYTES);
        image_lines(front, &mut report.line);
        report.send()?;
        rest = behind;
    }
    image_lines(rest, &mut report.line);
    report.send()
}

/// Sends the line of how long an image is, and those of its bytes. Names have 1 to 32 bytes.
pub(crate) fn send_image<K: Sink>(
    name: &Bytes,
    base: &Bytes,
    image: &[u8],
    report: &mut Report<K>,
) -> Result<(), Failed>
    requires named { IsCheckpointName name.now }
    requires based { IsCheckpointName base.now }
    requires few { length image.now < 2 ^ 32 }
    ensures sends { SendsText K.Sink report.old.sink.now (exported_text name.now base.now image.now)
        report.new.sink.now result }
    ensures same { report.new.sink.ghost_name ≡ report.old.sink.ghost_name }
{
    exported_line(name, base, image.len() as u32, &mut report.line);
    report.send()?;
    send_image_lines(image, report)
}
