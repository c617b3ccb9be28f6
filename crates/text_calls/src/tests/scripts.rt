ghost use Rattle.std.specs.Prelude.{◌≤◌, length};
ghost use Rattle.sizes.specs.declared.TheConstants.{MOST_SCRIPT_BYTES};

mod checkpoint_rows;
mod debugger_rows;
mod dedup_rows;
mod image_rows;
mod long_rows;
mod mapping_rows;
mod overlay_rows;
mod rows;

use bitflags::Flags;
use checkpoint_rows::CHECKPOINT_ROWS;
use debugger_rows::DEBUGGER_ROWS;
use dedup_rows::DEDUP_ROWS;
use image_rows::IMAGE_ROWS;
use long_rows::LONG_ROWS;
use mapping_rows::MAPPING_ROWS;
use overlay_rows::OVERLAY_ROWS;
use rows::ROWS;
use script_text::{Command, ScriptError, line_count, parse};
use sizes::{MOST_SCRIPT_BYTES, MOST_SCRIPT_LINES};
use std::alloc::{AllocError, Global};
use std::test::Fail;

// What a command says, as a script spells it with decimal numbers, and with bytes as they are.
fn show(alloc: Global, command: &Command, out: &mut Vec<u8>) -> Result<(), AllocError> {
    let text = match command {
        Command::Exec(name, turns) => {
            out.extend_from_slice(b"exec ")?;
            out.extend_from_slice(name.as_slice())?;
            format!(in alloc; " {turns}")?
        }
        Command::Load(name) => {
            out.extend_from_slice(b"load ")?;
            return out.extend_from_slice(name.as_slice());
        }
        Command::Asm(name) => {
            out.extend_from_slice(b"asm ")?;
            return out.extend_from_slice(name.as_slice());
        }
        Command::Fork(p) => format!(in alloc; "fork {p}")?,
        Command::Run(turns) => format!(in alloc; "run {turns}")?,
        Command::Step(p, turns) => format!(in alloc; "step {p} {turns}")?,
        Command::Checkpoint(p, name) => {
            out.extend_from_slice(format!(in alloc; "checkpoint {p} ")?.as_bytes())?;
            return out.extend_from_slice(name.as_slice());
        }
        Command::Restore(p, name) => {
            out.extend_from_slice(format!(in alloc; "restore {p} ")?.as_bytes())?;
            return out.extend_from_slice(name.as_slice());
        }
        Command::Forget(name) => {
            out.extend_from_slice(b"forget ")?;
            return out.extend_from_slice(name.as_slice());
        }
        Command::Export(name, base) => {
            out.extend_from_slice(b"export ")?;
            out.extend_from_slice(name.as_slice())?;
            out.push(b' ')?;
            return out.extend_from_slice(base.as_slice());
        }
        Command::Import(name, base, file) => {
            out.extend_from_slice(b"import ")?;
            out.extend_from_slice(name.as_slice())?;
            out.push(b' ')?;
            out.extend_from_slice(base.as_slice())?;
            out.push(b' ')?;
            return out.extend_from_slice(file.as_slice());
        }
        Command::Speculate(p) => format!(in alloc; "speculate {p}")?,
        Command::Commit(p) => format!(in alloc; "commit {p}")?,
        Command::Discard(p) => format!(in alloc; "discard {p}")?,
        Command::Promote(p, address) => format!(in alloc; "promote {p} {address}")?,
        Command::PromoteAll(p) => format!(in alloc; "promote {p} all")?,
        Command::Dedup(p, address, q, other) => {
            format!(in alloc; "dedup {p} {address} {q} {other}")?
        }
        Command::DedupAll(p, q) => format!(in alloc; "dedup {p} all {q}")?,
        Command::Compact => format!(in alloc; "compact")?,
        Command::Map(p, address, pages, perms) => {
            let bits = perms.bits();
            format!(in alloc; "map {p} {address} {pages} {bits}")?
        }
        Command::Unmap(p, address, pages) => format!(in alloc; "unmap {p} {address} {pages}")?,
        Command::Drop(p) => format!(in alloc; "drop {p}")?,
        Command::Regs(p) => format!(in alloc; "regs {p}")?,
        Command::Set(p, register, value) => format!(in alloc; "set {p} {register} {value}")?,
        Command::List => format!(in alloc; "list")?,
        Command::Stats => format!(in alloc; "stats")?,
        Command::Dump(p, address, count) => format!(in alloc; "dump {p} {address} {count}")?,
        Command::Poke(p, address, bytes) => {
            out.extend_from_slice(format!(in alloc; "poke {p} {address} ")?.as_bytes())?;
            return out.extend_from_slice(bytes.as_slice());
        }
        Command::Break(p, address) => format!(in alloc; "break {p} {address}")?,
        Command::Unbreak(p, address) => format!(in alloc; "unbreak {p} {address}")?,
        Command::Disasm(p, address, words) => format!(in alloc; "disasm {p} {address} {words}")?,
    };
    out.extend_from_slice(text.as_bytes())
}

// What a script says: its commands, divided by `; `, or the first line that is outside.
fn said(alloc: Global, script: &[u8]) -> Result<Vec<u8>, AllocError>
    requires { length script.now ≤ MOST_SCRIPT_BYTES }
{
    let mut out = Vec::new(alloc);
    match parse(alloc, script) {
        Ok(commands) => {
            for (i, command) in commands.iter().enumerate() {
                if i > 0 {
                    out.extend_from_slice(b"; ")?;
                }
                show(alloc, command, &mut out)?;
            }
        }
        Err(ScriptError::Line(k)) => {
            out.extend_from_slice(format!(in alloc; "bad {k}")?.as_bytes())?;
        }
        Err(ScriptError::Memory) => out.extend_from_slice(b"memory")?,
    }
    Ok(out)
}

// Puts the bytes of `HH` or `HH*N` behind others.
fn push_bytes(alloc: Global, text: &str, out: &mut Vec<u8>) -> Result<(), AllocError> {
    let (digits, times) = match text.split_once('*') {
        Some((digits, times)) => (digits, times.parse::<usize>().unwrap_or(0)),
        None => (text, 1),
    };
    let byte = u8::from_str_radix(digits, 16).unwrap_or(0);
    let bytes = Vec::from_elem(alloc, byte, times)?;
    out.extend_from_slice(bytes.as_slice())
}

// The bytes that a text of a row stands for.
fn bytes_of(alloc: Global, text: &str) -> Result<Vec<u8>, AllocError> {
    let mut out = Vec::new(alloc);
    for piece in text.split('{') {
        match piece.split_once('}') {
            Some((bytes, plain)) => {
                push_bytes(alloc, bytes, &mut out)?;
                out.extend_from_slice(plain.as_bytes())?;
            }
            None => out.extend_from_slice(piece.as_bytes())?,
        }
    }
    Ok(out)
}

#[test]
fn scripts_say_what_the_grammar_says(rt: HostRuntime) -> Result<(), Fail> {
    let mut rows: usize = 0;
    for table in [
        ROWS,
        CHECKPOINT_ROWS,
        MAPPING_ROWS,
        OVERLAY_ROWS,
        DEDUP_ROWS,
        IMAGE_ROWS,
        DEBUGGER_ROWS,
        LONG_ROWS,
    ] {
        for row in table.split('\n') {
            let (script, want) = row.split_once(" => ").expect(&rt, "a row has two parts");
            let script = bytes_of(rt.alloc(), script)?;
            assert!(rt; script.len() <= MOST_SCRIPT_BYTES);
            let want = bytes_of(rt.alloc(), want)?;
            let got = said(rt.alloc(), script.as_slice())?;
            assert!(rt; got == want, "{row}");
            rows = rows.saturating_add(1);
        }
    }
    assert_eq!(rt; rows, 1870);
    Ok(())
}

#[test]
fn lines_are_counted(rt: HostRuntime) -> Result<(), Fail> {
    let rows: [(&[u8], usize); 6] = [
        (b"", 0),
        (b"\r", 1),
        (b"x\n", 1),
        (b"x\n ", 2),
        (b"# a\r\n\r\nlist", 3),
        (b"\n\n\n", 3),
    ];
    for (script, lines) in rows {
        assert_eq!(rt; line_count(script), lines);
    }
    let many = Vec::from_elem(rt.alloc(), b'\n', MOST_SCRIPT_LINES + 1)?;
    assert_eq!(rt; line_count(many.as_slice()), MOST_SCRIPT_LINES + 1);
    Ok(())
}
