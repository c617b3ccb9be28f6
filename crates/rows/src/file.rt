use crate::numbers::{byte, bytes, number, numbers, size, unescaped, words};
use anyhow::{Context, Result, bail};
use std::alloc::{AllocError, Global};

/// A file of a shelf.
#[derive(Drop)]
pub struct File {
    pub name: String,
    pub bytes: Vec<u8>,
}

/// Where the code of a `program` stands, behind the headers of its file.
const CODE: u64 = 0x10078;

/// Takes a line on files: a new one, or what becomes of the last one. Answers whether it is one.
pub fn take_file_line(
    alloc: Global,
    (word, rest): (&str, &str),
    files: &mut Vec<File>,
    shared: &[File],
) -> Result<bool> {
    if let Some(piece) = piece_of(alloc, (word, rest), files.as_slice(), shared)? {
        last(files)?.extend_from_slice(piece.as_slice())?;
        return Ok(true);
    }
    match word {
        "file" => {
            let name = String::from_str(alloc, rest)?;
            let bytes = Vec::new(alloc);
            files.push(File { name, bytes })?;
        }
        "cut" => last(files)?.truncate(size(rest)?),
        "set" => set(alloc, rest, last(files)?)?,
        _ => return Ok(false),
    }
    Ok(true)
}

/// The bytes of the last file.
fn last(files: &mut Vec<File>) -> Result<&mut Vec<u8>> {
    match files.last_mut() {
        Some(file) => Ok(&mut file.bytes),
        None => bail!("there is no file yet"),
    }
}

/// The bytes that a line adds to a file, where it is one that adds some.
fn piece_of(
    alloc: Global,
    (word, rest): (&str, &str),
    files: &[File],
    shared: &[File],
) -> Result<Option<Vec<u8>>> {
    Ok(Some(match word {
        "program" => program(alloc, rest)?,
        "elf" => elf_header(alloc, rest)?,
        "header" => program_header(alloc, rest)?,
        "words" => words(alloc, rest)?,
        "bytes" => bytes(alloc, rest)?,
        "fill" => fill(alloc, rest)?,
        "copy" => copy(files, shared, rest)?,
        "line" => lines(alloc, 1, rest)?,
        "lines" => counted_lines(alloc, rest)?,
        "text" => unescaped(alloc, rest)?,
        _ => return Ok(None),
    }))
}

/// The bytes of the first file of a name, a case's own before those that are shared.
fn copy(files: &[File], shared: &[File], name: &str) -> Result<Vec<u8>> {
    for file in files.iter().chain(shared.iter()) {
        if file.name.as_str() == name {
            return Ok(file.bytes.clone()?);
        }
    }
    bail!("there is no file {name:?} to copy")
}

/// `AT BYTES`: other bytes from there on.
fn set(alloc: Global, rest: &str, file: &mut Vec<u8>) -> Result<()> {
    let (at, new) = rest.split_once(' ').context("set has a place and bytes")?;
    let mut at = size(at)?;
    for new in bytes(alloc, new)? {
        match file.get_mut(at) {
            Some(old) => *old = new,
            None => bail!("there is no byte {at} to set"),
        }
        at = at.saturating_add(1);
    }
    Ok(())
}

/// `COUNT BYTE`: that byte so many times.
fn fill(alloc: Global, rest: &str) -> Result<Vec<u8>> {
    let (count, digits) = rest.split_once(' ').context("fill has a count and a byte")?;
    Ok(Vec::from_elem(alloc, byte(digits)?, size(count)?)?)
}

/// `COUNT TEXT`: that line so many times.
fn counted_lines(alloc: Global, rest: &str) -> Result<Vec<u8>> {
    let (count, text) = rest
        .split_once(' ')
        .context("lines have a count and a text")?;
    lines(alloc, number(count)?, text)
}

/// So many lines of a text, each with its end.
fn lines(alloc: Global, count: u64, text: &str) -> Result<Vec<u8>> {
    let mut all = Vec::new(alloc);
    for _ in 0..count {
        all.extend_from_slice(text.as_bytes())?;
        all.push(b'\n')?;
    }
    Ok(all)
}

/// `FLAGS WORDS`: a whole file of one segment at 0x10078, whose first word is the entry.
fn program(alloc: Global, rest: &str) -> Result<Vec<u8>> {
    let (flags, code) = rest.split_once(' ').context("program has flags and words")?;
    let flags = u32::try_from(number(flags)?)?;
    let code = words(alloc, code)?;
    let size = code.len() as u64;
    let mut file = Vec::new(alloc);
    push_elf_header(CODE, 1, &mut file)?;
    push_program_header((1, flags), [120, CODE, size, size], &mut file)?;
    file.extend_from_slice(code.as_slice())?;
    Ok(file)
}

/// `ENTRY COUNT`: the header of a file with so many program headers.
fn elf_header(alloc: Global, rest: &str) -> Result<Vec<u8>> {
    let mut header = Vec::new(alloc);
    match numbers(alloc, rest)?.as_slice() {
        [entry, count] => push_elf_header(*entry, u16::try_from(*count)?, &mut header)?,
        _ => bail!("elf has an entry and a count"),
    }
    Ok(header)
}

/// `KIND FLAGS OFFSET ADDRESS BYTES MEMORY`: the header of a segment.
fn program_header(alloc: Global, rest: &str) -> Result<Vec<u8>> {
    let mut header = Vec::new(alloc);
    match numbers(alloc, rest)?.as_slice() {
        [kind, flags, offset, address, bytes, memory] => {
            let (kind, flags) = (u32::try_from(*kind)?, u32::try_from(*flags)?);
            let places = [*offset, *address, *bytes, *memory];
            push_program_header((kind, flags), places, &mut header)?;
        }
        _ => bail!("header has six numbers"),
    }
    Ok(header)
}

/// The first 64 bytes of an ELF-64 file for RISC-V whose program headers follow.
fn push_elf_header(entry: u64, count: u16, file: &mut Vec<u8>) -> Result<(), AllocError> {
    file.extend_from_slice(b"\x7FELF\x02\x01\x01\0\0\0\0\0\0\0\0\0\x02\0\xF3\0\x01\0\0\0")?;
    for number in [entry, 64, 0] {
        file.extend_from_slice(&number.to_le_bytes())?;
    }
    file.extend_from_slice(b"\0\0\0\0\x40\0\x38\0")?;
    file.extend_from_slice(&count.to_le_bytes())?;
    file.extend_from_slice(&[0; 6])
}

/// The 56 bytes of a program header: the kind and the flags, and then the offset in the file, the address, and
/// the sizes in the file and in memory.
fn push_program_header(
    (kind, flags): (u32, u32),
    [offset, address, bytes, memory]: [u64; 4],
    file: &mut Vec<u8>,
) -> Result<(), AllocError> {
    file.extend_from_slice(&kind.to_le_bytes())?;
    file.extend_from_slice(&flags.to_le_bytes())?;
    for number in [offset, address, address, bytes, memory, 4096] {
        file.extend_from_slice(&number.to_le_bytes())?;
    }
    Ok(())
}
