//! The lines and their instructions.

ghost use Rattle.std.specs.Prelude.{◌≡◌, ◌+◌, ◌*◌, ◌/◌, ◌%◌, ◌<◌, ◌≤◌, ◌⊎◌, ◌≢◌, ℕ, [], IfOk, Some, length, replicate, slice_get, slice_index, slice_index_or, slice_set, true};
ghost use Rattle.decoded_lines.specs.Decoded.{AreFromBy, AreOfLine, IsOfWordBy};
ghost use Rattle.decoded_lines.specs.declared.TheConstants.{KEPT_LINES, LINE_WORDS};

use crate::{KEPT_LINES, LINE_WORDS};
use byteorder::{ByteOrder, LittleEndian};
use rv_decode::{Decoder, Instr, Name, Rv64i};
use std::alloc::{AllocError, Global};
use std::marker::{Model, PhantomData};

/// An instruction where none is told, which does nothing.
const UNTOLD: Instr = Instr {
    name: Name::Addi,
    rd: 0,
    rs1: 0,
    rs2: 0,
    imm: 0,
};

/// Lines of 64 bytes in 1,024 slots, each with what its 16 words mean by a table.
#[derive(Drop)]
pub struct DecodedLines<D: Decoder = Rv64i> {
    lines: Vec<[u8; 64]>,
    // those of a line one after the other; where a word is none, one that says nothing
    instructions: Vec<Instr>,
    // of each word, how many from it on are instructions, one behind the other in its line
    counts: Vec<u8>,
    table: PhantomData<D>,
}

impl<D: Decoder> Model for DecodedLines<D> {
    ghost use Rattle.std.specs.Prelude.{List, ℕ};
    ghost use Rattle.decoded_lines.specs.Decoded.{AreDecoded};

    ghost Value = { List (List ℕ) };

    ghost view = { λ d. d.lines.items };

    ghost invariant = { λ d. AreDecoded D.has d.lines.items d.instructions.items d.counts.items };
}

/// Whether two lines are the same. By words of eight bytes and without a jump among them, since that becomes a few instructions of 16 bytes
/// each, and std's comparison of arrays is a call where it is made twice.
#[inline(always)]
fn is_same(a: &[u8; 64], b: &[u8; 64]) -> bool
    ensures { result ≡ true → a.now ≡ b.now }
{
    let mut apart = 0;
    'comparing: for word in 0..8 {
        let at = 8 * word;
        apart |= LittleEndian::read_u64(&a[at..at + 8]) ^ LittleEndian::read_u64(&b[at..at + 8]);
    }
    apart == 0
}

/// Decodes a word, of which so many words behind it are instructions, one behind the other. Answers how many are from it on.
#[inline(always)]
fn decode_word<D: Decoder>(instructions: &mut Vec<Instr>, at: usize, word: u32, behind: u8) -> u8
    requires at { at < length instructions.old.items }
    requires behind { behind < LINE_WORDS }
    ensures all { length instructions.new.items ≡ length instructions.old.items }
    ensures here { (result ≡ 0) ⊎ ((result ≡ behind + 1)
        × IsOfWordBy D.has (slice_get instructions.new.items at) word) }
    ensures beside { (i : ℕ) → i ≢ at
        → slice_get instructions.new.items i ≡ slice_get instructions.old.items i }
{
    match D::decode(word) {
        Some(instruction) => {
            instructions[at] = instruction;
            behind + 1
        }
        None => 0,
    }
}

/// Decodes the words of a line, from the last one to the first, with how many are instructions from each one on.
fn decode_line<D: Decoder>(
    instructions: &mut Vec<Instr>,
    counts: &mut Vec<u8>,
    slot: usize,
    line: &[u8; 64],
)
    requires slot { slot < KEPT_LINES }
    requires all { length instructions.old.items ≡ LINE_WORDS * KEPT_LINES }
    requires counted { length counts.old.items ≡ LINE_WORDS * KEPT_LINES }
    ensures all { length instructions.new.items ≡ length instructions.old.items }
    ensures counted { length counts.new.items ≡ length counts.old.items }
    ensures here { AreOfLine D.has instructions.new.items counts.new.items slot line.now }
    ensures beside { (at : ℕ) → (at < LINE_WORDS * slot) ⊎ (LINE_WORDS * slot + LINE_WORDS ≤ at)
        → slice_get instructions.new.items at ≡ slice_get instructions.old.items at }
    ensures counts_beside { (at : ℕ)
        → (at < LINE_WORDS * slot) ⊎ (LINE_WORDS * slot + LINE_WORDS ≤ at)
        → slice_index counts.new.items at ≡ slice_index counts.old.items at }
{
    let mut place = LINE_WORDS;
    let mut count = 0;
    'decoding: while place > 0 {
        place -= 1;
        let at = 4 * place;
        let word = LittleEndian::read_u32(&line[at..at + 4]);
        count = decode_word::<D>(instructions, LINE_WORDS * slot + place, word, count);
        counts[LINE_WORDS * slot + place] = count;
    }
}

/// So many lines that are the same.
fn lines_alike(alloc: Global, line: [u8; 64], count: usize) -> Result<Vec<[u8; 64]>, AllocError>
    ensures { IfOk result (λ lines. lines.items ≡ replicate count line) }
{
    vec![in alloc; line; count]
}

/// So many words that mean the same.
fn words_alike(alloc: Global, word: Instr, count: usize) -> Result<Vec<Instr>, AllocError>
    ensures { IfOk result (λ words. words.items ≡ replicate count word) }
{
    vec![in alloc; word; count]
}

/// So many counts, each of no instruction.
fn counts_of_none(alloc: Global, count: usize) -> Result<Vec<u8>, AllocError>
    ensures { IfOk result (λ counts. counts.items ≡ replicate count 0) }
{
    vec![in alloc; 0; count]
}

impl<D: Decoder> DecodedLines<D> {
    /// Some lines, of which no clause says which. Takes all the memory that lines ever need, or answers the want of it.
    pub fn new(alloc: Global) -> Result<DecodedLines<D>, AllocError> {
        let lines = lines_alike(alloc, [0; 64], KEPT_LINES)?;
        let instructions = words_alike(alloc, UNTOLD, LINE_WORDS * KEPT_LINES)?;
        let counts = counts_of_none(alloc, LINE_WORDS * KEPT_LINES)?;
        Ok(DecodedLines {
            lines,
            instructions,
            counts,
            table: PhantomData,
        })
    }

    /// Has a line, of some number, among those that are kept, in the place of one of another number. Costs a comparison where the line is
    /// there, and else what decoding it costs.
    #[inline]
    pub fn enter(&mut self, number: u64, line: &[u8; 64])
        ensures line { slice_index_or self.new (number % KEPT_LINES) [] ≡ line.now }
        ensures others { (slot : ℕ) → slot ≢ number % KEPT_LINES
            → slice_index_or self.new slot [] ≡ slice_index_or self.old slot [] }
    {
        let slot = (number % KEPT_LINES as u64) as usize;
        if !is_same(&self.lines[slot], line) {
            self.change(slot, line);
        }
    }

    /// Has another line in a slot.
    #[inline(never)]
    fn change(&mut self, slot: usize, line: &[u8; 64])
        requires { slot < KEPT_LINES }
        ensures { self.new ≡ slice_set self.old slot line.now }
    {
        self.lines[slot] = *line;
        decode_line::<D>(&mut self.instructions, &mut self.counts, slot, line);
    }

    /// What words mean from one on, of which the number is told, in the line that is kept for the number of its line: as many as are
    /// instructions one behind the other, to the end of the line at most. No clause says how many they are. Costs a step.
    #[inline(always)]
    pub fn words_from(&self, word: u64) -> &[Instr]
        ensures count { word % LINE_WORDS + length result.now ≤ LINE_WORDS }
        ensures words { AreFromBy D.has result.now (word % LINE_WORDS)
            (slice_index_or self.now (word / LINE_WORDS % KEPT_LINES) []) }
    {
        let first = (word % (LINE_WORDS * KEPT_LINES) as u64) as usize;
        let count = self.counts[first] as usize;
        &self.instructions[first..first + count]
    }
}
