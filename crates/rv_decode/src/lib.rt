//! The decoder of RV64I: which instruction a word of 32 bits is, and which word an instruction has.
//!
//! The model is the instruction table: rows, each with the bits that it fixes, what they are, a format and a name. A word
//! means the one row whose fixed bits it has, with the fields and the immediate of that row's format, or nothing. Of the 65
//! names 52 are RV64I's, and 13 its extension M's; which of them have a row in a table is what tells one table from another.
//! The rows and the formats are those of the RISC-V Unprivileged ISA manual.
//!
//! | Module | What it has |
//! |---|---|
//! | `names` | `Name` and `Format`: the instructions and the shapes of their words |
//! | `rows` | `CaseRow`: one row of a table |
//! | `table` | `CaseTable`: rows of which no word fits two, and the look-up by a word |
//! | `base_table` | the rows: `rv64i`, the table of RV64I, `Name::row` and `Name::text` |
//! | `instruction` | `Instr`: a name with its fields |
//! | `decoder` | `decode`: from a word, by nested tests in place of a look-up |
//! | `groups` | the decoder's parts, one for each major opcode |
//! | `decoders` | `Decoder`: a table as a type, for what decodes by a table that it is told; `Rv64i` is one |
//! | `fields` | the registers and the immediate of a word, one function for each format |
//! | `encoder` | `encode`: back to the word; `word_of`, the same for a name of any table |
#![tactic(auto)]

mod base_table;
mod decoder;
mod decoders;
mod encoder;
mod fields;
mod groups;
mod instruction;
mod names;
mod rows;
mod table;

pub use base_table::rv64i;
pub use decoder::decode;
pub use decoders::{Decoder, Rv64i};
pub use encoder::{encode, word_of};
pub use instruction::Instr;
pub use names::{Format, Name};
pub use rows::CaseRow;
pub use table::CaseTable;
