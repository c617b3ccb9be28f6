//! The lines of an assembler's text: what each says.
//!
//! A line may have a label and an item behind it, which is an instruction as it is printed, or a word as it stands. The
//! model is the grammar: a line is its words, and an item what they are by the row of their name, as the instruction
//! table and the report's text of an instruction have it. So what is printed of a word is read as that word.
//!
//! - `lines`: the lines of a text, the label of each, and the item on it
//! - `items`: items by their words
//! - `kinds`: what a word of each kind says
//! - `names`: the names of the rows
//! - `numbers`: how numbers are spelled
//! - `words`: the words of a line
#![tactic(auto)]

mod items;
mod kinds;
mod lines;
mod names;
mod numbers;
mod words;

pub use items::Item;
pub use kinds::placed;
pub use lines::{Front, first_line, front_of, has_item, item_on, without_return};

/// The most bytes of a label's name.
pub const MOST_LABEL: usize = 32;
