//! From the name of an overlay to its lines and its block.
//!
//! The model of a `MappingTable` is a finite map from names to entries, with the room that it was made with, and the
//! name in each of its slots.
//!
//! - `entry`: what a name has
//! - `full`: places known to have rows
//! - `gaps`: lists of which a stretch is written further on than its numbers say
//! - `moves`: names and entries that move beside each other
//! - `slots`: names and entries by slot
//! - `guesses`: where a search looks first
//! - `places`: slots counted on beyond the last one, and the home of a name
//! - `probes`: where a name stands or would stand
//! - `shifts`: rows are put in and taken out
//! - `table`: the entries by name
#![tactic(auto)]

mod entry;
mod full;
mod gaps;
mod guesses;
mod moves;
mod places;
mod probes;
mod shifts;
mod slots;
mod table;

pub use entry::Entry;
pub use table::MappingTable;
