//! A unit map: which parts of memory are free. Memory is counted in units of 256 bytes, 16 to a frame, and
//! handed out by blocks: the binary buddy system within each frame.
//!
//! The model of a `UnitMap` is the list of its pieces, ascending: each has the unit at which it starts, its
//! order (it covers 2^order units, order 0 to 4), and whether it is free. The pieces fill the frames, each is
//! aligned to its size, and no two free ones are halves of one block. How they are kept doesn't show.
//!
//! - `block`: a block, and its other half
//! - `cells`: what is done to the table, a byte a unit, which tells the pieces (`mark_levels`)
//! - `orders`: how many free blocks there are of each order
//! - `map`: a table, those counts and the number of free units
#![tactic(auto)]

mod block;
mod cells;
mod map;
mod orders;

pub use block::Block;
pub use map::UnitMap;
