//! Moves of blocks that make room in a unit map, where what is free suffices but lies apart.
//!
//! A move empties the other half of a free block into another free block of the same order, so that the two
//! halves of one block are free and become one. Free units stay; free blocks become fewer.
//!
//! - `moves`: which move comes next, and the move itself
#![tactic(auto)]

mod moves;

pub use moves::{Move, apply, move_of, next_move, room_for};

#[cfg(test)]
mod tests;
