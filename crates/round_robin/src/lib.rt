//! The order of turns: round robin with a quantum.
//!
//! The model is where the turns stand: the quantum, and the last number with how many turns it has had since
//! it was last chosen anew.
//!
//! - `turns`: the order
#![tactic(auto)]

mod turns;

pub use turns::RoundRobin;
