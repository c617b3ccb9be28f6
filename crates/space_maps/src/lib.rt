//! Spaces by number, with pages of any type, and their laws. It has no function: specs and proofs of the crates above cite it.
//!
//! - `specs/Spaces.antt`: spaces by number, what is at a place, and what is done to them
//! - `specs/Laws.antt`: what is at a place after each change
//! - `specs/Mapped.antt`: the same spaces with their pages seen in another way
//! - `specs/Books.antt`: the ledger of spaces whose pages hold something
#![tactic(auto)]
