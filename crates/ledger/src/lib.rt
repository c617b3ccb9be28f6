//! The ledger of pages: who shares a page's lines with whom, which lines are its own, and how many units that takes. It
//! knows no bytes, no frames and no code: spaces, pages, origins and lines are numbers.
//!
//! It has no function. Specs of the crates above cite its definitions, and their proofs its laws.
//!
//! - `specs/Ledger.antt`: the ledger, and when a page is alone
//! - `specs/Units.antt`: units
//! - `specs/Origins.antt`: a new origin
//! - `specs/Touched.antt`: the pages and lines that an access touches
//! - `specs/Changes.antt`: what is done to a page
//! - `specs/Events.antt`: the ledger after each event
//! - `specs/Alike.antt`: ledgers that differ in the numbers of their origins alone
//! - `specs/..Laws.antt`, `specs/AlikeUnits.antt`: laws, each file with those of one subject
#![tactic(auto)]
