//! Promotion: the overlays of a space, or of one page, become part of its frames.
//!
//! What calls do is said of the state that the memory stands for, and of the ledger that is a function of it.
//!
//! - `error`: why nothing is promoted
//! - `units`: the units after pages are settled, before any is
//! - `settling`: each page with own lines is settled, those that are alone first
//! - `promoting`: one page, or all of a space
//! - `committing`: pages that are alone, and those that have 32 own lines or more
#![tactic(auto)]

mod committing;
mod error;
mod promoting;
mod settling;
mod units;

pub use committing::commit_pages;
pub use error::PromoteError;
pub use promoting::{promote, promote_all};
pub use settling::settle;
