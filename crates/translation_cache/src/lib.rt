//! The translation lists: for each of 16 sets the pages that were used last, at most four, the most recent first.
//!
//! The model of a `Cache` is its lists with what each entry holds of its page, and the two counts. The same lists without
//! what they hold are what accesses do, whatever the code keeps: `specs/Counted.antt` says that.
//!
//! - `cached`: what an entry holds
//! - `entries`: one list
//! - `cache`: the lists and the counts
#![tactic(auto)]

mod cache;
mod cached;
mod entries;

pub use cache::Cache;
pub use cached::Cached;

/// How many sets there are. The set of a page is its number modulo this.
pub const SETS: usize = 16;

/// The most entries of a set.
pub const SET_ENTRIES: usize = 4;
