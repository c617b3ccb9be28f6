//! Deltas of spaces: how a saved space differs from another one, and a space that is made of a base and a delta.
//!
//! What calls do is said of the state that the memory stands for, of the memories of its spaces, and of the ledger that is a function
//! of it.
//!
//! - `differing`: which lines of a page differ from those of the base's page
//! - `gathering`: the delta of a space over a base
//! - `measuring`: how long the image of that delta is, before it is gathered
//! - `building`: a space that is made of a base and a delta
//! - `fitting`: the base's table without the pages that the delta lacks, and with its permissions
//! - `filling`: the base's pages are shared, the other ones are mapped, and all get their lines
//! - `units`: the units after it, before anything is changed
#![tactic(auto)]

mod building;
mod differing;
mod filling;
mod fitting;
mod gathering;
mod measuring;
mod units;

pub use building::build;
pub use gathering::gather;
pub use measuring::image_length;
