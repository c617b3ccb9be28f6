//! Memories of pages with overlays: one for each space, over frames and segments that spaces share.
//!
//! The model of an `OverlayMemory` is that of the pages below it: the lines of the region, its blocks and
//! segments, and the tables of all spaces; and the translation lists. What calls do is said of the state that the
//! pages stand for, of the memory, the base and the ledger that are functions of it, and of the lists without what
//! their entries hold.
//!
//! - `comparing`: pages that are compared line by line
//! - `epochs`: pages that were found before with the places of their lines, forgotten in one step
//! - `error`: why a call isn't done
//! - `fronts`: what is known of pages, and of those at the front of their lists of translations
//! - `memory`: the public type
//! - `places`: where lines of pages at the front of their lists are read and written
//! - `reading`: bytes out of the lines of pages
//! - `removing`: pages that are taken away
//! - `room`: whether there are as many units as a change needs
//! - `settling`: pages that are settled after a store
//! - `storing`: bytes into the lines of pages, and what a store needs first
//! - `translating`: pages that accesses go through, and what entries hold of them
#![tactic(auto)]

mod comparing;
mod epochs;
mod error;
mod fronts;
mod memory;
mod places;
mod reading;
mod removing;
mod room;
mod settling;
mod storing;
mod translating;

pub use error::{MemoryError, Shortage, SpaceError};
pub use memory::OverlayMemory;
pub use overlay_pages::{FoundPage, LARGE_LINES, MOST_OWN};
pub use space_ledger::class_of;
