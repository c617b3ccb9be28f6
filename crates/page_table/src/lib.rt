//! A page table: which pages there are, each with what may be done with it and the frame that it lies in.
//!
//! A table has four levels of nodes with 512 slots each, which are gone through by the nine-bit digits of a page's number, the highest
//! first. A slot of an inner node may have a child, and one of a leaf an entry. The model of a `PageTable` is a finite map from page
//! numbers to entries, two maps from slots, to children and to entries, and the set of the pages that are overlaid. Pages are below
//! 2^36, and fewer than 2^32. Entries are mapped and unmapped by runs of pages; a mapping that runs out of memory leaves the table as
//! it was.
//!
//! - `entry`: what a page has
//! - `run`: pages that lie one after the other, with frames that are one or rise
//! - `nodes`: the nodes by number, each with guesses of where its links and runs stand
//! - `links`: the children of slots, in a long list and a short one
//! - `tree`: the way from a page to its slot, and new nodes
//! - `runs`: the entries of slots, as runs by rising slots
//! - `paths`: changes of pages, leaf by leaf
//! - `next`: the next pages, from the node on that was reached
//! - `table`: the pages by number
#![tactic(auto)]

mod entry;
mod links;
mod next;
mod nodes;
mod paths;
mod run;
mod runs;
mod table;
mod tree;

pub use entry::PageEntry;
pub use run::PageRun;
pub use table::PageTable;
