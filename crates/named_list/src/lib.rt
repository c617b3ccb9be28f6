//! Values by name, in the order in which they were entered.
//!
//! The model of a `NamedList` is the list of its entries, each a name with a value. An entry is found by its name or by its place, and no
//! call goes over the entries.
//!
//! - `rows`: an entry, and the place of one by its number
//! - `list`: `NamedList` with its calls
#![tactic(auto)]

mod list;
mod rows;
#[cfg(test)]
mod tests;

pub use list::NamedList;
