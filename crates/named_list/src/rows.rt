//! An entry, and the place of one by its number.

ghost use Rattle.std.specs.Prelude.{◌≡◌, IfOk, IfErr};
ghost use Rattle.number_maps.specs.Rows.{IsAt, IsGap, RowsRise};
ghost use Rattle.named_list.specs.Listed.{name_in, value_in};

use std::alloc::{AllocError, Global};
use std::collections::VecDeque;

/// A value with its name.
#[derive(Drop)]
pub(crate) struct Entry<V> {
    pub(crate) name: Vec<u8>,
    pub(crate) value: V,
}

/// An entry behind its number, which is greater than that of each entry before it.
pub(crate) type Row<V> = (u64, Box<Entry<V>>);

/// An entry with a copy of a name.
pub(crate) fn new_entry<V: Drop>(
    alloc: Global,
    name: &[u8],
    value: V,
) -> Result<Box<Entry<V>>, AllocError>
    ensures name { IfOk result (λ entry. name_in entry ≡ name.now) }
    ensures value { IfOk result (λ entry. value_in entry ≡ value) }
{
    let name = Vec::from_slice(alloc, name)?;
    match Box::new(alloc, Entry { name, value }) {
        Ok(entry) => Ok(entry),
        Err(_) => Err(AllocError),
    }
}

/// Where the row of a number stands, or would stand.
pub(crate) fn place_of<V>(rows: &VecDeque<Row<V>>, number: u64) -> Result<usize, usize>
    requires { RowsRise 0 rows.now.items }
    ensures there { IfOk result (IsAt rows.now.items number) }
    ensures gap { IfErr result (IsGap rows.now.items number) }
{
    rows.binary_search_by_key(&number, |row| row.0)
}
