//! Chunks of pages with their bits, by rising chunks.

ghost use Rattle.std.specs.Prelude.{◌≡◌, ℕ, ◌+◌, ◌/◌, ◌%◌, ◌^◌, ◌<◌, ◌≤◌, ◌⊎◌, List, IfOk, IfErr, IsSome, length, true, false};
ghost use Rattle.std.specs.FinMap.{get};
ghost use Rattle.std.specs.Vec.{vec_capacity};
ghost use Rattle.number_maps.specs.Rows.{IsAt, IsGap, IsNextOne, RowsRise, map_of};
ghost use Rattle.page_set.specs.declared.TheConstants.{CHUNK_PAGES};
ghost use Rattle.page_set.specs.Sets.{AreTakenOut, IsNextMember, IsPut, places_in};
ghost use Rattle.page_set.specs.Kept.{AreSetRows};

use crate::CHUNK_PAGES;
use overlay_bits::Bits;

/// A chunk with the bits of its pages.
pub(crate) type Row = (u64, Bits);

// Where the row of a chunk stands, or would stand.
fn place_of(rows: &[Row], chunk: u64) -> Result<usize, usize>
    requires { RowsRise 0 rows.now }
    ensures there { IfOk result (IsAt rows.now chunk) }
    ensures gap { IfErr result (IsGap rows.now chunk) }
{
    rows.binary_search_by_key(&chunk, |row| row.0)
}

/// The bits of a chunk: none where it has no row.
pub(crate) fn bits_of(rows: &[Row], chunk: u64) -> Bits
    requires { RowsRise 0 rows.now }
    ensures { result ≡ places_in (get (map_of rows.now) chunk) }
{
    match place_of(rows, chunk) {
        Ok(at) => rows[at].1,
        Err(_) => Bits::empty(),
    }
}

// The row of the least chunk not below one.
fn next_row(rows: &[Row], chunk: u64) -> Option<Row>
    requires { RowsRise 0 rows.now }
    ensures { IsNextOne (map_of rows.now) chunk result }
{
    match place_of(rows, chunk) {
        Ok(at) => Some(rows[at]),
        Err(at) => {
            if at < rows.len() {
                Some(rows[at])
            } else {
                None
            }
        }
    }
}

/// The least member not below a page.
pub(crate) fn next_in(rows: &[Row], page: u64) -> Option<u64>
    requires { AreSetRows rows.now }
    ensures { IsNextMember (map_of rows.now) page result }
{
    let chunk = page / CHUNK_PAGES;
    match bits_of(rows, chunk).least_from((page % CHUNK_PAGES) as u8) {
        Some(place) => Some(CHUNK_PAGES * chunk + u64::from(place)),
        None => match next_row(rows, chunk + 1) {
            Some(row) => match row.1.least_from(0) {
                Some(place) => Some(CHUNK_PAGES * row.0 + u64::from(place)),
                None => unreachable!(),
            },
            None => None,
        },
    }
}

/// Puts a page in, for which there is room.
pub(crate) fn put_in(rows: &mut Vec<Row>, page: u64)
    requires kept { AreSetRows rows.old.items }
    requires room { IsSome (get (map_of rows.old.items) (page / CHUNK_PAGES))
        ⊎ (length rows.old.items < vec_capacity rows.old) }
    ensures kept { AreSetRows rows.new.items }
    ensures put { IsPut (map_of rows.old.items) page true (map_of rows.new.items) }
    ensures room { vec_capacity rows.old ≤ vec_capacity rows.new }
{
    let chunk = page / CHUNK_PAGES;
    let place = (page % CHUNK_PAGES) as u8;
    match place_of(rows, chunk) {
        Ok(at) => {
            let bits = rows[at].1.with(place);
            rows[at] = (chunk, bits);
        }
        Err(at) => match rows.insert(at, (chunk, Bits::empty().with(place))) {
            Ok(()) => {}
            Err(_) => unreachable!(),
        },
    }
}

/// Takes a page out. A chunk that has no more keeps no row.
pub(crate) fn take_out(rows: &mut Vec<Row>, page: u64)
    requires { AreSetRows rows.old.items }
    ensures kept { AreSetRows rows.new.items }
    ensures put { IsPut (map_of rows.old.items) page false (map_of rows.new.items) }
    ensures room { vec_capacity rows.new ≡ vec_capacity rows.old }
{
    let chunk = page / CHUNK_PAGES;
    let place = (page % CHUNK_PAGES) as u8;
    match place_of(rows, chunk) {
        Ok(at) => {
            let bits = rows[at].1.without(place);
            if bits.len() == 0 {
                rows.remove(at);
            } else {
                rows[at] = (chunk, bits);
            }
        }
        Err(_) => {}
    }
}

/// Takes out the `n` pages from `from` on, as many as are members.
pub(crate) fn take_run(rows: &mut Vec<Row>, from: u64, n: u32)
    requires kept { AreSetRows rows.old.items }
    requires low { from + n < 2 ^ 64 }
    ensures kept { AreSetRows rows.new.items }
    ensures cut { AreTakenOut (map_of rows.old.items) from n (map_of rows.new.items) }
    ensures room { vec_capacity rows.new ≡ vec_capacity rows.old }
{
    let end = from + u64::from(n);
    let mut next = from;
    'taking: while let Some(page) = next_in(rows, next) {
        if page >= end {
            return;
        }
        take_out(rows, page);
        next = page + 1;
    }
}
