//! A table of rows of which no word fits two.

ghost use Rattle.std.specs.Prelude.{◌≡◌, ℕ, Some, List, All, AllPairs, position};
ghost use Rattle.rv_decode.specs.declared.rows.CaseRow.{CaseRow};
ghost use Rattle.rv_decode.specs.Fits.{FitsAt, IsWithinMask, AreApart, IsCaseTable, FindsRow, fits};

use crate::rows::CaseRow;
use std::marker::Model;

/// Rows of which no word fits two.
#[derive(Debug, Drop)]
pub struct CaseTable<const N: usize> {
    rows: [CaseRow; N],
}

impl<const N: usize> Model for CaseTable<N> {
    ghost Value = { List CaseRow };

    ghost view = { λ table. table.rows };

    ghost invariant = { λ table. IsCaseTable table.rows };
}

impl<const N: usize> CaseTable<N> {
    /// A table of these rows: each row's value lies within its mask, and the values of any two rows differ in a bit that
    /// both masks have.
    pub fn new(rows: [CaseRow; N]) -> CaseTable<N>
        requires within { All IsWithinMask rows }
        requires apart { AllPairs AreApart rows }
        ensures { result ≡ rows.entry }
    {
        CaseTable { rows }
    }

    /// The place in the list of the one row that the word fits, if it fits any.
    pub fn find(&self, word: u32) -> Option<usize>
        ensures place { FindsRow self.now word result }
        ensures only { (k : ℕ) → FitsAt self.now word k → result ≡ Some k }
    {
        first_place(&self.rows, word)
    }
}

/// The place of the first row that the word fits.
fn first_place(rows: &[CaseRow], word: u32) -> Option<usize>
    ensures { result ≡ position (λ row. fits row word) rows.now }
{
    rows.iter().position(|row| word & row.mask == row.value)
}
