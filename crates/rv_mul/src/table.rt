//! The table of extension M.

ghost use Rattle.std.specs.Prelude.{◌≡◌, All};
ghost use Rattle.rv_decode.specs.Table.{rv64i_rows};
ghost use Rattle.rv_decode.specs.Fits.{AreApart, FitsOneRow};
ghost use Rattle.rv_mul.specs.Tables.{rv64m_rows};

use rv_decode::{CaseTable, Name};

/// The rows of these names.
macro_rules! rows {
    ($($name:ident)*) => {
        [$(Name::$name.row()),*]
    };
}

/// The table of extension M. No word fits a row of it and one of RV64I.
pub fn rv64m() -> CaseTable<13>
    ensures rows { result ≡ rv64m_rows }
    ensures one { FitsOneRow rv64m_rows }
    ensures apart { All (λ row. All (AreApart row) rv64i_rows) rv64m_rows }
{
    CaseTable::new(rows!(Mul Mulh Mulhsu Mulhu Div Divu Rem Remu Mulw Divw Divuw Remw Remuw))
}
