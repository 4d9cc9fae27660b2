//! Whether two storage units hold the same text.

ghost use Rattle.std.specs.Prelude.{◌≡◌, ◌≤◌};
ghost use Rattle.explain_origins.specs.Holding.{hold_same, hold_same_at, hold_same_rows, hold_same_to};

use card_code::{ROWS, Row};
use storage_units::Storage;

// Whether both hold a row in a column, or neither does.
fn hold_same_at(one: &Storage, other: &Storage, row: Row, column: u8) -> bool
    ensures { result ≡ hold_same_at one.now other.now row column }
{
    one.holds(row, column) == other.holds(row, column)
}

// Whether it is so in so many of the first columns.
#[tactic(auto, unfolding(crate::specs::Holding::hold_same_to))]
fn hold_same_to(one: &Storage, other: &Storage, row: Row, columns: u8) -> bool
    ensures { result ≡ hold_same_to one.now other.now row columns }
{
    if columns == 0 {
        return true;
    }
    hold_same_to(one, other, row, columns - 1) && hold_same_at(one, other, row, columns)
}

// Whether it is so with some rows, in all sixteen columns.
fn hold_same_rows(one: &Storage, other: &Storage, rows: &[Row]) -> bool
    ensures { result ≡ hold_same_rows one.now other.now rows.now }
{
    for row in rows {
        if !hold_same_to(one, other, *row, 16) {
            return false;
        }
    }
    true
}

// Whether two storage units hold the same text.
#[tactic(auto, unfolding(crate::specs::Holding::hold_same))]
pub(crate) fn hold_same(one: &Storage, other: &Storage) -> bool
    ensures { result ≡ hold_same one.now other.now }
{
    hold_same_rows(one, other, &ROWS)
}
