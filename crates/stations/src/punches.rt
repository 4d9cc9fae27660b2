//! Cards as the sets of rows of their eighty columns, and the words of their rows, which are read off these.

ghost use Rattle.std.specs.Prelude.{◌≡◌, ℕ, ◌<◌, map, true};
ghost use Rattle.card_code.specs.Columns.{column_of};
ghost use Rattle.net.specs.HubSets.{is_bit};
ghost use Rattle.net.specs.HubRows.{has_at};
ghost use Rattle.stations.specs.Kept.{card_of};
ghost use Rattle.stations.specs.Punches.{AreColumnsAt, AreRowsAt, IsRowAt};

use crate::lanes::having_row;
use card_code::{CARD_COLUMNS, Card, Row};

// The columns of no card.
const NO_COLUMNS: [u16; CARD_COLUMNS] = [0; CARD_COLUMNS];

// Puts the sets of the columns of a card in the place of those of another one.
pub(crate) fn put_columns(card: &Card, columns: &mut [u16; CARD_COLUMNS])
    ensures { map column_of columns.new ≡ card.now }
{
    let punched = card.columns();
    for k in 0..CARD_COLUMNS {
        columns[k] = punched[k].set();
    }
}

// The sets of the columns at a station: empty ones if no card stands there.
pub(crate) fn columns_at(is_there: bool, columns: &[u16; CARD_COLUMNS]) -> &[u16; CARD_COLUMNS]
    ensures { AreColumnsAt (card_of is_there columns.now) result.now }
{
    if is_there { columns } else { &NO_COLUMNS }
}

// The word of a row at a station.
pub(crate) fn row_at(is_there: bool, columns: &[u16; CARD_COLUMNS], row: Row) -> u128
    ensures { IsRowAt (card_of is_there columns.now) row result }
{
    if is_there {
        row_of(columns, row.place())
    } else {
        0
    }
}

// The words of the rows at a station.
pub(crate) fn rows_at(is_there: bool, columns: &[u16; CARD_COLUMNS]) -> [u128; 12]
    ensures { AreRowsAt (card_of is_there columns.now) result }
{
    if is_there { rows_of(columns) } else { [0; 12] }
}

// The words of the rows of a card, by its columns.
fn rows_of(columns: &[u16; CARD_COLUMNS]) -> [u128; 12]
    ensures { AreRowsAt (card_of true columns.now) result }
{
    let mut rows = [0; 12];
    for place in 0..12 {
        rows[place] = row_of(columns, place);
    }
    rows
}

// The word of one row, by its place: bit k stands for the column at place k.
fn row_of(columns: &[u16; CARD_COLUMNS], place: usize) -> u128
    requires { place < 12 }
    ensures { (k : ℕ) → is_bit result k ≡ has_at columns.now k place }
{
    let first = u128::from(having_row(columns, 0, place));
    let last = u128::from(having_row(columns, 16, place));
    first | last << 16
}
