//! Which column of a card is at fault in a field, and why.
//!
//! [`bad_column`] answers the first such column of the field that a fault names by its first column, and [`write_bad_column`] tells it in
//! words, with the name of the field: `column 7 of QTY: this is no digit`. [`front_of`] is as much of a line as a card has columns.
//!
//! `specs/Columns.antt` says which column that is, `Laws.antt` that it stands in the field for which the card is refused, and `Words.antt` has the
//! words.

mod column;
mod laws;
mod words;

pub use column::{BadColumn, ColumnSlip, bad_column, front_of};
pub use laws::bad_columns_stand_in_first_invalid_fields;
pub use words::write_bad_column;
