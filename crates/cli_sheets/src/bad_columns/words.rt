//! What is told of a column that is at fault.

ghost use Rattle.std.specs.Prelude.{◌≡◌, ◌++◌, OnOk};
ghost use Rattle.cli_sheets.specs.BadColumns.Words as law;

use crate::bad_columns::column::{BadColumn, ColumnSlip};
use crate::wording;
use chart_numerals::write_numbered;
use std::io;
use std::io::Write;

/// Why it is.
fn why(slip: ColumnSlip) -> &'static str
    ensures { result.now ≡ law.why slip }
{
    match slip {
        ColumnSlip::Unprinted => wording::NO_WHEEL_PRINTS_THIS_CHARACTER,
        ColumnSlip::Several => wording::THIS_IS_NO_DIGIT,
        ColumnSlip::Twelve => wording::ROW_12_IS_PUNCHED,
        ColumnSlip::Eleven => wording::ROW_11_IS_PUNCHED,
        ColumnSlip::Missing => wording::A_DIGIT_IS_MISSING,
    }
}

/// Writes behind a text the column, the name of its field, and why it is at fault.
///
/// # Errors
///
/// `OutOfMemory` alone. The text may then have gained a part of this.
pub fn write_bad_column(text: &mut Vec<u8>, bad: BadColumn) -> io::Result<()>
    ensures { OnOk result (text.new.items ≡ text.old.items ++ law.bad_words bad) }
{
    write_numbered(text, wording::COLUMN, bad.column)?;
    text.write_all(b" of ")?;
    text.write_all(bad.name.as_bytes())?;
    text.write_all(b": ")?;
    text.write_all(why(bad.slip).as_bytes())?;
    text.write_all(b"\n")
}
