//! A line of a deck as it stands, with a mark under one of its columns.

ghost use Rattle.std.specs.Prelude.{◌≡◌, ◌++◌, OnOk};
ghost use Rattle.std.specs.List.{flat_map};
ghost use Rattle.chart_line_rules.specs.FieldRules.Fields.{fields_of};
ghost use Rattle.cli_sheets.specs.SheetsWords.Marks as marks;

use crate::bad_columns::front_of;
use crate::sheets::runs::write_run;
use chart_lines::charts::Field;
use chart_rules::Chart;
use fault_lines::program_io::write_printable;
use std::io;
use std::io::Write;

// Whether a field reads a column: one of its own, or that of its sign.
fn reads_column(field: &Field, column: u32) -> bool
    ensures { result ≡ marks.reads_column column field.now }
{
    let is_own = u32::from(field.first) <= column && column <= u32::from(field.last);
    let is_sign = match field.kind.sign_column() {
        Some(sign) => u32::from(sign) == column,
        None => false,
    };
    is_own || is_sign
}

// The name of a field that reads a column.
fn write_name_at(text: &mut Vec<u8>, column: u32, field: &Field) -> io::Result<()>
    ensures { OnOk result (text.new.items ≡ text.old.items ++ marks.name_at column field.now) }
{
    if reads_column(field, column) {
        text.write_all(b" ")?;
        text.write_all(field.name.as_bytes())?;
    }
    Ok(())
}

#[tactic(auto, using(crate::proofs::SheetsWords::Growing::piece_more))]
// The names of the fields that read a column.
fn write_names_at(text: &mut Vec<u8>, column: u32, fields: &[Field]) -> io::Result<()>
    ensures { OnOk result (text.new.items ≡ text.old.items ++ flat_map (marks.name_at column) fields.now) }
{
    for field in fields {
        write_name_at(text, column, field)?;
    }
    Ok(())
}

// The mark under a column, and the names of the fields that read it.
pub(crate) fn write_column_mark(text: &mut Vec<u8>, column: u32, fields: &[Field]) -> io::Result<()>
    ensures { OnOk result (text.new.items ≡ text.old.items ++ marks.column_mark column fields.now) }
{
    write_run(text, b' ', column.saturating_sub(1) as usize)?;
    text.write_all(b"^")?;
    write_names_at(text, column, fields)?;
    text.write_all(b"\n")
}

/// Writes behind a text a line of a deck as it stands, its first 80 bytes, and under it a mark at a column, from 1, with the names of the
/// chart's fields that read the column, as one of their own or for their sign. A question mark stands for a byte that doesn't print.
///
/// # Errors
///
/// `OutOfMemory` alone. The text may then have gained a part of this.
pub fn write_marked_line(
    text: &mut Vec<u8>,
    chart: &Chart,
    line: &[u8],
    column: u32,
) -> io::Result<()>
    ensures { OnOk result (text.new.items ≡ text.old.items ++ marks.marked_line line.now column (fields_of chart.now.lines)) }
{
    write_printable(text, front_of(line))?;
    text.write_all(b"\n")?;
    write_column_mark(text, column, chart.fields())
}
