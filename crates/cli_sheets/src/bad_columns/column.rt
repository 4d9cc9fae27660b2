//! The first column of a field that is at fault on a card.

ghost use Rattle.std.specs.Prelude.{◌≡◌, ◌≤◌, ◌-◌, ◌++◌, false, length, replicate, take};
ghost use Rattle.card_code.specs.CardCode.{deck_character};
ghost use Rattle.chart_line_rules.specs.FieldRules.Fields.{fields_of};
ghost use Rattle.chart_rules.specs.ValidCard as valid;
ghost use Rattle.cli_sheets.specs.BadColumns.Columns as law;

use card_code::{CARD_COLUMNS, Column, Row};
use chart_lines::charts::{Field, FieldKind, Name};
use chart_rules::Chart;

/// The rows of the digits.
#[rattlefmt::skip]
static DIGIT_ROWS: [Row; 10] = [
    Row::Zero, Row::One, Row::Two, Row::Three, Row::Four, Row::Five, Row::Six, Row::Seven, Row::Eight, Row::Nine,
];

/// Why a column of a field is at fault.
#[derive(Clone, Copy, Debug, PartialEq, Eq)]
pub enum ColumnSlip {
    /// The character of a text is printed by no wheel.
    Unprinted,
    /// Several of the rows 0 to 9 are punched in a column of an amount.
    Several,
    /// Row 12 is punched in a column of an amount.
    Twelve,
    /// Row 11 is, and it is not the sign column.
    Eleven,
    /// No digit stands where an amount that has digits has one: behind another digit, in its last column, and in those of its decimals.
    Missing,
}

/// A column of a field that is at fault on a card.
#[derive(Clone, Copy, Debug, PartialEq, Eq)]
pub struct BadColumn {
    /// The name of the field.
    pub name: Name,
    /// The column, 1 to 80.
    pub column: u32,
    /// Why it is at fault.
    pub slip: ColumnSlip,
}

/// What is punched for a byte: nothing, if it is no character of a card.
fn column_of(byte: u8) -> Column
    ensures { result ≡ law.rows_at byte }
{
    match Column::of_char(char::from(byte)) {
        Some(column) => column,
        None => Column::blank(),
    }
}

/// As much of a line as a card has columns.
pub fn front_of(line: &[u8]) -> &[u8]
    ensures front { result.now ≡ take 80 line.now }
    ensures short { length result.now ≤ 80 }
{
    if line.len() < CARD_COLUMNS {
        line
    } else {
        &line[..CARD_COLUMNS]
    }
}

/// Up to 80 bytes, filled with blanks to 80.
fn filled(front: &[u8]) -> [u8; 80]
    requires { length front.now ≤ 80 }
    ensures { result ≡ front.now ++ replicate (80 - length front.now) 32 }
{
    let mut bytes = [b' '; CARD_COLUMNS];
    bytes[..front.len()].copy_from_slice(front);
    bytes
}

/// The 80 bytes of a line, filled with blanks.
fn padded(line: &[u8]) -> [u8; 80]
    ensures { result ≡ law.padded line.now }
{
    filled(front_of(line))
}

/// How many of some rows are punched in a column.
fn punched_among(rows: &[Row], column: Column) -> usize
    ensures { result ≡ valid.punched_among rows.now column }
{
    rows.iter().filter(|row| column.has_row(**row)).count()
}

/// How many of the rows 0 to 9 are punched in a column.
fn digit_count(column: Column) -> usize
    ensures { result ≡ valid.digit_count column }
{
    punched_among(&DIGIT_ROWS, column)
}

/// Whether a wheel prints a column, or it is blank.
fn is_printed(column: Column) -> bool
    ensures { result ≡ valid.is_printed (deck_character column) }
{
    match column.to_char() {
        Some(character) => character != '!',
        None => false,
    }
}

/// What is wrong with a column of a text.
fn text_slip(rows: Column) -> Option<ColumnSlip>
    ensures { result ≡ law.text_slip rows }
{
    if is_printed(rows) {
        None
    } else {
        Some(ColumnSlip::Unprinted)
    }
}

/// Whether a column is the sign column.
fn is_sign(sign: Option<u16>, column: u32) -> bool
    ensures { result ≡ valid.is_sign sign column }
{
    match sign {
        Some(sign) => u32::from(sign) == column,
        None => false,
    }
}

/// What is wrong with a column of an amount, in which a digit has to stand or not.
fn amount_slip(sign: Option<u16>, is_due: bool, column: u32, rows: Column) -> Option<ColumnSlip>
    ensures { result ≡ law.amount_slip sign is_due column rows }
{
    let digits = digit_count(rows);
    if digits > 1 {
        Some(ColumnSlip::Several)
    } else if rows.has_row(Row::Twelve) {
        Some(ColumnSlip::Twelve)
    } else if rows.has_row(Row::Eleven) && !is_sign(sign, column) {
        Some(ColumnSlip::Eleven)
    } else if is_due && digits == 0 {
        Some(ColumnSlip::Missing)
    } else {
        None
    }
}

/// What a field has before a column.
#[derive(Clone, Copy, Debug, PartialEq, Eq)]
struct Digits {
    /// Whether it has a digit in any of its columns.
    has_some: bool,
    /// Whether it has one before the column.
    is_begun: bool,
}

/// Whether a digit has to stand in a column of an amount.
fn is_due(field: &Field, digits: Digits, column: u32) -> bool
    ensures { result ≡ law.is_due field.now digits.has_some digits.is_begun column }
{
    let least = u16::max(field.kind.decimals(), 1);
    let is_low = u64::from(field.last) < u64::from(column) + u64::from(least);
    digits.is_begun || digits.has_some && is_low
}

/// What is wrong with a column of a field.
fn kind_slip(field: &Field, digits: Digits, column: u32, rows: Column) -> Option<ColumnSlip>
    ensures { result ≡ law.kind_slip field.now.kind field.now digits.has_some digits.is_begun column rows }
{
    match field.kind {
        FieldKind::Text => text_slip(rows),
        FieldKind::Amount { .. } => {
            let due = is_due(field, digits, column);
            amount_slip(field.kind.sign_column(), due, column, rows)
        }
    }
}

/// Whether a field has a column.
fn has_column(field: &Field, column: u32) -> bool
    ensures { result ≡ law.has_column field.now column }
{
    u32::from(field.first) <= column && column <= u32::from(field.last)
}

/// What is wrong with a column, if the field has it.
fn slip_at(field: &Field, digits: Digits, column: u32, rows: Column) -> Option<ColumnSlip>
    ensures { result ≡ law.slip_at field.now digits.has_some digits.is_begun column rows }
{
    if has_column(field, column) {
        kind_slip(field, digits, column, rows)
    } else {
        None
    }
}

/// Whether a digit stands in a column of a field.
fn has_digit(field: &Field, column: u32, rows: Column) -> bool
    ensures { result ≡ law.has_digit field.now column rows }
{
    has_column(field, column) && digit_count(rows) > 0
}

/// Whether a digit stands in a column of a field on a card of 80 bytes.
#[tactic(auto, unfolding(crate::specs::BadColumns::Columns::has_digits))]
fn has_digits(field: &Field, bytes: &[u8; 80]) -> bool
    ensures { result ≡ law.has_digits field.now 1 bytes.now }
{
    for (place, byte) in bytes.iter().enumerate() {
        if has_digit(field, place as u32 + 1, column_of(*byte)) {
            return true;
        }
    }
    false
}

/// The first column at fault of a field, one that has a digit or none, on a card of 80 bytes.
#[tactic(auto, unfolding(crate::specs::BadColumns::Columns::bad_from))]
fn first_bad(field: &Field, has_some: bool, bytes: &[u8; 80]) -> Option<BadColumn>
    ensures { result ≡ law.bad_from field.now has_some false 1 bytes.now }
{
    let mut is_begun = false;
    for (place, byte) in bytes.iter().enumerate() {
        let (column, rows) = (place as u32 + 1, column_of(*byte));
        let digits = Digits { has_some, is_begun };
        if let Some(slip) = slip_at(field, digits, column, rows) {
            return Some(BadColumn {
                name: field.name,
                column,
                slip,
            });
        }
        is_begun = is_begun || has_digit(field, column, rows);
    }
    None
}

/// The first column at fault of a field on a card of 80 bytes.
fn bad_in(field: &Field, bytes: &[u8; 80]) -> Option<BadColumn>
    ensures { result ≡ law.bad_in field.now bytes.now }
{
    first_bad(field, has_digits(field, bytes), bytes)
}

/// The first column at fault of a field on the card of a line, if the field begins in a column.
fn bad_of(field: &Field, first: u32, line: &[u8]) -> Option<BadColumn>
    ensures { result ≡ law.bad_of first line.now field.now }
{
    if u32::from(field.first) == first {
        bad_in(field, &padded(line))
    } else {
        None
    }
}

/// The first column at fault of the first of some fields that begins in a column and has one.
#[tactic(auto, unfolding(crate::specs::BadColumns::Columns::bad_among))]
fn bad_among(fields: &[Field], first: u32, line: &[u8]) -> Option<BadColumn>
    ensures { result ≡ law.bad_among first line.now fields.now }
{
    for field in fields {
        if let Some(bad) = bad_of(field, first, line) {
            return Some(bad);
        }
    }
    None
}

/// The first column at fault of the first field of a chart that begins in a column and has one, on the card of a line.
///
/// The line is that of a card that is not valid for the chart, and the column that of its fault. `None` if no such field has a column at fault.
pub fn bad_column(chart: &Chart, first: u32, line: &[u8]) -> Option<BadColumn>
    ensures { result ≡ law.bad_among first line.now (fields_of chart.now.lines) }
{
    bad_among(chart.fields(), first, line)
}
