//! What the fields of a chart read on a card.

ghost use Rattle.std.specs.Prelude.{◌≡◌, ◌++◌, ◌-◌, ◌<◌, ◌≤◌, ◌/◌, ◌%◌, ◌^◌, OnOk, map};
ghost use Rattle.chart_rules.specs.HelperOnCard.{IsOnCard};
ghost use Rattle.chart_line_rules.specs.FieldRules.Fields.{fields_of};
ghost use Rattle.report_definition.specs.BodyLines.{text_on};
ghost use Rattle.report_definition.specs.Edits.{figure, last_digits};
ghost use Rattle.cli_sheets.specs.SheetsWords.Fields as told;
ghost use Rattle.cli_sheets.specs.SheetsWords.Helper.{IsReadable};

use crate::sheets::runs::write_run;
use crate::wording;
use card_code::{Card, Column};
use chart_lines::charts::{Field, FieldKind};
use chart_numerals::{write_number, write_numbered};
use chart_rules::Chart;
use report_misfits::value_of;
use std::io;
use std::io::Write;

// The marks under the columns of a field.
fn write_marks(text: &mut Vec<u8>, field: &Field) -> io::Result<()>
    ensures { OnOk result (text.new.items ≡ text.old.items ++ told.marks field.now) }
{
    write_run(text, b' ', usize::from(field.first.saturating_sub(1)))?;
    write_run(text, b'^', field.columns() as usize)
}

// The columns of a field.
fn write_columns(text: &mut Vec<u8>, field: &Field) -> io::Result<()>
    ensures { OnOk result (text.new.items ≡ text.old.items ++ told.columns_told field.now) }
{
    let first = field.first;
    let last = field.last;
    if field.columns() == 1 {
        return write_numbered(text, wording::IN_COLUMN, first);
    }
    write_numbered(text, wording::IN_COLUMNS, first)?;
    write_numbered(text, " to ", last)
}

// The sign column of a field.
fn write_sign(text: &mut Vec<u8>, kind: FieldKind) -> io::Result<()>
    ensures { OnOk result (text.new.items ≡ text.old.items ++ told.sign_told kind) }
{
    match kind.sign_column() {
        Some(column) => write_numbered(text, wording::SIGN_IN_COLUMN, column),
        None => Ok(()),
    }
}

/// Writes the characters in the columns of a field, as the columns print.
///
/// # Errors
///
/// `OutOfMemory` alone. The text may then have gained some of them.
pub fn write_text(text: &mut Vec<u8>, card: &Card, field: &Field) -> io::Result<()>
    requires { IsOnCard field.now }
    ensures { OnOk result (text.new.items ≡ text.old.items ++ text_on card.now field.now) }
{
    for column in field.first..field.last + 1 {
        text.push(card.column(column as u8).print_character())?;
    }
    Ok(())
}

// A column as it stands in a deck: a wheel prints a blank for `!`, but the deck has it.
#[tactic(auto, unfolding(card_code::specs::CardCode::print_character))]
fn character_of(column: Column) -> u8
    ensures { result ≡ told.character_of column }
{
    match column.to_char() {
        Some('!') => b'!',
        _ => column.print_character(),
    }
}

// The deck's own characters in the columns of a field.
fn write_characters(text: &mut Vec<u8>, card: &Card, field: &Field) -> io::Result<()>
    requires { IsOnCard field.now }
    ensures { OnOk result (text.new.items ≡ text.old.items ++ told.characters_in card.now field.now) }
{
    for column in field.first..field.last + 1 {
        text.push(character_of(card.column(column as u8)))?;
    }
    Ok(())
}

// A digit of a number, by how many are behind it.
fn digit_at(number: u64, place: u32) -> u8
    requires { place ≤ 8 }
    ensures { result ≡ figure (number / 10 ^ place % 10) }
{
    b'0' + (number / 10_u64.pow(place) % 10) as u8
}

// The last digits of a number.
fn write_digits(text: &mut Vec<u8>, number: u64, count: u32) -> io::Result<()>
    requires { count ≤ 8 }
    ensures { OnOk result (text.new.items ≡ text.old.items ++ map figure (last_digits count number)) }
{
    for place in (0..count).rev() {
        text.push(digit_at(number, place))?;
    }
    Ok(())
}

/// Writes a whole number with its last digits as decimals.
///
/// # Errors
///
/// `OutOfMemory` alone. The text may then have gained a part of this.
pub fn write_with_decimals(text: &mut Vec<u8>, number: u64, decimals: u32) -> io::Result<()>
    requires { decimals ≤ 8 }
    ensures { OnOk result (text.new.items ≡ text.old.items ++ told.number_told number decimals) }
{
    write_number(text, number / 10_u64.pow(decimals))?;
    if decimals == 0 {
        return Ok(());
    }
    text.write_all(b".")?;
    write_digits(text, number, decimals)
}

/// Writes a value with its last digits as decimals, and `-` before it if it is negative.
///
/// # Errors
///
/// `OutOfMemory` alone. The text may then have gained a part of this.
pub fn write_value(text: &mut Vec<u8>, value: i64, decimals: u32) -> io::Result<()>
    requires { decimals ≤ 8 }
    ensures { OnOk result (text.new.items ≡ text.old.items ++ told.value_told value decimals) }
{
    if value < 0 {
        text.write_all(b"-")?;
    }
    write_with_decimals(text, value.unsigned_abs(), decimals)
}

// The value of an amount, where values are told.
fn write_value_part(
    text: &mut Vec<u8>,
    tells_values: bool,
    card: &Card,
    field: &Field,
) -> io::Result<()>
    requires { IsReadable field.now }
    ensures { OnOk result (text.new.items ≡ text.old.items ++ told.value_part tells_values card.now field.now field.now.kind) }
{
    if !tells_values || !field.kind.is_amount() {
        return Ok(());
    }
    text.write_all(b" = ")?;
    write_value(
        text,
        value_of(field, card),
        u32::from(field.kind.decimals()),
    )
}

// The marks of a field, and under them its name and where it is.
fn write_place(text: &mut Vec<u8>, field: &Field) -> io::Result<()>
    ensures { OnOk result (text.new.items ≡ text.old.items ++ told.place_told field.now) }
{
    write_marks(text, field)?;
    text.write_all(b"\n")?;
    text.write_all(field.name.as_bytes())?;
    write_columns(text, field)?;
    write_sign(text, field.kind)
}

// What a field reads on a card.
fn write_reading(
    text: &mut Vec<u8>,
    tells_values: bool,
    card: &Card,
    field: &Field,
) -> io::Result<()>
    requires { IsReadable field.now }
    ensures { OnOk result (text.new.items ≡ text.old.items ++ told.reading_told tells_values card.now field.now) }
{
    text.write_all(b": [")?;
    write_characters(text, card, field)?;
    text.write_all(b"]")?;
    write_value_part(text, tells_values, card, field)?;
    text.write_all(b"\n")
}

// A field on a card.
fn write_field(text: &mut Vec<u8>, tells_values: bool, card: &Card, field: &Field) -> io::Result<()>
    requires { IsReadable field.now }
    ensures { OnOk result (text.new.items ≡ text.old.items ++ told.field_told tells_values card.now field.now) }
{
    write_place(text, field)?;
    write_reading(text, tells_values, card, field)
}

#[tactic(auto, using(crate::proofs::SheetsWords::Growing::piece_more))]
/// Writes behind a text what the fields of a chart read on a card, in the order of the chart: marks under the field's columns, then its
/// name, its columns, the deck's characters in them and, if values are told, the value of an amount. What stands above it has to begin at column 1.
///
/// # Errors
///
/// `OutOfMemory` alone. The text may then have gained a part of this.
pub fn write_fields(
    text: &mut Vec<u8>,
    tells_values: bool,
    chart: &Chart,
    card: &Card,
) -> io::Result<()>
    ensures { OnOk result (text.new.items ≡ text.old.items ++ told.fields_told tells_values card.now (fields_of chart.now.lines)) }
{
    for field in chart.fields() {
        write_field(text, tells_values, card, field)?;
    }
    Ok(())
}
