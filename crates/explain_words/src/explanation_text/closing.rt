//! The lines behind the rows.

ghost use Rattle.std.specs.Prelude.{◌≡◌, ◌<◌, ◌++◌, IfOk, OnOk, length};
ghost use Rattle.std.specs.String.{string_bytes};
ghost use Rattle.print_unit.specs.ZeroControl.{character_of, received_set};
ghost use Rattle.explain_words.specs.ExplanationText.Closing.{character_line, closing, closing_lines, listed, printed_text, received_by, row_listed, rows_are, rows_listed, separator};

use crate::explanation_text::lines::write_character;
use crate::explanation_text::names::row_at;
use crate::explanation_text::zero_control::write_zero_control;
use card_code::{Column, ROWS};
use chart_numerals::{push_between, push_number, push_numbered};
use explain_wheels::explanations::Explanation;
use hubs::setups::Setup;
use std::alloc::{AllocError, Global};

// Which character the rows are, and what zero control did.
pub(crate) fn write_closing(
    alloc: Global,
    text: &mut String,
    setup: &Setup,
    told: &Explanation,
) -> Result<(), AllocError>
    requires { length told.now.rows.items ≡ 12 }
    ensures { OnOk result (string_bytes text.new ≡ string_bytes text.old ++ closing setup.now told.now) }
{
    write_closing_lines(alloc, text, setup, &received_by(told), told)
}

// The same, of a wheel that received some rows.
fn write_closing_lines(
    alloc: Global,
    text: &mut String,
    setup: &Setup,
    received: &[bool; 12],
    told: &Explanation,
) -> Result<(), AllocError>
    ensures { OnOk result (string_bytes text.new ≡ string_bytes text.old ++ closing_lines setup.now received.now told.now) }
{
    let rows = rows_listed(alloc, received)?;
    write_character_line(text, rows.as_slice(), character_of(received))?;
    write_zero_control(text, setup, received, told)
}

// Whether the wheel received each row, in the order of the points.
fn received_by(told: &Explanation) -> [bool; 12]
    requires { length told.now.rows.items ≡ 12 }
    ensures { result ≡ received_by told.now }
{
    let mut received = [false; 12];
    for place in 0..12 {
        received[place] = told.rows[place].is_some();
    }
    received
}

// The set of the rows that were received.
fn column_of(received: &[bool; 12]) -> Column
    ensures { result ≡ received_set received.now }
{
    let mut column = Column::blank();
    for place in (0..12).rev() {
        if received[place] {
            column = column.with_row(ROWS[place]);
        }
    }
    column
}

// The print character of the rows that were received.
pub(crate) fn character_of(received: &[bool; 12]) -> u8
    ensures { result ≡ character_of received.now }
{
    column_of(received).print_character()
}

// The row of a place, where it was received, behind others.
fn push_row(rows: &mut Vec<u8>, received: &[bool; 12], place: usize) -> Result<(), AllocError>
    requires { place < 12 }
    ensures { OnOk result (rows.new.items ≡ rows.old.items ++ row_listed received.now place) }
{
    if received[place] {
        rows.push(row_at(place))?;
    }
    Ok(())
}

// The rows that were received.
fn rows_listed(alloc: Global, received: &[bool; 12]) -> Result<Vec<u8>, AllocError>
    ensures { IfOk result (λ rows. rows.items ≡ rows_listed received.now) }
{
    let mut rows = Vec::new(alloc);
    for place in 0..12 {
        push_row(&mut rows, received, place)?;
    }
    Ok(rows)
}

// What stands before a row of a list that is not the first, by those behind it.
fn separator(others: &[u8]) -> &'static str
    ensures { result.now ≡ separator others.now }
{
    if others.is_empty() { " and " } else { ", " }
}

// The rows behind the first one of a list.
fn write_listed(text: &mut String, rows: &[u8]) -> Result<(), AllocError>
    ensures { OnOk result (string_bytes text.new ≡ string_bytes text.old ++ listed rows.now) }
{
    for place in 0..rows.len() {
        text.push_str(separator(&rows[place + 1..]))?;
        push_number(text, rows[place])?;
    }
    Ok(())
}

// The rows, one or several.
fn write_rows_are(text: &mut String, row: u8, others: &[u8]) -> Result<(), AllocError>
    ensures { OnOk result (string_bytes text.new ≡ string_bytes text.old ++ rows_are row others.now) }
{
    if others.is_empty() {
        return push_between(text, "row ", row, " is ");
    }
    push_numbered(text, "rows ", row)?;
    write_listed(text, others)?;
    text.push_str(" are ")
}

// The print character that the rows are, or words that they are none.
fn write_printed(text: &mut String, character: u8) -> Result<(), AllocError>
    ensures { OnOk result (string_bytes text.new ≡ string_bytes text.old ++ printed_text character) }
{
    if character == b' ' {
        text.push_str("no print character: a blank")
    } else {
        write_character(text, character)
    }
}

// Which character the rows are; nothing where no row was received.
fn write_character_line(text: &mut String, rows: &[u8], character: u8) -> Result<(), AllocError>
    ensures { OnOk result (string_bytes text.new ≡ string_bytes text.old ++ character_line rows.now character) }
{
    let Some((row, others)) = rows.split_first() else {
        return Ok(());
    };
    write_rows_are(text, *row, others)?;
    write_printed(text, character)?;
    text.push_str("\n")
}
