//! The holes of a card.

ghost use Rattle.std.specs.Prelude.{◌≡◌, ◌≤◌, ◌++◌, OnOk, length};
ghost use Rattle.std.specs.List.{flat_map};
ghost use Rattle.std.specs.String.{string_bytes};
ghost use Rattle.show_drawings.specs.MarkupWords.Pieces.{numbered_words};
ghost use Rattle.show_drawings.specs.DrawingsWords.CardDrawing.Drawings.{hole_text, row_top};
ghost use Rattle.show_drawings.specs.DrawingsWords.CardDrawing.Helper.{column_text, row_text};
ghost use Rattle.show_drawings.specs.DrawingsWords.CardDrawing.Holes.{holes_of};

use card_code::{Card, Column, Row};
use chart_numerals::{push_between, push_numbered};
use std::alloc::AllocError;

/// The rows from the upper edge of a card down.
#[rattlefmt::skip]
static ROWS_DOWN: [Row; 12] = [
    Row::Twelve, Row::Eleven, Row::Zero, Row::One, Row::Two, Row::Three, Row::Four, Row::Five, Row::Six, Row::Seven, Row::Eight, Row::Nine,
];

// How far down a hole of a row begins.
fn row_top(row: Row) -> u32
    ensures { result ≡ row_top row }
{
    match row {
        Row::Twelve => 70,
        Row::Eleven => 100,
        Row::Zero => 130,
        Row::One => 160,
        Row::Two => 190,
        Row::Three => 220,
        Row::Four => 250,
        Row::Five => 280,
        Row::Six => 310,
        Row::Seven => 340,
        Row::Eight => 370,
        Row::Nine => 400,
    }
}

#[tactic(auto, unfolding(crate::specs::DrawingsWords::CardDrawing::Drawings::hole_text))]
// A hole.
fn write_hole(text: &mut String, column: usize, row: Row) -> Result<(), AllocError>
    requires { column ≤ 80 }
    ensures { OnOk result (string_bytes text.new ≡ string_bytes text.old ++ hole_text (record { column = column; row = row })) }
{
    push_numbered(text, "M", 17 + 15 * column)?;
    push_between(text, " ", row_top(row), "v20")
}

// A row of a column.
fn write_row(text: &mut String, column: usize, punched: Column, row: Row) -> Result<(), AllocError>
    requires { column ≤ 80 }
    ensures { OnOk result (string_bytes text.new ≡ string_bytes text.old ++ row_text column punched row) }
{
    if punched.has_row(row) {
        write_hole(text, column, row)
    } else {
        Ok(())
    }
}

#[tactic(auto, using(crate::proofs::MarkupWords::Pieces::one_more))]
// Some rows of a column.
fn write_rows(
    text: &mut String,
    rows: &[Row],
    column: usize,
    punched: Column,
) -> Result<(), AllocError>
    requires { column ≤ 80 }
    ensures { OnOk result (string_bytes text.new ≡ string_bytes text.old ++ flat_map (row_text column punched) rows.now) }
{
    for row in rows {
        write_row(text, column, punched, *row)?;
    }
    Ok(())
}

// All rows of a column.
fn write_column(text: &mut String, column: usize, punched: Column) -> Result<(), AllocError>
    requires { column ≤ 80 }
    ensures { OnOk result (string_bytes text.new ≡ string_bytes text.old ++ column_text column punched) }
{
    write_rows(text, &ROWS_DOWN, column, punched)
}

#[tactic(auto, using(crate::proofs::MarkupWords::Pieces::numbered_more))]
// The columns of a card.
fn write_columns(text: &mut String, columns: &[Column]) -> Result<(), AllocError>
    requires { length columns.now ≤ 80 }
    ensures { OnOk result (string_bytes text.new ≡ string_bytes text.old ++ numbered_words column_text 1 columns.now) }
{
    for place in 0..columns.len() {
        write_column(text, place + 1, columns[place])?;
    }
    Ok(())
}

#[tactic(auto, using(crate::proofs::DrawingsWords::CardDrawing::Written::columns_are))]
// The holes of a card.
pub(crate) fn write_holes(text: &mut String, card: &Card) -> Result<(), AllocError>
    ensures { OnOk result (string_bytes text.new ≡ string_bytes text.old ++ flat_map hole_text (holes_of card.now)) }
{
    write_columns(text, card.columns())
}
