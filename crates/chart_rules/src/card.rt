//! The cards that are valid for a chart.

ghost use Rattle.std.specs.List.{list_any};
ghost use Rattle.std.specs.Prelude.{◌≡◌, ◌==◌, ◌+◌, ◌<◌, ◌≤◌, ◌↔◌, ℕ, IsTrue, IsOk, IfErr, length, true};
ghost use Rattle.card_code.specs.CardCode.{deck_character};
ghost use Rattle.card_code.specs.Deck.{HasCharacters};
ghost use Rattle.chart_line_rules.specs.FieldRules.Fields.{fields_of};
ghost use Rattle.chart_lines.specs.ChartsWords.Field.{decimals_of, sign_column};
ghost use Rattle.chart_rules.specs.HelperOnCard.{IsOnCard, AreOnCard};
ghost use Rattle.chart_rules.specs.ValidCard as valid;

use crate::chart::Chart;
use card_code::{Card, Column, Row};
use chart_lines::charts::{Field, FieldKind};
use thiserror::Error;

/// The rows of the digits.
#[rattlefmt::skip]
static DIGIT_ROWS: [Row; 10] = [
    Row::Zero, Row::One, Row::Two, Row::Three, Row::Four, Row::Five, Row::Six, Row::Seven, Row::Eight, Row::Nine,
];

/// Why a card is not valid for a chart.
#[derive(Clone, Copy, Debug, PartialEq, Eq, Error)]
pub enum CardFault {
    /// A column of a text has no print character and is not blank.
    #[error("the text from column {column} on has a column without a print character")]
    NotText {
        /// The first column of the text, 1 to 80.
        column: u16,
    },
    /// An amount has no digits that are right for it, or row 11 or 12 where it may not be.
    #[error("the amount from column {column} on is no number")]
    NotAmount {
        /// The first column of the amount, 1 to 80.
        column: u16,
    },
}

impl CardFault {
    ghost use Rattle.std.specs.Prelude.{◌≡◌};
    ghost use Rattle.chart_rules.specs.ValidCard.{fault_number};

    /// Its number in the catalogue of faults, 41 or 42.
    pub fn number(self) -> u8
        ensures { result ≡ fault_number self }
    {
        match self {
            CardFault::NotText { .. } => 41,
            CardFault::NotAmount { .. } => 42,
        }
    }
}

/// Whether a card is valid for a chart: each text has print characters and blanks, and each amount is a number.
///
/// # Errors
///
/// `NotText` or `NotAmount` with the first column of the first field in the order of the chart that is not valid.
pub fn valid_card(chart: &Chart, card: &Card) -> Result<(), CardFault>
    ensures valid { IsOk result ↔ valid.IsValidCard chart.now card.now }
    ensures first { IfErr result (valid.IsFirstInvalid (fields_of chart.now.lines) card.now) }
{
    valid_fields(chart.fields(), card)
}

/// The same of a card that has a deck character in each column, as each has that was read from a line of a deck. What is printed of its
/// texts is then tested all at once.
///
/// # Errors
///
/// As of [`valid_card`].
pub fn valid_read_card(chart: &Chart, card: &Card) -> Result<(), CardFault>
    requires { HasCharacters card.now }
    ensures valid { IsOk result ↔ valid.IsValidCard chart.now card.now }
    ensures first { IfErr result (valid.IsFirstInvalid (fields_of chart.now.lines) card.now) }
{
    // Nearly all cards are valid, and that they are is seen soonest where texts and amounts are tested all at once.
    if chart.texts().are_printed(card) && chart.amounts().are_plain(card) {
        return Ok(());
    }
    valid_fields(chart.fields(), card)
}

/// Whether each of some fields is valid on a card, and else what to tell of the first that is not.
fn valid_fields(fields: &[Field], card: &Card) -> Result<(), CardFault>
    requires { AreOnCard fields.now }
    ensures valid { IsOk result → valid.AreValid fields.now (length fields.now) card.now }
    ensures first { IfErr result (valid.IsFirstInvalid fields.now card.now) }
{
    for field in fields {
        if !is_valid(*field, card) {
            return Err(fault_of(field.kind, field.first));
        }
    }
    Ok(())
}

/// What is told of a field that is not valid.
fn fault_of(kind: FieldKind, first: u16) -> CardFault
    ensures { result ≡ valid.fault_of kind first }
{
    match kind {
        FieldKind::Text => CardFault::NotText { column: first },
        FieldKind::Amount { .. } => CardFault::NotAmount { column: first },
    }
}

/// Whether a field is valid on a card.
fn is_valid(field: Field, card: &Card) -> bool
    requires { IsOnCard field }
    ensures { IsTrue result ↔ valid.IsValidField field card.now }
{
    match field.kind {
        FieldKind::Text => is_text(field.first, field.last, card),
        FieldKind::Amount { decimals, .. } => {
            let least = decimals.max(1);
            let sign = field.kind.sign_column();
            are_digits(field.first, field.last, least, card)
                && have_good_zones(field.first, field.last, sign, card)
        }
    }
}

/// The rows punched in a column of a card.
fn column_of(card: &Card, column: u16) -> Column
    requires from { 1 ≤ column }
    requires to { column ≤ 80 }
    ensures { result ≡ valid.column_of card.now column }
{
    card.column(column as u8)
}

/// Whether a column has a print character or is blank.
fn is_printed(column: Column) -> bool
    ensures { result ≡ valid.is_printed (deck_character column) }
{
    match column.to_char() {
        Some(character) => character != '!',
        None => false,
    }
}

/// Whether each of some columns has a print character or is blank.
fn is_text(first: u16, last: u16, card: &Card) -> bool
    requires from { 1 ≤ first }
    requires to { last ≤ 80 }
    ensures { IsTrue result ↔ valid.IsText first last card.now }
{
    for column in first..last + 1 {
        if !is_printed(column_of(card, column)) {
            return false;
        }
    }
    true
}

/// How many of some rows are punched in a column.
fn punched_among(rows: &[Row], column: Column) -> usize
    ensures { result ≡ valid.punched_among rows.now column }
{
    rows.iter().filter(|row| column.has_row(**row)).count()
}

/// How many of the rows 0 to 9 are punched in a column.
fn digit_count(column: Column) -> usize
    ensures { result ≡ valid.digit_count column }
{
    // Nearly all columns have no digit or a single one, and then no row is left without the lowest.
    let digits = column.set() & 0x3ff;
    if digits == 0 {
        0
    } else if digits & digits.wrapping_sub(1) == 0 {
        1
    } else {
        punched_among(&DIGIT_ROWS, column)
    }
}

/// The first of some columns that has a row 0 to 9, or the column after them.
fn first_digit(first: u16, last: u16, card: &Card) -> u16
    requires from { 1 ≤ first }
    requires order { first ≤ last + 1 }
    requires to { last ≤ 80 }
    ensures from { first ≤ result }
    ensures to { result ≤ last + 1 }
    ensures blanks { valid.AreBlank first result card.now }
    ensures digit { result ≤ last → 0 < valid.digit_count (valid.column_of card.now result) }
{
    for column in first..last + 1 {
        if digit_count(column_of(card, column)) > 0 {
            return column;
        }
    }
    last + 1
}

/// Whether each of some columns has one of the rows 0 to 9.
fn are_single(first: u16, last: u16, card: &Card) -> bool
    requires from { 1 ≤ first }
    requires to { last ≤ 80 }
    ensures { IsTrue result ↔ valid.AreSingle first last card.now }
{
    for column in first..last + 1 {
        if digit_count(column_of(card, column)) != 1 {
            return false;
        }
    }
    true
}

/// Whether the digit parts of some columns are blanks alone, or blanks and then single digits, at least so many of them.
fn are_digits(first: u16, last: u16, least: u16, card: &Card) -> bool
    requires from { 1 ≤ first }
    requires order { first ≤ last + 1 }
    requires to { last ≤ 80 }
    ensures { IsTrue result ↔ valid.AreDigits first last least card.now }
{
    let start = first_digit(first, last, card);
    let digits = last + 1 - start;
    (digits == 0 || least <= digits) && are_single(start, last, card)
}

/// Whether a column of an amount has a lawful zone: no row 12, and row 11 in its sign column alone.
fn has_good_zone(sign: Option<u16>, number: u16, column: Column) -> bool
    ensures { result ≡ valid.has_good_zone sign number column }
{
    !column.has_row(Row::Twelve) && (!column.has_row(Row::Eleven) || sign == Some(number))
}

/// Whether each of the columns of an amount has a lawful zone.
fn have_good_zones(first: u16, last: u16, sign: Option<u16>, card: &Card) -> bool
    requires from { 1 ≤ first }
    requires to { last ≤ 80 }
    ensures { IsTrue result ↔ valid.HaveGoodZones first last sign card.now }
{
    for column in first..last + 1 {
        if !has_good_zone(sign, column, column_of(card, column)) {
            return false;
        }
    }
    true
}
