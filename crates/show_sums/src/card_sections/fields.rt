//! What the fields of a chart have on a card.

ghost use Rattle.std.specs.Prelude.{◌≡◌, ◌-◌, ◌++◌, drop, take, OnOk};
ghost use Rattle.std.specs.List.{flat_map};
ghost use Rattle.std.specs.String.{string_bytes};
ghost use Rattle.show_sums.specs.CardSections.Fields.{card_fields, characters_close, column_character, column_sign, columns_text, field_characters, field_close, field_open, field_text, fields_text, first_text, last_text, line_field, named_open, sign_open, sign_text};

use card_code::Card;
use chart_lines::charts::{Field, Line, Name, Statement};
use chart_numerals::{push_between, push_numbered};
use show_drawings::drawings::card_drawing::characters;
use show_drawings::markup::push_escaped;
use std::alloc::{AllocError, Global};

// What stands behind so many characters.
fn behind(characters: &[u8], count: usize) -> &[u8]
    ensures { result.now ≡ drop count characters.now }
{
    if count < characters.len() {
        &characters[count..]
    } else {
        &[]
    }
}

// So many characters.
fn up_to(characters: &[u8], count: usize) -> &[u8]
    ensures { result.now ≡ take count characters.now }
{
    if count < characters.len() {
        &characters[..count]
    } else {
        characters
    }
}

// The characters of a field.
fn field_characters<'a>(characters: &'a [u8], field: &Field) -> &'a [u8]
    ensures { result.now ≡ field_characters characters.now field.now }
{
    up_to(
        behind(characters, usize::from(field.first.saturating_sub(1))),
        field.columns() as usize,
    )
}

#[tactic(auto, unfolding(crate::specs::CardSections::Fields::field_open))]
// The front of a field.
fn write_open(text: &mut String, number: u16) -> Result<(), AllocError>
    ensures { OnOk result (string_bytes text.new ≡ string_bytes text.old ++ field_open number) }
{
    push_between(text, "<tr><th><a href=\"#line", number, "\">")
}

#[tactic(auto, unfolding(crate::specs::CardSections::Fields::named_open))]
// The front of a field, with its name.
fn write_name(text: &mut String, number: u16, name: Name) -> Result<(), AllocError>
    ensures { OnOk result (string_bytes text.new ≡ string_bytes text.old ++ named_open number name) }
{
    write_open(text, number)?;
    push_escaped(text, name.as_bytes())
}

#[tactic(auto, unfolding(crate::specs::CardSections::Fields::first_text))]
// The first column of a field.
fn write_first(text: &mut String, first: u16) -> Result<(), AllocError>
    ensures { OnOk result (string_bytes text.new ≡ string_bytes text.old ++ first_text first) }
{
    push_numbered(text, "</a></th><td>columns ", first)
}

#[tactic(auto, unfolding(crate::specs::CardSections::Fields::last_text))]
// The last column of a field.
fn write_last(text: &mut String, last: u16) -> Result<(), AllocError>
    ensures { OnOk result (string_bytes text.new ≡ string_bytes text.old ++ last_text last) }
{
    push_between(text, " to ", last, "</td><td><code>")
}

// The columns of a field.
fn write_columns(text: &mut String, first: u16, last: u16) -> Result<(), AllocError>
    ensures { OnOk result (string_bytes text.new ≡ string_bytes text.old ++ columns_text first last) }
{
    write_first(text, first)?;
    write_last(text, last)
}

// The character of a column.
fn column_character(characters: &[u8], column: u16) -> &[u8]
    ensures { result.now ≡ column_character characters.now column }
{
    up_to(behind(characters, usize::from(column.saturating_sub(1))), 1)
}

#[tactic(auto, unfolding(crate::specs::CardSections::Fields::characters_close))]
// What stands behind characters.
fn write_characters_close(text: &mut String) -> Result<(), AllocError>
    ensures { OnOk result (string_bytes text.new ≡ string_bytes text.old ++ characters_close) }
{
    text.push_str("</code>")
}

#[tactic(auto, unfolding(crate::specs::CardSections::Fields::sign_open))]
// What stands before the character of a sign column.
fn write_sign_open(text: &mut String, column: u16) -> Result<(), AllocError>
    ensures { OnOk result (string_bytes text.new ≡ string_bytes text.old ++ sign_open column) }
{
    push_between(text, ", sign in column ", column, ": <code>")
}

#[tactic(auto, unfolding(crate::specs::CardSections::Fields::column_sign))]
// A sign column, and its character.
fn write_column_sign(text: &mut String, characters: &[u8], column: u16) -> Result<(), AllocError>
    ensures { OnOk result (string_bytes text.new ≡ string_bytes text.old ++ column_sign characters.now column) }
{
    write_sign_open(text, column)?;
    push_escaped(text, column_character(characters, column))?;
    write_characters_close(text)
}

// The sign column of a field, if it has one.
fn write_sign(text: &mut String, characters: &[u8], column: Option<u16>) -> Result<(), AllocError>
    ensures { OnOk result (string_bytes text.new ≡ string_bytes text.old ++ sign_text characters.now column) }
{
    match column {
        Some(column) => write_column_sign(text, characters, column),
        None => Ok(()),
    }
}

#[tactic(auto, unfolding(crate::specs::CardSections::Fields::field_close))]
// What stands behind a field.
fn write_field_close(text: &mut String) -> Result<(), AllocError>
    ensures { OnOk result (string_bytes text.new ≡ string_bytes text.old ++ field_close) }
{
    text.push_str("</td></tr>\n")
}

#[tactic(auto, unfolding(crate::specs::CardSections::Fields::field_text))]
// A field, by the number of its line.
fn write_field(
    text: &mut String,
    characters: &[u8],
    number: u16,
    field: &Field,
) -> Result<(), AllocError>
    ensures { OnOk result (string_bytes text.new ≡ string_bytes text.old ++ field_text characters.now number field.now) }
{
    write_name(text, number, field.name)?;
    write_columns(text, field.first, field.last)?;
    push_escaped(text, field_characters(characters, field))?;
    write_characters_close(text)?;
    write_sign(text, characters, field.kind.sign_column())?;
    write_field_close(text)
}

// The field that a line of the chart names.
fn write_line_field(text: &mut String, characters: &[u8], line: &Line) -> Result<(), AllocError>
    ensures { OnOk result (string_bytes text.new ≡ string_bytes text.old ++ line_field characters.now line.now) }
{
    match &line.statement {
        Statement::Field(field) => write_field(text, characters, line.number, field),
        _ => Ok(()),
    }
}

#[tactic(auto, using(show_drawings::proofs::MarkupWords::Pieces::one_more))]
// The fields of some lines.
fn write_line_fields(text: &mut String, characters: &[u8], lines: &[Line]) -> Result<(), AllocError>
    ensures { OnOk result (string_bytes text.new ≡ string_bytes text.old ++ flat_map (line_field characters.now) lines.now) }
{
    for line in lines {
        write_line_field(text, characters, line)?;
    }
    Ok(())
}

#[tactic(auto, unfolding(crate::specs::CardSections::Fields::fields_text))]
// All fields, by the characters of a card.
fn write_fields(text: &mut String, lines: &[Line], characters: &[u8]) -> Result<(), AllocError>
    ensures { OnOk result (string_bytes text.new ≡ string_bytes text.old ++ fields_text lines.now characters.now) }
{
    text.push_str("<table>\n")?;
    write_line_fields(text, characters, lines)?;
    text.push_str("</table>")
}

#[tactic(auto, unfolding(crate::specs::CardSections::Fields::card_fields))]
// What the fields have on a card.
pub(crate) fn write_card_fields(
    alloc: Global,
    text: &mut String,
    lines: &[Line],
    card: &Card,
) -> Result<(), AllocError>
    ensures { OnOk result (string_bytes text.new ≡ string_bytes text.old ++ card_fields lines.now card.now) }
{
    let characters = characters(alloc, card)?;
    write_fields(text, lines, &characters)
}
