//! Cards, and what is drawn once.

ghost use Rattle.std.specs.Prelude.{◌≡◌, ◌≤◌, ◌<◌, ◌+◌, ◌^◌, ◌++◌, length, IfOk, OnOk};
ghost use Rattle.std.specs.String.{string_bytes};
ghost use Rattle.show_drawings.specs.MarkupWords.Pieces.{numbered_words};
ghost use Rattle.show_drawings.specs.DrawingsWords.CardDrawing.Drawings.{blank_open, blank_text, card_open, card_text, characters_of, digits_text, holes_close, holes_open, holes_text, lower_digits, number_text, print_glyphs, print_of, print_open, print_text, shapes_open, shapes_text, shared_text, shown_card, upper_digits};

use crate::drawings::card_drawing::fields::write_fields;
use crate::drawings::card_drawing::holes::write_holes;
use crate::markup::push_escaped;
use card_code::{Card, Column};
use chart_lines::charts::Line;
use chart_numerals::{push_between, push_numbered};
use page_text::without_trailing_blanks;
use std::alloc::{AllocError, Global};

#[tactic(auto, using(crate::proofs::DrawingsWords::CardDrawing::Written::characters_more))]
// Adds what columns say.
fn push_characters(characters: &mut Vec<u8>, columns: &[Column]) -> Result<(), AllocError>
    ensures { OnOk result (characters.new.items ≡ characters.old.items ++ characters_of columns.now) }
{
    for column in columns {
        characters.push(column.print_character())?;
    }
    Ok(())
}

#[tactic(auto, using(crate::proofs::DrawingsWords::CardDrawing::Written::characters_long))]
/// What the 80 columns of a card say, each as a wheel prints it. Fails only where no memory is left.
pub fn characters(alloc: Global, card: &Card) -> Result<Vec<u8>, AllocError>
    ensures characters { IfOk result (λ characters. characters.items ≡ characters_of card.now) }
    ensures long { IfOk result (λ characters. length characters.items ≡ 80) }
{
    let mut characters = Vec::new(alloc);
    push_characters(&mut characters, card.columns())?;
    Ok(characters)
}

#[tactic(auto, unfolding(crate::specs::DrawingsWords::CardDrawing::Drawings::print_open))]
// The front of the print on a card, which has at most as many characters as the card has columns.
fn write_print_open(text: &mut String, long: usize) -> Result<(), AllocError>
    requires { long ≤ 80 }
    ensures { OnOk result (string_bytes text.new ≡ string_bytes text.old ++ print_open long) }
{
    push_numbered(
        text,
        "<text class=\"print\" x=\"25\" y=\"53\" textLength=\"",
        15 * long,
    )
}

#[tactic(auto, unfolding(crate::specs::DrawingsWords::CardDrawing::Drawings::print_glyphs))]
// What stands before the characters of a print.
fn write_print_glyphs(text: &mut String) -> Result<(), AllocError>
    ensures { OnOk result (string_bytes text.new ≡ string_bytes text.old ++ print_glyphs) }
{
    text.push_str("\" lengthAdjust=\"spacingAndGlyphs\">")
}

#[tactic(auto, unfolding(crate::specs::DrawingsWords::CardDrawing::Drawings::print_text))]
// The print on a card.
fn write_print(text: &mut String, words: &[u8]) -> Result<(), AllocError>
    requires { length words.now ≤ 80 }
    ensures { OnOk result (string_bytes text.new ≡ string_bytes text.old ++ print_text words.now) }
{
    write_print_open(text, words.len())?;
    write_print_glyphs(text)?;
    push_escaped(text, words)?;
    text.push_str("</text>")
}

#[tactic(auto, using(page_text::proofs::CutTexts::no_longer))]
// The print on a card, by its columns.
fn write_print_of(alloc: Global, text: &mut String, card: &Card) -> Result<(), AllocError>
    ensures { OnOk result (string_bytes text.new ≡ string_bytes text.old ++ print_text (print_of card.now)) }
{
    let characters = characters(alloc, card)?;
    write_print(text, without_trailing_blanks(&characters))
}

#[tactic(auto, unfolding(crate::specs::DrawingsWords::CardDrawing::Drawings::card_open))]
// The front of a card's marker.
fn write_card_open(text: &mut String, number: usize) -> Result<(), AllocError>
    ensures { OnOk result (string_bytes text.new ≡ string_bytes text.old ++ card_open number) }
{
    push_between(
        text,
        "<marker id=\"punched",
        number,
        "\" markerUnits=\"userSpaceOnUse\">",
    )
}

#[tactic(auto, unfolding(crate::specs::DrawingsWords::CardDrawing::Drawings::number_text))]
// The number on a card.
fn write_number_text(text: &mut String, number: usize) -> Result<(), AllocError>
    ensures { OnOk result (string_bytes text.new ≡ string_bytes text.old ++ number_text number) }
{
    push_between(
        text,
        "<text class=\"number\" x=\"1180\" y=\"46\">card ",
        number,
        "</text>",
    )
}

#[tactic(auto, unfolding(crate::specs::DrawingsWords::CardDrawing::Drawings::holes_open))]
// What stands before the holes of a card.
fn write_holes_open(text: &mut String) -> Result<(), AllocError>
    ensures { OnOk result (string_bytes text.new ≡ string_bytes text.old ++ holes_open) }
{
    text.push_str("<path class=\"holes\" d=\"")
}

#[tactic(auto, unfolding(crate::specs::DrawingsWords::CardDrawing::Drawings::holes_close))]
// What stands behind the holes of a card.
fn write_holes_close(text: &mut String) -> Result<(), AllocError>
    ensures { OnOk result (string_bytes text.new ≡ string_bytes text.old ++ holes_close) }
{
    text.push_str("\"/></marker>\n")
}

#[tactic(auto, unfolding(crate::specs::DrawingsWords::CardDrawing::Drawings::holes_text))]
// The path of a card's holes, and the end of its marker.
fn write_holes_text(text: &mut String, card: &Card) -> Result<(), AllocError>
    ensures { OnOk result (string_bytes text.new ≡ string_bytes text.old ++ holes_text card.now) }
{
    write_holes_open(text)?;
    write_holes(text, card)?;
    write_holes_close(text)
}

#[tactic(auto, unfolding(crate::specs::DrawingsWords::CardDrawing::Drawings::card_text))]
// A card.
fn write_card(
    alloc: Global,
    text: &mut String,
    number: usize,
    card: &Card,
) -> Result<(), AllocError>
    ensures { OnOk result (string_bytes text.new ≡ string_bytes text.old ++ card_text number card.now) }
{
    write_card_open(text, number)?;
    write_print_of(alloc, text, card)?;
    write_number_text(text, number)?;
    write_holes_text(text, card)
}

#[tactic(auto, using(crate::proofs::MarkupWords::Pieces::numbered_more))]
// Cards, of which the first has this number.
fn write_cards(
    alloc: Global,
    text: &mut String,
    first: usize,
    cards: &[Card],
) -> Result<(), AllocError>
    requires { first + length cards.now < 2 ^ 64 }
    ensures { OnOk result (string_bytes text.new ≡ string_bytes text.old ++ numbered_words card_text first cards.now) }
{
    for place in 0..cards.len() {
        write_card(alloc, text, first + place, &cards[place])?;
    }
    Ok(())
}

#[tactic(auto, unfolding(crate::specs::DrawingsWords::CardDrawing::Drawings::digits_text))]
// A row of printed digits, so far down.
fn write_digits(text: &mut String, down: u32, digits: &str) -> Result<(), AllocError>
    ensures { OnOk result (string_bytes text.new ≡ string_bytes text.old ++ digits_text down digits.now) }
{
    push_between(
        text,
        "<text class=\"digits\" x=\"28\" y=\"",
        down,
        "\" textLength=\"1200\" lengthAdjust=\"spacingAndGlyphs\">",
    )?;
    text.push_str(digits)?;
    text.push_str("</text>\n")
}

#[tactic(auto, unfolding(crate::specs::DrawingsWords::CardDrawing::Drawings::upper_digits))]
// The upper rows of printed digits.
fn write_upper_digits(text: &mut String) -> Result<(), AllocError>
    ensures { OnOk result (string_bytes text.new ≡ string_bytes text.old ++ upper_digits) }
{
    write_digits(
        text,
        146,
        "00000000000000000000000000000000000000000000000000000000000000000000000000000000",
    )?;
    write_digits(
        text,
        176,
        "11111111111111111111111111111111111111111111111111111111111111111111111111111111",
    )?;
    write_digits(
        text,
        206,
        "22222222222222222222222222222222222222222222222222222222222222222222222222222222",
    )?;
    write_digits(
        text,
        236,
        "33333333333333333333333333333333333333333333333333333333333333333333333333333333",
    )?;
    write_digits(
        text,
        266,
        "44444444444444444444444444444444444444444444444444444444444444444444444444444444",
    )
}

#[tactic(auto, unfolding(crate::specs::DrawingsWords::CardDrawing::Drawings::lower_digits))]
// The lower rows of printed digits.
fn write_lower_digits(text: &mut String) -> Result<(), AllocError>
    ensures { OnOk result (string_bytes text.new ≡ string_bytes text.old ++ lower_digits) }
{
    write_digits(
        text,
        296,
        "55555555555555555555555555555555555555555555555555555555555555555555555555555555",
    )?;
    write_digits(
        text,
        326,
        "66666666666666666666666666666666666666666666666666666666666666666666666666666666",
    )?;
    write_digits(
        text,
        356,
        "77777777777777777777777777777777777777777777777777777777777777777777777777777777",
    )?;
    write_digits(
        text,
        386,
        "88888888888888888888888888888888888888888888888888888888888888888888888888888888",
    )?;
    write_digits(
        text,
        416,
        "99999999999999999999999999999999999999999999999999999999999999999999999999999999",
    )
}

#[tactic(auto, unfolding(crate::specs::DrawingsWords::CardDrawing::Drawings::blank_open))]
// The sheet of a blank card.
fn write_blank_open(text: &mut String) -> Result<(), AllocError>
    ensures { OnOk result (string_bytes text.new ≡ string_bytes text.old ++ blank_open) }
{
    text.push_str(
        "<marker id=\"blank\" markerUnits=\"userSpaceOnUse\"><path class=\"sheet\" d=\"M14 4H1196L1246 62V426Q1246 436 1236 436H14Q4 436 4 426V14Q4 4 14 4Z\"/>\n",
    )
}

#[tactic(auto, unfolding(crate::specs::DrawingsWords::CardDrawing::Drawings::blank_text))]
// A blank card.
fn write_blank(text: &mut String) -> Result<(), AllocError>
    ensures { OnOk result (string_bytes text.new ≡ string_bytes text.old ++ blank_text) }
{
    write_blank_open(text)?;
    write_upper_digits(text)?;
    write_lower_digits(text)?;
    text.push_str("</marker>\n")
}

#[tactic(auto, unfolding(crate::specs::DrawingsWords::CardDrawing::Drawings::shapes_open))]
// The front of what is drawn once.
fn write_shapes_open(text: &mut String) -> Result<(), AllocError>
    ensures { OnOk result (string_bytes text.new ≡ string_bytes text.old ++ shapes_open) }
{
    text.push_str(
        "<svg class=\"shapes\" xmlns=\"http://www.w3.org/2000/svg\" width=\"0\" height=\"0\">\n",
    )
}

#[tactic(auto, unfolding(crate::specs::DrawingsWords::CardDrawing::Drawings::shared_text))]
// What all cards share.
fn write_shared(text: &mut String, lines: &[Line]) -> Result<(), AllocError>
    ensures { OnOk result (string_bytes text.new ≡ string_bytes text.old ++ shared_text lines.now) }
{
    write_shapes_open(text)?;
    write_blank(text)?;
    write_fields(text, lines)
}

#[tactic(auto, unfolding(crate::specs::DrawingsWords::CardDrawing::Drawings::shapes_text))]
/// Writes what is drawn once, as an SVG element of no size: a blank card as the marker `blank`, the fields of the chart with these lines as
/// the marker `fields`, and each card, with its print and its holes, as the marker `punched` with its number. The first of the cards has the
/// number `first`.
///
/// Fails only where no memory is left; a front of it may then have been written.
pub fn write_shapes(
    alloc: Global,
    text: &mut String,
    lines: &[Line],
    first: usize,
    cards: &[Card],
) -> Result<(), AllocError>
    requires { first + length cards.now < 2 ^ 64 }
    ensures { OnOk result (string_bytes text.new ≡ string_bytes text.old ++ shapes_text lines.now first cards.now) }
{
    write_shared(text, lines)?;
    write_cards(alloc, text, first, cards)?;
    text.push_str("</svg>\n")
}

#[tactic(auto, unfolding(crate::specs::DrawingsWords::CardDrawing::Drawings::shown_card))]
/// Writes a card into a picture, by its number. A style sheet shows the markers `blank` and `fields` at the ends of the path. Fails only
/// where no memory is left.
pub fn write_shown_card(text: &mut String, number: usize) -> Result<(), AllocError>
    ensures { OnOk result (string_bytes text.new ≡ string_bytes text.old ++ shown_card number) }
{
    push_between(
        text,
        "<path class=\"card\" marker-mid=\"url(#punched",
        number,
        ")\" d=\"M0 0h0h0\"/>",
    )
}
