//! The lines that tell the place, the cycle and the ways.

ghost use Rattle.std.specs.Prelude.{◌≡◌, ◌<◌, ◌++◌, codes, OnOk};
ghost use Rattle.std.specs.String.{string_bytes};
ghost use Rattle.explain_words.specs.ExplanationText.Text.{character_text, cycle_line, headed_text, heading_line, level_text, page_line, program_line, row_line, spaced_text};

use crate::explanation_text::names::{row_at, write_way};
use chart_numerals::{push_between, push_numbered};
use explain_wheels::explanations::Explanation;
use hubs::Hub;
use net::Cycle;
use std::alloc::AllocError;

#[tactic(auto, using(crate::proofs::ExplanationText::Gains::three_pieces))]
// A line of words behind its front.
pub(crate) fn write_line(text: &mut String, front: &str, words: &str) -> Result<(), AllocError>
    ensures { OnOk result (string_bytes text.new ≡ string_bytes text.old ++ (front.now ++ words.now ++ codes "\n")) }
{
    text.push_str(front)?;
    text.push_str(words)?;
    text.push_str("\n")
}

// A character, a word for the blank.
pub(crate) fn write_character(text: &mut String, character: u8) -> Result<(), AllocError>
    ensures { OnOk result (string_bytes text.new ≡ string_bytes text.old ++ character_text character) }
{
    if character == b' ' {
        text.push_str("blank")
    } else if character < 128 {
        text.push(char::from(character))
    } else {
        text.push_str("?")
    }
}

// The first line.
pub(crate) fn write_page_line(text: &mut String, told: &Explanation) -> Result<(), AllocError>
    ensures { OnOk result (string_bytes text.new ≡ string_bytes text.old ++ page_line told.now) }
{
    push_numbered(text, "page ", told.line.page)?;
    push_numbered(text, " line ", told.line.line)?;
    push_numbered(text, " wheel ", told.wheel)?;
    text.push_str(" prints ")?;
    write_character(text, told.character)?;
    text.push_str("\n")
}

// The second line.
pub(crate) fn write_cycle_line(text: &mut String, told: &Explanation) -> Result<(), AllocError>
    ensures { OnOk result (string_bytes text.new ≡ string_bytes text.old ++ cycle_line told.now.cycle told.now.waits told.now.cards) }
{
    let cards = told.cards;
    match told.cycle {
        Cycle::RunIn => text.push_str("cycle RunIn\n"),
        Cycle::Card => push_between(text, "cycle Card ", cards, "\n"),
        Cycle::Prog(level, ordinal) => {
            write_program_line(text, level.number(), ordinal.number(), cards)
        }
        Cycle::Head(heading) => write_heading_line(text, heading.number(), told.waits, cards),
    }
}

// The second line of a program cycle.
fn write_program_line(
    text: &mut String,
    level: u8,
    ordinal: u8,
    cards: u32,
) -> Result<(), AllocError>
    ensures { OnOk result (string_bytes text.new ≡ string_bytes text.old ++ program_line level ordinal cards) }
{
    write_level(text, level)?;
    write_spaced(text, ordinal)?;
    push_between(text, " after card ", cards, "\n")
}

// A level.
fn write_level(text: &mut String, level: u8) -> Result<(), AllocError>
    ensures { OnOk result (string_bytes text.new ≡ string_bytes text.old ++ level_text level) }
{
    push_numbered(text, "cycle Prog ", level)
}

// A space and a number.
fn write_spaced(text: &mut String, number: u8) -> Result<(), AllocError>
    ensures { OnOk result (string_bytes text.new ≡ string_bytes text.old ++ spaced_text number) }
{
    push_numbered(text, " ", number)
}

// What a heading cycle comes before: the card, where that still waits, or its totals.
fn headed_text(waits: bool) -> &'static str
    ensures { result.now ≡ headed_text waits }
{
    if waits {
        " before card "
    } else {
        " before the totals of card "
    }
}

// The second line of a heading cycle.
fn write_heading_line(
    text: &mut String,
    heading: u8,
    waits: bool,
    cards: u32,
) -> Result<(), AllocError>
    ensures { OnOk result (string_bytes text.new ≡ string_bytes text.old ++ heading_line heading waits cards) }
{
    push_numbered(text, "cycle Head ", heading)?;
    push_between(text, headed_text(waits), cards, "\n")
}

// The line of the row at a place in the order of the points.
pub(crate) fn write_row_line(text: &mut String, place: usize, way: &[Hub]) -> Result<(), AllocError>
    requires { place < 12 }
    ensures { OnOk result (string_bytes text.new ≡ string_bytes text.old ++ row_line place way.now) }
{
    push_numbered(text, "row ", row_at(place))?;
    text.push_str(":")?;
    write_way(text, way)?;
    text.push_str("\n")
}
