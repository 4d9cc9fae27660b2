//! The elements of cards.

ghost use Rattle.std.specs.Prelude.{◌≡◌, ◌≤◌, ◌<◌, ◌+◌, ◌^◌, ◌++◌, length, OnOk};
ghost use Rattle.std.specs.String.{string_bytes};
ghost use Rattle.show_drawings.specs.MarkupWords.Pieces.{numbered_words};
ghost use Rattle.show_sums.specs.CardSections.Sections.{back_text, before_text, front_text, links_text, next_text, picture_open, picture_text, section_front, section_open, section_text, sections_text};

use crate::card_sections::fields::write_card_fields;
use crate::card_sections::readings::write_run;
use crate::sum_sections::PageSum;
use card_code::Card;
use chart_lines::charts::Line;
use chart_numerals::push_between;
use show_drawings::drawings::card_drawing::write_shown_card;
use show_links::{Shown, ShownRun, write_card_open};
use std::alloc::{AllocError, Global};

#[tactic(auto, unfolding(crate::specs::CardSections::Sections::section_open))]
// The front of an element.
fn write_open(text: &mut String, number: usize) -> Result<(), AllocError>
    ensures { OnOk result (string_bytes text.new ≡ string_bytes text.old ++ section_open number) }
{
    push_between(text, "<section id=\"card", number, "\">")
}

#[tactic(auto, unfolding(crate::specs::CardSections::Sections::next_text))]
// The link to the next card.
fn write_next(text: &mut String, number: usize, shown: Shown) -> Result<(), AllocError>
    ensures { OnOk result (string_bytes text.new ≡ string_bytes text.old ++ next_text number shown) }
{
    if number < shown.last {
        write_card_open(text, number + 1)?;
        text.push_str("next card</a> ")
    } else {
        Ok(())
    }
}

#[tactic(auto, unfolding(crate::specs::CardSections::Sections::before_text))]
// The link to the card before.
fn write_before(text: &mut String, number: usize, shown: Shown) -> Result<(), AllocError>
    ensures { OnOk result (string_bytes text.new ≡ string_bytes text.old ++ before_text number shown) }
{
    if shown.first < number {
        write_card_open(text, number - 1)?;
        text.push_str("card before</a> ")
    } else {
        Ok(())
    }
}

#[tactic(auto, unfolding(crate::specs::CardSections::Sections::back_text))]
// The link back, and which card it is.
fn write_back(text: &mut String, number: usize) -> Result<(), AllocError>
    ensures { OnOk result (string_bytes text.new ≡ string_bytes text.old ++ back_text number) }
{
    push_between(
        text,
        "<a href=\"#cards\">back to the cards</a>\n<h2>Card ",
        number,
        "</h2>\n",
    )
}

#[tactic(auto, unfolding(crate::specs::CardSections::Sections::links_text))]
// What stands above the picture.
fn write_links(text: &mut String, number: usize, shown: Shown) -> Result<(), AllocError>
    ensures { OnOk result (string_bytes text.new ≡ string_bytes text.old ++ links_text number shown) }
{
    write_open(text, number)?;
    write_next(text, number, shown)?;
    write_before(text, number, shown)?;
    write_back(text, number)
}

#[tactic(auto, unfolding(crate::specs::CardSections::Sections::picture_open))]
// The front of a picture.
fn write_picture_open(text: &mut String) -> Result<(), AllocError>
    ensures { OnOk result (string_bytes text.new ≡ string_bytes text.old ++ picture_open) }
{
    text.push_str("<svg xmlns=\"http://www.w3.org/2000/svg\" viewBox=\"0 -70 1250 510\">")
}

#[tactic(auto, unfolding(crate::specs::CardSections::Sections::picture_text))]
// The picture.
fn write_picture(text: &mut String, number: usize) -> Result<(), AllocError>
    ensures { OnOk result (string_bytes text.new ≡ string_bytes text.old ++ picture_text number) }
{
    write_picture_open(text)?;
    write_shown_card(text, number)?;
    text.push_str("</svg>\n")
}

#[tactic(auto, unfolding(crate::specs::CardSections::Sections::front_text))]
// The front of an element, with its picture.
fn write_front(text: &mut String, number: usize, shown: Shown) -> Result<(), AllocError>
    ensures { OnOk result (string_bytes text.new ≡ string_bytes text.old ++ front_text number shown) }
{
    write_links(text, number, shown)?;
    write_picture(text, number)
}

#[tactic(auto, unfolding(crate::specs::CardSections::Sections::section_front))]
// The front of an element, and what became of the card in the run.
fn write_section_front(
    text: &mut String,
    shown: ShownRun,
    trace: &[u8],
    sums: &[PageSum],
    number: usize,
) -> Result<(), AllocError>
    requires few { number + 1 < 2 ^ 64 }
    requires cycles { shown.cycles.first ≤ 2 ^ 32 }
    ensures { OnOk result (string_bytes text.new ≡ string_bytes text.old ++ section_front shown trace.now sums.now number) }
{
    write_front(text, number, shown.cards)?;
    write_run(text, shown, trace, sums, number)
}

#[tactic(auto, unfolding(crate::specs::CardSections::Sections::section_text))]
// The element of a card.
fn write_section(
    alloc: Global,
    text: &mut String,
    lines: &[Line],
    shown: ShownRun,
    trace: &[u8],
    sums: &[PageSum],
    number: usize,
    card: &Card,
) -> Result<(), AllocError>
    requires few { number + 1 < 2 ^ 64 }
    requires cycles { shown.cycles.first ≤ 2 ^ 32 }
    ensures { OnOk result (string_bytes text.new ≡ string_bytes text.old ++ section_text lines.now shown trace.now sums.now number card.now) }
{
    write_section_front(text, shown, trace, sums, number)?;
    write_card_fields(alloc, text, lines, card)?;
    text.push_str("</section>\n")
}

#[tactic(auto, using(show_drawings::proofs::MarkupWords::Pieces::numbered_more))]
// The elements of cards, of which the first has the number of the first one that is shown.
fn write_sections(
    alloc: Global,
    text: &mut String,
    lines: &[Line],
    shown: ShownRun,
    trace: &[u8],
    sums: &[PageSum],
    cards: &[Card],
) -> Result<(), AllocError>
    requires few { shown.cards.first + length cards.now < 2 ^ 64 }
    requires cycles { shown.cycles.first ≤ 2 ^ 32 }
    ensures { OnOk result (string_bytes text.new ≡ string_bytes text.old ++ numbered_words (section_text lines.now shown trace.now sums.now) shown.cards.first cards.now) }
{
    let first = shown.cards.first;
    for place in 0..cards.len() {
        write_section(
            alloc,
            text,
            lines,
            shown,
            trace,
            sums,
            first + place,
            &cards[place],
        )?;
    }
    Ok(())
}

#[tactic(auto, unfolding(crate::specs::CardSections::Sections::sections_text))]
/// Writes the elements of the cards that are shown: each with its picture, the cycles in which it stood at the reading stations, by the part of
/// the trace that is shown, into which of the page's sums it went, and its fields by the lines of the chart. The first of the cards has the
/// number of the first one that is shown, and the first card cycle of the trace is its own.
///
/// Fails only if no memory is left; a front of the elements may then have been written.
pub fn write_card_sections(
    alloc: Global,
    text: &mut String,
    lines: &[Line],
    shown: ShownRun,
    trace: &[u8],
    sums: &[PageSum],
    cards: &[Card],
) -> Result<(), AllocError>
    requires few { shown.cards.first + length cards.now < 2 ^ 64 }
    requires cycles { shown.cycles.first ≤ 2 ^ 32 }
    ensures { OnOk result (string_bytes text.new ≡ string_bytes text.old ++ sections_text lines.now shown trace.now sums.now cards.now) }
{
    write_sections(alloc, text, lines, shown, trace, sums, cards)
}
