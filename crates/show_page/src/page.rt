//! The parts of the page.

ghost use Rattle.std.specs.Prelude.{◌≡◌, ◌≤◌, ◌<◌, ◌+◌, ◌^◌, ◌++◌, length, OnOk};
ghost use Rattle.std.specs.String.{string_bytes};
ghost use Rattle.show_page.specs.Page.{cards_part, cards_text, cut_text, is_any_shown, link_if, nav_text, sheets_front, sheets_part, shown_cards_text};

use crate::choice::first_shown;
use crate::frame::{
    write_around_words, write_cards_link, write_cards_open, write_cut_words, write_main_open,
    write_nav_open, write_panel_open, write_sheets_close, write_sheets_open,
};
use card_code::Card;
use chart_lines::charts::Line;
use chart_numerals::push_number;
use explain_wheels::explanations::FoundLine;
use page_text::placed_lines::PlacedLine;
use show_drawings::drawings::card_drawing::write_shapes;
use show_links::Shown;
use show_sections::report_sheets::{widest, write_sheets};
use show_sums::card_sections::write_deck;
use std::alloc::{AllocError, Global};

// What is said where not all pages are shown.
fn write_cut(text: &mut String, around: Option<u32>, cards: usize) -> Result<(), AllocError>
    ensures { OnOk result (string_bytes text.new ≡ string_bytes text.old ++ cut_text around cards) }
{
    match around {
        Some(page) => write_around_words(text, page),
        None if cards <= 200 => Ok(()),
        None => write_cut_words(text),
    }
}

// Whether some cards are shown.
fn is_any_shown(cards: Shown) -> bool
    ensures { result ≡ is_any_shown cards }
{
    cards.has(cards.first)
}

// The link to the cards, if there are any.
fn write_link_if(text: &mut String, are_cards: bool) -> Result<(), AllocError>
    ensures { OnOk result (string_bytes text.new ≡ string_bytes text.old ++ link_if are_cards) }
{
    if are_cards {
        write_cards_link(text)
    } else {
        Ok(())
    }
}

#[tactic(auto, unfolding(crate::specs::Page::nav_text))]
// The links to the parts of the page, up to that to the cards.
fn write_nav(text: &mut String, linked: Shown) -> Result<(), AllocError>
    ensures { OnOk result (string_bytes text.new ≡ string_bytes text.old ++ nav_text linked) }
{
    write_nav_open(text)?;
    write_link_if(text, is_any_shown(linked))
}

#[tactic(auto, unfolding(crate::specs::Page::sheets_front))]
// What stands before the sheets, of which the widest line has so many characters.
fn write_sheets_front(
    text: &mut String,
    linked: Shown,
    around: Option<u32>,
    cards: usize,
    wide: usize,
) -> Result<(), AllocError>
    ensures { OnOk result (string_bytes text.new ≡ string_bytes text.old ++ sheets_front linked around cards wide) }
{
    write_cut(text, around, cards)?;
    write_nav(text, linked)?;
    write_main_open(text)?;
    push_number(text, wide)?;
    write_sheets_open(text)
}

#[tactic(auto, unfolding(crate::specs::Page::sheets_part))]
// The sheets, behind the head of the page. Words for cards link to those that are shown.
pub(crate) fn write_sheets_part(
    text: &mut String,
    linked: Shown,
    around: Option<u32>,
    cards: usize,
    lines: &[PlacedLine],
    found: &[FoundLine],
    form_lines: u32,
) -> Result<(), AllocError>
    requires { form_lines ≤ 144 }
    ensures { OnOk result (string_bytes text.new ≡ string_bytes text.old ++ sheets_part linked around cards lines.now found.now form_lines) }
{
    write_sheets_front(text, linked, around, cards, widest(lines))?;
    write_sheets(text, linked, lines, found, form_lines, first_shown(around))
}

#[tactic(auto, unfolding(crate::specs::Page::cards_text))]
// Cards, with the fields of a chart. The first of them has this number.
fn write_cards(
    alloc: Global,
    text: &mut String,
    chart: &[Line],
    first: usize,
    cards: &[Card],
) -> Result<(), AllocError>
    requires { first + length cards.now < 2 ^ 64 }
    ensures { OnOk result (string_bytes text.new ≡ string_bytes text.old ++ cards_text chart.now first cards.now) }
{
    write_cards_open(text)?;
    write_shapes(alloc, text, chart, first, cards)?;
    write_deck(text, first, cards)
}

// The cards that are shown, where there are such.
fn write_shown_cards(
    alloc: Global,
    text: &mut String,
    chart: &[Line],
    linked: Shown,
    cards: &[Card],
) -> Result<(), AllocError>
    requires { linked.first + length cards.now < 2 ^ 64 }
    ensures { OnOk result (string_bytes text.new ≡ string_bytes text.old ++ shown_cards_text chart.now linked cards.now) }
{
    if is_any_shown(linked) {
        write_cards(alloc, text, chart, linked.first, cards)
    } else {
        Ok(())
    }
}

#[tactic(auto, unfolding(crate::specs::Page::cards_part))]
// The end of the sheets, the cards that are shown, where there are such, with the fields of a chart, and what stands before the drawing.
pub(crate) fn write_cards_part(
    alloc: Global,
    text: &mut String,
    chart: &[Line],
    linked: Shown,
    cards: &[Card],
) -> Result<(), AllocError>
    requires { linked.first + length cards.now < 2 ^ 64 }
    ensures { OnOk result (string_bytes text.new ≡ string_bytes text.old ++ cards_part chart.now linked cards.now) }
{
    write_sheets_close(text)?;
    write_shown_cards(alloc, text, chart, linked, cards)?;
    write_panel_open(text)
}
