//! Where a visitor may begin.

ghost use Rattle.std.specs.Prelude.{◌≡◌, ◌<◌, ◌^◌, ◌++◌, OnOk};
ghost use Rattle.std.specs.String.{string_bytes};
ghost use Rattle.show_page.specs.Begin.{begin_close, begin_open, begin_text, card_entry, card_words, character_entry, character_open, character_words, cycle_words, first_card, first_character, first_cycle, first_wire, front_links, later_words, step_words, wire_words};

use card_code::Card;
use chart_numerals::push_between;
use explain_words::explanation_text::ToldWheel;
use explain_words::traces::TracePart;
use show_drawings::drawings::panel_drawing::PanelWire;
use show_links::write_card_open;
use show_sections::cycle_sections::count_cycles;
use show_sections::report_sheets::write_wheel_link;
use show_sums::sum_sections::{PageSum, write_first_sum};
use std::alloc::AllocError;

#[tactic(auto, unfolding(crate::specs::Begin::begin_open))]
// What stands before the links.
fn write_begin_open(text: &mut String) -> Result<(), AllocError>
    ensures { OnOk result (string_bytes text.new ≡ string_bytes text.old ++ begin_open) }
{
    text.push_str("<div class=\"begin\"><h2>Begin here</h2>\n<ul>\n")
}

#[tactic(auto, unfolding(crate::specs::Begin::begin_close))]
// What stands behind the links.
fn write_begin_close(text: &mut String) -> Result<(), AllocError>
    ensures { OnOk result (string_bytes text.new ≡ string_bytes text.old ++ begin_close) }
{
    text.push_str(
        "</ul>\n<p>Or choose anything that is printed, punched or wired: with the pointer, or with the Tab key and Enter.</p></div>\n",
    )
}

#[tactic(auto, unfolding(crate::specs::Begin::character_words))]
// The words of the link to a printed character.
fn write_character_words(text: &mut String) -> Result<(), AllocError>
    ensures { OnOk result (string_bytes text.new ≡ string_bytes text.old ++ character_words) }
{
    text.push_str(
        "A printed character</a>: for each row that its wheel received, one way by which the impulse came</li>\n",
    )
}

#[tactic(auto, unfolding(crate::specs::Begin::card_words))]
// The words of the link to a card.
fn write_card_words(text: &mut String) -> Result<(), AllocError>
    ensures { OnOk result (string_bytes text.new ≡ string_bytes text.old ++ card_words) }
{
    text.push_str("A card</a>: its holes, and what became of it</li>\n")
}

#[tactic(auto, unfolding(crate::specs::Begin::wire_words))]
// The link to the first wire.
fn write_wire_words(text: &mut String) -> Result<(), AllocError>
    ensures { OnOk result (string_bytes text.new ≡ string_bytes text.old ++ wire_words) }
{
    text.push_str(
        "<li><a href=\"#wire1\">A wire</a>: which hubs it joins, and the characters of which a way leads through it</li>\n",
    )
}

#[tactic(auto, unfolding(crate::specs::Begin::step_words))]
// The link to the first cycle.
fn write_step_words(text: &mut String) -> Result<(), AllocError>
    ensures { OnOk result (string_bytes text.new ≡ string_bytes text.old ++ step_words) }
{
    text.push_str(
        "<li><a href=\"#cycle1\">The first cycle</a> of the run, and from there one after another</li>\n",
    )
}

#[tactic(auto, unfolding(crate::specs::Begin::character_open))]
// The front of the link to a printed character that is told of.
fn write_character_open(text: &mut String, told: &ToldWheel) -> Result<(), AllocError>
    ensures { OnOk result (string_bytes text.new ≡ string_bytes text.old ++ character_open told.now) }
{
    write_wheel_link(text, told.why.line.page, told.why.line.line, told.why.wheel)
}

#[tactic(auto, unfolding(crate::specs::Begin::character_entry))]
// The link to a printed character that is told of.
fn write_character_entry(text: &mut String, told: &ToldWheel) -> Result<(), AllocError>
    ensures { OnOk result (string_bytes text.new ≡ string_bytes text.old ++ character_entry told.now) }
{
    text.push_str("<li>")?;
    write_character_open(text, told)?;
    write_character_words(text)
}

// The link to the first printed character that is told of, where there is one.
fn write_first_character(text: &mut String, told: &[ToldWheel]) -> Result<(), AllocError>
    ensures { OnOk result (string_bytes text.new ≡ string_bytes text.old ++ first_character told.now) }
{
    match told.first() {
        Some(one) => write_character_entry(text, one),
        None => Ok(()),
    }
}

#[tactic(auto, unfolding(crate::specs::Begin::card_entry))]
// The link to a card.
fn write_card_entry(text: &mut String, card: usize) -> Result<(), AllocError>
    ensures { OnOk result (string_bytes text.new ≡ string_bytes text.old ++ card_entry card) }
{
    text.push_str("<li>")?;
    write_card_open(text, card)?;
    write_card_words(text)
}

// The link to the first card, if there is one; it has this number.
fn write_first_card(text: &mut String, first: usize, cards: &[Card]) -> Result<(), AllocError>
    ensures { OnOk result (string_bytes text.new ≡ string_bytes text.old ++ first_card first cards.now) }
{
    match cards.first() {
        Some(_) => write_card_entry(text, first),
        None => Ok(()),
    }
}

// The link to the first wire, where there is one.
fn write_first_wire(text: &mut String, wires: &[PanelWire]) -> Result<(), AllocError>
    ensures { OnOk result (string_bytes text.new ≡ string_bytes text.old ++ first_wire wires.now) }
{
    match wires.first() {
        Some(_) => write_wire_words(text),
        None => Ok(()),
    }
}

#[tactic(auto, unfolding(crate::specs::Begin::later_words))]
// The link to a later cycle.
fn write_later_words(text: &mut String, number: usize) -> Result<(), AllocError>
    ensures { OnOk result (string_bytes text.new ≡ string_bytes text.old ++ later_words number) }
{
    push_between(
        text,
        "<li><a href=\"#cycle",
        number,
        "\">A cycle</a> of the run, and from there one after another</li>\n",
    )
}

#[tactic(auto, unfolding(crate::specs::Begin::cycle_words))]
// The link to the cycle behind so many.
fn write_cycle_words(text: &mut String, before: usize) -> Result<(), AllocError>
    requires { before < 2 ^ 32 }
    ensures { OnOk result (string_bytes text.new ≡ string_bytes text.old ++ cycle_words before) }
{
    if before == 0 {
        write_step_words(text)
    } else {
        write_later_words(text, before + 1)
    }
}

#[tactic(auto, unfolding(crate::specs::Begin::first_cycle))]
// The link to the first cycle that is shown, where there is one.
fn write_first_cycle(text: &mut String, part: &TracePart) -> Result<(), AllocError>
    requires { part.now.before < 2 ^ 32 }
    ensures { OnOk result (string_bytes text.new ≡ string_bytes text.old ++ first_cycle part.now) }
{
    if count_cycles(&part.text) == 0 {
        Ok(())
    } else {
        write_cycle_words(text, part.before)
    }
}

#[tactic(auto, unfolding(crate::specs::Begin::front_links))]
// The links to the first printed character, the first sum and the first card.
fn write_front_links(
    text: &mut String,
    told: &[ToldWheel],
    sums: &[PageSum],
    first: usize,
    cards: &[Card],
) -> Result<(), AllocError>
    ensures { OnOk result (string_bytes text.new ≡ string_bytes text.old ++ front_links told.now sums.now first cards.now) }
{
    write_begin_open(text)?;
    write_first_character(text, told)?;
    write_first_sum(text, sums)?;
    write_first_card(text, first, cards)
}

#[tactic(auto, unfolding(crate::specs::Begin::begin_text))]
// The links to where a visitor may begin. The first of the cards has this number.
pub(crate) fn write_begin(
    text: &mut String,
    told: &[ToldWheel],
    sums: &[PageSum],
    first: usize,
    cards: &[Card],
    wires: &[PanelWire],
    part: &TracePart,
) -> Result<(), AllocError>
    requires { part.now.before < 2 ^ 32 }
    ensures { OnOk result (string_bytes text.new ≡ string_bytes text.old ++ begin_text told.now sums.now first cards.now wires.now part.now) }
{
    write_front_links(text, told, sums, first, cards)?;
    write_first_wire(text, wires)?;
    write_first_cycle(text, part)?;
    write_begin_close(text)
}
