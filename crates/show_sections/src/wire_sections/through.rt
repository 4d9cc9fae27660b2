//! What came through a wire or a hub.

ghost use Rattle.std.specs.Prelude.{◌≡◌, ◌++◌, OnOk};
ghost use Rattle.std.specs.String.{string_bytes};
ghost use Rattle.show_sections.specs.WireSections.Sections.{character_link, characters_text, none_text, part_text, place_words, said_or_none, some_text, through_link, through_links, through_text, told_link};

use crate::report_sheets::write_wheel_link;
use crate::wire_sections::held::write_held;
use crate::wire_sections::passing::{Part, came_through};
use chart_numerals::{push_between, push_numbered};
use explain_words::explanation_text::ToldWheel;
use hubs::Hub;
use show_drawings::markup::push_escaped;
use show_links::sum_places::SumPlace;
use std::alloc::{AllocError, Global};

// Where a character is printed.
fn write_place(text: &mut String, page: u64, line: u32, wheel: u8) -> Result<(), AllocError>
    ensures { OnOk result (string_bytes text.new ≡ string_bytes text.old ++ place_words page line wheel) }
{
    push_numbered(text, "page ", page)?;
    push_numbered(text, " line ", line)?;
    push_between(text, " wheel ", wheel, ": ")
}

// The link to a printed character.
fn write_character(
    text: &mut String,
    page: u64,
    line: u32,
    wheel: u8,
    character: u8,
) -> Result<(), AllocError>
    ensures { OnOk result (string_bytes text.new ≡ string_bytes text.old ++ character_link page line wheel character) }
{
    write_wheel_link(text, page, line, wheel)?;
    write_place(text, page, line, wheel)?;
    push_escaped(text, &[character])?;
    text.push_str("</a>\n")
}

// The link to the character of a wheel that is told of.
fn write_told_link(text: &mut String, told: &ToldWheel) -> Result<(), AllocError>
    ensures { OnOk result (string_bytes text.new ≡ string_bytes text.old ++ told_link told.now) }
{
    let why = &told.why;
    write_character(text, why.line.page, why.line.line, why.wheel, why.character)
}

// The link to the character of a wheel, where an impulse of it came through a part of the panel.
fn write_link(text: &mut String, part: Part, told: &ToldWheel) -> Result<(), AllocError>
    ensures { OnOk result (string_bytes text.new ≡ string_bytes text.old ++ through_link part told.now) }
{
    if !came_through(part, told) {
        return Ok(());
    }
    write_told_link(text, told)
}

// The links to the characters of which an impulse came through a part of the panel.
fn write_links(text: &mut String, part: Part, told: &[ToldWheel]) -> Result<(), AllocError>
    ensures { OnOk result (string_bytes text.new ≡ string_bytes text.old ++ through_links part told.now) }
{
    for one in told {
        write_link(text, part, one)?;
    }
    Ok(())
}

// What is said where there are links.
fn write_some(text: &mut String, links: &str) -> Result<(), AllocError>
    ensures { OnOk result (string_bytes text.new ≡ string_bytes text.old ++ some_text links.now) }
{
    text.push_str("<p>The ways shown for these characters lead through it:</p>\n<div>")?;
    text.push_str(links)?;
    text.push_str("</div>\n")
}

// What is said of the characters, by the links to them.
fn write_characters(text: &mut String, links: &str) -> Result<(), AllocError>
    ensures { OnOk result (string_bytes text.new ≡ string_bytes text.old ++ characters_text links.now) }
{
    if links.is_empty() {
        return Ok(());
    }
    write_some(text, links)
}

// What is said of the characters of which an impulse came through a part of the panel.
fn write_passed(
    alloc: Global,
    text: &mut String,
    told: &[ToldWheel],
    part: Part,
) -> Result<(), AllocError>
    ensures { OnOk result (string_bytes text.new ≡ string_bytes text.old ++ characters_text (through_links part told.now)) }
{
    let mut links = String::new(alloc);
    write_links(&mut links, part, told)?;
    write_characters(text, &links)
}

#[tactic(auto, unfolding(crate::specs::WireSections::Sections::part_text))]
// What is said of a part of the panel, and of the sums that the counter of a hub held.
fn write_part(
    alloc: Global,
    text: &mut String,
    told: &[ToldWheel],
    sums: &[SumPlace],
    part: Part,
    hub: Hub,
) -> Result<(), AllocError>
    ensures { OnOk result (string_bytes text.new ≡ string_bytes text.old ++ part_text told.now sums.now part hub) }
{
    write_passed(alloc, text, told, part)?;
    write_held(alloc, text, sums, hub)
}

#[tactic(auto, unfolding(crate::specs::WireSections::Sections::none_text))]
// What is said where there is nothing to say.
fn write_none(text: &mut String) -> Result<(), AllocError>
    ensures { OnOk result (string_bytes text.new ≡ string_bytes text.old ++ none_text) }
{
    text.push_str("<p>No way to a character shown leads through it.</p>\n")
}

// What is said, or that there is nothing.
fn write_said(text: &mut String, said: &str) -> Result<(), AllocError>
    ensures { OnOk result (string_bytes text.new ≡ string_bytes text.old ++ said_or_none said.now) }
{
    if said.is_empty() {
        return write_none(text);
    }
    text.push_str(said)
}

// What came through a part of the panel, and which sums the counter of a hub held.
pub(crate) fn write_through(
    alloc: Global,
    text: &mut String,
    told: &[ToldWheel],
    sums: &[SumPlace],
    part: Part,
    hub: Hub,
) -> Result<(), AllocError>
    ensures { OnOk result (string_bytes text.new ≡ string_bytes text.old ++ through_text told.now sums.now part hub) }
{
    let mut said = String::new(alloc);
    write_part(alloc, &mut said, told, sums, part, hub)?;
    write_said(text, &said)
}
