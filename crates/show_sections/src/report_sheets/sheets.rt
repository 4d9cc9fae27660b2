//! Sheets.

ghost use Rattle.std.specs.Prelude.{◌≡◌, ◌<◌, ◌≤◌, ◌++◌, length, OnOk};
ghost use Rattle.std.specs.List.{flat_map, range_with_len};
ghost use Rattle.std.specs.String.{string_bytes};
ghost use Rattle.page_text.specs.Pages.{text_at};
ghost use Rattle.show_sections.specs.ReportSheets.Sheets.{characters_text, cycle_word, link_text, printed_text, row_open, sheet_open, sheet_row, sheet_text, sheets_text, total_word, wheel_name, wheel_text, widest, word_at, word_text, written_row};

use chart_numerals::{push_between, push_numbered};
use explain_wheels::explanations::FoundLine;
use net::Cycle;
use page_text::placed_lines::PlacedLine;
use page_text::{last_page, without_trailing_blanks};
use show_drawings::markup::push_escaped;
use show_links::{Shown, write_card_word, write_row_name};
use std::alloc::AllocError;

/// Writes the name of a wheel of a row: as `p1l2w3`. Fails only where no memory is left.
pub fn write_wheel_name(
    text: &mut String,
    page: u64,
    line: u32,
    wheel: u8,
) -> Result<(), AllocError>
    ensures { OnOk result (string_bytes text.new ≡ string_bytes text.old ++ wheel_name page line wheel) }
{
    write_row_name(text, page, line)?;
    push_numbered(text, "w", wheel)
}

/// Writes the front of a link to a wheel of a row. Fails only where no memory is left.
pub fn write_wheel_link(
    text: &mut String,
    page: u64,
    line: u32,
    wheel: u8,
) -> Result<(), AllocError>
    ensures { OnOk result (string_bytes text.new ≡ string_bytes text.old ++ link_text page line wheel) }
{
    text.push_str("<a href=\"#")?;
    write_wheel_name(text, page, line, wheel)?;
    text.push_str("\">")
}

// A printed character.
fn write_printed(
    text: &mut String,
    page: u64,
    line: u32,
    wheel: u8,
    character: u8,
) -> Result<(), AllocError>
    ensures { OnOk result (string_bytes text.new ≡ string_bytes text.old ++ printed_text page line wheel character) }
{
    write_wheel_link(text, page, line, wheel)?;
    push_escaped(text, &[character])?;
    text.push_str("</a>")
}

#[tactic(auto, unfolding(crate::specs::ReportSheets::Sheets::wheel_text))]
// What a wheel printed.
fn write_wheel(
    text: &mut String,
    page: u64,
    line: u32,
    wheel: u8,
    character: u8,
) -> Result<(), AllocError>
    ensures { OnOk result (string_bytes text.new ≡ string_bytes text.old ++ wheel_text page line wheel character) }
{
    if character == b' ' {
        text.push_str(" ")
    } else {
        write_printed(text, page, line, wheel, character)
    }
}

#[tactic(auto, unfolding(crate::specs::ReportSheets::Sheets::characters_text), using(show_drawings::proofs::MarkupWords::Pieces::range_none, show_drawings::proofs::MarkupWords::Pieces::range_more))]
// The characters of a line.
fn write_characters(
    text: &mut String,
    page: u64,
    line: u32,
    characters: &[u8],
) -> Result<(), AllocError>
    requires { length characters.now ≤ 120 }
    ensures { OnOk result (string_bytes text.new ≡ string_bytes text.old ++ characters_text page line characters.now) }
{
    for place in 0..characters.len() {
        let wheel = place as u8 + 1;
        write_wheel(text, page, line, wheel, characters[place])?;
    }
    Ok(())
}

// The word for a program cycle of a level.
fn write_total_word(text: &mut String, level: u8) -> Result<(), AllocError>
    ensures { OnOk result (string_bytes text.new ≡ string_bytes text.old ++ total_word level) }
{
    if level == 4 {
        text.push_str("final")
    } else {
        push_numbered(text, "total ", level)
    }
}

// The word for a cycle that printed a line. The card is that of a card cycle.
fn write_cycle_word(
    text: &mut String,
    shown: Shown,
    cycle: Cycle,
    card: u32,
) -> Result<(), AllocError>
    ensures { OnOk result (string_bytes text.new ≡ string_bytes text.old ++ cycle_word shown cycle card) }
{
    match cycle {
        Cycle::RunIn => text.push_str("run-in"),
        Cycle::Card => write_card_word(text, shown, card as usize),
        Cycle::Prog(level, _) => write_total_word(text, level.number()),
        Cycle::Head(_) => text.push_str("head"),
    }
}

// The word at a place; none where none of the cycles printed there.
fn write_word_at(
    text: &mut String,
    shown: Shown,
    found: &[FoundLine],
    page: u64,
    line: u32,
) -> Result<(), AllocError>
    ensures { OnOk result (string_bytes text.new ≡ string_bytes text.old ++ word_at shown found.now page line) }
{
    for one in found {
        if one.kept.line.page == page && one.kept.line.line == line {
            return write_cycle_word(text, shown, one.kept.cycle, one.cards);
        }
    }
    Ok(())
}

#[tactic(auto, unfolding(crate::specs::ReportSheets::Sheets::row_open))]
// The front of a row.
fn write_row_open(text: &mut String, page: u64, line: u32) -> Result<(), AllocError>
    ensures { OnOk result (string_bytes text.new ≡ string_bytes text.old ++ row_open page line) }
{
    text.push_str("<span id=\"")?;
    write_row_name(text, page, line)?;
    text.push_str("\"><b>")
}

#[tactic(auto, unfolding(crate::specs::ReportSheets::Sheets::word_text))]
// The front of a row, with its word.
fn write_word(
    text: &mut String,
    shown: Shown,
    found: &[FoundLine],
    page: u64,
    line: u32,
) -> Result<(), AllocError>
    ensures { OnOk result (string_bytes text.new ≡ string_bytes text.old ++ word_text shown found.now page line) }
{
    write_row_open(text, page, line)?;
    write_word_at(text, shown, found, page, line)?;
    text.push_str("</b>")
}

#[tactic(auto, using(page_text::proofs::CutTexts::no_longer))]
// The word and the characters of a row, as an element of its own where a line stands there.
fn write_printed_row(
    text: &mut String,
    shown: Shown,
    found: &[FoundLine],
    page: u64,
    line: u32,
    characters: &[u8],
) -> Result<(), AllocError>
    requires { length characters.now ≤ 120 }
    ensures { OnOk result (string_bytes text.new ≡ string_bytes text.old ++ written_row shown found.now page line characters.now) }
{
    if characters.is_empty() {
        return Ok(());
    }
    write_word(text, shown, found, page, line)?;
    write_characters(text, page, line, without_trailing_blanks(characters))?;
    text.push_str("</span>")
}

// The text that stands at a place; none where no line does.
fn text_at(lines: &[PlacedLine], page: u64, line: u32) -> &[u8]
    ensures text { result.now ≡ text_at lines.now page line }
    ensures wheels { length result.now ≤ 120 }
{
    for placed in lines {
        if placed.page == page && placed.line == line {
            return &placed.text;
        }
    }
    &[]
}

#[tactic(auto, unfolding(crate::specs::ReportSheets::Sheets::sheet_row))]
// A row.
fn write_row(
    text: &mut String,
    shown: Shown,
    lines: &[PlacedLine],
    found: &[FoundLine],
    page: u64,
    line: u32,
) -> Result<(), AllocError>
    ensures { OnOk result (string_bytes text.new ≡ string_bytes text.old ++ sheet_row shown lines.now found.now page line) }
{
    write_printed_row(text, shown, found, page, line, text_at(lines, page, line))?;
    text.push_str("\n")
}

#[tactic(auto, using(show_drawings::proofs::MarkupWords::Pieces::range_none, show_drawings::proofs::MarkupWords::Pieces::range_more))]
// The rows of a sheet.
fn write_rows(
    text: &mut String,
    shown: Shown,
    lines: &[PlacedLine],
    found: &[FoundLine],
    long: u32,
    page: u64,
) -> Result<(), AllocError>
    requires { long ≤ 144 }
    ensures { OnOk result (string_bytes text.new ≡ string_bytes text.old ++ flat_map (sheet_row shown lines.now found.now page) (range_with_len 1 long)) }
{
    for passed in 0..long {
        write_row(text, shown, lines, found, page, passed + 1)?;
    }
    Ok(())
}

// The front of a sheet. Behind it stands an empty element, since a reader of HTML drops an end of a line that stands there.
fn write_sheet_open(text: &mut String, page: u64) -> Result<(), AllocError>
    ensures { OnOk result (string_bytes text.new ≡ string_bytes text.old ++ sheet_open page) }
{
    push_between(text, "<pre id=\"page", page, "\"><span></span>")
}

#[tactic(auto, unfolding(crate::specs::ReportSheets::Sheets::sheet_text))]
// A sheet.
fn write_sheet(
    text: &mut String,
    shown: Shown,
    lines: &[PlacedLine],
    found: &[FoundLine],
    long: u32,
    page: u64,
) -> Result<(), AllocError>
    requires { long ≤ 144 }
    ensures { OnOk result (string_bytes text.new ≡ string_bytes text.old ++ sheet_text shown lines.now found.now long page) }
{
    write_sheet_open(text, page)?;
    write_rows(text, shown, lines, found, long, page)?;
    text.push_str("</pre>\n")
}

#[tactic(auto, unfolding(crate::specs::ReportSheets::Sheets::sheets_text), using(crate::proofs::ReportSheets::sheets_none, crate::proofs::ReportSheets::sheets_more))]
/// Writes the pages of lines on forms of `form_lines` lines, at most 144: a sheet for each page from page `first` to the last one that has a
/// line, with a row for each line of the form. A printed character links to the element that is named for its page, its line and its
/// wheel, as `p1l2w3`; a row with a line is the element of its page and its line, as `p1l2`, and begins with a word for the cycle that
/// printed it, by those that were found: `head`, `card 3`, `total 1`, `final`. The card links to its element, if it is among those that are
/// shown.
///
/// Of two lines at one place the first is shown. Fails only where no memory is left; a front of the sheets may then have been written.
pub fn write_sheets(
    text: &mut String,
    shown: Shown,
    lines: &[PlacedLine],
    found: &[FoundLine],
    form_lines: u32,
    first: u64,
) -> Result<(), AllocError>
    requires form { form_lines ≤ 144 }
    requires first { 1 ≤ first }
    ensures { OnOk result (string_bytes text.new ≡ string_bytes text.old ++ sheets_text shown lines.now found.now form_lines first) }
{
    for passed in 0..last_page(lines).saturating_sub(first - 1) {
        write_sheet(text, shown, lines, found, form_lines, first + passed)?;
    }
    Ok(())
}

/// How many characters the widest of some lines has, up to its last one that is no blank; 0 where there is no line.
pub fn widest(lines: &[PlacedLine]) -> usize
    ensures { result ≡ widest lines.now }
{
    let mut wide = 0;
    for placed in lines {
        wide = wide.max(without_trailing_blanks(&placed.text).len());
    }
    wide
}
