//! The elements.

ghost use Rattle.std.specs.Prelude.{◌≡◌, ◌++◌, OnOk};
ghost use Rattle.std.specs.List.{flat_map};
ghost use Rattle.std.specs.String.{string_bytes};
ghost use Rattle.explain_wheel_ledgers.specs.Totals.{AreAccounts};
ghost use Rattle.show_sections.specs.WheelSections.Sections.{back_text, card_text, name_open, rest_text, section_close, section_open, told_open, told_section, told_sections, way_text, words_text};

use crate::report_sheets::write_wheel_name;
use crate::wheel_sections::words::write_linked;
use explain_wheel_ledgers::TitledAccount;
use explain_wheels::explanations::Explanation;
use explain_words::explanation_text::ToldWheel;
use hubs::Hub;
use show_drawings::drawings::panel_drawing::{write_picture_open, write_way};
use show_links::sum_places::{SumPlace, sum_behind, write_sum_link};
use show_links::{Shown, write_card_link, write_row_name};
use std::alloc::AllocError;

#[tactic(auto, unfolding(crate::specs::WheelSections::Sections::way_text))]
// The way at a row.
fn write_way_path(text: &mut String, row: &Option<Vec<Hub>>) -> Result<(), AllocError>
    ensures { OnOk result (string_bytes text.new ≡ string_bytes text.old ++ way_text row.now) }
{
    match row {
        Some(way) => {
            text.push_str("<path d=\"")?;
            write_way(text, way)?;
            text.push_str("\"/>")
        }
        None => Ok(()),
    }
}

#[tactic(auto, using(show_drawings::proofs::MarkupWords::Pieces::one_more))]
// The ways at all rows.
fn write_ways(text: &mut String, rows: &[Option<Vec<Hub>>]) -> Result<(), AllocError>
    ensures { OnOk result (string_bytes text.new ≡ string_bytes text.old ++ flat_map way_text rows.now) }
{
    for row in rows {
        write_way_path(text, row)?;
    }
    Ok(())
}

// The name of an element.
fn write_name(text: &mut String, page: u64, line: u32, wheel: u8) -> Result<(), AllocError>
    ensures { OnOk result (string_bytes text.new ≡ string_bytes text.old ++ name_open page line wheel) }
{
    text.push_str("<section id=\"")?;
    write_wheel_name(text, page, line, wheel)?;
    text.push_str("\">")
}

// The link back to the row.
fn write_back(text: &mut String, page: u64, line: u32) -> Result<(), AllocError>
    ensures { OnOk result (string_bytes text.new ≡ string_bytes text.old ++ back_text page line) }
{
    text.push_str("<a href=\"#")?;
    write_row_name(text, page, line)?;
    text.push_str("\">back</a>")
}

// The link to the card of the cycle that printed the line, if it has an element.
fn write_card(text: &mut String, shown: Shown, card: u32) -> Result<(), AllocError>
    ensures { OnOk result (string_bytes text.new ≡ string_bytes text.old ++ card_text shown card) }
{
    let number = card as usize;
    if shown.has(number) {
        text.push_str(" ")?;
        write_card_link(text, number)
    } else {
        Ok(())
    }
}

#[tactic(auto, unfolding(crate::specs::WheelSections::Sections::section_open))]
// The front of an element.
fn write_open(
    text: &mut String,
    shown: Shown,
    page: u64,
    line: u32,
    wheel: u8,
    card: u32,
) -> Result<(), AllocError>
    ensures { OnOk result (string_bytes text.new ≡ string_bytes text.old ++ section_open shown page line wheel card) }
{
    write_name(text, page, line, wheel)?;
    write_back(text, page, line)?;
    write_card(text, shown, card)
}

#[tactic(auto, unfolding(crate::specs::WheelSections::Sections::words_text))]
// The words of an element.
fn write_words(text: &mut String, words: &[u8]) -> Result<(), AllocError>
    ensures { OnOk result (string_bytes text.new ≡ string_bytes text.old ++ words_text words.now) }
{
    text.push_str("<pre>")?;
    write_linked(text, words)?;
    text.push_str("</pre>")
}

/// Writes the end of a picture and of its element. Fails only where no memory is left.
pub fn write_section_close(text: &mut String) -> Result<(), AllocError>
    ensures { OnOk result (string_bytes text.new ≡ string_bytes text.old ++ section_close) }
{
    text.push_str("</svg></section>\n")
}

// What stands in the element of a wheel behind its front: these words and these ways.
fn write_rest(text: &mut String, words: &[u8], rows: &[Option<Vec<Hub>>]) -> Result<(), AllocError>
    ensures { OnOk result (string_bytes text.new ≡ string_bytes text.old ++ rest_text words.now rows.now) }
{
    write_words(text, words)?;
    write_picture_open(text)?;
    write_ways(text, rows)?;
    write_section_close(text)
}

#[tactic(auto, unfolding(crate::specs::WheelSections::Sections::told_open))]
// The front of the element of a wheel that is told of.
fn write_told_open(
    text: &mut String,
    shown: Shown,
    sums: &[SumPlace],
    totals: &[TitledAccount],
    why: &Explanation,
) -> Result<(), AllocError>
    requires { AreAccounts totals.now }
    ensures { OnOk result (string_bytes text.new ≡ string_bytes text.old ++ told_open shown sums.now totals.now why.now) }
{
    write_open(
        text,
        shown,
        why.line.page,
        why.line.line,
        why.wheel,
        why.cards,
    )?;
    write_sum_link(text, sums, sum_behind(totals, why))
}

// The element of a wheel that is told of.
fn write_told(
    text: &mut String,
    shown: Shown,
    sums: &[SumPlace],
    totals: &[TitledAccount],
    told: &ToldWheel,
) -> Result<(), AllocError>
    requires { AreAccounts totals.now }
    ensures { OnOk result (string_bytes text.new ≡ string_bytes text.old ++ told_section shown sums.now totals.now told.now) }
{
    write_told_open(text, shown, sums, totals, &told.why)?;
    write_rest(text, told.words.as_bytes(), &told.why.rows)
}

#[tactic(auto, using(show_drawings::proofs::MarkupWords::Pieces::one_more))]
/// Writes the elements of wheels that are told of, in their order: each with the words of its explanation, and its ways over the panel. It
/// links to the card to which the cycle of its line belongs, if that is one of those that are shown, and to the sum behind it by these
/// totals, if that is one of `sums`, which have elements.
///
/// Fails only where no memory is left; a front of the elements may then have been written.
pub fn write_told_sections(
    text: &mut String,
    shown: Shown,
    sums: &[SumPlace],
    totals: &[TitledAccount],
    told: &[ToldWheel],
) -> Result<(), AllocError>
    requires { AreAccounts totals.now }
    ensures { OnOk result (string_bytes text.new ≡ string_bytes text.old ++ told_sections shown sums.now totals.now told.now) }
{
    for one in told {
        write_told(text, shown, sums, totals, one)?;
    }
    Ok(())
}
