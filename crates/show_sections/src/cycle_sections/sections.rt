//! The elements of a trace.

ghost use Rattle.std.specs.Prelude.{◌≡◌, ◌≤◌, ◌<◌, ◌+◌, ◌^◌, ◌++◌, length, OnOk};
ghost use Rattle.std.specs.String.{string_bytes};
ghost use Rattle.card_code.specs.Lines.{lines_of};
ghost use Rattle.show_sections.specs.CycleSections.Sections.{back_text, before_text, cycles_text, link_open, links_text, next_text, place_text, quiet_text, quiet_words, rows_text, section_close, section_open, section_text, words_text};

use crate::cycle_sections::rows::rows_of;
use card_code::next_line;
use chart_numerals::{push_between, push_numbered};
use show_drawings::markup::push_escaped;
use std::alloc::{AllocError, Global};

#[tactic(auto, unfolding(crate::specs::CycleSections::Sections::link_open))]
// A link to a cycle, up to its words.
fn write_link(text: &mut String, number: usize) -> Result<(), AllocError>
    ensures { OnOk result (string_bytes text.new ≡ string_bytes text.old ++ link_open number) }
{
    push_between(text, "<a href=\"#cycle", number, "\">")
}

#[tactic(auto, unfolding(crate::specs::CycleSections::Sections::next_text))]
// The link to the next cycle.
fn write_next(text: &mut String, number: usize, shown: usize) -> Result<(), AllocError>
    ensures { OnOk result (string_bytes text.new ≡ string_bytes text.old ++ next_text number shown) }
{
    if number < shown {
        write_link(text, number + 1)?;
        text.push_str("next cycle</a> ")
    } else {
        Ok(())
    }
}

#[tactic(auto, unfolding(crate::specs::CycleSections::Sections::before_text))]
// The link to the cycle before.
fn write_before(text: &mut String, number: usize, first: usize) -> Result<(), AllocError>
    ensures { OnOk result (string_bytes text.new ≡ string_bytes text.old ++ before_text number first) }
{
    if first < number {
        write_link(text, number - 1)?;
        text.push_str("cycle before</a> ")
    } else {
        Ok(())
    }
}

#[tactic(auto, unfolding(crate::specs::CycleSections::Sections::back_text))]
// The link to the report.
fn write_back(text: &mut String) -> Result<(), AllocError>
    ensures { OnOk result (string_bytes text.new ≡ string_bytes text.old ++ back_text) }
{
    text.push_str("<a href=\"#report\">back to the report</a> ")
}

#[tactic(auto, unfolding(crate::specs::CycleSections::Sections::place_text))]
// Which of all cycles this one is.
fn write_place(text: &mut String, number: usize, all: usize) -> Result<(), AllocError>
    ensures { OnOk result (string_bytes text.new ≡ string_bytes text.old ++ place_text number all) }
{
    push_numbered(text, "cycle ", number)?;
    push_numbered(text, " of ", all)
}

#[tactic(auto, unfolding(crate::specs::CycleSections::Sections::links_text))]
// What stands above the words of an element.
fn write_links(
    text: &mut String,
    number: usize,
    first: usize,
    shown: usize,
    all: usize,
) -> Result<(), AllocError>
    ensures { OnOk result (string_bytes text.new ≡ string_bytes text.old ++ links_text number first shown all) }
{
    write_next(text, number, shown)?;
    write_before(text, number, first)?;
    write_back(text)?;
    write_place(text, number, all)
}

#[tactic(auto, unfolding(crate::specs::CycleSections::Sections::quiet_words))]
// What is said of a cycle of which nothing is told but its name.
fn write_quiet_words(text: &mut String) -> Result<(), AllocError>
    ensures { OnOk result (string_bytes text.new ≡ string_bytes text.old ++ quiet_words) }
{
    text.push_str(
        "<p>In this cycle no line was printed, no counter did anything, no storage unit took up other characters, and no pilot was transferred.</p>",
    )
}

// The same, if the line of the cycle has its name alone.
fn write_quiet(text: &mut String, line: &[u8]) -> Result<(), AllocError>
    ensures { OnOk result (string_bytes text.new ≡ string_bytes text.old ++ quiet_text line.now) }
{
    if line.len() <= 16 {
        write_quiet_words(text)
    } else {
        Ok(())
    }
}

#[tactic(auto, unfolding(crate::specs::CycleSections::Sections::rows_text))]
// The line of a cycle, in rows.
fn write_rows(alloc: Global, text: &mut String, line: &[u8]) -> Result<(), AllocError>
    ensures { OnOk result (string_bytes text.new ≡ string_bytes text.old ++ rows_text line.now) }
{
    let rows = rows_of(alloc, line)?;
    text.push_str("<pre>")?;
    push_escaped(text, &rows)?;
    text.push_str("</pre>")
}

#[tactic(auto, unfolding(crate::specs::CycleSections::Sections::words_text))]
// The words of an element.
fn write_words(alloc: Global, text: &mut String, line: &[u8]) -> Result<(), AllocError>
    ensures { OnOk result (string_bytes text.new ≡ string_bytes text.old ++ words_text line.now) }
{
    write_rows(alloc, text, line)?;
    write_quiet(text, line)
}

#[tactic(auto, unfolding(crate::specs::CycleSections::Sections::section_open))]
// The front of an element.
fn write_open(text: &mut String, number: usize) -> Result<(), AllocError>
    ensures { OnOk result (string_bytes text.new ≡ string_bytes text.old ++ section_open number) }
{
    push_between(text, "<section id=\"cycle", number, "\">")
}

#[tactic(auto, unfolding(crate::specs::CycleSections::Sections::section_close))]
// The end of an element.
fn write_close(text: &mut String) -> Result<(), AllocError>
    ensures { OnOk result (string_bytes text.new ≡ string_bytes text.old ++ section_close) }
{
    text.push_str("</section>\n")
}

#[tactic(auto, unfolding(crate::specs::CycleSections::Sections::section_text))]
// The element of a cycle.
fn write_section(
    alloc: Global,
    text: &mut String,
    number: usize,
    first: usize,
    shown: usize,
    all: usize,
    line: &[u8],
) -> Result<(), AllocError>
    ensures { OnOk result (string_bytes text.new ≡ string_bytes text.old ++ section_text number first shown all line.now) }
{
    write_open(text, number)?;
    write_links(text, number, first, shown, all)?;
    write_words(alloc, text, line)?;
    write_close(text)
}

/// How many cycles a trace tells of: it has a line for each.
pub fn count_cycles(trace: &[u8]) -> usize
    ensures lines { result ≡ length (lines_of trace.now) }
    ensures few { result ≤ length trace.now }
{
    let mut count = 0;
    let mut rest = trace;
    while let Some((_, after)) = next_line(rest) {
        count += 1;
        rest = after;
    }
    count
}

#[tactic(auto, unfolding(crate::specs::CycleSections::Sections::cycles_text))]
/// Writes the elements of the cycles of a part of a trace, one for each of its lines in their order: `before` cycles come before them, and
/// `all` there are in the whole run. Each has links to the next cycle of the part, to the one before and to the element `report`, tells which
/// of all cycles it is, and has the words of the line, in rows. The element of the third cycle of the run has the id `cycle3`.
///
/// Fails only where no memory is left; a front of the elements may then have been written.
pub fn write_cycles(
    alloc: Global,
    text: &mut String,
    part: &[u8],
    before: usize,
    all: usize,
) -> Result<(), AllocError>
    requires { before < 2 ^ 32 }
    ensures { OnOk result (string_bytes text.new ≡ string_bytes text.old ++ cycles_text before all part.now) }
{
    let first = before + 1;
    let shown = before + count_cycles(part);
    let mut number = first;
    let mut rest = part;
    while let Some((line, after)) = next_line(rest) {
        write_section(alloc, text, number, first, shown, all, line)?;
        number += 1;
        rest = after;
    }
    Ok(())
}
