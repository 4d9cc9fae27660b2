//! The head of the page: its title, and its counts.

ghost use Rattle.std.specs.Prelude.{◌≡◌, ◌++◌, OnOk};
ghost use Rattle.std.specs.String.{string_bytes};
ghost use Rattle.show_page.specs.Helper.{GainsHead};
ghost use Rattle.show_page.specs.Titles.{bare_words, counts_words, heading_of, heading_words, panel_words, plain_open, plain_title, printed_words, program_close, program_open, program_words, read_words, run_words, title_of, what_decided, wired_words};

use crate::counts::write_counted;
use crate::frame::{write_document_open, write_header_open, write_style, write_style_open};
use crate::marks::write_marks;
use chart_lines::charts::{Line, Statement};
use page_text::placed_lines::PlacedLine;
use page_text::without_trailing_blanks;
use show_drawings::markup::push_escaped;
use std::alloc::AllocError;

// How much a run has of what is counted at the head of its page.
#[derive(Clone, Copy, Debug)]
pub(crate) struct RunCounts {
    // How many cards the deck has.
    pub(crate) cards: usize,
    // How many lines the machine prints of it.
    pub(crate) lines: usize,
    // How many wires the panel has.
    pub(crate) wires: usize,
}

// The literal that a line of a chart puts on a heading line, without the blanks at its end.
fn heading_words(statement: &Statement) -> &[u8]
    ensures { result.now ≡ heading_words statement.now }
{
    match statement {
        Statement::Head { literal, .. } => without_trailing_blanks(literal.characters()),
        _ => &[],
    }
}

#[tactic(auto, using(crate::proofs::Titles::words_none, crate::proofs::Titles::words_some))]
// The first literal of some heading lines that has more than blanks; nothing where there is none.
pub(crate) fn heading_of(lines: &[Line]) -> &[u8]
    ensures { result.now ≡ heading_of lines.now }
{
    for line in lines {
        let words = heading_words(&line.statement);
        if !words.is_empty() {
            return words;
        }
    }
    &[]
}

#[tactic(auto, unfolding(crate::specs::Titles::plain_open))]
// What stands before how many cards a report is of.
fn write_plain_open(text: &mut String) -> Result<(), AllocError>
    ensures { OnOk result (string_bytes text.new ≡ string_bytes text.old ++ plain_open) }
{
    text.push_str("A report of ")
}

#[tactic(auto, unfolding(crate::specs::Titles::plain_title))]
// A title that says how many cards the report is of.
fn write_plain_title(text: &mut String, cards: usize) -> Result<(), AllocError>
    ensures { OnOk result (string_bytes text.new ≡ string_bytes text.old ++ plain_title cards) }
{
    write_plain_open(text)?;
    write_counted(text, cards, "card")
}

#[tactic(auto, using(crate::proofs::Titles::title_none, crate::proofs::Titles::title_some))]
// The title.
fn write_title(text: &mut String, heading: &[u8], cards: usize) -> Result<(), AllocError>
    ensures { OnOk result (string_bytes text.new ≡ string_bytes text.old ++ title_of heading.now cards) }
{
    if heading.is_empty() {
        write_plain_title(text, cards)
    } else {
        push_escaped(text, heading)
    }
}

#[tactic(auto, unfolding(crate::specs::Titles::read_words))]
// What stands before how many cards were read.
fn write_read_words(text: &mut String) -> Result<(), AllocError>
    ensures { OnOk result (string_bytes text.new ≡ string_bytes text.old ++ read_words) }
{
    text.push_str("</h1>\n<p class=\"counts\">The machine read ")
}

#[tactic(auto, unfolding(crate::specs::Titles::printed_words))]
// What stands before how many lines were printed.
fn write_printed_words(text: &mut String) -> Result<(), AllocError>
    ensures { OnOk result (string_bytes text.new ≡ string_bytes text.old ++ printed_words) }
{
    text.push_str(" and printed ")
}

#[tactic(auto, unfolding(crate::specs::Titles::run_words))]
// How many cards were read, and how many lines were printed.
fn write_run_words(text: &mut String, cards: usize, lines: usize) -> Result<(), AllocError>
    ensures { OnOk result (string_bytes text.new ≡ string_bytes text.old ++ run_words cards lines) }
{
    write_read_words(text)?;
    write_counted(text, cards, "card")?;
    write_printed_words(text)?;
    write_counted(text, lines, "line")
}

#[tactic(auto, unfolding(crate::specs::Titles::program_open))]
// What stands before how many wires there are.
fn write_program_open(text: &mut String) -> Result<(), AllocError>
    ensures { OnOk result (string_bytes text.new ≡ string_bytes text.old ++ program_open) }
{
    text.push_str(". It had no program: ")
}

#[tactic(auto, unfolding(crate::specs::Titles::panel_words))]
// What stands behind that.
fn write_panel_words(text: &mut String) -> Result<(), AllocError>
    ensures { OnOk result (string_bytes text.new ≡ string_bytes text.old ++ panel_words) }
{
    text.push_str(" on a panel decided what it did")
}

#[tactic(auto, unfolding(crate::specs::Titles::wired_words))]
// How many wires the panel has.
fn write_wired_words(text: &mut String, wires: usize) -> Result<(), AllocError>
    ensures { OnOk result (string_bytes text.new ≡ string_bytes text.old ++ wired_words wires) }
{
    write_program_open(text)?;
    write_counted(text, wires, "wire")?;
    write_panel_words(text)
}

#[tactic(auto, unfolding(crate::specs::Titles::bare_words))]
// That the panel has none.
fn write_bare_words(text: &mut String) -> Result<(), AllocError>
    ensures { OnOk result (string_bytes text.new ≡ string_bytes text.old ++ bare_words) }
{
    text.push_str(". It had no program, and its panel had no wires")
}

// What decided what the machine did.
fn write_what_decided(text: &mut String, wires: usize) -> Result<(), AllocError>
    ensures { OnOk result (string_bytes text.new ≡ string_bytes text.old ++ what_decided wires) }
{
    if wires == 0 {
        write_bare_words(text)
    } else {
        write_wired_words(text, wires)
    }
}

#[tactic(auto, unfolding(crate::specs::Titles::program_close))]
// How a visitor may go on.
fn write_program_close(text: &mut String) -> Result<(), AllocError>
    ensures { OnOk result (string_bytes text.new ≡ string_bytes text.old ++ program_close) }
{
    text.push_str(". Choose anything on this page that is printed, punched or wired.</p>\n")
}

#[tactic(auto, unfolding(crate::specs::Titles::program_words))]
// What decided what the machine did, and how a visitor may go on.
fn write_program_words(text: &mut String, wires: usize) -> Result<(), AllocError>
    ensures { OnOk result (string_bytes text.new ≡ string_bytes text.old ++ program_words wires) }
{
    write_what_decided(text, wires)?;
    write_program_close(text)
}

#[tactic(auto, unfolding(crate::specs::Titles::counts_words))]
// The counts.
fn write_counts(text: &mut String, counts: RunCounts) -> Result<(), AllocError>
    ensures { OnOk result (string_bytes text.new ≡ string_bytes text.old ++ counts_words counts) }
{
    write_run_words(text, counts.cards, counts.lines)?;
    write_program_words(text, counts.wires)
}

// The head of the document, with rules that mark the characters of some lines, and the title on the page with its counts.
pub(crate) fn write_head(
    text: &mut String,
    heading: &[u8],
    counts: RunCounts,
    lines: &[PlacedLine],
) -> Result<(), AllocError>
    ensures { OnOk result (GainsHead heading.now counts lines.now (string_bytes text.old) (string_bytes text.new)) }
{
    write_document_open(text)?;
    write_title(text, heading, counts.cards)?;
    write_style_open(text)?;
    write_style(text)?;
    write_marks(text, lines)?;
    write_header_open(text)?;
    write_title(text, heading, counts.cards)?;
    write_counts(text, counts)
}
