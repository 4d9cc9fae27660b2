//! The elements of sums.

ghost use Rattle.std.specs.Prelude.{◌≡◌, ◌++◌, IfOk, OnOk};
ghost use Rattle.std.specs.String.{string_bytes};
ghost use Rattle.explain_ledgers.specs.LedgersWords.LedgerText.Names.{cycle_text};
ghost use Rattle.show_sums.specs.SumSections.Sections.{back_text, before_text, behind_text, first_sum, front_text, head_text, open_text, section_text, sum_sections_text, sum_entry, sum_words, why_some, why_text, why_words};

use crate::sum_sections::between::write_cards_between;
use crate::sum_sections::into::write_higher_sums;
use crate::sum_sections::labels::write_label;
use crate::sum_sections::rows::write_table;
use crate::sum_sections::sums::PageSum;
use explain_ledgers::ledgers::FoundCycle;
use explain_ledgers::ledgers::ledger_text::write_cycle;
use show_drawings::markup::push_escaped;
use show_links::sum_places::{write_sum_name, write_sum_open};
use show_links::{Shown, write_row_name};
use std::alloc::{AllocError, Global};

#[tactic(auto, unfolding(crate::specs::SumSections::Sections::open_text))]
// The front of an element, with its name.
fn write_open(text: &mut String, sum: &PageSum) -> Result<(), AllocError>
    ensures { OnOk result (string_bytes text.new ≡ string_bytes text.old ++ open_text sum.now) }
{
    text.push_str("<section id=\"")?;
    write_sum_name(text, sum.at)?;
    text.push_str("\">")
}

#[tactic(auto, unfolding(crate::specs::SumSections::Sections::back_text))]
// The link to the row of the figure.
fn write_back(text: &mut String, sum: &PageSum) -> Result<(), AllocError>
    ensures { OnOk result (string_bytes text.new ≡ string_bytes text.old ++ back_text sum.now) }
{
    text.push_str("<a href=\"#")?;
    write_row_name(text, sum.at.page, sum.at.line)?;
    text.push_str("\">back</a>\n<h2>")
}

// The name of the cycle that printed the figure.
fn printing_cycle(alloc: Global, found: FoundCycle) -> Result<Vec<u8>, AllocError>
    ensures { IfOk result (λ words. words.items ≡ cycle_text found.cycle found.card) }
{
    let mut words = Vec::new(alloc);
    match write_cycle(&mut words, found.cycle, found.card) {
        Ok(()) => Ok(words),
        Err(_) => Err(AllocError),
    }
}

#[tactic(auto, unfolding(crate::specs::SumSections::Sections::before_text))]
// Which counter it is, and before which cycle.
fn write_before(alloc: Global, text: &mut String, sum: &PageSum) -> Result<(), AllocError>
    ensures { OnOk result (string_bytes text.new ≡ string_bytes text.old ++ before_text sum.now) }
{
    let cycle = printing_cycle(alloc, sum.found)?;
    text.push_str("</h2>\n<p>Counter ")?;
    push_escaped(text, &sum.groups)?;
    text.push_str(" before ")?;
    push_escaped(text, &cycle)?;
    text.push_str(":</p>\n")
}

#[tactic(auto, unfolding(crate::specs::SumSections::Sections::head_text))]
// What a sum is called.
fn write_head(text: &mut String, sum: &PageSum) -> Result<(), AllocError>
    ensures { OnOk result (string_bytes text.new ≡ string_bytes text.old ++ head_text sum.now) }
{
    write_open(text, sum)?;
    write_back(text, sum)?;
    write_label(text, sum)
}

#[tactic(auto, unfolding(crate::specs::SumSections::Sections::front_text))]
// What stands before the rows.
fn write_front(alloc: Global, text: &mut String, sum: &PageSum) -> Result<(), AllocError>
    ensures { OnOk result (string_bytes text.new ≡ string_bytes text.old ++ front_text sum.now) }
{
    write_head(text, sum)?;
    write_before(alloc, text, sum)
}

#[tactic(auto, unfolding(crate::specs::SumSections::Sections::why_words))]
// Why the cycle ran that printed the figure.
fn write_why_words(text: &mut String, why: &[u8]) -> Result<(), AllocError>
    ensures { OnOk result (string_bytes text.new ≡ string_bytes text.old ++ why_words why.now) }
{
    text.push_str("<p>Why it was printed then:</p>\n<pre>")?;
    push_escaped(text, why)?;
    text.push_str("</pre>\n")
}

#[tactic(auto, unfolding(crate::specs::SumSections::Sections::why_some))]
// The same, with the cards between which it ran, of which the first has this number.
fn write_why_some(text: &mut String, shown: Shown, card: u32, why: &[u8]) -> Result<(), AllocError>
    ensures { OnOk result (string_bytes text.new ≡ string_bytes text.old ++ why_some shown card why.now) }
{
    write_why_words(text, why)?;
    write_cards_between(text, shown, card as usize)
}

// The same, if it is told.
fn write_why(text: &mut String, shown: Shown, card: u32, why: &[u8]) -> Result<(), AllocError>
    ensures { OnOk result (string_bytes text.new ≡ string_bytes text.old ++ why_text shown card why.now) }
{
    if why.is_empty() {
        Ok(())
    } else {
        write_why_some(text, shown, card, why)
    }
}

#[tactic(auto, unfolding(crate::specs::SumSections::Sections::behind_text))]
// What stands behind the rows: into which sums it went, and why it was printed then.
fn write_behind(
    text: &mut String,
    shown: Shown,
    sums: &[PageSum],
    sum: &PageSum,
) -> Result<(), AllocError>
    ensures { OnOk result (string_bytes text.new ≡ string_bytes text.old ++ behind_text shown sums.now sum.now) }
{
    write_higher_sums(text, sums, sum)?;
    write_why(text, shown, sum.found.card, &sum.why)?;
    text.push_str("</section>\n")
}

#[tactic(auto, unfolding(crate::specs::SumSections::Sections::section_text))]
// The element of a sum.
fn write_section(
    alloc: Global,
    text: &mut String,
    shown: Shown,
    sums: &[PageSum],
    sum: &PageSum,
) -> Result<(), AllocError>
    ensures { OnOk result (string_bytes text.new ≡ string_bytes text.old ++ section_text shown sums.now sum.now) }
{
    write_front(alloc, text, sum)?;
    write_table(alloc, text, shown, sums, sum)?;
    write_behind(text, shown, sums, sum)
}

#[tactic(auto, using(show_drawings::proofs::MarkupWords::Pieces::one_more))]
/// Writes the elements of the sums of a page: what each is called, its counter, a row for each cycle in which something was added or
/// subtracted, into which higher sums it went, why it was printed then, and the cards between which it was. Rows link to the cards that are
/// shown, and to the lower totals among the sums.
///
/// Fails only if no memory is left; a front of the elements may then have been written.
pub fn write_sum_sections(
    alloc: Global,
    text: &mut String,
    shown: Shown,
    sums: &[PageSum],
) -> Result<(), AllocError>
    ensures { OnOk result (string_bytes text.new ≡ string_bytes text.old ++ sum_sections_text shown sums.now) }
{
    for sum in sums {
        write_section(alloc, text, shown, sums, sum)?;
    }
    Ok(())
}

#[tactic(auto, unfolding(crate::specs::SumSections::Sections::sum_words))]
// The words of a link to a sum.
fn write_words(text: &mut String) -> Result<(), AllocError>
    ensures { OnOk result (string_bytes text.new ≡ string_bytes text.old ++ sum_words) }
{
    text.push_str("A sum</a>: how it came about, and what the counter held on the way</li>\n")
}

#[tactic(auto, unfolding(crate::specs::SumSections::Sections::sum_entry))]
// An entry of a list that links to a sum.
fn write_entry(text: &mut String, sum: &PageSum) -> Result<(), AllocError>
    ensures { OnOk result (string_bytes text.new ≡ string_bytes text.old ++ sum_entry sum.now) }
{
    text.push_str("<li>")?;
    write_sum_open(text, sum.at)?;
    write_words(text)
}

/// Writes an entry of a list that links to the first of some sums, if there is one. Fails only if no memory is left; a front of it may then
/// have been written.
pub fn write_first_sum(text: &mut String, sums: &[PageSum]) -> Result<(), AllocError>
    ensures { OnOk result (string_bytes text.new ≡ string_bytes text.old ++ first_sum sums.now) }
{
    match sums.first() {
        Some(sum) => write_entry(text, sum),
        None => Ok(()),
    }
}
