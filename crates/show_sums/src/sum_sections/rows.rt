//! The rows of a sum.

ghost use Rattle.std.specs.Prelude.{◌≡◌, ◌++◌, IfOk, OnOk};
ghost use Rattle.std.specs.List.{flat_map};
ghost use Rattle.std.specs.String.{string_bytes};
ghost use Rattle.explain_ledgers.specs.LedgersWords.LedgerText.Entries.{gap_line, sum_text};
ghost use Rattle.explain_wheel_ledgers.specs.ToldLedgers.{words_told};
ghost use Rattle.show_sums.specs.SumSections.Rows.{amount_cell, amount_of, entry_row, from_cell, from_text, gap_row, gap_rows, sum_cell, table_front, table_text};

use crate::sum_sections::sums::PageSum;
use crate::sum_sections::targets::{target_of, write_target_close, write_target_open};
use explain_ledgers::ledgers::ledger_text::{
    write_amount, write_cycle, write_gap, write_source, write_sum,
};
use explain_ledgers::ledgers::{Change, Entry, LeftOut};
use explain_wheel_ledgers::{TitledAccount, title_told};
use show_drawings::markup::push_escaped;
use show_links::Shown;
use std::alloc::{AllocError, Global};
use std::io;

// Puts behind a text from where an amount comes.
fn add_from(text: &mut Vec<u8>, total: &Option<TitledAccount>, entry: &Entry) -> io::Result<()>
    ensures { OnOk result (text.new.items ≡ text.old.items ++ from_text (words_told total.now) entry.now) }
{
    match total {
        Some(total) => write_source(text, total.title.name.as_bytes(), entry.cycle, entry.card),
        None => write_cycle(text, entry.cycle, entry.card),
    }
}

// Puts behind a text what was added or subtracted, as an amount of a chart.
fn add_amount(text: &mut Vec<u8>, total: &Option<TitledAccount>, entry: &Entry) -> io::Result<()>
    ensures { OnOk result (text.new.items ≡ text.old.items ++ amount_of (words_told total.now) entry.now.change entry.now.entered) }
{
    match (total, entry.change) {
        (Some(total), Change::Plus) => write_amount(
            text,
            u32::from(total.title.decimals),
            u128::from(entry.entered),
        ),
        (Some(total), Change::Minus) => {
            text.push(b'-')?;
            write_amount(
                text,
                u32::from(total.title.decimals),
                u128::from(entry.entered),
            )
        }
        _ => Ok(()),
    }
}

// From where an amount comes.
fn from_text(
    alloc: Global,
    total: &Option<TitledAccount>,
    entry: &Entry,
) -> Result<Vec<u8>, AllocError>
    ensures { IfOk result (λ words. words.items ≡ from_text (words_told total.now) entry.now) }
{
    let mut words = Vec::new(alloc);
    match add_from(&mut words, total, entry) {
        Ok(()) => Ok(words),
        Err(_) => Err(AllocError),
    }
}

// What was added or subtracted.
fn amount_of(
    alloc: Global,
    total: &Option<TitledAccount>,
    entry: &Entry,
) -> Result<Vec<u8>, AllocError>
    ensures { IfOk result (λ words. words.items ≡ amount_of (words_told total.now) entry.now.change entry.now.entered) }
{
    let mut words = Vec::new(alloc);
    match add_amount(&mut words, total, entry) {
        Ok(()) => Ok(words),
        Err(_) => Err(AllocError),
    }
}

// What the counter held, what came to it, and what it held then.
fn sum_of(alloc: Global, positions: u32, entry: &Entry) -> Result<Vec<u8>, AllocError>
    ensures { IfOk result (λ words. words.items ≡ sum_text positions entry.now) }
{
    let mut words = Vec::new(alloc);
    match write_sum(&mut words, positions, entry) {
        Ok(()) => Ok(words),
        Err(_) => Err(AllocError),
    }
}

// The line in place of the entries that are left out.
fn gap_of(
    alloc: Global,
    total: &Option<TitledAccount>,
    left_out: LeftOut,
) -> Result<Vec<u8>, AllocError>
    ensures { IfOk result (λ words. words.items ≡ gap_line (words_told total.now) left_out) }
{
    let mut words = Vec::new(alloc);
    let title = title_told(total);
    match write_gap(&mut words, &title, left_out) {
        Ok(()) => Ok(words),
        Err(_) => Err(AllocError),
    }
}

#[tactic(auto, unfolding(crate::specs::SumSections::Rows::from_cell))]
// The cell that tells from where an amount comes, with its link.
fn write_from(
    alloc: Global,
    text: &mut String,
    shown: Shown,
    sums: &[PageSum],
    total: &Option<TitledAccount>,
    entry: &Entry,
) -> Result<(), AllocError>
    ensures { OnOk result (string_bytes text.new ≡ string_bytes text.old ++ from_cell shown sums.now total.now entry.now) }
{
    let target = target_of(shown, sums, total, entry);
    let words = from_text(alloc, total, entry)?;
    text.push_str("<tr><td>")?;
    write_target_open(text, target)?;
    push_escaped(text, &words)?;
    write_target_close(text, target)
}

#[tactic(auto, unfolding(crate::specs::SumSections::Rows::amount_cell))]
// The cell of the amount.
fn write_amount_cell(
    alloc: Global,
    text: &mut String,
    total: &Option<TitledAccount>,
    entry: &Entry,
) -> Result<(), AllocError>
    ensures { OnOk result (string_bytes text.new ≡ string_bytes text.old ++ amount_cell total.now entry.now) }
{
    let words = amount_of(alloc, total, entry)?;
    text.push_str("</td><td>")?;
    push_escaped(text, &words)
}

#[tactic(auto, unfolding(crate::specs::SumSections::Rows::sum_cell))]
// The cell of the counter.
fn write_sum_cell(
    alloc: Global,
    text: &mut String,
    positions: u32,
    entry: &Entry,
) -> Result<(), AllocError>
    ensures { OnOk result (string_bytes text.new ≡ string_bytes text.old ++ sum_cell positions entry.now) }
{
    let words = sum_of(alloc, positions, entry)?;
    text.push_str("</td><td><code>")?;
    push_escaped(text, &words)?;
    text.push_str("</code></td></tr>\n")
}

#[tactic(auto, unfolding(crate::specs::SumSections::Rows::entry_row))]
// The row of an entry.
fn write_row(
    alloc: Global,
    text: &mut String,
    shown: Shown,
    sums: &[PageSum],
    sum: &PageSum,
    entry: &Entry,
) -> Result<(), AllocError>
    ensures { OnOk result (string_bytes text.new ≡ string_bytes text.old ++ entry_row shown sums.now sum.now entry.now) }
{
    write_from(alloc, text, shown, sums, &sum.total, entry)?;
    write_amount_cell(alloc, text, &sum.total, entry)?;
    write_sum_cell(alloc, text, sum.positions, entry)
}

#[tactic(auto, using(show_drawings::proofs::MarkupWords::Pieces::one_more))]
// The rows of some entries.
fn write_rows(
    alloc: Global,
    text: &mut String,
    shown: Shown,
    sums: &[PageSum],
    sum: &PageSum,
    entries: &[Entry],
) -> Result<(), AllocError>
    ensures { OnOk result (string_bytes text.new ≡ string_bytes text.old ++ flat_map (entry_row shown sums.now sum.now) entries.now) }
{
    for entry in entries {
        write_row(alloc, text, shown, sums, sum, entry)?;
    }
    Ok(())
}

#[tactic(auto, unfolding(crate::specs::SumSections::Rows::gap_row))]
// The row in place of the entries that are left out.
fn write_gap_row(
    alloc: Global,
    text: &mut String,
    total: &Option<TitledAccount>,
    left_out: LeftOut,
) -> Result<(), AllocError>
    ensures { OnOk result (string_bytes text.new ≡ string_bytes text.old ++ gap_row total.now left_out) }
{
    let words = gap_of(alloc, total, left_out)?;
    text.push_str("<tr><td colspan=\"3\">")?;
    push_escaped(text, &words)?;
    text.push_str("</td></tr>\n")
}

// That row, if some are left out.
fn write_gap_rows(
    alloc: Global,
    text: &mut String,
    total: &Option<TitledAccount>,
    left_out: LeftOut,
) -> Result<(), AllocError>
    ensures { OnOk result (string_bytes text.new ≡ string_bytes text.old ++ gap_rows total.now left_out) }
{
    if left_out.count == 0 {
        Ok(())
    } else {
        write_gap_row(alloc, text, total, left_out)
    }
}

#[tactic(auto, unfolding(crate::specs::SumSections::Rows::table_front))]
// The front of a table, with its first rows.
fn write_table_front(
    alloc: Global,
    text: &mut String,
    shown: Shown,
    sums: &[PageSum],
    sum: &PageSum,
) -> Result<(), AllocError>
    ensures { OnOk result (string_bytes text.new ≡ string_bytes text.old ++ table_front shown sums.now sum.now) }
{
    text.push_str("<table class=\"sum\">\n")?;
    write_rows(alloc, text, shown, sums, sum, sum.ledger.first())
}

#[tactic(auto, unfolding(crate::specs::SumSections::Rows::table_text))]
// The rows of a sum, as a table.
pub(crate) fn write_table(
    alloc: Global,
    text: &mut String,
    shown: Shown,
    sums: &[PageSum],
    sum: &PageSum,
) -> Result<(), AllocError>
    ensures { OnOk result (string_bytes text.new ≡ string_bytes text.old ++ table_text shown sums.now sum.now) }
{
    write_table_front(alloc, text, shown, sums, sum)?;
    write_gap_rows(alloc, text, &sum.total, sum.ledger.left_out())?;
    write_rows(alloc, text, shown, sums, sum, sum.ledger.last())?;
    text.push_str("</table>\n")
}
