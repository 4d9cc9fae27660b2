//! Which lines of a chart are done, begun and not begun, as text.

ghost use Rattle.std.specs.Prelude.{◌≡◌, ◌++◌, IfOk, OnOk};
ghost use Rattle.std.specs.String.{string_bytes};
ghost use Rattle.std.specs.List.{flat_map};
ghost use Rattle.match_panels.specs.DifferencesWords.PanelProgress.Standings.{behind_comma, count_line, counts_text, lines_words, number_if, numbers_line, numbers_that, standings_text};

use crate::differences::panel_progress::counting::{LineCount, Standing};
use chart_numerals::{push_between, push_numbered};
use std::alloc::{AllocError, Global};

// The number of a line, if it stands so.
fn number_if(standing: Standing, count: &LineCount) -> Option<u16>
    ensures { result ≡ number_if standing count.now }
{
    if count.standing() == standing {
        Some(count.number)
    } else {
        None
    }
}

// The numbers of the lines that stand so.
fn numbers_that(
    alloc: Global,
    standing: Standing,
    counts: &[LineCount],
) -> Result<Vec<u16>, AllocError>
    ensures { IfOk result (λ numbers. numbers.items ≡ numbers_that standing counts.now) }
{
    counts
        .iter()
        .filter_map(|count| number_if(standing, count))
        .collect(alloc)
}

// Writes numbers behind others.
fn write_others(text: &mut String, numbers: &[u16]) -> Result<(), AllocError>
    ensures { OnOk result (string_bytes text.new ≡ string_bytes text.old ++ flat_map behind_comma numbers.now) }
{
    for number in numbers {
        push_numbered(text, ", ", *number)?;
    }
    Ok(())
}

// Writes the lines of some numbers in words.
fn write_lines(text: &mut String, numbers: &[u16]) -> Result<(), AllocError>
    ensures { OnOk result (string_bytes text.new ≡ string_bytes text.old ++ lines_words numbers.now) }
{
    match numbers {
        [] => Ok(()),
        [only] => push_numbered(text, "line ", *only),
        [first, others @ ..] => {
            push_numbered(text, "lines ", *first)?;
            write_others(text, others)
        }
    }
}

// Writes the line that tells some numbers, if there are any.
fn write_numbers(text: &mut String, heading: &str, numbers: &[u16]) -> Result<(), AllocError>
    ensures { OnOk result (string_bytes text.new ≡ string_bytes text.old ++ numbers_line heading.now numbers.now) }
{
    if numbers.is_empty() {
        return Ok(());
    }
    text.push_str(heading)?;
    write_lines(text, numbers)?;
    text.push_str("\n")
}

// Writes the line that tells which lines stand so, if there are any.
fn write_standing(
    alloc: Global,
    text: &mut String,
    heading: &str,
    standing: Standing,
    counts: &[LineCount],
) -> Result<(), AllocError>
    ensures { OnOk result (string_bytes text.new ≡ string_bytes text.old ++ numbers_line heading.now (numbers_that standing counts.now)) }
{
    let numbers = numbers_that(alloc, standing, counts)?;
    write_numbers(text, heading, numbers.as_slice())
}

/// Writes which lines of a chart are done, begun and not begun, by their counts: `done: lines 4, 5`, `begun: line 8` and `not begun: line 9`,
/// each where there is such a line.
///
/// # Errors
///
/// Want of memory alone. The text may then have gained a part of this.
pub fn write_standings(
    alloc: Global,
    text: &mut String,
    counts: &[LineCount],
) -> Result<(), AllocError>
    ensures { OnOk result (string_bytes text.new ≡ string_bytes text.old ++ standings_text counts.now) }
{
    write_standing(alloc, text, "done: ", Standing::Done, counts)?;
    write_standing(alloc, text, "begun: ", Standing::Begun, counts)?;
    write_standing(alloc, text, "not begun: ", Standing::NotBegun, counts)
}

// Writes how much a line lacks, if it lacks anything.
fn write_count(text: &mut String, count: &LineCount) -> Result<(), AllocError>
    ensures { OnOk result (string_bytes text.new ≡ string_bytes text.old ++ count_line count.now) }
{
    if count.missing == 0 {
        return Ok(());
    }
    push_numbered(text, "line ", count.number)?;
    push_numbered(text, ": missing ", count.missing)?;
    push_between(text, " of ", count.asked, "\n")
}

/// Writes how much each line of a chart lacks, if it lacks anything: `line 8: missing 2 of 27`.
///
/// # Errors
///
/// Want of memory alone. The text may then have gained a part of this.
pub fn write_counts(text: &mut String, counts: &[LineCount]) -> Result<(), AllocError>
    ensures { OnOk result (string_bytes text.new ≡ string_bytes text.old ++ counts_text counts.now) }
{
    for count in counts {
        write_count(text, count)?;
    }
    Ok(())
}
