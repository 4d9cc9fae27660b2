//! Which lines of a wiring chart are extra, by their numbers alone.

ghost use Rattle.std.specs.Prelude.{◌≡◌, ◌++◌, IfOk, OnOk};
ghost use Rattle.std.specs.List.{flat_map};
ghost use Rattle.std.specs.String.{string_bytes};
ghost use Rattle.card_code.specs.Lines.{lines_of};
ghost use Rattle.match_panels.specs.DifferencesWords.PanelProgress.Standings.{behind_comma, lines_words, numbers_line};
ghost use Rattle.cli_matching.specs.MatchTexts.ExtraNumbers.{AreExtraNumbers, NumbersExtra, number_if};

use crate::match_texts::missing::write_form_beside;
use card_code::next_line;
use chart_numerals::push_numbered;
use hubs::setups::Setup;
use match_panels::differences::panel_progress::extra_lines;
use std::alloc::{AllocError, Global};
use wire_chart::Version;

#[tactic(auto, using(crate::proofs::MatchTexts::Numbering::number_none, crate::proofs::MatchTexts::Numbering::number_added))]
// Adds the number of a line, if anything is told of it.
fn add_if_told(numbers: &mut Vec<u64>, number: u64, told: &String) -> Result<(), AllocError>
    ensures { OnOk result (numbers.new.items ≡ numbers.old.items ++ number_if number (string_bytes told.now)) }
{
    if told.is_empty() {
        return Ok(());
    }
    numbers.push(number)?;
    Ok(())
}

#[tactic(auto, using(crate::proofs::MatchTexts::Numbering::begins))]
// The numbers of the lines of a wiring chart that say something extra.
fn numbered_lines(
    alloc: Global,
    version: Version,
    extra: &Setup,
    wiring: &[u8],
) -> Result<Vec<u64>, AllocError>
    ensures { IfOk result (λ numbers. AreExtraNumbers version extra.now 1 (lines_of wiring.now) numbers.items) }
{
    let mut numbers = Vec::new(alloc);
    let mut number = 0;
    let mut rest = wiring;
    while let Some((line, after)) = next_line(rest) {
        number += 1;
        let told = extra_lines(alloc, version, extra, line)?;
        add_if_told(&mut numbers, number, &told)?;
        rest = after;
    }
    Ok(numbers)
}

#[tactic(auto, using(crate::proofs::MatchTexts::Numbering::extra_numbered))]
/// The numbers of the lines of a wiring chart that are extra; `missing` and `extra` are the two differences. Its only refusal is memory.
pub(crate) fn extra_numbers(
    alloc: Global,
    version: Version,
    missing: &Setup,
    extra: &Setup,
    wiring: &[u8],
) -> Result<Vec<u64>, AllocError>
    ensures { IfOk result (λ numbers. NumbersExtra version missing.now.tape extra.now wiring.now numbers.items) }
{
    let mut form = String::new(alloc);
    write_form_beside(&mut form, extra.tape(), missing.tape())?;
    let mut numbers = Vec::new(alloc);
    add_if_told(&mut numbers, 2, &form)?;
    let lines = numbered_lines(alloc, version, extra, wiring)?;
    numbers.extend_from_slice(lines.as_slice())?;
    Ok(numbers)
}

// Writes numbers behind others.
fn write_others(text: &mut String, numbers: &[u64]) -> Result<(), AllocError>
    ensures { OnOk result (string_bytes text.new ≡ string_bytes text.old ++ flat_map behind_comma numbers.now) }
{
    for number in numbers {
        push_numbered(text, ", ", *number)?;
    }
    Ok(())
}

// Writes the lines of some numbers in words.
fn write_lines(text: &mut String, numbers: &[u64]) -> Result<(), AllocError>
    ensures { OnOk result (string_bytes text.new ≡ string_bytes text.old ++ lines_words numbers.now) }
{
    match numbers {
        [] => Ok(()),
        [only] => push_numbered(text, "line ", *only),
        [first, others @ ..] => {
            push_numbered(text, "lines ", *first)?;
            write_others(text, others)
        }
    }
}

/// Writes under a heading, on its line, which lines of a wiring chart these are; nothing, where there is none. Its only refusal is memory.
pub(crate) fn write_numbers(
    text: &mut String,
    heading: &str,
    numbers: &[u64],
) -> Result<(), AllocError>
    ensures { OnOk result (string_bytes text.new ≡ string_bytes text.old ++ numbers_line heading.now numbers.now) }
{
    if numbers.is_empty() {
        return Ok(());
    }
    text.push_str(heading)?;
    write_lines(text, numbers)?;
    text.push_str("\n")
}
