//! Reading a chart.

ghost use Rattle.std.specs.Prelude.{◌≡◌, ◌≢◌, ◌+◌, ◌<◌, ◌≤◌, length, IfOk, IfErr, IfSome, OnOk, None, unwrap_or, ◌⊎◌, ◌++◌, [], ◌∷◌};
ghost use Rattle.card_code.specs.Lines.{lines_of};
ghost use Rattle.chart_lines.specs.TokensWords.HelperLines.{tokens_content};
ghost use Rattle.chart_lines.specs.TokensWords.Texts.{texts};
ghost use Rattle.chart_text.specs.HelperForms.{said_of};
ghost use Rattle.chart_lines.specs.ChartsWords.Chart.{Chart, NumbersRise};
ghost use Rattle.chart_text.specs.ChartText.{Reads, line_of, number_if_coupled};
ghost use Rattle.chart_text.specs.TextFaults.{HasTextFault};
ghost use Rattle.chart_text.specs.HelperText.{content_of, version_of, chart_from, chart_of, Answers, TakesLine, RefusesLine};

use crate::fault::TextFault;
use crate::forms::{Said, read_said};
use card_code::next_line;
use chart_lines::charts::{Line, RawChart, Version};
use chart_lines::tokens::{Content, is, is_larger, is_title_line, split_line};
use std::alloc::{AllocError, Global};

/// How many lines a chart has at most.
const MAX_LINES: usize = 500;

/// How many bytes a line of a chart has at most.
const MAX_LINE_BYTES: usize = 200;

/// Reads a chart: the raw chart of its text, as the grammar of charts has it.
///
/// # Errors
///
/// The first of the text rules that is broken, in this order: `TooLarge` for more than 500 lines or a line
/// of more than 200 bytes; `NoFirstLine` where line 1 is neither `CHART407 1` nor `CHART407 2`; `NotALine` for the lowest line
/// that no form of that version derives, text after END included; `NoEnd` where no line is END. `Memory` only where memory
/// was refused; what was read so far is freed then.
pub fn read_chart(alloc: Global, text: &[u8]) -> Result<RawChart, TextFault>
    // What is read is the chart of the text, and a fault is the one of the text.
    ensures read { IfOk result (λ chart. Reads text.now chart) }
    ensures fault { IfErr result (λ fault. fault ≢ TextFault.Memory → HasTextFault text.now fault) }

    // Each chart is read, and each fault told, unless memory is refused.
    ensures only_read { (chart : Chart) → Reads text.now chart
        → (result ≡ Ok chart) ⊎ (result ≡ Err TextFault.Memory) }
    ensures only_fault { (fault : TextFault) → HasTextFault text.now fault
        → (result ≡ Err fault) ⊎ (result ≡ Err TextFault.Memory) }
{
    read_text(alloc, text)
}

/// The chart of a text, or the first of its text rules that is broken.
#[tactic(auto, unfolding(crate::specs::HelperText::chart_of))]
fn read_text(alloc: Global, text: &[u8]) -> Result<RawChart, TextFault>
    ensures { Answers result (chart_of text.now) }
{
    if is_larger(text, MAX_LINES, MAX_LINE_BYTES) {
        return Err(TextFault::TooLarge);
    }
    let Some((first, others)) = next_line(text) else {
        return Err(TextFault::NoFirstLine);
    };
    match read_version(first) {
        Some(version) => read_lines(alloc, version, others),
        None => Err(TextFault::NoFirstLine),
    }
}

/// The version that line 1 names.
fn read_version(line: &[u8]) -> Option<Version>
    ensures { result ≡ version_of line.now }
{
    if is_title_line(line, b"CHART407", b"1") {
        Some(Version::First)
    } else if is_title_line(line, b"CHART407", b"2") {
        Some(Version::Second)
    } else {
        None
    }
}

/// What a line is.
#[tactic(auto, unfolding(crate::specs::HelperText::content_of))]
fn read_line(alloc: Global, version: Version, line: &[u8]) -> Result<Content<Said>, AllocError>
    ensures { IfOk result (λ content. content ≡ content_of version line.now) }
{
    match split_line(alloc, line)? {
        Some(tokens) => read_tokens(alloc, version, tokens.as_slice()),
        None => Ok(Content::NoLine),
    }
}

/// What a line of these tokens is.
fn read_tokens(
    alloc: Global,
    version: Version,
    tokens: &[&[u8]],
) -> Result<Content<Said>, AllocError>
    ensures { IfOk result (λ content. content ≡ tokens_content (said_of version) (texts tokens.now)) }
{
    match tokens {
        [] => return Ok(Content::Empty),
        [word] if is(word, b"END") => return Ok(Content::End),
        _ => {}
    }
    match read_said(alloc, version, tokens)? {
        Some(said) => Ok(Content::Says(said)),
        None => Ok(Content::NoLine),
    }
}

/// The chart of the lines from line 2 on.
fn read_lines(alloc: Global, version: Version, text: &[u8]) -> Result<RawChart, TextFault>
    requires { length (lines_of text.now) < 500 }
    ensures { Answers result (chart_from version None 2 (lines_of text.now)) }
{
    let mut lines = Vec::new(alloc);
    let mut coupled = Vec::new(alloc);
    let mut end = None;
    let mut number = 2;
    let mut rest = text;
    while let Some((line, after)) = next_line(rest) {
        let content = read_line(alloc, version, line)?;
        take_line(content, number, &mut lines, &mut coupled, &mut end)?;
        number += 1;
        rest = after;
    }
    match end {
        Some(end) => Ok(RawChart::new(version, lines, coupled, end)),
        None => Err(TextFault::NoEnd),
    }
}

/// Takes the line of a number: after the lines so far, or as END where there was none.
fn take_line(
    content: Content<Said>,
    number: u16,
    lines: &mut Vec<Line>,
    coupled: &mut Vec<u16>,
    end: &mut Option<u16>,
) -> Result<(), TextFault>
    ensures taken { OnOk result (TakesLine content number lines.old.items coupled.old.items end.old
        lines.new.items coupled.new.items end.new) }
    ensures refused { IfErr result (RefusesLine content number end.old) }
    ensures rising { OnOk result (NumbersRise lines.old.items (unwrap_or end.old number)
        → NumbersRise lines.new.items (unwrap_or end.new (number + 1))) }
    ensures placed { OnOk result (IfSome end.old (λ e. e < number) → IfSome end.new (λ e. e < number + 1)) }
{
    match (content, *end) {
        (Content::Empty, _) => {}
        (Content::End, None) => *end = Some(number),
        (Content::Says(said), None) => take_said(said, number, lines, coupled)?,
        _ => return Err(TextFault::NotALine { line: number }),
    }
    Ok(())
}

/// Takes a line that says something: after the lines so far, and after the numbers so far where it bears the word COUPLED.
fn take_said(
    said: Said,
    number: u16,
    lines: &mut Vec<Line>,
    coupled: &mut Vec<u16>,
) -> Result<(), AllocError>
    ensures lines { OnOk result (lines.new.items ≡ lines.old.items ++ line_of number said ∷ []) }
    ensures coupled { OnOk result (coupled.new.items ≡ coupled.old.items ++ number_if_coupled number said) }
{
    if said.coupled {
        coupled.push(number)?;
    }
    let statement = said.statement;
    lines.push(Line { number, statement })?;
    Ok(())
}
