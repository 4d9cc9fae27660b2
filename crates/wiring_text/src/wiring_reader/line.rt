//! Reading a line of a wiring chart.

ghost use Rattle.std.specs.Prelude.{◌≡◌, IfOk};
ghost use Rattle.chart_lines.specs.TokensWords.Dividing.{tokens_of};
ghost use Rattle.chart_lines.specs.TokensWords.HelperLines.{tokens_content};
ghost use Rattle.chart_lines.specs.TokensWords.Texts.{texts};
ghost use Rattle.wiring_text.specs.WiringReader.Reading.{carry_of, couple_of, form_of, jack_of, numbered_jack, ring_of, statement_of, stop_of, wire_of};
ghost use Rattle.wiring_text.specs.WiringReader.TextReading.{content_of, divided_form};
ghost use Rattle.wiring_text.specs.HubNames.{carry_entry, carry_exit, is_carry};
ghost use Rattle.wiring_text.specs.Statements.{may_be_wired};
ghost use Rattle.wiring_text.specs.declared.statement.Statement.TheVariants.{Wire};

use crate::wiring_reader::name::{read_group, read_hub_name};
use crate::{FormNumbers, HubName, Statement, Version};
use chart_lines::tokens::{Content, is, read_number, read_number_to, split_line};
use hubs::Jack;
use hubs::hub_table::{Letters, Numbers};
use std::alloc::{AllocError, Global};

/// The numbers of a line `FORM` with three numbers, or `None` for any other line.
pub(crate) fn read_form(alloc: Global, line: &[u8]) -> Result<Option<FormNumbers>, AllocError>
    ensures { IfOk result (λ form. form ≡ divided_form (tokens_of line.now)) }
{
    match split_line(alloc, line)? {
        Some(tokens) => Ok(read_form_tokens(tokens.as_slice())),
        None => Ok(None),
    }
}

/// The numbers of a form, whose line has these tokens.
#[tactic(auto, unfolding(crate::specs::WiringReader::Reading::form_of))]
fn read_form_tokens(tokens: &[&[u8]]) -> Option<FormNumbers>
    ensures { result ≡ form_of (texts tokens.now) }
{
    match tokens {
        [word, lines, first, overflow] if is(word, b"FORM") => Some(FormNumbers {
            lines: read_number(lines)?,
            first: read_number(first)?,
            overflow: read_number(overflow)?,
        }),
        _ => None,
    }
}

/// What a line after the form is.
#[tactic(auto, unfolding(crate::specs::WiringReader::TextReading::content_of))]
pub(crate) fn read_line(
    alloc: Global,
    version: Version,
    line: &[u8],
) -> Result<Content<Statement>, AllocError>
    ensures { IfOk result (λ content. content ≡ content_of version line.now) }
{
    match split_line(alloc, line)? {
        Some(tokens) => Ok(read_tokens(version, tokens.as_slice())),
        None => Ok(Content::NoLine),
    }
}

/// What a line of these tokens is.
fn read_tokens(version: Version, tokens: &[&[u8]]) -> Content<Statement>
    ensures { result ≡ tokens_content (statement_of version) (texts tokens.now) }
{
    match tokens {
        [] => return Content::Empty,
        [word] if is(word, b"END") => return Content::End,
        _ => {}
    }
    match read_statement(version, tokens) {
        Some(statement) => Content::Says(statement),
        None => Content::NoLine,
    }
}

/// What tokens say.
#[tactic(auto, unfolding(crate::specs::WiringReader::Reading::statement_of))]
fn read_statement(version: Version, tokens: &[&[u8]]) -> Option<Statement>
    ensures { result ≡ statement_of version (texts tokens.now) }
{
    match tokens {
        [word, operands @ ..] if is(word, b"STOP") => read_stop(operands),
        [word, operands @ ..] if is(word, b"JACK") => Some(Statement::Plug(read_jack(operands)?)),
        [word, operands @ ..] if is(word, b"WIRE") => read_wire(version, operands),
        [word, operands @ ..] => read_carry(version, word, operands),
        _ => None,
    }
}

/// The stop of a channel 2 to 11 at a line.
#[tactic(auto, unfolding(crate::specs::WiringReader::Reading::stop_of))]
fn read_stop(operands: &[&[u8]]) -> Option<Statement>
    ensures { result ≡ stop_of (texts operands.now) }
{
    let [channel, line] = operands else {
        return None;
    };
    let channel = read_number_to(11, channel)?;
    let line = read_number(line)?;
    if channel >= 2 {
        Some(Statement::Stop(channel, line))
    } else {
        None
    }
}

/// A jack that the panel has.
#[tactic(auto, unfolding(crate::specs::WiringReader::Reading::jack_of))]
fn read_jack(operands: &[&[u8]]) -> Option<Jack>
    ensures { result ≡ jack_of (texts operands.now) }
{
    match operands {
        [word] if is(word, b"LIST") => Some(Jack::List),
        [word, number] => read_numbered_jack(word, number),
        _ => None,
    }
}

/// A jack with a number, in range.
#[tactic(auto, unfolding(crate::specs::WiringReader::Reading::numbered_jack))]
fn read_numbered_jack(word: &[u8], number: &[u8]) -> Option<Jack>
    ensures { result ≡ numbered_jack word.now number.now }
{
    if is(word, b"TOTAL") {
        Some(Jack::Total(read_number_to(4, number)?))
    } else if is(word, b"HEAD") {
        Some(Jack::Head(read_number_to(3, number)?))
    } else if is(word, b"LINK") {
        Some(Jack::Link(read_number_to(120, number)?))
    } else if is(word, b"SUPPRESS") {
        Some(Jack::Suppress(read_number_to(120, number)?))
    } else if is(word, b"SYMBOL") {
        Some(Jack::Symbol(read_number_to(120, number)?))
    } else {
        None
    }
}

/// A wire from the first hub to the second, where the version writes it so.
#[tactic(auto, unfolding(crate::specs::WiringReader::Reading::wire_of))]
fn read_wire(version: Version, operands: &[&[u8]]) -> Option<Statement>
    ensures { result ≡ wire_of version (texts operands.now) }
{
    let [exit, entry] = operands else {
        return None;
    };
    let exit = read_hub_name(exit)?;
    let entry = read_hub_name(entry)?;
    if may_be_wired(version, exit, entry) {
        Some(Statement::Wire(exit, entry))
    } else {
        None
    }
}

/// Whether a line WIRE may name these hubs.
fn may_be_wired(version: Version, exit: HubName, entry: HubName) -> bool
    ensures { result ≡ may_be_wired version exit entry }
{
    match version {
        Version::First => true,
        Version::Second => !(is_carry(exit.letters) || is_carry(entry.letters)),
    }
}

/// Whether letters are those of carry exits or of carry entries.
fn is_carry(letters: Letters) -> bool
    ensures { result ≡ is_carry letters }
{
    match letters {
        Letters::CO | Letters::CI => true,
        _ => false,
    }
}

/// A carry wire, which version 2 alone writes in words of its own.
#[tactic(auto, unfolding(crate::specs::WiringReader::Reading::carry_of))]
fn read_carry(version: Version, word: &[u8], operands: &[&[u8]]) -> Option<Statement>
    ensures { result ≡ carry_of version word.now (texts operands.now) }
{
    match version {
        Version::First => None,
        Version::Second if is(word, b"RING") => read_ring(operands),
        Version::Second if is(word, b"COUPLE") => read_couple(operands),
        Version::Second => None,
    }
}

/// The ring of a counter group.
#[tactic(auto, unfolding(crate::specs::WiringReader::Reading::ring_of))]
fn read_ring(operands: &[&[u8]]) -> Option<Statement>
    ensures { result ≡ ring_of (texts operands.now) }
{
    let [group] = operands else {
        return None;
    };
    match read_group(group)? {
        Numbers::Two(width, number) => Some(carry_wire((width, number), (width, number))),
        _ => None,
    }
}

/// The wire that couples a counter group of 8 positions with another one.
#[tactic(auto, unfolding(crate::specs::WiringReader::Reading::couple_of))]
fn read_couple(operands: &[&[u8]]) -> Option<Statement>
    ensures { result ≡ couple_of (texts operands.now) }
{
    let [from, to] = operands else {
        return None;
    };
    let from = read_number(from)?;
    let to = read_number(to)?;
    if from == to {
        None
    } else {
        Some(carry_wire((8, from), (8, to)))
    }
}

/// The wire from the carry exit of a counter group to the carry entry of one, each by its width and its number.
fn carry_wire(from: (u16, u16), to: (u16, u16)) -> Statement
    ensures { result ≡ Wire (carry_exit from.0 from.1) (carry_entry to.0 to.1) }
{
    let exit = HubName {
        letters: Letters::CO,
        numbers: Numbers::Two(from.0, from.1),
    };
    let entry = HubName {
        letters: Letters::CI,
        numbers: Numbers::Two(to.0, to.1),
    };
    Statement::Wire(exit, entry)
}
