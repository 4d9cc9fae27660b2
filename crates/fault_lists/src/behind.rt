//! What is listed behind lines of no form: END where it is missing, and the rules that the other lines break.

ghost use Rattle.std.specs.Prelude.{◌≡◌, ◌≢◌, ◌++◌, filter, true, false, IfErr, IfOk, OnOk};
ghost use Rattle.std.specs.Io.KnownBytes.{Appends};
ghost use Rattle.chart_text.specs.TextFaults.{HasTextFault};
ghost use Rattle.fault_lists.specs.Behind as law;
ghost use Rattle.fault_lists.specs.Behind.{ListsOwn, WritesOthers, WritesRest, WritesUnended};
ghost use Rattle.fault_lists.specs.Endings.{IsBrokenOff};

use crate::entries::write_no_end;
use crate::rules::write_rules;
use chart_lines::charts::{After, Line, RawChart, Statement};
use chart_rules::Rule;
use chart_text::{TextFault, read_chart};
use fault_chart_words::{BrokenRule, broken_rules};
use fault_lines::faults::{Fault, unprinted};
use fault_slips::line_marks::{emptied, line_numbered, word};
use std::alloc::{AllocError, Global};
use std::io::Write;

/// Whether a line asks for a TAPE line: it skips to a channel that can have stops. A TAPE line of any other channel would itself be wrong.
fn asks_for_tape(statement: &Statement) -> bool
    ensures { result ≡ law.asks_for_tape statement.now }
{
    match statement {
        Statement::After {
            action: After::Skip(channel),
            ..
        } => 2 <= *channel && *channel <= 11,
        _ => false,
    }
}

/// Whether the line with a number does.
fn asks_for_tape_at(lines: &[Line], number: u16) -> bool
    ensures { result ≡ law.asks_for_tape_at lines.now number }
{
    lines.iter().any(|line| line.number == number && asks_for_tape(&line.statement))
}

/// Whether the line with a number, which breaks a rule, asks by it for another line, which may be one that has no form.
fn asks_for_another(lines: &[Line], broken: BrokenRule) -> bool
    ensures { result ≡ law.asks_for_another lines.now broken.line broken.rule }
{
    match broken.rule {
        Rule::UnknownName | Rule::NoControl | Rule::TotalTextNotControl | Rule::PrintKind => true,
        Rule::Tape => asks_for_tape_at(lines, broken.line),
        _ => false,
    }
}

/// Whether a line breaks a rule whatever the lines of no form say.
fn is_own(raw: &RawChart, broken: BrokenRule) -> bool
    ensures { result ≡ law.is_own raw.now broken }
{
    broken.line != raw.end() && !asks_for_another(raw.lines(), broken)
}

/// The rules of a list that lines of a chart break whatever the lines of no form say.
fn own_rules(
    alloc: Global,
    raw: &RawChart,
    list: &[BrokenRule],
) -> Result<Vec<BrokenRule>, AllocError>
    ensures { IfOk result (λ own. own.items ≡ filter (law.is_own raw.now) list.now) }
{
    list.iter()
        .copied()
        .filter(|broken| is_own(raw, *broken))
        .collect(alloc)
}

/// Lists the rules that the lines of a chart break whatever lines of no form say. `text` has them all.
fn list_own<'a, W: Write>(
    alloc: Global,
    out: &mut W,
    text: &[u8],
    raw: &RawChart,
) -> Result<(), Fault<'a>>
    ensures listed { OnOk result (ListsOwn text.now raw.now (W.contents out.old) (W.contents out.new)) }
    ensures broken_off { IfErr result IsBrokenOff }
{
    let list = broken_rules(alloc, raw)?;
    let own = own_rules(alloc, raw, list.as_slice())?;
    write_rules(alloc, out, text, raw, own.as_slice())
}

/// Lists the rules that the other lines break, if what is left of a text without its lines of no form is a chart.
fn list_others<'a, W: Write>(
    alloc: Global,
    out: &mut W,
    text: &[u8],
    left: &[u8],
) -> Result<(), Fault<'a>>
    ensures listed { OnOk result (WritesOthers text.now left.now (W.contents out.old) (W.contents out.new)) }
    ensures broken_off { IfErr result IsBrokenOff }
{
    match read_chart(alloc, left) {
        Ok(raw) => list_own(alloc, out, text, &raw),
        Err(fault) => match fault {
            TextFault::Memory => Err(Fault::Memory),
            _ => Ok(()),
        },
    }
}

/// A text without what stands on some lines.
fn emptied_lines(alloc: Global, text: &[u8], lines: &[u16]) -> Result<Vec<u8>, AllocError>
    ensures { IfOk result (λ left. left.items ≡ law.emptied_lines lines.now text.now) }
{
    let mut left = text.to_vec(alloc)?;
    for line in lines {
        left = emptied(alloc, left.as_slice(), u32::from(*line))?;
    }
    Ok(left)
}

/// A text with END below it.
fn with_end(alloc: Global, text: &[u8]) -> Result<Vec<u8>, AllocError>
    ensures { IfOk result (λ ended. ended.items ≡ law.with_end text.now) }
{
    let mut ended = text.to_vec(alloc)?;
    ended.extend_from_slice(b"\nEND\n")?;
    Ok(ended)
}

/// Whether a fault is that a text has no END.
fn is_no_end(fault: TextFault) -> Result<bool, AllocError>
    ensures is { IfOk result (λ is. is ≡ true → fault ≡ TextFault.NoEnd) }
    ensures not { IfOk result (λ is. is ≡ false → (fault ≢ TextFault.NoEnd) × (fault ≢ TextFault.Memory)) }
{
    match fault {
        TextFault::NoEnd => Ok(true),
        TextFault::Memory => Err(AllocError),
        TextFault::TooLarge => Ok(false),
        TextFault::NoFirstLine => Ok(false),
        TextFault::NotALine { .. } => Ok(false),
    }
}

/// Whether nothing is wrong with a text but that it has no END.
fn lacks_end(alloc: Global, text: &[u8]) -> Result<bool, AllocError>
    ensures is { IfOk result (λ lacks. lacks ≡ true → HasTextFault text.now TextFault.NoEnd) }
    ensures not { IfOk result (λ lacks. lacks ≡ false → ¬ HasTextFault text.now TextFault.NoEnd) }
{
    let Err(fault) = read_chart(alloc, text) else {
        return Ok(false);
    };
    is_no_end(fault)
}

/// Whether the first word of a line begins with the letters of END, small or capital.
fn spells_end(line: &[u8]) -> bool
    ensures { result ≡ law.spells_end line.now }
{
    match word(line, 0) {
        [first, second, third, ..] => {
            (*first == b'E' || *first == b'e')
                && (*second == b'N' || *second == b'n')
                && (*third == b'D' || *third == b'd')
        }
        _ => false,
    }
}

/// Whether one of some lines of a text does.
fn some_spells_end(text: &[u8], lines: &[u16]) -> bool
    ensures { result ≡ law.some_spells_end text.now lines.now }
{
    lines
        .iter()
        .any(|line| spells_end(line_numbered(text, u32::from(*line))))
}

/// Lists that END is missing, unless a line of no form was to be END.
fn list_no_end<W: Write>(out: &mut W, text: &[u8], lines: &[u16]) -> std::io::Result<()>
    ensures { OnOk result (Appends (W.contents out.old) (W.contents out.new) (law.no_end_told text.now lines.now)) }
{
    if some_spells_end(text, lines) {
        return Ok(());
    }
    write_no_end(out)
}

/// Lists the rules that the other lines break, once END is put below what is left of a text.
fn list_ended<'a, W: Write>(
    alloc: Global,
    out: &mut W,
    text: &[u8],
    left: &[u8],
) -> Result<(), Fault<'a>>
    ensures listed { OnOk result (WritesOthers text.now (law.with_end left.now) (W.contents out.old) (W.contents out.new)) }
    ensures broken_off { IfErr result IsBrokenOff }
{
    let ended = with_end(alloc, left)?;
    list_others(alloc, out, text, ended.as_slice())
}

/// Lists that END is missing, and then these rules.
fn list_unended<'a, W: Write>(
    alloc: Global,
    out: &mut W,
    text: &[u8],
    lines: &[u16],
    left: &[u8],
) -> Result<(), Fault<'a>>
    ensures listed { OnOk result (WritesUnended text.now lines.now left.now (W.contents out.old) (W.contents out.new)) }
    ensures broken_off { IfErr result IsBrokenOff }
{
    match list_no_end(out, text, lines) {
        Ok(()) => list_ended(alloc, out, text, left),
        Err(error) => Err(unprinted(&error)),
    }
}

/// Lists what is wrong with a text besides its lines of no form, whose numbers are given: that END is missing, and the rules that the other lines
/// break whatever these lines say.
pub(crate) fn list_behind<'a, W: Write>(
    alloc: Global,
    out: &mut W,
    text: &[u8],
    lines: &[u16],
) -> Result<(), Fault<'a>>
    ensures listed { OnOk result (WritesRest text.now lines.now (W.contents out.old) (W.contents out.new)) }
    ensures broken_off { IfErr result IsBrokenOff }
{
    let left = emptied_lines(alloc, text, lines)?;
    let lacks = lacks_end(alloc, left.as_slice())?;
    if lacks {
        list_unended(alloc, out, text, lines, left.as_slice())
    } else {
        list_others(alloc, out, text, left.as_slice())
    }
}
