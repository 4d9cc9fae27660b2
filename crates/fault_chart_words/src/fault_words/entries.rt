//! The entries of faults.

ghost use Rattle.std.specs.Prelude.{◌≡◌, OnOk, []};
ghost use Rattle.std.specs.Io.KnownBytes.{Appends};
ghost use Rattle.chart_line_rules.specs.FieldRules.Fields.{fields_of};
ghost use Rattle.fault_chart_words.specs.FaultWords.Entries as law;

use crate::BrokenRule;
use crate::fault_words::words::{Around, cure, end_cure, end_words, place_on, write_words};
use chart_line_rules::field_rules::Fields;
use chart_lines::charts::{Field, Line, RawChart};
use chart_rules::Rule;
use fault_slips::line_marks::{line_numbered, token_span, write_below, write_head, write_shown};
use std::io;
use std::io::Write;

/// The name of a rule's fault.
fn rule_name(rule: Rule) -> &'static str
    ensures { result.now ≡ law.rule_name rule }
{
    match rule {
        Rule::NameTwice => "NameTwice",
        Rule::Columns => "Columns",
        Rule::AmountSize => "AmountSize",
        Rule::UnknownName => "UnknownName",
        Rule::WrongKind => "WrongKind",
        Rule::LineTwice => "LineTwice",
        Rule::NoControl => "NoControl",
        Rule::TotalTextNotControl => "TotalTextNotControl",
        Rule::DigitsRange => "DigitsRange",
        Rule::DigitsShrink => "DigitsShrink",
        Rule::MarkMismatch => "MarkMismatch",
        Rule::WheelRange => "WheelRange",
        Rule::WheelOverlap => "WheelOverlap",
        Rule::WheelClash => "WheelClash",
        Rule::PrintKind => "PrintKind",
        Rule::Form => "Form",
        Rule::Tape => "Tape",
        Rule::CoupledMark => "CoupledMark",
    }
}

/// Writes what is told of a line that breaks a rule: its text with a mark, what is wrong, and what helps.
#[tactic(auto, unfolding(crate::specs::FaultWords::Entries::line_told))]
fn write_line<W: Write>(
    out: &mut W,
    rule: Rule,
    text: &[u8],
    around: &Around,
    line: &Line,
) -> io::Result<()>
    requires { around.now.index.now ≡ around.now.fields.now }
    ensures { OnOk result (Appends (W.contents out.old) (W.contents out.new)
        (law.line_told rule text.now around.now.fields.now around.now.lines.now around.now.earlier.now line.now)) }
{
    let span = token_span(
        text,
        place_on(rule, around.fields, around.lines, &line.statement),
    );
    write_shown(out, text, span)?;
    out.write_all(b"  ")?;
    write_words(out, rule, around, &line.statement)?;
    out.write_all(b"\n")?;
    write_below(out, cure(rule, &line.statement).as_bytes())
}

/// Writes what is told of END, where a line is missing.
#[tactic(auto, unfolding(crate::specs::FaultWords::Entries::end_told))]
fn write_end<W: Write>(out: &mut W, rule: Rule, text: &[u8]) -> io::Result<()>
    ensures { OnOk result (Appends (W.contents out.old) (W.contents out.new) (law.end_told rule text.now)) }
{
    write_shown(out, text, token_span(text, 0))?;
    write_below(out, end_words(rule).as_bytes())?;
    write_below(out, end_cure(rule).as_bytes())
}

/// Writes what is told of the line with a number.
fn write_told<W: Write>(
    out: &mut W,
    text: &[u8],
    raw: &RawChart,
    index: &Fields,
    fields: &[Field],
    fault: BrokenRule,
) -> io::Result<()>
    requires index { index.now ≡ fields_of raw.now.lines }
    requires fields { fields.now ≡ fields_of raw.now.lines }
    ensures { OnOk result (Appends (W.contents out.old) (W.contents out.new)
        (law.told_among fault.rule raw.now text.now fault.line [] raw.now.lines)) }
{
    let lines = raw.lines();
    for (place, line) in lines.iter().enumerate() {
        if line.number == fault.line {
            let around = Around {
                index,
                fields,
                lines,
                earlier: &lines[..place],
            };
            return write_line(out, fault.rule, text, &around, line);
        }
    }
    write_end(out, fault.rule, text)
}

/// Writes the entry of a fault.
#[tactic(auto, unfolding(crate::specs::FaultWords::Entries::entry_text))]
fn write_entry<W: Write>(
    out: &mut W,
    source: &[u8],
    raw: &RawChart,
    index: &Fields,
    fields: &[Field],
    fault: BrokenRule,
) -> io::Result<()>
    requires index { index.now ≡ fields_of raw.now.lines }
    requires fields { fields.now ≡ fields_of raw.now.lines }
    ensures { OnOk result (Appends (W.contents out.old) (W.contents out.new) (law.entry_text source.now raw.now fault)) }
{
    let number = u32::from(fault.line);
    let text = line_numbered(source, number);
    write_head(out, number, fault.rule.number(), rule_name(fault.rule))?;
    write_told(out, text, raw, index, fields, fault)
}

/// Writes the entries of faults of a chart, one after another. `source` is the text of the chart, `index` and `fields` are its fields.
///
/// # Errors
///
/// If the writer fails. It may then have taken a part of them.
pub fn write_entries<W: Write>(
    out: &mut W,
    source: &[u8],
    raw: &RawChart,
    index: &Fields,
    fields: &[Field],
    faults: &[BrokenRule],
) -> io::Result<()>
    requires index { index.now ≡ fields_of raw.now.lines }
    requires fields { fields.now ≡ fields_of raw.now.lines }
    ensures { OnOk result (Appends (W.contents out.old) (W.contents out.new) (law.entries_text source.now raw.now faults.now)) }
{
    for fault in faults {
        write_entry(out, source, raw, index, fields, *fault)?;
    }
    Ok(())
}
