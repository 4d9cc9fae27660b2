//! What is wrong with the numbers of a form.

ghost use Rattle.std.specs.Prelude.{◌≡◌, OnOk};
ghost use Rattle.std.specs.Io.KnownBytes.{Appends};
ghost use Rattle.fault_chart_words.specs.FaultWords.FormWords as law;

use crate::wording;
use chart_line_rules::print_rules::breaks_form;
use chart_lines::charts::{Line, Statement};
use chart_numerals::{write_between, write_numbered};
use fault_slips::counts::write_count;
use std::io;
use std::io::Write;

/// Writes the lines of a form.
#[tactic(auto, unfolding(crate::specs::FaultWords::FormWords::form_lines))]
fn write_form_lines<W: Write>(out: &mut W, lines: u16) -> io::Result<()>
    ensures { OnOk result (Appends (W.contents out.old) (W.contents out.new) (law.form_lines lines)) }
{
    write_count(
        out,
        wording::THE_FORM_HAS,
        u32::from(lines),
        wording::ONE_LINE,
    )
}

/// Writes its first line.
#[tactic(auto, unfolding(crate::specs::FaultWords::FormWords::form_first))]
fn write_form_first<W: Write>(out: &mut W, first: u16) -> io::Result<()>
    ensures { OnOk result (Appends (W.contents out.old) (W.contents out.new) (law.form_first first)) }
{
    write_numbered(out, wording::ITS_FIRST_LINE_IS, first)
}

/// Writes its overflow line.
#[tactic(auto, unfolding(crate::specs::FaultWords::FormWords::form_overflow))]
fn write_form_overflow<W: Write>(out: &mut W, overflow: u16) -> io::Result<()>
    ensures { OnOk result (Appends (W.contents out.old) (W.contents out.new) (law.form_overflow overflow)) }
{
    write_numbered(out, wording::ITS_OVERFLOW_LINE, overflow)
}

/// Writes the three numbers of a form.
#[tactic(auto, unfolding(crate::specs::FaultWords::FormWords::form_text))]
fn write_form_text<W: Write>(out: &mut W, lines: u16, first: u16, overflow: u16) -> io::Result<()>
    ensures { OnOk result (Appends (W.contents out.old) (W.contents out.new) (law.form_text lines first overflow)) }
{
    write_form_lines(out, lines)?;
    write_form_first(out, first)?;
    write_form_overflow(out, overflow)
}

/// The one of three numbers that is neither their least nor their greatest.
fn middle(one: u16, other: u16, last: u16) -> u16
    ensures { result ≡ law.middle one other last }
{
    let lower = u16::min(one, other);
    let higher = u16::max(one, other);
    u16::max(lower, u16::min(higher, last))
}

/// The form of three numbers in the only order that may be good.
fn ordered_form(lines: u16, first: u16, overflow: u16) -> Statement
    ensures { result ≡ law.ordered_form lines first overflow }
{
    Statement::Form {
        lines: u16::max(u16::max(lines, first), overflow),
        first: u16::min(u16::min(lines, first), overflow),
        overflow: middle(lines, first, overflow),
    }
}

/// Writes the lines of a form that is asked for.
#[tactic(auto, unfolding(crate::specs::FaultWords::FormWords::asked_lines))]
fn write_asked_lines<W: Write>(out: &mut W, lines: u16) -> io::Result<()>
    ensures { OnOk result (Appends (W.contents out.old) (W.contents out.new) (law.asked_lines lines)) }
{
    write_numbered(out, wording::DID_YOU_MEAN_FORM, lines)
}

/// Writes its first line.
#[tactic(auto, unfolding(crate::specs::FaultWords::FormWords::asked_first))]
fn write_asked_first<W: Write>(out: &mut W, first: u16) -> io::Result<()>
    ensures { OnOk result (Appends (W.contents out.old) (W.contents out.new) (law.asked_first first)) }
{
    write_numbered(out, " ", first)
}

/// Writes its overflow line.
#[tactic(auto, unfolding(crate::specs::FaultWords::FormWords::asked_overflow))]
fn write_asked_overflow<W: Write>(out: &mut W, overflow: u16) -> io::Result<()>
    ensures { OnOk result (Appends (W.contents out.old) (W.contents out.new) (law.asked_overflow overflow)) }
{
    write_between(out, " ", overflow, "?")
}

/// Asks whether a form of three numbers is meant.
#[tactic(auto, unfolding(crate::specs::FaultWords::FormWords::asked_text))]
fn write_asked_text<W: Write>(out: &mut W, lines: u16, first: u16, overflow: u16) -> io::Result<()>
    ensures { OnOk result (Appends (W.contents out.old) (W.contents out.new) (law.asked_text lines first overflow)) }
{
    write_asked_lines(out, lines)?;
    write_asked_first(out, first)?;
    write_asked_overflow(out, overflow)
}

/// Asks whether a form is meant.
#[tactic(auto, unfolding(crate::specs::FaultWords::FormWords::asked_form))]
fn write_asked<W: Write>(out: &mut W, form: &Statement) -> io::Result<()>
    ensures { OnOk result (Appends (W.contents out.old) (W.contents out.new) (law.asked_form form.now)) }
{
    match form {
        Statement::Form {
            lines,
            first,
            overflow,
        } => write_asked_text(out, *lines, *first, *overflow),
        _ => Ok(()),
    }
}

/// Asks whether a form is meant, if it is good on a chart.
#[tactic(auto, unfolding(crate::specs::FaultWords::FormWords::meant_form))]
fn write_meant<W: Write>(out: &mut W, chart: &[Line], form: &Statement) -> io::Result<()>
    ensures { OnOk result (Appends (W.contents out.old) (W.contents out.new) (law.meant_form chart.now form.now)) }
{
    if breaks_form(chart, form) {
        Ok(())
    } else {
        write_asked(out, form)
    }
}

/// Writes which number of a form is which, and the order that may be meant.
#[tactic(auto, unfolding(crate::specs::FaultWords::FormWords::form_words))]
pub(crate) fn write_form<W: Write>(
    out: &mut W,
    chart: &[Line],
    statement: &Statement,
) -> io::Result<()>
    ensures { OnOk result (Appends (W.contents out.old) (W.contents out.new) (law.form_words chart.now statement.now)) }
{
    match statement {
        Statement::Form {
            lines,
            first,
            overflow,
        } => {
            write_form_text(out, *lines, *first, *overflow)?;
            write_meant(out, chart, &ordered_form(*lines, *first, *overflow))
        }
        _ => Ok(()),
    }
}
