//! The entries of faults of a wiring chart.

ghost use Rattle.std.specs.Prelude.{◌≡◌, OnOk};
ghost use Rattle.std.specs.Io.KnownBytes.{Appends};
ghost use Rattle.fault_wiring_words.specs.Entries as law;

use crate::lines::write_misplaced;
use crate::unfit::{
    form_place, unfit_name, unfit_place, write_form, write_twice, write_unfit_cure,
    write_unfit_wrong,
};
use crate::wording;
use chart_lines::tokens::is_title_line;
use fault_slips::line_marks::{
    end_line, line_numbered, token_span, write_below, write_head, write_shown,
};
use fault_wiring_slips::{Meeting, first_met};
use hubs::setups::SetupFault;
use std::io;
use std::io::Write;
use wiring_text::WiringFault;

/// Whether a line is the first one of a wiring chart in version 2 of the language.
fn is_second_title(line: &[u8]) -> bool
    ensures { result ≡ law.is_second_title line.now }
{
    is_title_line(line, b"WIRING407", b"2")
}

/// Whether a line is the first one of a wiring chart in version 1.
fn is_first_title(line: &[u8]) -> bool
    ensures { result ≡ law.is_first_title line.now }
{
    is_title_line(line, b"WIRING407", b"1")
}

/// Writes what is told of one of the first two lines: the line, what is wrong and what helps.
#[tactic(auto, unfolding(crate::specs::Entries::head_told))]
fn write_head_told<W: Write>(out: &mut W, line: &[u8], wrong: &[u8], cure: &[u8]) -> io::Result<()>
    ensures { OnOk result (Appends (W.contents out.old) (W.contents out.new) (law.head_told line.now wrong.now cure.now)) }
{
    write_shown(out, line, token_span(line, 0))?;
    write_below(out, wrong)?;
    write_below(out, cure)
}

/// Writes the entry of one of the first two lines.
#[tactic(auto, unfolding(crate::specs::Entries::head_entry))]
fn write_head_entry<W: Write>(
    out: &mut W,
    number: u32,
    line: &[u8],
    wrong: &[u8],
    cure: &[u8],
) -> io::Result<()>
    ensures { OnOk result (Appends (W.contents out.old) (W.contents out.new) (law.head_entry number line.now wrong.now cure.now)) }
{
    write_head(out, number, 72, "NoFirstLine")?;
    write_head_told(out, line, wrong, cure)
}

/// Writes the entry of a text that begins with another line.
#[tactic(auto, unfolding(crate::specs::Entries::title_entry))]
fn write_title<W: Write>(out: &mut W, line: &[u8]) -> io::Result<()>
    ensures { OnOk result (Appends (W.contents out.old) (W.contents out.new) (law.title_entry line.now)) }
{
    write_head_entry(
        out,
        1,
        line,
        wording::THE_FIRST_LINE_IS_THE_TITLE,
        wording::WRITE_IT_THERE,
    )
}

/// Writes the entry of a text without FORM on line 2.
#[tactic(auto, unfolding(crate::specs::Entries::form_entry))]
fn write_no_form<W: Write>(out: &mut W, line: &[u8]) -> io::Result<()>
    ensures { OnOk result (Appends (W.contents out.old) (W.contents out.new) (law.form_entry line.now)) }
{
    write_head_entry(
        out,
        2,
        line,
        wording::LINE_2_IS_FORM_WITH_THREE_NUMBERS,
        wording::WRITE_THE_FORM,
    )
}

/// Writes the entry of a text that doesn't begin as a wiring chart.
#[tactic(auto, unfolding(crate::specs::Entries::first_entry))]
fn write_first<W: Write>(out: &mut W, source: &[u8]) -> io::Result<()>
    ensures { OnOk result (Appends (W.contents out.old) (W.contents out.new) (law.first_entry source.now)) }
{
    let title = line_numbered(source, 1);
    if is_second_title(title) {
        write_no_form(out, line_numbered(source, 2))
    } else if is_first_title(title) {
        write_no_form(out, line_numbered(source, 2))
    } else {
        write_title(out, title)
    }
}

/// Writes the entry of a line that is none of a wiring chart.
#[tactic(auto, unfolding(crate::specs::Entries::misplaced_entry))]
fn write_misplaced_entry<W: Write>(
    out: &mut W,
    source: &[u8],
    good: &[u8],
    number: u32,
) -> io::Result<()>
    ensures { OnOk result (Appends (W.contents out.old) (W.contents out.new) (law.misplaced_entry source.now good.now number)) }
{
    let is_second = is_second_title(line_numbered(source, 1));
    let end = end_line(good);
    let line = line_numbered(source, number);
    write_head(out, number, 73, "NotALine")?;
    write_misplaced(out, is_second, end, number, line)
}

/// Writes what is told of a line that stood before.
#[tactic(auto, unfolding(crate::specs::Entries::twice_told))]
fn write_twice_told<W: Write>(out: &mut W, good: &[u8], line: &[u8]) -> io::Result<()>
    ensures { OnOk result (Appends (W.contents out.old) (W.contents out.new) (law.twice_told good.now line.now)) }
{
    write_shown(out, line, token_span(line, 1))?;
    out.write_all(b"  ")?;
    write_twice(out, first_met(Meeting::Same, line, good))?;
    out.write_all(b"\n")?;
    out.write_all(wording::TAKE_ONE_OF_THEM_OUT)
}

/// Writes the entry of a line that stood before.
#[tactic(auto, unfolding(crate::specs::Entries::twice_entry))]
fn write_twice_entry<W: Write>(
    out: &mut W,
    source: &[u8],
    good: &[u8],
    number: u32,
) -> io::Result<()>
    ensures { OnOk result (Appends (W.contents out.old) (W.contents out.new) (law.twice_entry source.now good.now number)) }
{
    write_head(out, number, 74, "LineTwice")?;
    write_twice_told(out, good, line_numbered(source, number))
}

/// Writes what is told of the form, on line 2.
#[tactic(auto, unfolding(crate::specs::Entries::form_told))]
fn write_form_told<W: Write>(out: &mut W, line: &[u8]) -> io::Result<()>
    ensures { OnOk result (Appends (W.contents out.old) (W.contents out.new) (law.form_told line.now)) }
{
    write_shown(out, line, token_span(line, form_place(line)))?;
    out.write_all(b"  ")?;
    write_form(out, line)?;
    out.write_all(b"\n")?;
    out.write_all(wording::A_FORM_HAS_3_TO_144_LINES)
}

/// Writes what is told of a line that the panel can't have.
#[tactic(auto, unfolding(crate::specs::Entries::unfit_told))]
fn write_unfit_told<W: Write>(
    out: &mut W,
    cause: SetupFault,
    form: &[u8],
    good: &[u8],
    line: &[u8],
) -> io::Result<()>
    ensures { OnOk result (Appends (W.contents out.old) (W.contents out.new) (law.unfit_told cause form.now good.now line.now)) }
{
    write_shown(out, line, token_span(line, unfit_place(cause, good, line)))?;
    out.write_all(b"  ")?;
    write_unfit_wrong(out, cause, form, good, line)?;
    out.write_all(b"\n")?;
    out.write_all(b"  ")?;
    write_unfit_cure(out, cause, line)?;
    out.write_all(b"\n")
}

/// Writes the entry of a line that the panel can't have.
#[tactic(auto, unfolding(crate::specs::Entries::unfit_entry))]
fn write_unfit_entry<W: Write>(
    out: &mut W,
    source: &[u8],
    good: &[u8],
    number: u32,
    cause: SetupFault,
) -> io::Result<()>
    ensures { OnOk result (Appends (W.contents out.old) (W.contents out.new) (law.unfit_entry source.now good.now number cause)) }
{
    write_head(out, number, 75, unfit_name(cause))?;
    let form = line_numbered(source, 2);
    if number == 2 {
        write_form_told(out, form)
    } else {
        write_unfit_told(out, cause, form, good, line_numbered(source, number))
    }
}

/// Writes the entry of a fault.
fn write_entry<W: Write>(
    out: &mut W,
    source: &[u8],
    good: &[u8],
    fault: WiringFault,
) -> io::Result<()>
    ensures { OnOk result (Appends (W.contents out.old) (W.contents out.new) (law.wiring_entry source.now good.now fault)) }
{
    match fault {
        WiringFault::TooLarge => out.write_all(wording::TOO_LARGE),
        WiringFault::NoFirstLine => write_first(out, source),
        WiringFault::NotALine { line } => write_misplaced_entry(out, source, good, line),
        WiringFault::LineTwice { line } => write_twice_entry(out, source, good, line),
        WiringFault::Unfit { line, fault } => write_unfit_entry(out, source, good, line, fault),
        WiringFault::NoEnd => out.write_all(wording::NO_END),
        WiringFault::Memory => out.write_all(b""),
    }
}

/// Writes the entries of faults, one after another.
fn write_entries<W: Write>(
    out: &mut W,
    source: &[u8],
    good: &[u8],
    faults: &[WiringFault],
) -> io::Result<()>
    ensures { OnOk result (Appends (W.contents out.old) (W.contents out.new) (law.wiring_entries source.now good.now faults.now)) }
{
    for fault in faults {
        write_entry(out, source, good, *fault)?;
    }
    Ok(())
}

/// What stands below 500 entries.
fn more_words(count: usize) -> &'static str
    ensures { result.now ≡ law.more_words count }
{
    if count >= 500 {
        wording::THERE_MAY_BE_MORE
    } else {
        ""
    }
}

/// Writes the entries of faults of a wiring chart, one after another, and behind 500 of them that there may be more. `source` is its text,
/// and `good` the text without the lines at fault.
///
/// # Errors
///
/// If the writer fails. It may then have taken a part of them.
#[tactic(auto, unfolding(crate::specs::Entries::wiring_list))]
pub fn write_wiring_list<W: Write>(
    out: &mut W,
    source: &[u8],
    good: &[u8],
    faults: &[WiringFault],
) -> io::Result<()>
    ensures { OnOk result (Appends (W.contents out.old) (W.contents out.new) (law.wiring_list source.now good.now faults.now)) }
{
    write_entries(out, source, good, faults)?;
    out.write_all(more_words(faults.len()).as_bytes())
}
