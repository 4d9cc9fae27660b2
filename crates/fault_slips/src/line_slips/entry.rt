//! The entry of a line that no form derives.

ghost use Rattle.std.specs.Prelude.{◌≡◌, OnOk};
ghost use Rattle.std.specs.Io.KnownBytes.{Appends};
ghost use Rattle.fault_slips.specs.LineSlips.LineEntries as law;

use crate::line_marks::{token_span, word, write_below, write_head, write_shown};
use crate::line_slips::forms::{cure_words, slip_words};
use crate::line_slips::slip::{slip_of, slip_span};
use crate::wording;
use chart_numerals::write_between;
use std::io;
use std::io::Write;

/// Writes the slip of a line, and what helps.
#[tactic(auto, unfolding(crate::specs::LineSlips::LineEntries::help_lines))]
fn write_help<W: Write>(out: &mut W, line: &[u8]) -> io::Result<()>
    ensures { OnOk result (Appends (W.contents out.old) (W.contents out.new) (law.help_lines line.now)) }
{
    let slip = slip_of(line);
    let first = word(line, 0);
    write_below(out, slip_words(slip, first).as_bytes())?;
    write_below(out, cure_words(slip, first).as_bytes())
}

/// Writes the entry of a line with a number, one that no form of a chart derives.
///
/// # Errors
///
/// If the writer fails. It may then have taken a part of the entry.
#[tactic(auto, unfolding(crate::specs::LineSlips::LineEntries::line_entry))]
pub fn write_line_entry<W: Write>(out: &mut W, number: u16, line: &[u8]) -> io::Result<()>
    ensures { OnOk result (Appends (W.contents out.old) (W.contents out.new) (law.line_entry number line.now)) }
{
    write_head(out, u32::from(number), 13, "NotALine")?;
    write_shown(out, line, slip_span(line))?;
    write_help(out, line)
}

/// Writes what is wrong with a line behind END, which stands on line `end`.
#[tactic(auto, unfolding(crate::specs::LineSlips::LineEntries::behind_wrong))]
fn write_behind_wrong<W: Write>(out: &mut W, end: u64) -> io::Result<()>
    ensures { OnOk result (Appends (W.contents out.old) (W.contents out.new) (law.behind_wrong end)) }
{
    write_between(
        out,
        wording::END_STANDS_ON_LINE,
        end,
        wording::AND_ENDS_THE_CHART,
    )
}

/// Writes what is told of a line behind END, which stands on line `end`, of a chart or of a wiring chart.
///
/// # Errors
///
/// If the writer fails. It may then have taken a part of it.
#[tactic(auto, unfolding(crate::specs::LineSlips::LineEntries::behind_told))]
pub fn write_behind<W: Write>(out: &mut W, end: u64, line: &[u8]) -> io::Result<()>
    ensures { OnOk result (Appends (W.contents out.old) (W.contents out.new) (law.behind_told end line.now)) }
{
    write_shown(out, line, token_span(line, 0))?;
    out.write_all(b"  ")?;
    write_behind_wrong(out, end)?;
    out.write_all(b"\n")?;
    out.write_all(wording::TAKE_OUT_WHAT_STANDS_BEHIND_END)
}

/// Writes the entry of a line with a number that stands behind END. END stands on line `end`.
///
/// # Errors
///
/// If the writer fails. It may then have taken a part of the entry.
#[tactic(auto, unfolding(crate::specs::LineSlips::LineEntries::behind_entry))]
pub fn write_behind_entry<W: Write>(
    out: &mut W,
    number: u16,
    end: u64,
    line: &[u8],
) -> io::Result<()>
    ensures { OnOk result (Appends (W.contents out.old) (W.contents out.new) (law.behind_entry number end line.now)) }
{
    write_head(out, u32::from(number), 13, "NotALine")?;
    write_behind(out, end, line)
}
