//! The entries of faults of a chart's text.

ghost use Rattle.std.specs.Prelude.{OnOk};
ghost use Rattle.std.specs.Io.KnownBytes.{Appends};
ghost use Rattle.fault_lists.specs.TextEntries as law;

use chart_text::TextFault;
use fault_lines::program_io::write_printable;
use fault_slips::line_marks::{end_line, line_numbered};
use fault_slips::line_slips::write_behind_entry;
use fault_slips::word_slips::write_misread_entry;
use std::io;
use std::io::Write;

/// Writes the entry of a text without a first line.
fn write_first_line<W: Write>(out: &mut W, source: &[u8]) -> io::Result<()>
    ensures { OnOk result (Appends (W.contents out.old) (W.contents out.new) (law.first_line_entry source.now)) }
{
    out.write_all(b"line 1 fault 12 NoFirstLine\n")?;
    out.write_all(b"  ")?;
    write_printable(out, line_numbered(source, 1))?;
    out.write_all(b"\n")?;
    out.write_all(b"  the first line is CHART407 1 or CHART407 2, and nothing stands before it\n")
}

/// Writes the entry of a line that no form derives, or that stands behind END. `end` is the number of the first line that is END.
#[tactic(auto, unfolding(crate::specs::TextEntries::placed_entry))]
fn write_placed_entry<W: Write>(
    out: &mut W,
    end: Option<u64>,
    number: u16,
    line: &[u8],
) -> io::Result<()>
    ensures { OnOk result (Appends (W.contents out.old) (W.contents out.new) (law.placed_entry end number line.now)) }
{
    match end {
        Some(end) if end < u64::from(number) => write_behind_entry(out, number, end, line),
        _ => write_misread_entry(out, number, line),
    }
}

/// Writes the entry of such a line of a text, by its number.
#[tactic(auto, unfolding(crate::specs::TextEntries::numbered_entry))]
fn write_numbered_entry<W: Write>(out: &mut W, source: &[u8], line: u16) -> io::Result<()>
    ensures { OnOk result (Appends (W.contents out.old) (W.contents out.new) (law.numbered_entry source.now line)) }
{
    write_placed_entry(
        out,
        end_line(source),
        line,
        line_numbered(source, u32::from(line)),
    )
}

/// Writes the entries of lines that no form derives, by their numbers.
fn write_misread<W: Write>(out: &mut W, source: &[u8], lines: &[u16]) -> io::Result<()>
    ensures { OnOk result (Appends (W.contents out.old) (W.contents out.new) (law.lines_text source.now lines.now)) }
{
    for line in lines {
        write_numbered_entry(out, source, *line)?;
    }
    Ok(())
}

/// Writes the entry of a text that lacks END.
pub(crate) fn write_no_end<W: Write>(out: &mut W) -> io::Result<()>
    ensures { OnOk result (Appends (W.contents out.old) (W.contents out.new) law.no_end_entry) }
{
    out.write_all(b"fault 14 NoEnd\n  no line has END alone\n  the last line of a chart is END\n")
}

/// Writes what is listed of a fault of a text. `lines` are the numbers of its lines that no form derives.
pub(crate) fn write_text_entry<W: Write>(
    out: &mut W,
    source: &[u8],
    lines: &[u16],
    fault: TextFault,
) -> io::Result<()>
    ensures { OnOk result (Appends (W.contents out.old) (W.contents out.new) (law.text_entry source.now lines.now fault)) }
{
    match fault {
        TextFault::TooLarge => out.write_all(
            b"fault 11 TooLarge\n  a chart has 500 lines of 200 bytes at most\n  take out empty lines and spaces, or look whether this is a deck\n",
        ),
        TextFault::NoFirstLine => write_first_line(out, source),
        TextFault::NotALine { .. } => write_misread(out, source, lines),
        TextFault::NoEnd => write_no_end(out),
        TextFault::Memory => Ok(()),
    }
}
