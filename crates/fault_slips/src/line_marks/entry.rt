//! What entries of faults have in common.

ghost use Rattle.std.specs.Prelude.{◌≡◌, ◌≤◌, length, map, OnOk};
ghost use Rattle.std.specs.Io.KnownBytes.{Appends};
ghost use Rattle.fault_slips.specs.LineMarks.Entries as law;

use crate::line_marks::mark::write_mark;
use crate::line_marks::span::Span;
use chart_numerals::write_numbered;
use std::io;
use std::io::Write;

/// Writes the first line of an entry: the number of a line, the number of the fault and its name.
///
/// # Errors
///
/// If the writer fails. It may then have taken a part of the line.
pub fn write_head<W: Write>(out: &mut W, line: u32, number: u8, name: &str) -> io::Result<()>
    ensures { OnOk result (Appends (W.contents out.old) (W.contents out.new) (law.head_line line number name.now)) }
{
    write_numbered(out, "line ", line)?;
    write_numbered(out, " fault ", number)?;
    out.write_all(b" ")?;
    out.write_all(name.as_bytes())?;
    out.write_all(b"\n")
}

/// Writes a line of an entry below its first, indented.
///
/// # Errors
///
/// If the writer fails. It may then have taken a part of the line.
pub fn write_below<W: Write>(out: &mut W, text: &[u8]) -> io::Result<()>
    ensures { OnOk result (Appends (W.contents out.old) (W.contents out.new) (law.below text.now)) }
{
    out.write_all(b"  ")?;
    out.write_all(text)?;
    out.write_all(b"\n")
}

/// A byte as it is shown: no line that somebody hands in may steer the terminal of who reads of it.
fn shown_byte(byte: u8) -> u8
    ensures { result ≡ law.shown_byte byte }
{
    if (byte < 32 && byte != b'\t') || byte == 127 {
        b'?'
    } else {
        byte
    }
}

/// Writes bytes as they are shown.
fn write_shown_bytes<W: Write>(out: &mut W, bytes: &[u8]) -> io::Result<()>
    ensures { OnOk result (Appends (W.contents out.old) (W.contents out.new) (map law.shown_byte bytes.now)) }
{
    for byte in bytes {
        out.write_all(&[shown_byte(*byte)])?;
    }
    Ok(())
}

/// Writes a line and a mark under a part of it, both indented. `?` stands for each of its control characters but the tab.
///
/// # Errors
///
/// If the writer fails. It may then have taken a part of them.
pub fn write_shown<W: Write>(out: &mut W, line: &[u8], span: Span) -> io::Result<()>
    requires ordered { span.start ≤ span.end }
    requires within { span.end ≤ length line.now }
    ensures { OnOk result (Appends (W.contents out.old) (W.contents out.new) (law.shown line.now span)) }
{
    out.write_all(b"  ")?;
    write_shown_bytes(out, line)?;
    out.write_all(b"\n  ")?;
    write_mark(out, line, span)?;
    out.write_all(b"\n")
}
