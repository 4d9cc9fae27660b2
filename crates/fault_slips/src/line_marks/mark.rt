//! The line that marks a part of the line above it.

ghost use Rattle.std.specs.Prelude.{◌≡◌, ◌≤◌, length, OnOk};
ghost use Rattle.std.specs.Io.KnownBytes.{Appends};
ghost use Rattle.std.specs.List.{flat_map};
ghost use Rattle.fault_slips.specs.LineMarks.Marks as law;
ghost use Rattle.fault_slips.specs.LineMarks.Marks.{caret, mark_text, under};

use crate::line_marks::span::Span;
use std::io;
use std::io::Write;

/// Whether a byte continues a character of several bytes.
fn continues(byte: u8) -> bool
    ensures { result ≡ law.continues byte }
{
    128 <= byte && byte <= 191
}

/// What stands under a byte before the mark.
fn under(byte: u8) -> &'static [u8]
    ensures { result.now ≡ law.under byte }
{
    if continues(byte) {
        b""
    } else if byte == b'\t' {
        b"\t"
    } else {
        b" "
    }
}

/// What stands under a byte that is marked.
fn caret(byte: u8) -> &'static [u8]
    ensures { result.now ≡ law.caret byte }
{
    if continues(byte) { b"" } else { b"^" }
}

/// Writes what stands under bytes before the mark.
fn write_under<W: Write>(out: &mut W, bytes: &[u8]) -> io::Result<()>
    ensures { OnOk result (Appends (W.contents out.old) (W.contents out.new) (flat_map under bytes.now)) }
{
    for byte in bytes {
        out.write_all(under(*byte))?;
    }
    Ok(())
}

/// Writes what stands under bytes that are marked.
fn write_carets<W: Write>(out: &mut W, bytes: &[u8]) -> io::Result<()>
    ensures { OnOk result (Appends (W.contents out.old) (W.contents out.new) (flat_map caret bytes.now)) }
{
    for byte in bytes {
        out.write_all(caret(*byte))?;
    }
    Ok(())
}

/// Writes the mark of a part of a line: blanks under what stands before it, tabs under tabs, and a caret under each of its characters.
///
/// # Errors
///
/// If the writer fails. It may then have taken a part of the mark.
pub fn write_mark<W: Write>(out: &mut W, line: &[u8], span: Span) -> io::Result<()>
    requires ordered { span.start ≤ span.end }
    requires within { span.end ≤ length line.now }
    ensures { OnOk result (Appends (W.contents out.old) (W.contents out.new) (mark_text line.now span)) }
{
    write_under(out, &line[..span.start])?;
    write_carets(out, &line[span.start..span.end])
}
