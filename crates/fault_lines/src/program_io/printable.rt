//! Bytes that somebody handed in, in characters that print.

ghost use Rattle.std.specs.Prelude.{◌≡◌, OnOk, map};
ghost use Rattle.std.specs.Io.KnownBytes.{Appends};
ghost use Rattle.fault_lines.specs.ProgramIo.Printable as law;

use std::io;
use std::io::Write;

// A byte, or a question mark if it is no character of ASCII or doesn't print.
fn printable(byte: u8) -> u8
    ensures { result ≡ law.printable byte }
{
    if 32 <= byte && byte < 127 { byte } else { b'?' }
}

/// Writes bytes, with a question mark for each that is no character of ASCII or doesn't print: so no text can steer the terminal of who
/// reads of it.
///
/// # Errors
///
/// If the writer fails. It may then have taken a part of the bytes.
pub fn write_printable<W: Write>(out: &mut W, bytes: &[u8]) -> io::Result<()>
    ensures { OnOk result (Appends (W.contents out.old) (W.contents out.new) (map law.printable bytes.now)) }
{
    for byte in bytes {
        out.write_all(&[printable(*byte)])?;
    }
    Ok(())
}
