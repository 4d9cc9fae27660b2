//! Numbers as texts have them, in decimal digits.
//!
//! The digits are those of `itoa`. Each text of this repository has its numbers from here, and the crate stands on no other of it.
//! [`push_number`], [`push_numbered`] and [`push_between`] add to a text in memory; [`write_number`], [`write_numbered`] and
//! [`write_between`] write to any writer.
#![tactic(auto)]

ghost use Rattle.std.specs.Prelude.{◌≡◌, ◌++◌, OnErr, OnOk};
ghost use Rattle.std.specs.String.{string_bytes};
ghost use Rattle.std.specs.Io.KnownBytes.{Appends};

use itoa::{Buffer, Integer};
use std::alloc::AllocError;
use std::io;
use std::io::Write;

/// Adds a number in decimal digits to a text.
///
/// Fails only if memory was refused. The text is then as it was.
pub fn push_number<N: Integer>(text: &mut String, number: N) -> Result<(), AllocError>
    ensures pushed { OnOk result (string_bytes text.new ≡ string_bytes text.old ++ N.text number) }
    ensures kept { OnErr result (string_bytes text.new ≡ string_bytes text.old) }
{
    text.push_str(Buffer::new().format(number))
}

/// Adds words, and a number in decimal digits, to a text: `line ` and 7 as `line 7`.
///
/// Fails only if memory was refused. The text may then have gained the words.
pub fn push_numbered<N: Integer>(
    text: &mut String,
    words: &str,
    number: N,
) -> Result<(), AllocError>
    ensures { OnOk result (string_bytes text.new ≡ string_bytes text.old ++ words.now ++ N.text number) }
{
    text.push_str(words)?;
    push_number(text, number)
}

/// Adds a number in decimal digits between words: `row `, 7 and `:` as `row 7:`.
///
/// Fails only if memory was refused. The text may then have gained a front of this.
pub fn push_between<N: Integer>(
    text: &mut String,
    before: &str,
    number: N,
    behind: &str,
) -> Result<(), AllocError>
    ensures { OnOk result (string_bytes text.new ≡ string_bytes text.old ++ (before.now ++ N.text number ++ behind.now)) }
{
    push_numbered(text, before, number)?;
    text.push_str(behind)
}

/// Writes a number in decimal digits.
///
/// # Errors
///
/// If the writer fails. It may then have taken some of the digits.
pub fn write_number<W: Write, N: Integer>(out: &mut W, number: N) -> io::Result<()>
    ensures { OnOk result (Appends (W.contents out.old) (W.contents out.new) (N.text number)) }
{
    out.write_all(Buffer::new().format(number).as_bytes())
}

/// Writes words, and a number in decimal digits: `line ` and 7 as `line 7`.
///
/// # Errors
///
/// If the writer fails. It may then have taken a part of the words and digits.
pub fn write_numbered<W: Write, N: Integer>(out: &mut W, words: &str, number: N) -> io::Result<()>
    ensures { OnOk result (Appends (W.contents out.old) (W.contents out.new) (words.now ++ N.text number)) }
{
    out.write_all(words.as_bytes())?;
    write_number(out, number)
}

/// Writes a number in decimal digits between words: `row `, 7 and `:` as `row 7:`.
///
/// # Errors
///
/// If the writer fails. It may then have taken a part of this.
pub fn write_between<W: Write, N: Integer>(
    out: &mut W,
    before: &str,
    number: N,
    behind: &str,
) -> io::Result<()>
    ensures { OnOk result (Appends (W.contents out.old) (W.contents out.new) (before.now ++ N.text number ++ behind.now)) }
{
    write_numbered(out, before, number)?;
    out.write_all(behind.as_bytes())
}
