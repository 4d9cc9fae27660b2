//! Telling faults.

ghost use Rattle.std.specs.Prelude.{◌≡◌, ◌≤◌, ◌==◌, ◌++◌, codes, decimal, length, OnOk};
ghost use Rattle.std.specs.Io.KnownBytes.{Appends};
ghost use Rattle.std.specs.List.{position_or_len};
ghost use Rattle.chart_lines.specs.ChartsWords.Name.{name_text};
ghost use Rattle.fault_lines.specs.FaultsWords.Lines.{IsTold, fault_line, fault_text};
ghost use Rattle.fault_lines.specs.FaultsWords.Status.{status_of};

use crate::faults::fault::Fault;
use chart_numerals::{write_between, write_numbered};
use std::io;
use std::io::Write;

// How many characters stand before the first blank.
fn length_before_blank(characters: &[u8]) -> usize
    ensures value { result ≡ position_or_len (λ character. character == 32) characters.now }
    ensures within { result ≤ length characters.now }
{
    characters
        .iter()
        .position(|character| *character == b' ')
        .unwrap_or(characters.len())
}

// The letters and digits of a name, without the blanks that fill it.
fn before_blank(name: &[u8]) -> &[u8]
    ensures { result.now ≡ name_text name.now }
{
    &name[..length_before_blank(name)]
}

// Writes the number of a fault, and a figure after its words.
fn write_one<W: Write>(out: &mut W, number: u8, words: &str, figure: u64) -> io::Result<()>
    ensures { OnOk result (Appends (W.contents out.old) (W.contents out.new) (codes "fault " ++ decimal number
        ++ words.now ++ decimal figure)) }
{
    write_numbered(out, "fault ", number)?;
    write_numbered(out, words, figure)
}

// Writes the number of a fault, and two figures, each after its words.
fn write_two<W: Write>(
    out: &mut W,
    number: u8,
    first: (&str, u64),
    second: (&str, u64),
) -> io::Result<()>
    ensures { OnOk result (Appends (W.contents out.old) (W.contents out.new) (codes "fault " ++ decimal number
        ++ first.entry.0.now ++ decimal first.entry.1 ++ second.entry.0.now ++ decimal second.entry.1)) }
{
    write_one(out, number, first.0, first.1)?;
    write_numbered(out, second.0, second.1)
}

// Writes the number of a fault, and three figures, each after its words.
fn write_three<W: Write>(
    out: &mut W,
    number: u8,
    first: (&str, u64),
    second: (&str, u64),
    third: (&str, u64),
) -> io::Result<()>
    ensures { OnOk result (Appends (W.contents out.old) (W.contents out.new) (codes "fault " ++ decimal number
        ++ first.entry.0.now ++ decimal first.entry.1 ++ second.entry.0.now ++ decimal second.entry.1 ++ third.entry.0.now ++ decimal third.entry.1)) }
{
    write_two(out, number, first, second)?;
    write_numbered(out, third.0, third.1)
}

// Writes the words and figures of a fault of a total.
fn write_total<W: Write>(
    out: &mut W,
    number: u8,
    level: u8,
    name: &[u8],
    card: u32,
) -> io::Result<()>
    ensures { OnOk result (Appends (W.contents out.old) (W.contents out.new) (codes "fault " ++ decimal number
        ++ codes " level " ++ decimal level ++ codes " name " ++ name_text name.now ++ codes " card " ++ decimal card)) }
{
    write_one(out, number, " level ", u64::from(level))?;
    out.write_all(b" name ")?;
    out.write_all(before_blank(name))?;
    write_numbered(out, " card ", card)
}

// Writes the words and figures of a fault.
fn write_text<W: Write>(fault: &Fault, out: &mut W) -> io::Result<()>
    ensures { OnOk result (Appends (W.contents out.old) (W.contents out.new) (fault_text fault.now)) }
{
    match *fault {
        Fault::Whole { number } => write_numbered(out, "fault ", number),
        Fault::Line { number, line } => write_one(out, number, " line ", u64::from(line)),
        Fault::Cause {
            number,
            line,
            cause,
        } => write_two(
            out,
            number,
            (" line ", u64::from(line)),
            (" cause ", u64::from(cause)),
        ),
        Fault::Card { number, card } => write_one(out, number, " card ", u64::from(card)),
        Fault::Column {
            number,
            card,
            column,
        } => write_two(
            out,
            number,
            (" card ", u64::from(card)),
            (" column ", u64::from(column)),
        ),
        Fault::Counters {
            number,
            width,
            wanted,
            there,
        } => write_three(
            out,
            number,
            (" width ", u64::from(width)),
            (" wanted ", wanted as u64),
            (" there ", u64::from(there)),
        ),
        Fault::Capacity {
            number,
            wanted,
            there,
        } => write_two(
            out,
            number,
            (" wanted ", wanted as u64),
            (" there ", u64::from(there)),
        ),
        Fault::Indicate {
            number,
            level,
            wanted,
            there,
        } => write_three(
            out,
            number,
            (" level ", u64::from(level)),
            (" wanted ", wanted as u64),
            (" there ", u64::from(there)),
        ),
        Fault::Total {
            number,
            level,
            ref name,
            card,
        } => write_total(out, number, level, name, card),
        Fault::Unknown { word } => write!(out, "fault command {word}"),
        Fault::File { path } => write!(out, "fault file {path}"),
        Fault::Unread { card } => write_numbered(out, "fault 4 card ", card),
        Fault::Write => out.write_all(b"fault write"),
        Fault::Memory => out.write_all(b"fault memory"),
    }
}

/// Writes the line of a fault, as the catalogue of faults has it, and LF.
///
/// # Errors
///
/// Where the writer fails. It may then have taken a part of the line.
pub fn write_line<W: Write>(fault: &Fault, out: &mut W) -> io::Result<()>
    ensures { OnOk result (Appends (W.contents out.old) (W.contents out.new) (fault_line fault.now)) }
{
    write_text(fault, out)?;
    out.write_all(b"\n")
}

/// Writes words, a page, a line of it, and LF: `fault 92 page 1 line 2`.
///
/// # Errors
///
/// Where the writer fails. It may then have taken a part of this.
pub fn write_place<W: Write>(out: &mut W, words: &str, page: u64, line: u32) -> io::Result<()>
    ensures { OnOk result (Appends (W.contents out.old) (W.contents out.new)
        (words.now ++ decimal page ++ codes " line " ++ decimal line ++ codes "\n")) }
{
    write_numbered(out, words, page)?;
    write_between(out, " line ", line, "\n")
}

/// How the program ends.
#[derive(Clone, Copy, Debug, PartialEq, Eq)]
pub struct Ending {
    /// Its status.
    pub status: u8,
    /// Whether the line of the fault, where there is one, was written whole.
    pub is_told: bool,
}

/// Tells a fault on one line: the program ends with its status. Where the line can't be written, the status alone tells of it.
pub fn tell<V: Write>(fault: &Fault, faults: &mut V) -> Ending
    ensures status { result.status ≡ status_of fault.now }
    ensures line { IsTold fault.now result.is_told (V.contents faults.old) (V.contents faults.new) }
{
    let is_told = write_line(fault, faults).is_ok();
    let status = fault.status();
    Ending { status, is_told }
}
