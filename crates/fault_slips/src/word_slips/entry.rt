//! The entry of a line that no form derives.

ghost use Rattle.std.specs.Prelude.{◌≡◌, ◌-◌, OnOk, find};
ghost use Rattle.std.specs.Io.KnownBytes.{Appends};
ghost use Rattle.fault_slips.specs.WordSlips.Entries as law;

use crate::line_marks::{token_span, word, write_below, write_head, write_shown};
use crate::line_slips::{form_words, write_line_entry};
use crate::word_slips::halt::{Halt, halt_of};
use crate::word_slips::stage::{may_end, phrase};
use crate::wording;
use chart_lines::tokens::is;
use std::io;
use std::io::Write;

/// The places of the words of a line, from 0.
const ALL_PLACES: [usize; 13] = [0, 1, 2, 3, 4, 5, 6, 7, 8, 9, 10, 11, 12];

/// Writes what is wrong, in some words and others.
#[tactic(auto, unfolding(crate::specs::WordSlips::Entries::wrong_line))]
fn write_wrong<W: Write>(out: &mut W, words: &str, others: &str) -> io::Result<()>
    ensures { OnOk result (Appends (W.contents out.old) (W.contents out.new) (law.wrong_line words.now others.now)) }
{
    out.write_all(b"  ")?;
    out.write_all(words.as_bytes())?;
    out.write_all(others.as_bytes())?;
    out.write_all(b"\n")
}

/// Writes what is wrong, and below it the form of the first word of a line.
#[tactic(auto, unfolding(crate::specs::WordSlips::Entries::wrong_lines))]
fn write_wrong_lines<W: Write>(
    out: &mut W,
    line: &[u8],
    words: &str,
    others: &str,
) -> io::Result<()>
    ensures { OnOk result (Appends (W.contents out.old) (W.contents out.new) (law.wrong_lines line.now words.now others.now)) }
{
    write_wrong(out, words, others)?;
    write_below(out, form_words(word(line, 0)).as_bytes())
}

/// Writes the entry of a line with a number that marks one of its words. What is wrong there is told by some words and others.
#[tactic(auto, unfolding(crate::specs::WordSlips::Entries::marked_entry))]
fn write_marked<W: Write>(
    out: &mut W,
    number: u16,
    line: &[u8],
    place: usize,
    words: &str,
    others: &str,
) -> io::Result<()>
    ensures { OnOk result (Appends (W.contents out.old) (W.contents out.new)
        (law.marked_entry number line.now place words.now others.now)) }
{
    write_head(out, u32::from(number), 13, "NotALine")?;
    write_shown(out, line, token_span(line, place))?;
    write_wrong_lines(out, line, words, others)
}

/// Whether what stands behind a word is no space, and no end of the line.
fn is_no_space(byte: Option<u8>) -> bool
    ensures { result ≡ law.is_no_space byte }
{
    match byte {
        None => false,
        Some(byte) => byte != b' ',
    }
}

/// Whether a space is missing behind a word of a line.
fn is_joined(line: &[u8], place: usize) -> bool
    ensures { result ≡ law.is_joined line.now place }
{
    is_no_space(line.get(token_span(line, place).end).copied())
}

/// The first of some words of a line behind which a space is missing.
fn joined_place(places: &[usize], line: &[u8]) -> Option<usize>
    ensures { result ≡ find (law.is_joined line.now) places.now }
{
    places.iter().copied().find(|place| is_joined(line, *place))
}

/// Writes the entry of a line with a number whose words are those of a form, by the first of them behind which a space is missing.
#[tactic(auto, unfolding(crate::specs::WordSlips::Entries::whole_entry))]
fn write_whole<W: Write>(
    out: &mut W,
    number: u16,
    line: &[u8],
    joined: Option<usize>,
) -> io::Result<()>
    ensures { OnOk result (Appends (W.contents out.old) (W.contents out.new) (law.whole_entry number line.now joined)) }
{
    match joined {
        Some(place) => write_marked(
            out,
            number,
            line,
            place,
            wording::A_SPACE_BELONGS_BEHIND_THIS,
            "",
        ),
        None if is(word(line, 5), b"COUPLED") => {
            write_marked(out, number, line, 5, wording::VERSION_1_HAS_NO_COUPLED, "")
        }
        None => write_line_entry(out, number, line),
    }
}

/// The place of the word before the one at which a line leaves the forms.
fn place_before(halt: Halt) -> usize
    ensures { result ≡ halt.place - 1 }
{
    halt.place.saturating_sub(1)
}

/// Writes the entry of a line with a number that lacks words behind its last one.
#[tactic(auto, unfolding(crate::specs::WordSlips::Entries::missing_entry))]
fn write_missing<W: Write>(out: &mut W, number: u16, line: &[u8], halt: Halt) -> io::Result<()>
    ensures { OnOk result (Appends (W.contents out.old) (W.contents out.new) (law.missing_entry number line.now halt)) }
{
    let last = place_before(halt);
    write_marked(
        out,
        number,
        line,
        last,
        wording::BEHIND_THIS_BELONGS,
        phrase(halt.stage),
    )
}

/// Writes the entry of a line with a number that leaves the forms behind its last word.
#[tactic(auto, unfolding(crate::specs::WordSlips::Entries::front_entry))]
fn write_front<W: Write>(out: &mut W, number: u16, line: &[u8], halt: Halt) -> io::Result<()>
    ensures { OnOk result (Appends (W.contents out.old) (W.contents out.new) (law.front_entry number line.now halt)) }
{
    if may_end(halt.stage) {
        write_whole(out, number, line, joined_place(&ALL_PLACES, line))
    } else {
        write_missing(out, number, line, halt)
    }
}

/// Writes the entry of a line with a number that leaves the forms at a word, an empty one behind its last.
fn write_halted<W: Write>(
    out: &mut W,
    number: u16,
    line: &[u8],
    halt: Halt,
    text: &[u8],
) -> io::Result<()>
    ensures { OnOk result (Appends (W.contents out.old) (W.contents out.new) (law.halted_entry number line.now halt text.now)) }
{
    match text {
        [] => write_front(out, number, line, halt),
        _ => write_marked(
            out,
            number,
            line,
            halt.place,
            wording::HERE_BELONGS,
            phrase(halt.stage),
        ),
    }
}

/// Writes the entry of a line with a number, by where it leaves the forms.
#[tactic(auto, unfolding(crate::specs::WordSlips::Entries::entry_by))]
fn write_entry_by<W: Write>(
    out: &mut W,
    number: u16,
    line: &[u8],
    halt: Option<Halt>,
) -> io::Result<()>
    ensures { OnOk result (Appends (W.contents out.old) (W.contents out.new) (law.entry_by number line.now halt)) }
{
    match halt {
        None => write_line_entry(out, number, line),
        Some(halt) => write_halted(out, number, line, halt, word(line, halt.place)),
    }
}

/// Writes the entry of a line with a number, one that no form of a chart derives.
///
/// # Errors
///
/// If the writer fails. It may then have taken a part of the entry.
pub fn write_misread_entry<W: Write>(out: &mut W, number: u16, line: &[u8]) -> io::Result<()>
    ensures { OnOk result (Appends (W.contents out.old) (W.contents out.new) (law.misread_entry number line.now)) }
{
    write_entry_by(out, number, line, halt_of(line))
}
