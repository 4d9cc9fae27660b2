//! What is told of a word that stands where a hub is wanted.

ghost use Rattle.std.specs.Prelude.{◌≡◌, OnOk};
ghost use Rattle.std.specs.Io.KnownBytes.{Appends};
ghost use Rattle.fault_wiring_words.specs.HubWords as law;

use crate::wording;
use fault_wiring_slips::{HubWord, is_there, is_unpointed, letters_in, tail_of};
use hubs::hub_table::Letters;
use std::io;
use std::io::Write;

/// The numbers that hubs of these letters have.
fn range_words(letters: Letters) -> &'static str
    ensures { result.now ≡ law.range_words letters }
{
    match letters {
        Letters::FR | Letters::SR => wording::COLUMNS,
        Letters::CX | Letters::CA | Letters::CB => wording::COMPARING_POSITIONS,
        Letters::GX | Letters::GE => wording::A_COUNTER_POSITION,
        Letters::CO | Letters::PL | Letters::MI | Letters::RO | Letters::BT | Letters::CI =>
            wording::A_COUNTER_GROUP,
        Letters::BAN | Letters::BAT | Letters::BAC => wording::A_BALANCE_POSITION,
        Letters::PIN | Letters::PIT | Letters::PIC => wording::A_PILOT_POSITION,
        Letters::PIX => wording::PILOTS,
        Letters::SX | Letters::SE => wording::A_STORAGE_COLUMN,
        Letters::SI | Letters::SO => wording::STORAGE_UNITS,
        Letters::IX | Letters::IE => wording::AN_INDICATE_POSITION,
        Letters::CSD | Letters::CSZ | Letters::CSE => wording::COLUMN_SPLITS,
        Letters::EM => wording::AN_EMITTER_ROW,
        Letters::CC | Letters::RS => wording::NO_NUMBER,
        Letters::PX => wording::A_PROGRAM_CYCLE,
        Letters::HX => wording::HEADING_CYCLES,
        Letters::W => wording::WHEELS,
        Letters::ST => wording::LEVELS,
        Letters::SP => wording::SPACING_HUBS,
        Letters::SK => wording::CHANNELS,
    }
}

/// Writes words with others before and behind them.
pub(crate) fn write_around<W: Write>(
    out: &mut W,
    before: &[u8],
    middle: &[u8],
    behind: &[u8],
) -> io::Result<()>
    ensures { OnOk result (Appends (W.contents out.old) (W.contents out.new) (law.around before.now middle.now behind.now)) }
{
    out.write_all(before)?;
    out.write_all(middle)?;
    out.write_all(behind)
}

/// Writes six pieces of text, one behind another.
pub(crate) fn write_six<W: Write>(
    out: &mut W,
    a: &[u8],
    b: &[u8],
    c: &[u8],
    d: &[u8],
    e: &[u8],
    f: &[u8],
) -> io::Result<()>
    ensures { OnOk result (Appends (W.contents out.old) (W.contents out.new) (law.six a.now b.now c.now d.now e.now f.now)) }
{
    out.write_all(a)?;
    out.write_all(b)?;
    out.write_all(c)?;
    out.write_all(d)?;
    out.write_all(e)?;
    out.write_all(f)
}

/// Writes what hubs of these letters have.
#[tactic(auto, unfolding(crate::specs::HubWords::has_words))]
fn write_has<W: Write>(out: &mut W, letters: Letters) -> io::Result<()>
    ensures { OnOk result (Appends (W.contents out.old) (W.contents out.new) (law.has_words letters)) }
{
    write_around(
        out,
        letters.spelled().as_bytes(),
        wording::HAS,
        range_words(letters).as_bytes(),
    )
}

/// The point before numbers that stand without one.
fn missing_point(tail: &[u8]) -> &'static [u8]
    ensures { result.now ≡ law.missing_point tail.now }
{
    if is_unpointed(tail) { b"." } else { b"" }
}

/// Writes the hub of letters that are spelled so and of the numbers that were written, with what is missing between them.
#[tactic(auto, unfolding(crate::specs::HubWords::meant_hub))]
fn write_meant_hub<W: Write>(
    out: &mut W,
    spelled: &[u8],
    missing: &[u8],
    tail: &[u8],
) -> io::Result<()>
    ensures { OnOk result (Appends (W.contents out.old) (W.contents out.new) (law.meant_hub spelled.now missing.now tail.now)) }
{
    write_six(
        out,
        wording::DID_YOU_MEAN,
        spelled,
        missing,
        tail,
        b"? ",
        b"",
    )
}

/// Writes these letters alone.
#[tactic(auto, unfolding(crate::specs::HubWords::meant_letters))]
fn write_meant_letters<W: Write>(out: &mut W, spelled: &[u8]) -> io::Result<()>
    ensures { OnOk result (Appends (W.contents out.old) (W.contents out.new) (law.meant_letters spelled.now)) }
{
    write_around(out, wording::DID_YOU_MEAN, spelled, b"? ")
}

/// Writes the hub that may be meant, if the panel has it, or else its letters.
#[tactic(auto, unfolding(crate::specs::HubWords::meant_words))]
fn write_meant<W: Write>(out: &mut W, letters: Letters, tail: &[u8]) -> io::Result<()>
    ensures { OnOk result (Appends (W.contents out.old) (W.contents out.new) (law.meant_words letters tail.now)) }
{
    if is_there(letters, tail) {
        write_meant_hub(out, letters.spelled().as_bytes(), missing_point(tail), tail)
    } else {
        write_meant_letters(out, letters.spelled().as_bytes())
    }
}

/// Writes the hub that may be meant, if the panel has it.
#[tactic(auto, unfolding(crate::specs::HubWords::pointed_words))]
fn write_pointed<W: Write>(out: &mut W, letters: Letters, tail: &[u8]) -> io::Result<()>
    ensures { OnOk result (Appends (W.contents out.old) (W.contents out.new) (law.pointed_words letters tail.now)) }
{
    if is_there(letters, tail) {
        write_meant_hub(out, letters.spelled().as_bytes(), missing_point(tail), tail)
    } else {
        out.write_all(b"")
    }
}

/// Writes what is wrong with a word that is no hub of the panel.
pub(crate) fn write_hub_wrong<W: Write>(out: &mut W, what: HubWord, word: &[u8]) -> io::Result<()>
    ensures { OnOk result (Appends (W.contents out.old) (W.contents out.new) (law.hub_wrong what word.now)) }
{
    match what {
        HubWord::There(_) => write_around(out, b"", word, wording::IS_A_HUB_OF_THE_PANEL),
        HubWord::OutOfRange(_) => write_around(out, wording::THE_PANEL_HAS_NO, word, b""),
        HubWord::Misnumbered(_) => write_around(out, b"", word, wording::IS_MISNUMBERED),
        HubWord::Misspelt(_) => {
            write_around(out, wording::NO_HUB_HAS_THE_LETTERS, letters_in(word), b"")
        }
        HubWord::Unknown => write_around(out, b"", word, wording::IS_NO_HUB),
    }
}

/// Writes what helps.
pub(crate) fn write_hub_cure<W: Write>(out: &mut W, what: HubWord, word: &[u8]) -> io::Result<()>
    ensures { OnOk result (Appends (W.contents out.old) (W.contents out.new) (law.hub_cure what word.now)) }
{
    match what {
        HubWord::There(letters) | HubWord::OutOfRange(letters) => write_has(out, letters),
        HubWord::Misnumbered(letters) => {
            write_pointed(out, letters, tail_of(word))?;
            write_has(out, letters)
        }
        HubWord::Misspelt(letters) => {
            write_meant(out, letters, tail_of(word))?;
            write_has(out, letters)
        }
        HubWord::Unknown => out.write_all(wording::A_HUB_IS),
    }
}
