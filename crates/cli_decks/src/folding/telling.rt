//! What is told of the changes that were made.

ghost use Rattle.std.specs.Prelude.{◌≡◌, OnOk};
ghost use Rattle.std.specs.Io.KnownBytes.{Appends};
ghost use Rattle.cli_decks.specs.FoldingWords.ToldChanges.{changes_text, tally_line, words_of};

use crate::folding::changes::{Change, Tally};
use crate::folding::folding::Changes;
use chart_numerals::{write_between, write_numbered};
use std::io;
use std::io::Write;

// The words for a kind of change.
fn words_of(kind: Change) -> &'static str
    ensures { result.now ≡ words_of kind }
{
    match kind {
        Change::Capital => "small letters made capitals: ",
        Change::Blanks => "tabs made blanks: ",
        Change::Replaced => "other bytes replaced: ",
    }
}

// Writes the line of a kind of change, if it was made.
fn write_tally<W: Write>(out: &mut W, kind: Change, tally: &Tally) -> io::Result<()>
    ensures { OnOk result (Appends (W.contents out.old) (W.contents out.new) (tally_line kind tally.now.count tally.now.first)) }
{
    let Some(first) = tally.first else {
        return Ok(());
    };
    write_numbered(out, words_of(kind), tally.count)?;
    write_numbered(out, ", first in line ", first.line)?;
    write_between(out, " column ", first.column, "\n")
}

/// Writes a line for each kind of change that was made: how often, and where first.
///
/// # Errors
///
/// If the writer fails. It may then have taken a part of the lines.
pub fn write_changes<W: Write>(out: &mut W, changes: &Changes) -> io::Result<()>
    ensures { OnOk result (Appends (W.contents out.old) (W.contents out.new) (changes_text changes.now)) }
{
    write_tally(out, Change::Capital, &changes.capitals)?;
    write_tally(out, Change::Blanks, &changes.tabs)?;
    write_tally(out, Change::Replaced, &changes.others)
}
