//! Why a panel doesn't match a chart, and how that is told.

ghost use Rattle.std.specs.Prelude.{◌≡◌, OnOk};
ghost use Rattle.std.specs.Io.KnownBytes.{Appends};
ghost use Rattle.cli_matching.specs.Unmatched.{IsToldUnmatched, counts_line, figures_text, unmatched_line, unmatched_status};

use crate::match_decks::LinePlace;
use crate::match_texts::Counts;
use chart_numerals::write_numbered;
use fault_lines::faults::{Ending, Fault, write_line, write_place};
use std::io;
use std::io::Write;

/// Why a panel doesn't match a chart. Each is told on one line.
#[derive(Clone, Copy)]
pub enum Unmatched<'a> {
    /// A text is refused, the deck can't be read, the output can't be written, or memory ran out.
    Failed { fault: Fault<'a> },
    /// No plan is found by which the panel is wired for the chart; so much is missing and extra.
    Unwired { counts: Counts },
    /// Besides, the panel prints a deck otherwise than the chart's own, first at this place.
    PrintsOtherwise { place: LinePlace },
}

impl Unmatched<'_> {
    ghost use Rattle.std.specs.Prelude.{◌≡◌};
    ghost use Rattle.cli_matching.specs.Unmatched.{unmatched_status};

    /// The status of the program: 3 for a panel that is not wired for the chart, else that of the fault.
    pub fn status(&self) -> u8
        ensures { result ≡ unmatched_status self.now }
    {
        match self {
            Unmatched::Failed { fault } => fault.status(),
            Unmatched::Unwired { .. } | Unmatched::PrintsOtherwise { .. } => 3,
        }
    }
}

impl<'a> From<Fault<'a>> for Unmatched<'a> {
    ghost use Rattle.std.specs.Prelude.{◌≡◌};
    ghost use Rattle.cli_matching.specs.declared.unmatched.Unmatched.TheVariants.{Failed};

    ghost from_gives = { λ fault told. told ≡ Failed fault };

    fn from(fault: Fault<'a>) -> Self {
        Unmatched::Failed { fault }
    }
}

// Writes a number of a fault, and how much is missing and extra.
fn write_figures<V: Write>(number: u8, counts: Counts, out: &mut V) -> io::Result<()>
    ensures { OnOk result (Appends (V.contents out.old) (V.contents out.new) (figures_text number counts)) }
{
    write_numbered(out, "fault ", number)?;
    write_numbered(out, " missing ", counts.missing)?;
    write_numbered(out, " extra ", counts.extra)
}

// Writes the line that tells how much is missing and extra.
fn write_counts<V: Write>(counts: Counts, out: &mut V) -> io::Result<()>
    ensures { OnOk result (Appends (V.contents out.old) (V.contents out.new) (counts_line counts)) }
{
    write_figures(94, counts, out)?;
    out.write_all(b"\n")
}

/// Writes the line that tells why a panel doesn't match a chart, and LF.
///
/// # Errors
///
/// Where the writer fails. It may then have taken a part of the line.
pub fn write_unmatched<V: Write>(told: &Unmatched, out: &mut V) -> io::Result<()>
    ensures { OnOk result (Appends (V.contents out.old) (V.contents out.new) (unmatched_line told.now)) }
{
    match told {
        Unmatched::Failed { fault } => write_line(fault, out),
        Unmatched::Unwired { counts } => write_counts(*counts, out),
        Unmatched::PrintsOtherwise { place } => write_place(
            out,
            "fault 95 page ",
            place.page,
            place.line,
        ),
    }
}

/// Tells why a panel doesn't match a chart: the program ends with its status. Where the line can't be written, the status alone tells of it.
pub fn tell_unmatched<V: Write>(told: &Unmatched, faults: &mut V) -> Ending
    ensures status { result.status ≡ unmatched_status told.now }
    ensures line { IsToldUnmatched told.now result.is_told (V.contents faults.old) (V.contents faults.new) }
{
    let is_told = write_unmatched(told, faults).is_ok();
    let status = told.status();
    Ending { status, is_told }
}
