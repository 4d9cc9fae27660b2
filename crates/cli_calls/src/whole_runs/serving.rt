//! A run whose pages are printed once the deck has run whole, over any reader and writers.

ghost use Rattle.std.specs.Prelude.{◌≡◌, ◌≤◌, ◌⊎◌, IfErr, OnOk};
ghost use Rattle.fault_lines.specs.FaultsWords.Lines.{IsTold};
ghost use Rattle.cli_commands.specs.PanelGuides.Unexplained.{IsToldUnexplained, unexplained_status};
ghost use Rattle.fault_lines.specs.ProgramIo.Fronts.{WritesFront};
ghost use Rattle.cli_calls.specs.WholeRuns.Whole.{HasPrintedChosen, PrintsPages, StopsPages, StopsWhole, no_page};

use crate::whole_runs::pages::{PageRange, chosen_pages, has_page};
use cli_commands::commands::print_run;
use cli_commands::panel_guides::{Unexplained, tell_unexplained};
use fault_lines::faults::{Ending, Fault};
use fault_lines::program_io::put;
use std::alloc::Global;
use std::io::{Read, Write};

/// What is told of a page that a report doesn't have, as of its first line.
pub fn no_page<'a>(number: u64) -> Unexplained<'a>
    ensures { result ≡ no_page number }
{
    Unexplained::NoSuchLine {
        page: number,
        line: 1,
    }
}

// Prints the pages of a text that are in a range.
fn print_chosen<'a, W: Write>(
    text: &[u8],
    pages: PageRange,
    out: &mut W,
) -> Result<(), Unexplained<'a>>
    ensures printed { OnOk result (PrintsPages text.now pages (W.contents out.old) (W.contents out.new)) }
    ensures stopped { IfErr result (λ told. StopsPages text.now pages told (out.new ≡ out.old)) }
    ensures front { (out.new ≡ out.old) ⊎ WritesFront (PrintsPages text.now pages) (W.contents out.old) (W.contents out.new) }
{
    if !has_page(text, pages.first) {
        return Err(no_page(pages.first));
    }
    put(out, chosen_pages(text, pages))?;
    Ok(())
}

/// Runs the deck that a reader has left through a planning chart, and prints the pages that are in the range once the whole deck has run. The
/// report is held until then.
///
/// # Errors
///
/// As `print_run` of `cli_commands` tells, or `NoSuchLine` with the first page and line 1 if the report doesn't have that page, and nothing is
/// printed; `Memory` if a growth was refused and `Write` if the output can't be written, and then the front of the pages may have been
/// printed.
pub fn print_whole_run<'a, R: Read, W: Write>(
    alloc: Global,
    chart: &[u8],
    deck: &mut R,
    pages: PageRange,
    out: &mut W,
) -> Result<(), Unexplained<'a>>
    ensures printed { OnOk result (HasPrintedChosen chart.now (R.remaining deck.old) pages (W.contents out.old) (W.contents out.new)) }
    ensures stopped { IfErr result (λ told.
        StopsWhole chart.now (R.remaining deck.old) (R.remaining deck.new) pages told (out.new ≡ out.old)) }
    ensures front { (out.new ≡ out.old)
        ⊎ WritesFront (HasPrintedChosen chart.now (R.remaining deck.old) pages) (W.contents out.old) (W.contents out.new) }
{
    let mut report = Vec::new(alloc);
    print_run(alloc, chart, deck, &mut report)?;
    print_chosen(report.as_slice(), pages, out)
}

/// Runs a deck as [`print_whole_run`] does, and tells on one line of `faults` why the pages were not printed.
///
/// The statuses are 0 done, and then nothing is told, 3 refused input, a first page that the report doesn't have among it, 4 file fault, 5
/// memory. Nothing is printed by status 3, nor if the deck can't be read further. If the output can't be written or memory runs out, the
/// front of the pages may have been.
pub fn run_whole_to_end<R: Read, W: Write, V: Write>(
    alloc: Global,
    chart: &[u8],
    deck: &mut R,
    pages: PageRange,
    out: &mut W,
    faults: &mut V,
) -> Ending
    ensures done { result.status ≡ 0 → HasPrintedChosen chart.now (R.remaining deck.old) pages (W.contents out.old) (W.contents out.new)
        × (faults.new ≡ faults.old) }
    ensures stopped { 3 ≤ result.status → (told : Unexplained) × (result.status ≡ unexplained_status told)
        × StopsWhole chart.now (R.remaining deck.old) (R.remaining deck.new) pages told (out.new ≡ out.old)
        × IsToldUnexplained told result.is_told (V.contents faults.old) (V.contents faults.new) }
    ensures unprinted { result.status ≡ 3 → out.new ≡ out.old }
    ensures front { (out.new ≡ out.old)
        ⊎ WritesFront (HasPrintedChosen chart.now (R.remaining deck.old) pages) (W.contents out.old) (W.contents out.new) }
    ensures memory { result.status ≡ 5 → IsTold Fault.Memory result.is_told (V.contents faults.old) (V.contents faults.new) }
    ensures statuses { (result.status ≡ 0) ⊎ (3 ≤ result.status × result.status ≤ 5) }
{
    match print_whole_run(alloc, chart, deck, pages, out) {
        Ok(()) => Ending {
            status: 0,
            is_told: true,
        },
        Err(told) => tell_unexplained(&told, faults),
    }
}
