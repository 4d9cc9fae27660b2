//! The list of all faults of a text.

ghost use Rattle.std.specs.Prelude.{◌≡◌, ◌⊎◌, true, false, IfErr, OnOk};
ghost use Rattle.fault_lines.specs.FaultsWords.Lines.{IsTold};
ghost use Rattle.fault_lines.specs.FaultsWords.Status.{status_of};
ghost use Rattle.cli_commands.specs.PanelGuides.Panels.{is_wiring_text};
ghost use Rattle.fault_lists.specs.TextLists.Endings.{AnswersText, AnswersWired, EndsText, EndsWiring, ListsFaults};

use crate::list_chart;
use cli_commands::panel_guides::is_wiring_text;
use fault_lines::faults::{Ending, Fault, tell, unprinted};
use fault_lines::program_io::put;
use fault_wiring_slips::wiring_faults;
use fault_wiring_words::write_wiring_list;
use std::alloc::Global;
use std::io::Write;
use wiring_text::WiringFault;

// Lists faults of a text, and answers what is told of the first.
fn told_faults<'a, W: Write>(
    out: &mut W,
    text: &[u8],
    good: &[u8],
    faults: &[WiringFault],
    first: WiringFault,
) -> Fault<'a>
    ensures { ListsFaults text.now good.now faults.now first (W.contents out.old) (W.contents out.new) result }
{
    match write_wiring_list(out, text, good, faults) {
        Ok(()) => first.into(),
        Err(error) => unprinted(&error),
    }
}

/// Lists all faults of a wiring chart on `out`, or writes `ok`.
///
/// # Errors
///
/// The fault that `read_setup` tells of the text, behind its list; `Memory` where a growth was refused and `Write` where the output can't be
/// written, and then a front of the list may have been.
pub fn list_wiring<'a, W: Write>(alloc: Global, text: &[u8], out: &mut W) -> Result<(), Fault<'a>>
    ensures fine { OnOk result (AnswersWired text.now (W.contents out.old) (W.contents out.new)) }
    ensures ends { IfErr result (λ told. EndsWiring text.now (W.contents out.old) (W.contents out.new) told) }
{
    let found = wiring_faults(alloc, text)?;
    let faults = found.faults.as_slice();
    match faults {
        [] => put(out, b"ok\n"),
        [first, ..] => Err(told_faults(out, text, found.good.as_slice(), faults, *first)),
    }
}

// Lists all faults of a wiring chart.
fn list_wired<'a, W: Write>(alloc: Global, text: &[u8], out: &mut W) -> Result<(), Fault<'a>>
    requires { is_wiring_text text.now ≡ true }
    ensures fine { OnOk result (AnswersText text.now (W.contents out.old) (W.contents out.new)) }
    ensures ends { IfErr result (λ told. EndsText text.now (W.contents out.old) (W.contents out.new) told) }
{
    list_wiring(alloc, text, out)
}

// Lists all faults of a planning chart.
fn list_planned<'a, W: Write>(alloc: Global, text: &[u8], out: &mut W) -> Result<(), Fault<'a>>
    requires { is_wiring_text text.now ≡ false }
    ensures fine { OnOk result (AnswersText text.now (W.contents out.old) (W.contents out.new)) }
    ensures ends { IfErr result (λ told. EndsText text.now (W.contents out.old) (W.contents out.new) told) }
{
    list_chart(alloc, text, out)
}

/// Lists all faults of a wiring chart or of a planning chart, as [`is_wiring_text`] tells them apart, or writes `ok`.
///
/// # Errors
///
/// The one fault of the text, behind its list; `Memory` where a growth was refused and `Write` where the output can't be written, and then
/// a front of the list may have been.
pub fn list_text<'a, W: Write>(alloc: Global, text: &[u8], out: &mut W) -> Result<(), Fault<'a>>
    ensures fine { OnOk result (AnswersText text.now (W.contents out.old) (W.contents out.new)) }
    ensures ends { IfErr result (λ told. EndsText text.now (W.contents out.old) (W.contents out.new) told) }
{
    if is_wiring_text(text) {
        list_wired(alloc, text, out)
    } else {
        list_planned(alloc, text, out)
    }
}

/// Lists all faults of a wiring chart or of a planning chart, as [`list_text`] does, and tells on one line of `faults` the one fault of the
/// text.
///
/// The statuses are 0 where the answer is `ok`, and then nothing is told, 3 where the text is at fault, 4 where the output can't be
/// written, 5 for memory.
pub fn list_text_to_end<W: Write, V: Write>(
    alloc: Global,
    text: &[u8],
    out: &mut W,
    faults: &mut V,
) -> Ending
    ensures fine { result.status ≡ 0
        → AnswersText text.now (W.contents out.old) (W.contents out.new) × (faults.new ≡ faults.old) }
    ensures ends { (result.status ≡ 0) ⊎ ((told : Fault) × (result.status ≡ status_of told)
        × EndsText text.now (W.contents out.old) (W.contents out.new) told
        × IsTold told result.is_told (V.contents faults.old) (V.contents faults.new)) }
{
    match list_text(alloc, text, out) {
        Ok(()) => Ending {
            status: 0,
            is_told: true,
        },
        Err(fault) => tell(&fault, faults),
    }
}
