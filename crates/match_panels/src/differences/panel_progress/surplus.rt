//! The lines of a wiring chart that are extra.

ghost use Rattle.std.specs.Prelude.{◌≡◌, ◌++◌, IfOk, OnOk};
ghost use Rattle.std.specs.String.{string_bytes};
ghost use Rattle.card_code.specs.Lines.{lines_of};
ghost use Rattle.match_panels.specs.DifferencesWords.PanelProgress.ExtraLines as law;
ghost use Rattle.match_panels.specs.DifferencesWords.PanelProgress.ExtraLines.{AreToldLines, IsExtra, is_all_extra};
ghost use Rattle.match_panels.specs.DifferencesWords.PanelProgress.Helper.{GainsTold, SaysAlone};
ghost use Rattle.wire_chart.specs.WrittenText.{ended, title_line};

use crate::differences::{difference, size};
use card_code::next_line;
use chart_numerals::push_between;
use hubs::setups::Setup;
use std::alloc::{AllocError, Global};
use wire_chart::{Version, WiringFault, read_setup, write_parts};

// The first line of a wiring chart in a version.
fn title(version: Version) -> &'static [u8]
    ensures { result.now ≡ ended (title_line version) }
{
    match version {
        Version::First => b"WIRING407 1\n",
        Version::Second => b"WIRING407 2\n",
    }
}

// The wiring chart that has a line alone.
fn alone(alloc: Global, version: Version, line: &[u8]) -> Result<Vec<u8>, AllocError>
    ensures { IfOk result (λ text. text.items ≡ law.alone version line.now) }
{
    let mut text = Vec::new(alloc);
    text.extend_from_slice(title(version))?;
    text.extend_from_slice(b"FORM 144 1 144\n")?;
    text.extend_from_slice(line)?;
    text.extend_from_slice(b"\nEND\n")?;
    Ok(text)
}

// What a line of a wiring chart reads as alone; none if it says nothing.
fn read_alone(alloc: Global, version: Version, line: &[u8]) -> Result<Option<Setup>, AllocError>
    ensures { IfOk result (SaysAlone version line.now) }
{
    let text = alone(alloc, version, line)?;
    match read_setup(alloc, text.as_slice()) {
        Ok(one) => Ok(Some(one)),
        Err(fault) => match fault {
            WiringFault::Memory => Err(AllocError),
            _ => Ok(None),
        },
    }
}

// Whether something is there, and none of it is asked for.
fn is_all_extra(size: u32, asked_for: u32) -> bool
    ensures { result ≡ is_all_extra size asked_for }
{
    0 < size && asked_for == 0
}

#[tactic(auto, using(crate::proofs::DifferencesWords::PanelProgress::Telling::extra_known))]
// Whether a setup has something, and all of that is extra.
fn is_extra(alloc: Global, one: &Setup, extra: &Setup) -> Result<bool, AllocError>
    ensures { IfOk result (IsExtra one.now extra.now) }
{
    let left = difference(alloc, one, extra)?;
    Ok(is_all_extra(size(one), size(&left)))
}

#[tactic(auto, using(crate::proofs::DifferencesWords::PanelProgress::Telling::nothing_said, crate::proofs::DifferencesWords::PanelProgress::Telling::asked_for, crate::proofs::DifferencesWords::PanelProgress::Telling::told_extra))]
// Writes the line with a number, if what it says is extra.
fn write_if_extra(
    alloc: Global,
    text: &mut String,
    version: Version,
    extra: &Setup,
    number: u64,
    line: &[u8],
) -> Result<(), AllocError>
    ensures { OnOk result (GainsTold version extra.now number line.now (string_bytes text.old) (string_bytes text.new)) }
{
    let Some(one) = read_alone(alloc, version, line)? else {
        return Ok(());
    };
    if !is_extra(alloc, &one, extra)? {
        return Ok(());
    }
    push_between(text, "line ", number, ": ")?;
    write_parts(text, version, &one)
}

#[tactic(auto, using(crate::proofs::DifferencesWords::PanelProgress::Telling::begins))]
/// The lines of a wiring chart that say something that is extra, each with its number, from 1, and spelled as in a wiring chart:
/// `line 14: WIRE FR.5 GE.4.3.1`. `extra` is what is extra of the setup that the text reads as. Its only refusal is memory.
pub fn extra_lines(
    alloc: Global,
    version: Version,
    extra: &Setup,
    wiring: &[u8],
) -> Result<String, AllocError>
    ensures { IfOk result (λ text. AreToldLines version extra.now 1 (lines_of wiring.now) (string_bytes text)) }
{
    let mut text = String::new(alloc);
    let mut number = 0;
    let mut rest = wiring;
    while let Some((line, after)) = next_line(rest) {
        number += 1;
        write_if_extra(alloc, &mut text, version, extra, number, line)?;
        rest = after;
    }
    Ok(text)
}
