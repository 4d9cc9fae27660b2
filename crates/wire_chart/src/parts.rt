//! Writing what a setup has, without the frame of a wiring chart.

ghost use Rattle.std.specs.Prelude.{OnOk};
ghost use Rattle.std.specs.String.{string_bytes};
ghost use Rattle.wire_chart.specs.Parts.{GainsParts};

use crate::write::{write_all_wires, write_jacks, write_stops};
use hubs::setups::Setup;
use std::alloc::AllocError;
use wiring_text::Version;

/// Adds the lines of a setup's stops, jacks and wires to a text, in the order and the spelling of a wiring chart in a version of the
/// language: no first line, no form and no END.
///
/// Fails only where memory was refused; the text may then have gained some of the lines.
pub fn write_parts(text: &mut String, version: Version, setup: &Setup) -> Result<(), AllocError>
    ensures { OnOk result (GainsParts version setup.now (string_bytes text.old) (string_bytes text.new)) }
{
    write_stops(text, setup.tape())?;
    write_jacks(text, setup)?;
    write_all_wires(text, version, setup)?;
    Ok(())
}
