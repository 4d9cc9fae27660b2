//! What is found of a compiled chart and a panel.

ghost use Rattle.std.specs.Prelude.{◌≡◌, IfErr, IfOk};
ghost use Rattle.std.specs.String.{string_bytes};
ghost use Rattle.cli_matching.specs.Helper.{IsFoundText};

use crate::match_reports::{Matching, match_compiled};
use crate::match_texts::{Counts, Telling, told_counts, told_text};
use crate::panels::Panels;
use fault_lines::faults::Fault;
use std::alloc::{AllocError, Global};

/// What is found of a compiled chart and a panel.
#[derive(Drop)]
pub(crate) struct Found {
    /// How much is missing and extra, where the panel is wired for the chart by no plan that is read off it.
    pub(crate) counts: Option<Counts>,
    /// What is printed: the plan, and what is missing and extra.
    pub(crate) text: String,
}

// Finds whether a panel is wired for a chart by some plan of it, and what is printed of that.
fn find(
    alloc: Global,
    telling: Telling,
    panels: &Panels,
    wiring: &[u8],
) -> Result<Found, AllocError>
    ensures { IfOk result (λ found. IsFoundText telling wiring.now panels.now.version panels.now.compiled panels.now.setup
        found.counts (string_bytes found.text)) }
{
    let matching = match_compiled(alloc, &panels.compiled, &panels.setup)?;
    let chart = panels.compiled.chart();
    let setup = &panels.setup;
    let text = told_text(
        alloc,
        telling,
        panels.version,
        chart,
        setup,
        wiring,
        &matching,
    )?;
    let counts = told_counts(&matching);
    Ok(Found { counts, text })
}

/// Finds whether a panel is wired for a chart by some plan of it, and what is printed of that. `wiring` is the text of the panel.
///
/// # Errors
///
/// `Memory` where a growth was refused.
pub(crate) fn found_of<'a>(
    alloc: Global,
    telling: Telling,
    panels: &Panels,
    wiring: &[u8],
) -> Result<Found, Fault<'a>>
    ensures found { IfOk result (λ found. IsFoundText telling wiring.now panels.now.version panels.now.compiled panels.now.setup
        found.counts (string_bytes found.text)) }
    ensures memory { IfErr result (λ told. told ≡ Fault.Memory) }
{
    Ok(find(alloc, telling, panels, wiring)?)
}
