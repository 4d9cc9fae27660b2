//! Who asks for the wires of a way.

ghost use Rattle.std.specs.Prelude.{◌≡◌, ◌++◌, OnOk};
ghost use Rattle.std.specs.String.{string_bytes};
ghost use Rattle.explain_words.specs.ExplanationText.Asked.{asked_line, asked_lines, has_wire_of, leads_on};

use crate::explanation_text::lines::write_line;
use hubs::Hub;
use hubs::setups::Setup;
use std::alloc::AllocError;

// Whether a wire of a setup leads from a hub to the first of others.
fn leads_on(setup: &Setup, hub: Hub, others: &[Hub]) -> bool
    ensures { result ≡ leads_on setup.now hub others.now }
{
    match others.first() {
        Some(next) => setup.has(hub, *next),
        None => false,
    }
}

// Whether a setup has a wire of a way, which leads from one of its hubs to the next.
fn has_wire_of(setup: &Setup, way: &[Hub]) -> bool
    ensures { result ≡ has_wire_of setup.now way.now }
{
    for step in 0..way.len() {
        if leads_on(setup, way[step], &way[step + 1..]) {
            return true;
        }
    }
    false
}

// A line that names one who asks, where it asks for a wire of a way.
fn write_asked_by(
    text: &mut String,
    words: &str,
    setup: &Setup,
    way: &[Hub],
) -> Result<(), AllocError>
    ensures { OnOk result (string_bytes text.new ≡ string_bytes text.old ++ asked_line words.now setup.now way.now) }
{
    if !has_wire_of(setup, way) {
        return Ok(());
    }
    write_line(text, "  wires: ", words)
}

#[tactic(auto, using(crate::proofs::ExplanationText::Gains::asked_more))]
// The lines of all who ask for a wire of a way.
pub(crate) fn write_asked(
    text: &mut String,
    asked: &[(String, Setup)],
    way: &[Hub],
) -> Result<(), AllocError>
    ensures { OnOk result (string_bytes text.new ≡ string_bytes text.old ++ asked_lines asked.now way.now) }
{
    for (words, setup) in asked {
        write_asked_by(text, words, setup, way)?;
    }
    Ok(())
}
