//! Reading a panel.

ghost use Rattle.std.specs.Prelude.{◌≡◌, ◌++◌, All, List, IfOk, OnOk};
ghost use Rattle.hubs.specs.declared.jack.Jack.TheVariants as jack;
ghost use Rattle.readback_panels.specs.Lines.{AreOf, EndsWithForm};
ghost use Rattle.readback_panels.specs.Reads.{AreRead};
ghost use Rattle.readback_panels.specs.Shown.{IsAmountZone, ShowsColumns, ShowsOutside};
ghost use Rattle.readback_panels.specs.Zones.{CoverLinks};
ghost use Rattle.readback_panels.specs.declared.zones.Zone.{Zone};
ghost use Rattle.hubs.specs.SetupsWords.Wiring.{HasJack, Wiring};

use crate::card_line::{put_amounts, put_texts};
use crate::chains::put_chains;
use crate::control_fields::put_controls;
use crate::draft::Draft;
use crate::lines::{DraftLine, lines_of};
use crate::literals::put_literals;
use crate::totals::{Total, totals_of};
use crate::zones::{Zone, zones_of};
use hubs::Jack;
use hubs::setups::Setup;
use std::alloc::{AllocError, Global};

/// How many lines a chart has at most, but for the first and END.
const MOST_LINES: usize = 498;

// Adds the zone of a total whose units stand on a wheel, where it isn't there.
fn add_zone_at(zones: &mut Vec<Zone>, totals: &[Total], wheel: u8) -> Result<(), AllocError>
    ensures gained { OnOk result ((more : List Zone) × (zones.new.items ≡ zones.old.items ++ more)) }
    ensures amounts { (setup : Wiring) → All (λ total. IsAmountZone setup total.zone) totals.now
        → All (IsAmountZone setup) zones.old.items → OnOk result (All (IsAmountZone setup) zones.new.items) }
{
    for total in totals {
        if total.zone.units == wheel && !zones.contains(&total.zone) {
            zones.push(total.zone)?;
        }
    }
    Ok(())
}

// Adds a zone of one wheel for each total that stands on a wheel alone, from the left.
fn add_small_zones(zones: &mut Vec<Zone>, totals: &[Total]) -> Result<(), AllocError>
    ensures gained { OnOk result ((more : List Zone) × (zones.new.items ≡ zones.old.items ++ more)) }
    ensures amounts { (setup : Wiring) → All (λ total. IsAmountZone setup total.zone) totals.now
        → All (IsAmountZone setup) zones.old.items → OnOk result (All (IsAmountZone setup) zones.new.items) }
{
    for wheel in 1..121 {
        add_zone_at(zones, totals, wheel)?;
    }
    Ok(())
}

// Puts what stands on the line of a card there, if it is printed.
fn put_card_line(setup: &Setup, zones: &[Zone], draft: &mut Draft) -> Result<(), AllocError>
    requires zones { CoverLinks setup.now zones.now }
    requires read { AreRead setup.now draft.old }
    ensures read { OnOk result (AreRead setup.now draft.new) }
    ensures shows { HasJack setup.now jack.List → OnOk result (ShowsOutside setup.now zones.now draft.new) }
{
    if !setup.has_jack(Jack::List) {
        return Ok(());
    }
    put_amounts(setup, zones, draft)?;
    put_texts(setup, zones, draft)
}

// The draft of the chart of a setup; in its literals at most so many blanks stand side by side.
fn drafted(alloc: Global, setup: &Setup, most_blanks: u8) -> Result<Draft, AllocError>
    ensures read { IfOk result (AreRead setup.now) }
    ensures shows { HasJack setup.now jack.List → IfOk result (ShowsColumns setup.now) }
{
    let mut draft = Draft::new(alloc);
    let mut zones = zones_of(alloc, setup)?;
    let totals = totals_of(alloc, setup, zones.as_slice())?;
    add_small_zones(&mut zones, totals.as_slice())?;
    put_chains(setup, totals.as_slice(), &mut draft)?;
    put_card_line(setup, zones.as_slice(), &mut draft)?;
    put_controls(alloc, setup, &mut draft)?;
    put_literals(alloc, setup, &mut draft, most_blanks)?;
    Ok(draft)
}

/// What is read of a panel: a draft of its chart, and the lines of that.
#[derive(Drop)]
pub struct Reading {
    /// The draft.
    pub draft: Draft,
    /// Its lines.
    pub lines: Vec<DraftLine>,
}

// Reads a panel, with literals of at most so many blanks side by side.
fn read_with(alloc: Global, setup: &Setup, most_blanks: u8) -> Result<Reading, AllocError>
    ensures read { IfOk result (λ reading. AreRead setup.now reading.draft) }
    ensures shows { HasJack setup.now jack.List → IfOk result (λ reading. ShowsColumns setup.now reading.draft) }
    ensures of { IfOk result (λ reading. AreOf reading.draft reading.lines.items) }
    ensures form { IfOk result (λ reading. EndsWithForm setup.now.tape reading.lines.items) }
{
    let draft = drafted(alloc, setup, most_blanks)?;
    let lines = lines_of(alloc, setup, &draft)?;
    Ok(Reading { draft, lines })
}

/// Reads a panel: the draft of the chart whose wiring it is, if it is one of a chart. Literals side by side with one blank between are one;
/// where the chart would have more lines than a chart can have, those with more blanks are too. Its only refusal is memory.
///
/// Each item of the draft is a total that the third program cycle of its line's level reads out, an amount on the line of a card, a text on
/// that line where the jacks show no amount, a text on a total line, or a literal. If LIST is plugged, no column is overlooked: on each wheel
/// on which the panel shows no amount, a text on the line of a card shows the lowest column at second reading that leads there. Each line
/// speaks of a field, a control field or an item of the draft, if of any, and the last one is the panel's form. That it is the chart whose
/// wiring the panel is isn't said: whoever wants to know matches the two.
pub fn read_panel(alloc: Global, setup: &Setup) -> Result<Reading, AllocError>
    ensures read { IfOk result (λ reading. AreRead setup.now reading.draft) }
    ensures shows { HasJack setup.now jack.List → IfOk result (λ reading. ShowsColumns setup.now reading.draft) }
    ensures of { IfOk result (λ reading. AreOf reading.draft reading.lines.items) }
    ensures form { IfOk result (λ reading. EndsWithForm setup.now.tape reading.lines.items) }
{
    let reading = read_with(alloc, setup, 1)?;
    if reading.lines.len() <= MOST_LINES {
        Ok(reading)
    } else {
        read_with(alloc, setup, 120)
    }
}
