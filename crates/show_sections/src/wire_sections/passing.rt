//! Which printed characters have an impulse that came through a wire, or through a hub.

ghost use Rattle.std.specs.Prelude.{◌≡◌};
ghost use Rattle.std.specs.List.{list_any};
ghost use Rattle.net.specs.HubSets.{is_hub};
ghost use Rattle.show_sections.specs.WireSections.Passing.{came_through, goes_along, has_passed, leads_on, leads_through, visits};

use explain_words::explanation_text::ToldWheel;
use hubs::Hub;
use show_drawings::drawings::panel_drawing::{PanelWire, has_number};

/// A part of the panel through which impulses come.
#[derive(Clone, Copy, Debug)]
pub enum Part {
    /// A wire.
    Wire(PanelWire),
    /// The hub with this number.
    Hub(u32),
}

// Whether two hubs are the same hub of the panel.
fn is_hub(one: Hub, other: Hub) -> bool
    ensures { result ≡ is_hub one other }
{
    match (one.number(), other.number()) {
        (Some(number), Some(of_other)) => number == of_other,
        _ => false,
    }
}

// Whether a wire leads from a hub to the first of others.
fn leads_on(wire: PanelWire, hub: Hub, others: &[Hub]) -> bool
    ensures { result ≡ leads_on wire hub others.now }
{
    match others.first() {
        Some(next) => is_hub(wire.exit, hub) && is_hub(wire.entry, *next),
        None => false,
    }
}

// Whether a way goes along a wire.
fn goes_along(wire: PanelWire, way: &[Hub]) -> bool
    ensures { result ≡ goes_along wire way.now }
{
    let mut rest = way;
    while let Some((hub, others)) = rest.split_first() {
        if leads_on(wire, *hub, others) {
            return true;
        }
        rest = others;
    }
    false
}

// Whether a way goes over the hub with this number.
fn visits(number: u32, way: &[Hub]) -> bool
    ensures { result ≡ visits number way.now }
{
    for hub in way {
        if has_number(number, *hub) {
            return true;
        }
    }
    false
}

// Whether a way leads through a part of the panel.
fn leads_through(part: Part, way: &[Hub]) -> bool
    ensures { result ≡ leads_through part way.now }
{
    match part {
        Part::Wire(wire) => goes_along(wire, way),
        Part::Hub(number) => visits(number, way),
    }
}

// Whether the way at a row leads through a part of the panel.
fn has_passed(part: Part, row: &Option<Vec<Hub>>) -> bool
    ensures { result ≡ has_passed part row.now }
{
    match row {
        Some(way) => leads_through(part, way),
        None => false,
    }
}

// Whether the way at one of some rows leads through a part of the panel.
fn has_any_passed(part: Part, rows: &[Option<Vec<Hub>>]) -> bool
    ensures { result ≡ list_any (has_passed part) rows.now }
{
    for row in rows {
        if has_passed(part, row) {
            return true;
        }
    }
    false
}

// Whether a way to a wheel that is told of leads through a part of the panel.
pub(crate) fn came_through(part: Part, told: &ToldWheel) -> bool
    ensures { result ≡ came_through part told.now }
{
    has_any_passed(part, &told.why.rows)
}
