//! The storage units that a setup shows.

ghost use Rattle.std.specs.Prelude.{◌≡◌, ◌↔◌, ◌≤◌, ℕ, IsTrue, IfNone, IfOk, IfSome};
ghost use Rattle.match_plans.specs.Shown.{ShowsText};
ghost use Rattle.match_plans.specs.Texts.{text_of};
ghost use Rattle.match_plans.specs.Renumbered.{AreShown, ShowsNoParts};
ghost use Rattle.chart_plans.specs.PlansWords.PartNumbers.{AreThere};

use chart_lines::charts::Statement;
use chart_plans::plans::PartKind;
use chart_rules::Chart;
use hubs::Hub;
use hubs::setups::Setup;
use std::alloc::{AllocError, Global};

/// Where a text on a total line stands.
#[derive(Clone, Copy)]
pub struct TextPlace {
    /// The number of its level, 1 to 4.
    pub level: u8,
    /// The wheel of its first character.
    pub wheel: u16,
}

// The text that a line of a chart puts on a total line, if it is one.
fn text_of(statement: &Statement) -> Option<TextPlace>
    ensures { result ≡ text_of statement.now }
{
    match statement {
        Statement::TotalText { level, wheel, .. } => Some(TextPlace {
            level: level.number(),
            wheel: *wheel,
        }),
        _ => None,
    }
}

// Whether a storage unit shows a text of a level from a wheel on.
fn shows_text(setup: &Setup, level: u8, wheel: u8, unit: u8) -> bool
    ensures { IsTrue result ↔ ShowsText setup.now level wheel unit }
{
    setup.has(Hub::PX(level, 3), Hub::SO(unit)) && setup.has(Hub::SX(unit, 1), Hub::W(wheel))
}

// The storage unit that shows a text of a level from a wheel on, if there is one: the first by number.
fn unit_showing(setup: &Setup, level: u8, wheel: u8) -> Option<u8>
    ensures there { IfSome result (λ unit. (1 ≤ unit) × (unit ≤ 4)) }
    ensures shown { IfSome result (ShowsText setup.now level wheel) }
    ensures none { IfNone result ((unit : ℕ) → 1 ≤ unit → unit ≤ 4 → ¬ ShowsText setup.now level wheel unit) }
{
    for place in 0..4 {
        if shows_text(setup, level, wheel, place + 1) {
            return Some(place + 1);
        }
    }
    None
}

// The storage unit that shows a text, if there is one.
fn shown_unit(setup: &Setup, text: TextPlace) -> Option<u8>
    ensures there { IfSome result (λ unit. (1 ≤ unit) × (unit ≤ 4)) }
    ensures shown { IfSome result (ShowsText setup.now text.level text.wheel) }
    ensures none { IfNone result ((unit : ℕ) → 1 ≤ unit → unit ≤ 4 → ¬ ShowsText setup.now text.level text.wheel unit) }
{
    if text.wheel < 256 {
        unit_showing(setup, text.level, text.wheel as u8)
    } else {
        None
    }
}

/// The storage units that a setup shows for the texts on the total lines of a chart, in the order of their lines; none where it shows
/// none for one of them.
pub(crate) fn shown_units(
    alloc: Global,
    chart: &Chart,
    setup: &Setup,
) -> Result<Option<Vec<u8>>, AllocError>
    ensures there { IfOk result (λ shown. IfSome shown (λ list. AreThere 4 list.items)) }
    ensures shown { IfOk result (λ found. IfSome found (λ list. AreShown chart.now.lines setup.now PartKind.Storage list.items)) }
    ensures none { IfOk result (λ found. IfNone found (ShowsNoParts chart.now.lines setup.now)) }
{
    let lines = chart.lines();
    let mut units = Vec::new(alloc);
    for line in lines {
        if let Some(text) = text_of(&line.statement) {
            match shown_unit(setup, text) {
                Some(unit) => units.push(unit)?,
                None => return Ok(None),
            }
        }
    }
    Ok(Some(units))
}

// Whether most wires of a text speak for a storage unit: it takes the first column, and one of the wires that show the text is there.
fn is_near(setup: &Setup, text: TextPlace, column: u16, unit: u8) -> bool {
    if text.wheel > 255 || column > 255 {
        return false;
    }
    let takes = setup.has(Hub::SR(column as u8), Hub::SE(unit, 1));
    let gives = setup.has(Hub::PX(text.level, 3), Hub::SO(unit));
    let prints = setup.has(Hub::SX(unit, 1), Hub::W(text.wheel as u8));
    takes && (gives || prints)
}

// The first column of the field of a text on a total line; 0 where there is none.
fn first_column(chart: &Chart, statement: &Statement) -> u16 {
    match statement {
        Statement::TotalText { name, .. } => match chart.field(*name) {
            Some(field) => field.first,
            None => 0,
        },
        _ => 0,
    }
}

// The storage unit that is shown for a text, else one for which most of its wires speak.
fn near_unit(setup: &Setup, text: TextPlace, column: u16) -> Option<u8> {
    let shown = shown_unit(setup, text);
    if shown.is_some() {
        return shown;
    }
    for place in 0..4 {
        if is_near(setup, text, column, place + 1) {
            return Some(place + 1);
        }
    }
    None
}

/// The storage unit that a setup shows for each text on a total line, or for which most of its wires speak, in the order of their lines.
pub(crate) fn near_units(
    alloc: Global,
    chart: &Chart,
    setup: &Setup,
) -> Result<Vec<Option<u8>>, AllocError> {
    let mut near = Vec::new(alloc);
    for line in chart.lines() {
        if let Some(text) = text_of(&line.statement) {
            let column = first_column(chart, &line.statement);
            near.push(near_unit(setup, text, column))?;
        }
    }
    Ok(near)
}
