//! The parts other than the counters that a setup shows.

ghost use Rattle.std.specs.Prelude.{◌≡◌, ◌≤◌, IfNone, IfOk, IfSome};
ghost use Rattle.match_plans.specs.NamingWires.{ShowsPartsOf};
ghost use Rattle.match_plans.specs.Renumbered.{AreShown, ShowsNoParts, TakesShown, with_numbers};
ghost use Rattle.match_plans.specs.Wired.{IsWiredBy};
ghost use Rattle.chart_plans.specs.PlansWords.PartNumbers.{AreThere, last_of};
ghost use Rattle.chart_plans.specs.PlansWords.Plans.{IsWithinMachine, Lists};
ghost use Rattle.hubs.specs.SetupsWords.Wiring.{Wiring};
ghost use Rattle.chart_plans.specs.WantedWords.Wanted.{parts_of};

use crate::compared::{near_positions, shown_positions};
use crate::near::filled;
use crate::pilots::{near_pilots, shown_pilots};
use crate::text_units::{near_units, shown_units};
use crate::wheel_parts::{near_indicates, near_splits, shown_indicates, shown_splits};
use chart_lines::charts::ControlLevel;
use chart_plans::plans::{PartKind, PartNumbers};
use chart_plans::wanted::Parts;
use chart_rules::Chart;
use hubs::setups::Setup;
use std::alloc::{AllocError, Global};

// How many parts of a kind the standard machine has.
fn last_of(kind: PartKind) -> u8
    ensures last { result ≡ last_of kind }
    ensures few { result ≤ 30 }
{
    match kind {
        PartKind::Pilot | PartKind::Split => 16,
        PartKind::Comparing | PartKind::Indicate(_) => 30,
        PartKind::Storage => 4,
    }
}

// The numbers of the parts of a kind that a setup shows, or for which most of its wires speak.
fn shown_or_near(
    alloc: Global,
    chart: &Chart,
    setup: &Setup,
    parts: &Parts,
    kind: PartKind,
) -> Result<Vec<Option<u8>>, AllocError> {
    match kind {
        PartKind::Pilot => near_pilots(alloc, chart, setup, parts.pilots()),
        PartKind::Comparing => near_positions(alloc, chart, setup),
        PartKind::Storage => near_units(alloc, chart, setup),
        PartKind::Split => near_splits(alloc, chart, setup),
        PartKind::Indicate(level) => near_indicates(alloc, chart, setup, level),
    }
}

// The numbers of the parts of a kind that a setup shows for some things, and free ones for the others; none where too few are left.
fn near_numbers(
    alloc: Global,
    chart: &Chart,
    setup: &Setup,
    parts: &Parts,
    kind: PartKind,
) -> Result<Option<Vec<u8>>, AllocError>
    ensures { IfOk result (λ numbers. IfSome numbers (λ list. AreThere (last_of kind) list.items)) }
{
    let shown = shown_or_near(alloc, chart, setup, parts, kind)?;
    filled(alloc, &shown, last_of(kind))
}

// These numbers, but of a kind those that are near to what a setup shows, where there are enough parts.
fn with_near(
    alloc: Global,
    chart: &Chart,
    setup: &Setup,
    parts: &Parts,
    kind: PartKind,
    numbers: PartNumbers,
) -> Result<PartNumbers, AllocError> {
    match near_numbers(alloc, chart, setup, parts, kind)? {
        Some(list) => Ok(numbers.with(kind, list)),
        None => Ok(numbers),
    }
}

// The numbers of the parts of a kind that a setup shows; none where it shows none for some thing.
fn shown_of(
    alloc: Global,
    chart: &Chart,
    setup: &Setup,
    parts: &Parts,
    kind: PartKind,
) -> Result<Option<Vec<u8>>, AllocError>
    requires { parts.now ≡ parts_of chart.now.lines }
    ensures there { IfOk result (λ shown. IfSome shown (λ list. AreThere (last_of kind) list.items)) }
    ensures shown { IfOk result (λ found. IfSome found (λ list. AreShown chart.now.lines setup.now kind list.items)) }
    ensures none { IfOk result (λ found. IfNone found (ShowsNoParts chart.now.lines setup.now)) }
{
    match kind {
        PartKind::Pilot => shown_pilots(alloc, chart, setup, parts.pilots()),
        PartKind::Comparing => shown_positions(alloc, chart, setup),
        PartKind::Storage => shown_units(alloc, chart, setup),
        PartKind::Split => shown_splits(alloc, chart, setup),
        PartKind::Indicate(level) => shown_indicates(alloc, chart, setup, level),
    }
}

// These numbers, but of a kind those that a setup shows, where it shows some, else near ones.
fn with_shown(
    alloc: Global,
    chart: &Chart,
    setup: &Setup,
    parts: &Parts,
    kind: PartKind,
    numbers: PartNumbers,
) -> Result<PartNumbers, AllocError>
    requires { parts.now ≡ parts_of chart.now.lines }
    ensures { IfOk result (λ told. (other : Wiring) (its : Lists) → ShowsPartsOf chart.now.lines setup.now other its
        → TakesShown chart.now.lines setup.now kind numbers told) }
{
    let shown = shown_of(alloc, chart, setup, parts, kind)?;
    match shown {
        Some(list) => Ok(numbers.with(kind, list)),
        None => with_near(alloc, chart, setup, parts, kind, numbers),
    }
}

/// The numbers of the parts that a setup shows for what a chart asks for; of a kind of which it shows none for some thing, those that it
/// shows for the others, and for that one for which its wires speak, else a free one.
pub(crate) fn shown_numbers(
    alloc: Global,
    chart: &Chart,
    setup: &Setup,
    parts: &Parts,
) -> Result<PartNumbers, AllocError>
    requires within { IsWithinMachine parts.now }
    requires wanted { parts.now ≡ parts_of chart.now.lines }
    ensures { IfOk result (λ numbers. (other : Wiring) (its : Lists) → ShowsPartsOf chart.now.lines setup.now other its
        → IsWiredBy chart.now.lines other (with_numbers its numbers)) }
{
    let none = PartNumbers::in_order(alloc, parts)?;
    let units = with_shown(alloc, chart, setup, parts, PartKind::Storage, none)?;
    let splits = with_shown(alloc, chart, setup, parts, PartKind::Split, units)?;
    let minor = PartKind::Indicate(ControlLevel::Minor);
    let minor = with_shown(alloc, chart, setup, parts, minor, splits)?;
    let intermediate = PartKind::Indicate(ControlLevel::Intermediate);
    let intermediate = with_shown(alloc, chart, setup, parts, intermediate, minor)?;
    let major = PartKind::Indicate(ControlLevel::Major);
    let major = with_shown(alloc, chart, setup, parts, major, intermediate)?;
    let positions = with_shown(alloc, chart, setup, parts, PartKind::Comparing, major)?;
    with_shown(alloc, chart, setup, parts, PartKind::Pilot, positions)
}
