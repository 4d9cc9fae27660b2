//! What stands on the line of a card: amounts in their zones, and texts on all other wheels.

ghost use Rattle.std.specs.Prelude.{◌≡◌, ℕ, IfOk, IfSome, OnOk};
ghost use Rattle.readback_panels.specs.Items.{Gains, IsCardAmount};
ghost use Rattle.readback_panels.specs.Shown.{GoesOn, GoesOnWith, IsColumnOn, IsPlainCell, IsStraight, IsTextCell, KeepsShown, RunShows, ShowsColumn, ShowsOutside};
ghost use Rattle.readback_panels.specs.Zones.{CoverLinks, IsInZone, IsRunOutside, IsTextOutside};
ghost use Rattle.hubs.specs.SetupsWords.Wiring.{Wiring};

use crate::chains::{Sign, amount_field, sign_by};
use crate::draft::{Draft, DraftField, Item, PrintedLine, Said};
use crate::hub_rows::{HubRow, lowest_exit};
use crate::zones::{Zone, is_in_zone};
use chart_lines::charts::{BodyLine, ControlLevel, FieldKind};
use hubs::Hub;
use hubs::setups::Setup;
use std::alloc::AllocError;

/// The line of a card.
pub(crate) const CARD: PrintedLine = PrintedLine::Body(BodyLine::Detail);

// The column whose digit rows stand on a wheel: it leads there itself, or through a split.
fn digit_column(setup: &Setup, wheel: u8) -> Option<u8> {
    match lowest_exit(setup, HubRow::Second, Hub::W(wheel)) {
        Some(column) => Some(column),
        None => {
            let split = lowest_exit(setup, HubRow::Digits, Hub::W(wheel))?;
            lowest_exit(setup, HubRow::Second, Hub::CSE(split))
        }
    }
}

// How many columns lead to the wheels of a zone, each the one before to the next position, from the last on.
fn columns_on(setup: &Setup, zone: Zone, last: u8) -> u8 {
    let most = zone.most_digits();
    for place in 0..8 {
        let column = digit_column(setup, zone.digit_wheel(place + 1));
        if place >= most || column != last.checked_sub(place) {
            return place;
        }
    }
    8
}

// The sign of the amount of a zone with a mark: with X the pilot leads the mark on while it is transferred, with NX while it is normal.
fn marked_sign(setup: &Setup, zone: Zone) -> Option<Sign> {
    let wheel = zone.units.saturating_add(1);
    match lowest_exit(setup, HubRow::Transferred(2), Hub::W(wheel)) {
        Some(pilot) => sign_by(setup, pilot, true),
        None => {
            let pilot = lowest_exit(setup, HubRow::Normal(2), Hub::W(wheel))?;
            sign_by(setup, pilot, false)
        }
    }
}

// Puts the amount of a zone on the line of a card, if one stands there.
fn put_amount(setup: &Setup, draft: &mut Draft, zone: Zone) -> Result<(), AllocError>
    ensures { OnOk result (Gains IsCardAmount draft.old draft.new) }
{
    let Some(last) = digit_column(setup, zone.units) else {
        return Ok(());
    };
    let digits = columns_on(setup, zone, last);
    let sign = match zone.mark {
        Some(_) => marked_sign(setup, zone),
        None => None,
    };
    let field = draft.card_field(amount_field(zone, last, digits, sign))?;
    draft.put(Item {
        line: CARD,
        first: zone.first_wheel(digits),
        last: zone.last,
        said: Said::Amount {
            field,
            digits,
            mark: zone.mark,
        },
    })
}

/// Puts the amounts of the zones on the line of a card.
pub(crate) fn put_amounts(
    setup: &Setup,
    zones: &[Zone],
    draft: &mut Draft,
) -> Result<(), AllocError>
    ensures { OnOk result (Gains IsCardAmount draft.old draft.new) }
{
    for zone in zones {
        put_amount(setup, draft, *zone)?;
    }
    Ok(())
}

// A column of a text, and the level at which it is indicated, if it is.
#[derive(Clone, Copy)]
struct Cell {
    column: u8,
    level: Option<ControlLevel>,
}

// The column that an indicate position of a level leads on to a wheel.
fn indicated_cell(setup: &Setup, wheel: u8, level: ControlLevel) -> Option<Cell> {
    let number = level.number();
    let position = lowest_exit(setup, HubRow::Indicated(number), Hub::W(wheel))?;
    let column = lowest_exit(setup, HubRow::Second, Hub::IE(number, position))?;
    Some(Cell {
        column,
        level: Some(level),
    })
}

// The column that an indicate position leads on to a wheel, of the lowest level that has such a one.
fn indicated_on(setup: &Setup, wheel: u8) -> Option<Cell> {
    for level in [
        ControlLevel::Minor,
        ControlLevel::Intermediate,
        ControlLevel::Major,
    ] {
        let cell = indicated_cell(setup, wheel, level);
        if cell.is_some() {
            return cell;
        }
    }
    None
}

// What the wires of a wheel show on the line of a card.
#[tactic(auto, using(crate::proofs::ColumnsShown::cell_found, crate::proofs::ColumnsShown::none_found))]
fn cell_on(setup: &Setup, wheel: u8) -> Option<Cell>
    ensures { (column : ℕ) → IsColumnOn setup.now wheel column → IsPlainCell result column }
{
    match lowest_exit(setup, HubRow::Second, Hub::W(wheel)) {
        Some(column) => Some(Cell {
            column,
            level: None,
        }),
        None => indicated_on(setup, wheel),
    }
}

// A text on the line of a card: a run of wheels and columns.
#[derive(Clone, Copy)]
struct Run {
    wheel: u8,
    first: u8,
    last_wheel: u8,
    last: u8,
    level: Option<ControlLevel>,
}

impl Run {
    ghost use Rattle.std.specs.Prelude.{◌≡◌, ◌+◌, true, None};
    ghost use Rattle.readback_panels.specs.Shown.{IsStraight, RunShows};

    // The run of one wheel.
    fn of_one(wheel: u8, cell: Cell) -> Run
        ensures first { result.wheel ≡ wheel }
        ensures last { result.last_wheel ≡ wheel }
        ensures straight { IsStraight result }
        ensures shows { cell.level ≡ None → RunShows result wheel cell.column }
    {
        Run {
            wheel,
            first: cell.column,
            last_wheel: wheel,
            last: cell.column,
            level: cell.level,
        }
    }

    // Whether a wheel goes on with it: it stands on the next wheel and shows the next column, at the same level.
    fn goes_on(self, wheel: u8, cell: Cell) -> bool
        ensures wheel { result ≡ true → wheel ≡ self.last_wheel + 1 }
        ensures column { result ≡ true → cell.column ≡ self.last + 1 }
        ensures level { result ≡ true → cell.level ≡ self.level }
    {
        wheel.checked_sub(1) == Some(self.last_wheel)
            && cell.column.checked_sub(1) == Some(self.last)
            && cell.level == self.level
    }
}

// Puts the text of a run on the line of a card.
fn put_run(draft: &mut Draft, run: Run) -> Result<(), AllocError>
    ensures gained { (setup : Wiring) → IsRunOutside setup run → OnOk result (Gains (IsTextOutside setup) draft.old draft.new) }
    ensures shows { IsStraight run → OnOk result ((wheel column : ℕ) → RunShows run wheel column → ShowsColumn draft.new wheel column) }
    ensures kept { OnOk result (KeepsShown draft.old draft.new) }
{
    let field = draft.card_field(DraftField {
        first: run.first,
        last: run.last,
        kind: FieldKind::Text,
        pilot: None,
    })?;
    draft.put(Item {
        line: CARD,
        first: run.wheel,
        last: run.last_wheel,
        said: Said::Text {
            field,
            indicated: run.level,
        },
    })
}

// The run with a further wheel, where that goes on with it; else the run is put on the line of a card, and a new one begins.
fn run_with(
    draft: &mut Draft,
    run: Option<Run>,
    wheel: u8,
    cell: Cell,
) -> Result<Option<Run>, AllocError>
    ensures run { (setup : Wiring) → IfSome run (IsRunOutside setup) → ¬ IsInZone setup wheel
        → IfOk result (λ next. IfSome next (IsRunOutside setup)) }
    ensures gained { (setup : Wiring) → IfSome run (IsRunOutside setup) → OnOk result (Gains (IsTextOutside setup) draft.old draft.new) }
    ensures goes_on { IfSome run IsStraight → IfOk result (GoesOnWith cell wheel draft.old run draft.new) }
{
    match run {
        Some(before) if before.goes_on(wheel, cell) => Ok(Some(Run {
            last_wheel: wheel,
            last: cell.column,
            ..before
        })),
        Some(before) => {
            put_run(draft, before)?;
            Ok(Some(Run::of_one(wheel, cell)))
        }
        None => Ok(Some(Run::of_one(wheel, cell))),
    }
}

// What the wires of a wheel that is in no zone show of a text.
fn text_on(setup: &Setup, zones: &[Zone], wheel: u8) -> Option<Cell>
    requires { CoverLinks setup.now zones.now }
    ensures outside { IfSome result (λ cell. ¬ IsInZone setup.now wheel) }
    ensures found { (column : ℕ) → IsTextCell setup.now zones.now wheel column → IsPlainCell result column }
{
    if is_in_zone(zones, wheel) {
        None
    } else {
        cell_on(setup, wheel)
    }
}

// The run behind a wheel, by a run behind the one before.
fn run_behind(
    setup: &Setup,
    zones: &[Zone],
    draft: &mut Draft,
    run: Option<Run>,
    wheel: u8,
) -> Result<Option<Run>, AllocError>
    requires zones { CoverLinks setup.now zones.now }
    requires run { IfSome run (IsRunOutside setup.now) }
    ensures run { IfOk result (λ next. IfSome next (IsRunOutside setup.now)) }
    ensures gained { OnOk result (Gains (IsTextOutside setup.now) draft.old draft.new) }
    ensures goes_on { IfSome run IsStraight → IfOk result (GoesOn setup.now zones.now wheel draft.old run draft.new) }
{
    match text_on(setup, zones, wheel) {
        Some(cell) => run_with(draft, run, wheel, cell),
        None => Ok(run),
    }
}

/// Puts the texts of all wheels that are in no zone on the line of a card.
pub(crate) fn put_texts(setup: &Setup, zones: &[Zone], draft: &mut Draft) -> Result<(), AllocError>
    requires { CoverLinks setup.now zones.now }
    ensures gained { OnOk result (Gains (IsTextOutside setup.now) draft.old draft.new) }
    ensures shows { OnOk result (ShowsOutside setup.now zones.now draft.new) }
{
    let mut run = None;
    for wheel in 1..121 {
        run = run_behind(setup, zones, draft, run, wheel)?;
    }
    match run {
        Some(last) => put_run(draft, last),
        None => Ok(()),
    }
}
