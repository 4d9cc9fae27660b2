//! The totals of an amount, from the lowest on: the cards enter the first, and each goes up into the next.

ghost use Rattle.std.specs.Prelude.{All, IfSome, OnOk};
ghost use Rattle.readback_panels.specs.Chains.{GainsChain, GainsChains, GainsTotal, GoesUp, IsReadOut};
ghost use Rattle.readback_panels.specs.declared.totals.Total.{Total};

use crate::draft::{Draft, DraftField, Item, PrintedLine, Said};
use crate::hub_rows::{HubRow, lowest_exit};
use crate::totals::{LEVELS, Total};
use crate::zones::Zone;
use chart_lines::charts::{BodyLine, FieldKind, Level, SignRule};
use hubs::setups::Setup;
use hubs::{Group, Hub};
use std::alloc::AllocError;

/// How the sign of an amount is told.
#[derive(Clone, Copy)]
pub(crate) struct Sign {
    /// The rule and its column.
    pub(crate) rule: SignRule,
    /// The pilot that is picked up.
    pub(crate) pilot: u8,
}

/// The sign that a pilot tells: its column is the lowest at first reading that picks it up.
pub(crate) fn sign_by(setup: &Setup, pilot: u8, is_transferred: bool) -> Option<Sign> {
    let column = u16::from(lowest_exit(setup, HubRow::First, Hub::PIX(pilot))?);
    let rule = if is_transferred {
        SignRule::X(column)
    } else {
        SignRule::NX(column)
    };
    Some(Sign { rule, pilot })
}

// The sign of an amount that a counter group adds: with X the pilot tells the group to add while it is normal, with NX while it is transferred.
fn entered_sign(setup: &Setup, group: Group) -> Option<Sign> {
    match lowest_exit(setup, HubRow::Normal(1), Hub::PL(group)) {
        Some(pilot) => sign_by(setup, pilot, true),
        None => {
            let pilot = lowest_exit(setup, HubRow::Transferred(1), Hub::PL(group))?;
            sign_by(setup, pilot, false)
        }
    }
}

/// The field of an amount in columns that end with one, so many of them.
pub(crate) fn amount_field(zone: Zone, last: u8, digits: u8, sign: Option<Sign>) -> DraftField {
    DraftField {
        first: last.saturating_sub(digits.saturating_sub(1)),
        last,
        kind: FieldKind::Amount {
            decimals: u16::from(zone.decimals),
            sign: sign.map(|its| its.rule),
        },
        pilot: sign.map(|its| its.pilot),
    }
}

// How many columns enter a counter, each the one before into the next position, from the last on.
fn columns_into(setup: &Setup, total: Total, last: u8) -> u8 {
    for place in 0..8 {
        let position = place + 1;
        let column = last.saturating_sub(place);
        if position > total.counter.size()
            || !setup.has(Hub::SR(column), total.counter.entry(position))
        {
            return place;
        }
    }
    8
}

// The field whose columns enter a counter, if some do.
fn entered_field(setup: &Setup, total: Total) -> Option<DraftField> {
    let last = lowest_exit(setup, HubRow::Second, total.counter.entry(1))?;
    let digits = columns_into(setup, total, last);
    let sign = match total.zone.mark {
        Some(_) => entered_sign(setup, total.counter.lower),
        None => None,
    };
    Some(amount_field(total.zone, last, digits, sign))
}

// The total of a higher level into which a total goes.
fn next_total(setup: &Setup, totals: &[Total], from: Total) -> Option<Total>
    requires { All (IsReadOut setup.now) totals.now }
    ensures up { IfSome result (GoesUp setup.now from) }
    ensures out { IfSome result (IsReadOut setup.now) }
{
    for total in totals {
        if total.level.number() > from.level.number()
            && setup.has(from.counter.exit(1), total.counter.entry(1))
        {
            return Some(*total);
        }
    }
    None
}

// Puts a total of a field on the line of its level.
fn put_total(draft: &mut Draft, field: usize, total: Total) -> Result<(), AllocError>
    ensures { OnOk result (GainsTotal field total draft.old draft.new) }
{
    draft.put(Item {
        line: PrintedLine::Body(BodyLine::Total(total.level)),
        first: total.zone.first_wheel(total.digits),
        last: total.zone.last,
        said: Said::Amount {
            field,
            digits: total.digits,
            mark: total.zone.mark,
        },
    })
}

// Puts a total of a field on its line, and those into which it goes.
fn put_chain(
    setup: &Setup,
    totals: &[Total],
    draft: &mut Draft,
    field: usize,
    lowest: Total,
) -> Result<(), AllocError>
    requires totals { All (IsReadOut setup.now) totals.now }
    requires lowest { IsReadOut setup.now lowest }
    ensures { OnOk result ((last : Total) × GainsChain setup.now field lowest last draft.old draft.new) }
{
    put_total(draft, field, lowest)?;
    let mut last = lowest;
    for _ in 1..4 {
        let Some(next) = next_total(setup, totals, last) else {
            return Ok(());
        };
        put_total(draft, field, next)?;
        last = next;
    }
    Ok(())
}

// The field whose columns enter the counter of a total of a level in a zone with this first wheel, if it is such a total and some do.
fn entered_at(setup: &Setup, total: Total, level: Level, wheel: u8) -> Option<DraftField> {
    if total.level == level && total.zone.first == wheel {
        entered_field(setup, total)
    } else {
        None
    }
}

// Puts the totals of the amount whose lowest total this is on their lines, if it is of a level and begins in a zone with this first wheel. The
// amount is a field of its own.
fn put_amount(
    setup: &Setup,
    totals: &[Total],
    draft: &mut Draft,
    lowest: Total,
    level: Level,
    wheel: u8,
) -> Result<(), AllocError>
    requires totals { All (IsReadOut setup.now) totals.now }
    requires lowest { IsReadOut setup.now lowest }
    ensures { OnOk result (GainsChains setup.now draft.old draft.new) }
{
    let Some(field) = entered_at(setup, lowest, level, wheel) else {
        return Ok(());
    };
    let place = draft.add_field(field)?;
    put_chain(setup, totals, draft, place, lowest)
}

// Puts the totals of the amounts whose lowest total is of a level and begins in a zone with this first wheel.
fn put_chains_at(
    setup: &Setup,
    totals: &[Total],
    draft: &mut Draft,
    level: Level,
    wheel: u8,
) -> Result<(), AllocError>
    requires { All (IsReadOut setup.now) totals.now }
    ensures { OnOk result (GainsChains setup.now draft.old draft.new) }
{
    for total in totals {
        put_amount(setup, totals, draft, *total, level, wheel)?;
    }
    Ok(())
}

/// Puts the totals of all amounts on their lines, each amount a field of its own: by the level of the lowest total, and then by its zone.
pub(crate) fn put_chains(
    setup: &Setup,
    totals: &[Total],
    draft: &mut Draft,
) -> Result<(), AllocError>
    requires { All (IsReadOut setup.now) totals.now }
    ensures { OnOk result (GainsChains setup.now draft.old draft.new) }
{
    for level in LEVELS {
        for wheel in 1..121 {
            put_chains_at(setup, totals, draft, level, wheel)?;
        }
    }
    Ok(())
}
