//! The zones of wheels in which amounts stand.
//!
//! Amounts of body lines that meet end on one wheel, with the same decimals and the same mark, and nothing else of a body line meets them.
//! So the wheels of amounts fall into zones, each with at most one amount a line, and the jacks show them: LINK is plugged on each wheel of
//! a zone but the first, SYMBOL on those of the mark, SUPPRESS on the digits left of the point, or of the units.

ghost use Rattle.std.specs.Prelude.{◌≡◌, ◌+◌, ◌-◌, ◌≤◌, ℕ, All, IfOk, OnOk};
ghost use Rattle.std.specs.List.{list_any};
ghost use Rattle.hubs.specs.declared.jack.Jack.TheVariants.{Link};
ghost use Rattle.readback_panels.specs.Shown.{HasUnitsOn, IsAmountZone};
ghost use Rattle.readback_panels.specs.Zones.{CoverBelow, CoverLinks, has_wheel};
ghost use Rattle.hubs.specs.SetupsWords.Wiring.{HasJack, Wiring};

use chart_lines::charts::Mark;
use hubs::Jack;
use hubs::setups::Setup;
use std::alloc::{AllocError, Global};

/// A zone of wheels.
#[derive(Clone, Copy, PartialEq, Eq)]
pub(crate) struct Zone {
    /// Its first wheel.
    pub(crate) first: u8,
    /// The wheel of the units.
    pub(crate) units: u8,
    /// Its last wheel: that of the units, or of the end of the mark.
    pub(crate) last: u8,
    /// How many decimals its amounts have, 0 to 3.
    pub(crate) decimals: u8,
    /// The mark of its amounts.
    pub(crate) mark: Option<Mark>,
}

impl Zone {
    ghost use Rattle.std.specs.Prelude.{◌≡◌};
    ghost use Rattle.readback_panels.specs.Zones.{has_wheel};

    /// A zone of one wheel: a digit without decimals and without a mark.
    pub(crate) fn of_one(wheel: u8) -> Zone
        ensures first { result.first ≡ wheel }
        ensures last { result.last ≡ wheel }
    {
        Zone {
            first: wheel,
            units: wheel,
            last: wheel,
            decimals: 0,
            mark: None,
        }
    }

    /// The wheel of the digit at a position, from 1, the units, on.
    pub(crate) fn digit_wheel(self, position: u8) -> u8 {
        if self.decimals == 0 || position <= self.decimals {
            self.units.saturating_sub(position.saturating_sub(1))
        } else {
            self.units.saturating_sub(position)
        }
    }

    /// The first wheel of an amount of so many digits: that of its first digit, or of the point, if that stands left of all digits.
    pub(crate) fn first_wheel(self, digits: u8) -> u8 {
        if digits == self.decimals {
            self.units.saturating_sub(digits)
        } else {
            self.digit_wheel(digits)
        }
    }

    /// How many digits the widest amount of the zone has.
    pub(crate) fn most_digits(self) -> u8 {
        let behind_first = self.units.saturating_sub(self.first);
        if self.decimals == 0 {
            behind_first.saturating_add(1)
        } else {
            behind_first
        }
    }

    /// Whether a wheel is one of the zone.
    pub(crate) fn has(self, wheel: u8) -> bool
        ensures { result ≡ has_wheel wheel self }
    {
        self.first <= wheel && wheel <= self.last
    }
}

// The last wheel of the run of wheels with LINK that begins at a wheel.
fn run_end(setup: &Setup, wheel: u8) -> u8
    ensures last { wheel ≤ result }
    ensures linked { HasJack setup.now (Link wheel) → (next : ℕ) → wheel ≤ next → next ≤ result → HasJack setup.now (Link next) }
{
    let mut last = wheel;
    for next in wheel..121 {
        if !setup.has_jack(Jack::Link(next)) {
            return last;
        }
        last = next;
    }
    last
}

// The mark of the amounts that end on a wheel, by its wheels with SYMBOL.
fn mark_at(setup: &Setup, last: u8) -> Option<Mark> {
    if !setup.has_jack(Jack::Symbol(last)) {
        None
    } else if setup.has_jack(Jack::Symbol(last.saturating_sub(1))) {
        Some(Mark::Credit)
    } else {
        Some(Mark::Minus)
    }
}

// How many wheels a mark takes.
fn mark_wheels(mark: Option<Mark>) -> u8 {
    match mark {
        None => 0,
        Some(Mark::Minus) => 1,
        Some(Mark::Credit) => 2,
    }
}

// How many decimals the amounts of a zone have: as many wheels left of the units have no SUPPRESS.
fn decimals_at(setup: &Setup, first: u8, units: u8) -> u8 {
    for place in 0..3 {
        let wheel = units.saturating_sub(place + 1);
        if wheel < first || setup.has_jack(Jack::Suppress(wheel)) {
            return place;
        }
    }
    3
}

// The zone whose second wheel this is.
#[tactic(auto, using(crate::proofs::AmountZones::zone_linked))]
fn zone_from(setup: &Setup, second: u8) -> Zone
    ensures first { result.first ≡ second - 1 }
    ensures last { second ≤ result.last }
    ensures amounts { 2 ≤ second → HasJack setup.now (Link second) → IsAmountZone setup.now result }
{
    let first = second.saturating_sub(1);
    let last = run_end(setup, second);
    let mark = mark_at(setup, last);
    let units = last.saturating_sub(mark_wheels(mark));
    let decimals = decimals_at(setup, first, units);
    Zone {
        first,
        units,
        last,
        decimals,
        mark,
    }
}

// Adds the zone whose second wheel this is, if LINK is plugged there and the wheel is behind the last zone, and answers the last wheel of the
// last zone.
#[tactic(auto, using(crate::proofs::AmountZones::zone_pushed))]
fn add_zone(setup: &Setup, zones: &mut Vec<Zone>, last: u8, wheel: u8) -> Result<u8, AllocError>
    requires second { 2 ≤ wheel }
    requires last { CoverBelow setup.now zones.old.items (last + 1) }
    requires before { CoverBelow setup.now zones.old.items wheel }
    requires amounts { All (IsAmountZone setup.now) zones.old.items }
    ensures amounts { OnOk result (All (IsAmountZone setup.now) zones.new.items) }
    ensures last { IfOk result (λ end. CoverBelow setup.now zones.new.items (end + 1)) }
    ensures before { OnOk result (CoverBelow setup.now zones.new.items (wheel + 1)) }
{
    if wheel <= last || !setup.has_jack(Jack::Link(wheel)) {
        return Ok(last);
    }
    let zone = zone_from(setup, wheel);
    zones.push(zone)?;
    Ok(zone.last)
}

/// The zones that the jacks of a setup show, from the left: LINK is plugged on the wheels of no other.
pub(crate) fn zones_of(alloc: Global, setup: &Setup) -> Result<Vec<Zone>, AllocError>
    ensures links { IfOk result (λ zones. CoverLinks setup.now zones.items) }
    ensures amounts { IfOk result (λ zones. All (IsAmountZone setup.now) zones.items) }
{
    let mut zones = Vec::new(alloc);
    let mut last = 1;
    for wheel in 2..121 {
        last = add_zone(setup, &mut zones, last, wheel)?;
    }
    Ok(zones)
}

/// Whether a wheel is one of a zone of a list.
pub(crate) fn is_in_zone(zones: &[Zone], wheel: u8) -> bool
    ensures { result ≡ list_any (has_wheel wheel) zones.now }
{
    zones.iter().any(|zone| zone.has(wheel))
}

/// The zone of a list whose units stand on a wheel; else a zone of this wheel alone.
#[tactic(auto, using(crate::proofs::AmountZones::zone_alone, crate::proofs::AmountZones::zone_listed))]
pub(crate) fn zone_with_units(zones: &[Zone], wheel: u8) -> Zone
    ensures { (setup : Wiring) → All (IsAmountZone setup) zones.now → HasUnitsOn setup wheel → IsAmountZone setup result }
{
    for zone in zones {
        if zone.units == wheel {
            return *zone;
        }
    }
    Zone::of_one(wheel)
}
