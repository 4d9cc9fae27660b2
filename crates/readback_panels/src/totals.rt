//! The counters that a setup reads out.

ghost use Rattle.std.specs.Prelude.{All, IfOk, IfSome};
ghost use Rattle.chart_lines.specs.ChartsWords.Levels.{level_number};
ghost use Rattle.hubs.specs.declared.hub.Hub.TheVariants as hub;
ghost use Rattle.readback_panels.specs.Chains.{IsReadOut};
ghost use Rattle.readback_panels.specs.Shown.{IsAmountZone};
ghost use Rattle.hubs.specs.SetupsWords.Wiring.{HasWire};

use crate::hub_rows::{HubRow, lowest_entry};
use crate::zones::{Zone, zone_with_units};
use chart_lines::charts::Level;
use counters::group_of_unit;
use hubs::setups::Setup;
use hubs::{Group, Hub, is_one_group};
use std::alloc::{AllocError, Global};

/// A counter: a group, or two that are coupled.
#[derive(Clone, Copy)]
pub(crate) struct Counter {
    /// The group of the lower positions.
    pub(crate) lower: Group,
    /// The group of the positions above 8.
    pub(crate) upper: Option<Group>,
}

impl Counter {
    ghost use Rattle.std.specs.Prelude.{◌≡◌};
    ghost use Rattle.readback_panels.specs.Chains.{entry_of, exit_of, place_in};

    // The group in which a position is, and its number there.
    fn at(self, position: u8) -> (Group, u8)
        ensures { result ≡ place_in self.lower self.upper position }
    {
        match self.upper {
            Some(upper) if position > 8 => (upper, position - 8),
            _ => (self.lower, position),
        }
    }

    /// The exit of a position.
    pub(crate) fn exit(self, position: u8) -> Hub
        ensures { result ≡ exit_of self position }
    {
        let (group, place) = self.at(position);
        Hub::GX(group, place)
    }

    /// The entry of a position.
    pub(crate) fn entry(self, position: u8) -> Hub
        ensures { result ≡ entry_of self position }
    {
        let (group, place) = self.at(position);
        Hub::GE(group, place)
    }

    /// How many positions it has.
    pub(crate) fn size(self) -> u8 {
        if self.upper.is_some() {
            16
        } else {
            self.lower.width
        }
    }
}

/// A counter that is read out on a total line.
#[derive(Clone, Copy)]
pub(crate) struct Total {
    /// Its level.
    pub(crate) level: Level,
    /// The counter.
    pub(crate) counter: Counter,
    /// The zone in which the total stands.
    pub(crate) zone: Zone,
    /// How many digits it has.
    pub(crate) digits: u8,
}

/// The levels of totals, the lowest first.
pub(crate) const LEVELS: [Level; 4] = [
    Level::Minor,
    Level::Intermediate,
    Level::Major,
    Level::Final,
];

// The lowest other group to which the carry of a group leads.
fn carried_to(setup: &Setup, group: Group) -> Option<Group> {
    for place in 0..32 {
        let other = group_of_unit(3 + place);
        if !is_one_group(group, other) && setup.has(Hub::CO(group), Hub::CI(other)) {
            return Some(other);
        }
    }
    None
}

// Whether a group is the lower one of two, whose carry leads to the other: of two that carry to one another it is that of the lower number.
fn is_below(setup: &Setup, group: Group, other: Group) -> bool {
    match carried_to(setup, other) {
        Some(back) => !is_one_group(back, group) || group.number < other.number,
        None => true,
    }
}

// The group above a group, if the two are coupled and this is the lower one.
fn upper_of(setup: &Setup, group: Group) -> Option<Group> {
    let other = carried_to(setup, group)?;
    if is_below(setup, group, other) {
        Some(other)
    } else {
        None
    }
}

// Whether a group is the upper one of two.
fn is_upper(setup: &Setup, group: Group) -> bool {
    for place in 0..32 {
        if let Some(upper) = upper_of(setup, group_of_unit(3 + place)) {
            if is_one_group(upper, group) {
                return true;
            }
        }
    }
    false
}

// The lowest level whose third program cycle reads a group out.
fn level_of(setup: &Setup, group: Group) -> Option<Level>
    ensures { IfSome result (λ level. HasWire setup.now (hub.PX (level_number level) 3) (hub.RO group)) }
{
    for level in LEVELS {
        if setup.has(Hub::PX(level.number(), 3), Hub::RO(group)) {
            return Some(level);
        }
    }
    None
}

// How many digits of a counter lead to the wheels of a zone, from the units on.
fn digits_on(setup: &Setup, counter: Counter, zone: Zone) -> u8 {
    for place in 0..counter.size() {
        let position = place + 1;
        if !setup.has(counter.exit(position), Hub::W(zone.digit_wheel(position))) {
            return place;
        }
    }
    counter.size()
}

// The total of a group that is read out on a total line, if it is one and not the upper one of two.
fn total_of(setup: &Setup, zones: &[Zone], lower: Group) -> Option<Total>
    requires { All (IsAmountZone setup.now) zones.now }
    ensures out { IfSome result (IsReadOut setup.now) }
    ensures zone { IfSome result (λ total. IsAmountZone setup.now total.zone) }
{
    let level = level_of(setup, lower)?;
    if is_upper(setup, lower) {
        return None;
    }
    let counter = Counter {
        lower,
        upper: upper_of(setup, lower),
    };
    let wheel = lowest_entry(setup, counter.exit(1), HubRow::Wheels)?;
    let zone = zone_with_units(zones, wheel);
    Some(Total {
        level,
        counter,
        zone,
        digits: digits_on(setup, counter, zone),
    })
}

/// The totals that a setup prints, by the zones that its jacks show: the third program cycle of its level reads each out.
pub(crate) fn totals_of(
    alloc: Global,
    setup: &Setup,
    zones: &[Zone],
) -> Result<Vec<Total>, AllocError>
    requires { All (IsAmountZone setup.now) zones.now }
    ensures out { IfOk result (λ totals. All (IsReadOut setup.now) totals.items) }
    ensures zones { IfOk result (λ totals. All (λ total. IsAmountZone setup.now total.zone) totals.items) }
{
    let mut totals = Vec::new(alloc);
    for place in 0..32 {
        if let Some(total) = total_of(setup, zones, group_of_unit(3 + place)) {
            totals.push(total)?;
        }
    }
    Ok(totals)
}
