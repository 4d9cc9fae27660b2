//! The counter groups of a machine. A group that is told nothing at the control point emits nothing in the cycle, and senses nothing
//! but a carry: so the groups that may have work are noted, a bit for each, and the others are left alone.

ghost use Rattle.std.specs.Prelude.{◌≡◌, ℕ, Bool, ◌<◌, ◌==◌, ◌&&◌, false, map, slice_index_or};
ghost use Rattle.std.specs.List.{list_any};
ghost use Rattle.counters.specs.Counters.{counter_at_start, counter_emits, counter_ended, counter_sensed};
ghost use Rattle.hubs.specs.declared.hub.Hub.{Hub};
ghost use Rattle.hubs.specs.declared.hub.Hub.TheVariants.{CO, PL};
ghost use Rattle.net.specs.HubSets.{GainsHubs, has_hub, is_bit, is_in_row};
ghost use Rattle.net.specs.Orders.{IsRowOf};
ghost use Rattle.net.specs.declared.cycle.Cycle.{Cycle};
ghost use Rattle.net.specs.declared.cycle.Point.TheVariants.{C, K};
ghost use Rattle.machine.specs.Fields.{AreInUnitOrder};
ghost use Rattle.machine.specs.Machine.{group_units};
ghost use Rattle.machine.specs.Marked.{marked_changed};
ghost use Rattle.machine.specs.Rest.{AreApart, AreBusy, AreCarriesMarked, AreKeptBut, AreReadOutsMarked, AreTestsMarked, AreToldMarked, ComeToNoNines};
ghost use Rattle.machine.specs.Steady.{balance_latches, carries_of, nines_of};

use crate::bits::take_lowest;
use crate::marked::{emit_marked, end_marked, sense_marked};
use counters::Group;
use hubs::Hub;
use net::{Cycle, Picture, Point};
use selectors::{BalanceLatches, GROUPS};

// The first of the groups.
const FIRST: hubs::Group = hubs::Group {
    width: 3,
    number: 1,
};

// The 32 counter groups in the order of their units, 3 to 34, as they start.
pub(crate) fn groups_at_start() -> [Group; GROUPS]
    ensures { result ≡ map counter_at_start group_units }
{
    [
        Group::new(3),
        Group::new(4),
        Group::new(5),
        Group::new(6),
        Group::new(7),
        Group::new(8),
        Group::new(9),
        Group::new(10),
        Group::new(11),
        Group::new(12),
        Group::new(13),
        Group::new(14),
        Group::new(15),
        Group::new(16),
        Group::new(17),
        Group::new(18),
        Group::new(19),
        Group::new(20),
        Group::new(21),
        Group::new(22),
        Group::new(23),
        Group::new(24),
        Group::new(25),
        Group::new(26),
        Group::new(27),
        Group::new(28),
        Group::new(29),
        Group::new(30),
        Group::new(31),
        Group::new(32),
        Group::new(33),
        Group::new(34),
    ]
}

// What the counter groups may have to do in a cycle. The group at place k, unit k + 3, has bit k.
#[derive(Clone, Copy)]
pub(crate) struct Busy {
    // The groups that may be under a control.
    pub(crate) controlled: u64,
    // The groups that may be told to read out.
    pub(crate) reading_out: u64,
    // The groups that may be under balance test.
    pub(crate) tested: u64,
    // The groups into which a carry may have come.
    pub(crate) carried: u64,
}

impl Busy {
    ghost use Rattle.std.specs.Prelude.{◌≡◌, ℕ, Bool, ◌||◌, false};
    ghost use Rattle.hubs.specs.declared.hub.Hub.{Hub};
    ghost use Rattle.hubs.specs.declared.hub.Hub.TheVariants.{PL};
    ghost use Rattle.net.specs.HubSets.{has_hub, is_bit};
    ghost use Rattle.net.specs.Orders.{IsRowOf};
    ghost use Rattle.machine.specs.Rest.{AreCarriesMarked, AreReadOutsMarked, AreTestsMarked, AreToldMarked};

    // No group is told anything, and no carry came in.
    pub(crate) fn none() -> Self
        ensures controlled { result.controlled ≡ 0 }
        ensures reading_out { result.reading_out ≡ 0 }
        ensures tested { result.tested ≡ 0 }
        ensures carried { result.carried ≡ 0 }
    {
        Busy {
            controlled: 0,
            reading_out: 0,
            tested: 0,
            carried: 0,
        }
    }

    // What they may have to do after the control point, by the row of their control hubs: their hubs PL, MI, RO and BT follow one another,
    // 32 of each.
    fn told(self, row: u128) -> Self
        ensures uncontrolled { (k : ℕ) → is_bit result.controlled k ≡ false → is_bit self.controlled k ≡ false }
        ensures told { (picture : Hub → Bool) → IsRowOf (PL (record { width = 3; number = 1 })) picture row
            → AreToldMarked result.controlled picture }
        ensures unread { (k : ℕ) → is_bit result.reading_out k ≡ false → is_bit self.reading_out k ≡ false }
        ensures read_out { (picture : Hub → Bool) → IsRowOf (PL (record { width = 3; number = 1 })) picture row
            → AreReadOutsMarked result.reading_out picture }
        ensures untested { (k : ℕ) → is_bit result.tested k ≡ false → is_bit self.tested k ≡ false }
        ensures tests { (picture : Hub → Bool) → IsRowOf (PL (record { width = 3; number = 1 })) picture row
            → AreTestsMarked result.tested picture }
        ensures carried { result.carried ≡ self.carried }
    {
        let pairs = row | row >> 64;
        Busy {
            controlled: self.controlled | low_bits(pairs | pairs >> 32),
            reading_out: self.reading_out | low_bits(row >> 64),
            tested: self.tested | low_bits(row >> 96),
            carried: self.carried,
        }
    }

    // What they may have to do after the closing point at which this picture is sensed.
    fn after_carries(self, picture: &Picture) -> Self
        ensures controlled { result.controlled ≡ self.controlled }
        ensures reading_out { result.reading_out ≡ self.reading_out }
        ensures tested { result.tested ≡ self.tested }
        ensures empty { (k : ℕ) → is_bit result.carried k ≡ false → is_bit self.carried k ≡ false }
        ensures carries { AreCarriesMarked result.carried (has_hub picture.now) }
    {
        Busy {
            controlled: self.controlled,
            reading_out: self.reading_out,
            tested: self.tested,
            carried: self.carried | carries(picture),
        }
    }

    // The groups that may change at the end of the cycle.
    fn ending(self) -> u64
        ensures { (k : ℕ) → is_bit result k ≡ (is_bit self.controlled k || is_bit self.carried k) }
    {
        self.controlled | self.carried
    }
}

// All groups emit: none at the control point, and at the closing point each the carry that leaves it. One that is under no control emits
// nothing.
pub(crate) fn emit_groups(
    groups: &[Group; GROUPS],
    busy: Busy,
    cycle: Cycle,
    point: Point,
    exits: &mut Picture,
)
    requires ordered { AreInUnitOrder groups.now }
    requires busy { AreBusy busy groups.now }
    ensures { GainsHubs (λ exit. list_any (λ group. counter_emits group cycle point exit) groups.now) exits.old exits.new }
{
    match point {
        Point::C => {}
        Point::Row(_) => emit_marked(groups, busy.controlled, cycle, point, exits),
        Point::K => emit_carries(carrying(groups, busy), exits),
    }
}

// Groups emit the carries that leave them, as a row: the carry exits of all groups follow one another.
pub(crate) fn emit_carries(carrying: u64, exits: &mut Picture)
    ensures { GainsHubs (is_in_row (CO (record { width = 3; number = 1 })) carrying) exits.old exits.new }
{
    exits.insert_row(Hub::CO(FIRST), u128::from(carrying));
}

// The groups that a carry leaves, a bit for each. None leaves one that is under no control.
pub(crate) fn carrying(groups: &[Group; GROUPS], busy: Busy) -> u64
    requires { AreBusy busy groups.now }
    ensures { (k : ℕ) → is_bit result k ≡ slice_index_or (carries_of groups.now) k false }
{
    let mut bits = 0;
    let mut left = busy.controlled;
    while let Some(place) = take_lowest(&mut left) {
        if place < GROUPS {
            bits |= bit_where(place, groups[place].carries_out());
        }
    }
    bits
}

// The word with one bit, where the test is true, or none.
fn bit_where(bit: usize, test: bool) -> u64
    requires { bit < 64 }
    ensures { (other : ℕ) → is_bit result other ≡ (test && (other == bit)) }
{
    u64::from(test) << bit
}

// All groups sense the picture, and stay as they are where they have nothing to do with it. Answers what they may have to do from then
// on.
pub(crate) fn sense_groups(
    groups: &mut [Group; GROUPS],
    busy: Busy,
    cycle: Cycle,
    point: Point,
    picture: &Picture,
) -> Busy
    requires ordered { AreInUnitOrder groups.old }
    requires busy { AreBusy busy groups.old }
    ensures sensed { groups.new ≡ map (λ group. counter_sensed group cycle point (has_hub picture.now)) groups.old }
    ensures busy { AreBusy result groups.new }
{
    match point {
        Point::C => control_groups(groups, busy, picture.row(Hub::PL(FIRST))),
        Point::Row(_) => {
            sense_marked(groups, busy.controlled, cycle, point, picture);
            busy
        }
        Point::K => {
            let busy = busy.after_carries(picture);
            sense_marked(groups, busy.carried, cycle, point, picture);
            busy
        }
    }
}

// All groups sense the control point, by the row of their control hubs, and stay as they are where they are told nothing. Answers what they
// may have to do from then on.
pub(crate) fn control_groups(groups: &mut [Group; GROUPS], busy: Busy, row: u128) -> Busy
    requires ordered { AreInUnitOrder groups.old }
    requires busy { AreBusy busy groups.old }
    ensures sensed { (cycle : Cycle) (picture : Hub → Bool) → IsRowOf (PL (record { width = 3; number = 1 })) picture row
        → groups.new ≡ map (λ group. counter_sensed group cycle C picture) groups.old }
    ensures busy { AreBusy result groups.new }
{
    let busy = busy.told(row);
    control_marked(groups, busy.controlled, row);
    busy
}

// The marked groups sense the control point, by the row of the control hubs of all groups.
fn control_marked(groups: &mut [Group], marks: u64, row: u128)
    ensures { (cycle : Cycle) (picture : Hub → Bool) → IsRowOf (PL (record { width = 3; number = 1 })) picture row
        → groups.new ≡ marked_changed marks 0 (λ group. counter_sensed group cycle C picture) groups.old }
{
    let mut left = marks;
    while let Some(place) = take_lowest(&mut left) {
        if place < groups.len() {
            groups[place].sense_controls(row);
        }
    }
}

// All groups end the cycle, and stay as they are where they had nothing to do in it.
pub(crate) fn end_groups(groups: &mut [Group; GROUPS], busy: Busy, cycle: Cycle)
    requires { AreBusy busy groups.old }
    ensures { groups.new ≡ map (λ group. counter_ended group cycle) groups.old }
{
    end_marked(groups, busy.ending(), cycle);
}

// The groups of which the carry entry is impulsed.
fn carries(picture: &Picture) -> u64
    ensures { AreCarriesMarked result (has_hub picture.now) }
{
    low_bits(picture.row(Hub::CI(FIRST)))
}

// The first 32 bits of a word.
fn low_bits(word: u128) -> u64
    ensures { (k : ℕ) → k < 32 → is_bit result k ≡ is_bit word k }
{
    (word & 0xffff_ffff) as u64
}

// Whether a carry comes to a group that stands at nines.
pub(crate) fn comes_to_nines(groups: &[Group; GROUPS], picture: &Picture) -> bool
    ensures { result ≡ false → ComeToNoNines (has_hub picture.now) (nines_of groups.now) }
{
    meets_nines(groups, carries(picture))
}

// Whether a group stands at nines whose bit is set. The first group has the lowest bit.
fn meets_nines(groups: &[Group; GROUPS], bits: u64) -> bool
    ensures { result ≡ false → AreApart bits (nines_of groups.now) }
{
    let mut left = bits;
    while let Some(place) = take_lowest(&mut left) {
        if place < GROUPS && groups[place].nines() {
            return true;
        }
    }
    false
}

// Keeps the balance latches of the marked groups, where those of the others are kept.
pub(crate) fn keep_latches(groups: &[Group; GROUPS], marks: u64, latches: &mut BalanceLatches)
    requires { AreKeptBut marks latches.old groups.now }
    ensures { latches.new ≡ balance_latches groups.now }
{
    let mut left = marks;
    while let Some(place) = take_lowest(&mut left) {
        if place < GROUPS {
            latches.set(place, groups[place].latch());
        }
    }
}

// Which counter groups stand at nines.
pub(crate) fn nines(groups: &[Group; GROUPS]) -> [bool; GROUPS]
    ensures { result ≡ nines_of groups.now }
{
    let mut nines = [false; GROUPS];
    for place in 0..GROUPS {
        nines[place] = groups[place].nines();
    }
    nines
}
