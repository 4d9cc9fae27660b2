//! The counter groups of a machine at the points of all rows at once. Groups that are under no control are left alone.

ghost use Rattle.std.specs.Prelude.{◌≡◌, map};
ghost use Rattle.std.specs.List.{list_any};
ghost use Rattle.counters.specs.Counters.{counter_emits, counter_sensed};
ghost use Rattle.net.specs.RowSets.{GainsRows, after_rows, pictures_of};
ghost use Rattle.net.specs.declared.cycle.Point.TheVariants.{Row as AtRow};
ghost use Rattle.machine.specs.Marked.{any_marked, marked_changed};
ghost use Rattle.machine.specs.Rest.{AreBusy};

use crate::bits::take_lowest;
use crate::groups::Busy;
use counters::Group;
use net::{Cycle, RowSets};
use selectors::GROUPS;

// All groups add to the sets of their exits the rows at whose points they emit. One that isn't told to read out emits nothing there.
pub(crate) fn emit_group_rows(
    groups: &[Group; GROUPS],
    busy: Busy,
    cycle: Cycle,
    sets: &mut RowSets,
)
    requires { AreBusy busy groups.now }
    ensures { GainsRows (λ row exit. list_any (λ group. counter_emits group cycle (AtRow row) exit) groups.now) sets.old sets.new }
{
    emit_marked_rows(groups, busy.reading_out, cycle, sets);
}

// All groups sense the points of all rows, and stay as they are where they have nothing to do with them. What they may have to do stays
// the same.
pub(crate) fn sense_group_rows(
    groups: &mut [Group; GROUPS],
    busy: Busy,
    cycle: Cycle,
    pictures: &RowSets,
)
    requires { AreBusy busy groups.old }
    ensures sensed { groups.new ≡ map (λ group. after_rows counter_sensed cycle (pictures_of pictures.now) group) groups.old }
    ensures busy { AreBusy busy groups.new }
{
    sense_marked_rows(groups, busy.controlled, cycle, pictures);
}

// The marked groups add to the sets of their exits the rows at whose points they emit.
fn emit_marked_rows(groups: &[Group], marks: u64, cycle: Cycle, sets: &mut RowSets)
    ensures { GainsRows (λ row exit. any_marked marks 0 (λ group. counter_emits group cycle (AtRow row) exit) groups.now) sets.old sets.new }
{
    let mut left = marks;
    while let Some(place) = take_lowest(&mut left) {
        if place < groups.len() {
            groups[place].emit_rows(cycle, sets);
        }
    }
}

// The marked groups sense the points of all rows.
fn sense_marked_rows(groups: &mut [Group], marks: u64, cycle: Cycle, pictures: &RowSets)
    ensures { groups.new ≡ marked_changed marks 0 (λ group. after_rows counter_sensed cycle (pictures_of pictures.now) group) groups.old }
{
    let mut left = marks;
    while let Some(place) = take_lowest(&mut left) {
        if place < groups.len() {
            groups[place].sense_rows(cycle, pictures);
        }
    }
}
