//! The units of a machine, and what is noted of its counter groups.

use crate::group_rows::{emit_group_rows, sense_group_rows};
use crate::groups::{Busy, control_groups, emit_groups, end_groups, keep_latches, sense_groups};
use crate::storage_rows::{
    control_storage, emit_storage, emit_storage_rows, sense_storage, sense_storage_rows,
};
use crate::unit_set::UnitSet;
use hubs::setups::Setup;
use net::{Cycle, Orders, Picture, Point, RowSets, Unit};
use selectors::{BalanceLatches, GROUPS};
use std::marker::Model;

// The 45 units, and what is noted of the counter groups, so that those that have nothing to do are left alone.
#[derive(Drop)]
pub(crate) struct Units {
    pub(crate) all: UnitSet,
    // What the counter groups may have to do in the cycle that runs.
    pub(crate) busy: Busy,
    // Their balance latches once more, as the contacts that they close.
    pub(crate) latches: BalanceLatches,
}

impl Model for Units {
    ghost use Rattle.machine.specs.Machine.{MachineState};

    ghost Value = { MachineState };

    ghost use Rattle.machine.specs.Noted.{IsNoted};

    ghost view = { λ units. units.all };

    ghost invariant = { IsNoted };
}

impl Units {
    ghost use Rattle.std.specs.Prelude.{◌≡◌, Bool, map};
    ghost use Rattle.hubs.specs.declared.hub.Hub.{Hub};
    ghost use Rattle.net.specs.HubSets.{GainsHubs, has_hub};
    ghost use Rattle.net.specs.Orders.{AreOrdersOf};
    ghost use Rattle.net.specs.declared.cycle.Cycle.{Cycle};
    ghost use Rattle.counters.specs.Counters.{counter_sensed};
    ghost use Rattle.storage_units.specs.Storage.{storage_sensed};
    ghost use Rattle.machine.specs.Fields.{AreInUnitOrder};
    ghost use Rattle.machine.specs.Machine.{machine_at_start, emits, sensed, ended};
    ghost use Rattle.net.specs.RowSets.{GainsRows, after_rows, pictures_of};
    ghost use Rattle.net.specs.declared.cycle.Point.TheVariants.{C, Row as AtRow};

    // The units of a setup as they start, with no card in the machine.
    pub(crate) fn new(setup: &Setup) -> Self
        ensures { result ≡ machine_at_start setup.now }
    {
        Units {
            all: UnitSet::new(setup),
            busy: Busy::none(),
            latches: BalanceLatches::of(&[false; GROUPS]),
        }
    }

    // Adds the exits that emit at a point. Pilots, group indication, splits, wheels and the carriage emit nothing.
    pub(crate) fn emit(&self, cycle: Cycle, point: Point, exits: &mut Picture)
        ensures { GainsHubs (emits self.now cycle point) exits.old exits.new }
    {
        self.all.stations.emit(cycle, point, exits);
        self.all.comparing.emit(cycle, point, exits);
        emit_groups(&self.all.groups, self.busy, cycle, point, exits);
        emit_storage(&self.all.storage, cycle, point, exits);
        self.all.emitters.emit(cycle, point, exits);
        self.all.program.emit(cycle, point, exits);
    }

    // Each unit senses the picture of a point. Stations, group indication, splits and emitters sense nothing.
    pub(crate) fn sense(&mut self, cycle: Cycle, point: Point, picture: &Picture)
        ensures { self.new ≡ sensed self.old cycle point (has_hub picture.now) }
    {
        self.all.comparing.sense(cycle, point, picture);
        let busy = sense_groups(&mut self.all.groups, self.busy, cycle, point, picture);
        self.busy = busy;
        sense_storage(&mut self.all.storage, cycle, point, picture);
        self.all.pilots.sense(cycle, point, picture);
        self.all.wheels.sense(cycle, point, picture);
        self.all.carriage.sense(cycle, point, picture);
        self.all.program.sense(cycle, point, picture);
    }

    // Each unit does what it is told at the control point. Counter groups, storage units and the carriage alone sense anything there.
    pub(crate) fn obey(&mut self, orders: &Orders)
        ensures { (cycle : Cycle) (picture : Hub → Bool) → AreOrdersOf picture orders.now
            → self.new ≡ sensed self.old cycle C picture }
    {
        let busy = control_groups(&mut self.all.groups, self.busy, orders.controls);
        self.busy = busy;
        control_storage(&mut self.all.storage, orders.storage);
        self.all.carriage.sense_controls(orders.carriage);
    }

    // Adds to the sets of the exits the rows at whose points they emit.
    pub(crate) fn emit_rows(&self, cycle: Cycle, sets: &mut RowSets)
        ensures rows { GainsRows (λ row. emits self.now cycle (AtRow row)) sets.old sets.new }
        ensures ordered { AreInUnitOrder self.now.groups }
    {
        self.all.stations.emit_rows(cycle, sets);
        emit_group_rows(&self.all.groups, self.busy, cycle, sets);
        emit_storage_rows(&self.all.storage, cycle, sets);
        self.all.emitters.emit_rows(cycle, sets);
    }

    // Each unit senses the points of all rows at once.
    pub(crate) fn sense_rows(&mut self, cycle: Cycle, pictures: &RowSets)
        ensures { self.new ≡ after_rows sensed cycle (pictures_of pictures.now) self.old }
    {
        self.sense_groups_and_storage(cycle, pictures);
        self.all.comparing.sense_rows(cycle, pictures);
        self.all.pilots.sense_rows(cycle, pictures);
        self.all.wheels.sense_rows(cycle, pictures);
    }

    // Counter groups and storage units sense the points of all rows at once.
    pub(crate) fn sense_groups_and_storage(&mut self, cycle: Cycle, pictures: &RowSets)
        ensures { self.new ≡ record self.old {
          groups = map (λ group. after_rows counter_sensed cycle (pictures_of pictures.now) group) self.old.groups;
          storage = map (λ unit. after_rows storage_sensed cycle (pictures_of pictures.now) unit) self.old.storage;
        } }
    {
        sense_group_rows(&mut self.all.groups, self.busy, cycle, pictures);
        sense_storage_rows(&mut self.all.storage, cycle, pictures);
    }

    // Each unit ends the cycle.
    pub(crate) fn end_cycle(&mut self, cycle: Cycle)
        ensures { self.new ≡ ended self.old cycle }
    {
        end_groups(&mut self.all.groups, self.busy, cycle);
        keep_latches(&self.all.groups, self.busy.tested, &mut self.latches);
        self.busy = Busy::none();
        self.all.end_all_but_groups(cycle);
    }
}
