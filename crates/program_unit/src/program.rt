//! The program unit.

ghost use Rattle.std.specs.Prelude.{◌≡◌};
ghost use Rattle.program_unit.specs.CycleOrder.{after_heading, level_above, levels_to};
ghost use Rattle.program_unit.specs.Program.{called_for, waiting, stage_ended, tells};
ghost use Rattle.net.specs.HubSets.{GainsHubs, has_hub};

use crate::stage::Stage;
use hubs::Hub;
use hubs::setups::Setup;
use net::{Cycle, Ordinal, Picture, Point, Printing, ProgramLevel, Unit};
use std::marker::Model;

/// The program unit: it says which cycle follows, and tells of each cycle at its control point.
///
/// It senses, at the closing point of card cycles alone, which levels are called for.
#[derive(Clone, Copy, Debug, PartialEq, Eq)]
pub struct Program {
    printing: Printing,
    stage: Stage,
    highest: Option<ProgramLevel>,
}

impl Model for Program {
    ghost use Rattle.program_unit.specs.Program.{ProgramState};

    ghost Value = { ProgramState };

    ghost view = { λ program. record {
      printing = program.printing;
      stage = program.stage;
      highest = program.highest;
    } };

    ghost inverse = { λ state. record {
      printing = state.printing;
      stage = state.stage;
      highest = state.highest;
    } };
}

impl Program {
    ghost use Rattle.std.specs.Prelude.{◌≡◌};
    ghost use Rattle.program_unit.specs.Program.{program_at_start};
    ghost use Rattle.program_unit.specs.CycleOrder.{
      is_fresh,
      next_cycle,
      card_over,
      has_level_left,
      headed,
      after,
      after_prog,
    };

    /// The program unit of a setup, before any cycle.
    pub fn new(setup: &Setup) -> Self
        ensures { result ≡ program_at_start setup.now }
    {
        Program {
            printing: Printing::of(setup),
            stage: Stage::Fresh,
            highest: None,
        }
    }

    /// Whether no cycle has run.
    pub fn is_fresh(&self) -> bool
        ensures { result ≡ is_fresh self.now.stage }
    {
        matches!(self.stage, Stage::Fresh)
    }

    /// The cycle that follows, if any. `restore` is the restore latch of the carriage, and `more` tells that a card stands
    /// at first reading.
    pub fn next_cycle(&self, restore: bool, more: bool) -> Option<Cycle>
        ensures { result ≡ next_cycle self.now restore more }
    {
        match self.stage {
            Stage::Fresh => more.then_some(Cycle::RunIn),
            Stage::RanIn => Some(self.headed(restore, Cycle::Card)),
            Stage::RanCard => self.after(None, restore, more),
            Stage::RanProg(level, ordinal) => self.after_prog(level, ordinal, restore, more),
            Stage::BeforeCard(heading) => Some(after_heading(heading, Cycle::Card)),
            Stage::BeforeTotal(level, heading) => Some(after_heading(
                heading,
                Cycle::Prog(level, Ordinal::Third),
            )),
        }
    }

    /// Whether the cycles of a card are over: no cycle is left, or none before the next card cycle and its heading cycles.
    /// `more` tells that a card stands at first reading.
    pub fn card_over(&self, more: bool) -> bool
        ensures { result ≡ card_over self.now more }
    {
        match self.stage {
            Stage::Fresh => !more,
            Stage::RanIn | Stage::BeforeCard(_) => true,
            Stage::RanCard => !self.has_level_left(None, more),
            Stage::RanProg(level, Ordinal::Third) => !self.has_level_left(Some(level), more),
            Stage::RanProg(_, Ordinal::First | Ordinal::Second) | Stage::BeforeTotal(_, _) => false,
        }
    }

    // Whether a level is still to run with a card where these have run.
    fn has_level_left(&self, done: Option<ProgramLevel>, more: bool) -> bool
        ensures { result ≡ has_level_left self.now done more }
    {
        let top = if more {
            self.highest
        } else {
            Some(ProgramLevel::Final)
        };
        levels_to(done) < levels_to(top)
    }

    // The cycle that is due, or the first heading cycle in its place.
    fn headed(&self, restore: bool, cycle: Cycle) -> Cycle
        ensures { result ≡ headed self.now.printing restore cycle }
    {
        if self.printing.prints(cycle) && restore {
            Cycle::Head(Ordinal::First)
        } else {
            cycle
        }
    }

    // What follows a card's cycles where these levels have run.
    fn after(&self, done: Option<ProgramLevel>, restore: bool, more: bool) -> Option<Cycle>
        ensures { result ≡ after self.now done restore more }
    {
        if self.has_level_left(done, more) {
            Some(Cycle::Prog(level_above(done), Ordinal::First))
        } else if more {
            Some(self.headed(restore, Cycle::Card))
        } else {
            None
        }
    }

    // What follows a program cycle of a level.
    fn after_prog(
        &self,
        level: ProgramLevel,
        ordinal: Ordinal,
        restore: bool,
        more: bool,
    ) -> Option<Cycle>
        ensures { result ≡ after_prog self.now level ordinal restore more }
    {
        match ordinal {
            Ordinal::First => Some(Cycle::Prog(level, Ordinal::Second)),
            Ordinal::Second => Some(self.headed(restore, Cycle::Prog(level, Ordinal::Third))),
            Ordinal::Third => self.after(Some(level), restore, more),
        }
    }
}

impl Unit for Program {
    ghost use Rattle.program_unit.specs.OwnHubs.{program_keeps};
    ghost use Rattle.std.specs.Prelude.{refl};
    ghost use Rattle.net.specs.Nothing.{closes_nothing};
    ghost use Rattle.program_unit.specs.Program.{program_emits, program_sensed, program_ended, program_number};

    ghost emits = { program_emits };

    ghost closes = { closes_nothing };

    ghost sensed = { program_sensed };

    ghost ended = { program_ended };

    ghost number = { program_number };

    fn emit(&self, cycle: Cycle, point: Point, exits: &mut Picture) {
        if let Point::C = point {
            tell(cycle, exits);
        }
    }

    fn sense(&mut self, cycle: Cycle, point: Point, picture: &Picture) {
        if let (Cycle::Card, Point::K) = (cycle, point) {
            self.highest = called_for(picture);
        }
    }

    fn end_cycle(&mut self, cycle: Cycle) {
        self.stage = stage_ended(self.stage, cycle);
    }

    ghost keeps_to_its_own = { program_keeps };

    ghost emits_steadily = { λ unit cycle at other picture hub. refl };

    ghost closes_steadily = { λ unit cycle at other picture hub. refl };
}

// Adds the exit that tells of a cycle.
fn tell(cycle: Cycle, exits: &mut Picture)
    ensures { GainsHubs (tells cycle) exits.old exits.new }
{
    match cycle {
        Cycle::RunIn => {}
        Cycle::Card => exits.insert(Hub::CC),
        Cycle::Prog(level, ordinal) => exits.insert(Hub::PX(level.number(), ordinal.number())),
        Cycle::Head(heading) => exits.insert(Hub::HX(heading.number())),
    }
}

// The highest level that is called for.
fn called_for(picture: &Picture) -> Option<ProgramLevel>
    ensures { result ≡ called_for (has_hub picture.now) }
{
    if picture.has(Hub::ST(3)) {
        Some(ProgramLevel::Major)
    } else if picture.has(Hub::ST(2)) {
        Some(ProgramLevel::Intermediate)
    } else if picture.has(Hub::ST(1)) {
        Some(ProgramLevel::Minor)
    } else {
        None
    }
}

// How many levels run up to this one.
fn levels_to(level: Option<ProgramLevel>) -> u8
    ensures { result ≡ levels_to level }
{
    match level {
        None => 0,
        Some(level) => level.number(),
    }
}

// The level that runs after another, the lowest after none.
fn level_above(level: Option<ProgramLevel>) -> ProgramLevel
    ensures { result ≡ level_above level }
{
    match level {
        None => ProgramLevel::Minor,
        Some(ProgramLevel::Minor) => ProgramLevel::Intermediate,
        Some(ProgramLevel::Intermediate) => ProgramLevel::Major,
        Some(ProgramLevel::Major | ProgramLevel::Final) => ProgramLevel::Final,
    }
}

// What follows a heading cycle.
fn after_heading(heading: Ordinal, waiting: Cycle) -> Cycle
    ensures { result ≡ after_heading heading waiting }
{
    match heading {
        Ordinal::First => Cycle::Head(Ordinal::Second),
        Ordinal::Second => Cycle::Head(Ordinal::Third),
        Ordinal::Third => waiting,
    }
}

// The stage at the end of a cycle.
fn stage_ended(stage: Stage, cycle: Cycle) -> Stage
    ensures { result ≡ stage_ended stage cycle }
{
    match cycle {
        Cycle::RunIn => Stage::RanIn,
        Cycle::Card => Stage::RanCard,
        Cycle::Prog(level, ordinal) => Stage::RanProg(level, ordinal),
        Cycle::Head(heading) => waiting(stage, heading),
    }
}

// The stage at the end of a heading cycle.
fn waiting(stage: Stage, heading: Ordinal) -> Stage
    ensures { result ≡ waiting stage heading }
{
    match stage {
        Stage::RanProg(level, Ordinal::Second) | Stage::BeforeTotal(level, _) => Stage::BeforeTotal(
            level, heading,
        ),
        _ => Stage::BeforeCard(heading),
    }
}
