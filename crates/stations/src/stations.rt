//! The reading stations: two cards stand in the machine, and each station emits the punches of its card.

ghost use Rattle.std.specs.Prelude.{◌≡◌, List, ℕ};

use crate::punches::{columns_at, put_columns, row_at, rows_at};
use card_code::{CARD_COLUMNS, Card, Row};
use hubs::Hub;
use net::{Cycle, Picture, Point, RowSets, Unit};
use std::marker::Model;
use std::mem;

/// The reading stations, unit 1.
///
/// A card stands at first reading, and the card before it at second reading. Contracts see the two cards. A card is kept as the sets of
/// rows of its columns, so that all rows are emitted at once; the word of a row is read off these.
#[derive(Debug, Drop)]
pub struct Stations {
    // Whether a card stands there.
    first: bool,
    second: bool,
    // The columns of the cards that stand there: those of the card at first reading are the first or the second of the two, as it is told
    // here, and the others are those of the card at second reading. So no columns move when the cards do.
    front: usize,
    columns: [[u16; CARD_COLUMNS]; 2],
}

impl Model for Stations {
    ghost use Rattle.stations.specs.Stations.{StationCards};
    ghost use Rattle.stations.specs.Kept.{kept_cards};

    ghost Value = { StationCards };

    ghost view = { λ stations. kept_cards stations.first stations.second stations.front stations.columns };

    ghost use Rattle.std.specs.Prelude.{◌≤◌};

    ghost invariant = { λ stations. stations.front ≤ 1 };
}

impl Stations {
    ghost use Rattle.std.specs.Prelude.{◌≡◌, is_some};
    ghost use Rattle.stations.specs.Punches.{AreColumnsAt};
    ghost use Rattle.stations.specs.Stations.{stations_at_start, loaded, AreStationRows};

    /// The stations without a card.
    pub fn new() -> Self
        ensures { result ≡ stations_at_start }
    {
        Stations {
            first: false,
            second: false,
            front: 0,
            columns: [[0; CARD_COLUMNS]; 2],
        }
    }

    /// Moves the cards on by one: the next card, if there is one, comes to first reading.
    pub fn load(&mut self, next: Option<Card>)
        ensures { self.new ≡ loaded next self.old }
    {
        self.load_next(&next);
    }

    /// The same, where the next card stays with the caller.
    pub fn load_next(&mut self, next: &Option<Card>)
        ensures { self.new ≡ loaded next.now self.old }
    {
        self.front = 1 - self.front;
        self.second = mem::replace(&mut self.first, next.is_some());
        if let Some(card) = next {
            put_columns(card, &mut self.columns[self.front]);
        }
    }

    /// Whether a card stands at first reading.
    pub fn has_first(&self) -> bool
        ensures { result ≡ is_some self.now.first }
    {
        self.first
    }

    /// The sets of the rows of the columns of the card at second reading: empty ones without a card there.
    pub fn second_columns(&self) -> &[u16; CARD_COLUMNS]
        ensures { AreColumnsAt self.now.second result.now }
    {
        columns_at(self.second, &self.columns[1 - self.front])
    }

    /// The rows of the cards at first and at second reading, 9 to 0, then 11 and 12. In the word of a row the bit c - 1
    /// stands for column c; without a card all words are 0.
    pub fn rows(&self) -> [[u128; 12]; 2]
        ensures { AreStationRows self.now result }
    {
        [
            rows_at(self.first, &self.columns[self.front]),
            rows_at(self.second, &self.columns[1 - self.front]),
        ]
    }
}

impl Unit for Stations {
    ghost use Rattle.stations.specs.OwnHubs.{stations_keep};
    ghost use Rattle.std.specs.Prelude.{refl};
    ghost use Rattle.net.specs.Nothing.{closes_nothing, senses_nothing};
    ghost use Rattle.stations.specs.Stations.{stations_emits, stations_ended, stations_number};

    ghost emits = { stations_emits };

    ghost closes = { closes_nothing };

    ghost sensed = { senses_nothing };

    ghost ended = { stations_ended };

    ghost number = { λ cards. stations_number };

    fn emit(&self, cycle: Cycle, point: Point, exits: &mut Picture) {
        match (cycle, point) {
            (Cycle::RunIn, Point::Row(row)) => self.emit_first(row, exits),
            (Cycle::Card, Point::Row(row)) => {
                self.emit_first(row, exits);
                self.emit_second(row, exits);
            }
            _ => {}
        }
    }

    fn sense(&mut self, _cycle: Cycle, _point: Point, _picture: &Picture) {}

    fn end_cycle(&mut self, _cycle: Cycle) {}

    ghost keeps_to_its_own = { stations_keep };

    ghost emits_steadily = { λ cards cycle at other picture hub. refl };

    ghost closes_steadily = { λ cards cycle at other picture hub. refl };
}

impl Stations {
    ghost use Rattle.net.specs.HubSets.{GainsHubs};
    ghost use Rattle.net.specs.RowSets.{GainsRows};
    ghost use Rattle.net.specs.declared.cycle.Point.TheVariants.{Row as AtRow};
    ghost use Rattle.stations.specs.Stations.{first_emits, second_emits, stations_emits};

    /// Adds to the sets of the exits the rows at whose points they emit.
    pub fn emit_rows(&self, cycle: Cycle, sets: &mut RowSets)
        ensures { GainsRows (λ row. stations_emits self.now cycle (AtRow row)) sets.old sets.new }
    {
        match cycle {
            Cycle::RunIn => self.emit_first_rows(sets),
            Cycle::Card => {
                self.emit_first_rows(sets);
                self.emit_second_rows(sets);
            }
            Cycle::Prog(_, _) | Cycle::Head(_) => {}
        }
    }

    // Adds the exits of first reading, all rows at once.
    fn emit_first_rows(&self, sets: &mut RowSets)
        ensures { GainsRows (first_emits self.now.first) sets.old sets.new }
    {
        sets.insert_sets(
            Hub::FR(1),
            columns_at(self.first, &self.columns[self.front]),
        );
    }

    // The same of second reading.
    fn emit_second_rows(&self, sets: &mut RowSets)
        ensures { GainsRows (second_emits self.now.second) sets.old sets.new }
    {
        sets.insert_sets(Hub::SR(1), self.second_columns());
    }

    // Adds the exits of first reading at the point of a row.
    fn emit_first(&self, row: Row, exits: &mut Picture)
        ensures { GainsHubs (first_emits self.now.first row) exits.old exits.new }
    {
        exits.insert_row(
            Hub::FR(1),
            row_at(self.first, &self.columns[self.front], row),
        );
    }

    // Adds the exits of second reading at the point of a row.
    fn emit_second(&self, row: Row, exits: &mut Picture)
        ensures { GainsHubs (second_emits self.now.second row) exits.old exits.new }
    {
        exits.insert_row(
            Hub::SR(1),
            row_at(self.second, &self.columns[1 - self.front], row),
        );
    }
}
