//! The cycles of the machine and the points of a cycle.

ghost use Rattle.net.specs.Cycles.{level_number, ordinal_number};

use card_code::Row;

/// A level of totals.
#[derive(Clone, Copy, Debug, PartialEq, Eq)]
pub enum ProgramLevel {
    /// Level 1.
    Minor,
    /// Level 2.
    Intermediate,
    /// Level 3.
    Major,
    /// Level 4, after the last card.
    Final,
}

/// Which of three: the program cycles of a level, or the heading cycles.
#[derive(Clone, Copy, Debug, PartialEq, Eq)]
pub enum Ordinal {
    /// The first.
    First,
    /// The second.
    Second,
    /// The third.
    Third,
}

/// A cycle of the machine.
#[derive(Clone, Copy, Debug, PartialEq, Eq)]
pub enum Cycle {
    /// The first cycle of a run: card 1 passes the first reading station.
    RunIn,
    /// A card passes the second reading station, and the card after it the first.
    Card,
    /// A program cycle of a level. The third can print.
    Prog(ProgramLevel, Ordinal),
    /// A heading cycle. The first begins a page.
    Head(Ordinal),
}

/// A point of a cycle.
#[derive(Clone, Copy, Debug, PartialEq, Eq)]
pub enum Point {
    /// The control point, before the rows.
    C,
    /// The point of a card row: 9 down to 0, then 11 and 12.
    Row(Row),
    /// The closing point, after the rows.
    K,
}

/// The fourteen points of a cycle in their order.
pub const POINTS: [Point; 14] = [
    Point::C,
    Point::Row(Row::Nine),
    Point::Row(Row::Eight),
    Point::Row(Row::Seven),
    Point::Row(Row::Six),
    Point::Row(Row::Five),
    Point::Row(Row::Four),
    Point::Row(Row::Three),
    Point::Row(Row::Two),
    Point::Row(Row::One),
    Point::Row(Row::Zero),
    Point::Row(Row::Eleven),
    Point::Row(Row::Twelve),
    Point::K,
];

impl ProgramLevel {
    ghost use Rattle.std.specs.Prelude.{◌≡◌, ◌≤◌};

    /// Its number, 1 to 4.
    pub fn number(self) -> u8
        ensures value { result ≡ level_number self }
        ensures from { 1 ≤ result }
        ensures to { result ≤ 4 }
    {
        match self {
            ProgramLevel::Minor => 1,
            ProgramLevel::Intermediate => 2,
            ProgramLevel::Major => 3,
            ProgramLevel::Final => 4,
        }
    }
}

impl Ordinal {
    ghost use Rattle.std.specs.Prelude.{◌≡◌, ◌≤◌};

    /// Its number, 1 to 3.
    pub fn number(self) -> u8
        ensures value { result ≡ ordinal_number self }
        ensures from { 1 ≤ result }
        ensures to { result ≤ 3 }
    {
        match self {
            Ordinal::First => 1,
            Ordinal::Second => 2,
            Ordinal::Third => 3,
        }
    }
}
