//! The twelve rows of a card.

ghost use Rattle.card_code.specs.Rows.{row_number, passing_place};

/// A row of a card. Rows 0 to 9 are digit rows, 11 and 12 are zone rows; a card has no row 10.
#[derive(Clone, Copy, Debug, PartialEq, Eq)]
pub enum Row {
    /// Row 0.
    Zero,
    /// Row 1.
    One,
    /// Row 2.
    Two,
    /// Row 3.
    Three,
    /// Row 4.
    Four,
    /// Row 5.
    Five,
    /// Row 6.
    Six,
    /// Row 7.
    Seven,
    /// Row 8.
    Eight,
    /// Row 9.
    Nine,
    /// Row 11, the second from the top.
    Eleven,
    /// Row 12, at the top.
    Twelve,
}

/// The rows in the order in which a card passes the brushes: 9 first, down to 0, then 11 and 12.
pub const ROWS: [Row; 12] = [
    Row::Nine,
    Row::Eight,
    Row::Seven,
    Row::Six,
    Row::Five,
    Row::Four,
    Row::Three,
    Row::Two,
    Row::One,
    Row::Zero,
    Row::Eleven,
    Row::Twelve,
];

impl Row {
    ghost use Rattle.std.specs.Prelude.{◌≡◌, ◌≢◌, ◌≤◌, ◌<◌};

    /// Its number: 0 to 9, 11 or 12.
    pub fn number(self) -> u8
        ensures value { result ≡ row_number self }
        ensures range { result ≤ 12 }
        ensures not_ten { result ≢ 10 }
    {
        match self {
            Row::Zero => 0,
            Row::One => 1,
            Row::Two => 2,
            Row::Three => 3,
            Row::Four => 4,
            Row::Five => 5,
            Row::Six => 6,
            Row::Seven => 7,
            Row::Eight => 8,
            Row::Nine => 9,
            Row::Eleven => 11,
            Row::Twelve => 12,
        }
    }

    /// Its place among [`ROWS`], 0 to 11.
    pub fn place(self) -> usize
        ensures value { result ≡ passing_place self }
        ensures range { result < 12 }
    {
        match self {
            Row::Nine => 0,
            Row::Eight => 1,
            Row::Seven => 2,
            Row::Six => 3,
            Row::Five => 4,
            Row::Four => 5,
            Row::Three => 6,
            Row::Two => 7,
            Row::One => 8,
            Row::Zero => 9,
            Row::Eleven => 10,
            Row::Twelve => 11,
        }
    }
}
