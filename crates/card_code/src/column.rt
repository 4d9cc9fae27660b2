//! A column of a card, as the set of its punched rows.

ghost use Rattle.std.specs.Prelude.{◌≡◌, ◌+◌, ◌^◌, ◌<◌, ◌↔◌, ℕ, IsTrue, true, false};
ghost use Rattle.card_code.specs.CardCode.{has_row, with_row, rows_of, deck_character, print_character};
ghost use Rattle.card_code.specs.Columns.{column_of};
ghost use Rattle.card_code.specs.Rows.{row_number};

use crate::code::{character_of_set, set_of_character};
use crate::row::Row;
use std::marker::Model;

/// The set of rows punched in one column, any of the twelve.
///
/// Contracts see a column as a number in which bit `r` tells of row `r`. It is kept as the reading stations need it, by the places of the
/// rows among [`ROWS`](crate::ROWS).
#[derive(Clone, Copy, Debug, Default)]
pub struct Column {
    set: u16,
}

impl Model for Column {
    ghost use Rattle.std.specs.Prelude.{ℕ, ◌<◌};
    ghost use Rattle.card_code.specs.Columns.{column_of, set_of_column, set-again};

    ghost Value = { ℕ };

    ghost view = { λ column. column_of column.set };

    ghost invariant = { λ column. column.set < 4096 };

    ghost inverse = { λ column. record { set = set_of_column column } };

    ghost inverse_ok = { λ column small i. record { set = set-again column.set small i } };
}

impl Column {
    /// A column without a punch.
    pub fn blank() -> Self
        ensures { result ≡ 0 }
    {
        Column { set: 0 }
    }

    /// The column that a deck character is punched as, or `None` for a character that is none.
    pub fn of_char(character: char) -> Option<Self>
        ensures { result ≡ rows_of character }
    {
        match set_of_character(character) {
            Some(set) => Some(Column { set }),
            None => None,
        }
    }

    /// The column whose rows are those of a set by their places among [`ROWS`](crate::ROWS): bit `p` tells of the row at place `p`.
    pub fn of_set(set: u16) -> Self
        requires { set < 4096 }
        ensures { result ≡ column_of set }
    {
        Column { set }
    }

    /// The deck character of the punched rows, or `None` where no character has exactly these.
    pub fn to_char(self) -> Option<char>
        ensures { result ≡ deck_character self }
    {
        character_of_set(self.set).map(char::from)
    }

    /// The character that a print wheel prints for these rows: a blank for `!`, and for rows that
    /// no character has.
    #[tactic(auto, unfolding(crate::specs::CardCode::print_character))]
    pub fn print_character(self) -> u8
        ensures { result ≡ print_character self }
    {
        match character_of_set(self.set) {
            None | Some(b'!') => b' ',
            Some(character) => character,
        }
    }

    /// The punched rows by their places among [`ROWS`](crate::ROWS), as a number below 4,096 in which bit `p` tells of the row at place `p`.
    pub fn set(self) -> u16
        ensures value { column_of result ≡ self }
        ensures small { result < 4096 }
    {
        self.set
    }

    /// Whether row `row` is punched.
    pub fn has_row(self, row: Row) -> bool
        ensures { result ≡ has_row self (row_number row) }
    {
        self.set >> row.place() & 1 == 1
    }

    /// This column with row `row` punched too.
    pub fn with_row(self, row: Row) -> Self
        ensures { result ≡ with_row self (row_number row) }
    {
        Column {
            set: self.set | 1 << row.place(),
        }
    }
}

// By hand: a derived one would compare what contracts see.
impl PartialEq for Column {
    ghost use Rattle.std.specs.Prelude.{◌==◌};
    ghost use Rattle.std.specs.Cmp.Rules.{comparing};
    ghost use Rattle.std.proofs.Common.{rules};

    ghost eq = { ◌==◌ };

    ghost laws = { Prim.search (comparing, rules) };

    fn eq(&self, other: &Column) -> bool {
        self.set == other.set
    }
}

impl Eq for Column {
    ghost use Rattle.std.specs.Cmp.Rules.{comparing};
    ghost use Rattle.std.proofs.Common.{rules};

    ghost laws = { Prim.search (comparing, rules) };
}
