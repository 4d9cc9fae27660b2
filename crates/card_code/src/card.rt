//! A punched card.

ghost use Rattle.std.specs.Prelude.{◌≡◌, ◌+◌, ◌-◌, ◌<◌, ◌≤◌, ℕ, List, bit_and, length, replicate, slice_index, IfNone, IfSome, true};
ghost use Rattle.std.specs.Option.{option_map};
ghost use Rattle.card_code.specs.CardCode.{rows_of};
ghost use Rattle.card_code.specs.Columns.{column_of};
ghost use Rattle.card_code.specs.Deck.{IsCardOf, IsOddColumn, IsPunchable};
ghost use Rattle.card_code.specs.Tables.{entry};

use crate::code::{ALL_ROWS, listed_set};
use crate::column::Column;
use std::marker::Model;
use std::simd::prelude::*;

/// How many columns a card has.
pub const CARD_COLUMNS: usize = 80;

/// A card of 80 columns, numbered from 1, each with any set of rows.
///
/// Contracts see a card as the list of its columns.
#[derive(Clone, Copy, Debug, PartialEq, Eq)]
pub struct Card {
    columns: [Column; CARD_COLUMNS],
}

impl Model for Card {
    ghost Value = { List ℕ };

    ghost view = { λ card. card.columns };

    ghost invariant = { λ card. length card.columns ≡ 80 };

    ghost inverse = { λ columns. record { columns = columns } };
}

impl Card {
    /// A card without a punch.
    pub fn blank() -> Self
        ensures { result ≡ replicate 80 0 }
    {
        Card {
            columns: [Column::blank(); CARD_COLUMNS],
        }
    }

    /// The card of these columns, the first one being column 1.
    pub fn of_columns(columns: [Column; CARD_COLUMNS]) -> Self
        ensures { result ≡ columns }
    {
        Card { columns }
    }

    // Punches a line in the place of what was punched before. If each byte is a deck character, the card is that of the line; else this
    // answers the column of the first byte that is none, from 1. That byte is looked for only if the sets of all bytes together have a bit
    // behind the rows.
    pub(crate) fn punch(&mut self, line: &[u8]) -> Option<u32>
        requires { length line.now ≤ 80 }
        ensures card { IfNone result (IsCardOf line.now self.new) }
        ensures odd { IfSome result (IsOddColumn line.now) }
    {
        *self = Card::blank();
        let eights = line.len() / 8;
        let mut joined = u16x8::splat(0);
        for eight in 0..eights {
            let sets = listed_sets(line, 8 * eight);
            joined |= sets;
            punch_eight(&mut self.columns, 8 * eight, sets);
        }
        let mut joined_rest = 0;
        for place in 8 * eights..line.len() {
            let set = listed_set(line[place]);
            joined_rest |= set;
            self.columns[place] = Column::of_set(set & ALL_ROWS);
        }
        if have_rows_alone(joined) && joined_rest <= ALL_ROWS {
            None
        } else {
            odd_column(line)
        }
    }

    /// Its columns, the first one being column 1.
    pub fn columns(&self) -> &[Column; CARD_COLUMNS]
        ensures columns { result.now ≡ self.now }
        ensures whole { length self.now ≡ 80 }
    {
        &self.columns
    }

    /// The column with the number `column`, 1 to 80.
    pub fn column(&self, column: u8) -> Column
        requires from { 1 ≤ column }
        requires to { column ≤ 80 }
        ensures value { result ≡ slice_index self.now (column - 1) }
        ensures whole { length self.now ≡ 80 }
    {
        self.columns[column as usize - 1]
    }
}

// The sets of the rows of eight bytes of a line, from one on.
fn listed_sets(line: &[u8], first: usize) -> u16x8
    requires { first + 8 ≤ length line.now }
    ensures eight { length result ≡ 8 }
    ensures rows { (k : ℕ) → k < 8 → option_map column_of (entry (slice_index result k)) ≡ rows_of (slice_index line.now (first + k)) }
{
    u16x8::from_array([
        listed_set(line[first]),
        listed_set(line[first + 1]),
        listed_set(line[first + 2]),
        listed_set(line[first + 3]),
        listed_set(line[first + 4]),
        listed_set(line[first + 5]),
        listed_set(line[first + 6]),
        listed_set(line[first + 7]),
    ])
}

// Whether eight sets have no bit behind those of the rows.
fn have_rows_alone(sets: u16x8) -> bool
    requires { length sets ≡ 8 }
    ensures { result ≡ true → (k : ℕ) → k < 8 → slice_index sets k < 4096 }
{
    sets.simd_gt(u16x8::splat(ALL_ROWS)).to_bitmask() == 0
}

// Punches the rows of eight sets in the columns from one on.
fn punch_eight(columns: &mut [Column; CARD_COLUMNS], first: usize, sets: u16x8)
    requires within { first + 8 ≤ 80 }
    requires eight { length sets ≡ 8 }
    ensures punched { (k : ℕ) → k < 8 → slice_index columns.new (first + k) ≡ column_of (bit_and (slice_index sets k) 4095) }
    ensures before { (k : ℕ) → k < first → slice_index columns.new k ≡ slice_index columns.old k }
    ensures behind { (k : ℕ) → first + 8 ≤ k → slice_index columns.new k ≡ slice_index columns.old k }
    ensures whole { length columns.new ≡ 80 }
{
    let rows = (sets & u16x8::splat(ALL_ROWS)).to_array();
    for k in 0..8 {
        columns[first + k] = Column::of_set(rows[k]);
    }
}

// The column of the first byte that is no deck character, from 1.
fn odd_column(line: &[u8]) -> Option<u32>
    requires { length line.now ≤ 80 }
    ensures none { IfNone result (IsPunchable line.now) }
    ensures odd { IfSome result (IsOddColumn line.now) }
{
    for place in 0..line.len() {
        if listed_set(line[place]) > ALL_ROWS {
            return Some(place as u32 + 1);
        }
    }
    None
}
