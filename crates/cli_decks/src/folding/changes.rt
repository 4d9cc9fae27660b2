//! What is changed in a byte of a text, how often, and where first.

ghost use Rattle.std.specs.Prelude.{◌≡◌, ◌≤◌, ◌+◌, length, ◌↔◌};
ghost use Rattle.card_code.specs.Lines.{lines_of};
ghost use Rattle.cli_decks.specs.FoldingWords.Changes.{IsTally, change_of, count_in, first_in, is_changed, place_in};

use card_code::{Column, next_line};

/// A kind of change.
#[derive(Clone, Copy, Debug, PartialEq, Eq)]
pub enum Change {
    /// A small letter becomes its capital.
    Capital,
    /// A tab becomes blanks.
    Blanks,
    /// Any other byte that no card has is replaced.
    Replaced,
}

/// A place in a text.
#[derive(Clone, Copy, Debug, PartialEq, Eq)]
pub struct TextPlace {
    /// The number of the line, from 1.
    pub line: u64,
    /// The number of the byte in its line, from 1.
    pub column: u64,
}

/// How often a kind of change was made.
#[derive(Clone, Copy, Debug, PartialEq, Eq)]
pub struct Tally {
    /// In so many bytes.
    pub count: u64,
    /// The place of the first one, if there was one.
    pub first: Option<TextPlace>,
}

/// The change that a byte needs, or `None` if a card has it.
pub fn change_of(byte: u8) -> Option<Change>
    ensures { result ≡ change_of byte }
{
    if Column::of_char(char::from(byte)).is_some() {
        None
    } else if byte.is_ascii_lowercase() {
        Some(Change::Capital)
    } else if byte == b'\t' {
        Some(Change::Blanks)
    } else {
        Some(Change::Replaced)
    }
}

// Whether a byte needs a change of a kind.
fn is_changed(kind: Change, byte: u8) -> bool
    ensures { result ≡ is_changed kind byte }
{
    change_of(byte) == Some(kind)
}

// How many bytes of a line are changed so.
fn count_in(kind: Change, line: &[u8]) -> usize
    ensures counted { result ≡ count_in kind line.now }
    ensures within { result ≤ length line.now }
{
    let mut count = 0;
    for byte in line {
        if is_changed(kind, *byte) {
            count += 1;
        }
    }
    count
}

// The column of the first such byte of a line, from 1.
fn first_in(kind: Change, line: &[u8]) -> Option<usize>
    ensures { result ≡ first_in kind 1 line.now }
{
    let mut column = 1;
    for byte in line {
        if is_changed(kind, *byte) {
            return Some(column);
        }
        column += 1;
    }
    None
}

/// How often a kind of change is made in the lines of a text, and where first.
pub fn tally_of(kind: Change, text: &[u8]) -> Tally
    ensures { IsTally kind (lines_of text.now) result }
{
    let mut tally = Tally {
        count: 0,
        first: None,
    };
    let mut number = 0;
    let mut rest = text;
    while let Some((line, after)) = next_line(rest) {
        number += 1;
        tally.count += count_in(kind, line) as u64;
        if tally.first.is_none() {
            tally.first = place_in(number, first_in(kind, line));
        }
        rest = after;
    }
    tally
}

// The place of a column in the line with this number.
fn place_in(line: u64, column: Option<usize>) -> Option<TextPlace>
    ensures { result ≡ place_in line column }
{
    let column = column? as u64;
    Some(TextPlace { line, column })
}
