//! A text, folded.

ghost use Rattle.std.specs.Prelude.{◌≡◌, ◌++◌, IsSome, IfOk, OnOk};
ghost use Rattle.card_code.specs.CardCode.{rows_of};
ghost use Rattle.card_code.specs.Lines.{lines_of};
ghost use Rattle.cli_decks.specs.FoldingWords.Changes.{IsTally, change_of};
ghost use Rattle.cli_decks.specs.FoldingWords.Folded.{changed_to, folded_line, folded_text};

use crate::folding::changes::{Change, Tally, change_of, tally_of};
use card_code::next_line;
use std::alloc::{AllocError, Global};

/// As many blanks as there are from one stop to the next.
const BLANKS: [u8; 8] = *b"        ";

/// The changes that were made in a text.
#[derive(Clone, Copy, Debug, PartialEq, Eq)]
pub struct Changes {
    /// Small letters that became capitals.
    pub capitals: Tally,
    /// Tabs that became blanks.
    pub tabs: Tally,
    /// Other bytes that were replaced.
    pub others: Tally,
}

/// A text that was folded.
#[derive(Drop)]
pub struct Folded {
    /// The text of the deck: each line is folded, and a line feed ends it.
    pub deck: Vec<u8>,
    /// What was changed.
    pub changes: Changes,
}

// Adds what a byte becomes in a column, which is counted from 0.
fn add_byte(deck: &mut Vec<u8>, fill: u8, column: usize, byte: u8) -> Result<(), AllocError>
    ensures { OnOk result (deck.new.items ≡ deck.old.items ++ changed_to fill column byte (change_of byte)) }
{
    match change_of(byte) {
        None => deck.push(byte)?,
        Some(Change::Capital) => deck.push(byte - 32)?,
        Some(Change::Blanks) => deck.extend_from_slice(&BLANKS[column % 8..])?,
        Some(Change::Replaced) => deck.push(fill)?,
    }
    Ok(())
}

// Adds a line, folded.
fn add_line(deck: &mut Vec<u8>, fill: u8, line: &[u8]) -> Result<(), AllocError>
    ensures { OnOk result (deck.new.items ≡ deck.old.items ++ folded_line fill line.now) }
{
    let start = deck.len();
    for byte in line {
        let column = deck.len() - start;
        add_byte(deck, fill, column, *byte)?;
    }
    Ok(())
}

/// Folds a text: the deck has a card for each line of it, and each byte that no card has was changed. `fill` is what becomes of a byte that
/// is no small letter and no tab.
///
/// # Errors
///
/// A growth was refused.
pub fn fold(alloc: Global, text: &[u8], fill: u8) -> Result<Folded, AllocError>
    requires { IsSome (rows_of fill) }
    ensures deck { IfOk result (λ folded. folded.deck.items ≡ folded_text fill (lines_of text.now)) }
    ensures capitals { IfOk result (λ folded. IsTally Change.Capital (lines_of text.now) folded.changes.capitals) }
    ensures tabs { IfOk result (λ folded. IsTally Change.Blanks (lines_of text.now) folded.changes.tabs) }
    ensures others { IfOk result (λ folded. IsTally Change.Replaced (lines_of text.now) folded.changes.others) }
{
    let mut deck = Vec::new(alloc);
    let mut rest = text;
    while let Some((line, after)) = next_line(rest) {
        add_line(&mut deck, fill, line)?;
        deck.push(b'\n')?;
        rest = after;
    }
    Ok(Folded {
        deck,
        changes: Changes {
            capitals: tally_of(Change::Capital, text),
            tabs: tally_of(Change::Blanks, text),
            others: tally_of(Change::Replaced, text),
        },
    })
}
