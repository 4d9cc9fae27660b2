//! All cards of a deck that a chart can't be run with, each shown as it stands. The deck is held whole.

ghost use Rattle.std.specs.Prelude.{◌≡◌, ◌≢◌, ◌+◌, ◌<◌, ◌≤◌, ◌⊎◌, ◌++◌, ℕ, List, [], Option, IfErr, IfOk, OnOk, option_to_list};
ghost use Rattle.std.specs.List.{flat_map};
ghost use Rattle.card_code.specs.Lines.{lines_of};
ghost use Rattle.card_code.specs.MostCards.{most_cards};
ghost use Rattle.cli_decks.specs.CheckCalls.DeckChecks.HelperShown.{HasShown, TakesShown};
ghost use Rattle.cli_decks.specs.CheckCalls.DeckChecks.HelperStanding.{IsAt};
ghost use Rattle.cli_decks.specs.CheckCalls.DeckChecks.HelperTold.{first_with};
ghost use Rattle.cli_decks.specs.CheckCalls.DeckChecks.Shown as law;
ghost use Rattle.cli_decks.specs.CheckCalls.DeckChecks.Shown.{IsShown, IsTooLong};

use crate::check_calls::deck_checks::standing::Standing;
use card_code::{CARD_COLUMNS, DeckFault, MOST_CARDS, next_line};
use chart_rules::Chart;
use cli_sheets::bad_columns::{BadColumn, bad_column, write_bad_column};
use cli_sheets::sheets::write_marked_line;
use fault_lines::faults::{Fault, unprinted, write_line};
use std::alloc::Global;
use std::io;

/// What is told of a deck.
#[derive(Drop)]
pub struct Shown<'a> {
    /// The fault that is told first, if there is one.
    pub first: Option<Fault<'a>>,
    /// The text: each fault's line with the card below it, or, if there is none, `ok` and which cards there are.
    pub text: Vec<u8>,
}

// Writes a line of a deck with a mark under a column, or under the one that is at fault in a field, with what is wrong there.
fn write_marked_at(
    text: &mut Vec<u8>,
    chart: &Chart,
    line: &[u8],
    column: u32,
    at_fault: Option<BadColumn>,
) -> io::Result<()>
    ensures { OnOk result (text.new.items ≡ text.old.items ++ law.marked_at chart.now line.now column at_fault) }
{
    match at_fault {
        None => write_marked_line(text, chart, line, column),
        Some(bad) => {
            write_marked_line(text, chart, line, bad.column)?;
            write_bad_column(text, bad)
        }
    }
}

// The column at fault of the field that a fault of a number names by its first column.
#[tactic(auto, unfolding(crate::specs::CheckCalls::DeckChecks::Shown::column_at_fault))]
fn column_at_fault(chart: &Chart, line: &[u8], number: u8, column: u32) -> Option<BadColumn>
    ensures { result ≡ law.column_at_fault chart.now line.now number column }
{
    if number == 2 {
        None
    } else {
        bad_column(chart, column, line)
    }
}

// Writes a line of a deck with a mark on the card that a fault names, if it names one.
fn write_marked(text: &mut Vec<u8>, chart: &Chart, line: &[u8], told: &Fault) -> io::Result<()>
    ensures { OnOk result (text.new.items ≡ text.old.items ++ law.marked chart.now line.now told.now) }
{
    match told {
        Fault::Column { number, column, .. } => {
            let at_fault = column_at_fault(chart, line, *number, *column);
            write_marked_at(text, chart, line, *column, at_fault)
        }
        Fault::Card { .. } => write_marked_at(text, chart, line, CARD_COLUMNS as u32 + 1, None),
        _ => Ok(()),
    }
}

// Writes the line of a fault, and below it the card that it names, whose line is given.
fn write_entry(text: &mut Vec<u8>, chart: &Chart, line: &[u8], told: &Fault) -> io::Result<()>
    ensures { OnOk result (text.new.items ≡ text.old.items ++ law.entry_told chart.now line.now told.now) }
{
    write_line(told, text)?;
    write_marked(text, chart, line, told)
}

impl<'a> Shown<'a> {
    // Shows what is told of a line, if anything is.
    fn add(&mut self, chart: &Chart, line: &[u8], told: Option<Fault<'a>>) -> Result<(), Fault<'a>>
        ensures text { OnOk result (self.new.text.items
            ≡ self.old.text.items ++ flat_map (law.entry_told chart.now line.now) (option_to_list told.entry)) }
        ensures first { OnOk result (self.new.first ≡ first_with self.old.first told.entry) }
        ensures told { IfErr result (λ told. (told ≡ Fault.Memory) ⊎ (told ≡ Fault.Write)) }
    {
        let Some(fault) = told else {
            return Ok(());
        };
        if let Err(error) = write_entry(&mut self.text, chart, line, &fault) {
            return Err(unprinted(&error));
        }
        if self.first.is_none() {
            self.first = Some(fault);
        }
        Ok(())
    }

    // Takes a line of the deck, and shows what is told of it.
    fn take(&mut self, chart: &Chart, standing: &mut Standing, line: &[u8]) -> Result<(), Fault<'a>>
        requires few { standing.old.count < most_cards }
        requires stands { (so_far : Option (List (List ℕ))) × IsAt chart.now.lines so_far standing.old }
        ensures takes { OnOk result ((so_far : Option (List (List ℕ))) → IsAt chart.now.lines so_far standing.old
            → TakesShown chart.now (standing.old.count + 1) line.now so_far standing.new self.old self.new) }
        ensures counted { OnOk result (standing.new.count ≡ standing.old.count + 1) }
        ensures told { IfErr result (λ told. (told ≡ Fault.Memory) ⊎ (told ≡ Fault.Write)) }
    {
        let told = standing.take(chart, line);
        self.add(chart, line, told)
    }

    // Shows what is told where the deck ends: of the groups that end there, and, if nothing is told, which cards there are.
    fn end(
        &mut self,
        alloc: Global,
        chart: &Chart,
        standing: &mut Standing,
    ) -> Result<(), Fault<'a>>
        requires { (deck rest : List ℕ) × HasShown chart.now deck rest standing.old self.old × (lines_of rest ≡ []) }
        ensures shown { OnOk result ((deck rest : List ℕ) → HasShown chart.now deck rest standing.old self.old → lines_of rest ≡ []
            → IsShown chart.now deck self.new.first self.new.text.items) }
        ensures told { IfErr result (λ told. (told ≡ Fault.Memory) ⊎ (told ≡ Fault.Write)) }
    {
        let told = standing.end(chart);
        self.add(chart, b"", told)?;
        if self.first.is_some() {
            return Ok(());
        }
        match standing.write_fine(alloc, &mut self.text) {
            Ok(()) => Ok(()),
            Err(error) => Err(unprinted(&error)),
        }
    }
}

/// Shows all cards of a deck that a chart can't be run with, in the order of the deck: the line that [`check_cards`](crate::check_calls::deck_checks::check_cards)
/// writes of each, and below it the card as it stands, its first 80 bytes, with a mark under the column at fault and the names of the chart's
/// fields that have it; of a field that isn't valid also what is wrong with that column. Where there is none, it is `ok`, how many cards
/// there are, and the first and the last one.
///
/// # Errors
///
/// `Whole` with number 3 for a deck of more than 999,999 cards; `Memory` where a growth was refused.
pub fn show_cards<'a>(alloc: Global, chart: &Chart, deck: &[u8]) -> Result<Shown<'a>, Fault<'a>>
    ensures shown { IfOk result (λ shown. IsShown chart.now deck.now shown.first shown.text.items) }
    ensures told { IfErr result (λ told. (IsTooLong deck.now × (told ≡ Fault.Whole 3)) ⊎ ((told ≡ Fault.Memory) ⊎ (told ≡ Fault.Write))) }
{
    let mut standing = Standing::new(chart);
    let mut shown = Shown {
        first: None,
        text: Vec::new(alloc),
    };
    let mut rest = deck;
    while let Some((line, after)) = next_line(rest) {
        if standing.count() == MOST_CARDS as u32 {
            return Err(DeckFault::TooManyCards.into());
        }
        shown.take(chart, &mut standing, line)?;
        rest = after;
    }
    shown.end(alloc, chart, &mut standing)?;
    Ok(shown)
}
