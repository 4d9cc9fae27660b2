//! The totals of a chart, card by card.

ghost use Rattle.std.specs.Prelude.{◌≡◌, ◌+◌, ◌<◌, ◌≤◌, ℕ, IfSome, List, [], Some, length, map, option_map, position, slice_get, true};
ghost use Rattle.std.specs.List.{All};
ghost use Rattle.card_code.specs.MostCards.{most_cards};
ghost use Rattle.chart_rules.specs.Rules.{IsLawful};
ghost use Rattle.report_definition.specs.FollowedDecks.CardMisfits.{misfits_to};
ghost use Rattle.report_definition.specs.Breaks.{cleared, ended_after, no_cards, taking};
ghost use Rattle.report_definition.specs.Misfits.{first_of};
ghost use Rattle.chart_lines.specs.ChartsWords.Name.{is_same_name};
ghost use Rattle.report_misfits.specs.HelperNumbers.{AreWith, fields_of_amounts};
ghost use Rattle.report_misfits.specs.OpenSums.{AreSumsOf};
ghost use Rattle.report_misfits.specs.OpenTotals.{open_on};
ghost use Rattle.report_misfits.specs.ToldMisfits.{told};

use crate::groups::ended_after;
use crate::misfit::Misfit;
use crate::open_total::{Amount, OpenTotal, end_groups, first_misfit_to, settle, take_card};
use arrayvec::ArrayVec;
use card_code::Card;
use chart_lines::charts::{Field, Name, Statement};
use chart_rules::Chart;
use std::marker::Model;

// How many totals of amounts a chart has at most: one for each wheel of each of the four total lines.
const MOST_TOTALS: usize = 480;

/// The totals of a chart over the cards so far of the groups that have not ended, and how many cards there were, at most 999,999.
///
/// It takes the cards of a deck one by one, and tells the first total that has more digits than its total line has room for where the
/// total's group ends. No memory is taken.
///
/// Contracts see the open totals in the order of the chart's lines, and the number of cards.
#[derive(Drop)]
pub struct OpenSums {
    // The totals over the cards up to the last one that ended a group.
    totals: ArrayVec<OpenTotal, MOST_TOTALS>,
    // The amounts that are totalled, each once, with their sums over the cards since.
    amounts: ArrayVec<Amount, MOST_TOTALS>,
    // For each total the place of its amount among them.
    places: ArrayVec<u16, MOST_TOTALS>,
    cards: u32,
}

impl Model for OpenSums {
    ghost use Rattle.report_misfits.specs.OpenSums.{Sums};
    ghost use Rattle.report_misfits.specs.HelperPending.{settled};
    ghost use Rattle.report_misfits.specs.HelperSums.{AreKeptSums};

    ghost Value = { Sums };

    ghost view = { λ sums. record {
      totals = settled sums.totals.items sums.places.items sums.amounts.items;
      cards = sums.cards;
    } };

    ghost invariant = { λ sums. AreKeptSums sums.totals.items sums.places.items sums.amounts.items sums.cards };
}

// The open total of a line of the chart before the first card, if the line is a total of an amount.
fn open_total(chart: &Chart, statement: &Statement) -> Option<OpenTotal>
    ensures { result ≡ open_on chart.now.lines no_cards statement.now }
{
    match statement {
        Statement::TotalAmount(total) => Some(OpenTotal {
            level: total.level,
            digits: total.digits,
            field: chart.field(total.name)?,
            sum: 0,
        }),
        _ => None,
    }
}

// The place of an amount among the amounts that are totalled: it is put after the others where it is not one of them yet.
fn place_for(amounts: &mut ArrayVec<Amount, MOST_TOTALS>, field: Field) -> u16
    requires room { length amounts.old.items < 480 }
    requires by_name { All (λ amount. is_same_name amount.field.name field.name ≡ true → amount.field ≡ field) amounts.old.items }
    ensures there { slice_get (fields_of_amounts amounts.new.items) result ≡ Some field }
    ensures all { AreWith field amounts.old.items amounts.new.items }
{
    if let Some(place) = place_of(amounts.as_slice(), field.name) {
        return place as u16;
    }
    let place = amounts.len();
    amounts.push(Amount { field, pending: 0 });
    place as u16
}

// Where the amount with a name stands among some, if it does.
fn place_of(amounts: &[Amount], name: Name) -> Option<usize>
    ensures value { result ≡ position (λ amount. is_same_name amount.field.name name) amounts.now }
    ensures within { IfSome result (λ place. place < length amounts.now) }
{
    amounts.iter().position(|amount| amount.field.name.is(name))
}

impl OpenSums {
    /// Before the first card: each total is 0.
    pub fn new(chart: &Chart) -> OpenSums
        ensures begun { AreSumsOf chart.now.lines no_cards result }
        ensures no_cards { result.cards ≡ 0 }
    {
        let mut totals = ArrayVec::new();
        let mut amounts = ArrayVec::new();
        let mut places = ArrayVec::new();
        for line in chart.lines() {
            if let Some(total) = open_total(chart, &line.statement) {
                places.push(place_for(&mut amounts, total.field));
                totals.push(total);
            }
        }
        OpenSums {
            totals,
            amounts,
            places,
            cards: 0,
        }
    }

    /// Takes a card of the chart's deck, given the one after it, and ends the groups that end with it; after the last card of the deck all
    /// groups end. Tells the first of their totals that does not fit: by its level, the lowest first, then by its line of the chart.
    ///
    /// At most 999,998 cards were taken before.
    pub fn take(&mut self, chart: &Chart, card: &Card, next: &Option<Card>) -> Option<Misfit>
        requires { self.old.cards < most_cards }
        ensures told { (so_far : ℕ → List (List ℕ)) → AreSumsOf chart.now.lines so_far self.old →
            option_map told result ≡ first_of (misfits_to chart.now.lines (self.old.cards + 1)
            (ended_after chart.now.lines card.now next.now) (taking card.now so_far)) }
        ensures goes_on { (so_far : ℕ → List (List ℕ)) → AreSumsOf chart.now.lines so_far self.old →
            AreSumsOf chart.now.lines
            (cleared (ended_after chart.now.lines card.now next.now) (taking card.now so_far)) self.new }
        ensures counted { self.new.cards ≡ self.old.cards + 1 }
    {
        take_card(self.amounts.as_mut_slice(), card);
        self.cards += 1;
        let ended = ended_after(chart, card, next);
        // Nearly all cards end no group. The totals are brought up to the card only where one ends.
        if ended == 0 {
            return None;
        }
        settle(
            self.totals.as_mut_slice(),
            self.places.as_slice(),
            self.amounts.as_mut_slice(),
        );
        let misfit = first_misfit_to(self.totals.as_slice(), ended, self.cards);
        end_groups(self.totals.as_mut_slice(), ended);
        misfit
    }
}
