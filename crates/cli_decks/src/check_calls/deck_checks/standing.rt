//! What a check holds between two lines.

ghost use Rattle.std.specs.Prelude.{◌≡◌, ◌+◌, ◌<◌, ◌≤◌, ℕ, List, Option, [], ◌∷◌, ◌++◌, OnOk, None, Some, option_to_list};
ghost use Rattle.card_code.specs.MostCards.{most_cards};
ghost use Rattle.cli_decks.specs.CheckCalls.DeckChecks.Listings.{misfit_told, totals_told, with_card};
ghost use Rattle.cli_decks.specs.CheckCalls.DeckChecks.Fine.{fine_words};
ghost use Rattle.cli_decks.specs.CheckCalls.DeckChecks.HelperStanding.{AreBeforeLast, IsAt, Takes, first_card};
ghost use Rattle.report_misfits.specs.ToldMisfits.{told};

use crate::check_calls::deck_checks::card::judge;
use crate::check_calls::deck_checks::fine::write_fine;
use card_code::Card;
use chart_rules::Chart;
use fault_lines::faults::{Fault, RunFault};
use report_misfits::{Misfit, OpenSums};
use std::alloc::Global;
use std::io;

// The sums of all cards but the last, and the first and the last one, if there is one, while all lines were good; and how many lines there
// were.
#[derive(Drop)]
pub(crate) struct Standing {
    sums: OpenSums,
    first: Option<Card>,
    last: Option<Card>,
    is_good: bool,
    count: u32,
}

// What is told of a total that does not fit.
fn told_of<'a>(misfit: Misfit) -> Fault<'a>
    ensures { result ≡ misfit_told (told misfit) }
{
    RunFault::DoesNotFit {
        level: misfit.level,
        name: misfit.name,
        card: misfit.card,
    }
    .into()
}

// What is told of the groups that end with the last card, given the next one: nothing before the first card.
fn try_totals<'a>(
    sums: &mut OpenSums,
    chart: &Chart,
    last: &Option<Card>,
    next: &Option<Card>,
) -> Option<Fault<'a>>
    requires { sums.old.cards < most_cards }
    ensures tells { (cards : List (List ℕ)) → AreBeforeLast chart.now.lines cards last.now sums.old →
        option_to_list result ≡ totals_told chart.now (Some cards) next.now }
    ensures goes_on { (cards : List (List ℕ)) (one : List ℕ) → next.now ≡ Some one → AreBeforeLast chart.now.lines cards last.now sums.old →
        AreBeforeLast chart.now.lines (cards ++ one ∷ []) (Some one) sums.new }
{
    match last {
        Some(card) => match sums.take(chart, card, next) {
            Some(misfit) => Some(told_of(misfit)),
            None => None,
        },
        None => None,
    }
}

// The first card, where there is one more.
fn first_with(first: &Option<Card>, card: &Card) -> Option<Card>
    ensures { result ≡ first_card first.now card.now }
{
    match first {
        Some(first) => Some(*first),
        None => Some(*card),
    }
}

impl Standing {
    // Before the first line.
    pub(crate) fn new(chart: &Chart) -> Standing
        ensures begun { IsAt chart.now.lines (Some []) result }
        ensures none { result.count ≡ 0 }
    {
        Standing {
            sums: OpenSums::new(chart),
            first: None,
            last: None,
            is_good: true,
            count: 0,
        }
    }

    // How many lines there were.
    pub(crate) fn count(&self) -> u32
        ensures { result ≡ self.now.count }
    {
        self.count
    }

    // Takes a good card, and tells what is told of the groups that end before it.
    fn take_card<'a>(&mut self, chart: &Chart, card: Card) -> Option<Fault<'a>>
        requires few { self.old.count < most_cards }
        requires stands { (so_far : Option (List (List ℕ))) × IsAt chart.now.lines so_far self.old }
        ensures told { (so_far : Option (List (List ℕ))) → IsAt chart.now.lines so_far self.old →
            option_to_list result ≡ totals_told chart.now so_far (Some card) }
        ensures goes_on { (so_far : Option (List (List ℕ))) → IsAt chart.now.lines so_far self.old →
            IsAt chart.now.lines (with_card card so_far) self.new }
        ensures counted { self.new.count ≡ self.old.count + 1 }
    {
        self.count += 1;
        if !self.is_good {
            return None;
        }
        self.first = first_with(&self.first, &card);
        let next = Some(card);
        let told = try_totals(&mut self.sums, chart, &self.last, &next);
        self.last = next;
        told
    }

    // Takes a line, and tells what is told where it comes: of the line, where it is bad, else of the groups that end before it.
    pub(crate) fn take<'a>(&mut self, chart: &Chart, line: &[u8]) -> Option<Fault<'a>>
        requires few { self.old.count < most_cards }
        requires stands { (so_far : Option (List (List ℕ))) × IsAt chart.now.lines so_far self.old }
        ensures takes { (so_far : Option (List (List ℕ))) → IsAt chart.now.lines so_far self.old →
            Takes chart.now (self.old.count + 1) line.now so_far (option_to_list result) self.new }
        ensures counted { self.new.count ≡ self.old.count + 1 }
    {
        match judge(chart, self.count + 1, line) {
            Ok(card) => self.take_card(chart, card),
            Err(fault) => {
                self.count += 1;
                self.is_good = false;
                Some(fault)
            }
        }
    }

    // Tells what is told of the groups that end with the deck.
    pub(crate) fn end<'a>(&mut self, chart: &Chart) -> Option<Fault<'a>>
        requires few { self.old.count ≤ most_cards }
        requires stands { (so_far : Option (List (List ℕ))) × IsAt chart.now.lines so_far self.old }
        ensures told { (so_far : Option (List (List ℕ))) → IsAt chart.now.lines so_far self.old →
            option_to_list result ≡ totals_told chart.now so_far None }
        ensures count { self.new.count ≡ self.old.count }
        ensures first { self.new.first ≡ self.old.first }
        ensures last { self.new.last ≡ self.old.last }
    {
        if !self.is_good {
            return None;
        }
        try_totals(&mut self.sums, chart, &self.last, &None)
    }

    // Writes what is told where nothing is wrong with the deck: how many cards there were, the first and the last one.
    pub(crate) fn write_fine(&self, alloc: Global, text: &mut Vec<u8>) -> io::Result<()>
        ensures { OnOk result (text.new.items ≡ text.old.items ++ fine_words self.now.count self.now.first self.now.last) }
    {
        write_fine(alloc, text, self.count, &self.first, &self.last)
    }
}
