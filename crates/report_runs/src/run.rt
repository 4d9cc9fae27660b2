//! A run between two cards.

ghost use Rattle.std.specs.Prelude.{◌≡◌, ℕ, ◌+◌, ◌<◌, ◌≤◌, List, [], ◌∷◌, ◌++◌, Some, None, length, true, false, IfErr, IfOk, IfSome, IfNone, MatchResult, OnOk, option_map};
ghost use Rattle.std.specs.Io.KnownBytes.{IsAtEnd};
ghost use Rattle.card_code.specs.MostCards.{most_cards};
ghost use Rattle.report_streams.specs.declared.card_lines.fault.ReadFault.TheVariants as read;
ghost use Rattle.chart_rules.specs.ValidCard.{IsValidCard};
ghost use Rattle.report_definition.specs.FollowedDecks.FitSoFar.{misfits_of_last};
ghost use Rattle.machine.specs.Gains.{GainsFeed};
ghost use Rattle.machine.specs.Running.{IsStarted};
ghost use Rattle.report_misfits.specs.OpenSums.{AreSumsOf};
ghost use Rattle.report_misfits.specs.ToldMisfits.{told};
ghost use Rattle.report_definition.specs.Breaks.{no_cards};
ghost use Rattle.report_definition.specs.Misfits.{first_of};
ghost use Rattle.report_runs.specs.Causes.{HasCause};
ghost use Rattle.report_runs.specs.HelperStanding.{GoesOn, HasToCome, HaveLast, IsOfNext, ReadsOn, Serves, Stands, Start, Stops};
ghost use Rattle.report_runs.specs.Reading.{HasReadUpTo};
ghost use Rattle.report_runs.specs.declared.fault.StreamCause.TheVariants as cause;

use crate::fault::StreamCause;
use card_code::Card;
use chart_rules::{Chart, valid_read_card};
use hubs::setups::Setup;
use machine::Machine;
use page_text::placed_lines::PlacedLine;
use report_misfits::{Misfit, OpenSums};
use report_streams::card_lines::CardLines;
use report_streams::devices::{Sink, Source};
use report_writer::PageWriter;
use std::alloc::Global;

// What a run holds between two cards: the machine, which was fed all cards that were read; the sums of all of them but the last; the last
// one, if there was one; and how many there were. The next card is punched into the place that it has, and the lines of a feed are put into
// room that is taken once.
#[derive(Drop)]
pub(crate) struct Run {
    machine: Machine,
    sums: OpenSums,
    last: Option<Card>,
    next: Option<Card>,
    pub count: u32,
    lines: Vec<PlacedLine>,
}

// A run before the first card.
pub(crate) fn begin(alloc: Global, chart: &Chart, setup: &Setup) -> Result<Run, StreamCause>
    ensures machine { IfOk result (λ run. IsStarted setup.now run.machine) }
    ensures sums { IfOk result (λ run. AreSumsOf chart.now.lines no_cards run.sums) }
    ensures none_taken { IfOk result (λ run. run.sums.cards ≡ 0) }
    ensures none_waits { IfOk result (λ run. run.last ≡ None) }
    ensures none_counted { IfOk result (λ run. run.count ≡ 0) }
    ensures refused { IfErr result (λ fault. fault ≡ cause.Memory) }
{
    Ok(Run {
        machine: Machine::new(alloc, setup)?,
        sums: OpenSums::new(chart),
        last: None,
        next: None,
        count: 0,
        lines: Vec::new(alloc),
    })
}

// Takes a run a card further, in this order: the next card, or the end of the deck, is read and checked; the totals of the groups that end
// with the card that waits are tried; the machine is fed the next card, or the end; the lines that this gives are written. Tells whether
// there was a card.
pub(crate) fn step<S: Source + Drop, W: Sink + Drop>(
    chart: &Chart,
    cards: &mut CardLines<S>,
    run: &mut Run,
    pages: &mut PageWriter<W>,
) -> Result<bool, StreamCause>
    requires { (start : Start) × Serves chart.now start.wiring
        × Stands S.left W.held W.has_failed chart.now start cards.old run.old pages.old }
    ensures goes_on { (start : Start) → Serves chart.now start.wiring
        → Stands S.left W.held W.has_failed chart.now start cards.old run.old pages.old
        → MatchResult result (GoesOn S.left W.held W.has_failed chart.now start cards.new run.new pages.new)
        (λ stopped. Stops W.held W.has_failed chart.now start stopped (S.left cards.new.source) pages.new) }
    ensures counted { IfOk result (λ goes_on. goes_on ≡ true → run.new.count ≡ run.old.count + 1) }
    ensures failed { IfErr result (λ fault. (line : ℕ) → fault ≡ cause.Card (read.Read line) → S.has_failed cards.new.source ≡ true) }
    ensures source { S.borrow cards.new.source ≡ S.borrow cards.old.source }
    ensures sink { W.borrow pages.new.out.sink ≡ W.borrow pages.old.out.sink }
{
    next_valid(chart, cards, run.count, &mut run.next)?;
    if let Some(misfit) = try_totals(&mut run.sums, chart, &run.last, &run.next) {
        return Err(StreamCause::Misfit { misfit });
    }
    feed(&mut run.machine, &run.next, &mut run.lines)?;
    pages.add_all(&run.lines)?;
    let is_last = run.next.is_none();
    run.last = run.next;
    if is_last {
        return Ok(false);
    }
    run.count += 1;
    Ok(true)
}

// Puts the next card in its place, if it is valid for the chart, or `None` at the end of the deck; `number` cards were read before.
fn next_valid<S: Source + Drop>(
    chart: &Chart,
    cards: &mut CardLines<S>,
    number: u32,
    next: &mut Option<Card>,
) -> Result<(), StreamCause>
    requires well { cards.old.has_failed ≡ false }
    requires number { cards.old.given ≡ number }
    requires few { number ≤ most_cards }
    ensures read { (text : List ℕ) (before : List (List ℕ)) → HasToCome S.left text before cards.old → length before ≡ number →
        MatchResult result (λ _. ReadsOn S.left text before cards.new next.new) (HasCause chart.now text before) }
    ensures up_to { (text : List ℕ) (before : List (List ℕ)) → HasToCome S.left text before cards.old →
        MatchResult result (λ _. HasReadUpTo text before cause.Write (S.left cards.new.source))
        (λ stopped. HasReadUpTo text before stopped (S.left cards.new.source)) }
    ensures valid { OnOk result (IfSome next.new (IsValidCard chart.now)) }
    ensures well { OnOk result (cards.new.has_failed ≡ false) }
    ensures one_more { OnOk result (IfSome next.new (λ _. (cards.new.given ≡ number + 1) × (number < most_cards))) }
    ensures all { OnOk result (IfNone next.new (IsAtEnd (S.left cards.new.source))) }
    ensures kind { IfErr result IsOfNext }
    ensures failed { IfErr result (λ fault. (line : ℕ) → fault ≡ cause.Card (read.Read line) → S.has_failed cards.new.source ≡ true) }
    ensures same { S.borrow cards.new.source ≡ S.borrow cards.old.source }
{
    if let Err(fault) = cards.next_into(next) {
        return Err(fault.into());
    }
    if let Some(card) = &*next {
        if let Err(fault) = valid_read_card(chart, card) {
            return Err(StreamCause::Invalid {
                fault,
                card: number + 1,
            });
        }
    }
    Ok(())
}

// The first misfit of the groups that end with the last card, given the next one; none before the first card.
fn try_totals(
    sums: &mut OpenSums,
    chart: &Chart,
    last: &Option<Card>,
    next: &Option<Card>,
) -> Option<Misfit>
    requires { sums.old.cards < most_cards }
    ensures first { HaveLast chart.now.lines [] last.now sums.old → (result ≡ None) × (sums.new ≡ sums.old) }
    ensures tells { (card : List ℕ) (cards : List (List ℕ)) → HaveLast chart.now.lines (card ∷ cards) last.now sums.old →
        option_map told result ≡ first_of (misfits_of_last chart.now.lines card cards next.now) }
    ensures goes_on { (cards : List (List ℕ)) (one : List ℕ) → next.now ≡ Some one → HaveLast chart.now.lines cards last.now sums.old →
        HaveLast chart.now.lines (cards ++ one ∷ []) (Some one) sums.new }
{
    match last {
        Some(card) => sums.take(chart, card, next),
        None => None,
    }
}

// Feeds the machine the next card, or the end; the lines are then those of this feed.
fn feed(
    machine: &mut Machine,
    next: &Option<Card>,
    lines: &mut Vec<PlacedLine>,
) -> Result<(), StreamCause>
    ensures lines { OnOk result (GainsFeed machine.old.net machine.old.machine next.now machine.new.machine [] lines.new.items) }
    ensures net { OnOk result (machine.new.net ≡ machine.old.net) }
    ensures refused { IfErr result (λ fault. fault ≡ cause.Memory) }
{
    lines.clear();
    machine
        .feed_next(next, lines)
        .map_err(|_| StreamCause::Memory)
}
