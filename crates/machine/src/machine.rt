//! The machine, fed card by card.

use crate::fault::FeedFault;
use crate::kept::KeptCycle;
use crate::units::Units;
use card_code::{Card, MOST_CARDS};
use hubs::setups::Setup;
use net::{Net, RowSets};
use page_text::placed_lines::PlacedLine;
use std::alloc::{AllocError, Global};
use std::marker::Model;

/// A machine with a setup of the panel. It is fed the cards of a deck one by one, and then the end.
///
/// Where memory is refused in a feed, the machine is spoiled, and takes nothing more. So it is where [`Machine::feed_to`] has answered a
/// cycle, since the rest of that feed isn't run.
pub struct Machine {
    net: Net,
    // Room for the rows of a cycle, so that it is not made anew for each.
    sets: RowSets,
    units: Units,
    // How many cards were fed.
    cards: u32,
    is_ended: bool,
    is_spoiled: bool,
}

// By hand, so that a function that drops one calls this, and doesn't drop its parts one by one.
impl Drop for Machine {
    fn drop(self) {
        let Machine {
            net: _net,
            sets: _sets,
            units: _units,
            cards: _cards,
            is_ended: _is_ended,
            is_spoiled: _is_spoiled,
        } = self;
    }
}

impl Model for Machine {
    ghost use Rattle.machine.specs.Running.{Running};

    ghost Value = { Running };

    ghost view = { λ machine. record {
      net = machine.net;
      machine = machine.units;
      cards = machine.cards;
      is_ended = machine.is_ended;
      is_spoiled = machine.is_spoiled;
    } };

    ghost use Rattle.std.specs.Prelude.{◌≤◌};
    ghost use Rattle.card_code.specs.MostCards.{most_cards};

    ghost invariant = { λ machine. machine.cards ≤ most_cards };
}

impl Machine {
    ghost use Rattle.std.specs.Prelude.{◌≡◌, ◌⊎◌, Some, None, Ok, Err, IfOk, IfErr, OnOk, true, IfSome};
    ghost use Rattle.machine.specs.Running.{IsStarted, refusal, fed};
    ghost use Rattle.machine.specs.Gains.{GainsFeed, GainsPrefix};
    ghost use Rattle.machine.specs.Kept.{FeedsPast, GainsKept, GainsSome, PlacedInFeed};
    ghost use Rattle.net.specs.Nets.{IsNetOf};
    ghost use Rattle.hubs.specs.SetupsWords.Wiring.{Wiring};
    ghost use Rattle.machine.specs.declared.fault.FeedFault.{FeedFault};
    ghost use Rattle.machine.specs.declared.fault.FeedFault.TheVariants.{Memory};

    /// The machine of a setup, before the first card. Fails only where no memory is left.
    pub fn new(alloc: Global, setup: &Setup) -> Result<Machine, AllocError>
        ensures { IfOk result (IsStarted setup.now) }
    {
        Ok(Machine {
            net: Net::of(alloc, setup)?,
            sets: RowSets::new(),
            units: Units::new(setup),
            cards: 0,
            is_ended: false,
            is_spoiled: false,
        })
    }

    /// Feeds the next card, or the end, and puts the lines of the cycles that follow after those of `out`.
    ///
    /// The first card runs the run-in. Each later card, and the end, runs the card cycle of the card before it, with the
    /// heading cycles that precede that and the cycles after it, up to those of the next card. The end as the first
    /// feed runs nothing.
    ///
    /// Refused with `Spoiled` where a feed before this one was not run to its end, as memory was refused in it or `feed_to` answered a
    /// cycle, else with `TooManyCards` for a card after 999,999 of them, else with `Ended` where the end was fed before: then nothing
    /// changes. With `Memory` where memory is refused in this feed: then `out` has gained the first of the lines that were due, and the
    /// machine is spoiled.
    pub fn feed(&mut self, next: Option<Card>, out: &mut Vec<PlacedLine>) -> Result<(), FeedFault>
        ensures lines { OnOk result (GainsFeed self.old.net self.old.machine next self.new.machine out.old.items out.new.items) }
        ensures goes_on { OnOk result (self.new ≡ fed next self.new.machine self.old) }
        ensures accepted { OnOk result (refusal self.old next ≡ None) }
        ensures faults { IfErr result (λ fault. (fault ≡ Memory) ⊎ (refusal self.old next ≡ Some fault)) }
        ensures refused { (fault : FeedFault) → refusal self.old next ≡ Some fault → result ≡ Err fault }
        ensures unchanged { (fault : FeedFault) → refusal self.old next ≡ Some fault → self.new ≡ self.old }
        ensures no_lines { (fault : FeedFault) → refusal self.old next ≡ Some fault → out.new.items ≡ out.old.items }
        ensures memory { result ≡ Err Memory → GainsPrefix self.old.net self.old.machine next out.old.items out.new.items }
        ensures spoiled { result ≡ Err Memory → self.new.is_spoiled ≡ true }
    {
        self.feed_next(&next, out)
    }

    /// The same, where the next card stays with the caller.
    pub fn feed_next(
        &mut self,
        next: &Option<Card>,
        out: &mut Vec<PlacedLine>,
    ) -> Result<(), FeedFault>
        ensures lines { OnOk result (GainsFeed self.old.net self.old.machine next.now self.new.machine out.old.items out.new.items) }
        ensures goes_on { OnOk result (self.new ≡ fed next.now self.new.machine self.old) }
        ensures accepted { OnOk result (refusal self.old next.now ≡ None) }
        ensures faults { IfErr result (λ fault. (fault ≡ Memory) ⊎ (refusal self.old next.now ≡ Some fault)) }
        ensures refused { (fault : FeedFault) → refusal self.old next.now ≡ Some fault → result ≡ Err fault }
        ensures unchanged { (fault : FeedFault) → refusal self.old next.now ≡ Some fault → self.new ≡ self.old }
        ensures no_lines { (fault : FeedFault) → refusal self.old next.now ≡ Some fault → out.new.items ≡ out.old.items }
        ensures memory { result ≡ Err Memory → GainsPrefix self.old.net self.old.machine next.now out.old.items out.new.items }
        ensures spoiled { result ≡ Err Memory → self.new.is_spoiled ≡ true }
    {
        if let Some(fault) = self.refusal(next) {
            return Err(fault);
        }
        let fed = self.units.feed(&self.net, &mut self.sets, next, out);
        if fed.is_err() {
            self.is_spoiled = true;
            return Err(FeedFault::Memory);
        }
        self.count(next);
        Ok(())
    }

    /// Feeds the next card, or the end, as [`Machine::feed`] does, up to the cycle that places a line at this page and this line of
    /// it: answers that cycle with its points and the line, and takes nothing more then. `None` where no cycle of the feed does; then all
    /// of them ran.
    ///
    /// Refused as a feed is, but never for want of memory: then nothing changes.
    pub fn feed_to(
        &mut self,
        next: Option<Card>,
        page: u64,
        line: u32,
    ) -> Result<Option<KeptCycle>, FeedFault>
        ensures found { (wiring : Wiring) → IsNetOf wiring self.old.net
            → IfOk result (λ found. IfSome found (PlacedInFeed wiring self.old.machine next)) }
        ensures page { IfOk result (λ found. IfSome found (λ kept. kept.line.page ≡ page)) }
        ensures line { IfOk result (λ found. IfSome found (λ kept. kept.line.line ≡ line)) }
        ensures past { (wiring : Wiring) → IsNetOf wiring self.old.net → result ≡ Ok None
            → FeedsPast wiring self.old.machine next self.new.machine page line }
        ensures goes_on { result ≡ Ok None → self.new ≡ fed next self.new.machine self.old }
        ensures spoiled { IfOk result (λ found. IfSome found (λ _. self.new.is_spoiled ≡ true)) }
        ensures refused { (fault : FeedFault) → refusal self.old next ≡ Some fault → result ≡ Err fault }
        ensures faults { IfErr result (λ fault. refusal self.old next ≡ Some fault) }
        ensures unchanged { (fault : FeedFault) → refusal self.old next ≡ Some fault → self.new ≡ self.old }
    {
        if let Some(fault) = self.refusal(&next) {
            return Err(fault);
        }
        if let Some(kept) = self.units.feed_to(&self.net, &next, page, line) {
            self.is_spoiled = true;
            return Ok(Some(kept));
        }
        self.count(&next);
        Ok(None)
    }

    /// Feeds the next card, or the end, as [`Machine::feed`] does, and puts the cycles that place a line on this page, each with its
    /// points and the line, after those of `kept`.
    ///
    /// Refused with `Spoiled`, `TooManyCards` or `Ended` as a feed is: then nothing changes. With `Memory` where memory is refused in this feed:
    /// then `kept` has gained the first of these cycles, and the machine is spoiled.
    pub fn feed_page(
        &mut self,
        next: Option<Card>,
        page: u64,
        kept: &mut Vec<KeptCycle>,
    ) -> Result<(), FeedFault>
        ensures kept { OnOk result (GainsKept self.old.net self.old.machine next self.new.machine page kept.old.items kept.new.items) }
        ensures goes_on { OnOk result (self.new ≡ fed next self.new.machine self.old) }
        ensures accepted { OnOk result (refusal self.old next ≡ None) }
        ensures faults { IfErr result (λ fault. (fault ≡ Memory) ⊎ (refusal self.old next ≡ Some fault)) }
        ensures refused { (fault : FeedFault) → refusal self.old next ≡ Some fault → result ≡ Err fault }
        ensures unchanged { (fault : FeedFault) → refusal self.old next ≡ Some fault → self.new ≡ self.old }
        ensures no_cycles { (fault : FeedFault) → refusal self.old next ≡ Some fault → kept.new.items ≡ kept.old.items }
        ensures memory { result ≡ Err Memory → GainsSome self.old.net self.old.machine next page kept.old.items kept.new.items }
        ensures spoiled { result ≡ Err Memory → self.new.is_spoiled ≡ true }
    {
        if let Some(fault) = self.refusal(&next) {
            return Err(fault);
        }
        if self.units.feed_page(&self.net, &next, page, kept).is_err() {
            self.is_spoiled = true;
            return Err(FeedFault::Memory);
        }
        self.count(&next);
        Ok(())
    }

    // Counts the card that was fed, or takes down that the end was.
    fn count(&mut self, next: &Option<Card>)
        requires { refusal self.old next.now ≡ None }
        ensures machine { self.new.machine ≡ self.old.machine }
        ensures counted { self.new ≡ fed next.now self.old.machine self.old }
    {
        match next {
            Some(_) => self.cards += 1,
            None => self.is_ended = true,
        }
    }

    // Why a feed is refused, if it is.
    fn refusal(&self, next: &Option<Card>) -> Option<FeedFault>
        ensures { result ≡ refusal self.now next.now }
    {
        if self.is_spoiled {
            Some(FeedFault::Spoiled)
        } else if next.is_some() && self.cards as usize == MOST_CARDS {
            Some(FeedFault::TooManyCards)
        } else if self.is_ended {
            Some(FeedFault::Ended)
        } else {
            None
        }
    }
}
