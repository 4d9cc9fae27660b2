//! A run of a deck through a setup of the panel, taken from cycle to cycle.
//!
//! A [`DeckRun`] stands between two cycles. [`DeckRun::enter`] takes it behind the points of the one that is due, where its units are seen,
//! and [`DeckRun::leave`] to the end of that cycle.

ghost use Rattle.std.specs.Prelude.{◌≡◌};
ghost use Rattle.machine.specs.Runs.{cards_moved};

use card_code::Card;
use hubs::setups::Setup;
use machine::{KeptPoint, SteppedMachine};
use net::Cycle;
use std::alloc::{AllocError, Global};

/// A run of a deck. Its caller enters each cycle that is due, looks at the machine behind the points of the cycle, and leaves the cycle.
#[derive(Drop)]
pub struct DeckRun<'a> {
    /// The machine.
    pub machine: SteppedMachine,
    /// The cards that are left in the hopper.
    pub hopper: &'a [Card],
    /// How many cards were read.
    pub card: u32,
    /// How many cycles were begun.
    pub begun: u64,
}

// The cards of a machine move on by one: the first card of the hopper goes to first reading, none if the hopper is empty. Answers what is
// left in it.
fn move_on<'a>(machine: &mut SteppedMachine, hopper: &'a [Card]) -> &'a [Card]
    ensures moved { cards_moved machine.old.machine hopper.now ≡ record { machine = machine.new.machine; hopper = result.now } }
    ensures net { machine.new.net ≡ machine.old.net }
{
    match hopper.split_first() {
        Some((card, others)) => {
            machine.load(Some(*card));
            others
        }
        None => {
            machine.load(None);
            hopper
        }
    }
}

impl<'a> DeckRun<'a> {
    ghost use Rattle.std.specs.Prelude.{◌≡◌, ◌<◌, ◌≤◌, IfOk, IfSome, List, None, OnOk, length, ℕ};
    ghost use Rattle.card_code.specs.MostCards.{most_cards};
    ghost use Rattle.explain_wheels.specs.RunsWords.{Along, ArePointsOf, Ends, HasCycle, IsBegun, IsBetween, IsIn, along_in, along_of, ready};
    ghost use Rattle.hubs.specs.SetupsWords.Wiring.{Wiring};
    ghost use Rattle.machine.specs.Kept.{KeepsPoints};
    ghost use Rattle.machine.specs.Runs.{cycle_due};

    /// The run of a deck on a setup of the panel, before any cycle. Fails only if no memory is left.
    pub fn begin(alloc: Global, setup: &Setup, cards: &'a [Card]) -> Result<DeckRun<'a>, AllocError>
        ensures { IfOk result (IsBegun setup.now cards.now) }
    {
        let mut machine = SteppedMachine::new(alloc, setup)?;
        let hopper = move_on(&mut machine, cards);
        Ok(DeckRun {
            machine,
            hopper,
            card: 0,
            begun: 0,
        })
    }

    // Makes the machine ready for a cycle: just before a card cycle the cards move on.
    fn make_ready(&mut self, setup: &Setup, cards: &[Card], cycle: Cycle)
        requires few { length cards.now ≤ most_cards }
        requires between { IsBetween setup.now cards.now self.old }
        ensures made { along_of self.new ≡ along_in cycle (along_of self.old) }
        ensures net { self.new.machine.net ≡ self.old.machine.net }
    {
        self.begun += 1;
        match cycle {
            Cycle::Card => {
                self.hopper = move_on(&mut self.machine, self.hopper);
                self.card += 1;
            }
            Cycle::RunIn | Cycle::Prog(_, _) | Cycle::Head(_) => {}
        }
    }

    /// Goes behind the points of the cycle that is due, and answers which one it is; `None` if the run is over, which then stays. The setup and the cards are
    /// those of the run, at most 999,999.
    pub fn enter(&mut self, setup: &Setup, cards: &[Card]) -> Option<Cycle>
        requires few { length cards.now ≤ most_cards }
        requires between { IsBetween setup.now cards.now self.old }
        ensures enters { IfSome result (λ cycle. IsIn setup.now cards.now cycle (along_of self.old) self.new) }
        ensures over { result ≡ None → cycle_due self.old.machine.machine ≡ None }
        ensures stays { result ≡ None → self.new ≡ self.old }
    {
        let cycle = self.machine.cycle_due()?;
        self.make_ready(setup, cards, cycle);
        self.machine.run_points(cycle);
        Some(cycle)
    }

    /// Goes behind the points of the cycle that is due, if one is.
    pub fn enter_due(&mut self, setup: &Setup, cards: &[Card]) -> Cycle
        requires few { length cards.now ≤ most_cards }
        requires between { IsBetween setup.now cards.now self.old }
        requires due { cycle_due self.old.machine.machine ≡ None → ⊥ }
        ensures { IsIn setup.now cards.now result (along_of self.old) self.new }
    {
        match self.enter(setup, cards) {
            Some(cycle) => cycle,
            None => unreachable!(),
        }
    }

    /// The same, and keeps the points of the cycle: what emitted at each, and which contacts were closed.
    pub fn enter_kept(&mut self, setup: &Setup, cards: &[Card]) -> (Cycle, [KeptPoint; 14])
        requires few { length cards.now ≤ most_cards }
        requires between { IsBetween setup.now cards.now self.old }
        requires due { cycle_due self.old.machine.machine ≡ None → ⊥ }
        ensures inside { IsIn setup.now cards.now result.0 (along_of self.old) self.new }
        ensures kept { KeepsPoints setup.now result.0 (ready result.0 (along_of self.old)) 14 result.1 }
    {
        match self.machine.cycle_due() {
            Some(cycle) => {
                self.make_ready(setup, cards, cycle);
                (cycle, self.machine.run_points_kept(cycle))
            }
            None => unreachable!(),
        }
    }

    /// Goes to the end of the cycle in which the run stands.
    pub fn leave(&mut self, cycle: Cycle)
        ensures { (wiring : Wiring) (deck : List (List ℕ)) (from : Along) → IsIn wiring deck cycle from self.old
            → Ends wiring deck cycle from self.old.machine.machine self.new }
    {
        self.machine.end_cycle(cycle);
    }

    /// Goes on until so many cycles are over, or the run is. No more than so many are over yet.
    pub fn go_to(&mut self, setup: &Setup, cards: &[Card], count: u64)
        requires few { length cards.now ≤ most_cards }
        requires between { IsBetween setup.now cards.now self.old }
        requires before { self.old.begun ≤ count }
        ensures between { IsBetween setup.now cards.now self.new }
        ensures near { self.new.begun ≤ count }
        ensures over { self.new.begun < count → cycle_due self.new.machine.machine ≡ None }
    {
        while self.begun < count {
            let Some(cycle) = self.enter(setup, cards) else {
                return;
            };
            self.leave(cycle);
        }
    }

    // Begins anew, if the run has gone past the cycle behind so many others.
    fn go_back(
        &mut self,
        alloc: Global,
        setup: &Setup,
        cards: &'a [Card],
        count: u64,
    ) -> Result<(), AllocError>
        requires { IsBetween setup.now cards.now self.old }
        ensures between { IsBetween setup.now cards.now self.new }
        ensures before { OnOk result (self.new.begun ≤ count) }
    {
        if count < self.begun {
            *self = DeckRun::begin(alloc, setup, cards)?;
        }
        Ok(())
    }

    /// The points of the cycle of the run that comes behind so many others, which the run has: what emitted at each, and which contacts
    /// were closed. The run goes on to the end of it, and begins anew if it has gone past it: so cycles that are asked for in their order take
    /// one run. The setup and the cards are those of the run, at most 999,999. Fails only if no memory is left.
    pub fn cycle_behind(
        &mut self,
        alloc: Global,
        setup: &Setup,
        cards: &'a [Card],
        count: u64,
    ) -> Result<[KeptPoint; 14], AllocError>
        requires few { length cards.now ≤ most_cards }
        requires between { IsBetween setup.now cards.now self.old }
        requires has { HasCycle setup.now cards.now count }
        ensures points { IfOk result (ArePointsOf setup.now cards.now count) }
        ensures between { IsBetween setup.now cards.now self.new }
    {
        self.go_back(alloc, setup, cards, count)?;
        self.go_to(setup, cards, count);
        let (cycle, points) = self.enter_kept(setup, cards);
        self.leave(cycle);
        Ok(points)
    }
}
