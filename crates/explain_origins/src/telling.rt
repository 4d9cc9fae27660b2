//! The origins of what a wheel of a printed line is printed of.

ghost use Rattle.std.specs.Prelude.{◌≡◌, ◌≤◌, ◌<◌, ◌+◌, IfOk, IfSome, OnOk, length};
ghost use Rattle.card_code.specs.MostCards.{most_cards};
ghost use Rattle.explain_ledgers.specs.LedgersWords.Running.{HasCycle, PlacesLine};
ghost use Rattle.explain_origins.specs.Holders.{IsHolder};
ghost use Rattle.explain_origins.specs.Pilots.{pilot_text};
ghost use Rattle.explain_origins.specs.Storage.{storage_text};
ghost use Rattle.explain_origins.specs.ToldOrigins.{AreHolderTexts, AreOrigins, IsHolderText, IsTextBy};

use crate::changes::{PassedCycle, last_move};
use crate::holders::{HOLDERS, Holder, holder_at, ways_rest_on};
use crate::latches::latch_text;
use crate::levels::add_called_by;
use crate::pilots::write_pilot;
use crate::placing::add_placing;
use crate::storage::write_storage;
use card_code::Card;
use explain_ledgers::ledgers::FoundCycle;
use hubs::Hub;
use hubs::setups::Setup;
use std::alloc::{AllocError, Global};

// What is told of a storage unit, 1 to 4.
fn storage_text(
    alloc: Global,
    setup: &Setup,
    cards: &[Card],
    unit: u8,
    ways: &[Option<Vec<Hub>>],
    last: Option<PassedCycle>,
) -> Result<Vec<u8>, AllocError>
    requires { length ways.now ≡ 12 }
    ensures { IfOk result (λ text. text.items ≡ storage_text setup.now cards.now unit ways.now last) }
{
    let mut text = Vec::new(alloc);
    match write_storage(&mut text, setup, cards, unit, ways, last) {
        Ok(()) => Ok(text),
        Err(_) => Err(AllocError),
    }
}

// What is told of a pilot.
fn pilot_text(
    alloc: Global,
    setup: &Setup,
    cards: &[Card],
    pilot: u8,
    last: Option<PassedCycle>,
) -> Result<Vec<u8>, AllocError>
    ensures { IfOk result (λ text. text.items ≡ pilot_text setup.now cards.now pilot last) }
{
    let mut text = Vec::new(alloc);
    match write_pilot(&mut text, setup, cards, pilot, last) {
        Ok(()) => Ok(text),
        Err(_) => Err(AllocError),
    }
}

// What is told of a holder, by some ways and by the last cycle that moved it.
fn text_by(
    alloc: Global,
    setup: &Setup,
    cards: &[Card],
    ways: &[Option<Vec<Hub>>],
    holder: Holder,
    last: Option<PassedCycle>,
) -> Result<Vec<u8>, AllocError>
    requires few { length cards.now ≤ most_cards }
    requires ways { length ways.now ≡ 12 }
    requires holder { IsHolder holder }
    requires has { IfSome last (λ since. HasCycle setup.now cards.now since.passed) }
    ensures { IfOk result (λ text. IsTextBy setup.now cards.now ways.now holder last text.items) }
{
    match holder {
        Holder::Storage { place } => {
            storage_text(alloc, setup, cards, place as u8 + 1, ways, last)
        }
        Holder::Pilot { pilot } => pilot_text(alloc, setup, cards, pilot, last),
        Holder::Latch { place } => latch_text(alloc, setup, cards, place, last),
    }
}

// The text of a holder before the cycle behind so many others: nothing if none of the ways rests on what it holds.
fn holder_text(
    alloc: Global,
    setup: &Setup,
    cards: &[Card],
    passed: u64,
    ways: &[Option<Vec<Hub>>],
    holder: Holder,
) -> Result<Vec<u8>, AllocError>
    requires few { length cards.now ≤ most_cards }
    requires has { HasCycle setup.now cards.now passed }
    requires ways { length ways.now ≡ 12 }
    requires holder { IsHolder holder }
    ensures { IfOk result (λ text. IsHolderText setup.now cards.now passed ways.now holder text.items) }
{
    if !ways_rest_on(holder, ways) {
        return Ok(Vec::new(alloc));
    }
    let last = last_move(alloc, setup, cards, passed, holder)?;
    let text = text_by(alloc, setup, cards, ways, holder, last)?;
    Ok(text)
}

// Puts the text of the holder of a place behind those of the holders before it.
fn add_holder(
    alloc: Global,
    text: &mut Vec<u8>,
    setup: &Setup,
    cards: &[Card],
    passed: u64,
    ways: &[Option<Vec<Hub>>],
    place: usize,
) -> Result<(), AllocError>
    requires few { length cards.now ≤ most_cards }
    requires has { HasCycle setup.now cards.now passed }
    requires ways { length ways.now ≡ 12 }
    requires place { place < 52 }
    requires texts { AreHolderTexts setup.now cards.now passed ways.now place text.old.items }
    ensures { OnOk result (AreHolderTexts setup.now cards.now passed ways.now (place + 1) text.new.items) }
{
    let one = holder_text(alloc, setup, cards, passed, ways, holder_at(place))?;
    Ok(text.extend_from_slice(one.as_slice())?)
}

// The texts of all holders, before the cycle behind so many others.
fn holder_texts(
    alloc: Global,
    setup: &Setup,
    cards: &[Card],
    passed: u64,
    ways: &[Option<Vec<Hub>>],
) -> Result<Vec<u8>, AllocError>
    requires few { length cards.now ≤ most_cards }
    requires has { HasCycle setup.now cards.now passed }
    requires ways { length ways.now ≡ 12 }
    ensures { IfOk result (λ text. AreHolderTexts setup.now cards.now passed ways.now 52 text.items) }
{
    let mut text = Vec::new(alloc);
    for place in 0..HOLDERS {
        add_holder(alloc, &mut text, setup, cards, passed, ways, place)?;
    }
    Ok(text)
}

/// The text of the origins of what is printed on a wheel of a line that a cycle placed, of a deck of at most 999,999 cards on a setup of the
/// panel, by the ways to the wheel at the twelve rows of the cycle. Of each storage unit at whose exits one of the ways begins it tells
/// since which cycle the unit holds its text, and for each row by which hole of a card; of each pilot that a way passes transferred, which
/// cycle picked it up and by which hole; of each balance latch that a way passes set, which cycle tested it and which number; of a program
/// cycle, why it runs; and last why the line stands where it stands. Fails only if no memory is left.
pub fn origins_of(
    alloc: Global,
    setup: &Setup,
    cards: &[Card],
    found: FoundCycle,
    ways: &[Option<Vec<Hub>>],
) -> Result<Vec<u8>, AllocError>
    requires few { length cards.now ≤ most_cards }
    requires places { PlacesLine setup.now cards.now found }
    requires rows { length ways.now ≡ 12 }
    ensures { IfOk result (λ text. AreOrigins setup.now cards.now found ways.now text.items) }
{
    let mut text = holder_texts(alloc, setup, cards, found.passed, ways)?;
    add_called_by(alloc, &mut text, setup, cards, found.card, found.cycle)?;
    add_placing(alloc, &mut text, setup, cards, found)?;
    Ok(text)
}
