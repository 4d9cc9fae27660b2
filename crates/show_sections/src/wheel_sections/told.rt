//! What is told of the printed characters of lines.

ghost use Rattle.std.specs.Prelude.{◌≡◌, ◌≤◌, ◌<◌, ◌+◌, IfOk, OnOk};
ghost use Rattle.explain_wheels.specs.ExplanationsWords.Pages.{AreFoundLines, IsFoundLine};
ghost use Rattle.show_sections.specs.WheelSections.Helper.{AreWaysOfLine, GainsTold, IsToldOf};
ghost use Rattle.show_sections.specs.WheelSections.ToldWheels.{AreTold, printed_by, printed_on, printed_places};

use card_code::Card;
use explain_wheels::explanations::{FoundLine, LineWays};
use explain_words::explanation_text::{ToldWheel, wheel_text};
use hubs::setups::Setup;
use page_text::placed_lines::PlacedLine;
use std::alloc::{AllocError, Global};

// What is told of a wheel of a line.
fn tell_wheel(
    alloc: Global,
    setup: &Setup,
    asked: &[(String, Setup)],
    cards: &[Card],
    placed: &PlacedLine,
    line: &LineWays,
    wheel: u8,
) -> Result<ToldWheel, AllocError>
    requires ways { AreWaysOfLine setup.now cards.now placed.now line.now }
    requires range { (1 ≤ wheel) × (wheel ≤ 120) }
    ensures { IfOk result (λ told. IsToldOf setup.now asked.now cards.now placed.now wheel told) }
{
    // Only the contract speaks of the deck and of the line: named here, they save it a clause for all decks and lines.
    let _cards = cards;
    let _placed = placed;
    let why = line.wheel(alloc, setup, wheel)?;
    let words = wheel_text(alloc, setup, asked, line, &why)?;
    Ok(ToldWheel { why, words })
}

// What is told of a wheel of a line, where it printed a character.
fn push_wheel(
    alloc: Global,
    told: &mut Vec<ToldWheel>,
    setup: &Setup,
    asked: &[(String, Setup)],
    cards: &[Card],
    placed: &PlacedLine,
    line: &LineWays,
    wheel: u8,
) -> Result<(), AllocError>
    requires ways { AreWaysOfLine setup.now cards.now placed.now line.now }
    requires range { (1 ≤ wheel) × (wheel ≤ 120) }
    ensures { OnOk result (GainsTold setup.now asked.now cards.now (printed_by placed.now wheel) told.old.items told.new.items) }
{
    let character = placed.text[wheel as usize - 1];
    if character == b' ' {
        return Ok(());
    }
    let one = tell_wheel(alloc, setup, asked, cards, placed, line, wheel)?;
    told.push(one)?;
    Ok(())
}

// What is told of the wheels of a line.
fn push_wheels(
    alloc: Global,
    told: &mut Vec<ToldWheel>,
    setup: &Setup,
    asked: &[(String, Setup)],
    cards: &[Card],
    placed: &PlacedLine,
    line: &LineWays,
) -> Result<(), AllocError>
    requires ways { AreWaysOfLine setup.now cards.now placed.now line.now }
    ensures { OnOk result (GainsTold setup.now asked.now cards.now (printed_on placed.now) told.old.items told.new.items) }
{
    for passed in 0..120 {
        push_wheel(alloc, told, setup, asked, cards, placed, line, passed + 1)?;
    }
    Ok(())
}

// What is told of a line, by the cycle that placed it.
fn push_line(
    alloc: Global,
    told: &mut Vec<ToldWheel>,
    setup: &Setup,
    asked: &[(String, Setup)],
    cards: &[Card],
    placed: &PlacedLine,
    found: &FoundLine,
) -> Result<(), AllocError>
    requires { IsFoundLine setup.now cards.now placed.now found.now }
    ensures { OnOk result (GainsTold setup.now asked.now cards.now (printed_on placed.now) told.old.items told.new.items) }
{
    let line = LineWays::of(alloc, setup, *found)?;
    push_wheels(alloc, told, setup, asked, cards, placed, &line)
}

/// What is told of the printed characters of lines that a setup of the panel prints of a deck: for each its explanation and the words of it,
/// in the order of the lines and of their wheels. `found` has the cycle that placed each line, and `asked` names who asks for wires, as for
/// [`explain_words::explanation_text::explain_text`]. Fails only where no memory is left.
pub fn told_wheels(
    alloc: Global,
    setup: &Setup,
    asked: &[(String, Setup)],
    cards: &[Card],
    lines: &[PlacedLine],
    found: &[FoundLine],
) -> Result<Vec<ToldWheel>, AllocError>
    requires { AreFoundLines setup.now cards.now lines.now found.now }
    ensures { IfOk result (λ told. AreTold setup.now asked.now cards.now (printed_places lines.now) told.items) }
{
    let mut told = Vec::new(alloc);
    for place in 0..lines.len() {
        let Some(one) = found.get(place) else {
            unreachable!();
        };
        push_line(alloc, &mut told, setup, asked, cards, &lines[place], one)?;
    }
    Ok(told)
}
