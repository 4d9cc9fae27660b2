//! The keys of cards, and the breaks between cards.

ghost use Rattle.std.specs.Prelude.{◌≡◌, ◌++◌, ◌≤◌, ℕ, List, IfOk, OnOk};
ghost use Rattle.chart_lines.specs.ChartsWords.Levels.{control_number};
ghost use Rattle.chart_rules.specs.Controls.{controls_of};
ghost use Rattle.chart_rules.specs.HelperOnCard.{AreOnCard, IsOnCard};
ghost use Rattle.cli_decks.specs.DeckNotes.KeyReturns.Keys.{AreSetsOf, key_on, punches_on};
ghost use Rattle.cli_decks.specs.DeckNotes.KeyReturns.Returns.{broken_before};
ghost use Rattle.report_definition.specs.Breaks.{highest};
ghost use Rattle.report_definition.specs.Groups.{is_same_at};

use card_code::Card;
use chart_lines::charts::{ControlLevel, Field};
use chart_rules::Chart;
use std::alloc::{AllocError, Global};

// Adds the sets of the columns of a field.
fn add_sets(key: &mut Vec<u16>, field: &Field, card: &Card) -> Result<(), AllocError>
    requires { IsOnCard field.now }
    ensures { OnOk result ((columns : List ℕ) → AreSetsOf columns key.old.items
        → AreSetsOf (columns ++ punches_on card.now field.now) key.new.items) }
{
    for column in field.first..field.last + 1 {
        key.push(card.column(column as u8).set())?;
    }
    Ok(())
}

#[tactic(auto, using(std::proofs::lemmas::List::flat_map_more))]
// The sets of the columns of some fields.
fn key_on(alloc: Global, fields: &[Field], card: &Card) -> Result<Vec<u16>, AllocError>
    requires { AreOnCard fields.now }
    ensures { IfOk result (λ key. AreSetsOf (key_on fields.now card.now) key.items) }
{
    let mut key = Vec::new(alloc);
    for field in fields {
        add_sets(&mut key, field, card)?;
    }
    Ok(key)
}

/// The key of a card at a level: the sets of the columns of the level's control fields.
pub(crate) fn key_of(
    alloc: Global,
    chart: &Chart,
    level: ControlLevel,
    card: &Card,
) -> Result<Vec<u16>, AllocError>
    ensures { IfOk result (λ key. AreSetsOf (key_on (controls_of chart.now.lines (control_number level)) card.now) key.items) }
{
    key_on(alloc, chart.control_fields(level), card)
}

#[tactic(auto, using(crate::proofs::DeckNotes::KeyReturns::SameKeys::same_at))]
// Whether two cards have one key at a level.
fn has_one_key(
    alloc: Global,
    chart: &Chart,
    level: ControlLevel,
    one: &Card,
    other: &Card,
) -> Result<bool, AllocError>
    ensures { IfOk result (λ is. is ≡ is_same_at chart.now.lines (control_number level) one.now other.now) }
{
    let key = key_of(alloc, chart, level, one)?;
    Ok(key == key_of(alloc, chart, level, other)?)
}

/// The highest of the levels 1 to 3 at which a break stands between two cards, or 0. It fails only if memory is refused.
pub fn highest_break(
    alloc: Global,
    chart: &Chart,
    one: &Card,
    other: &Card,
) -> Result<u8, AllocError>
    ensures value { IfOk result (λ level. level ≡ highest chart.now.lines one.now other.now) }
    ensures levels { IfOk result (λ level. level ≤ 3) }
{
    if !has_one_key(alloc, chart, ControlLevel::Major, one, other)? {
        return Ok(3);
    }
    if !has_one_key(alloc, chart, ControlLevel::Intermediate, one, other)? {
        return Ok(2);
    }
    if !has_one_key(alloc, chart, ControlLevel::Minor, one, other)? {
        return Ok(1);
    }
    Ok(0)
}

/// The highest of the levels 1 to 3 at which a break stands before a card, given the card before it, or 0: no break stands before the first card.
pub(crate) fn broken_before(
    alloc: Global,
    chart: &Chart,
    last: &Option<Card>,
    card: &Card,
) -> Result<u8, AllocError>
    ensures value { IfOk result (λ level. level ≡ broken_before chart.now.lines last.now card.now) }
    ensures levels { IfOk result (λ level. level ≤ 3) }
{
    match last {
        Some(last) => highest_break(alloc, chart, last, card),
        None => Ok(0),
    }
}
