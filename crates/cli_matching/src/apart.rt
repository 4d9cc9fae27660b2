//! The line of a deck that two panels print differently.

ghost use Rattle.std.specs.Prelude.{◌≡◌, ◌≤◌, IfErr, IfOk, length};
ghost use Rattle.std.specs.String.{string_bytes};
ghost use Rattle.card_code.specs.MostCards.{most_cards};
ghost use Rattle.cli_matching.specs.Apart.{IsPairText, IsWheelText};
ghost use Rattle.cli_matching.specs.Helper.{IsApart};

use crate::match_decks::{Difference, LinePlace, deck_difference};
use crate::panels::Panels;
use card_code::Card;
use explain_wheels::explanations::Refusal;
use explain_words::explanation_text::explain_text;
use fault_lines::faults::Fault;
use hubs::setups::Setup;
use std::alloc::{AllocError, Global};

/// A line that two panels print differently.
#[derive(Drop)]
pub(crate) struct Apart {
    /// Where it stands.
    pub(crate) place: LinePlace,
    /// What is printed of it.
    pub(crate) text: String,
}

#[tactic(auto, using(crate::proofs::Pairs::wheel_printed, crate::proofs::Pairs::wheel_unprinted))]
// What is told of a wheel of a line on a panel: why it printed its character, or that no line is printed there.
fn wheel_text(
    alloc: Global,
    setup: &Setup,
    cards: &[Card],
    at: Difference,
) -> Result<String, AllocError>
    requires { length cards.now ≤ most_cards }
    ensures { IfOk result (λ text. IsWheelText setup.now cards.now at (string_bytes text)) }
{
    match explain_text(
        alloc,
        setup,
        &[],
        cards,
        at.place.page,
        at.place.line,
        at.wheel,
    ) {
        Ok(text) => Ok(text),
        Err(Refusal::NoSuchLine) => String::from_str(alloc, "no line is printed here\n"),
        // The wheel is one of a line's, so it is memory that is wanting.
        Err(Refusal::NoSuchWheel | Refusal::Memory) => Err(AllocError),
    }
}

#[tactic(auto, using(crate::proofs::Pairs::pair_told))]
// What is told of the wheel on both panels.
fn pair_text(
    alloc: Global,
    own: &Setup,
    setup: &Setup,
    cards: &[Card],
    at: Difference,
) -> Result<String, AllocError>
    requires { length cards.now ≤ most_cards }
    ensures { IfOk result (λ text. IsPairText own.now setup.now cards.now at (string_bytes text)) }
{
    let before = wheel_text(alloc, own, cards, at)?;
    let behind = wheel_text(alloc, setup, cards, at)?;
    let mut text = String::from_str(alloc, "wired for the chart\n")?;
    text.push_str(before.as_str())?;
    text.push_str("wired as here\n")?;
    text.push_str(behind.as_str())?;
    Ok(text)
}

#[tactic(auto, using(crate::proofs::Pairs::apart_told))]
// The first line of a deck that a panel prints otherwise than the chart's own, with what is printed of it.
fn find_apart(
    alloc: Global,
    own: &Setup,
    setup: &Setup,
    cards: &[Card],
) -> Result<Option<Apart>, AllocError>
    requires { length cards.now ≤ most_cards }
    ensures { IfOk result (IsApart own.now setup.now cards.now) }
{
    let Some(at) = deck_difference(alloc, own, setup, cards)? else {
        return Ok(None);
    };
    let text = pair_text(alloc, own, setup, cards, at)?;
    let place = at.place;
    Ok(Some(Apart { place, text }))
}

/// The first line of a deck that a panel prints otherwise than the chart's own, with what is printed of it; none where it prints the same
/// lines.
///
/// # Errors
///
/// `Memory` where a growth was refused.
pub(crate) fn apart_on<'a>(
    alloc: Global,
    panels: &Panels,
    cards: &[Card],
) -> Result<Option<Apart>, Fault<'a>>
    requires { length cards.now ≤ most_cards }
    ensures apart { IfOk result (IsApart panels.now.compiled.setup panels.now.setup cards.now) }
    ensures memory { IfErr result (λ told. told ≡ Fault.Memory) }
{
    Ok(find_apart(alloc, panels.compiled.setup(), &panels.setup, cards)?)
}
