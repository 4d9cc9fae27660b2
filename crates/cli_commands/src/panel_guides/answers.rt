//! Explanations from the bytes of a text and a deck.

ghost use Rattle.std.specs.Prelude.{◌≡◌, ◌≢◌, ◌≤◌, length, IfErr, IfOk, OnOk};
ghost use Rattle.std.specs.String.{string_bytes};
ghost use Rattle.card_code.specs.MostCards.{most_cards};
ghost use Rattle.fault_lines.specs.declared.faults.fault.Fault.TheVariants.{Memory};
ghost use Rattle.cli_commands.specs.PanelGuides.Explained.{ExplainsBy, IsExplained, IsNoWheel, IsUnexplained, LacksPlace};
ghost use Rattle.cli_commands.specs.declared.panel_guides.unexplained.Unexplained.TheVariants.{Failed};

use crate::panel_guides::place::Place;
use crate::panel_guides::text_runs::TextRun;
use crate::panel_guides::unexplained::Unexplained;
use card_code::Card;
use explain_wheels::explanations::Refusal;
use explain_words::explanation_text::{ToldWheel, explain_wheel};
use fault_lines::faults::Fault;
use hubs::setups::Setup;
use std::alloc::Global;

/// Why the wheel of a place isn't explained, by what refused it: there is no such wheel, no such line, or memory ran out.
pub fn unexplained_at<'a>(refusal: Refusal, place: Place) -> Unexplained<'a>
    ensures wheel { refusal ≡ Refusal.NoSuchWheel → result ≡ Unexplained.NoSuchWheel place.wheel }
    ensures line { refusal ≡ Refusal.NoSuchLine → result ≡ Unexplained.NoSuchLine place.page place.line }
    ensures memory { refusal ≡ Refusal.Memory → result ≡ Failed Memory }
{
    match refusal {
        Refusal::NoSuchLine => Unexplained::NoSuchLine {
            page: place.page,
            line: place.line,
        },
        Refusal::NoSuchWheel => Unexplained::NoSuchWheel { wheel: place.wheel },
        Refusal::Memory => Unexplained::Failed {
            fault: Fault::Memory,
        },
    }
}

#[tactic(auto, using(crate::proofs::PanelGuides::Explaining::is_wheel))]
/// The explanation of a wheel of a line that a panel prints of cards, with those who ask for wires.
pub(crate) fn explained_on<'a>(
    alloc: Global,
    setup: &Setup,
    asked: &[(String, Setup)],
    cards: &[Card],
    place: Place,
) -> Result<ToldWheel, Unexplained<'a>>
    requires { length cards.now ≤ most_cards }
    ensures explains { IfOk result (λ why. ExplainsBy setup.now asked.now cards.now place why.why (string_bytes why.words)) }
    ensures wheel { OnOk result (¬ IsNoWheel place.wheel) }
    ensures lacks { IfErr result (λ told. told ≢ Failed Memory → LacksPlace setup.now cards.now place told) }
{
    let Ok(wheel) = u8::try_from(place.wheel) else {
        return Err(Unexplained::NoSuchWheel { wheel: place.wheel });
    };
    match explain_wheel(alloc, setup, asked, cards, place.page, place.line, wheel) {
        Ok(why) => Ok(why),
        Err(refusal) => Err(unexplained_at(refusal, place)),
    }
}

/// Why a wheel of a line printed its character: of a line of a planning chart's report, or of one that is printed of a deck on a panel
/// wired by a wiring chart, as [`crate::panel_guides::is_wiring_text`] tells them apart. Each way names the lines that ask for its wires: those of the planning
/// chart, or of the chart that is read off the panel, if it is wired for that one.
///
/// # Errors
///
/// The fault of the chart, else of the deck's text, else of its cards for the chart, or the fault of the wiring chart, else of the deck's
/// text; else `NoSuchWheel` where the wheel isn't one of 1 to 120, else `NoSuchLine` where no line is printed there. `Memory` where a
/// growth was refused.
pub fn explained<'a>(
    alloc: Global,
    text: &[u8],
    deck: &[u8],
    place: Place,
) -> Result<String, Unexplained<'a>>
    ensures explained { IfOk result (λ answer. IsExplained text.now deck.now place (string_bytes answer)) }
    ensures refused { IfErr result (λ told. told ≢ Failed Memory → IsUnexplained text.now deck.now place told) }
{
    let run = TextRun::of(alloc, text, deck)?;
    let asked = run.asked(alloc, text)?;
    let why = explained_on(alloc, run.setup(), &asked, run.cards(), place)?;
    Ok(why.into_words())
}
