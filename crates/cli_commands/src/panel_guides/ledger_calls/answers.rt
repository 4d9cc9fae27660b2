//! Ledgers from the bytes of a text and a deck.

ghost use Rattle.std.specs.Prelude.{◌≡◌, ◌≢◌, ◌≤◌, length, IfErr, IfOk};
ghost use Rattle.card_code.specs.MostCards.{most_cards};
ghost use Rattle.fault_lines.specs.declared.faults.fault.Fault.TheVariants.{Memory};
ghost use Rattle.cli_commands.specs.PanelGuides.LedgerCalls.Ledgers.{IsLedgerText, TellsPlace, ends_told};
ghost use Rattle.cli_commands.specs.PanelGuides.Explained.{IsUnexplained, LacksPlace};
ghost use Rattle.cli_commands.specs.declared.panel_guides.unexplained.Unexplained.TheVariants.{Failed};
ghost use Rattle.explain_wheel_ledgers.specs.Totals.{AreAccounts};

use crate::panel_guides::text_runs::TextRun;
use crate::panel_guides::{Place, Unexplained, unexplained_at};
use card_code::Card;
use explain_wheel_ledgers::{TitledAccount, tell_ledger};
use hubs::setups::Setup;
use std::alloc::Global;

// How many entries at each end of a long ledger are told.
pub(crate) const ENDS: usize = 20;

// How many entries at each end of a ledger are told, whether all of them are asked for or not.
fn ends_told(all: bool) -> usize
    ensures { result ≡ ends_told all }
{
    if all { usize::MAX } else { ENDS }
}

// The ledger of the figure on a wheel of a line that a panel prints of cards, by the totals that are known.
fn told_on<'a>(
    alloc: Global,
    setup: &Setup,
    totals: &[TitledAccount],
    cards: &[Card],
    place: Place,
    ends: usize,
) -> Result<Vec<u8>, Unexplained<'a>>
    requires few { length cards.now ≤ most_cards }
    requires accounts { AreAccounts totals.now }
    ensures tells { IfOk result (λ text. TellsPlace setup.now cards.now totals.now ends place text.items) }
    ensures lacks { IfErr result (λ told. told ≢ Failed Memory → LacksPlace setup.now cards.now place told) }
{
    let Ok(wheel) = u8::try_from(place.wheel) else {
        return Err(Unexplained::NoSuchWheel { wheel: place.wheel });
    };
    match tell_ledger(
        alloc, setup, totals, cards, place.page, place.line, wheel, ends,
    ) {
        Ok(text) => Ok(text),
        Err(refusal) => Err(unexplained_at(refusal, place)),
    }
}

/// The ledger of the figure on a wheel of a line: of a line of a planning chart's report, or of one that is printed of a deck on a panel
/// wired by a wiring chart, as [`crate::panel_guides::is_wiring_text`] tells them apart. Each entry tells the words of the planning chart, or of the chart
/// that is read off the panel, if it is wired for that one. Of a ledger with more than 40 entries the first 20 and the last 20 are told, and
/// in one line what those between come to; all of them are told if `all` is asked for.
///
/// # Errors
///
/// The fault of the chart, else of the deck's text, else of its cards for the chart, or the fault of the wiring chart, else of the deck's
/// text; else `NoSuchWheel` if the wheel isn't one of 1 to 120, else `NoSuchLine` if no line is printed there. `Memory` if a growth was
/// refused.
pub fn told_ledger<'a>(
    alloc: Global,
    text: &[u8],
    deck: &[u8],
    place: Place,
    all: bool,
) -> Result<Vec<u8>, Unexplained<'a>>
    ensures told { IfOk result (λ answer. IsLedgerText text.now deck.now (ends_told all) place answer.items) }
    ensures refused { IfErr result (λ told. told ≢ Failed Memory → IsUnexplained text.now deck.now place told) }
{
    let run = TextRun::of(alloc, text, deck)?;
    let totals = run.totals(alloc)?;
    told_on(
        alloc,
        run.setup(),
        totals.as_slice(),
        run.cards(),
        place,
        ends_told(all),
    )
}
