//! Explanations with all that a wheel is printed of.

ghost use Rattle.std.specs.Prelude.{◌≡◌, ◌≢◌, ◌≤◌, ◌++◌, length, IfErr, IfOk};
ghost use Rattle.card_code.specs.MostCards.{most_cards};
ghost use Rattle.explain_wheels.specs.ExplanationsWords.Explanations.{IsExplanation};
ghost use Rattle.fault_lines.specs.declared.faults.fault.Fault.TheVariants.{Memory};
ghost use Rattle.cli_commands.specs.PanelGuides.LedgerCalls.Explained.{IsExplainedWithBasis, TellsBelow, scope_told};
ghost use Rattle.cli_commands.specs.PanelGuides.Explained.{IsNoWheel, IsUnexplained, LacksPlace};
ghost use Rattle.cli_commands.specs.declared.panel_guides.unexplained.Unexplained.TheVariants.{Failed};
ghost use Rattle.explain_wheel_ledgers.specs.Totals.{AreAccounts};

use crate::panel_guides::answers::explained_on;
use crate::panel_guides::ledger_calls::answers::ENDS;
use crate::panel_guides::text_runs::TextRun;
use crate::panel_guides::{Place, Unexplained, unexplained_at};
use card_code::Card;
use explain_wheel_ledgers::{Scope, TitledAccount, put_together, tell_scope};
use explain_wheels::explanations::Explanation;
use fault_lines::faults::Fault;
use hubs::setups::Setup;
use std::alloc::Global;

// A text, and another one behind it, for those who tell faults.
fn joined<'a>(alloc: Global, front: &[u8], behind: &[u8]) -> Result<Vec<u8>, Fault<'a>>
    ensures value { IfOk result (λ all. all.items ≡ front.now ++ behind.now) }
    ensures memory { IfErr result (λ told. told ≡ Memory) }
{
    Ok(put_together(alloc, front, behind)?)
}

// What is told below an explanation.
fn scope_told(whole: bool) -> Scope
    ensures { result ≡ scope_told whole }
{
    if whole { Scope::Whole } else { Scope::Basis }
}

// What a wheel of a line that a panel prints of cards is printed of, by its explanation and the totals that are known.
fn basis_on<'a>(
    alloc: Global,
    setup: &Setup,
    totals: &[TitledAccount],
    cards: &[Card],
    place: Place,
    told: &Explanation,
    scope: Scope,
) -> Result<Vec<u8>, Unexplained<'a>>
    requires few { length cards.now ≤ most_cards }
    requires accounts { AreAccounts totals.now }
    requires wheel { ¬ IsNoWheel place.wheel }
    requires explained { IsExplanation setup.now cards.now place.page place.line place.wheel told.now }
    ensures tells { IfOk result (λ text. TellsBelow setup.now cards.now totals.now scope place told.now text.items) }
    ensures lacks { IfErr result (λ told. told ≢ Failed Memory → LacksPlace setup.now cards.now place told) }
{
    match tell_scope(
        alloc, setup, totals, cards, place.page, place.line, told, scope, ENDS,
    ) {
        Ok(text) => Ok(text),
        Err(refusal) => Err(unexplained_at(refusal, place)),
    }
}

/// Why a wheel of a line printed its character, as [`crate::panel_guides::explained`] tells it, and below it all that the wheel is printed of by this very
/// explanation: the ledger of each counter group, since which cycle a storage unit holds its text and by which holes, and why a program cycle
/// ran. Of a ledger with more than 40 entries the first 20 and the last 20 are told, and in one line what those between come to. `whole`
/// asks for ledgers down to the holes of the cards.
///
/// # Errors
///
/// As [`crate::panel_guides::explained`].
pub fn explained_with_basis<'a>(
    alloc: Global,
    text: &[u8],
    deck: &[u8],
    place: Place,
    whole: bool,
) -> Result<Vec<u8>, Unexplained<'a>>
    ensures told { IfOk result (λ answer. IsExplainedWithBasis text.now deck.now whole place answer.items) }
    ensures refused { IfErr result (λ told. told ≢ Failed Memory → IsUnexplained text.now deck.now place told) }
{
    let run = TextRun::of(alloc, text, deck)?;
    let asked = run.asked(alloc, text)?;
    let why = explained_on(alloc, run.setup(), &asked, run.cards(), place)?;
    let totals = run.totals(alloc)?;
    let basis = basis_on(
        alloc,
        run.setup(),
        totals.as_slice(),
        run.cards(),
        place,
        &why.why,
        scope_told(whole),
    )?;
    Ok(joined(alloc, why.words.as_bytes(), basis.as_slice())?)
}
