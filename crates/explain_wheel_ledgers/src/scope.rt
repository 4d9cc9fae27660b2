//! How far down it is told what a wheel is printed of.

ghost use Rattle.std.specs.Prelude.{◌≡◌, ◌≤◌, ℕ, length, Err, IfOk};
ghost use Rattle.card_code.specs.MostCards.{most_cards};
ghost use Rattle.explain_wheels.specs.ExplanationsWords.Explanations.{IsExplanation};
ghost use Rattle.explain_wheels.specs.ExplanationsWords.PlacedInRun.{PrintsNoneAt};
ghost use Rattle.explain_wheels.specs.declared.explanations.refusal.Refusal.TheVariants.{NoSuchLine, NoSuchWheel};
ghost use Rattle.explain_wheel_ledgers.specs.Scopes.{TellsScope};
ghost use Rattle.explain_wheel_ledgers.specs.Totals.{AreAccounts};

use crate::chart_totals::TitledAccount;
use crate::resting::tell_basis;
use crate::whole::tell_whole;
use card_code::Card;
use explain_wheels::explanations::{Explanation, Refusal};
use hubs::setups::Setup;
use std::alloc::Global;

/// How far down it is told what a wheel is printed of.
#[derive(Clone, Copy, Debug, PartialEq, Eq)]
pub enum Scope {
    /// All that it is printed of, as [`tell_basis`] tells it.
    Basis,
    /// The same down to the holes, as [`tell_whole`] tells it.
    Whole,
}

/// The text of what a wheel of a line, which is explained so, is printed of, on a setup of the panel and of a deck, of at most 999,999
/// cards: as [`tell_basis`] or [`tell_whole`] tells it.
///
/// Refused with `NoSuchLine` if no line stands there, and with `Memory` if no memory is left.
pub fn tell_scope(
    alloc: Global,
    setup: &Setup,
    totals: &[TitledAccount],
    cards: &[Card],
    page: u64,
    line: u32,
    told: &Explanation,
    scope: Scope,
    ends: usize,
) -> Result<Vec<u8>, Refusal>
    requires few { length cards.now ≤ most_cards }
    requires accounts { AreAccounts totals.now }
    requires explained { (wheel : ℕ) × IsExplanation setup.now cards.now page line wheel told.now }
    ensures told { IfOk result (λ text. TellsScope scope setup.now cards.now totals.now ends page line told.now text.items) }
    ensures there { result ≡ Err NoSuchWheel → ⊥ }
    ensures no_line { result ≡ Err NoSuchLine → PrintsNoneAt setup.now cards.now page line }
{
    match scope {
        Scope::Basis => tell_basis(alloc, setup, totals, cards, page, line, told, ends),
        Scope::Whole => tell_whole(alloc, setup, totals, cards, page, line, told, ends),
    }
}
