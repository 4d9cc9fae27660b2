//! Whether the page of the report around which pages are to be shown is there.

ghost use Rattle.std.specs.Prelude.{◌≡◌, ◌≢◌, ◌≤◌, false, length, true, IfErr, IfOk, OnOk};
ghost use Rattle.card_code.specs.MostCards.{most_cards};
ghost use Rattle.fault_lines.specs.declared.faults.fault.Fault.TheVariants.{Memory};
ghost use Rattle.cli_commands.specs.declared.panel_guides.unexplained.Unexplained.TheVariants.{Failed};
ghost use Rattle.cli_calls.specs.WholeRuns.Whole.{no_page};
ghost use Rattle.cli_calls.specs.BrowserPages.Asked.{EndsBefore, IsThere, LacksAsked, ReachesPage, reaches};

use crate::whole_runs::no_page;
use card_code::Card;
use cli_commands::panel_guides::Unexplained;
use fault_lines::faults::Fault;
use hubs::setups::Setup;
use machine::simulate;
use page_text::placed_lines::PlacedLine;
use std::alloc::Global;

// Whether a line stands on a page, or on one behind it.
fn reaches(lines: &[PlacedLine], page: u64) -> bool
    ensures { result ≡ reaches page lines.now }
{
    lines.iter().any(|line| page <= line.page)
}

// Whether a panel prints a line of cards on a page, or on one behind it. The deck is run once.
fn reaches_page<'a>(
    alloc: Global,
    setup: &Setup,
    cards: &[Card],
    page: u64,
) -> Result<bool, Fault<'a>>
    requires { length cards.now ≤ most_cards }
    ensures there { IfOk result (λ is. is ≡ true → ReachesPage setup.now cards.now page) }
    ensures lacks { IfOk result (λ is. is ≡ false → EndsBefore setup.now cards.now page) }
    ensures memory { IfErr result (λ told. told ≡ Memory) }
{
    let lines = simulate(alloc, setup, cards)?;
    Ok(reaches(lines.as_slice(), page))
}

// Whether a panel prints this page of cards: else that it isn't there.
fn check_page<'a>(
    alloc: Global,
    setup: &Setup,
    cards: &[Card],
    page: u64,
) -> Result<(), Unexplained<'a>>
    requires { length cards.now ≤ most_cards }
    ensures there { OnOk result (ReachesPage setup.now cards.now page) }
    ensures lacks { IfErr result (λ told. told ≢ Failed Memory → EndsBefore setup.now cards.now page × (told ≡ no_page page)) }
{
    let is_there = reaches_page(alloc, setup, cards, page)?;
    if is_there { Ok(()) } else { Err(no_page(page)) }
}

// Whether a panel prints the page of cards that is asked for, if one is: else that it isn't there.
pub(crate) fn check_asked<'a>(
    alloc: Global,
    setup: &Setup,
    cards: &[Card],
    around: Option<u32>,
) -> Result<(), Unexplained<'a>>
    requires { length cards.now ≤ most_cards }
    ensures there { OnOk result (IsThere setup.now cards.now around) }
    ensures lacks { IfErr result (λ told. told ≢ Failed Memory → LacksAsked setup.now cards.now around told) }
{
    match around {
        Some(page) => check_page(alloc, setup, cards, u64::from(page)),
        None => Ok(()),
    }
}
