//! The sums behind the figures of a page.

ghost use Rattle.std.specs.Prelude.{◌≡◌, ◌≤◌, ◌<◌, Some, None, All, IfOk, OnOk, length, map};
ghost use Rattle.std.specs.List.{AllZip};
ghost use Rattle.card_code.specs.MostCards.{most_cards};
ghost use Rattle.explain_ledgers.specs.LedgersWords.LedgerText.Names.{account_text};
ghost use Rattle.explain_ledgers.specs.LedgersWords.Accounts.{IsAccount};
ghost use Rattle.explain_ledgers.specs.LedgersWords.Running.{IsKept};
ghost use Rattle.explain_origins.specs.Levels.{called_by};
ghost use Rattle.explain_wheel_ledgers.specs.Totals.{AreAccounts};
ghost use Rattle.show_sums.specs.SumSections.Sums.{AreSums, IsExplained, figure_of, place_of};
ghost use Rattle.show_sums.specs.SumSections.WantedSums.{AreWanted, IsFoundSum, IsSumFor, IsWanted, WantsSum, asked_for, line_place, wanted_at, wanted_of};

use card_code::Card;
use explain_ledgers::ledgers::ledger_text::{positions_of, write_account};
use explain_ledgers::ledgers::{
    Account, AskedLedger, FoundCycle, KeptLedger, Ledger, LinePlace, SoughtLine, find_cycles,
    ledgers_before,
};
use explain_origins::called_by;
use explain_wheel_ledgers::{TitledAccount, account_told, figure_on, find_total, place_printed};
use explain_wheels::explanations::Explanation;
use explain_wheels::explanations::laws::placed_lines_are_printed;
use explain_words::explanation_text::ToldWheel;
use hubs::setups::Setup;
use page_text::placed_lines::LINE_WHEELS;
use show_links::sum_places::{SumPlace, has_sum, sum_at};
use std::alloc::{AllocError, Global};

// How many entries at each end of a long ledger are told.
const ENDS: usize = 100;

/// The sum behind a figure of a page.
#[derive(Drop)]
pub struct PageSum {
    /// Where the figure stands.
    pub at: SumPlace,
    /// The total of a chart that it is, if one is known.
    pub total: Option<TitledAccount>,
    /// The cycle that printed the figure.
    pub found: FoundCycle,
    /// What was added and subtracted up to this cycle: of a long ledger 100 entries at each end.
    pub ledger: Ledger,
    /// How many positions the number has.
    pub positions: u32,
    /// The names of the counter groups.
    pub groups: Vec<u8>,
    /// The figure as it was printed.
    pub figure: Vec<u8>,
    /// Why that cycle ran.
    pub why: Vec<u8>,
}

// A sum that is wanted for a page, before its run.
#[derive(Clone, Copy)]
struct WantedSum {
    // Where the figure stands.
    at: SumPlace,
    // The place of the counter group that it is printed of.
    place: usize,
}

// A wanted sum, and the cycle that printed its figure.
#[derive(Clone, Copy)]
struct FoundSum {
    // The sum.
    wanted: WantedSum,
    // The cycle.
    found: FoundCycle,
}

// The names of the counter groups of an account.
fn groups_of(alloc: Global, account: Account) -> Result<Vec<u8>, AllocError>
    requires { IsAccount account }
    ensures { IfOk result (λ groups. groups.items ≡ account_text account) }
{
    let mut groups = Vec::new(alloc);
    match write_account(&mut groups, account) {
        Ok(()) => Ok(groups),
        Err(_) => Err(AllocError),
    }
}

// The figure of an account on a wheel of a line; none if the wheel isn't one of 1 to 120.
fn figure_of(
    alloc: Global,
    setup: &Setup,
    account: Account,
    line: &[u8; LINE_WHEELS],
    wheel: u8,
) -> Result<Vec<u8>, AllocError>
    requires { IsAccount account }
    ensures { IfOk result (λ figure. figure.items ≡ figure_of setup.now account line.now wheel) }
{
    let mut figure = Vec::new(alloc);
    if 1 <= wheel && wheel <= 120 {
        figure.extend_from_slice(figure_on(setup, account, line, wheel))?;
    }
    Ok(figure)
}

// Why a cycle that printed a line ran.
fn why_of(
    alloc: Global,
    setup: &Setup,
    cards: &[Card],
    found: FoundCycle,
) -> Result<Vec<u8>, AllocError>
    ensures { IfOk result (λ why. why.items ≡ called_by setup.now cards.now found.card found.cycle) }
{
    match called_by(alloc, setup, cards, found.card, found.cycle) {
        Ok(why) => Ok(why),
        Err(_) => Err(AllocError),
    }
}

// Where a sum stands.
fn place_of(sum: &PageSum) -> SumPlace
    ensures { result ≡ place_of sum.now }
{
    sum.at
}

#[tactic(auto, using(crate::proofs::SumSections::Taken::places_more))]
/// Where some sums stand. Fails only if no memory is left.
pub fn sum_places(alloc: Global, sums: &[PageSum]) -> Result<Vec<SumPlace>, AllocError>
    ensures { IfOk result (λ places. places.items ≡ map place_of sums.now) }
{
    let mut places = Vec::new(alloc);
    for sum in sums {
        places.push(place_of(sum))?;
    }
    Ok(places)
}

// Where a wanted sum stands.
fn wanted_at(wanted: &WantedSum) -> SumPlace
    ensures { result ≡ wanted_at wanted.now }
{
    wanted.at
}

// Where some wanted sums stand.
fn wanted_places(alloc: Global, wanted: &[WantedSum]) -> Result<Vec<SumPlace>, AllocError>
    ensures { IfOk result (λ places. places.items ≡ map wanted_at wanted.now) }
{
    let mut places = Vec::new(alloc);
    for one in wanted {
        places.push(wanted_at(one))?;
    }
    Ok(places)
}

// Wants the sum behind a wheel, if it is printed of a counter group and the sum isn't wanted yet.
fn want_sum(
    alloc: Global,
    wanted: &mut Vec<WantedSum>,
    totals: &[TitledAccount],
    why: &Explanation,
) -> Result<(), AllocError>
    requires { AreAccounts totals.now }
    ensures { OnOk result (WantsSum totals.now why.now wanted.old.items wanted.new.items) }
{
    // This law does nothing. It saves the case of a line that no cycle placed.
    placed_lines_are_printed();
    let Some(place) = place_printed(why) else {
        return Ok(());
    };
    let at = sum_at(totals, why, place);
    let places = wanted_places(alloc, wanted)?;
    if has_sum(&places, at) {
        return Ok(());
    }
    wanted.push(WantedSum { at, place })?;
    Ok(())
}

// The sums that are wanted for some wheels, each once.
fn wanted_sums(
    alloc: Global,
    totals: &[TitledAccount],
    told: &[ToldWheel],
) -> Result<Vec<WantedSum>, AllocError>
    requires { AreAccounts totals.now }
    ensures { IfOk result (λ wanted. AreWanted totals.now told.now wanted.items) }
{
    let mut wanted = Vec::new(alloc);
    for one in told {
        want_sum(alloc, &mut wanted, totals, &one.why)?;
    }
    Ok(wanted)
}

// Where the line of a wanted sum stands.
fn line_place(wanted: &WantedSum) -> LinePlace
    ensures { result ≡ line_place wanted.now }
{
    LinePlace {
        page: wanted.at.page,
        line: wanted.at.line,
    }
}

// Where the lines of some wanted sums stand.
fn line_places(alloc: Global, wanted: &[WantedSum]) -> Result<Vec<LinePlace>, AllocError>
    ensures { IfOk result (λ places. places.items ≡ map line_place wanted.now) }
{
    let mut places = Vec::new(alloc);
    for one in wanted {
        places.push(line_place(one))?;
    }
    Ok(places)
}

// A wanted sum whose line is found.
fn found_sum(wanted: WantedSum, sought: &SoughtLine) -> FoundSum
    requires { sought.now.found ≡ None → ⊥ }
    ensures wanted { result.wanted ≡ wanted }
    ensures found { sought.now.found ≡ Some result.found }
{
    match sought.found {
        Some(found) => FoundSum { wanted, found },
        None => unreachable!(),
    }
}

// The wanted sums with the cycles that printed their figures, by one run.
fn found_sums(
    alloc: Global,
    setup: &Setup,
    cards: &[Card],
    wanted: &[WantedSum],
) -> Result<Vec<FoundSum>, AllocError>
    requires few { length cards.now ≤ most_cards }
    requires wanted { All (IsWanted setup.now cards.now) wanted.now }
    ensures wanted { IfOk result (λ found. map wanted_of found.items ≡ wanted.now) }
    ensures found { IfOk result (λ found. All (IsFoundSum setup.now cards.now) found.items) }
{
    let places = line_places(alloc, wanted)?;
    let sought = find_cycles(alloc, setup, cards, &places)?;
    let mut found = Vec::new(alloc);
    for k in 0..wanted.len() {
        found.push(found_sum(wanted[k], &sought[k]))?;
    }
    Ok(found)
}

// The ledger that a sum asks for.
fn asked_for(totals: &[TitledAccount], one: &FoundSum) -> AskedLedger
    requires { AreAccounts totals.now }
    ensures { result ≡ asked_for totals.now one.now }
{
    let total = find_total(totals, one.wanted.place);
    AskedLedger {
        account: account_told(&total, one.wanted.place),
        passed: one.found.passed,
    }
}

// The ledgers that some sums ask for.
fn asked_ledgers(
    alloc: Global,
    totals: &[TitledAccount],
    found: &[FoundSum],
) -> Result<Vec<AskedLedger>, AllocError>
    requires { AreAccounts totals.now }
    ensures { IfOk result (λ asked. asked.items ≡ map (asked_for totals.now) found.now) }
{
    let mut asked = Vec::new(alloc);
    for one in found {
        asked.push(asked_for(totals, one))?;
    }
    Ok(asked)
}

// A sum, with its ledger.
fn sum_of(
    alloc: Global,
    setup: &Setup,
    totals: &[TitledAccount],
    cards: &[Card],
    one: &FoundSum,
    kept: KeptLedger,
) -> Result<PageSum, AllocError>
    requires accounts { AreAccounts totals.now }
    requires place { one.now.wanted.place < 32 }
    requires found { IsFoundSum setup.now cards.now one.now }
    requires asked { kept.asked ≡ asked_for totals.now one.now }
    requires kept { IsKept setup.now cards.now 100 kept }
    ensures { IfOk result (IsSumFor setup.now totals.now cards.now one.now.wanted) }
{
    let total = find_total(totals, one.wanted.place);
    let KeptLedger { asked, ledger } = kept;
    let groups = groups_of(alloc, asked.account)?;
    let wheel = one.wanted.at.wheel;
    let figure = figure_of(alloc, setup, asked.account, &one.found.line.text, wheel)?;
    let ran = why_of(alloc, setup, cards, one.found)?;
    Ok(PageSum {
        at: one.wanted.at,
        total,
        found: one.found,
        ledger,
        positions: positions_of(asked.account),
        groups,
        figure,
        why: ran,
    })
}

// The sums whose cycles are found, with their ledgers, by one run.
fn sums_of(
    alloc: Global,
    setup: &Setup,
    totals: &[TitledAccount],
    cards: &[Card],
    found: &[FoundSum],
) -> Result<Vec<PageSum>, AllocError>
    requires few { length cards.now ≤ most_cards }
    requires accounts { AreAccounts totals.now }
    requires places { All (λ one. one.wanted.place < 32) found.now }
    requires found { All (IsFoundSum setup.now cards.now) found.now }
    ensures { IfOk result (λ sums. AllZip (IsSumFor setup.now totals.now cards.now) (map wanted_of found.now) sums.items) }
{
    let asked = asked_ledgers(alloc, totals, found)?;
    let mut kept = ledgers_before(alloc, setup, cards, &asked, ENDS)?;
    let mut sums = Vec::new(alloc);
    for one in found {
        // The ledgers come in the order of the sums.
        let sum = sum_of(alloc, setup, totals, cards, one, kept.remove(0))?;
        sums.push(sum)?;
    }
    Ok(sums)
}

/// The sums behind the wheels that are told of, each once, in the order in which a wheel of each is met first; of a deck of at most 999,999
/// cards. The deck is run twice, up to the last of their lines. Fails only if no memory is left.
pub fn page_sums(
    alloc: Global,
    setup: &Setup,
    totals: &[TitledAccount],
    cards: &[Card],
    told: &[ToldWheel],
) -> Result<Vec<PageSum>, AllocError>
    requires few { length cards.now ≤ most_cards }
    requires accounts { AreAccounts totals.now }
    requires explained { All (λ one. IsExplained setup.now cards.now one.why) told.now }
    ensures { IfOk result (λ sums. AreSums setup.now totals.now cards.now told.now sums.items) }
{
    let wanted = wanted_sums(alloc, totals, told)?;
    let found = found_sums(alloc, setup, cards, &wanted)?;
    let sums = sums_of(alloc, setup, totals, cards, &found)?;
    Ok(sums)
}
