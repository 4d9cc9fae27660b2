//! Whether counters are an assignment: enough for the totals of a chart, and each total has its own.

ghost use Rattle.std.specs.Prelude.{◌≡◌, ◌↔◌, IsTrue, option_map};
ghost use Rattle.capacity.specs.Capacities.{standard};
ghost use Rattle.chart_plans.specs.WantedWords.ChartTotals.{totals_of};
ghost use Rattle.chart_plans.specs.PlansWords.Assignments.{IsAssignment};
ghost use Rattle.chart_plans.specs.PlansWords.HelperEnough.{are_enough, IsLeftFor, AreThere, AreSingle, AreOwn, SharesWithOne};

use crate::plans::counter::TotalCounter;
use crate::wanted::{Total, line_total};
use capacity::Profile;
use chart_rules::Chart;

/// Whether each total of a chart has a counter of its own of the standard machine that is enough for it, and there are no
/// more counters.
pub(crate) fn has_assignment(counters: &[TotalCounter], chart: &Chart) -> bool
    ensures { IsTrue result ↔ IsAssignment (totals_of chart.now.lines) standard counters.now }
{
    let has_own = are_own(counters, &Profile::standard());
    let has_enough = has_enough(counters, chart);
    has_own && has_enough
}

/// Whether there are as many counters as totals, each enough for its total.
fn has_enough(counters: &[TotalCounter], chart: &Chart) -> bool
    ensures { result ≡ are_enough (totals_of chart.now.lines) counters.now }
{
    let lines = chart.lines();
    let mut rest = counters;
    for line in lines {
        if let Some(total) = line_total(chart, line) {
            match left_for(total, rest) {
                Some(left) => rest = left,
                None => return false,
            }
        }
    }
    rest.is_empty()
}

/// What is left of some counters where a total takes the first, if that is enough for it.
fn left_for(total: Total, counters: &[TotalCounter]) -> Option<&[TotalCounter]>
    ensures { IsLeftFor total counters.now (option_map (λ left. left.now) result) }
{
    let (first, left) = counters.split_first()?;
    if first.is_enough(total.need) {
        Some(left)
    } else {
        None
    }
}

/// Whether the groups of counters are those of a machine, and none serves two.
fn are_own(counters: &[TotalCounter], profile: &Profile) -> bool
    ensures { IsTrue result ↔ AreOwn profile.now counters.now }
{
    are_there(counters, profile) && are_single(counters)
}

/// Whether a machine has the groups of each of some counters.
fn are_there(counters: &[TotalCounter], profile: &Profile) -> bool
    ensures { IsTrue result ↔ AreThere profile.now counters.now }
{
    counters.iter().all(|counter| counter.is_there(profile))
}

/// Whether no group serves two counters.
fn are_single(counters: &[TotalCounter]) -> bool
    ensures { IsTrue result ↔ AreSingle counters.now }
{
    for (place, counter) in counters.iter().enumerate() {
        if shares_with_one(&counters[..place], *counter) {
            return false;
        }
    }
    true
}

/// Whether one of some counters shares a group with another counter.
fn shares_with_one(counters: &[TotalCounter], other: TotalCounter) -> bool
    ensures { IsTrue result ↔ SharesWithOne counters.now other }
{
    counters.iter().any(|each| each.shares(other))
}
