//! Whether the machine prints a chart's reports, wired as a setup is.
//!
//! [`match_compiled`] finds whether the setup is wired for the chart by some plan of it. Where it is, the pages that the machine prints are
//! the chart's reports, of every deck that can be run: not of some decks that were tried.

ghost use Rattle.std.specs.Prelude.{IfOk};
ghost use Rattle.match_panels.specs.MatchingWords.Answers.{IsMatched, IsMatchingOf, plan_told};
ghost use Rattle.match_plans.specs.NamingWires.{ShowsPartsOf};
ghost use Rattle.match_plans.specs.Wired.{IsWiredBy};
ghost use Rattle.chart_plans.specs.PlansWords.Plans.{Lists};
ghost use Rattle.hubs.specs.SetupsWords.Wiring.{Wiring};
ghost use Rattle.report_runs.specs.PrintPromises.Promises.{BeginsReport, PrintsReport};

use compile407::{Compiled, wired_setups_begin_reports, wired_setups_print_reports};
use hubs::setups::Setup;
pub use match_panels::matching::Matching;
use match_panels::matching::match_setup;
use std::alloc::{AllocError, Global};

/// What is found of a setup beside a compiled chart. Where it is `Matched`, the setup is wired for the chart by the plan that is told: then
/// for every deck of at most 999,999 valid cards whose totals fit the pages that the machine prints are byte by byte the chart's report, and
/// for any other deck of at most 999,999 valid cards what it prints before the first card at which a total doesn't fit is the report up to
/// there. Where the setup is wired for the chart by some plan of it, it is `Matched`. Where it `Differs`, exactly what is missing and what
/// is extra by the plan that is told is told too. If the setup differs from one that is wired for the chart by some plan only in wires that
/// name no part, in jacks and in its tape, the plan told is one by which that one is wired: so exactly what was changed is told. Its only
/// refusal is memory.
pub fn match_compiled(
    alloc: Global,
    compiled: &Compiled,
    setup: &Setup,
) -> Result<Matching, AllocError>
    ensures told { IfOk result (IsMatchingOf compiled.now.chart.lines setup.now) }
    ensures found { IfOk result (λ matching. (its : Lists) → IsWiredBy compiled.now.chart.lines setup.now its → IsMatched matching) }
    ensures shown { IfOk result (λ matching. (other : Wiring) (its : Lists) → ShowsPartsOf compiled.now.chart.lines setup.now other its
        → IsWiredBy compiled.now.chart.lines other (plan_told matching)) }
    ensures prints { IfOk result (λ matching. IsMatched matching → PrintsReport compiled.now.chart setup.now) }
    ensures begins { IfOk result (λ matching. IsMatched matching → BeginsReport compiled.now.chart setup.now) }
{
    // What is known of every setup that is wired for a chart by a plan of it.
    wired_setups_print_reports();
    wired_setups_begin_reports();
    let chart = compiled.chart();
    let plan = compiled.plan();
    match_setup(alloc, chart, plan, setup)
}
