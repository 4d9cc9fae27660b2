//! A setup beside a chart.

ghost use Rattle.std.specs.Prelude.{IfOk};
ghost use Rattle.match_panels.specs.MatchingWords.Answers.{IsMatched, IsMatchingOf, plan_told};
ghost use Rattle.match_plans.specs.NamingWires.{ShowsPartsOf};
ghost use Rattle.match_plans.specs.Wired.{IsWiredBy};
ghost use Rattle.chart_plans.specs.PlansWords.Plans.{Lists, ServesChart};
ghost use Rattle.hubs.specs.SetupsWords.Wiring.{Wiring};

use crate::differences::{difference, is_same};
use crate::matching::answer::Matching;
use chart_plans::plans::Plan;
use chart_rules::Chart;
use hubs::setups::Setup;
use match_plans::read_plan;
use std::alloc::{AllocError, Global};
use wire_gen::wire;

/// What is found of a setup beside a chart, of which a plan is given. `Matched` tells a plan of the chart by which the setup is wired for
/// it, and where there is such a plan, one is found. `Differs` tells a plan by which the setup is not wired for the chart, and exactly what
/// is missing and what is extra by this plan. If the setup differs from one that is wired for the chart by some plan only in wires that
/// name no part, in jacks and in its tape, the plan told is one by which that one is wired: so exactly what was changed is told. Its only
/// refusal is memory.
pub fn match_setup(
    alloc: Global,
    chart: &Chart,
    own: &Plan,
    setup: &Setup,
) -> Result<Matching, AllocError>
    requires { ServesChart chart.now.lines own.now }
    ensures told { IfOk result (IsMatchingOf chart.now.lines setup.now) }
    ensures found { IfOk result (λ matching. (its : Lists) → IsWiredBy chart.now.lines setup.now its → IsMatched matching) }
    ensures shown { IfOk result (λ matching. (other : Wiring) (its : Lists) → ShowsPartsOf chart.now.lines setup.now other its
        → IsWiredBy chart.now.lines other (plan_told matching)) }
{
    let plan = read_plan(alloc, chart, own, setup)?;
    let wanted = wire(alloc, chart, &plan)?;
    let missing = difference(alloc, &wanted, setup)?;
    let extra = difference(alloc, setup, &wanted)?;
    if is_same(&wanted, setup, &missing, &extra) {
        Ok(Matching::Matched { plan })
    } else {
        Ok(Matching::Differs {
            plan,
            missing,
            extra,
        })
    }
}
